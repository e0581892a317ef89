// Where a row is not zero.
ghost use Rattle.std.specs.Prelude.{◌≡◌, ◌+◌, ◌<◌, ◌≤◌, ◌^◌, length};
ghost use Rattle.lane_rows.specs.Lanes.{first_place, IsFirstFrom};

use crate::vectors::first_in;

/// The first place, from 0, whose number is not 0; `None` where all are 0.
pub fn first_nonzero(row: &[u8]) -> Option<u32>
    requires { length row.now < 2 ^ 32 }
    ensures { result ≡ first_place row.now }
{
    let place = first_nonzero_from(row, 0, row.len());
    if place < row.len() {
        Some(place as u32)
    } else {
        None
    }
}

/// The first place from `begin` on, before `end`, whose number is not 0; `end` where all are 0.
pub fn first_nonzero_from(row: &[u8], begin: usize, end: usize) -> usize
    requires begin { begin ≤ end }
    requires end { end ≤ length row.now }
    ensures { IsFirstFrom row.now begin end result }
{
    let whole = begin + (end - begin) / 16 * 16;
    for chunk in 0..(end - begin) / 16 {
        let at = begin + chunk * 16;
        let place = first_in(row, at);
        if place < 16 {
            return at + place;
        }
    }
    for i in whole..end {
        if row[i] != 0 {
            return i;
        }
    }
    end
}
