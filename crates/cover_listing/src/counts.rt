// How many tables there are of each number of sheets.
ghost use Rattle.std.specs.Prelude.{◌≡◌, ◌+◌, ◌-◌, ◌<◌, ◌≤◌, ◌^◌, slice_index, slice_set};

/// Counts a table of so many sheets, 1 to 8; the count of one sheet stands first.
pub(crate) fn count_sheets(counts: &mut [u64; 8], sheets: u8)
    requires least { 1 ≤ sheets }
    requires most { sheets ≤ 8 }
    requires room { slice_index counts.old (sheets - 1) + 1 < 2 ^ 64 }
    ensures { counts.new ≡ slice_set counts.old (sheets - 1) (slice_index counts.old (sheets - 1) + 1) }
{
    counts[(sheets - 1) as usize] += 1;
}
