// Which voxels an arc presentation takes away.
ghost use Rattle.std.specs.Prelude.{◌≡◌, ◌≤◌, ◌<◌, ◌^◌, ℕ, length};
ghost use Rattle.voxel_spaces.specs.ArcComplements.{at, any_row, touches, by_row, row_up_to, row_from, is_taken};

/// Whether a voxel is taken away by a row or a column.
pub(crate) fn is_taken(rows: &[(u32, u32)], x: u64, y: u64, z: u64) -> bool
    requires { length rows.now ≤ 121 }
    ensures { result ≡ is_taken rows.now x y z }
{
    takes_row(rows, x, y, z) || z == 3 && has_row_up_to(rows, x, y) && has_row_from(rows, x, y)
}

/// Whether one of two columns is at x.
fn touches(x: u64, left: u32, right: u32) -> bool
    ensures { result ≡ touches x (left, right) }
{
    x == at(left) || x == at(right)
}

/// The index of a row or of a column.
fn at(number: u32) -> u64
    ensures { result ≡ at number }
{
    (2 * u64::from(number)).saturating_sub(1)
}

/// Whether row number `row` with these columns takes the voxel away.
fn is_taken_by(x: u64, y: u64, z: u64, row: u32, left: u32, right: u32) -> bool
    ensures { result ≡ by_row x y z row (left, right) }
{
    let is_arc = z == 1 && at(left.min(right)) <= x && x <= at(left.max(right));
    let is_connector = z == 2 && touches(x, left, right);
    y == at(row) && (is_arc || is_connector)
}

/// Whether a row takes the voxel away.
fn takes_row(rows: &[(u32, u32)], x: u64, y: u64, z: u64) -> bool
    requires { length rows.now ≤ 121 }
    ensures { result ≡ any_row (by_row x y z) 1 rows.now }
{
    for (index, (left, right)) in rows.iter().enumerate() {
        if is_taken_by(x, y, z, index as u32 + 1, *left, *right) {
            return true;
        }
    }
    false
}

/// Whether row number `row` is not above y and has the column at x.
fn is_up_to(x: u64, y: u64, row: u32, left: u32, right: u32) -> bool
    ensures { result ≡ row_up_to x y row (left, right) }
{
    touches(x, left, right) && at(row) <= y
}

/// Whether row number `row` is not below y and has the column at x.
fn is_from(x: u64, y: u64, row: u32, left: u32, right: u32) -> bool
    ensures { result ≡ row_from x y row (left, right) }
{
    touches(x, left, right) && y <= at(row)
}

/// Whether a row that is not above y has the column at x.
fn has_row_up_to(rows: &[(u32, u32)], x: u64, y: u64) -> bool
    requires { length rows.now ≤ 121 }
    ensures { result ≡ any_row (row_up_to x y) 1 rows.now }
{
    for (index, (left, right)) in rows.iter().enumerate() {
        if is_up_to(x, y, index as u32 + 1, *left, *right) {
            return true;
        }
    }
    false
}

/// Whether a row that is not below y has the column at x.
fn has_row_from(rows: &[(u32, u32)], x: u64, y: u64) -> bool
    requires { length rows.now ≤ 121 }
    ensures { result ≡ any_row (row_from x y) 1 rows.now }
{
    for (index, (left, right)) in rows.iter().enumerate() {
        if is_from(x, y, index as u32 + 1, *left, *right) {
            return true;
        }
    }
    false
}
