use field_matrix::Row;
use small_field::{Cochain, Field};

/// What clears a cochain, and what is left of it.
#[derive(Drop)]
pub struct Cleared<F: Field> {
    /// The values that are left at the critical cells.
    pub w: Row<F>,
    /// The cochain of one degree less, on lowers, whose coboundary was taken away.
    pub y: Cochain<F>,
}
