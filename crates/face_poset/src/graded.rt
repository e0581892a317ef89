ghost use Rattle.std.specs.Prelude.{◌≡◌, ◌≤◌, ℕ, Contains, Bool};
ghost use Rattle.face_poset.specs.Poset.{Layers, count, facets_of, cofaces_of, IsSpace};
ghost use Rattle.face_poset.specs.Signs.{sign_of, SignsCancel};

/// Cells of dimensions 0 to 3 with their facets and cofaces.
///
/// Facets are strictly increasing numbers of cells of one dimension less; a vertex has none.
/// Cofaces are exactly the cells of one dimension more with this facet, in increasing order. There
/// is no cell above dimension 3, and at most 4,294,967,295 cells in all.
pub trait Graded {
    /// The cells of each dimension, each as the list of its facets.
    ghost space: { Self → Layers };

    /// How many cells of the dimension there are.
    fn cells(&self, dim: u8) -> u32
        ensures cells { result ≡ count (space self.now) dim }
        ensures valid { IsSpace (space self.now) };

    /// The facets of a cell, which is counted from 1.
    fn facets(&self, dim: u8, cell: u32) -> &[u32]
        requires first { 1 ≤ cell }
        requires last { cell ≤ count (space self.now) dim }
        ensures facets { result.now ≡ facets_of (space self.now) dim cell }
        ensures valid { IsSpace (space self.now) };

    /// The cofaces of a cell, which is counted from 1.
    fn cofaces(&self, dim: u8, cell: u32) -> &[u32]
        requires first { 1 ≤ cell }
        requires last { cell ≤ count (space self.now) dim }
        ensures cofaces { result.now ≡ cofaces_of (space self.now) dim cell }
        ensures valid { IsSpace (space self.now) };
}

/// A graded set whose facets have signs: over each cell and each facet of its facets, the products
/// of the signs sum to 0.
pub trait Signed: Graded {
    /// Whether the sign of a facet is -1: at a dimension, a cell and the number of the facet.
    ghost negative: { Self → ℕ → ℕ → ℕ → Bool };

    /// The sign of a facet of a cell, 1 or -1.
    fn sign(&self, dim: u8, cell: u32, facet: u32) -> i8
        requires first { 1 ≤ cell }
        requires last { cell ≤ count (Self.space self.now) dim }
        requires facet { Contains (facets_of (Self.space self.now) dim cell) facet }
        ensures sign { result ≡ sign_of (negative self.now dim cell facet) }
        ensures law { SignsCancel (Self.space self.now) (negative self.now) };
}
