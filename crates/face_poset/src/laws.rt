ghost use Rattle.face_poset.specs.Laws.{TextReadsBack, CofacesAreCellsAbove, ClosedCellIsOrdered, ClosedCellIsLeast};

/// A law, and nothing at run time: the boundary text of a space reads as the space.
pub fn text_reads_back()
    ensures { TextReadsBack }
{}

/// A law, and nothing at run time: the cofaces of a cell are exactly the cells that have it as a
/// facet, in increasing order.
pub fn cofaces_are_cells_above()
    ensures { CofacesAreCellsAbove }
{}

/// A law, and nothing at run time: a cell with all its faces is in the order of ids.
pub fn closed_cell_is_ordered()
    ensures { ClosedCellIsOrdered }
{}

/// A law, and nothing at run time: a cell with all its faces is the least set that holds the cell
/// and the facets of all its members.
pub fn closed_cell_is_least()
    ensures { ClosedCellIsLeast }
{}
