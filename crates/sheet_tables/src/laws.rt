ghost use Rattle.sheet_tables.specs.Positions.{PositionIsSpelled};
ghost use Rattle.sheet_tables.specs.Spots.{SpotIsSpelled};

/// A law, and nothing at run time: a text has a position exactly where it is the text of that
/// position.
pub fn position_is_spelled()
    ensures { PositionIsSpelled }
{}

/// A law, and nothing at run time: a text has a spot exactly where it is the text of that spot.
pub fn spot_is_spelled()
    ensures { SpotIsSpelled }
{}
