ghost use Rattle.gap_text.specs.Grammar.{ValueIsSpelled, FaultIsNoValue};
ghost use Rattle.gap_text.specs.Places.{FaultIsPlaced};

/// A law, and nothing at run time: a text has a value exactly where the grammar gives it that value.
pub fn value_is_spelled()
    ensures { ValueIsSpelled }
{}

/// A law, and nothing at run time: a text has a fault exactly where the grammar gives it no value.
pub fn fault_is_no_value()
    ensures { FaultIsNoValue }
{}

/// A law, and nothing at run time: a fault has the place of the first token that no text of the
/// grammar can have there, or of the end.
pub fn fault_is_placed()
    ensures { FaultIsPlaced }
{}
