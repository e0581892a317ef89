// Laws of the reading of words.
ghost use Rattle.hap_words.specs.Laws.{EachIsAsked, FormIsFree, OrderIsFree};

/// A law, and nothing at run time: each command with values in range is what some words ask for.
pub fn each_is_asked()
    ensures { EachIsAsked }
{}

/// A law, and nothing at run time: an option with its value behind `=` and the same in two words are
/// read alike, where the value may stand as a word of its own.
pub fn form_is_free()
    ensures { FormIsFree }
{}

/// A law, and nothing at run time: two options of different names that stand side by side may change
/// places.
pub fn order_is_free()
    ensures { OrderIsFree }
{}
