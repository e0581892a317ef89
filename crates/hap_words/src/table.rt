// The commands by their words, and the options that each takes.
ghost use Rattle.std.specs.Prelude.{◌≡◌};
ghost use Rattle.hap_words.specs.Texts.{named};
ghost use Rattle.hap_words.specs.Table.{verbs, kinds, word_of, takes, verb_is_built};

use crate::command::Kind;
use crate::texts::find_named;

/// Which command is asked for.
#[derive(Clone, Copy, Debug, PartialEq, Eq)]
pub enum Verb {
    Cells,
    Check,
    Betti,
    Cup,
    Verify,
    Migrate,
    Group,
    Covers,
    Cover,
    Report,
    Make,
}

/// An option of the command line.
#[derive(Clone, Copy, Debug, PartialEq, Eq)]
pub enum Name {
    Kind,
    In,
    Mod,
    Sheets,
    Budget,
    From,
    Index,
    Size,
    Component,
}

pub fn verb_of_word(word: &str) -> Option<Verb>
    ensures { result ≡ named verbs word.now }
{
    find_named(
        &[
            ("cells", Verb::Cells),
            ("check", Verb::Check),
            ("betti", Verb::Betti),
            ("cup", Verb::Cup),
            ("verify", Verb::Verify),
            ("migrate", Verb::Migrate),
            ("group", Verb::Group),
            ("covers", Verb::Covers),
            ("cover", Verb::Cover),
            ("report", Verb::Report),
            ("make", Verb::Make),
        ],
        word,
    )
}

pub fn kind_of_word(word: &str) -> Option<Kind>
    ensures { result ≡ named kinds word.now }
{
    find_named(
        &[
            ("boundary", Kind::Boundary),
            ("cubical", Kind::Cubical),
            ("permutahedral", Kind::Permutahedral),
            ("arcs", Kind::Arcs),
            ("simplices", Kind::Simplices),
            ("poset", Kind::Poset),
        ],
        word,
    )
}

/// The option's word on the command line, behind two hyphens.
pub fn option_word(name: Name) -> &'static str
    ensures { result.now ≡ word_of name }
{
    match name {
        Name::Kind => "kind",
        Name::In => "in",
        Name::Mod => "mod",
        Name::Sheets => "sheets",
        Name::Budget => "budget",
        Name::From => "from",
        Name::Index => "index",
        Name::Size => "size",
        Name::Component => "component",
    }
}

/// Whether the option stands in the command's line of the table.
pub fn is_taken(verb: Verb, name: Name) -> bool
    ensures { result ≡ takes verb name }
{
    match verb {
        Verb::Cells | Verb::Check | Verb::Group => matches!(name, Name::Kind | Name::In),
        Verb::Betti | Verb::Cup => matches!(name, Name::Kind | Name::In | Name::Mod),
        Verb::Verify | Verb::Migrate => matches!(name, Name::In),
        Verb::Covers => matches!(
            name,
            Name::Kind | Name::In | Name::Sheets | Name::Budget | Name::From
        ),
        Verb::Cover => matches!(
            name,
            Name::Kind
                | Name::In
                | Name::Sheets
                | Name::Index
                | Name::Budget
                | Name::Component
                | Name::Mod
        ),
        Verb::Report => matches!(
            name,
            Name::Kind | Name::In | Name::Mod | Name::Sheets | Name::Budget | Name::From
        ),
        Verb::Make => matches!(name, Name::Size | Name::Mod),
    }
}

/// Whether the command is built.
pub fn is_verb_built(verb: Verb) -> bool
    ensures { result ≡ verb_is_built verb }
{
    matches!(
        verb,
        Verb::Cells
            | Verb::Check
            | Verb::Betti
            | Verb::Group
            | Verb::Covers
            | Verb::Cover
            | Verb::Make
    )
}
