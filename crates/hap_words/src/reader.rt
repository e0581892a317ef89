// The reading of the words.
ghost use Rattle.std.specs.Prelude.{◌≡◌, ◌&&◌, true, codes, map, string_bytes, option_map, IfOk};
ghost use Rattle.std.specs.declared.option.Option.TheVariants.{Some, None};
ghost use Rattle.clap.specs.Words.{rows_of, found_of, first_of};
ghost use Rattle.hap_words.specs.Reads.{Reads};
ghost use Rattle.hap_words.specs.Asked.{asked_of, source_of, spot_of, input_of, field_of, name_of};
ghost use Rattle.hap_words.specs.Asked.{covers_of, cover_of, report_of, make_of};
ghost use Rattle.hap_words.specs.Ranges.{is_in_range};
ghost use Rattle.hap_words.specs.Table as table;

use crate::command::{
    Command, CoverOptions, CoversOptions, FieldOptions, Input, InputOptions, Kind, MakeOptions,
    NameOptions, ReportOptions,
};
use crate::fault::WordsFault;
use crate::line::match_words;
use crate::table::{Name, Verb, is_taken, is_verb_built, kind_of_word, option_word, verb_of_word};
use crate::texts::{read_number, read_number_between};
use clap::ArgMatches;
use clap::error::ErrorKind;
use sheet_tables::{PositionFault, Spot};
use std::alloc::Global;

/// The command that the words, those after the program's name, ask for, where the command is built.
pub fn read(alloc: Global, words: &[String]) -> Result<Command, WordsFault>
    ensures asked { Reads asked_of (table.read (map string_bytes words.now)) result }
    ensures built { IfOk result (λ command. table.is_built (asked_of command) ≡ true) }
    ensures ranges { IfOk result (λ command. is_in_range (asked_of command) ≡ true) }
{
    let command = read_any(alloc, words)?;
    if is_built(&command) {
        Ok(command)
    } else {
        Err(WordsFault::Usage)
    }
}

fn is_built(command: &Command) -> bool
    ensures { result ≡ table.is_built (asked_of command.now) }
{
    is_verb_built(verb_of(command))
}

/// The command without its values.
fn verb_of(command: &Command) -> Verb
    ensures { result ≡ table.verb_of (asked_of command.now) }
{
    match command {
        Command::Cells(_) => Verb::Cells,
        Command::Check(_) => Verb::Check,
        Command::Betti(_) => Verb::Betti,
        Command::Cup(_) => Verb::Cup,
        Command::Verify(_) => Verb::Verify,
        Command::Migrate(_) => Verb::Migrate,
        Command::Group(_) => Verb::Group,
        Command::Covers(_) => Verb::Covers,
        Command::Cover(_) => Verb::Cover,
        Command::Report(_) => Verb::Report,
        Command::Make(_) => Verb::Make,
    }
}

/// The command that the words, those after the program's name, ask for, whether or not it is built.
pub fn read_any(alloc: Global, words: &[String]) -> Result<Command, WordsFault>
    ensures { Reads asked_of (table.asked (map string_bytes words.now)) result }
{
    match match_words(alloc, words) {
        Ok(matches) => command_of_matches(alloc, &matches),
        Err(error) => match error.kind() {
            ErrorKind::OutOfMemory => Err(WordsFault::Memory),
            _ => Err(WordsFault::Usage),
        },
    }
}

/// The command that the matches ask for.
fn command_of_matches(alloc: Global, matches: &ArgMatches<'_>) -> Result<Command, WordsFault>
    ensures { Reads asked_of (table.asked_given (rows_of (found_of matches.now))) result }
{
    match verb(matches) {
        Some(verb) if fits(matches, verb) => command(alloc, matches, verb),
        _ => Err(WordsFault::Usage),
    }
}

fn verb(matches: &ArgMatches<'_>) -> Option<Verb>
    ensures { result ≡ table.verb_given (rows_of (found_of matches.now)) }
{
    verb_of_word(command_word(matches)?)
}

/// The word that names the command.
fn command_word<'a>(matches: &ArgMatches<'a>) -> Option<&'a str>
    ensures { option_map (λ s. s.now) result ≡ first_of (codes "command") (rows_of (found_of matches.now)) }
{
    matches.get_str("command")
}

/// Whether only options of the command's line are given.
fn fits(matches: &ArgMatches<'_>, verb: Verb) -> bool
    ensures { result ≡ table.fits verb (table.found_under matches.now) }
{
    fits_at(matches, verb, Name::Kind)
        && fits_at(matches, verb, Name::In)
        && fits_at(matches, verb, Name::Mod)
        && fits_at(matches, verb, Name::Sheets)
        && fits_at(matches, verb, Name::Budget)
        && fits_at(matches, verb, Name::From)
        && fits_at(matches, verb, Name::Index)
        && fits_at(matches, verb, Name::Size)
        && fits_at(matches, verb, Name::Component)
}

fn fits_at(matches: &ArgMatches<'_>, verb: Verb, name: Name) -> bool
    ensures { result ≡ table.fits_at verb (table.found_under matches.now) name }
{
    text_under(matches, name).is_none() || is_taken(verb, name)
}

/// The command with the values of its options.
fn command(alloc: Global, matches: &ArgMatches<'_>, verb: Verb) -> Result<Command, WordsFault>
    ensures { Reads asked_of (table.asked_by verb (table.found_under matches.now)) result }
{
    match verb {
        Verb::Cells => Ok(Command::Cells(input_options(alloc, matches)?)),
        Verb::Check => Ok(Command::Check(input_options(alloc, matches)?)),
        Verb::Betti => Ok(Command::Betti(field_options(alloc, matches)?)),
        Verb::Cup => Ok(Command::Cup(field_options(alloc, matches)?)),
        Verb::Verify => Ok(Command::Verify(name_options(alloc, matches)?)),
        Verb::Migrate => Ok(Command::Migrate(name_options(alloc, matches)?)),
        Verb::Group => Ok(Command::Group(input_options(alloc, matches)?)),
        Verb::Covers => Ok(Command::Covers(covers_options(alloc, matches)?)),
        Verb::Cover => Ok(Command::Cover(cover_options(alloc, matches)?)),
        Verb::Report => Ok(Command::Report(report_options(alloc, matches)?)),
        Verb::Make => Ok(Command::Make(make_options(matches)?)),
    }
}

fn input_options(alloc: Global, matches: &ArgMatches<'_>) -> Result<InputOptions, WordsFault>
    ensures { Reads input_of (table.input_asked (table.found_under matches.now)) result }
{
    Ok(InputOptions {
        input: input(alloc, matches)?,
    })
}

fn field_options(alloc: Global, matches: &ArgMatches<'_>) -> Result<FieldOptions, WordsFault>
    ensures { Reads field_of (table.field_asked (table.found_under matches.now)) result }
{
    Ok(FieldOptions {
        input: input(alloc, matches)?,
        modulus: modulus(matches).ok_or(WordsFault::Usage)?,
    })
}

fn name_options(alloc: Global, matches: &ArgMatches<'_>) -> Result<NameOptions, WordsFault>
    ensures { Reads name_of (table.name_asked (table.found_under matches.now)) result }
{
    Ok(NameOptions {
        name: owned(alloc, text_under(matches, Name::In))?,
    })
}

fn covers_options(alloc: Global, matches: &ArgMatches<'_>) -> Result<CoversOptions, WordsFault>
    ensures { Reads covers_of (table.covers_asked (table.found_under matches.now)) result }
{
    Ok(CoversOptions {
        input: input(alloc, matches)?,
        sheets: sheets(matches).ok_or(WordsFault::Usage)?,
        budget: budget(matches).ok_or(WordsFault::Usage)?,
        from: from(alloc, matches)?,
    })
}

fn cover_options(alloc: Global, matches: &ArgMatches<'_>) -> Result<CoverOptions, WordsFault>
    ensures { Reads cover_of (table.cover_asked (table.found_under matches.now)) result }
{
    Ok(CoverOptions {
        input: input(alloc, matches)?,
        sheets: sheets(matches).ok_or(WordsFault::Usage)?,
        index: index(matches).ok_or(WordsFault::Usage)?,
        component: component(matches).ok_or(WordsFault::Usage)?,
        budget: budget(matches).ok_or(WordsFault::Usage)?,
        modulus: modulus_if(matches).ok_or(WordsFault::Usage)?,
    })
}

fn report_options(alloc: Global, matches: &ArgMatches<'_>) -> Result<ReportOptions, WordsFault>
    ensures { Reads report_of (table.report_asked (table.found_under matches.now)) result }
{
    Ok(ReportOptions {
        input: input(alloc, matches)?,
        modulus: modulus(matches).ok_or(WordsFault::Usage)?,
        sheets: sheets(matches).ok_or(WordsFault::Usage)?,
        budget: budget(matches).ok_or(WordsFault::Usage)?,
        from: from(alloc, matches)?,
    })
}

fn make_options(matches: &ArgMatches<'_>) -> Result<MakeOptions, WordsFault>
    ensures { Reads make_of (table.make_asked (table.found_under matches.now)) result }
{
    Ok(MakeOptions {
        size: size(matches).ok_or(WordsFault::Usage)?,
        modulus: modulus_if(matches).ok_or(WordsFault::Usage)?,
    })
}

/// The kind of the input and its name.
fn input(alloc: Global, matches: &ArgMatches<'_>) -> Result<Input, WordsFault>
    ensures { Reads source_of (table.source (table.found_under matches.now)) result }
{
    let kind = kind(matches).ok_or(WordsFault::Usage)?;
    let name = owned(alloc, text_under(matches, Name::In))?;
    Ok(Input { kind, name })
}

/// The kind of the input: boundary lists where none is given.
fn kind(matches: &ArgMatches<'_>) -> Option<Kind>
    ensures { result ≡ table.kind (table.found_under matches.now) }
{
    match text_under(matches, Name::Kind) {
        None => Some(Kind::Boundary),
        Some(word) => kind_of_word(word),
    }
}

/// The text, on the heap.
fn owned(alloc: Global, text: Option<&str>) -> Result<Option<String>, WordsFault>
    ensures { Reads (option_map string_bytes) (Some (option_map (λ s. s.now) text.entry)) result }
{
    match text {
        None => Ok(None),
        Some(text) => match String::from_str(alloc, text) {
            Ok(text) => Ok(Some(text)),
            Err(_) => Err(WordsFault::Memory),
        },
    }
}

/// The number of elements of the field, 2 where none is given.
fn modulus(matches: &ArgMatches<'_>) -> Option<u8>
    ensures { result ≡ table.modulus (table.found_under matches.now) }
{
    match text_under(matches, Name::Mod) {
        None => Some(2),
        Some(text) => given_modulus(text),
    }
}

/// The number of elements of the field, if one is given.
fn modulus_if(matches: &ArgMatches<'_>) -> Option<Option<u8>>
    ensures { result ≡ table.modulus_if (table.found_under matches.now) }
{
    match text_under(matches, Name::Mod) {
        None => Some(None),
        Some(text) => given_modulus(text).map(Some),
    }
}

/// The number of elements of the field that was given.
fn given_modulus(text: &str) -> Option<u8>
    ensures { result ≡ table.modulus_of text.now }
{
    match read_number(text) {
        Some(2) => Some(2),
        Some(3) => Some(3),
        Some(4) => Some(4),
        Some(5) => Some(5),
        Some(7) => Some(7),
        Some(9) => Some(9),
        Some(11) => Some(11),
        Some(13) => Some(13),
        _ => None,
    }
}

fn sheets(matches: &ArgMatches<'_>) -> Option<u8>
    ensures { result ≡ table.sheets (table.found_under matches.now) }
{
    number(matches, Name::Sheets, 1, 8).map(|sheets| sheets as u8)
}

/// The number of steps that a search may take, 10,000,000 where none is given.
fn budget(matches: &ArgMatches<'_>) -> Option<u64>
    ensures { result ≡ table.budget (table.found_under matches.now) }
{
    match text_under(matches, Name::Budget) {
        None => Some(10_000_000),
        Some(text) => read_number_between(text, 1, 1_000_000_000_000_000),
    }
}

/// Where the listing begins: the start, where none is given.
fn from(alloc: Global, matches: &ArgMatches<'_>) -> Result<Spot, WordsFault>
    ensures { Reads spot_of (table.from (table.found_under matches.now)) result }
{
    match text_under(matches, Name::From) {
        None => Ok(Spot::start(alloc)),
        Some(text) => match Spot::parse(alloc, text) {
            Ok(spot) => Ok(spot),
            Err(PositionFault::Form) => Err(WordsFault::Usage),
            Err(PositionFault::Memory) => Err(WordsFault::Memory),
        },
    }
}

/// The number of a cover in the listing, from 1.
fn index(matches: &ArgMatches<'_>) -> Option<u32>
    ensures { result ≡ table.index (table.found_under matches.now) }
{
    number(matches, Name::Index, 1, 1_000_000_000).map(|index| index as u32)
}

/// The component of the space, from 1: the first, where none is given.
fn component(matches: &ArgMatches<'_>) -> Option<u32>
    ensures { result ≡ table.component (table.found_under matches.now) }
{
    match text_under(matches, Name::Component) {
        None => Some(1),
        Some(text) => read_number_between(text, 1, 60_000).map(|component| component as u32),
    }
}

fn size(matches: &ArgMatches<'_>) -> Option<u32>
    ensures { result ≡ table.size (table.found_under matches.now) }
{
    number(matches, Name::Size, 2, 19).map(|size| size as u32)
}

/// The number that was given under the option, where it lies between the bounds.
fn number(matches: &ArgMatches<'_>, name: Name, least: u64, most: u64) -> Option<u64>
    ensures { result ≡ table.number_under (table.found_under matches.now) name least most }
{
    read_number_between(text_under(matches, name)?, least, most)
}

/// The text that was given under the option.
fn text_under<'a>(matches: &ArgMatches<'a>, name: Name) -> Option<&'a str>
    ensures { option_map (λ s. s.now) result ≡ table.found_under matches.now name }
{
    matches.get_str(option_word(name))
}
