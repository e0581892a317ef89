// The command line as one simple command of `clap`.
ghost use Rattle.std.specs.Prelude.{◌≡◌, map, string_bytes, option_map, IfOk, false};
ghost use Rattle.clap.specs.Words.{FailsBy, app_of, rule_of, rows_of, found_of, matches_of, fault_of, with_rule};
ghost use Rattle.hap_words.specs.Line.{hap_app, bare_app, option_rule};

use clap::{Arg, ArgAction, ArgMatches, Command, Error};
use std::alloc::{AllocError, Global};

/// The matches of the words.
pub fn match_words<'a>(alloc: Global, words: &'a [String]) -> Result<ArgMatches<'a>, Error>
    ensures kinds { FailsBy (fault_of hap_app (map string_bytes words.entry.now)) result }
    ensures rows { IfOk result (λ m. rows_of (found_of m) ≡ matches_of hap_app (map string_bytes words.entry.now)) }
{
    hap(alloc)?.try_get_matches_from(words)
}

/// The one command.
fn hap<'a>(alloc: Global) -> Result<Command<'a>, AllocError>
    ensures { IfOk result (λ c. app_of c ≡ hap_app) }
{
    let kind = with_option(bare(alloc)?, alloc, "kind")?;
    let input = with_option(kind, alloc, "in")?;
    let modulus = with_option(input, alloc, "mod")?;
    let sheets = with_option(modulus, alloc, "sheets")?;
    let budget = with_option(sheets, alloc, "budget")?;
    let from = with_option(budget, alloc, "from")?;
    let index = with_option(from, alloc, "index")?;
    let size = with_option(index, alloc, "size")?;
    with_option(size, alloc, "component")
}

fn with_option<'a>(
    command: Command<'a>,
    alloc: Global,
    name: &'a str,
) -> Result<Command<'a>, AllocError>
    ensures { IfOk result (λ c. app_of c ≡ with_rule (app_of command.entry) (option_rule name.entry.now)) }
{
    command.arg(option(alloc, name))
}

fn option<'a>(alloc: Global, name: &'a str) -> Arg<'a>
    ensures rule { rule_of result ≡ option_rule name.entry.now }
    ensures local { result.global ≡ false }
{
    Arg::new(alloc, name).long(name).action(ArgAction::Set)
}

fn bare<'a>(alloc: Global) -> Result<Command<'a>, AllocError>
    ensures { IfOk result (λ c. app_of c ≡ bare_app) }
{
    let word = Arg::new(alloc, "command")
        .required(true)
        .action(ArgAction::Set);
    Command::new(alloc, "hap")
        .no_binary_name(true)
        .disable_help_flag(true)
        .arg(word)
}
