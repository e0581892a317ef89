// The bytes of the input of a command.
ghost use Rattle.std.specs.Prelude.{◌≡◌, ◌<◌, ◌≤◌, true, false, List, ℕ, length, option_map, string_bytes};
ghost use Rattle.std.specs.Prelude.{IfOk, IfErr, OnOk, IsErrOf};
ghost use Rattle.std.specs.Io.KnownBytes.{IsAtEnd};
ghost use Rattle.hap_outside.specs.Causes.{Rose};
ghost use Rattle.hap_outside.specs.Stores.{Store};
ghost use Rattle.hap_words.specs.Asked.{asked_of};
ghost use Rattle.hap_inputs.specs.Input.{input_name, limit_of as most_of, has_input, IsRead, IsUnread};
ghost use Rattle.hap_inputs.specs.Input.{IsReadUnder, IsUnreadUnder};

use hap_ends::{Outcome, Refusal};
use hap_outside::{Failed, ReadAll, Source, read_all};
use hap_words::Command;
use std::alloc::Global;

/// All bytes of the input of the command, or how the run ends without them. A command that reads no input has none, and
/// leaves the source as it is.
pub fn read_input<S: Source>(
    alloc: Global,
    command: &Command,
    source: &mut S,
) -> Result<Vec<u8>, Outcome>
    requires { S.begun source.old ≡ false }
    ensures bytes { IfOk result (λ bytes. IsRead (asked_of command.now) (S.store source.old) bytes.items) }
    ensures unread { IfErr result
        (IsUnread (asked_of command.now) (S.store source.old)
        (Rose (S.faults source.old) (S.faults source.new))) }
    ensures told { S.faults source.old < S.faults source.new → IsErrOf result Outcome.ReadFault }
    ensures end { OnOk result (has_input (asked_of command.now) ≡ true → IsAtEnd (S.left source.new)) }
    ensures untouched { has_input (asked_of command.now) ≡ false → source.new ≡ source.old }
{
    match command {
        Command::Make(_) => Ok(Vec::new(alloc)),
        _ => read_named(alloc, name_of(command), limit_of(command), source),
    }
}

// All bytes under the name, where these are no more than the limit.
fn read_named<S: Source>(
    alloc: Global,
    name: Option<&str>,
    limit: u64,
    source: &mut S,
) -> Result<Vec<u8>, Outcome>
    requires begun { S.begun source.old ≡ false }
    requires limit { limit ≤ 67108864 }
    ensures bytes { IfOk result
        (λ bytes. IsReadUnder (option_map (λ s. s.now) name.entry) limit (S.store source.old) bytes.items) }
    ensures unread { IfErr result
        (IsUnreadUnder (option_map (λ s. s.now) name.entry) limit (S.store source.old)
        (Rose (S.faults source.old) (S.faults source.new))) }
    ensures told { S.faults source.old < S.faults source.new → IsErrOf result Outcome.ReadFault }
    ensures end { OnOk result (IsAtEnd (S.left source.new)) }
{
    match source.begin(name) {
        Ok(()) => (),
        Err(Failed) => return Err(Outcome::ReadFault),
    }
    match read_all(alloc, source, limit as usize) {
        Ok(bytes) => Ok(bytes),
        Err(ReadAll::Fault) => Err(Outcome::ReadFault),
        Err(ReadAll::TooLong) => Err(Outcome::Refused(Refusal::TooLong(limit))),
        Err(ReadAll::Memory) => Err(Outcome::Memory),
    }
}

// The name of the file that the command reads, or none for standard input.
fn name_of<'a>(command: &'a Command) -> Option<&'a str>
    ensures { option_map (λ s. s.now) result ≡ input_name (asked_of command.now) }
{
    match command {
        Command::Cells(options) | Command::Check(options) | Command::Group(options) => {
            name_under(&options.input.name)
        }
        Command::Betti(options) | Command::Cup(options) => name_under(&options.input.name),
        Command::Verify(options) | Command::Migrate(options) => name_under(&options.name),
        Command::Covers(options) => name_under(&options.input.name),
        Command::Cover(options) => name_under(&options.input.name),
        Command::Report(options) => name_under(&options.input.name),
        Command::Make(_) => None,
    }
}

fn name_under<'a>(name: &'a Option<String>) -> Option<&'a str>
    ensures { option_map (λ s. s.now) result ≡ option_map string_bytes name.now }
{
    match name {
        Some(name) => Some(name.as_str()),
        None => None,
    }
}

// How many bytes the input of the command may have.
fn limit_of(command: &Command) -> u64
    ensures { result ≡ most_of (asked_of command.now) }
{
    match command {
        Command::Verify(_) | Command::Migrate(_) => 67_108_864,
        _ => 16_777_216,
    }
}
