// The whole program over the source, the sinks and the words that are handed in.
ghost use Rattle.std.specs.Prelude.{◌≡◌, ◌≢◌, ◌⊎◌, ◌≤◌, ◌<◌, true, false, map, length, string_bytes, IfSome, IsNone};
ghost use Rattle.std.specs.Io.KnownBytes.{IsAtEnd};
ghost use Rattle.hap_outside.specs.Causes.{Rose};
ghost use Rattle.hap_outside.specs.Stores.{bytes_under};
ghost use Rattle.cover_laws.specs.Laws.{EachClassOnce};
ghost use Rattle.cover_listing.specs.PartCovers.{ListingsAreOfCovers};
ghost use Rattle.hap_words.specs.Asked.{asked_of};
ghost use Rattle.hap_words.specs.Ranges.{is_in_range};
ghost use Rattle.hap_words.specs.Table.{is_built, read as asked_by};
ghost use Rattle.hap_ends.specs.declared.outcome.Outcome.{Outcome as AnOutcome};
ghost use Rattle.hap_ends.specs.Outcomes.{status_of, line_of, Tells};
ghost use Rattle.hap_inputs.specs.Input.{input_name, limit_of, told_store, has_input, reads_input};
ghost use Rattle.hap_cli.specs.Refusals.{refusal};
ghost use Rattle.hap_cli.specs.Counting.{Counts, CountsBy, CountsIf};
ghost use Rattle.hap_cli.specs.Ends.{ending, status_for, asks_cover, writes_while, may_write, EndsOn, IsEnd, EndsBy};

use crate::answer::{answer_to, write_answer};
use crate::covers::perform_covers;
use cover_laws::each_class_once;
use cover_listing::listings_are_of_covers;
use hap_ends::{Outcome, end_with, written};
use hap_inputs::read_input;
use hap_outside::{Sink, Source};
use hap_words::{Command, WordsFault, read};
use std::alloc::Global;
use std::mem::drop;
use std::sync::ledger::Ledger;
use step_count::Steps;

/// Does all that the program does, and answers its status: docs/COMMANDS.md lists them. The words are those after the
/// program's name. The source has not begun; `steps` counts row additions.
pub fn run<S: Source, K: Sink, E: Sink, L: Ledger>(
    alloc: Global,
    words: &[String],
    source: &mut S,
    out: &mut K,
    err: &mut E,
    steps: &mut Steps<L>,
) -> u8
    requires { S.begun source.old ≡ false }

    // How the run ended, with the cause and with what is on the output; its status, and its line on err.
    ensures ended { (outcome : AnOutcome) × (result ≡ status_of outcome)
        × Tells (E.written err.old) (E.written err.new) (line_of outcome)
        (Rose (E.faults err.old) (E.faults err.new))
        × EndsBy (asked_by (map string_bytes words.now)) (S.store source.old)
        (Rose (S.faults source.old) (S.faults source.new))
        (Rose (K.faults out.old) (K.faults out.new))
        (K.written out.old) (K.written out.new) outcome }

    // A fault of err changes no status: it is that of an end by the words, the source and the output alone.
    ensures apart { (outcome : AnOutcome) × (result ≡ status_of outcome)
        × EndsBy (asked_by (map string_bytes words.now)) (S.store source.old)
        (Rose (S.faults source.old) (S.faults source.new))
        (Rose (K.faults out.old) (K.faults out.new))
        (K.written out.old) (K.written out.new) outcome }

    // Where the words are refused, and for a command that reads nothing, the source is untouched.
    ensures usage { IsNone (asked_by (map string_bytes words.now)) → (result ≡ 2) ⊎ (result ≡ 9) }
    ensures untouched { reads_input (asked_by (map string_bytes words.now)) ≡ false → source.new ≡ source.old }

    // Where nothing failed outside, the status is that of the refusal, else 6 exactly where the search ends at a
    // spot, else 0; or memory was wanting.
    ensures exact { IfSome (asked_by (map string_bytes words.now)) (λ asked.
        IfSome (bytes_under (told_store asked (S.store source.old)) (input_name asked)) (λ bytes.
        (Rose (S.faults source.old) (S.faults source.new) → ⊥)
        → (Rose (K.faults out.old) (K.faults out.new) → ⊥)
        → (result ≡ status_for (refusal asked bytes) (ending asked bytes)) ⊎ (result ≡ 9))) }

    // Faults come only where the count rose, and always where it is greater after than before.
    ensures read { result ≡ 7 → Rose (S.faults source.old) (S.faults source.new) }
    ensures read_told { S.faults source.old < S.faults source.new → result ≡ 7 }
    ensures write { result ≡ 8 → Rose (K.faults out.old) (K.faults out.new) }
    ensures write_told { K.faults out.old < K.faults out.new → result ≡ 8 }

    // What is left: an input that was read is read to its end, and no byte is written but with status 0, 6 and 8, and
    // none with 6 of `cover`.
    ensures end { (result ≡ 0) ⊎ (result ≡ 6) → reads_input (asked_by (map string_bytes words.now)) ≡ true
        → IsAtEnd (S.left source.new) }
    ensures nothing { result ≢ 0 → result ≢ 6 → result ≢ 8 → out.new ≡ out.old }
    ensures unspent { asks_cover (asked_by (map string_bytes words.now)) ≡ true → result ≡ 6 → out.new ≡ out.old }
    ensures silent { result ≡ 0 → err.new ≡ err.old }

    // What is listed of the parts of a space are the covers of each part, and of these each class of connected
    // labellings has exactly one.
    ensures classes { EachClassOnce × ListingsAreOfCovers }

    // The row additions of reducing coboundaries are counted, and nothing else.
    ensures steps { CountsIf (asked_by (map string_bytes words.now)) (S.store source.old) steps.old steps.new }
{
    each_class_once();
    listings_are_of_covers();
    let outcome = perform_words(alloc, words, source, out, steps);
    let status = end_with(err, &outcome);
    drop(outcome);
    status
}

// Reads the words and does what they ask for.
fn perform_words<S: Source, K: Sink, L: Ledger>(
    alloc: Global,
    words: &[String],
    source: &mut S,
    out: &mut K,
    steps: &mut Steps<L>,
) -> Outcome
    requires { S.begun source.old ≡ false }
    ensures cause { EndsBy (asked_by (map string_bytes words.now)) (S.store source.old)
        (Rose (S.faults source.old) (S.faults source.new)) (Rose (K.faults out.old) (K.faults out.new))
        (K.written out.old) (K.written out.new) result }
    ensures untouched { reads_input (asked_by (map string_bytes words.now)) ≡ false → source.new ≡ source.old }
    ensures read_told { S.faults source.old < S.faults source.new → result ≡ Outcome.ReadFault }
    ensures write_told { K.faults out.old < K.faults out.new → result ≡ Outcome.WriteFault }
    ensures end { (status_of result ≡ 0) ⊎ (status_of result ≡ 6)
        → reads_input (asked_by (map string_bytes words.now)) ≡ true → IsAtEnd (S.left source.new) }
    ensures nothing { may_write result ≡ false → out.new ≡ out.old }
    ensures steps { CountsIf (asked_by (map string_bytes words.now)) (S.store source.old) steps.old steps.new }
{
    match read(alloc, words) {
        Ok(command) => {
            let outcome = perform(alloc, &command, source, out, steps);
            drop(command);
            outcome
        }
        Err(WordsFault::Usage) => Outcome::Usage,
        Err(WordsFault::Memory) => Outcome::Memory,
    }
}

// Reads the input of the command and writes what it answers.
fn perform<S: Source, K: Sink, L: Ledger>(
    alloc: Global,
    command: &Command,
    source: &mut S,
    out: &mut K,
    steps: &mut Steps<L>,
) -> Outcome
    requires begun { S.begun source.old ≡ false }
    requires built { is_built (asked_of command.now) ≡ true }
    requires ranges { is_in_range (asked_of command.now) ≡ true }
    ensures cause { IsEnd (asked_of command.now) (S.store source.old)
        (Rose (S.faults source.old) (S.faults source.new)) (Rose (K.faults out.old) (K.faults out.new))
        (K.written out.old) (K.written out.new) result }
    ensures read_told { S.faults source.old < S.faults source.new → result ≡ Outcome.ReadFault }
    ensures write_told { K.faults out.old < K.faults out.new → result ≡ Outcome.WriteFault }
    ensures untouched { has_input (asked_of command.now) ≡ false → source.new ≡ source.old }
    ensures end { (status_of result ≡ 0) ⊎ (status_of result ≡ 6)
        → has_input (asked_of command.now) ≡ true → IsAtEnd (S.left source.new) }
    ensures nothing { may_write result ≡ false → out.new ≡ out.old }
    ensures steps { CountsBy (asked_of command.now) (S.store source.old) steps.old steps.new }
{
    match read_input(alloc, command, source) {
        Ok(bytes) => {
            let outcome = perform_on(alloc, command, &bytes, out, steps);
            drop(bytes);
            outcome
        }
        Err(outcome) => outcome,
    }
}

// Writes what the command answers on the bytes of its input.
fn perform_on<K: Sink, L: Ledger>(
    alloc: Global,
    command: &Command,
    bytes: &[u8],
    out: &mut K,
    steps: &mut Steps<L>,
) -> Outcome
    requires few { length bytes.now ≤ limit_of (asked_of command.now) }
    requires built { is_built (asked_of command.now) ≡ true }
    requires ranges { is_in_range (asked_of command.now) ≡ true }
    ensures cause { EndsOn (asked_of command.now) bytes.now (Rose (K.faults out.old) (K.faults out.new))
        (K.written out.old) (K.written out.new) result }
    ensures read { result ≢ Outcome.ReadFault }
    ensures write_told { K.faults out.old < K.faults out.new → result ≡ Outcome.WriteFault }
    ensures nothing { may_write result ≡ false → out.new ≡ out.old }
    ensures steps { Counts (asked_of command.now) bytes.now steps.old steps.new }
{
    match command {
        Command::Covers(options) => perform_covers(alloc, options, bytes, out),
        _ => perform_answer(alloc, command, bytes, out, steps),
    }
}

// Writes the answer of a command that is done before it writes.
fn perform_answer<K: Sink, L: Ledger>(
    alloc: Global,
    command: &Command,
    bytes: &[u8],
    out: &mut K,
    steps: &mut Steps<L>,
) -> Outcome
    requires few { length bytes.now ≤ limit_of (asked_of command.now) }
    requires built { is_built (asked_of command.now) ≡ true }
    requires ranges { is_in_range (asked_of command.now) ≡ true }
    requires before { writes_while (asked_of command.now) ≡ false }
    ensures cause { EndsOn (asked_of command.now) bytes.now (Rose (K.faults out.old) (K.faults out.new))
        (K.written out.old) (K.written out.new) result }
    ensures read { result ≢ Outcome.ReadFault }
    ensures write_told { K.faults out.old < K.faults out.new → result ≡ Outcome.WriteFault }
    ensures nothing { may_write result ≡ false → out.new ≡ out.old }
    ensures steps { Counts (asked_of command.now) bytes.now steps.old steps.new }
{
    match answer_to(alloc, command, bytes, steps) {
        Ok(answer) => {
            let answered = write_answer(out, &answer);
            drop(answer);
            written(answered)
        }
        Err(outcome) => outcome,
    }
}
