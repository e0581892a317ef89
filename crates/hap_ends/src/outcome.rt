// How a run ends.
ghost use Rattle.std.specs.Prelude.{◌≡◌};
ghost use Rattle.hap_outside.specs.Causes.{Rose, HasCause};
ghost use Rattle.hap_outside.specs.Writes.{Writes};
ghost use Rattle.hap_ends.specs.Outcomes.{status_of, line_of, usage_line, Tells, written_outcome};

use crate::refusal::{Refusal, refusal_code, write_refusal};
use crate::spent::write_spent;
use hap_outside::{Failed, Sink, write_all};
use sheet_tables::Spot;

/// How a run ends.
#[derive(Drop)]
pub enum Outcome {
    /// The whole answer was written.
    Done,
    /// The whole text was written, and the budget of the search is spent at this spot.
    Spent(Spot),
    /// The words are refused.
    Usage,
    /// The input is refused.
    Refused(Refusal),
    /// The source failed.
    ReadFault,
    /// The output failed.
    WriteFault,
    /// There was no memory.
    Memory,
}

/// Writes the line of the outcome, where it has one, and answers its status, also where `err` fails.
pub fn end_with<E: Sink>(err: &mut E, outcome: &Outcome) -> u8
    ensures status { result ≡ status_of outcome.now }
    ensures line { Tells (E.written err.old) (E.written err.new) (line_of outcome.now)
        (Rose (E.faults err.old) (E.faults err.new)) }
    ensures silent { outcome.now ≡ Outcome.Done → err.new ≡ err.old }
{
    match write_line(err, outcome) {
        Ok(()) => (),
        Err(Failed) => (),
    }
    status(outcome)
}

/// The status of a run that ends so.
pub fn status(outcome: &Outcome) -> u8
    ensures { result ≡ status_of outcome.now }
{
    match outcome {
        Outcome::Done => 0,
        Outcome::Usage => 2,
        Outcome::Refused(refusal) => refusal_code(refusal),
        Outcome::Spent(_) => 6,
        Outcome::ReadFault => 7,
        Outcome::WriteFault => 8,
        Outcome::Memory => 9,
    }
}

fn write_line<E: Sink>(err: &mut E, outcome: &Outcome) -> Result<(), Failed>
    ensures bytes { Writes (E.written err.old) (E.written err.new) (line_of outcome.now) result }
    ensures cause { HasCause (E.faults err.old) (E.faults err.new) result }
    ensures silent { outcome.now ≡ Outcome.Done → err.new ≡ err.old }
{
    match outcome {
        Outcome::Done => Ok(()),
        Outcome::Spent(spot) => write_spent(err, spot),
        Outcome::Usage => write_usage(err),
        Outcome::Refused(refusal) => write_refusal(err, refusal),
        Outcome::ReadFault => write_all(err, b"hap: read fault\n"),
        Outcome::WriteFault => write_all(err, b"hap: write fault\n"),
        Outcome::Memory => write_all(err, b"hap: want of memory\n"),
    }
}

fn write_usage<E: Sink>(err: &mut E) -> Result<(), Failed>
    ensures bytes { Writes (E.written err.old) (E.written err.new) usage_line result }
    ensures cause { HasCause (E.faults err.old) (E.faults err.new) result }
{
    write_all(
        err,
        b"hap: usage: hap COMMAND [--kind K] [--in NAME] [--mod P] [--sheets N] [--budget B] [--from T] [--index I] [--size N] [--component C]\n",
    )
}

/// How a run ends after its answer was written.
pub fn written(answer: Result<(), Failed>) -> Outcome
    ensures { result ≡ written_outcome answer }
{
    match answer {
        Ok(()) => Outcome::Done,
        Err(Failed) => Outcome::WriteFault,
    }
}
