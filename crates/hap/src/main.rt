//! The program `hap`: its words, standard input or a named file, and the two standard outputs, handed to
//! `hap_cli::run`.
#![tactic(auto)]

ghost use Rattle.std.specs.Prelude.{◌≡◌, ◌<◌};

use hap_cli::run;
use hap_ends::{Outcome, end_with};
use hap_outside::{HostSink, HostSource};
use std::alloc::AllocError;
use std::env;
use std::io::ErrorKind;
use std::marker::Brand;
use std::process::ExitCode;
use std::sync::ledger::{Blank, Ledger};
use step_count::Steps;

// Runs over the source and the sinks of the host, with a counter that nothing reads.
fn run_here<L: Ledger>(rt: HostRuntime, words: &[String], blank: Blank) -> u8
    requires name { blank.name ≡ L.name }
    requires parts { blank.parts ≡ L.parts }
    requires some { 0 < L.parts }
{
    let alloc = rt.alloc();
    let mut out = HostSink::new(rt.stdout());
    let mut err = HostSink::new(rt.stderr());
    let mut source = HostSource::new(rt);
    let mut steps = Steps::<L>::new(blank);
    run(alloc, words, &mut source, &mut out, &mut err, &mut steps)
}

// The words after the program's name, or how a run without them ends.
fn words_of(rt: &HostRuntime) -> Result<Vec<String>, Outcome> {
    let all = match env::args(rt) {
        Ok(all) => all,
        Err(error) => {
            return Err(match error.kind() {
                ErrorKind::OutOfMemory => Outcome::Memory,
                _ => Outcome::Usage,
            });
        }
    };
    all.skip(1)
        .collect(rt.alloc())
        .map_err(|_: AllocError| Outcome::Memory)
}

fn main(rt: HostRuntime) -> ExitCode {
    match words_of(&rt) {
        Ok(words) => ExitCode::from(run_here::<Brand>(rt, &words, Blank::new(1))),
        Err(outcome) => ExitCode::from(end_with(&mut HostSink::new(rt.stderr()), &outcome)),
    }
}
