// Runs of the program over sources and sinks in memory.
ghost use Rattle.std.specs.Prelude.{◌≡◌, ◌<◌, false};

use crate::worked::POINT;
use hap_cli::run;
use hap_outside::{Bytes, Paper};
use std::alloc::{AllocError, Global};
use std::marker::Brand;
use std::process::Abort;
use std::sync::ledger::{Blank, Ledger};
use std::test::Fail;
use step_count::Steps;

/// How a run ended, and what it wrote.
#[derive(Drop)]
pub struct Told {
    pub status: u8,
    pub out: Paper,
    pub err: Paper,
}

fn run_on<L: Ledger>(
    alloc: Global,
    words: &[String],
    source: &mut Bytes,
    out: &mut Paper,
    err: &mut Paper,
    blank: Blank,
) -> u8
    requires name { blank.name ≡ L.name }
    requires parts { blank.parts ≡ L.parts }
    requires some { 0 < L.parts }
    requires begun { source.old.begun ≡ false }
{
    let mut steps = Steps::<L>::new(blank);
    run(alloc, words, source, out, err, &mut steps)
}

/// Runs the program with these words.
fn run_words(
    alloc: Global,
    line: &[&str],
    source: &mut Bytes,
    out: &mut Paper,
    err: &mut Paper,
) -> Result<u8, AllocError>
    requires { source.old.begun ≡ false }
{
    let mut words = Vec::new(alloc);
    for word in line {
        words.push(String::from_str(alloc, word)?)?;
    }
    Ok(run_on::<Brand>(alloc, &words, source, out, err, Blank::new(1)))
}

/// Runs the program with these words on the text, and compares how it ends and what it writes.
pub fn expect(
    rt: &(impl Abort + AllocGlobal),
    line: &[&str],
    text: &[u8],
    wanted: (u8, &[u8], &[u8]),
) -> Result<(), Fail> {
    compare(rt, &run_text(rt.alloc(), line, text)?, wanted);
    Ok(())
}

/// Compares how a run ended and what it wrote.
pub fn compare(rt: &impl Abort, told: &Told, wanted: (u8, &[u8], &[u8])) {
    let (status, out, err) = wanted;
    assert_eq!(rt; told.err.bytes(), err);
    assert_eq!(rt; told.out.bytes(), out);
    assert_eq!(rt; told.status, status);
}

/// Runs the program with these words on the text, which stands on standard input.
pub fn run_text(alloc: Global, line: &[&str], text: &[u8]) -> Result<Told, AllocError> {
    let mut source = Bytes::new(alloc);
    source.put(None, text)?;
    run_on_source(alloc, line, &mut source, Paper::new(alloc, 1000)?)
}

/// Runs the program with these words. The input `point` is a point, and standard input is no space.
pub fn run_named(alloc: Global, line: &[&str]) -> Result<Told, AllocError> {
    let mut source = Bytes::new(alloc);
    source.put(None, b"none of it")?;
    source.put(Some("point"), POINT)?;
    run_on_source(alloc, line, &mut source, Paper::new(alloc, 100)?)
}

/// Runs the program with these words on a source that cannot be begun, and answers the status.
pub fn run_unread(alloc: Global, line: &[&str]) -> Result<u8, AllocError> {
    let mut source = Bytes::new(alloc);
    source.fail_at(1)?;
    Ok(run_on_source(alloc, line, &mut source, Paper::new(alloc, 1000)?)?.status)
}

/// Runs the program with these words on a point, where the read and the write with these numbers, counted from 1, fail.
pub fn run_failing(
    alloc: Global,
    line: &[&str],
    read: u64,
    write: u64,
) -> Result<Told, AllocError> {
    let mut source = Bytes::new(alloc);
    source.put(None, POINT)?;
    source.fail_at(read)?;
    let mut out = Paper::new(alloc, 100)?;
    out.fail_at(write)?;
    run_on_source(alloc, line, &mut source, out)
}

/// Runs the program with these words on the text, where nothing can be written to standard error.
pub fn run_mute(alloc: Global, line: &[&str], text: &[u8]) -> Result<Told, AllocError> {
    let mut source = Bytes::new(alloc);
    source.put(None, text)?;
    let mut out = Paper::new(alloc, 100)?;
    let mut err = Paper::new(alloc, 0)?;
    let status = run_words(alloc, line, &mut source, &mut out, &mut err)?;
    Ok(Told { status, out, err })
}

/// Runs the program with these words.
fn run_on_source(
    alloc: Global,
    line: &[&str],
    source: &mut Bytes,
    mut out: Paper,
) -> Result<Told, AllocError>
    requires { source.old.begun ≡ false }
{
    let mut err = Paper::new(alloc, 200)?;
    let status = run_words(alloc, line, source, &mut out, &mut err)?;
    Ok(Told { status, out, err })
}
