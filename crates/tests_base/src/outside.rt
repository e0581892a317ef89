// Sources and sinks in memory, and those of the host.
ghost use Rattle.std.specs.Prelude.{◌≤◌};

use hap_outside::{
    Bytes, Failed, Held, HostSink, HostSource, Paper, Piece, ReadAll, Source, Steady, read_all,
    write_all, write_number, write_pieces,
};
use std::alloc::{AllocError, Global};
use std::fs;
use std::io::Cursor;
use std::test::Fail;

// The trusted edge: what was written to a file is what is read from it.
#[test]
fn the_host_reads_what_it_wrote(rt: HostRuntime) -> Result<(), Fail> {
    let path = "the_host_reads_what_it_wrote.tmp";
    let mut sink = HostSink::new(fs::create(&rt, path)?);
    write_all(&mut sink, b"[[[1,0]]]")?;
    let mut source = HostSource::new(rt.clone()?);
    source.begin(Some(path))?;
    let bytes = read_all(rt.alloc(), &mut source, 9);
    fs::remove_file(&rt, path)?;
    assert_eq!(rt; bytes?.as_slice(), b"[[[1,0]]]".as_slice());
    Ok(())
}

#[test]
fn no_file_is_a_fault(rt: HostRuntime) -> Result<(), Fail> {
    let mut missing = HostSource::new(rt.clone()?);
    assert_eq!(rt; missing.begin(Some("no_file_is_a_fault.tmp")), Err(Failed));
    Ok(())
}

#[test]
fn a_full_writer_is_a_fault(rt: HostRuntime) {
    let mut full = HostSink::new(Cursor::new([0u8; 2]));
    assert_eq!(rt; write_all(&mut full, b"abc"), Err(Failed));
}

/// Bytes under a name and others on standard input, read after a call with this number fails.
fn read_stored(alloc: Global, call: u64) -> Result<Vec<u8>, ReadAll> {
    let mut source = Bytes::new(alloc);
    source.put(None, b"standard").map_err(|_| ReadAll::Memory)?;
    source
        .put(Some("a"), b"named")
        .map_err(|_| ReadAll::Memory)?;
    source.fail_at(call).map_err(|_| ReadAll::Memory)?;
    source.begin(Some("a")).map_err(|_| ReadAll::Fault)?;
    read_all(alloc, &mut source, 5)
}

#[test]
fn bytes_under_a_name_are_read(rt: HostRuntime) -> Result<(), Fail> {
    let bytes = read_stored(rt.alloc(), 9)?;
    assert_eq!(rt; bytes.as_slice(), b"named".as_slice());
    Ok(())
}

#[test]
fn a_listed_read_fails(rt: HostRuntime) {
    assert_eq!(rt; read_stored(rt.alloc(), 2).err(), Some(ReadAll::Fault));
}

/// Five bytes, read up to a limit.
fn read_five(alloc: Global, limit: usize) -> Result<Vec<u8>, ReadAll>
    requires { limit ≤ 67108864 }
{
    let mut source = Steady::new(alloc, b"12345").map_err(|_| ReadAll::Memory)?;
    source.begin(Some("any")).map_err(|_| ReadAll::Fault)?;
    read_all(alloc, &mut source, limit)
}

#[test]
fn a_source_is_read_up_to_the_limit(rt: HostRuntime) -> Result<(), Fail> {
    let bytes = read_five(rt.alloc(), 5)?;
    assert_eq!(rt; bytes.as_slice(), b"12345".as_slice());
    Ok(())
}

#[test]
fn a_source_is_not_read_above_the_limit(rt: HostRuntime) {
    assert_eq!(rt; read_five(rt.alloc(), 4).err(), Some(ReadAll::TooLong));
}

/// A sheet with room for twelve bytes, whose second write fails and whose last is cut off.
fn filled(alloc: Global) -> Result<Paper, AllocError> {
    let mut paper = Paper::new(alloc, 12)?;
    paper.fail_at(2)?;
    let _ = write_number(&mut paper, -17);
    let _ = write_number(&mut paper, 4);
    let pieces = [Piece::Text(b" of "), Piece::Count(23), Piece::Number(-456)];
    let _ = write_pieces(&mut paper, &pieces);
    Ok(paper)
}

#[test]
fn paper_takes_what_fits_and_a_listed_write_fails(rt: HostRuntime) -> Result<(), Fail> {
    let paper = filled(rt.alloc())?;
    assert_eq!(rt; paper.bytes(), b"-17 of 23-45".as_slice());
    Ok(())
}

/// A line in two parts and the first part of another, of which the second write fails.
fn held(alloc: Global) -> Result<Paper, AllocError> {
    let mut paper = Paper::new(alloc, 100)?;
    paper.fail_at(2)?;
    let mut held = Held::new();
    let _ = held.put(&mut paper, &[Piece::Text(b"cells "), Piece::Count(4)]);
    let _ = held.put(&mut paper, &[Piece::Text(b"\n"), Piece::Text(b"euler ")]);
    let _ = held.finish(&mut paper);
    Ok(paper)
}

#[test]
fn a_line_is_one_write(rt: HostRuntime) -> Result<(), Fail> {
    let paper = held(rt.alloc())?;
    assert_eq!(rt; paper.bytes(), b"cells 4\n".as_slice());
    Ok(())
}
