// The values of texts, and the first fault of each bad one.
use gap_text::{Items, Nest, TextFault, parse};
use std::alloc::{AllocError, Global};
use std::process::Abort;
use std::test::Fail;

/// What a text spells. A text that is longer than `parse` takes has no memory.
fn read(alloc: Global, text: &[u8]) -> Result<Nest, TextFault> {
    if text.len() > 67_108_864 {
        return Err(TextFault::Memory);
    }
    parse(alloc, text)
}

#[test]
fn each_bad_text_has_its_first_fault(rt: HostRuntime) {
    for (text, fault) in [
        (b"[1,3..9]".as_slice(), TextFault::Stepped(4)),
        (b"[[1,0]", TextFault::Unclosed(6)),
        (b"[[[1,0]]] x", TextFault::BadByte(10)),
        (b"[1,]", TextFault::Stray(3)),
        (b"4294967296", TextFault::NumberTooBig(0)),
        (b"", TextFault::Unclosed(0)),
        (b"#", TextFault::Unclosed(1)),
        (b"[1..2..3]", TextFault::BadRange(5)),
        (b"[..3]", TextFault::BadRange(1)),
        (b"[1.3]", TextFault::BadByte(2)),
        (b"[[[[[[[[[1]]]]]]]]]", TextFault::TooDeep(8)),
        (b"[1..1000001]", TextFault::BadRange(4)),
        (b"[[[1,0]]];;", TextFault::Stray(10)),
        (b"[,1]", TextFault::Stray(1)),
        (b"1 2", TextFault::Stray(2)),
    ] {
        assert_eq!(rt; read(rt.alloc(), text).err(), Some(fault));
    }
}

/// The place and the value of a number.
fn number(rt: &impl Abort, nest: &Nest) -> (u32, u32) {
    match nest {
        Nest::Number { place, value } => (*place, *value),
        Nest::List { .. } => panic!(rt; "a list"),
    }
}

/// The place and the items of a list.
fn list<'a>(rt: &impl Abort, nest: &'a Nest) -> (u32, &'a Items) {
    match nest {
        Nest::Number { .. } => panic!(rt; "a number"),
        Nest::List { place, items } => (*place, items),
    }
}

/// The place of a list of numbers, and the place and the value of each.
fn numbers(
    rt: &impl Abort,
    alloc: Global,
    nest: &Nest,
) -> Result<(u32, Vec<(u32, u32)>), AllocError> {
    let (place, items) = list(rt, nest);
    let mut found = Vec::new(alloc);
    for index in 0..items.len() {
        found.push(number(rt, items.get(index)))?;
    }
    Ok((place, found))
}

#[test]
fn a_text_has_its_value(rt: HostRuntime) -> Result<(), Fail> {
    let nest = read(rt.alloc(), b" [[007, 1],[3..4],# ]\n[1..0] ] ; # done")?;
    let (place, lists) = list(&rt, &nest);
    assert_eq!(rt; (place, lists.len()), (1, 3));
    for (index, place, wanted) in [
        (0u32, 2u32, [(3u32, 7u32), (8, 1)].as_slice()),
        (1, 11, &[(12, 3), (12, 4)]),
        (2, 22, &[]),
    ] {
        let (start, found) = numbers(&rt, rt.alloc(), lists.get(index))?;
        assert_eq!(rt; start, place);
        assert_eq!(rt; found.as_slice(), wanted);
    }
    Ok(())
}

/// The text of a list of so many pairs of numbers, the first of each between 0 and 4,294,967,295 and
/// the second its index. After the last pair stands an empty list.
fn long_text(alloc: Global, count: u32) -> Result<String, AllocError> {
    let mut text = String::from_str(alloc, "[")?;
    for index in 0..count {
        let first = scattered(index);
        let pair = format!(in alloc; "[{first} ,# pair\n\t{index}],")?;
        text.push_str(pair.as_str())?;
    }
    text.push_str("[]]")?;
    Ok(text)
}

/// A number that goes all over the range.
fn scattered(index: u32) -> u32 {
    index.wrapping_mul(1_664_525).wrapping_add(1_013_904_223)
}

#[test]
fn a_long_text_keeps_its_numbers(rt: HostRuntime) -> Result<(), Fail> {
    let text = long_text(rt.alloc(), 3000)?;
    let nest = read(rt.alloc(), text.as_bytes())?;
    let (_, pairs) = list(&rt, &nest);
    assert_eq!(rt; pairs.len(), 3001);
    for index in 0..3000 {
        let (_, found) = numbers(&rt, rt.alloc(), pairs.get(index))?;
        assert_eq!(rt; found.len(), 2);
        assert_eq!(rt; (found[0].1, found[1].1), (scattered(index), index));
    }
    Ok(())
}
