// The words of the command line as commands with options, each of those that are built.
use hap_words::{Command, Input, Kind, WordsFault, read};
use std::alloc::{AllocError, Global};
use std::test::Fail;

fn words_of(alloc: Global, line: &[&str]) -> Result<Vec<String>, AllocError> {
    let mut words = Vec::new(alloc);
    for word in line {
        words.push(String::from_str(alloc, word)?)?;
    }
    Ok(words)
}

/// The command that a line asks for.
fn asked(alloc: Global, line: &[&str]) -> Result<Command, WordsFault> {
    match words_of(alloc, line) {
        Ok(words) => read(alloc, &words),
        Err(_) => Err(WordsFault::Memory),
    }
}

/// The kind and the name of an input.
fn input_of(command: &Command) -> Option<(Kind, Option<&str>)> {
    match command {
        Command::Cells(options) | Command::Check(options) | Command::Group(options) => {
            Some(named(&options.input))
        }
        Command::Betti(options) => Some(named(&options.input)),
        _ => None,
    }
}

/// The kind, and the name if there is one.
fn named(input: &Input) -> (Kind, Option<&str>) {
    match &input.name {
        Some(name) => (input.kind, Some(name.as_str())),
        None => (input.kind, None),
    }
}

#[test]
fn inputs_have_a_kind_and_a_name(rt: HostRuntime) -> Result<(), Fail> {
    for (line, kind, name) in [
        (["cells"].as_slice(), Kind::Boundary, None),
        (&["--in", "x", "cells"], Kind::Boundary, Some("x")),
        (&["cells", "--in="], Kind::Boundary, Some("")),
        (&["check", "--kind", "arcs"], Kind::Arcs, None),
        (&["check", "--kind=cubical"], Kind::Cubical, None),
        (&["cells", "--kind", "simplices"], Kind::Simplices, None),
        (&["cells", "--kind=poset"], Kind::Poset, None),
        (
            &["group", "--kind", "arcs", "--in=x"],
            Kind::Arcs,
            Some("x"),
        ),
        (
            &["betti", "--kind", "permutahedral"],
            Kind::Permutahedral,
            None,
        ),
    ] {
        let command = asked(rt.alloc(), line)?;
        assert_eq!(rt; input_of(&command), Some((kind, name)));
    }
    Ok(())
}

/// The modulus of a command, and the size of the torus that it makes.
fn numbers_of(command: &Command) -> Option<(u32, Option<u8>)> {
    match command {
        Command::Betti(options) => Some((0, Some(options.modulus))),
        Command::Make(options) => Some((options.size, options.modulus)),
        _ => None,
    }
}

#[test]
fn options_have_their_numbers(rt: HostRuntime) -> Result<(), Fail> {
    for (line, size, modulus) in [
        (["betti"].as_slice(), 0u32, Some(2u8)),
        (&["betti", "--mod", "03"], 0, Some(3)),
        (&["betti", "--mod=7"], 0, Some(7)),
        (&["make", "--size", "19"], 19, None),
        (&["make", "--mod", "5", "--size=0002"], 2, Some(5)),
    ] {
        let command = asked(rt.alloc(), line)?;
        assert_eq!(rt; numbers_of(&command), Some((size, modulus)));
    }
    Ok(())
}

#[test]
fn other_words_are_refused(rt: HostRuntime) {
    for line in [
        [].as_slice(),
        &["frob"],
        &["cells", "cells"],
        &["make", "--size", "20"],
    ] {
        assert_eq!(rt; asked(rt.alloc(), line).err(), Some(WordsFault::Usage));
    }
}
