// A certificate that is read from its text and written again, and the first fault of a text.
use cert_text::{
    CertFault, Certificate, Sections, parse, write_back, write_cover, write_front, write_section,
};
use hap_outside::{Failed, Paper};
use std::alloc::Global;
use std::test::Fail;

/// The circle of two vertices and two edges, over two elements, with its covers up to two sheets.
const CIRCLE: &str = "hap-certificate 1
modulus 2
cells 2 2 0 0
face 1 1 2
face 1 1 2
chains 4 4 0 0
rank 0 3
r 1:1 | 1:1
r 1:1 3:1 | 2:1
r 1:1 3:1 4:1 | 3:1
rank 1 0
rank 2 0
classes 0 1
z 1:1 2:1 3:1 4:1 | 1:1
classes 1 1
z 1:1 | 1:1 2:1 3:1 4:1
classes 2 0
classes 3 0
products 1
p 1 1 1 1 - | -
pairs 1
pair 0 2 1
critical 1 1 0 0
sheets 2 from -
cover 1 1
cover 2 2/1
done
end
";

/// The same in version 2, from a position on to one where the search was spent.
const SPENT: &str = "hap-certificate 2
modulus 13
cells 2 2 0 0
face 1 1 2
face 1 1 2
chains 4 4 0 0
rank 0 0
rank 1 0
rank 2 0
classes 0 0
classes 1 0
classes 2 0
classes 3 0
products 0
pairs 1
pair 0 2 1
critical 1 1 0 0
components 1
columns 1 1
sheets 2 from 1:1
covers 1
cover 2 2/1
spent 2:2,1
end
";

/// Writes the sections, each with its covers; in version 1 no line begins one.
fn write_sections(version: u8, sections: &Sections, paper: &mut Paper) -> Result<(), Failed> {
    for index in 0..sections.len() {
        let section = sections.get(index);
        if version == 2 {
            write_section(section.component, paper)?;
        }
        for cover in 0..section.covers.len() {
            write_cover(&section.covers.get(cover).table, paper)?;
        }
    }
    Ok(())
}

/// The text of a certificate.
fn written(alloc: Global, cert: &Certificate) -> Result<Paper, Failed> {
    let mut paper = Paper::new(alloc, 1000).map_err(|_| Failed)?;
    write_front(cert, &mut paper)?;
    match &cert.cover {
        None => write_back(None, &mut paper)?,
        Some(cover) => {
            write_sections(cert.version, &cover.sections, &mut paper)?;
            write_back(Some(&cover.ending), &mut paper)?;
        }
    }
    Ok(paper)
}

#[test]
fn a_certificate_is_read_and_written_again(rt: HostRuntime) -> Result<(), Fail> {
    let cert = parse(rt.alloc(), CIRCLE.as_bytes())?;
    let paper = written(rt.alloc(), &cert)?;
    assert_eq!(rt; paper.bytes(), CIRCLE.as_bytes());
    Ok(())
}

#[test]
fn a_certificate_of_version_two_is_read_and_written_again(rt: HostRuntime) -> Result<(), Fail> {
    let cert = parse(rt.alloc(), SPENT.as_bytes())?;
    let paper = written(rt.alloc(), &cert)?;
    assert_eq!(rt; paper.bytes(), SPENT.as_bytes());
    Ok(())
}

/// The first fault of a text; want of memory stands for none.
fn fault_of(alloc: Global, text: &str) -> CertFault {
    match parse(alloc, text.as_bytes()) {
        Ok(_) => CertFault::Memory,
        Err(fault) => fault,
    }
}

#[test]
fn the_first_fault_is_told(rt: HostRuntime) {
    for (text, fault) in [
        ("", CertFault::Ends),
        ("hap-certificate 3\n", CertFault::BadVersion),
        ("hap-certificate 1\nmodulus 6\n", CertFault::OutOfRange(2)),
        ("hap-certificate 1\nmodulus 2", CertFault::BadLine(2)),
        ("hap-certificate 1\nmodulus 02\n", CertFault::BadLine(2)),
        (
            "hap-certificate 2\nmodulus 2\nend\n",
            CertFault::WrongOrder(3),
        ),
        ("hap-certificate 1\ncomponents 1\n", CertFault::BadLine(2)),
    ] {
        assert!(rt; fault_of(rt.alloc(), text) == fault, "{text}");
    }
}

// A line of the wrong kind is told by that, whatever its numbers are.
#[test]
fn wrong_order_comes_before_out_of_range(rt: HostRuntime) {
    let text = "hap-certificate 1\nmodulus 2\nchains 9999999999 0 0 0\n";
    assert!(rt; fault_of(rt.alloc(), text) == CertFault::WrongOrder(3));
}
