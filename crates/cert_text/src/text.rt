ghost use Rattle.std.specs.Prelude.{◌≡◌, ◌≢◌, Ok, Err, IfOk, IfErr};
ghost use Rattle.certificates.specs.Cert.{Cert, cert_of};
ghost use Rattle.certificates.specs.Texts.{cert_text};
ghost use Rattle.certificates.specs.WellFormed.{IsWellFormed};
ghost use Rattle.cert_lines.specs.declared.fault.CertFault.TheVariants.{Memory};
ghost use Rattle.cert_text.specs.Reading as reading;
ghost use Rattle.cert_text.specs.Reading.{certificate_of};
ghost use Rattle.cert_lines.specs.Taken.{Reads, Says};

use crate::cover::read_covers;
use crate::front::{read_modulus, read_version};
use crate::homology::{read_classes, read_ranks};
use crate::products::read_products;
use crate::space::{read_chains, read_space};
use cert_lines::{CertFault, Lines, take_any};
use certificates::Certificate;
use std::alloc::Global;

/// The certificate of a text, in version 1 or 2.
///
/// A text is read line by line: its first fault is the answer, at each line `BadLine` before `WrongOrder`
/// before `OutOfRange`. No room is taken by a number that the text states, but for the vertices.
pub fn parse(alloc: Global, text: &[u8]) -> Result<Certificate, CertFault>
    ensures read { IfOk result (λ cert. certificate_of text.now ≡ Ok (cert_of cert)) }
    ensures whole { IfOk result (λ cert. IsWellFormed (cert_of cert)) }
    ensures text { IfOk result (λ cert. text.now ≡ cert_text (cert_of cert)) }
    ensures fault { IfErr result (λ fault. fault ≢ Memory → certificate_of text.now ≡ Err fault) }
{
    let mut lines = Lines::new(text);
    let version = read_version(&mut lines)?;
    let cert = read_body(alloc, &mut lines, version)?;
    read_nothing(&mut lines, version)?;
    Ok(cert)
}

/// The certificate behind its first line.
fn read_body(alloc: Global, lines: &mut Lines<'_>, version: u8) -> Result<Certificate, CertFault>
    ensures { Reads cert_of (reading.read_body version lines.old) lines.new result }
{
    let modulus = read_modulus(lines, version)?;
    let space = read_space(alloc, lines, version)?;
    let chains = read_chains(alloc, lines, version, &space)?;
    let ranks = read_ranks(alloc, lines, version, modulus, chains)?;
    let classes = read_classes(alloc, lines, version, modulus, chains)?;
    let products = read_products(alloc, lines, version, modulus, chains, &classes)?;
    let cover = read_covers(alloc, lines, version, &space)?;
    Ok(Certificate {
        version,
        modulus,
        space,
        chains,
        ranks,
        classes,
        products,
        cover,
    })
}

/// Whether nothing follows.
fn read_nothing(lines: &mut Lines<'_>, version: u8) -> Result<(), CertFault>
    ensures { (cert : Cert) → Says (λ _. cert) (reading.nothing_left version cert lines.old) result }
{
    let number = lines.number();
    match take_any(lines, version) {
        Ok(_) => Err(CertFault::WrongOrder(number)),
        Err(fault) => {
            if fault == CertFault::Ends {
                Ok(())
            } else {
                Err(fault)
            }
        }
    }
}
