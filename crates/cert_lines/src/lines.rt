ghost use Rattle.std.specs.Prelude.{◌≡◌, ◌≢◌, ℕ, IfOk, IfErr, Err, ◌==◌, position, length, if◌then◌else◌, slice_index_or};
ghost use Rattle.certificates.specs.Forms.{form_of};
ghost use Rattle.cert_lines.specs.Listed.{numbers_in};
ghost use Rattle.cert_lines.specs.declared.fault.CertFault.TheVariants.{BadLine, Ends, Memory};
ghost use Rattle.cert_lines.specs.Readers.{next_form, take_line, start};
ghost use Rattle.cert_lines.specs.Taken.{Reads, formed_to, IsTaken, IsRefused, four_of, numbers_if, any};

use crate::fault::CertFault;
use crate::kind::LineKind;
use crate::line::{line_kind, number_at};
use certificates::Kind;
use std::marker::Model;

/// The lines of a text that are left. Contracts see the number of the next line and the pieces of the
/// rest between line feeds.
#[derive(Drop)]
pub struct Lines<'a> {
    rest: &'a [u8],
    number: u32,
}

impl<'a> Model for Lines<'a> {
    ghost use Rattle.cert_lines.specs.Readers.{Left, pieces_of};

    ghost Value = { Left };

    ghost view = { λ s. record { number = s.number; pieces = pieces_of s.rest.now } };
}

impl<'a> Lines<'a> {
    /// All lines of a text.
    pub fn new(text: &'a [u8]) -> Lines<'a>
        ensures { result ≡ start text.now }
    {
        Lines {
            rest: text,
            number: 1,
        }
    }

    /// The number of the next line, counted from 1.
    pub fn number(&self) -> u32
        ensures { result ≡ self.now.number }
    {
        self.number
    }

    /// The next line, without its line feed. A text of 2^32 - 1 lines and more is want of memory.
    pub fn next_line(&mut self) -> Result<&'a [u8], CertFault>
        ensures line { IfOk result (λ line. (version : ℕ) →
            next_form version self.old ≡ formed_to self.old.number self.new (form_of version line.now)) }
        ensures fault { IfErr result (λ fault. fault ≢ Memory → (version : ℕ) →
            next_form version self.old ≡ Err fault) }
    {
        let text = self.rest;
        match find_feed(text) {
            None => Err(unended(text, self.number)),
            Some(feed) => {
                if self.number == u32::MAX {
                    return Err(CertFault::Memory);
                }
                self.rest = &text[feed + 1..];
                self.number += 1;
                Ok(&text[..feed])
            }
        }
    }
}

/// Where the first line feed stands, counted from 0.
fn find_feed(text: &[u8]) -> Option<usize>
    ensures { result ≡ position (λ b. b == 10) text.now }
{
    text.iter().position(|byte| *byte == b'\n')
}

/// The fault of a text without a line feed.
fn unended(text: &[u8], number: u32) -> CertFault
    ensures { result ≡ (if length text.now == 0 then Ends else BadLine number) }
{
    if text.is_empty() {
        CertFault::Ends
    } else {
        CertFault::BadLine(number)
    }
}

/// The next line and its kind, if it has a form of the version.
pub fn take_any<'a>(lines: &mut Lines<'a>, version: u8) -> Result<(LineKind, &'a [u8]), CertFault>
    ensures line { IfOk result (λ found. IsTaken version lines.old found.0 lines.new found.1.now) }
    ensures fault { IfErr result (λ fault. fault ≢ Memory → next_form version lines.old ≡ Err fault) }
{
    let number = lines.number();
    let line = lines.next_line()?;
    match line_kind(version, line) {
        None => Err(CertFault::BadLine(number)),
        Some(kind) => Ok((kind, line)),
    }
}

/// The next line, if it has a form of the version and this kind.
pub fn take<'a>(lines: &mut Lines<'a>, version: u8, wanted: LineKind) -> Result<&'a [u8], CertFault>
    ensures line { IfOk result (λ line. IsTaken version lines.old wanted lines.new line.now) }
    ensures fault { IfErr result (λ fault. fault ≢ Memory → IsRefused version lines.old wanted fault) }
{
    let number = lines.number();
    let (kind, line) = take_any(lines, version)?;
    if kind == wanted {
        Ok(line)
    } else {
        Err(CertFault::WrongOrder(number))
    }
}

/// The first four numbers of the next line, zeros behind the last, if it has this kind.
pub fn take_numbers(lines: &mut Lines<'_>, version: u8, kind: Kind) -> Result<[u64; 4], CertFault>
    ensures { Reads (λ numbers. numbers) (take_line version (numbers_if kind) any lines.old) lines.new result }
{
    let line = take(lines, version, LineKind::Plain(kind))?;
    Ok(first_numbers(line))
}

/// The first four numbers behind the first word of a line, zeros where there are fewer.
pub fn first_numbers(line: &[u8]) -> [u64; 4]
    ensures { result ≡ four_of (numbers_in line.now) }
{
    [
        number_or_zero(line, 0),
        number_or_zero(line, 1),
        number_or_zero(line, 2),
        number_or_zero(line, 3),
    ]
}

pub fn number_or_zero(line: &[u8], place: usize) -> u64
    ensures { result ≡ slice_index_or (numbers_in line.now) place 0 }
{
    number_at(line, place).unwrap_or(0)
}
