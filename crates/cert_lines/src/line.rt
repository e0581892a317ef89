ghost use Rattle.std.specs.Prelude.{◌≡◌, ◌<◌, ◌+◌, ◌^◌, if◌then◌else◌, option_map, option_and_then, Some, None};
ghost use Rattle.std.specs.List.{slice_get};
ghost use Rattle.certificates.specs.Parts.{kind_of_word, kind_from};
ghost use Rattle.certificates.specs.Tokens.{words_of};
ghost use Rattle.certificates.specs.Forms.{form_of};
ghost use Rattle.cert_lines.specs.Pieces.{words_left, room};
ghost use Rattle.cert_lines.specs.Shapes.{shape_from};
ghost use Rattle.cert_lines.specs.Kinds.{kind_of, kind_stands, plain_stands, placed_stands};
ghost use Rattle.cert_lines.specs.Listed.{numbers_in};

use crate::kind::LineKind;
use crate::placed::{is_cover, is_sheets, is_spent};
use crate::scan::cut_word;
use crate::shape::{Stage, fits, read_shape};
use crate::word::{is_same, read_number};
use certificates::Kind;

const KINDS: [Kind; 19] = [
    Kind::Version,
    Kind::Modulus,
    Kind::Cells,
    Kind::Face,
    Kind::Chains,
    Kind::Rank,
    Kind::RankLine,
    Kind::Classes,
    Kind::ClassLine,
    Kind::Products,
    Kind::ProductLine,
    Kind::Pairs,
    Kind::PairLine,
    Kind::Critical,
    Kind::Components,
    Kind::Columns,
    Kind::Covers,
    Kind::Done,
    Kind::End,
];

/// Which line it is, if it has a form of the version. No memory is taken.
pub fn line_kind(version: u8, line: &[u8]) -> Option<LineKind>
    ensures { result ≡ option_map kind_of (form_of version line.now) }
{
    let (word, rest) = cut_word(line);
    match read_kind(word) {
        Some(kind) => plain_kind(version, kind, rest),
        None => placed_kind(version, word, rest),
    }
}

/// The number that stands so many words behind the first word of the line, counted from 0, if only numbers
/// stand before it.
pub fn number_at(line: &[u8], place: usize) -> Option<u64>
    ensures { result ≡ slice_get (numbers_in line.now) place }
{
    let (_, mut rest) = cut_word(line);
    let mut left = place;
    'words: while let Some(text) = rest {
        let (word, more) = cut_word(text);
        let number = read_number(word)?;
        if left == 0 {
            return Some(number);
        }
        left -= 1;
        rest = more;
    }
    None
}

fn find_kind(table: &[Kind], word: &[u8]) -> Option<Kind>
    ensures { result ≡ kind_from table.now word.now }
{
    match table {
        [] => None,
        [first, rest @ ..] => {
            if is_same(first.word().as_bytes(), word) {
                Some(*first)
            } else {
                find_kind(rest, word)
            }
        }
    }
}

fn read_kind(word: &[u8]) -> Option<Kind>
    ensures { result ≡ kind_of_word word.now }
{
    find_kind(&KINDS, word)
}

fn has_kind(version: u8, kind: Kind) -> bool
    ensures { result ≡ kind_stands version kind }
{
    match kind {
        Kind::Components | Kind::Columns | Kind::Covers => version != 1,
        _ => true,
    }
}

fn plain_kind(version: u8, kind: Kind, rest: Option<&[u8]>) -> Option<LineKind>
    requires { room (option_map (λ s. s.now) rest) < 2 ^ 63 + 1 }
    ensures { result ≡ option_and_then (plain_stands version kind)
        (shape_from Stage.Numbers 0 (words_left (option_map (λ s. s.now) rest.entry))) }
{
    let (count, lists) = read_shape(rest)?;
    if fits(kind, count, lists) && has_kind(version, kind) {
        Some(LineKind::Plain(kind))
    } else {
        None
    }
}

fn placed_kind(version: u8, word: &[u8], rest: Option<&[u8]>) -> Option<LineKind>
    ensures { result ≡ placed_stands version word.now (words_left (option_map (λ s. s.now) rest.entry)) }
{
    match rest {
        None => None,
        Some(words) => kind_behind(version, word, words),
    }
}

fn kind_behind(version: u8, word: &[u8], words: &[u8]) -> Option<LineKind>
    ensures { result ≡ placed_stands version word.now (words_of words.now) }
{
    if is_same(word, b"spent") {
        return kind_if(is_spent(version, words), LineKind::Spent);
    }
    if is_same(word, b"cover") {
        return kind_if(is_cover(words), LineKind::Cover);
    }
    if is_same(word, b"sheets") {
        return kind_if(is_sheets(version, words), LineKind::Sheets);
    }
    None
}

fn kind_if(stands: bool, kind: LineKind) -> Option<LineKind>
    ensures { result ≡ (if stands then Some kind else None) }
{
    if stands { Some(kind) } else { None }
}
