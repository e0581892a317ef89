ghost use Rattle.std.specs.Prelude.{◌≡◌, ◌==◌, ◌&&◌, ◌∷◌, nat_le, if◌then◌else◌, is_some, option_map, bytes_eq, codes, Some, None};
ghost use Rattle.std.specs.List.{slice_split};
ghost use Rattle.sheet_tables.specs.Positions.{digit_from, cells_from, position_from};
ghost use Rattle.sheet_tables.specs.Spots.{component_from};
ghost use Rattle.certificates.specs.Placed.{spot_or_start_of, table_of};
ghost use Rattle.certificates.specs.Forms.{in_first};
ghost use Rattle.certificates.specs.Numbers.{number_of};
ghost use Rattle.certificates.specs.Tokens.{words_of};
ghost use Rattle.cert_lines.specs.Pieces.{pieces_left, words_left};
ghost use Rattle.cert_lines.specs.Kinds.{spot_stands, spent_stands, cover_stands, sheets_stands};
ghost use Rattle.cert_lines.specs.Widths.{width_of, are_wide};

use crate::scan::{cut, cut_word};
use crate::word::{is_same, read_number};

/// Whether one word stands there, which is the text of a spot.
pub fn is_spent(version: u8, words: &[u8]) -> bool
    ensures { result ≡ spent_stands version (words_of words.now) }
{
    let (spot, rest) = cut_word(words);
    is_spent_of(version, spot, rest)
}

/// Whether a number and a table stand there.
pub fn is_cover(words: &[u8]) -> bool
    ensures { result ≡ cover_stands (words_of words.now) }
{
    let (number, rest) = cut_word(words);
    is_cover_from(number, rest)
}

/// Whether a number, `from` and a spot stand there.
pub fn is_sheets(version: u8, words: &[u8]) -> bool
    ensures { result ≡ sheets_stands version (words_of words.now) }
{
    let (number, rest) = cut_word(words);
    is_sheets_from(version, number, rest)
}

fn is_spent_of(version: u8, spot: &[u8], rest: Option<&[u8]>) -> bool
    ensures { result ≡ spent_stands version (spot.now ∷ words_left (option_map (λ s. s.now) rest.entry)) }
{
    match rest {
        None => is_spot(version, spot),
        Some(_) => false,
    }
}

fn is_cover_from(number: &[u8], rest: Option<&[u8]>) -> bool
    ensures { result ≡ cover_stands (number.now ∷ words_left (option_map (λ s. s.now) rest.entry)) }
{
    match rest {
        None => false,
        Some(text) => {
            let (table, more) = cut_word(text);
            is_cover_of(number, table, more)
        }
    }
}

fn is_cover_of(number: &[u8], table: &[u8], rest: Option<&[u8]>) -> bool
    ensures { result
        ≡ cover_stands (number.now ∷ table.now ∷ words_left (option_map (λ s. s.now) rest.entry)) }
{
    match rest {
        None => has_table(number, table),
        Some(_) => false,
    }
}

fn is_sheets_from(version: u8, number: &[u8], rest: Option<&[u8]>) -> bool
    ensures { result ≡ sheets_stands version (number.now ∷ words_left (option_map (λ s. s.now) rest.entry)) }
{
    match rest {
        None => false,
        Some(text) => {
            let (from, more) = cut_word(text);
            is_sheets_behind(version, number, from, more)
        }
    }
}

fn is_sheets_behind(version: u8, number: &[u8], from: &[u8], rest: Option<&[u8]>) -> bool
    ensures { result ≡ sheets_stands version
        (number.now ∷ from.now ∷ words_left (option_map (λ s. s.now) rest.entry)) }
{
    match rest {
        None => false,
        Some(text) => {
            let (spot, more) = cut_word(text);
            is_sheets_of(version, number, from, spot, more)
        }
    }
}

fn is_sheets_of(version: u8, number: &[u8], from: &[u8], spot: &[u8], rest: Option<&[u8]>) -> bool
    ensures { result ≡ sheets_stands version
        (number.now ∷ from.now ∷ spot.now ∷ words_left (option_map (λ s. s.now) rest.entry)) }
{
    match rest {
        None => has_start(version, number, from, spot),
        Some(_) => false,
    }
}

fn has_table(number: &[u8], table: &[u8]) -> bool
    ensures { result ≡ is_some (number_of number.now) && is_some (table_of table.now) }
{
    read_number(number).is_some() && is_table(table)
}

fn has_start(version: u8, number: &[u8], from: &[u8], spot: &[u8]) -> bool
    ensures { result ≡ is_some (number_of number.now) && bytes_eq from.now (codes "from")
        && spot_stands version spot.now }
{
    read_number(number).is_some() && is_same(from, b"from") && is_spot(version, spot)
}

/// Whether the word is the text of a spot that the version has.
fn is_spot(version: u8, word: &[u8]) -> bool
    ensures { result ≡ spot_stands version word.now }
{
    match spot_side(word) {
        None => false,
        Some(first) => version != 1 || first,
    }
}

/// Whether the spot is in component 1, if the word is the text of one.
fn spot_side(word: &[u8]) -> Option<bool>
    ensures { result ≡ option_map in_first (spot_or_start_of word.now) }
{
    if is_same(word, b"-") {
        return Some(true);
    }
    let (component, rest) = cut_slash(word);
    match rest {
        None => side_if(is_position(word), true),
        Some(position) => side_if(is_later(component, position), false),
    }
}

/// The text up to the first slash, and what stands behind that.
fn cut_slash(word: &[u8]) -> (&[u8], Option<&[u8]>)
    ensures { slice_split (λ b. b == 47) word.now
        ≡ result.0.now ∷ pieces_left 47 (option_map (λ s. s.now) result.1) }
{
    cut(b'/', word)
}

fn side_if(stands: bool, side: bool) -> Option<bool>
    ensures { result ≡ (if stands then Some side else None) }
{
    if stands { Some(side) } else { None }
}

fn is_later(component: &[u8], position: &[u8]) -> bool
    ensures { result ≡ is_some (component_from component.now) && is_some (position_from position.now) }
{
    is_component(component) && is_position(position)
}

fn is_component(word: &[u8]) -> bool
    ensures { result ≡ is_some (component_from word.now) }
{
    match read_number(word) {
        None => false,
        Some(number) => is_between(number),
    }
}

fn is_between(number: u64) -> bool
    ensures { result ≡ nat_le 2 number && nat_le number 60000 }
{
    2 <= number && number <= 60_000
}

fn is_digit(byte: u8) -> bool
    ensures { result ≡ is_some (digit_from byte) }
{
    b'1' <= byte && byte <= b'8'
}

fn is_position(text: &[u8]) -> bool
    ensures { result ≡ is_some (position_from text.now) }
{
    match text {
        [sheets, b':', cells @ ..] => is_digit(*sheets) && are_cells(cells),
        _ => false,
    }
}

fn are_cells(text: &[u8]) -> bool
    ensures { result ≡ is_some (cells_from text.now) }
{
    let mut rest = text;
    'cells: while let [byte, comma, more @ ..] = rest {
        if *comma != b',' {
            return false;
        }
        if !is_digit(*byte) {
            return false;
        }
        rest = more;
    }
    match rest {
        [last] => is_digit(*last),
        _ => false,
    }
}

fn is_table(word: &[u8]) -> bool
    ensures { result ≡ is_some (table_of word.now) }
{
    if is_same(word, b"-") {
        return true;
    }
    let (first, rest) = cut(b'/', word);
    match row_width(first) {
        None => false,
        Some(width) => are_rows(rest, width),
    }
}

/// Whether each row that is left has this width.
fn are_rows(rows: Option<&[u8]>, width: usize) -> bool
    ensures { result ≡ are_wide width (pieces_left 47 (option_map (λ s. s.now) rows.entry)) }
{
    let mut rest = rows;
    'rows: while let Some(text) = rest {
        let (row, more) = cut(b'/', text);
        match row_width(row) {
            None => return false,
            Some(other) => {
                if other != width {
                    return false;
                }
            }
        }
        rest = more;
    }
    true
}

/// How many numbers the row has, if it has a form.
fn row_width(row: &[u8]) -> Option<usize>
    ensures { result ≡ width_of (slice_split (λ b. b == 44) row.now) }
{
    let (first, mut rest) = cut(b',', row);
    let _ = read_number(first)?;
    let mut width: usize = 1;
    'entries: while let Some(text) = rest {
        let (entry, more) = cut(b',', text);
        let _ = read_number(entry)?;
        width += 1;
        rest = more;
    }
    Some(width)
}
