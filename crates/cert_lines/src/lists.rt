ghost use Rattle.std.specs.Prelude.{◌≡◌, ◌≤◌, ◌+◌, ◌<◌, ◌&&◌, nat_le, nat_lt, drop, length, IfOk, option_map, Some};
ghost use Rattle.certificates.specs.Tokens.{words_of};
ghost use Rattle.cert_lines.specs.Pieces.{words_left};
ghost use Rattle.cert_lines.specs.Listed as listed;
ghost use Rattle.cert_lines.specs.Tables.{word_in};

use crate::scan::cut_word;
use crate::word::{read_number, read_token};
use certificates::Token;
use small_field::{Entry, Sparse};
use std::alloc::{AllocError, Global};

/// The sparse list that begins so many words behind the first word of the line, counted from 0, if its
/// positions rise from 1 to `most` and its values are from 1 to `modulus` less 1.
pub fn entries_at(
    alloc: Global,
    line: &[u8],
    place: usize,
    modulus: u8,
    most: u32,
) -> Result<Option<Sparse>, AllocError>
    ensures { IfOk result (λ list. list ≡ listed.if_entries modulus most (listed.list_in line.now place)) }
{
    let (_, rest) = cut_word(line);
    read_entries(alloc, behind_words(rest, place), modulus, most)
}

/// The sparse list behind the bar of the line, under the same conditions.
pub fn entries_behind_bar(
    alloc: Global,
    line: &[u8],
    modulus: u8,
    most: u32,
) -> Result<Option<Sparse>, AllocError>
    ensures { IfOk result (λ list. list ≡ listed.if_entries modulus most (listed.list_behind line.now)) }
{
    let (_, rest) = cut_word(line);
    read_entries(alloc, behind_bar(rest), modulus, most)
}

/// The numbers that stand so many words behind the first word of the line, counted from 0, if they rise
/// from 1 to `most`.
pub fn rising_at(
    alloc: Global,
    line: &[u8],
    place: usize,
    most: u32,
) -> Result<Option<Vec<u32>>, AllocError>
    ensures { IfOk result (λ numbers. option_map (λ v. v.items) numbers
        ≡ listed.if_rising most (listed.numbers_behind line.now place)) }
{
    let (_, rest) = cut_word(line);
    read_rising(alloc, behind_words(rest, place), most)
}

/// The word that stands so many words behind the first word of the line, counted from 0.
pub fn word_at(line: &[u8], place: usize) -> Option<&[u8]>
    ensures { option_map (λ s. s.now) result ≡ word_in line.now place }
{
    let (_, rest) = cut_word(line);
    let (word, _) = cut_word(behind_words(rest, place)?);
    Some(word)
}

/// What stands behind so many words.
fn behind_words(words: Option<&[u8]>, count: usize) -> Option<&[u8]>
    ensures { words_left (option_map (λ s. s.now) result)
        ≡ drop count (words_left (option_map (λ s. s.now) words.entry)) }
{
    let mut left = count;
    let mut rest = words;
    'words: while let Some(text) = rest {
        if left == 0 {
            return Some(text);
        }
        let (_, more) = cut_word(text);
        left -= 1;
        rest = more;
    }
    None
}

fn is_bar(word: &[u8]) -> bool
    ensures { result ≡ listed.is_bar word.now }
{
    matches!(read_token(word), Some(Token::Bar))
}

/// The words behind the bar.
fn behind_bar(words: Option<&[u8]>) -> Option<&[u8]>
    ensures { words_left (option_map (λ s. s.now) result)
        ≡ listed.behind_bar (words_left (option_map (λ s. s.now) words.entry)) }
{
    let mut rest = words;
    'words: while let Some(text) = rest {
        let (word, more) = cut_word(text);
        if is_bar(word) {
            return more;
        }
        rest = more;
    }
    None
}

/// The entries that stand first, if they are in range.
fn read_entries(
    alloc: Global,
    words: Option<&[u8]>,
    modulus: u8,
    most: u32,
) -> Result<Option<Sparse>, AllocError>
    ensures { IfOk result (λ list. list ≡ listed.if_entries modulus most
        (listed.entries_of (words_left (option_map (λ s. s.now) words.entry)))) }
{
    let mut entries = Sparse::with_room(alloc, count_entries(words, most))?;
    let mut last: u32 = 0;
    let mut rest = words;
    'words: while let Some(text) = rest {
        let (word, more) = cut_word(text);
        match read_token(word) {
            Some(Token::Entry(position, value)) => {
                if !is_next(last, most, modulus, position, value) {
                    return Ok(None);
                }
                entries.push(Entry {
                    position: position as u32,
                    value: value as u8,
                })?;
                last = position as u32;
            }
            _ => return Ok(Some(entries)),
        }
        rest = more;
    }
    Ok(Some(entries))
}

/// How many entries stand first, up to `most`.
fn count_entries(words: Option<&[u8]>, most: u32) -> u32
    ensures { result ≤ most }
{
    let mut count: u32 = 0;
    let mut rest = words;
    'words: while let Some(text) = rest {
        if count == most {
            return count;
        }
        let (word, more) = cut_word(text);
        match read_token(word) {
            Some(Token::Entry(..)) => count += 1,
            _ => return count,
        }
        rest = more;
    }
    count
}

/// The numbers that stand first, if they rise from 1 to `most`.
fn read_rising(
    alloc: Global,
    words: Option<&[u8]>,
    most: u32,
) -> Result<Option<Vec<u32>>, AllocError>
    ensures { IfOk result (λ numbers. option_map (λ v. v.items) numbers ≡ listed.if_rising most
        (listed.numbers_of (words_left (option_map (λ s. s.now) words.entry)))) }
{
    let mut numbers = Vec::new(alloc);
    let mut last: u32 = 0;
    let mut rest = words;
    'words: while let Some(text) = rest {
        let (word, more) = cut_word(text);
        match read_number(word) {
            Some(number) => {
                if !is_above(last, most, number) {
                    return Ok(None);
                }
                numbers.push(number as u32)?;
                last = number as u32;
            }
            None => return Ok(Some(numbers)),
        }
        rest = more;
    }
    Ok(Some(numbers))
}

fn is_above(last: u32, most: u32, number: u64) -> bool
    ensures { result ≡ nat_lt last number && nat_le number most }
{
    u64::from(last) < number && number <= u64::from(most)
}

/// Whether the position is behind the last one and in range, and the value is.
fn is_next(last: u32, most: u32, modulus: u8, position: u64, value: u64) -> bool
    ensures { result ≡ (nat_le (last + 1) position && nat_le position most)
        && (nat_le 1 value && nat_le (value + 1) modulus) }
{
    u64::from(last) < position
        && position <= u64::from(most)
        && 1 <= value
        && value < u64::from(modulus)
}
