ghost use Rattle.std.specs.Prelude.{◌≡◌, ◌≤◌, ◌==◌, length, true, option_and_then};
ghost use Rattle.std.specs.List.{list_all};
ghost use Rattle.std.specs.Str.{bytes_eq};
ghost use Rattle.std.specs.declared.option.Option.TheVariants.{Some};
ghost use Rattle.certificates.specs.Numbers.{is_decimal_digit, number_of, is_numeral, leads_well, number_from};
ghost use Rattle.certificates.specs.Tokens.{token_of, sign_of};

use crate::scan::place;
use certificates::Token;

/// The most digits of a number.
const MOST_DIGITS: usize = 10;

/// Whether two texts are the same.
pub fn is_same(left: &[u8], right: &[u8]) -> bool
    ensures { result ≡ bytes_eq left.now right.now }
{
    left == right
}

/// The number that the word is: 1 to 10 digits, no needless zero in front.
pub fn read_number(word: &[u8]) -> Option<u64>
    ensures { result ≡ number_of word.now }
{
    if word.is_empty() || word.len() > MOST_DIGITS || !is_well_led(word) || !are_digits(word) {
        return None;
    }
    Some(digits_value(word))
}

/// What the word says, if it says something.
pub fn read_token(word: &[u8]) -> Option<Token>
    ensures { result ≡ token_of word.now }
{
    match place(b':', word) {
        None => match read_number(word) {
            Some(number) => Some(Token::Number(number)),
            None => read_sign(word),
        },
        Some(colon) => read_entry(&word[..colon], &word[colon + 1..]),
    }
}

fn is_well_led(word: &[u8]) -> bool
    ensures { result ≡ leads_well word.now }
{
    match word {
        [first, _, ..] => *first != b'0',
        _ => true,
    }
}

fn is_digit(byte: u8) -> bool
    ensures { result ≡ is_decimal_digit byte }
{
    byte.is_ascii_digit()
}

fn are_digits(word: &[u8]) -> bool
    ensures { result ≡ list_all is_decimal_digit word.now }
{
    word.iter().all(|byte| is_digit(*byte))
}

/// The number of these digits.
fn digits_value(digits: &[u8]) -> u64
    requires few { length digits.now ≤ 10 }
    requires digits { list_all is_decimal_digit digits.now ≡ true }
    ensures { result ≡ number_from 0 digits.now }
{
    let mut value: u64 = 0;
    for digit in digits {
        value = 10 * value + u64::from(*digit - b'0');
    }
    value
}

fn read_sign(word: &[u8]) -> Option<Token>
    ensures { result ≡ sign_of word.now }
{
    match word {
        [b'-'] => Some(Token::Dash),
        [b'|'] => Some(Token::Bar),
        _ => None,
    }
}

fn read_entry(left: &[u8], right: &[u8]) -> Option<Token>
    ensures { result ≡ option_and_then (λ p. option_and_then (λ v. Some (Token.Entry p v)) (number_of right.now))
        (number_of left.now) }
{
    let position = read_number(left)?;
    let value = read_number(right)?;
    Some(Token::Entry(position, value))
}
