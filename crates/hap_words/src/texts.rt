// What the texts of options stand for.
ghost use Rattle.std.specs.Prelude.{◌≡◌, true, map, length, ◌≤◌};
ghost use Rattle.std.specs.List.{list_all};
ghost use Rattle.hap_words.specs.Texts.{named, number_of, number_between, is_decimal_digit, number_from};

const MOST_DIGITS: usize = 18;

/// The value that stands under the word in the table.
pub fn find_named<T: Copy>(table: &[(&str, T)], word: &str) -> Option<T>
    ensures { result ≡ named (map (λ entry. (entry.0.now, entry.1)) table.now) word.now }
{
    match table {
        [] => None,
        [first, rest @ ..] => {
            if first.0 == word {
                Some(first.1)
            } else {
                find_named(rest, word)
            }
        }
    }
}

/// The number that the text stands for, where it lies between the bounds.
pub fn read_number_between(text: &str, least: u64, most: u64) -> Option<u64>
    ensures { result ≡ number_between least most text.now }
{
    match read_number(text) {
        Some(number) if least <= number && number <= most => Some(number),
        _ => None,
    }
}

/// The number that the text, of 1 to 18 digits, stands for.
pub fn read_number(text: &str) -> Option<u64>
    ensures { result ≡ number_of text.now }
{
    let digits = text.as_bytes();
    if digits.is_empty() || digits.len() > MOST_DIGITS || !are_digits(digits) {
        return None;
    }
    Some(digits_value(digits))
}

fn are_digits(bytes: &[u8]) -> bool
    ensures { result ≡ list_all is_decimal_digit bytes.now }
{
    bytes.iter().all(|byte| is_digit(*byte))
}

fn is_digit(byte: u8) -> bool
    ensures { result ≡ is_decimal_digit byte }
{
    byte.is_ascii_digit()
}

/// The number of these digits.
fn digits_value(digits: &[u8]) -> u64
    requires few { length digits.now ≤ 18 }
    requires digits { list_all is_decimal_digit digits.now ≡ true }
    ensures { result ≡ number_from 0 digits.now }
{
    let mut value: u64 = 0;
    for digit in digits {
        value = 10 * value + u64::from(*digit - b'0');
    }
    value
}
