ghost use Rattle.std.specs.Prelude.{◌≡◌, ◌==◌, position, ℕ, ◌<◌, ◌∷◌, [], length, IfSome, SomeIff, ◌+◌, ◌*◌, ◌^◌};
ghost use Rattle.std.specs.Char.{digit_value};
ghost use Rattle.std.specs.Option.{option_map_or};
ghost use Rattle.play_script.specs.Words.{parts, lines_of, words_of, word as word_of, number_up_to, number as number_of};
ghost use Rattle.play_script.specs.Words.{signed as signed_of, viewer_number as viewer_number_of};

use crate::hex::{are_digits, digit_value};

/// The largest number of a script, but for a viewer's.
pub const NUMBER_LIMIT: u32 = 0x7fff_ffff;

fn place_of(text: &[u8], separator: u8) -> Option<usize>
    ensures { result ≡ position (λ byte. byte == separator) text.now }
{
    text.iter().position(|byte| *byte == separator)
}

// Returns what stands before the first separator, and what stands behind it.
fn split_at(text: &[u8], separator: u8) -> (&[u8], Option<&[u8]>)
    ensures parts { parts separator text.now ≡ result.0.now ∷ option_map_or (λ rest. parts separator rest.now) result.1 [] }
    ensures less { IfSome result.1 (λ rest. length rest.now < length text.now) }
{
    match place_of(text, separator) {
        Some(end) => (&text[..end], Some(&text[end + 1..])),
        None => (text, None),
    }
}

/// Returns the first line of a text without its line feed, and what stands behind that, if there is one.
pub fn split_line(text: &[u8]) -> (&[u8], Option<&[u8]>)
    ensures lines { lines_of text.now ≡ result.0.now ∷ option_map_or (λ rest. lines_of rest.now) result.1 [] }
    ensures less { IfSome result.1 (λ rest. length rest.now < length text.now) }
{
    split_at(text, b'\n')
}

/// Returns the first word of a line, and what stands behind its blank, if there is one.
pub fn split_word(line: &[u8]) -> (&[u8], Option<&[u8]>)
    ensures words { words_of line.now ≡ result.0.now ∷ option_map_or (λ rest. words_of rest.now) result.1 [] }
    ensures less { IfSome result.1 (λ rest. length rest.now < length line.now) }
{
    split_at(line, b' ')
}

/// Returns the word of a line with the number `index`, from 0 on; an empty one where the line has fewer.
pub fn word(line: &[u8], index: usize) -> &[u8]
    ensures { result.now ≡ word_of (words_of line.now) index }
{
    let (first, rest) = split_at(line, b' ');
    if index == 0 {
        return first;
    }
    match rest {
        Some(rest) => word(rest, index - 1),
        None => &[],
    }
}

/// Returns how many words a line has.
pub fn word_count(line: &[u8]) -> usize
    ensures { result ≡ length (words_of line.now) }
{
    line.iter().filter(|byte| **byte == b' ').count() + 1
}

// Returns a decimal number with one digit more, if it fits.
fn with_digit(value: u64, digit: u8) -> Option<u64>
    ensures { SomeIff result (10 * value + digit_value digit < 2 ^ 64) (10 * value + digit_value digit) }
{
    value
        .checked_mul(10)?
        .checked_add(u64::from(digit_value(digit)))
}

// Returns the decimal number that a word spells, if it is at most `limit`.
fn number_up_to(word: &[u8], limit: u64) -> Option<u64>
    ensures { result ≡ number_up_to limit word.now }
{
    if !are_digits(word, 10) {
        return None;
    }
    let mut value: u64 = 0;
    for byte in word {
        value = with_digit(value, *byte)?;
    }
    if value <= limit { Some(value) } else { None }
}

/// Reads a number of at most 2^31 - 1.
pub fn number(word: &[u8]) -> Option<u32>
    ensures value { result ≡ number_of word.now }
    ensures small { IfSome result (λ n. n < 2 ^ 31) }
{
    let value = number_up_to(word, u64::from(NUMBER_LIMIT))?;
    Some(value as u32)
}

/// Reads a number, negative or not, of at most 2^31 - 1 without its sign.
pub fn signed(word: &[u8]) -> Option<i32>
    ensures { result ≡ signed_of word.now }
{
    match word {
        [b'-', digits @ ..] => number(digits).map(|value| -(value as i32)),
        _ => number(word).map(|value| value as i32),
    }
}

/// Reads a viewer's number, below 2^64.
pub fn viewer_number(word: &[u8]) -> Option<u64>
    ensures { result ≡ viewer_number_of word.now }
{
    number_up_to(word, u64::MAX)
}
