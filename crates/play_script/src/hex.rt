ghost use Rattle.std.specs.Prelude.{◌≡◌, ◌≤◌, ◌+◌, ◌*◌, length, IfOk, option_map};
ghost use Rattle.std.specs.Char.{digit_value, is_digit};
ghost use Rattle.std.specs.List.{list_all};
ghost use Rattle.play_script.specs.Words.{value_in, group, are_digits, is_groups, hex_bytes as bytes_of, hex_colours as colours_of};

use std::alloc::{AllocError, Global};

// The value of each byte as a digit. A table has no branch, which on the digits of a picture would be foretold wrongly.
#[rattlefmt::skip]
const DIGIT_VALUES: [u8; 256] = [
    36, 36, 36, 36, 36, 36, 36, 36, 36, 36, 36, 36, 36, 36, 36, 36,
    36, 36, 36, 36, 36, 36, 36, 36, 36, 36, 36, 36, 36, 36, 36, 36,
    36, 36, 36, 36, 36, 36, 36, 36, 36, 36, 36, 36, 36, 36, 36, 36,
     0,  1,  2,  3,  4,  5,  6,  7,  8,  9, 36, 36, 36, 36, 36, 36,
    36, 10, 11, 12, 13, 14, 15, 16, 17, 18, 19, 20, 21, 22, 23, 24,
    25, 26, 27, 28, 29, 30, 31, 32, 33, 34, 35, 36, 36, 36, 36, 36,
    36, 10, 11, 12, 13, 14, 15, 16, 17, 18, 19, 20, 21, 22, 23, 24,
    25, 26, 27, 28, 29, 30, 31, 32, 33, 34, 35, 36, 36, 36, 36, 36,
    36, 36, 36, 36, 36, 36, 36, 36, 36, 36, 36, 36, 36, 36, 36, 36,
    36, 36, 36, 36, 36, 36, 36, 36, 36, 36, 36, 36, 36, 36, 36, 36,
    36, 36, 36, 36, 36, 36, 36, 36, 36, 36, 36, 36, 36, 36, 36, 36,
    36, 36, 36, 36, 36, 36, 36, 36, 36, 36, 36, 36, 36, 36, 36, 36,
    36, 36, 36, 36, 36, 36, 36, 36, 36, 36, 36, 36, 36, 36, 36, 36,
    36, 36, 36, 36, 36, 36, 36, 36, 36, 36, 36, 36, 36, 36, 36, 36,
    36, 36, 36, 36, 36, 36, 36, 36, 36, 36, 36, 36, 36, 36, 36, 36,
    36, 36, 36, 36, 36, 36, 36, 36, 36, 36, 36, 36, 36, 36, 36, 36,
];

/// Returns the value of a digit; 36 of any other byte.
pub fn digit_value(byte: u8) -> u32
    ensures { result ≡ digit_value byte }
{
    u32::from(DIGIT_VALUES[usize::from(byte)])
}

// Returns the number that at most six hexadecimal digits spell.
fn value_of(digits: &[u8]) -> u32
    requires { length digits.now ≤ 6 }
    ensures { result ≡ value_in 16 digits.now }
{
    let mut value = 0;
    for digit in digits {
        value = 16 * value + digit_value(*digit);
    }
    value
}

fn all_digits(word: &[u8], base: u32) -> bool
    ensures { result ≡ list_all (λ d. is_digit d base) word.now }
{
    word.iter().all(|digit| digit_value(*digit) < base)
}

/// Returns whether a word has digits of `base`, and nothing else.
pub fn are_digits(word: &[u8], base: u32) -> bool
    ensures { result ≡ are_digits base word.now }
{
    !word.is_empty() && all_digits(word, base)
}

fn is_groups(word: &[u8], size: usize) -> bool
    requires { 1 ≤ size }
    ensures { result ≡ is_groups size word.now }
{
    are_digits(word, 16) && word.len() % size == 0
}

// Returns the number that a group of `size` digits spells, by its `place` among the groups.
fn group_value(word: &[u8], size: usize, place: usize) -> u32
    requires few { size ≤ 6 }
    requires within { size * place + size ≤ length word.now }
    ensures { result ≡ value_in 16 (group size word.now place) }
{
    let start = size * place;
    value_of(&word[start..start + size])
}

/// Returns the bytes that a word spells, two digits each, and no bytes for `-`; else None. `AllocError` if memory is refused.
pub fn hex_bytes(alloc: Global, word: &[u8]) -> Result<Option<Vec<u8>>, AllocError>
    ensures { IfOk result (λ found. option_map (λ bytes. bytes.items) found ≡ bytes_of word.now) }
{
    if word == b"-".as_slice() {
        return Ok(Some(Vec::new(alloc)));
    }
    if !is_groups(word, 2) {
        return Ok(None);
    }
    let mut bytes = Vec::with_capacity(alloc, word.len() / 2)?;
    for place in 0..word.len() / 2 {
        bytes.push(group_value(word, 2, place) as u8)?;
    }
    Ok(Some(bytes))
}

/// Returns the colours that a word spells, six digits each, and no colours for `-`; else None. `AllocError` if memory is refused.
pub fn hex_colours(alloc: Global, word: &[u8]) -> Result<Option<Vec<u32>>, AllocError>
    ensures { IfOk result (λ found. option_map (λ colours. colours.items) found ≡ colours_of word.now) }
{
    if word == b"-".as_slice() {
        return Ok(Some(Vec::new(alloc)));
    }
    if !is_groups(word, 6) {
        return Ok(None);
    }
    let mut colours = Vec::with_capacity(alloc, word.len() / 6)?;
    for place in 0..word.len() / 6 {
        colours.push(group_value(word, 6, place))?;
    }
    Ok(Some(colours))
}
