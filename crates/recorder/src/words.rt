//! The words of a line. Each is put with a blank before it.

ghost use Rattle.std.specs.Prelude.{◌≡◌, ◌/◌, ◌%◌, ◌*◌, ◌<◌, ◌≤◌, ◌++◌, ◌∷◌, [], flat_map, length, take, ◌+ℤ◌, neg_ℤ};
ghost use Rattle.std.specs.Fmt.{decimal, signed_decimal};
ghost use Rattle.std.specs.List.{list_any};
ghost use Rattle.scribe.specs.Scribing.{Puts};
ghost use Rattle.recorder.specs.Words.{are_one, colour_bytes, colour_digits, corner_words, hex, hex_digit, hex_word, is_plain_name, name_word, parts_words, pixels_word, place_words, size_words, spaced};

use itoa::Buffer;
use region::Rect;
use scribe::Scribe;
use std::io::Write;

/// How many colours are spelt at a time.
const COLOURS: usize = 64;

/// How many bytes are spelt at a time: those of so many colours.
const BYTES: usize = 192;

/// How many digits these have.
const DIGITS: usize = 384;

/// Returns a digit, in lower case.
fn hex_digit(value: u8) -> u8
    requires { value < 16 }
    ensures { result ≡ hex_digit value }
{
    if value < 10 {
        b'0' + value
    } else {
        b'a' - 10 + value
    }
}

/// Puts the digits of bytes at an array's start.
fn fill_digits(digits: &mut [u8; DIGITS], bytes: &[u8])
    requires { length bytes.now ≤ 192 }
    ensures { take (2 * length bytes.now) digits.new ≡ hex bytes.now }
{
    for (at, byte) in bytes.iter().enumerate() {
        digits[2 * at] = hex_digit(*byte / 16);
        digits[2 * at + 1] = hex_digit(*byte % 16);
    }
}

/// Puts the digits of a few bytes.
fn put_few<W: Write + Drop>(scribe: &mut Scribe<W>, bytes: &[u8])
    requires { length bytes.now ≤ 192 }
    ensures { Puts (hex bytes.now) scribe.old scribe.new }
{
    let mut digits = [0; DIGITS];
    fill_digits(&mut digits, bytes);
    scribe.put(&digits[..2 * bytes.len()]);
}

/// Puts the digits of bytes.
fn put_hex<W: Write + Drop>(scribe: &mut Scribe<W>, bytes: &[u8])
    ensures { Puts (hex bytes.now) scribe.old scribe.new }
{
    for few in bytes.chunks(BYTES) {
        put_few(scribe, few);
    }
}

/// Returns the bytes of a colour: its red, green and blue.
fn colour_bytes(colour: u32) -> [u8; 3]
    ensures { result ≡ colour_bytes colour }
{
    [
        (colour / 0x1_0000 % 256) as u8,
        (colour / 256 % 256) as u8,
        (colour % 256) as u8,
    ]
}

/// Puts the bytes of colours at an array's start.
fn fill_bytes(bytes: &mut [u8; BYTES], colours: &[u32])
    requires { length colours.now ≤ 64 }
    ensures { take (3 * length colours.now) bytes.new ≡ flat_map colour_bytes colours.now }
{
    for (at, colour) in colours.iter().enumerate() {
        let [red, green, blue] = colour_bytes(*colour);
        bytes[3 * at] = red;
        bytes[3 * at + 1] = green;
        bytes[3 * at + 2] = blue;
    }
}

/// Puts the digits of a few colours.
fn put_few_colours<W: Write + Drop>(scribe: &mut Scribe<W>, colours: &[u32])
    requires { length colours.now ≤ 64 }
    ensures { Puts (flat_map colour_digits colours.now) scribe.old scribe.new }
{
    let mut bytes = [0; BYTES];
    fill_bytes(&mut bytes, colours);
    put_few(scribe, &bytes[..3 * colours.len()]);
}

/// Puts the digits of colours.
fn put_colours<W: Write + Drop>(scribe: &mut Scribe<W>, colours: &[u32])
    ensures { Puts (flat_map colour_digits colours.now) scribe.old scribe.new }
{
    for few in colours.chunks(COLOURS) {
        put_few_colours(scribe, few);
    }
}

/// Puts a word.
fn put_word<W: Write + Drop>(scribe: &mut Scribe<W>, word: &[u8])
    ensures { Puts (spaced (word.now ∷ [])) scribe.old scribe.new }
{
    scribe.put(b" ");
    scribe.put(word);
}

/// Puts a number that is not negative.
pub(crate) fn put_number<W: Write + Drop>(scribe: &mut Scribe<W>, number: u64)
    ensures { Puts (spaced (decimal number ∷ [])) scribe.old scribe.new }
{
    put_word(scribe, Buffer::new().format(number).as_bytes());
}

/// Puts a number.
fn put_signed<W: Write + Drop>(scribe: &mut Scribe<W>, number: i64)
    ensures { Puts (spaced (signed_decimal number ∷ [])) scribe.old scribe.new }
{
    put_word(scribe, Buffer::new().format(number).as_bytes());
}

/// Puts two numbers.
pub(crate) fn put_pair<W: Write + Drop>(scribe: &mut Scribe<W>, first: i32, second: i32)
    ensures { Puts (spaced (signed_decimal first ∷ signed_decimal second ∷ [])) scribe.old scribe.new }
{
    put_signed(scribe, i64::from(first));
    put_signed(scribe, i64::from(second));
}

/// Returns how far it is from one number to another.
fn distance(from: i32, to: i32) -> i64
    ensures { result ≡ to +ℤ neg_ℤ from }
{
    i64::from(to) - i64::from(from)
}

/// Puts how far it is from one number to another.
fn put_distance<W: Write + Drop>(scribe: &mut Scribe<W>, from: i32, to: i32)
    ensures { Puts (spaced (signed_decimal (to +ℤ neg_ℤ from) ∷ [])) scribe.old scribe.new }
{
    put_signed(scribe, distance(from, to));
}

/// Puts bytes; `-` stands for none.
pub(crate) fn put_bytes<W: Write + Drop>(scribe: &mut Scribe<W>, bytes: &[u8])
    ensures { Puts (spaced (hex_word bytes.now ∷ [])) scribe.old scribe.new }
{
    scribe.put(b" ");
    if bytes.is_empty() {
        scribe.put(b"-");
    } else {
        put_hex(scribe, bytes);
    }
}

/// Returns whether all colours are the first.
fn are_one(colours: &[u32]) -> bool
    requires { 0 < length colours.now }
    ensures { result ≡ are_one colours.now }
{
    let first = colours[0];
    colours
        .iter()
        .all(|colour| *colour % 0x100_0000 == first % 0x100_0000)
}

/// Puts the colours of a rectangle: one alone where all are that, and `-` for none.
pub(crate) fn put_pixels<W: Write + Drop>(scribe: &mut Scribe<W>, colours: &[u32])
    ensures { Puts (spaced (pixels_word colours.now ∷ [])) scribe.old scribe.new }
{
    scribe.put(b" ");
    if colours.is_empty() {
        scribe.put(b"-");
    } else if are_one(colours) {
        put_few(scribe, &colour_bytes(colours[0]));
    } else {
        put_colours(scribe, colours);
    }
}

/// Puts the corners of a rectangle.
pub(crate) fn put_corners<W: Write + Drop>(scribe: &mut Scribe<W>, rect: Rect)
    ensures { Puts (spaced (corner_words rect)) scribe.old scribe.new }
{
    put_pair(scribe, rect.x1, rect.y1);
    put_pair(scribe, rect.x2, rect.y2);
}

/// Puts the corners of each rectangle.
pub(crate) fn put_rects<W: Write + Drop>(scribe: &mut Scribe<W>, rects: &[Rect])
    ensures { Puts (spaced (flat_map corner_words rects.now)) scribe.old scribe.new }
{
    for rect in rects {
        put_corners(scribe, *rect);
    }
}

/// Puts a rectangle's size.
fn put_size<W: Write + Drop>(scribe: &mut Scribe<W>, rect: Rect)
    ensures { Puts (spaced (size_words rect)) scribe.old scribe.new }
{
    put_distance(scribe, rect.x1, rect.x2);
    put_distance(scribe, rect.y1, rect.y2);
}

/// Puts a rectangle's corner and its size.
pub(crate) fn put_places<W: Write + Drop>(scribe: &mut Scribe<W>, rect: Rect)
    ensures { Puts (spaced (place_words rect)) scribe.old scribe.new }
{
    put_pair(scribe, rect.x1, rect.y1);
    put_size(scribe, rect);
}

/// Returns whether bytes have a blank or a line feed.
fn has_parts(name: &[u8]) -> bool
    ensures { result ≡ list_any parts_words name.now }
{
    name.iter().any(|byte| *byte == b' ' || *byte == b'\n')
}

/// Returns whether a script's line can say a name.
pub(crate) fn is_plain_name(name: &[u8]) -> bool
    ensures { result ≡ is_plain_name name.now }
{
    match name {
        b"-" => false,
        _ => !has_parts(name),
    }
}

/// Puts a name that a script's line can say; `-` stands for none.
pub(crate) fn put_name<W: Write + Drop>(scribe: &mut Scribe<W>, name: &[u8])
    ensures { Puts (spaced (name_word name.now ∷ [])) scribe.old scribe.new }
{
    if name.is_empty() {
        put_word(scribe, b"-");
    } else {
        put_word(scribe, name);
    }
}
