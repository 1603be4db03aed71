ghost use Rattle.std.specs.Prelude.{◌≡◌, ◌++◌, ◌<◌, IfOk, OnOk, flat_map, codes};
ghost use Rattle.std.specs.Fmt.{decimal};
ghost use Rattle.play_script.specs.Texts.{hex_digit, hex, hex_word, flag, refusal_name, refused, fault_name, unknown_type};
ghost use Rattle.play_script.specs.Texts.{type_named, closed, input_line, bytes_line, ok, answered, text_of, bad_line};

use messages::{Fault, Input};
use screen::{Answer, Event, ScreenError};
use std::alloc::{AllocError, Global};

// Returns the digit of `value`, in lower case.
fn hex_digit(value: u8) -> u8
    requires { value < 16 }
    ensures { result ≡ hex_digit value }
{
    if value < 10 {
        b'0' + value
    } else {
        b'a' - 10 + value
    }
}

fn put_hex(out: &mut Vec<u8>, bytes: &[u8]) -> Result<(), AllocError>
    ensures { OnOk result (out.new.items ≡ out.old.items ++ hex bytes.now) }
{
    out.reserve(bytes.len().saturating_mul(2))?;
    for byte in bytes {
        out.extend_from_slice(&[hex_digit(*byte / 16), hex_digit(*byte % 16)])?;
    }
    Ok(())
}

// Appends bytes in hexadecimal digits; `-` stands for no bytes.
fn put_hex_word(out: &mut Vec<u8>, bytes: &[u8]) -> Result<(), AllocError>
    ensures { OnOk result (out.new.items ≡ out.old.items ++ hex_word bytes.now) }
{
    if bytes.is_empty() {
        return out.extend_from_slice(b"-");
    }
    put_hex(out, bytes)
}

fn put_number(alloc: Global, out: &mut Vec<u8>, number: u64) -> Result<(), AllocError>
    ensures { OnOk result (out.new.items ≡ out.old.items ++ decimal number) }
{
    let digits = number.to_string(alloc)?;
    out.extend_from_slice(digits.as_bytes())
}

// Appends the head of a line: `name`, which ends with a blank, the viewer's number and a blank.
fn put_head(alloc: Global, out: &mut Vec<u8>, name: &[u8], viewer: u64) -> Result<(), AllocError>
    ensures { OnOk result (out.new.items ≡ out.old.items ++ (name.now ++ decimal viewer ++ codes " ")) }
{
    out.extend_from_slice(name)?;
    put_number(alloc, out, viewer)?;
    out.extend_from_slice(b" ")
}

fn flag(value: bool) -> &'static [u8]
    ensures { result.now ≡ flag value }
{
    if value { b"1" } else { b"0" }
}

fn refusal_name(refusal: ScreenError) -> &'static [u8]
    ensures { result.now ≡ refusal_name refusal }
{
    match refusal {
        ScreenError::BadSize => b"1 BadSize",
        ScreenError::BadName => b"2 BadName",
        ScreenError::BadRectLimit => b"3 BadRectLimit",
        ScreenError::BadRect => b"4 BadRect",
        ScreenError::BadPixelCount => b"5 BadPixelCount",
        ScreenError::TextTooLong => b"6 TextTooLong",
        ScreenError::NoViewer => b"7 NoViewer",
        ScreenError::NumberInUse => b"8 NumberInUse",
        ScreenError::OutOfMemory => b"9 OutOfMemory",
    }
}

fn fault_name(fault: Fault) -> &'static [u8]
    ensures { result.now ≡ fault_name fault }
{
    match fault {
        Fault::BadVersion => b"1 BadVersion",
        Fault::BadSecurityType => b"2 BadSecurityType",
        Fault::UnknownMessage(_) => b"3 UnknownMessage",
        Fault::BadBitsPerPixel => b"4 BadBitsPerPixel",
        Fault::ColourMapUnsupported => b"5 ColourMapUnsupported",
    }
}

// Returns the type that no message has, if the fault is such a type.
fn unknown_type(fault: Fault) -> Option<u8>
    ensures { result ≡ unknown_type fault }
{
    match fault {
        Fault::UnknownMessage(kind) => Some(kind),
        _ => None,
    }
}

fn put_type(alloc: Global, out: &mut Vec<u8>, kind: Option<u8>) -> Result<(), AllocError>
    ensures { OnOk result (out.new.items ≡ out.old.items ++ type_named kind) }
{
    let Some(kind) = kind else {
        return Ok(());
    };
    out.extend_from_slice(b" ")?;
    put_number(alloc, out, u64::from(kind))
}

fn put_closed(
    alloc: Global,
    out: &mut Vec<u8>,
    viewer: u64,
    fault: Option<Fault>,
) -> Result<(), AllocError>
    ensures { OnOk result (out.new.items ≡ out.old.items ++ closed viewer fault) }
{
    let Some(fault) = fault else {
        return Ok(());
    };
    put_head(alloc, out, b"closed ", viewer)?;
    out.extend_from_slice(fault_name(fault))?;
    put_type(alloc, out, unknown_type(fault))?;
    out.extend_from_slice(b"\n")
}

fn put_key(
    alloc: Global,
    out: &mut Vec<u8>,
    viewer: u64,
    down: bool,
    key: u32,
) -> Result<(), AllocError>
    ensures { OnOk result (out.new.items ≡ out.old.items ++ input_line viewer (Input.Key down key)) }
{
    put_head(alloc, out, b"key ", viewer)?;
    out.extend_from_slice(flag(down))?;
    out.extend_from_slice(b" ")?;
    put_hex(out, &key.to_be_bytes())?;
    out.extend_from_slice(b"\n")
}

fn put_pointer(
    alloc: Global,
    out: &mut Vec<u8>,
    viewer: u64,
    mask: u8,
    x: u16,
    y: u16,
) -> Result<(), AllocError>
    ensures { OnOk result (out.new.items ≡ out.old.items ++ input_line viewer (Input.Pointer mask x y)) }
{
    put_head(alloc, out, b"pointer ", viewer)?;
    put_hex(out, &[mask])?;
    out.extend_from_slice(b" ")?;
    put_number(alloc, out, u64::from(x))?;
    out.extend_from_slice(b" ")?;
    put_number(alloc, out, u64::from(y))?;
    out.extend_from_slice(b"\n")
}

fn put_text(
    alloc: Global,
    out: &mut Vec<u8>,
    viewer: u64,
    text: &[u8],
    shortened: bool,
) -> Result<(), AllocError>
    ensures { OnOk result (out.new.items ≡ out.old.items ++ input_line viewer (Input.Text text.now shortened)) }
{
    put_head(alloc, out, b"text ", viewer)?;
    out.extend_from_slice(flag(shortened))?;
    out.extend_from_slice(b" ")?;
    put_hex_word(out, text)?;
    out.extend_from_slice(b"\n")
}

fn put_input(alloc: Global, out: &mut Vec<u8>, viewer: u64, input: &Input) -> Result<(), AllocError>
    ensures { OnOk result (out.new.items ≡ out.old.items ++ input_line viewer input.now) }
{
    match input {
        Input::Key { down, key } => put_key(alloc, out, viewer, *down, *key),
        Input::Pointer { mask, x, y } => put_pointer(alloc, out, viewer, *mask, *x, *y),
        Input::Text { text, shortened } => {
            put_text(alloc, out, viewer, text.as_slice(), *shortened)
        }
    }
}

fn put_inputs(
    alloc: Global,
    out: &mut Vec<u8>,
    viewer: u64,
    inputs: &[Input],
) -> Result<(), AllocError>
    ensures { OnOk result (out.new.items ≡ out.old.items ++ flat_map (input_line viewer) inputs.now) }
{
    for input in inputs {
        put_input(alloc, out, viewer, input)?;
    }
    Ok(())
}

fn put_bytes_line(
    alloc: Global,
    out: &mut Vec<u8>,
    name: &[u8],
    viewer: u64,
    bytes: &[u8],
) -> Result<(), AllocError>
    ensures { OnOk result (out.new.items ≡ out.old.items ++ bytes_line name.now viewer bytes.now) }
{
    put_head(alloc, out, name, viewer)?;
    put_hex_word(out, bytes)?;
    out.extend_from_slice(b"\n")
}

fn put_answered(
    alloc: Global,
    out: &mut Vec<u8>,
    event: &Event,
    answer: &Answer,
) -> Result<(), AllocError>
    ensures { OnOk result (out.new.items ≡ out.old.items ++ answered event.now answer.now) }
{
    let bytes = answer.bytes.as_slice();
    match event {
        Event::Connect { viewer } => put_bytes_line(alloc, out, b"connect ", *viewer, bytes),
        Event::Hear { viewer, .. } => {
            put_bytes_line(alloc, out, b"hear ", *viewer, bytes)?;
            put_inputs(alloc, out, *viewer, answer.inputs.as_slice())?;
            put_closed(alloc, out, *viewer, answer.closed)
        }
        Event::Cut { viewer } => put_bytes_line(alloc, out, b"cut ", *viewer, bytes),
        _ => out.extend_from_slice(b"ok\n"),
    }
}

/// Returns what is printed where a screen was made.
pub fn ok_text(alloc: Global) -> Result<Vec<u8>, AllocError>
    ensures { IfOk result (λ text. text.items ≡ ok) }
{
    b"ok\n".to_vec(alloc)
}

/// Returns what is printed of a refusal.
pub fn refusal_text(alloc: Global, refusal: ScreenError) -> Result<Vec<u8>, AllocError>
    ensures { IfOk result (λ text. text.items ≡ refused refusal) }
{
    let mut out = Vec::new(alloc);
    out.extend_from_slice(b"refused ")?;
    out.extend_from_slice(refusal_name(refusal))?;
    out.extend_from_slice(b"\n")?;
    Ok(out)
}

/// Returns what is printed of a bad line, by its number from 1 on.
pub fn bad_line_text(alloc: Global, number: u64) -> Result<Vec<u8>, AllocError>
    ensures { IfOk result (λ text. text.items ≡ bad_line number) }
{
    let mut out = Vec::new(alloc);
    out.extend_from_slice(b"bad line ")?;
    put_number(alloc, &mut out, number)?;
    out.extend_from_slice(b"\n")?;
    Ok(out)
}

/// Returns what is printed of the answer to an event: its lines.
pub fn answer_text(alloc: Global, event: &Event, answer: &Answer) -> Result<Vec<u8>, AllocError>
    ensures { IfOk result (λ text. text.items ≡ text_of event.now answer.now) }
{
    if let Some(refusal) = answer.refused {
        return refusal_text(alloc, refusal);
    }
    let mut out = Vec::new(alloc);
    put_answered(alloc, &mut out, event, answer)?;
    Ok(out)
}
