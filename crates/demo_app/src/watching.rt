//! The viewers of `self`: what each says and reads on its connection, and whether it shows the picture at its end.

ghost use Rattle.std.specs.Prelude.{◌≡◌, ℕ, ◌<◌, true, false, OnOk, slice_index};
ghost use Rattle.demo_app.specs.Watching.{has_come, ShowsAt};

use rfb_viewer::{Area, Fault, PixelFormat, Shown, Version};
use std::alloc::Global;
use std::io;
use std::io::{Read, Write};
use std::net::{Shutdown, TcpStream};

/// How many columns the screen has. It has one row.
pub(crate) const COLUMNS: usize = 4;

/// What a viewer says until it is open: version 3.8, the security type None, and that it shares the screen (RFC 6143 sections
/// 7.1.1, 7.1.2 and 7.3.1).
const OPENING: &[u8] = b"RFB 003.008\n\x01\x01";

/// Return goes down (RFC 6143 section 7.5.4).
const KEY: &[u8] = b"\x04\x01\0\0\0\0\xff\x0d";

/// The whole screen.
const ALL: Area = Area {
    x: 0,
    y: 0,
    w: 4,
    h: 1,
};

/// A connection ended or failed, or it brought what no server says.
#[derive(Clone, Copy)]
struct Lost;

impl From<io::Error> for Lost {
    fn from(_error: io::Error) -> Lost {
        Lost
    }
}

impl From<Fault> for Lost {
    fn from(_fault: Fault) -> Lost {
        Lost
    }
}

/// What a viewer waits for.
#[derive(Clone, Copy)]
enum Awaited {
    /// The end of the opening.
    Opening,
    /// A text.
    Text,
    /// An update.
    Update,
}

impl Awaited {
    /// Says whether a viewer read it whole.
    fn has_come(self, shown: &Shown) -> bool
        ensures { result ≡ has_come self shown.now }
    {
        match self {
            Awaited::Opening => shown.is_open(),
            Awaited::Text => shown.texts() > 0,
            Awaited::Update => shown.updates() > 0,
        }
    }
}

/// Shuts a connection both ways: whoever reads from it is at its end then. Where the system refuses, it was shut already.
fn shut(stream: &TcpStream) {
    let _shut = stream.shutdown(Shutdown::Both);
}

/// Shuts all these connections.
pub(crate) fn shut_all(streams: &[TcpStream]) {
    for stream in streams {
        shut(stream);
    }
}

/// Reads until what is `awaited` has come whole. `Lost` where the connection ends before.
fn read_until<S: Read>(stream: &mut S, shown: &mut Shown, awaited: Awaited) -> Result<(), Lost>
    ensures { OnOk result (has_come awaited shown.new ≡ true) }
{
    let mut piece = [0; 256];
    for _ in 0..u64::MAX {
        if awaited.has_come(shown) {
            return Ok(());
        }
        let count = stream.read(&mut piece)?;
        if count == 0 {
            return Err(Lost);
        }
        shown.told(&piece[..count])?;
    }
    Err(Lost)
}

/// Opens a viewer, tells so by a key, and waits for the text behind the last drawing call.
fn open<S: Read + Write>(stream: &mut S, shown: &mut Shown) -> Result<(), Lost>
    ensures { OnOk result (has_come Awaited.Text shown.new ≡ true) }
{
    stream.write_all(OPENING)?;
    read_until(stream, shown, Awaited::Opening)?;
    stream.write_all(KEY)?;
    read_until(stream, shown, Awaited::Text)
}

/// Asks for everything, and takes one update.
fn take_update<S: Read + Write>(stream: &mut S, shown: &mut Shown) -> Result<(), Lost>
    ensures { OnOk result (has_come Awaited.Update shown.new ≡ true) }
{
    let request = shown.request(ALL, false);
    stream.write_all(&request)?;
    read_until(stream, shown, Awaited::Update)
}

/// Says whether the place in column `x` shows a colour, in the server's format.
fn shows_colour(shown: &Shown, x: u32, colour: u32) -> bool
    ensures yes { result ≡ true → ShowsAt shown.now x colour }
    ensures no { result ≡ false → ShowsAt shown.now x colour → ⊥ }
{
    match shown.place(x, 0) {
        Some((format, pixel)) => format == PixelFormat::server() && pixel == colour,
        None => false,
    }
}

/// Says whether the places show the colours of `picture`, each in the server's format.
pub(crate) fn shows(shown: &Shown, picture: &[u32; COLUMNS]) -> bool
    ensures yes { result ≡ true → (x : ℕ) → x < 4 → ShowsAt shown.now x (slice_index picture.now x) }
    ensures no { result ≡ false → ((x : ℕ) → x < 4 → ShowsAt shown.now x (slice_index picture.now x)) → ⊥ }
{
    for x in 0..4u32 {
        if !shows_colour(shown, x, picture[x as usize]) {
            return false;
        }
    }
    true
}

/// Runs a viewer on its connection `stream`, and shuts that at the end. Says whether the viewer shows the picture. Where it doesn't come
/// as far as the text, shuts all `streams`: the others would wait for that text for ever.
pub(crate) fn watch(
    alloc: Global,
    streams: &[TcpStream],
    stream: &TcpStream,
    picture: &[u32; COLUMNS],
) -> bool {
    let mut shown = Shown::new(alloc, Version::V38);
    let mut both_ways = stream;
    if open(&mut both_ways, &mut shown).is_err() {
        shut_all(streams);
        return false;
    }
    let is_taken = take_update(&mut both_ways, &mut shown).is_ok();
    shut(stream);
    is_taken && shows(&shown, picture)
}
