//! A viewer over TCP, which moves the pointer and presses keys, and sees what comes of it.

use crate::square::{Square, WHITE};
use rfb_viewer::{Area, Shown, Version};
use std::alloc::Global;
use std::io;
use std::io::{ErrorKind, Read, Write};
use std::net::{Net, SocketAddr, TcpStream};

/// The version 3.8, the choice of no security, and a ClientInit (RFC 6143 sections 7.1 to 7.3).
const OPENING: &[u8] = b"RFB 003.008\n\x01\x01";

/// A list of the encodings Raw and DesktopSize (RFC 6143 sections 7.5.2 and 7.8.2).
const ENCODINGS: &[u8] = &[2, 0, 0, 2, 0, 0, 0, 0, 0xff, 0xff, 0xff, 0x21];

/// The whole screen, whichever size it has.
const ALL: Area = Area {
    x: 0,
    y: 0,
    w: u16::MAX,
    h: u16::MAX,
};

/// The most pieces that are read before the square is seen.
const PIECES: u32 = 10_000;

/// A viewer and its connection.
#[derive(Drop)]
pub struct Visitor {
    stream: TcpStream,
    shown: Shown,
}

impl Visitor {
    /// Connects a viewer to `address`, and asks for the whole screen.
    pub fn connect<R: Net<Stream = TcpStream>>(
        rt: &R,
        alloc: Global,
        address: SocketAddr,
    ) -> io::Result<Visitor> {
        let mut stream = rt.connect(address)?;
        let mut shown = Shown::new(alloc, Version::V38);
        stream.write_all(OPENING)?;
        stream.write_all(ENCODINGS)?;
        stream.write_all(&shown.request(ALL, false))?;
        Ok(Visitor { stream, shown })
    }

    /// Returns the square at a place of the screen that was told last.
    fn square_at(&self, x: u16, y: u16) -> Square {
        let (width, height) = self.shown.size();
        Square::on(width, height, x, y)
    }

    /// Says whether there is a screen, and each of its places shows what it is to show.
    fn sees(&self, square: &Square) -> bool {
        let (width, height) = self.shown.size();
        self.shown.is_open()
            && (0..height).all(|y| {
                (0..width).all(|x| {
                    let colour = if square.covers(x, y) { WHITE } else { 0 };
                    let place = self.shown.place(u32::from(x), u32::from(y));
                    place.is_some_and(|(_, pixel)| pixel == colour)
                })
            })
    }

    /// Reads what comes, and asks for what changes. Says whether that can go on.
    fn read(&mut self) -> io::Result<bool> {
        let mut piece = [0; 256];
        let count = self.stream.read(&mut piece)?;
        let told = self.shown.told(&piece[..count]);
        self.stream.write_all(&self.shown.request(ALL, true))?;
        Ok(count > 0 && told.is_ok())
    }

    /// Reads until the square is seen at a place.
    fn wait_for(&mut self, x: u16, y: u16) -> io::Result<()> {
        for _ in 0..PIECES {
            if self.sees(&self.square_at(x, y)) {
                return Ok(());
            }
            if !self.read()? {
                break;
            }
        }
        Err(ErrorKind::InvalidData.into())
    }

    /// Moves the pointer to a place (RFC 6143 section 7.5.5), and waits until the square is there.
    pub fn point(&mut self, x: u16, y: u16) -> io::Result<()> {
        let ([x_high, x_low], [y_high, y_low]) = (x.to_be_bytes(), y.to_be_bytes());
        self.stream
            .write_all(&[5, 0, x_high, x_low, y_high, y_low])?;
        self.wait_for(x, y)
    }

    /// Presses a key and releases it (RFC 6143 section 7.5.4), and waits until the screen has another size.
    pub fn press(&mut self, key: u32) -> io::Result<()> {
        let [first, second, third, fourth] = key.to_be_bytes();
        for down in [1, 0] {
            self.stream
                .write_all(&[4, down, 0, 0, first, second, third, fourth])?;
        }
        let size = self.shown.size();
        for _ in 0..PIECES {
            if self.shown.size() != size {
                return Ok(());
            }
            if !self.read()? {
                break;
            }
        }
        Err(ErrorKind::InvalidData.into())
    }

    /// Adds the picture, a line for each row, `#` for each white place, and an empty line.
    pub fn draw(&self, text: &mut Vec<u8>) -> io::Result<()> {
        let (width, height) = self.shown.size();
        for y in 0..height {
            for x in 0..width {
                let place = self.shown.place(u32::from(x), u32::from(y));
                let is_white = place.is_some_and(|(_, pixel)| pixel == WHITE);
                text.push(if is_white { b'#' } else { b'.' })?;
            }
            text.push(b'\n')?;
        }
        text.push(b'\n')?;
        Ok(())
    }
}
