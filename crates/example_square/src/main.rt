//! A picture that moves by itself, 25 times a second, served in one thread to as many viewers as come, on the port of 127.0.0.1 that
//! is the program's one word. Without a word twelve pictures are drawn for nobody, and the colour of a place is printed.
#![tactic(auto)]

use event_loop::{
    Application, Canvas, Config, Draw, EventLoop, History, Input, Limits, Listed, LoopError,
    Receipt, Rect, ScreenError,
};
use mio::net::TcpListener;
use std::net::{Ipv4Addr, SocketAddr};
use std::process::ExitCode;
use std::time::Duration;
use std::{env, io};

/// Columns and rows of the screen.
const WIDTH: u32 = 320;

const HEIGHT: u32 = 240;

/// How far the square's left upper corner goes; it has 32 columns and rows.
const RIGHT: i32 = 288;

const BOTTOM: i32 = 208;

/// Where the square's left upper corner is, how it moves, and how many pictures are to be drawn.
#[derive(Drop)]
struct Square {
    x: i32,
    y: i32,
    dx: i32,
    dy: i32,
    pictures: u64,
}

/// In the left upper corner, on its way right and down.
const START: Square = Square {
    x: 0,
    y: 0,
    dx: 4,
    dy: 4,
    pictures: 0,
};

/// Takes one step along one side, and turns round at an end.
fn step(at: &mut i32, by: &mut i32, end: i32) {
    *at = at.saturating_add(*by).min(end).max(0);
    if *at == 0 || *at == end {
        *by = by.saturating_neg();
    }
}

impl Application for Square {
    /// Ignores what viewers do.
    fn on_input(&mut self, _: &mut Canvas, _: u64, _: &Input) -> Result<(), ScreenError> {
        Ok(())
    }

    fn left(&mut self, _: &mut Canvas, _: Receipt) -> Result<(), ScreenError> {
        Ok(())
    }

    /// Paints the square black, moves it, and paints it white; asks to be called again after 40 milliseconds.
    fn tick(&mut self, canvas: &mut Canvas) -> Result<Option<Duration>, ScreenError> {
        canvas.paint(self.place(), &[0; 1024])?;
        step(&mut self.x, &mut self.dx, RIGHT);
        step(&mut self.y, &mut self.dy, BOTTOM);
        canvas.paint(self.place(), &[0xff_ffff; 1024])?;
        self.pictures = self.pictures.saturating_sub(1);
        Ok(Some(Duration::from_millis(40)))
    }

    fn is_done(&self) -> bool {
        self.pictures == 0
    }
}

impl Square {
    /// Returns the places that it covers.
    fn place(&self) -> Rect {
        let (x1, y1) = (self.x, self.y);
        let (x2, y2) = (x1.saturating_add(32), y1.saturating_add(32));
        Rect { x1, y1, x2, y2 }
    }
}

/// Serves viewers on `port` until `pictures` pictures are drawn. Returns the colour of the place 48, 48 then.
fn serve(rt: &HostRuntime, port: u16, pictures: u64) -> Result<Option<u32>, LoopError> {
    let address = SocketAddr::from((Ipv4Addr::LOCALHOST, port));
    let listener = TcpListener::bind(rt, address).map_err(|_| LoopError::Network)?;
    let config = Config {
        width: WIDTH,
        height: HEIGHT,
        name: Listed::from_slice(rt.alloc(), b"bouncing square")?,
        rects_per_update: 50,
        history: History::NotKept,
    };
    let mut served = EventLoop::new(rt, rt.alloc(), listener, config, Limits::usual())?;
    let mut square = START;
    square.pictures = pictures;
    served.run(rt, &mut square)?;
    Ok(served.screen().colour(48, 48))
}

fn run(rt: &HostRuntime) -> io::Result<()> {
    let words: Vec<String> = env::args(rt)?.collect(rt.alloc())?;
    let served = match words.get(1) {
        None => serve(rt, 0, 12),
        Some(word) => {
            let port = word.parse().map_err(|_| io::ErrorKind::InvalidInput)?;
            serve(rt, port, u64::MAX)
        }
    };
    let colour = served.map_err(|_| io::ErrorKind::Other)?;
    println!(rt; "the colour of 48, 48 is {colour:?}")
}

fn main(rt: HostRuntime) -> ExitCode {
    match run(&rt) {
        Ok(()) => ExitCode::SUCCESS,
        Err(_) => ExitCode::FAILURE,
    }
}
