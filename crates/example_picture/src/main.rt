//! A picture that another thread works out, row by row, while an event loop shows what is there of it: to as many viewers as come, on
//! the port of 127.0.0.1 that is the program's one word. Without a word it ends once the picture is whole, and prints the colour of a
//! place.
#![tactic(auto)]

ghost use Rattle.connections.specs.Drawing.{Draws};

use event_loop::{
    Application, Canvas, Config, Draw, EventLoop, History, Input, Limits, Listed, LoopError,
    Receipt, Rect, ScreenError,
};
use mio::Waker;
use mio::net::TcpListener;
use std::alloc::{AllocError, Global};
use std::net::{Ipv4Addr, Net, SocketAddr};
use std::process::ExitCode;
use std::sync::{Mutex, Wait};
use std::thread::Threads;
use std::time::Clock;
use std::{env, io, mem, thread};

/// Columns and rows of the screen.
const COLUMNS: u32 = 256;

const ROWS: u32 = 192;

/// A row of the picture.
#[derive(Drop)]
struct Row {
    y: i32,
    colours: [u32; 256],
}

/// The rows that are worked out, and not painted yet.
type Queue = Mutex<Vec<Row>>;

/// Returns the colour of a place: white where it is in Mandelbrot's set, by 64 steps, else the darker the sooner it is known not to be.
/// Numbers are in units of 1/4096.
fn colour_of(column: i32, row: i32) -> u32 {
    let real = column.wrapping_sub(128).wrapping_mul(48).wrapping_sub(2048);
    let imaginary = row.wrapping_sub(96).wrapping_mul(48);
    let (mut x, mut y) = (0i32, 0i32);
    for step in 0..64u32 {
        let (xx, yy) = (x.wrapping_mul(x) >> 12, y.wrapping_mul(y) >> 12);
        if xx.wrapping_add(yy) > 4 * 4096 {
            return step * 0x3_0303;
        }
        y = (x.wrapping_mul(y) >> 11).wrapping_add(imaginary);
        x = xx.wrapping_sub(yy).wrapping_add(real);
    }
    0xff_ffff
}

/// Works out a row.
fn row_of(y: i32) -> Row {
    let mut colours = [0; 256];
    for column in 0..256usize {
        colours[column] = colour_of(column as i32, y);
    }
    Row { y, colours }
}

/// Works out the picture: puts each row into the queue, and wakes the loop then.
fn work(rt: &impl Wait, queue: &Queue, waker: &Waker) -> io::Result<()> {
    for y in 0..192i32 {
        let row = row_of(y);
        queue.lock(rt).push(row)?;
        waker.wake()?;
    }
    Ok(())
}

/// What the loop shows: the rows of the queue. It ends with the last one, or never.
#[derive(Drop)]
struct Showing<'a> {
    alloc: Global,
    queue: &'a Queue,
    painted: usize,
    ends: bool,
}

/// Paints rows.
fn paint_all(canvas: &mut Canvas, rows: &[Row]) -> Result<(), ScreenError>
    ensures draws { Draws canvas.old canvas.new }
{
    for row in rows {
        let (y1, y2) = (row.y, row.y.saturating_add(1));
        let place = Rect {
            x1: 0,
            y1,
            x2: 256,
            y2,
        };
        canvas.paint(place, &row.colours)?;
    }
    Ok(())
}

impl Application for Showing<'_> {
    /// Ignores what viewers do.
    fn on_input(&mut self, _: &mut Canvas, _: u64, _: &Input) -> Result<(), ScreenError> {
        Ok(())
    }

    fn left(&mut self, _: &mut Canvas, _: Receipt) -> Result<(), ScreenError> {
        Ok(())
    }

    /// Takes the rows that wait out of the queue, and paints them. Where the other thread has the queue, it wakes the loop again.
    fn woken(&mut self, canvas: &mut Canvas) -> Result<(), ScreenError> {
        let Some(mut queue) = self.queue.try_lock() else {
            return Ok(());
        };
        let rows = mem::replace(&mut *queue, Vec::new(self.alloc));
        drop(queue);
        paint_all(canvas, &rows)?;
        self.painted = self.painted.saturating_add(rows.len());
        Ok(())
    }

    fn is_done(&self) -> bool {
        self.ends && self.painted >= ROWS as usize
    }
}

/// Returns a loop that shows a black screen on `port`.
fn looped<R: Net>(rt: &R, alloc: Global, port: u16) -> Result<EventLoop, LoopError> {
    let address = SocketAddr::from((Ipv4Addr::LOCALHOST, port));
    let listener = TcpListener::bind(rt, address).map_err(|_| LoopError::Network)?;
    let config = Config {
        width: COLUMNS,
        height: ROWS,
        name: Listed::from_slice(alloc, b"slow picture")?,
        rects_per_update: 50,
        history: History::NotKept,
    };
    EventLoop::new(rt, alloc, listener, config, Limits::usual())
}

/// Serves viewers on a port while the picture is worked out, and then for ever, or until it is whole. Returns the colour of the place
/// 128, 96 then.
fn serve<R: Threads + Wait + Net + Clock + Sync>(
    rt: &R,
    alloc: Global,
    port: u16,
    ends: bool,
) -> Result<Option<u32>, LoopError> {
    let mut served = looped(rt, alloc, port)?;
    let waker = served.waker().map_err(|_| LoopError::Network)?;
    let queue = Mutex::new(Vec::new(alloc));
    let mut showing = Showing {
        alloc,
        queue: &queue,
        painted: 0,
        ends,
    };
    let (queue, waker) = (&queue, &waker);
    thread::scope(thread::scope_env(), rt, |scope| {
        scope
            .spawn(move || work(rt, queue, waker))
            .map_err(|_| LoopError::Network)?;
        served.run(rt, &mut showing)
    })?;
    Ok(served.screen().colour(128, 96))
}

/// Returns the port that is the program's word, if it has one.
fn port_of(rt: &HostRuntime) -> io::Result<Option<u16>> {
    let words: Vec<String> = env::args(rt)?.collect(rt.alloc())?;
    match words.get(1) {
        None => Ok(None),
        Some(word) => {
            let port = word.parse().map_err(|_| io::ErrorKind::InvalidInput)?;
            Ok(Some(port))
        }
    }
}

fn main(rt: HostRuntime) -> ExitCode {
    let Ok(port) = port_of(&rt) else {
        return ExitCode::FAILURE;
    };
    let Ok(colour) = serve(&rt, rt.alloc(), port.unwrap_or(0), port.is_none()) else {
        return ExitCode::FAILURE;
    };
    match println!(rt; "the colour of 128, 96 is {colour:?}") {
        Ok(()) => ExitCode::SUCCESS,
        Err(_) => ExitCode::FAILURE,
    }
}
