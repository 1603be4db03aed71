//! A server of one's own: a white square that follows the pointer, on a screen that the keys + and - double and halve.
//!
//! With a port as its one word the program serves a viewer on that port of 127.0.0.1. Without a word it looks at its own screen,
//! by a viewer that moves the pointer three times, presses + and moves it again, and prints what that viewer shows.
#![tactic(auto)]

ghost use Rattle.std.specs.Prelude.{◌≡◌, ◌<◌};

mod square;
mod visitor;

use serving::{Config, History, Listed, ServeError, Shared, serve_viewers};
use square::{HEIGHT, PLUS, Square, WIDTH};
use std::alloc::Global;
use std::io::Write;
use std::marker::Brand;
use std::net::{Ipv4Addr, Net, TcpListener, TcpStream};
use std::process::ExitCode;
use std::rt::Runtime;
use std::sync::Wait;
use std::sync::ledger::{Blank, Ledger};
use std::thread::{Scope, Threads};
use std::time::Clock;
use std::{env, io, thread};
use visitor::Visitor;

/// Serves one viewer, until it leaves. The square is in the left upper corner at first.
fn serve<L: Ledger + Send + Sync, R: Threads + Wait + Clock + Net + Sync>(
    rt: &R,
    alloc: Global,
    blank: Blank,
    listener: &TcpListener,
) -> Result<(), ServeError>
    requires name { blank.name ≡ L.name }
    requires parts { blank.parts ≡ L.parts }
    requires some { 0 < L.parts }
{
    let config = Config {
        width: u32::from(WIDTH),
        height: u32::from(HEIGHT),
        name: Listed::from_slice(alloc, b"follow the pointer")?,
        rects_per_update: 50,
        history: History::NotKept,
    };
    let (shared, mut brush) = Shared::<L>::new(alloc, blank, config)?;
    let mut square = Square::on(WIDTH, HEIGHT, 0, 0);
    serve_viewers(rt, alloc, listener, &shared, &mut brush, 1, &mut square)?;
    Ok(())
}

/// Does the same, with a ledger that nobody looks into.
fn serve_one<R: Threads + Wait + Clock + Net + Sync>(
    rt: &R,
    alloc: Global,
    listener: &TcpListener,
) -> io::Result<()> {
    match serve::<Brand, R>(rt, alloc, Blank::new(1), listener) {
        Ok(()) => Ok(()),
        Err(_) => Err(io::ErrorKind::Other.into()),
    }
}

/// Moves the pointer three times, and once more on a screen of twice the size. Returns what is seen each time.
fn visit(alloc: Global, mut visitor: Visitor) -> io::Result<Vec<u8>> {
    let mut text = Vec::new(alloc);
    for (x, y) in [(3, 1), (9, 3), (20, 0)] {
        visitor.point(x, y)?;
        visitor.draw(&mut text)?;
    }
    visitor.press(PLUS)?;
    visitor.point(20, 7)?;
    visitor.draw(&mut text)?;
    Ok(text)
}

/// Serves the visitor, which runs in a thread of the scope. The listener is closed at the end, so that a visitor whom nobody
/// served does not wait.
fn look_in_scope<'s, E, R: Threads + Wait + Clock + Net + Sync>(
    rt: &R,
    alloc: Global,
    listener: TcpListener,
    visitor: Visitor,
    scope: &Scope<'s, E>,
) -> io::Result<Vec<u8>> {
    let Ok(visit) = scope.spawn(move || visit(alloc, visitor)) else {
        return Err(io::ErrorKind::Other.into());
    };
    let served = serve_one(rt, alloc, &listener);
    drop(listener);
    let seen = visit.join(rt);
    served?;
    seen
}

/// Serves a viewer of its own.
fn look<R: Threads + Wait + Clock + Net<Listener = TcpListener, Stream = TcpStream> + Sync>(
    rt: &R,
    alloc: Global,
) -> io::Result<Vec<u8>> {
    let listener = TcpListener::bind(rt, (Ipv4Addr::LOCALHOST, 0))?;
    let visitor = Visitor::connect(rt, alloc, listener.local_addr()?)?;
    thread::scope(thread::scope_env(), rt, move |scope| {
        look_in_scope(rt, alloc, listener, visitor, scope)
    })
}

/// Serves a viewer on a port.
fn show<R: Threads + Wait + Clock + Net<Listener = TcpListener, Stream = TcpStream> + Sync>(
    rt: &R,
    alloc: Global,
    port: u16,
) -> io::Result<()> {
    let listener = TcpListener::bind(rt, (Ipv4Addr::LOCALHOST, port))?;
    serve_one(rt, alloc, &listener)
}

/// Does what the words behind the program's name say. `InvalidInput` where the word is no port.
fn run<
    R: Runtime + Threads + Wait + Clock + Net<Listener = TcpListener, Stream = TcpStream> + Sync,
>(rt: &R, alloc: Global, words: &[String]) -> io::Result<()> {
    match words.get(1) {
        None => io::writer(rt).write_all(&look(rt, alloc)?),
        Some(word) => match word.parse() {
            Ok(port) => show(rt, alloc, port),
            Err(_) => Err(io::ErrorKind::InvalidInput.into()),
        },
    }
}

fn words(rt: &HostRuntime) -> io::Result<Vec<String>> {
    let words = env::args(rt)?.collect(rt.alloc())?;
    Ok(words)
}

fn main(rt: HostRuntime) -> ExitCode {
    let done = words(&rt).and_then(|words| run(&rt, rt.alloc(), &words));
    match done {
        Ok(()) => ExitCode::from(0),
        Err(error) => {
            // Where standard error fails too, there is nobody left to tell.
            let _ = eprintln!(rt; "{error}");
            ExitCode::from(1)
        }
    }
}
