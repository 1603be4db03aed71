//! The program `vncdemo`: its command line, `play` on standard input and output, `serve` on a port of 127.0.0.1, `self`, `replay` of
//! a file, and `mirror` of another server.
#![tactic(auto)]

use clap::error::ErrorKind;
use demo_app::{
    Asked, BrowserListener, ByThreads, Chosen, Listeners, MirrorOptions, OneThread, RecordWriter,
    ServeOptions, Stop, WebPort, is_refused, line_of, mirror_on, play_over, replay_over,
    self_in_one_thread, self_on, serve_by_threads, serve_in_one_thread,
};
use std::alloc::Global;
use std::fs::{File, OpenOptions};
use std::io::{BufReader, BufWriter, Write};
use std::net::{IpAddr, Ipv4Addr, Net, SocketAddr, TcpListener, TcpStream};
use std::os::unix::fs::OpenOptionsExt;
use std::process::ExitCode;
use std::rt::{Files, Runtime};
use std::sync::{Arc, Wait};
use std::thread::Threads;
use std::time::Clock;
use std::{env, io, thread};

/// Standard input's descriptor.
const STDIN: i32 = 0;

/// What the system says of a read that a signal interrupted (EINTR).
const INTERRUPTED: i32 = 4;

fn out_of_memory<R: Runtime>(rt: &R) -> ExitCode {
    match println!(rt; "out of memory") {
        Ok(()) => ExitCode::from(3),
        Err(_) => ExitCode::from(5),
    }
}

/// An address that can't be had.
#[derive(Drop)]
struct NoPort {
    address: SocketAddr,
    error: io::Error,
}

/// Says why an address can't be had.
fn no_port<R: Runtime>(rt: &R, why: &NoPort) -> ExitCode {
    let address = why.address;
    let why = match why.error.kind() {
        io::ErrorKind::AddrInUse => "is in use",
        io::ErrorKind::PermissionDenied => "is not for this user",
        _ => "can't be had",
    };
    // The status is the same where this can't be printed.
    let _ = eprintln!(rt; "{address} {why}");
    let _ = println!(rt; "network fault");
    ExitCode::from(5)
}

/// Says what is served, and where, unless the screen will be refused.
fn say_where<R: Runtime>(rt: &R, options: &ServeOptions, address: io::Result<SocketAddr>) {
    if is_refused(options) {
        return;
    }
    if let Ok(address) = address {
        // Where this can't be printed, viewers are served all the same.
        let _ = eprintln!(rt;
            "{} by {} is served on {address}",
            options.width, options.height
        );
    }
}

/// Says the same, and where browsers are let in.
fn say_both<R: Runtime>(
    rt: &R,
    options: &ServeOptions,
    address: io::Result<SocketAddr>,
    browsers: &BrowserListener,
) {
    if is_refused(options) {
        return;
    }
    if let Ok(address) = address
        && let Ok(web) = browsers.listener.local_addr()
    {
        // Where this can't be printed, viewers are served all the same.
        let _ = eprintln!(rt;
            "{} by {} is served on {address}, and to browsers on {web}",
            options.width, options.height
        );
    }
}

fn words(rt: &HostRuntime) -> io::Result<Vec<String>> {
    let words = env::args(rt)?.collect(rt.alloc())?;
    Ok(words)
}

fn play(rt: &HostRuntime) -> ExitCode {
    let alloc = rt.alloc();
    let mut reader = rt.reader();
    let Ok(mut writer) = BufWriter::new(alloc, io::writer(rt)) else {
        return out_of_memory(rt);
    };
    let status = play_over(alloc, &mut reader, &mut writer);
    // After a write fault nothing more is written: what the buffer holds is let go.
    let _ = writer.into_parts();
    ExitCode::from(status)
}

/// Makes a file that wasn't there, which its owner alone may read.
fn new_file<R: Files<File = File>>(rt: &R, path: &str) -> io::Result<File> {
    OpenOptions::new()
        .write(true)
        .create_new(true)
        .mode(0o600)
        .open(rt, path)
}

/// Makes the file that the session of `options` is recorded in, where one is wanted. A screen that will be refused gets none.
fn record_in<R: Files<File = File>>(
    rt: &R,
    options: &ServeOptions,
    path: Option<&str>,
) -> io::Result<Option<RecordWriter>> {
    let Some(path) = path else {
        return Ok(None);
    };
    if is_refused(options) {
        return Ok(None);
    }
    Ok(Some(RecordWriter::File(new_file(rt, path)?)))
}

/// Reads standard input to its end.
fn read_to_end() {
    let mut room = [0; 512];
    for _ in 0..u64::MAX {
        match libc::read(STDIN, &mut room) {
            0 => return,
            count if count < 0 && os::errno() != INTERRUPTED => return,
            _ => {}
        }
    }
}

/// Why viewers aren't served: what is printed, and the status.
#[derive(Clone, Copy)]
struct NotServed {
    line: &'static [u8],
    status: u8,
}

const NO_MEMORY: NotServed = NotServed {
    line: b"out of memory\n",
    status: 3,
};

const NO_DESCRIPTOR: NotServed = NotServed {
    line: b"network fault\n",
    status: 5,
};

const NO_RECORD: NotServed = NotServed {
    line: b"cannot record\n",
    status: 5,
};

/// Says why viewers aren't served, and gives the status. It is the same where this can't be written.
fn not_served<W: Write>(writer: &mut W, why: NotServed) -> u8 {
    let _ = writer.write_all(why.line);
    let _ = writer.flush();
    why.status
}

/// Starts a thread that reads standard input to its end, and ends the server then. Nobody waits for the thread.
fn stop_at_end<R: Threads>(rt: &R, alloc: Global) -> Result<Arc<Stop, Global>, NotServed> {
    let stop = Stop::new().map_err(|_| NO_DESCRIPTOR)?;
    let stop = Arc::new(alloc, stop).map_err(|_| NO_MEMORY)?;
    let theirs = Arc::try_clone(&stop).map_err(|_| NO_MEMORY)?;
    let started = thread::spawn(rt, move || {
        read_to_end();
        theirs.stop();
    });
    match started {
        Ok(_reading) => Ok(stop),
        Err(_) => Err(NO_MEMORY),
    }
}

/// Starts such a thread where it is wanted.
fn stop_if<R: Threads>(
    rt: &R,
    alloc: Global,
    ends_with_input: bool,
) -> Result<Option<Arc<Stop, Global>>, NotServed> {
    if !ends_with_input {
        return Ok(None);
    }
    Ok(Some(stop_at_end(rt, alloc)?))
}

/// Serves viewers by two threads each.
fn serve_with_threads<
    W: Write,
    R: Runtime + Threads + Wait + Net<Listener = TcpListener, Stream = TcpStream> + Sync,
>(
    rt: &R,
    alloc: Global,
    port: u16,
    options: &ServeOptions,
    besides: Besides<'_>,
    writer: &mut W,
) -> io::Result<u8> {
    let listener = TcpListener::bind(rt, (Ipv4Addr::LOCALHOST, port))?;
    let stop = match stop_if(rt, alloc, besides.ends_with_input) {
        Ok(stop) => stop,
        Err(why) => return Ok(not_served(writer, why)),
    };
    say_where(rt, options, listener.local_addr());
    let besides = ByThreads {
        forever: besides.forever,
        stop: stop.as_deref(),
    };
    Ok(serve_by_threads(rt, alloc, &listener, options, &besides, writer))
}

/// Listens on a port of 127.0.0.1, for one thread.
fn listen<R: Net>(rt: &R, port: u16) -> Result<mio::net::TcpListener, NoPort> {
    let address = SocketAddr::from((Ipv4Addr::LOCALHOST, port));
    listen_on(rt, address)
}

/// Listens on an address, for one thread.
fn listen_on<R: Net>(rt: &R, address: SocketAddr) -> Result<mio::net::TcpListener, NoPort> {
    match mio::net::TcpListener::bind(rt, address) {
        Ok(listener) => Ok(listener),
        Err(error) => Err(NoPort { address, error }),
    }
}

/// Listens on the port for browsers at an address, where there is one.
fn listen_web<R: Net>(
    rt: &R,
    address: IpAddr,
    web: Option<WebPort>,
) -> Result<Option<BrowserListener>, NoPort> {
    let Some(WebPort { port, let_in }) = web else {
        return Ok(None);
    };
    let listener = listen_on(rt, SocketAddr::new(address, port))?;
    Ok(Some(BrowserListener { listener, let_in }))
}

/// Serves them by one thread for all.
fn serve_with_one<W: Write, R: Runtime + Threads + Net + Files<File = File>>(
    rt: &R,
    alloc: Global,
    port: u16,
    options: &ServeOptions,
    besides: Besides<'_>,
    writer: &mut W,
) -> Result<u8, NoPort> {
    let Besides {
        record,
        web,
        forever,
        ends_with_input,
    } = besides;
    let listener = listen(rt, port)?;
    let browsers = listen_web(rt, IpAddr::V4(Ipv4Addr::LOCALHOST), web)?;
    let stop = match stop_if(rt, alloc, ends_with_input) {
        Ok(stop) => stop,
        Err(why) => return Ok(not_served(writer, why)),
    };
    let Ok(record) = record_in(rt, options, record) else {
        return Ok(not_served(writer, NO_RECORD));
    };
    match &browsers {
        Some(browsers) => say_both(rt, options, listener.local_addr(), browsers),
        None => say_where(rt, options, listener.local_addr()),
    }
    let besides = OneThread {
        record,
        browsers,
        forever,
        stop,
    };
    Ok(serve_in_one_thread(rt, alloc, listener, options, besides, writer))
}

/// How a command works for its viewers.
#[derive(Clone, Copy)]
enum Way {
    Threads,
    OneThread,
}

/// In which file one thread records the session, where it lets browsers in, whether viewers are taken without end, and whether the server
/// ends with standard input.
#[derive(Drop)]
struct Besides<'a> {
    record: Option<&'a str>,
    web: Option<WebPort>,
    forever: bool,
    ends_with_input: bool,
}

fn serve<
    R: Runtime
        + Files<File = File>
        + Threads
        + Wait
        + Net<Listener = TcpListener, Stream = TcpStream>
        + Sync,
>(
    rt: &R,
    alloc: Global,
    way: Way,
    port: u16,
    options: &ServeOptions,
    besides: Besides<'_>,
) -> ExitCode {
    let Ok(mut writer) = BufWriter::new(alloc, io::writer(rt)) else {
        return out_of_memory(rt);
    };
    let served = match way {
        Way::Threads => {
            match serve_with_threads(rt, alloc, port, options, besides, &mut writer) {
                Ok(status) => Ok(status),
                Err(error) => Err(NoPort {
                    address: SocketAddr::from((Ipv4Addr::LOCALHOST, port)),
                    error,
                }),
            }
        }
        Way::OneThread => serve_with_one(rt, alloc, port, options, besides, &mut writer),
    };
    // After a write fault nothing more is written: what the buffer holds is let go.
    let _ = writer.into_parts();
    match served {
        Ok(status) => ExitCode::from(status),
        Err(why) => no_port(rt, &why),
    }
}

fn own<R: Runtime + Threads + Wait + Net<Listener = TcpListener, Stream = TcpStream> + Sync>(
    rt: &R,
    alloc: Global,
    way: Way,
    viewers: u32,
) -> ExitCode {
    let Ok(mut writer) = BufWriter::new(alloc, io::writer(rt)) else {
        return out_of_memory(rt);
    };
    let status = match way {
        Way::Threads => self_on(rt, alloc, viewers, &mut writer),
        Way::OneThread => self_in_one_thread(rt, alloc, viewers, &mut writer),
    };
    // After a write fault nothing more is written: what the buffer holds is let go.
    let _ = writer.into_parts();
    ExitCode::from(status)
}

/// Listens for a mirror's viewers on an address, and for browsers on a port of it, where one is named.
fn listeners_on<R: Net>(
    rt: &R,
    listen: SocketAddr,
    web: Option<WebPort>,
) -> Result<Listeners, NoPort> {
    let viewers = listen_on(rt, listen)?;
    let browsers = listen_web(rt, listen.ip(), web)?;
    Ok(Listeners { viewers, browsers })
}

/// Says what is shown, and where.
fn say_shown<R: Runtime>(rt: &R, source: SocketAddr, listeners: &Listeners) {
    let Ok(address) = listeners.viewers.local_addr() else {
        return;
    };
    let browsers = match &listeners.browsers {
        Some(browsers) => browsers.listener.local_addr().ok(),
        None => None,
    };
    // Where this can't be printed, viewers are served all the same.
    let _ = match browsers {
        Some(browsers) => {
            eprintln!(rt; "{source} is shown on {address}, and to browsers on {browsers}")
        }
        None => eprintln!(rt; "{source} is shown on {address}"),
    };
}

/// Shows another server's picture on an address, by one thread.
fn mirror<R: Runtime + Net>(
    rt: &R,
    alloc: Global,
    listen: SocketAddr,
    web: Option<WebPort>,
    options: &MirrorOptions,
) -> ExitCode {
    let listeners = match listeners_on(rt, listen, web) {
        Ok(listeners) => listeners,
        Err(why) => return no_port(rt, &why),
    };
    say_shown(rt, options.address, &listeners);
    let Ok(mut writer) = BufWriter::new(alloc, io::writer(rt)) else {
        return out_of_memory(rt);
    };
    let status = mirror_on(rt, alloc, listeners, options, &mut writer);
    // After a write fault nothing more is written: what the buffer holds is let go.
    let _ = writer.into_parts();
    ExitCode::from(status)
}

fn replay(rt: &HostRuntime, file: &str, asked: Asked) -> ExitCode {
    let alloc = rt.alloc();
    let Ok(file) = File::open(rt, file) else {
        // The status is the same where this can't be printed.
        let _ = eprintln!(rt; "read fault");
        return ExitCode::from(5);
    };
    let Ok(mut reader) = BufReader::new(alloc, file) else {
        return out_of_memory(rt);
    };
    let Ok(mut writer) = BufWriter::new(alloc, io::writer(rt)) else {
        return out_of_memory(rt);
    };
    let mut errors = rt.stderr();
    let status = replay_over(alloc, &mut reader, &mut writer, &mut errors, asked);
    // After a write fault nothing more is written: what the buffer holds is let go.
    let _ = writer.into_parts();
    ExitCode::from(status)
}

fn main(rt: HostRuntime) -> ExitCode {
    let Ok(words) = words(&rt) else {
        return out_of_memory(&rt);
    };
    let alloc = rt.alloc();
    match line_of(alloc, &words) {
        Ok(Chosen::Play) => play(&rt),
        Ok(
            Chosen::Serve {
                port,
                options,
                forever,
                ends_with_input,
            },
        ) => {
            let besides = Besides {
                record: None,
                web: None,
                forever,
                ends_with_input,
            };
            serve(&rt, alloc, Way::Threads, port, &options, besides)
        }
        Ok(
            Chosen::ServeInOneThread {
                port,
                options,
                record,
                web,
                forever,
                ends_with_input,
            },
        ) => {
            let besides = Besides {
                record: record.as_deref(),
                web,
                forever,
                ends_with_input,
            };
            serve(&rt, alloc, Way::OneThread, port, &options, besides)
        }
        Ok(Chosen::Own { viewers }) => own(&rt, alloc, Way::Threads, viewers),
        Ok(Chosen::OwnInOneThread { viewers }) => own(&rt, alloc, Way::OneThread, viewers),
        Ok(Chosen::Replay { file, asked }) => replay(&rt, &file, asked),
        Ok(
            Chosen::Mirror {
                listen,
                web,
                options,
            },
        ) => mirror(&rt, alloc, listen, web, &options),
        Err(error) if error.kind() == ErrorKind::OutOfMemory => out_of_memory(&rt),
        Err(error) => {
            // Where standard error fails too, there is nobody left to tell.
            let _ = eprint!(rt; "{error}");
            ExitCode::from(2)
        }
    }
}
