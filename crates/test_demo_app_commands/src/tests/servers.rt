// `serve` over loopback: what is printed, and the status. The bytes are written out from RFC 6143.

ghost use Rattle.std.specs.Prelude.{◌≡◌, ◌<◌};

use super::clients::{Client, is_shut, reads, talk_all};
use demo_app::{
    Asked, ByThreads, OneThread, Question, RecordWriter, ServeOptions, Stop, replay_over,
    serve_by_threads, serve_in_one_thread, serve_on,
};
use listed::Listed;
use serving::{
    Application, Brush, Config, Departed, History, Input, ScreenError, ServeError, Shared, Told,
    serve_viewers,
};
use std::alloc::{AllocError, Global};
use std::fs::{File, OpenOptions};
use std::io::{BufReader, Write};
use std::marker::Brand;
use std::net::{Ipv4Addr, Net, SocketAddr, TcpListener, TcpStream};
use std::rt::Files;
use std::sync::Wait;
use std::sync::ledger::{Blank, Ledger};
use std::test::Fail;
use std::thread::Threads;
use std::time::Clock;
use std::{io, thread};

// A server: the screen's size, whether the history is kept, its clients, of which the last ones are too many, whether all connect before the
// first one talks, and what is printed once they have gone, one of these, with which status.
#[derive(Clone, Copy)]
struct Run {
    name: &'static str,
    size: (u32, u32),
    check: bool,
    clients: &'static [Client],
    too_many: usize,
    together: bool,
    printed: &'static [&'static [u8]],
    // what is printed where one thread serves all: it knows why a viewer that was open left
    by_one: &'static [u8],
    status: u8,
}

fn options(alloc: Global, run: &Run) -> Result<ServeOptions, AllocError> {
    let (width, height) = run.size;
    Ok(ServeOptions {
        width,
        height,
        name: Listed::from_slice(alloc, b"demo")?,
        limit: 50,
        viewers: u32::try_from(run.clients.len().saturating_sub(run.too_many)).unwrap_or(0),
        check: run.check,
    })
}

// Whether the clients read what they say, and what is printed is as it says, with its status.
fn serves<R: Threads + Wait + Clock + Net<Listener = TcpListener, Stream = TcpStream> + Sync>(
    rt: &R,
    alloc: Global,
    run: &Run,
    listener: &TcpListener,
) -> io::Result<bool> {
    let options = options(alloc, run)?;
    let address = listener.local_addr()?;
    let mut out = Vec::new(alloc);
    let (talked, ended) = thread::join(
        rt,
        move || talk_all(rt, alloc, address, run.clients, run.together),
        || serve_on(rt, alloc, listener, &options, &mut out),
    );
    let is_printed = run.printed.iter().any(|printed| *printed == out.as_slice());
    Ok(talked? && ended == run.status && is_printed)
}

// The same by a listener of its own.
fn comes_out<R: Threads + Wait + Clock + Net<Listener = TcpListener, Stream = TcpStream> + Sync>(
    rt: &R,
    alloc: Global,
    run: &Run,
) -> io::Result<bool> {
    let listener = rt.bind(SocketAddr::from((Ipv4Addr::LOCALHOST, 0)))?;
    serves(rt, alloc, run, &listener)
}

// The same of one thread that serves all. With a record something may be printed behind it, with another status.
fn comes_out_of_one_thread<
    R: Threads + Wait + Clock + Net<Listener = TcpListener, Stream = TcpStream> + Sync,
>(
    rt: &R,
    alloc: Global,
    run: &Run,
    record: Option<RecordWriter>,
    behind: &[u8],
    status: u8,
) -> io::Result<bool> {
    let options = options(alloc, run)?;
    let address = SocketAddr::from((Ipv4Addr::LOCALHOST, 0));
    let listener = mio::net::TcpListener::bind(rt, address)?;
    let address = listener.local_addr()?;
    let mut out = Vec::new(alloc);
    let besides = OneThread {
        record,
        browsers: None,
        forever: false,
        stop: None,
    };
    let (talked, ended) = thread::join(
        rt,
        move || talk_all(rt, alloc, address, run.clients, run.together),
        || serve_in_one_thread(rt, alloc, listener, &options, besides, &mut out),
    );
    Ok(talked? && ended == status && out.strip_suffix(behind) == Some(run.by_one))
}

#[test]
fn viewers_are_served_by_threads_and_by_one(rt: HostRuntime) -> Result<(), Fail> {
    for run in &RUNS {
        assert!(rt; comes_out(&rt, rt.alloc(), run)?, "{}", run.name);
        assert!(rt;
            comes_out_of_one_thread(&rt, rt.alloc(), run, None, b"", run.status)?,
            "in one thread: {}",
            run.name
        );
    }
    Ok(())
}

// Whether a session that was recorded in a new file is replayed: what its viewer was sent.
fn is_replayed<
    R: Threads
        + Wait
        + Clock
        + Files<File = File>
        + Net<Listener = TcpListener, Stream = TcpStream>
        + Sync,
>(rt: &R, alloc: Global) -> io::Result<bool> {
    let file = OpenOptions::new()
        .write(true)
        .create_new(true)
        .open(rt, "session.txt")?;
    let record = Some(RecordWriter::File(file));
    let is_served = comes_out_of_one_thread(rt, alloc, &SEES_ALL, record, b"", 0)?;
    let mut reader = BufReader::new(alloc, File::open(rt, "session.txt")?)?;
    let (mut out, mut errors) = (Vec::new(alloc), Vec::new(alloc));
    let asked = Asked {
        question: Question::Sent(1),
        lines: u64::MAX,
    };
    let status = replay_over(alloc, &mut reader, &mut out, &mut errors, asked);
    let is_sent = out.strip_prefix(GREETING) == Some(BLACK);
    Ok(is_served && status == 0 && is_sent && errors.is_empty())
}

// Whether a record in a file that takes nothing is told as broken, while the viewer is served.
fn is_told_where_full<
    R: Threads
        + Wait
        + Clock
        + Files<File = File>
        + Net<Listener = TcpListener, Stream = TcpStream>
        + Sync,
>(rt: &R, alloc: Global) -> io::Result<bool> {
    let file = OpenOptions::new().write(true).open(rt, "/dev/full")?;
    let record = Some(RecordWriter::File(file));
    comes_out_of_one_thread(rt, alloc, &SEES_ALL, record, b"record broken\n", 5)
}

#[test]
fn sessions_are_recorded_in_files(rt: HostRuntime) -> Result<(), Fail> {
    assert!(rt; is_replayed(&rt, rt.alloc())?);
    assert!(rt; is_told_where_full(&rt, rt.alloc())?);
    Ok(())
}

// Whether viewers are served of a listener that doesn't wait.
fn is_waited_for<
    R: Threads + Wait + Clock + Net<Listener = TcpListener, Stream = TcpStream> + Sync,
>(rt: &R, alloc: Global) -> io::Result<bool> {
    let listener = rt.bind(SocketAddr::from((Ipv4Addr::LOCALHOST, 0)))?;
    listener.set_nonblocking(true)?;
    serves(rt, alloc, &SEES_ALL, &listener)
}

#[test]
fn a_listener_that_does_not_wait(rt: HostRuntime) -> Result<(), Fail> {
    assert!(rt; is_waited_for(&rt, rt.alloc())?);
    Ok(())
}

// Stops a server once a viewer is open. Whether the viewer is let go then.
fn stops(stream: &mut TcpStream, stop: &Stop) -> io::Result<bool> {
    stream.write_all(OPENING)?;
    let is_open = reads(stream, GREETING)?;
    stop.stop();
    Ok(is_open && is_shut(stream, 0))
}

// Whether a server that waits for a second viewer ends once it is stopped, and says how the first one ended, without end not.
fn is_stopped<R: Threads + Wait + Clock + Net<Listener = TcpListener, Stream = TcpStream> + Sync>(
    rt: &R,
    alloc: Global,
    forever: bool,
    printed: &[&[u8]],
) -> Result<bool, Fail> {
    let listener = rt.bind(SocketAddr::from((Ipv4Addr::LOCALHOST, 0)))?;
    let mut stream = rt.connect(listener.local_addr()?)?;
    let mut options = options(alloc, &SEES_ALL)?;
    options.viewers = 2;
    options.check = !forever;
    let stop = Stop::new()?;
    let besides = ByThreads {
        forever,
        stop: Some(&stop),
    };
    let mut out = Vec::new(alloc);
    let (is_let_go, status) = thread::join(
        rt,
        || stops(&mut stream, &stop),
        || serve_by_threads(rt, alloc, &listener, &options, &besides, &mut out),
    );
    Ok(is_let_go? && status == 0 && printed.contains(&out.as_slice()))
}

#[test]
fn a_server_with_threads_is_stopped(rt: HostRuntime) -> Result<(), Fail> {
    // its sender finds that it is stopped, or its reader that it is shut
    let printed: [&[u8]; 2] = [
        b"viewer 1 Stopped\nfinish ok\n",
        b"viewer 1 Closed\nfinish ok\n",
    ];
    assert!(rt; is_stopped(&rt, rt.alloc(), false, &printed)?);
    assert!(rt; is_stopped(&rt, rt.alloc(), true, &[b""])?);
    Ok(())
}

/// An application that refuses to go on at an input.
#[derive(Drop)]
struct Refusing;

impl<L: Ledger> Application<L> for Refusing {
    fn on_input<R: Wait>(
        &mut self,
        _rt: &R,
        _shared: &Shared<L>,
        _brush: &mut Brush<L>,
        told: &Told,
    ) -> Result<(), ScreenError> {
        match &told.input {
            Input::Text { .. } => Err(ScreenError::TextTooLong),
            _ => Ok(()),
        }
    }
}

// One client says nothing and waits until its connection is shut: it reads the version, if that was written before, and no byte more.
// The other one says a text, at which the application does not go on (7.5.6).
const REFUSED: &[Client] = &[
    Client {
        steps: &[],
        shut: Some(12),
    },
    Client {
        steps: &[(OPENING, GREETING), (b"\x06\0\0\0\0\0\0\x02hi", b"")],
        shut: Some(0),
    },
];

// Whether the server ends with the refusal while one viewer is silent and another one is awaited, and the clients read what they say.
fn ends_on<
    L: Ledger + Send + Sync,
    R: Threads + Wait + Clock + Net<Listener = TcpListener, Stream = TcpStream> + Sync,
>(rt: &R, alloc: Global, shared: &Shared<L>, brush: &mut Brush<L>) -> io::Result<bool> {
    let listener = rt.bind(SocketAddr::from((Ipv4Addr::LOCALHOST, 0)))?;
    let address = listener.local_addr()?;
    let (talked, served) = thread::join(
        rt,
        move || talk_all(rt, alloc, address, REFUSED, true),
        || serve_viewers(rt, alloc, &listener, shared, brush, 3, &mut Refusing),
    );
    Ok(talked? && matches!(served, Err(ServeError::Screen(ScreenError::TextTooLong))))
}

fn small_screen(alloc: Global) -> Result<Config, AllocError> {
    Ok(Config {
        width: 4,
        height: 3,
        name: Listed::from_slice(alloc, b"demo")?,
        rects_per_update: 50,
        history: History::NotKept,
    })
}

fn ends_with_ledger<
    L: Ledger + Send + Sync,
    R: Threads + Wait + Clock + Net<Listener = TcpListener, Stream = TcpStream> + Sync,
>(rt: &R, alloc: Global, blank: Blank) -> Result<bool, Fail>
    requires name { blank.name ≡ L.name }
    requires parts { blank.parts ≡ L.parts }
    requires some { 0 < L.parts }
{
    let (shared, mut brush) = Shared::<L>::new(alloc, blank, small_screen(alloc)?)?;
    Ok(ends_on(rt, alloc, &shared, &mut brush)?)
}

fn ends<R: Threads + Wait + Clock + Net<Listener = TcpListener, Stream = TcpStream> + Sync>(
    rt: &R,
    alloc: Global,
) -> Result<bool, Fail> {
    ends_with_ledger::<Brand, R>(rt, alloc, Blank::new(1))
}

#[test]
fn a_refusal_ends_everything(rt: HostRuntime) -> Result<(), Fail> {
    assert!(rt; ends(&rt, rt.alloc())?);
    Ok(())
}

/// An application that notes what it is told.
#[derive(Drop)]
struct Noting {
    noted: Vec<u8>,
}

impl<L: Ledger> Application<L> for Noting {
    fn on_input<R: Wait>(
        &mut self,
        _rt: &R,
        _shared: &Shared<L>,
        _brush: &mut Brush<L>,
        told: &Told,
    ) -> Result<(), ScreenError> {
        let word: &[u8] = match &told.input {
            Input::Key { down: true, .. } => b"down ",
            Input::Key { down: false, .. } => b"up ",
            Input::Pointer {
                mask: 0,
                x: 2,
                y: 1,
            } => b"free ",
            Input::Pointer { .. } => b"pressed ",
            Input::Text { .. } => b"text ",
        };
        self.noted.extend_from_slice(word)?;
        Ok(())
    }

    fn left<R: Wait>(
        &mut self,
        _rt: &R,
        _shared: &Shared<L>,
        _brush: &mut Brush<L>,
        departed: Departed,
    ) -> Result<(), ScreenError> {
        let word: &[u8] = match departed {
            Departed {
                viewer: 1,
                dropped: 0,
            } => b"left",
            _ => b"another left",
        };
        self.noted.extend_from_slice(word)?;
        Ok(())
    }
}

// A client that goes away with a key and a button down (7.5.4 and 7.5.5).
const HOLDING: &[Client] = &[Client {
    steps: &[
        (OPENING, GREETING),
        (b"\x04\x01\0\0\0\0\xff\x0d\x05\x01\0\x02\0\x01", b""),
    ],
    shut: None,
}];

// Whether the application is told what the client held as let go, and then that it left.
fn is_let_go<
    L: Ledger + Send + Sync,
    R: Threads + Wait + Clock + Net<Listener = TcpListener, Stream = TcpStream> + Sync,
>(rt: &R, alloc: Global, shared: &Shared<L>, brush: &mut Brush<L>) -> io::Result<bool> {
    let listener = rt.bind(SocketAddr::from((Ipv4Addr::LOCALHOST, 0)))?;
    let address = listener.local_addr()?;
    let mut noting = Noting {
        noted: Vec::new(alloc),
    };
    let (talked, served) = thread::join(
        rt,
        move || talk_all(rt, alloc, address, HOLDING, true),
        || serve_viewers(rt, alloc, &listener, shared, brush, 1, &mut noting),
    );
    Ok(
        talked?
            && served.is_ok()
            && noting.noted.as_slice() == b"down pressed up free left".as_slice(),
    )
}

fn is_let_go_with_ledger<
    L: Ledger + Send + Sync,
    R: Threads + Wait + Clock + Net<Listener = TcpListener, Stream = TcpStream> + Sync,
>(rt: &R, alloc: Global, blank: Blank) -> Result<bool, Fail>
    requires name { blank.name ≡ L.name }
    requires parts { blank.parts ≡ L.parts }
    requires some { 0 < L.parts }
{
    let (shared, mut brush) = Shared::<L>::new(alloc, blank, small_screen(alloc)?)?;
    Ok(is_let_go(rt, alloc, &shared, &mut brush)?)
}

fn lets_go<R: Threads + Wait + Clock + Net<Listener = TcpListener, Stream = TcpStream> + Sync>(
    rt: &R,
    alloc: Global,
) -> Result<bool, Fail> {
    is_let_go_with_ledger::<Brand, R>(rt, alloc, Blank::new(1))
}

#[test]
fn what_a_viewer_held_is_let_go(rt: HostRuntime) -> Result<(), Fail> {
    assert!(rt; lets_go(&rt, rt.alloc())?);
    Ok(())
}

// The opening in 3.8 and its answers on a screen of 4 by 3 (7.1 to 7.3).
const OPENING: &[u8] = b"RFB 003.008\n\x01\x01";

const GREETING: &[u8] =
    b"RFB 003.008\n\x01\x01\0\0\0\0\0\x04\0\x03\x20\x18\0\x01\0\xff\0\xff\0\xff\x10\x08\0\0\0\0\0\0\0\x04demo";

// A request of that screen, and an update of it in Raw, all of it black (7.5.3, 7.6.1, 7.7.1).
const ALL: &[u8] = b"\x03\0\0\0\0\0\0\x04\0\x03";

const BLACK: &[u8] = b"\0\0\0\x01\0\0\0\0\0\x04\0\x03\0\0\0\0\
    \0\0\0\0\0\0\0\0\0\0\0\0\0\0\0\0\0\0\0\0\0\0\0\0\
    \0\0\0\0\0\0\0\0\0\0\0\0\0\0\0\0\0\0\0\0\0\0\0\0";

const SEES: Client = Client {
    steps: &[(OPENING, GREETING), (ALL, BLACK)],
    shut: None,
};

// It takes the server for another one's.
const ASTRAY: Client = Client {
    steps: &[(b"GET / HTTP/1.0\r\n\r\n", b"RFB 003.008\n")],
    shut: None,
};

// It goes away in its opening, once it has read all.
const EARLY: Client = Client {
    steps: &[(b"RFB 003", b"RFB 003.008\n")],
    shut: None,
};

// It says what no message says.
const WRONG: Client = Client {
    steps: &[(OPENING, GREETING), (b"\x09", b"")],
    shut: Some(0),
};

const SEES_ALL: Run = Run {
    name: "the whole screen is seen",
    size: (4, 3),
    check: true,
    clients: &[SEES],
    too_many: 0,
    together: false,
    printed: &[b"viewer 1 Closed\nfinish ok\n"],
    by_one: b"viewer 1 EndOfInput\nfinish ok\n",
    status: 0,
};

// It is one too many, and told so: version 3.3, the security type 0, and why (7.1.2 and appendix A).
const TURNED_AWAY: Client = Client {
    steps: &[(b"", b"RFB 003.003\n\0\0\0\0\0\0\0\x10too many viewers")],
    shut: Some(0),
};

static RUNS: [Run; 11] = [
    SEES_ALL,
    Run {
        name: "one is too many",
        clients: &[SEES, TURNED_AWAY],
        too_many: 1,
        together: true,
        ..SEES_ALL
    },
    Run {
        name: "two viewers, and no history",
        check: false,
        clients: &[SEES, SEES],
        printed: &[b"viewer 1 Closed\nviewer 2 Closed\n"],
        by_one: b"viewer 1 EndOfInput\nviewer 2 EndOfInput\n",
        ..SEES_ALL
    },
    Run {
        name: "no such screen",
        size: (0, 3),
        clients: &[],
        printed: &[b"refused 1 BadSize\n"],
        by_one: b"refused 1 BadSize\n",
        status: 1,
        ..SEES_ALL
    },
    Run {
        name: "inputs, and what they come to",
        clients: &[Client {
            steps: &[
                (OPENING, GREETING),
                // a key goes down (7.5.4): the bell (7.6.3)
                (b"\x04\x01\0\0\0\0\xff\x0d", b"\x02"),
                // the key goes up, and a text (7.5.6), which comes back (7.6.4)
                (
                    b"\x04\0\0\0\0\0\xff\x0d\x06\0\0\0\0\0\0\x02hi",
                    b"\x03\0\0\0\0\0\0\x02hi",
                ),
                // a request of the place (1, 1)
                (
                    b"\x03\0\0\x01\0\x01\0\x01\0\x01",
                    b"\0\0\0\x01\0\x01\0\x01\0\x01\0\x01\0\0\0\0\0\0\0\0",
                ),
                // a request of what changes there, and pointers (7.5.5): with the second button, off the screen, and with the
                // first button and the third, which makes the place white
                (
                    b"\x03\x01\0\x01\0\x01\0\x01\0\x01\
                        \x05\x02\0\x01\0\x01\x05\x01\0\x04\0\x01\x05\x05\0\x01\0\x01",
                    b"\0\0\0\x01\0\x01\0\x01\0\x01\0\x01\0\0\0\0\xff\xff\xff\0",
                ),
            ],
            shut: None,
        }],
        ..SEES_ALL
    },
    Run {
        name: "a client of another server",
        clients: &[ASTRAY],
        printed: &[b"viewer 1 Fault\nfinish ok\n"],
        by_one: b"viewer 1 Fault\nfinish ok\n",
        ..SEES_ALL
    },
    Run {
        name: "a client that goes away in its opening",
        clients: &[EARLY],
        printed: &[b"viewer 1 EndOfInput\nfinish ok\n"],
        by_one: b"viewer 1 EndOfInput\nfinish ok\n",
        ..SEES_ALL
    },
    // its sender finds the fault, or that the viewer is closed
    Run {
        name: "a client that says what no message says",
        clients: &[WRONG],
        printed: &[
            b"viewer 1 Fault\nfinish ok\n",
            b"viewer 1 Closed\nfinish ok\n",
        ],
        by_one: b"viewer 1 Fault\nfinish ok\n",
        ..SEES_ALL
    },
    Run {
        name: "a client that goes away with a byte unread, which resets the connection",
        clients: &[Client {
            steps: &[(b"", b"RFB 003.008")],
            shut: None,
        }],
        printed: &[b"viewer 1 ReadFailed\nfinish ok\n"],
        by_one: b"viewer 1 ReadFailed\nfinish ok\n",
        ..SEES_ALL
    },
    // of the update of 16 MB a connection holds a part
    Run {
        name: "a client that goes away once a long update has begun",
        size: (2048, 2048),
        check: false,
        clients: &[Client {
            steps: &[(
                b"RFB 003.008\n\x01\x01\x03\0\0\0\0\0\x08\0\x08\0",
                b"RFB 003.008\n\x01\x01\0\0\0\0\x08\0\x08\0\x20\x18\0\x01\0\xff\0\xff\0\xff\x10\x08\0\0\0\0\0\0\0\x04demo\
                    \0\0\0\x01\0\0\0\0\x08\0\x08\0\0\0\0\0",
            )],
            shut: None,
        }],
        printed: &[b"viewer 1 WriteFailed\n"],
        by_one: b"viewer 1 WriteFailed\n",
        ..SEES_ALL
    },
    // they connect in this order and talk in the other: nobody waits for another one
    Run {
        name: "six clients at once",
        clients: &[
            // it paints the place (2, 1) by a pointer, and sees that
            Client {
                steps: &[
                    (OPENING, GREETING),
                    (ALL, BLACK),
                    (
                        b"\x03\x01\0\0\0\0\0\x04\0\x03\x05\x01\0\x02\0\x01",
                        b"\0\0\0\x01\0\x02\0\x01\0\x01\0\x01\0\0\0\0\xff\xff\xff\0",
                    ),
                ],
                shut: None,
            },
            // it presses Return, and hears the bell
            Client {
                steps: &[(OPENING, GREETING), (b"\x04\x01\0\0\0\0\xff\x0d", b"\x02")],
                shut: None,
            },
            ASTRAY,
            EARLY,
            WRONG,
            SEES,
        ],
        together: true,
        printed: &[
            b"viewer 1 Closed\nviewer 2 Closed\nviewer 3 Fault\nviewer 4 EndOfInput\nviewer 5 Fault\nviewer 6 Closed\nfinish ok\n",
            b"viewer 1 Closed\nviewer 2 Closed\nviewer 3 Fault\nviewer 4 EndOfInput\nviewer 5 Closed\nviewer 6 Closed\nfinish ok\n",
        ],
        by_one: b"viewer 1 EndOfInput\nviewer 2 EndOfInput\nviewer 3 Fault\nviewer 4 EndOfInput\nviewer 5 Fault\n\
            viewer 6 EndOfInput\nfinish ok\n",
        ..SEES_ALL
    },
];
