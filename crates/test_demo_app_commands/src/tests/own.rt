// `self`: what is printed, and the status.

use super::scripts::Room;
use demo_app::{self_in_one_thread, self_on};
use std::alloc::Global;
use std::io;
use std::net::{Net, Shutdown, SocketAddr, TcpListener, TcpStream};
use std::sync::Wait;
use std::thread::Threads;
use std::time::{Clock, Duration};

// A network on which each connection may be shut as soon as it stands.
#[derive(Drop)]
struct Network<'a, R> {
    rt: &'a R,
    shuts: bool,
}

impl<R: Threads> Threads for Network<'_, R> {}

impl<R: Wait> Wait for Network<'_, R> {}

impl<R: Clock> Clock for Network<'_, R> {
    fn monotonic(&self) -> io::Result<Duration> {
        self.rt.monotonic()
    }

    fn since_1970(&self) -> io::Result<Duration> {
        self.rt.since_1970()
    }

    fn sleep(&self, duration: Duration) {
        self.rt.sleep(duration);
    }
}

impl<R: Net<Listener = TcpListener, Stream = TcpStream>> Net for Network<'_, R> {
    type Stream = TcpStream;

    type Listener = TcpListener;

    fn bind(&self, addr: SocketAddr) -> io::Result<TcpListener> {
        self.rt.bind(addr)
    }

    fn connect(&self, addr: SocketAddr) -> io::Result<TcpStream> {
        let stream = self.rt.connect(addr)?;
        if self.shuts {
            stream.shutdown(Shutdown::Both)?;
        }
        Ok(stream)
    }
}

// So many viewers, whether their connections are shut, how many bytes can be printed, what is printed, and the status.
struct Run {
    viewers: u32,
    shuts: bool,
    room: usize,
    printed: &'static [u8],
    status: u8,
}

static RUNS: [Run; 5] = [
    Run {
        viewers: 1,
        shuts: false,
        room: usize::MAX,
        printed: b"viewer 1 shows the screen\nfinish ok\n",
        status: 0,
    },
    Run {
        viewers: 2,
        shuts: false,
        room: usize::MAX,
        printed: b"viewer 1 shows the screen\nviewer 2 shows the screen\nfinish ok\n",
        status: 0,
    },
    Run {
        viewers: 8,
        shuts: false,
        room: usize::MAX,
        printed: b"viewer 1 shows the screen\nviewer 2 shows the screen\nviewer 3 shows the screen\n\
            viewer 4 shows the screen\nviewer 5 shows the screen\nviewer 6 shows the screen\nviewer 7 shows the screen\n\
            viewer 8 shows the screen\nfinish ok\n",
        status: 0,
    },
    // nothing can be printed
    Run {
        viewers: 2,
        shuts: false,
        room: 0,
        printed: b"",
        status: 5,
    },
    // a viewer whose connection is shut shows nothing, so that the status is 4, though nothing is wrong with the run
    Run {
        viewers: 1,
        shuts: true,
        room: usize::MAX,
        printed: b"viewer 1 does not show the screen\nfinish ok\n",
        status: 4,
    },
];

// Whether the viewers are served, by threads or by one, and this is printed.
fn prints<R: Threads + Wait + Clock + Net<Listener = TcpListener, Stream = TcpStream> + Sync>(
    rt: &R,
    alloc: Global,
    run: &Run,
    by_one: bool,
) -> bool {
    let network = Network {
        rt,
        shuts: run.shuts,
    };
    let mut out = Room {
        taken: Vec::new(alloc),
        room: run.room,
        flushes: true,
    };
    let status = if by_one {
        self_in_one_thread(&network, alloc, run.viewers, &mut out)
    } else {
        self_on(&network, alloc, run.viewers, &mut out)
    };
    status == run.status && out.taken.as_slice() == run.printed
}

#[test]
fn viewers_show_the_screen(rt: HostRuntime) {
    for run in &RUNS {
        for by_one in [false, true] {
            assert!(rt;
                prints(&rt, rt.alloc(), run, by_one),
                "{} viewers, in one thread: {by_one}, status {}",
                run.viewers,
                run.status
            );
        }
    }
}
