// Clients over loopback, and what they read. The bytes are written out from RFC 6143.

use std::alloc::Global;
use std::io;
use std::io::{Read, Write};
use std::net::{Net, SocketAddr, TcpListener, TcpStream};

/// What a client says, and what it reads then.
pub type Step = (&'static [u8], &'static [u8]);

/// What a client does before it goes away, and how many bytes it reads at most until its connection is shut, where it waits for that.
#[derive(Clone, Copy)]
pub struct Client {
    pub steps: &'static [Step],
    pub shut: Option<usize>,
}

/// Reads as many bytes as are `wanted`. Says whether they are these.
pub fn reads(stream: &mut TcpStream, wanted: &[u8]) -> io::Result<bool> {
    let mut byte = [0];
    for expected in wanted {
        stream.read_exact(&mut byte)?;
        if byte[0] != *expected {
            return Ok(false);
        }
    }
    Ok(true)
}

/// Says whether a connection is shut before more than `most` bytes were read of it.
pub fn is_shut(stream: &mut TcpStream, most: usize) -> bool {
    let mut byte = [0];
    for _ in 0..=most {
        if !matches!(stream.read(&mut byte), Ok(1)) {
            return true;
        }
    }
    false
}

/// Takes a client's steps on its connection. Says whether it reads what it is to read.
fn talk(stream: &mut TcpStream, client: &Client) -> io::Result<bool> {
    for (says, wanted) in client.steps {
        stream.write_all(says)?;
        if !reads(stream, wanted)? {
            return Ok(false);
        }
    }
    Ok(match client.shut {
        Some(most) => is_shut(stream, most),
        None => true,
    })
}

/// Has the clients talk, the last one first, each on the connection that was made last, or on a new one. Says whether each reads what it
/// is to read.
fn talk_in_turn<R: Net<Listener = TcpListener, Stream = TcpStream>>(
    rt: &R,
    address: SocketAddr,
    clients: &[Client],
    streams: &mut Vec<TcpStream>,
) -> io::Result<bool> {
    let mut is_right = true;
    for client in clients.iter().rev() {
        let mut stream = match streams.pop() {
            Some(stream) => stream,
            None => rt.connect(address)?,
        };
        is_right = talk(&mut stream, client)? && is_right;
    }
    Ok(is_right)
}

/// Makes `count` connections.
pub fn connect<R: Net<Listener = TcpListener, Stream = TcpStream>>(
    rt: &R,
    address: SocketAddr,
    count: usize,
    streams: &mut Vec<TcpStream>,
) -> io::Result<()> {
    for _ in 0..count {
        streams.push(rt.connect(address)?)?;
    }
    Ok(())
}

/// Has the clients talk one after the other, the last one first; with `together` all of them connect before. Says whether each reads what
/// it is to read.
pub fn talk_all<R: Net<Listener = TcpListener, Stream = TcpStream>>(
    rt: &R,
    alloc: Global,
    address: SocketAddr,
    clients: &[Client],
    together: bool,
) -> io::Result<bool> {
    let mut streams = Vec::new(alloc);
    connect(
        rt,
        address,
        if together { clients.len() } else { 0 },
        &mut streams,
    )?;
    talk_in_turn(rt, address, clients, &mut streams)
}
