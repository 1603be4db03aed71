//! A server without end: so many viewers at once, each served as it comes.

ghost use Rattle.std.specs.Prelude.{◌≡◌, ◌<◌, ◌≤◌, ◌+◌, ◌-◌, ◌^◌, min, OnErr, OnOk, length};

use crate::accepting::{end_all, next_stream, rest, start, take_in};
use crate::guests::{Guest, Guests};
use crate::serving::{ServeError, Server};
use crate::stop::Door;
use crate::turning_away::turn_away;
use input_queue::SeatMaker;
use screen::ScreenError;
use std::net::TcpStream;
use std::sync::Wait;
use std::sync::ledger::Ledger;
use std::thread::{Scope, Threads};
use std::time::Clock;

/// Serves viewers, at most so many at once, until the server is stopped or all connections were shut. Nothing of them is left then.
pub(crate) fn serve_on<'s, E, L: Ledger + Send + Sync + 's, R: Threads + Wait + Clock + Sync + 's>(
    rt: &'s R,
    server: &Server<'s, L>,
    door: &Door<'_>,
    maker: SeatMaker,
    viewers: usize,
    scope: &Scope<'s, E>,
) -> Result<(), ServeError>
    requires { maker.queue ≡ server.now.ends.now.queue }
{
    let mut guests = Guests::new(server.alloc, viewers);
    let received = receive_all(rt, server, door, maker, &mut guests, scope);
    end_all(rt, server);
    guests.end(rt);
    received
}

/// Takes in or turns away each connection that comes, until the server is stopped or all connections were shut. What ended viewers held is
/// given back meanwhile.
fn receive_all<'s, E, L: Ledger + Send + Sync + 's, R: Threads + Wait + Clock + Sync + 's>(
    rt: &'s R,
    server: &Server<'s, L>,
    door: &Door<'_>,
    mut maker: SeatMaker,
    guests: &mut Guests,
    scope: &Scope<'s, E>,
) -> Result<(), ServeError>
    requires { maker.queue ≡ server.now.ends.now.queue }
    ensures { guests.new.limit ≡ guests.old.limit }
{
    for _ in rt.forever() {
        part_ended(rt, server, guests);
        if door.is_stopped() || server.connections.are_shut(rt) {
            return Ok(());
        }
        if let Some(stream) = next_stream(rt, server.connections, door) {
            receive(rt, server, &mut maker, guests, stream, scope)?;
        }
    }
    unreachable!()
}

/// Joins the threads of the viewers that have ended, of which nothing is kept.
fn part_ended<L: Ledger, R: Threads + Wait>(rt: &R, server: &Server<'_, L>, guests: &mut Guests)
    ensures came { guests.new.came ≡ guests.old.came }
    ensures limit { guests.new.limit ≡ guests.old.limit }
    ensures fewer { length guests.new.present.items ≤ length guests.old.present.items }
{
    for _ in rt.forever() {
        let Some(viewer) = server.connections.take_ended(rt) else {
            return;
        };
        guests.part(rt, viewer);
    }
    unreachable!()
}

/// Serves a connection, or turns it away where as many viewers are there as may be. One for which there is no memory is closed, and
/// accepting rests.
fn receive<'s, E, L: Ledger + Send + Sync + 's, R: Threads + Wait + Clock + Sync + 's>(
    rt: &'s R,
    server: &Server<'s, L>,
    maker: &mut SeatMaker,
    guests: &mut Guests,
    stream: TcpStream,
    scope: &Scope<'s, E>,
) -> Result<(), ServeError>
    requires { maker.old.queue ≡ server.now.ends.now.queue }
    ensures queue { maker.new.queue ≡ maker.old.queue }
    ensures limit { guests.new.limit ≡ guests.old.limit }
    ensures full { length guests.old.present.items ≡ guests.old.limit → guests.new ≡ guests.old }
{
    if guests.are_full() {
        turn_away(&stream);
        return Ok(());
    }
    match welcome(rt, server, maker, guests, stream, scope) {
        Err(ServeError::Screen(ScreenError::OutOfMemory)) => {
            rest(rt);
            Ok(())
        }
        welcomed => welcomed,
    }
}

/// Serves a connection as the viewer with the next number. An error where it becomes no viewer: it is closed, and the number is free.
fn welcome<'s, E, L: Ledger + Send + Sync + 's, R: Threads + Wait + Clock + Sync + 's>(
    rt: &'s R,
    server: &Server<'s, L>,
    maker: &mut SeatMaker,
    guests: &mut Guests,
    stream: TcpStream,
    scope: &Scope<'s, E>,
) -> Result<(), ServeError>
    requires queue { maker.old.queue ≡ server.now.ends.now.queue }
    requires free { length guests.old.present.items < guests.old.limit }
    ensures queue { maker.new.queue ≡ maker.old.queue }
    ensures limit { guests.new.limit ≡ guests.old.limit }
    ensures more { OnOk result ((length guests.new.present.items ≡ length guests.old.present.items + 1) ×
        (guests.new.came ≡ min (guests.old.came + 1) (2 ^ 64 - 1))) }
    ensures err { OnErr result ((guests.new.present.items ≡ guests.old.present.items) × (guests.new.came ≡ guests.old.came)) }
{
    guests.make_room()?;
    let number = guests.next();
    let caller = take_in(rt, server, stream, number)?;
    let seat = maker.seat(server.ends, number);
    let service = start(rt, server, number, seat, caller, scope);
    guests.add(Guest {
        viewer: number,
        service,
    });
    Ok(())
}
