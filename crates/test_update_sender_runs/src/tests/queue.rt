//! What no clause says: that calls succeed, and what threads put is what is taken.
ghost use Rattle.std.specs.Prelude.{◌≡◌};

use input_queue::*;
use messages::Input;
use std::alloc::Global;
use std::sync::Wait;
use std::test::*;
use std::thread;
use std::thread::Threads;

fn key(key: u32) -> Input {
    Input::Key { down: true, key }
}

/// Says whether `told` is the key `wanted` of `viewer`, going down or up.
fn is_key(told: Option<&Told>, viewer: u64, goes_down: bool, wanted: u32) -> bool {
    match told {
        Some(told) => {
            told.viewer == viewer
                && matches!(told.input, Input::Key { down, key } if down == goes_down && key == wanted)
        }
        None => false,
    }
}

/// Says whether `told` is the pointer of `viewer` at (2, 3), with these buttons.
fn is_pointer(told: Option<&Told>, viewer: u64, buttons: u8) -> bool {
    match told {
        Some(told) => {
            told.viewer == viewer
                && matches!(told.input, Input::Pointer { mask, x: 2, y: 3 } if mask == buttons)
        }
        None => false,
    }
}

/// Puts an input, and says whether it was accepted.
fn puts<R: Wait>(rt: &R, hub: &InputHub, seat: &mut InputSeat, input: Input) -> bool
    requires { seat.old.queue ≡ hub.now.queue }
    ensures { seat.new.queue ≡ seat.old.queue }
{
    hub.put(rt, seat, input).is_ok()
}

/// Puts the key `wanted`, and says whether it is given back.
fn gives_back<R: Wait>(rt: &R, hub: &InputHub, seat: &mut InputSeat, wanted: u32) -> bool
    requires { seat.old.queue ≡ hub.now.queue }
    ensures { seat.new.queue ≡ seat.old.queue }
{
    let back = hub.put(rt, seat, key(wanted));
    matches!(back, Err(Full(Input::Key { down: true, key })) if key == wanted)
}

/// Fills a queue for two inputs from both seats, and says whether it gives a third one back.
fn fill<R: Wait>(rt: &R, hub: &InputHub, one: &mut InputSeat, two: &mut InputSeat) -> bool
    requires one { one.old.queue ≡ hub.now.queue }
    requires two { two.old.queue ≡ hub.now.queue }
    ensures one { one.new.queue ≡ one.old.queue }
    ensures two { two.new.queue ≡ two.old.queue }
{
    let first = puts(rt, hub, one, key(1));
    let second = puts(rt, hub, two, key(2));
    let is_back = gives_back(rt, hub, one, 3);
    first && second && is_back
}

/// Takes the next input, and says whether it is the key `wanted` of `viewer`, going down.
fn takes_key<R: Wait>(rt: &R, hub: &InputHub, taker: &mut Taker, viewer: u64, wanted: u32) -> bool
    requires { taker.old.queue ≡ hub.now.queue }
    ensures { taker.new.queue ≡ taker.old.queue }
{
    is_key(
        take_next(rt, hub, taker, false).as_ref(),
        viewer,
        true,
        wanted,
    )
}

/// Takes both, and says whether they come in the order in which they were put, and nothing behind them.
fn take_both<R: Wait>(rt: &R, hub: &InputHub, taker: &mut Taker) -> bool
    requires { taker.old.queue ≡ hub.now.queue }
    ensures { taker.new.queue ≡ taker.old.queue }
{
    let is_first = takes_key(rt, hub, taker, 1, 1);
    let is_second = takes_key(rt, hub, taker, 2, 2);
    let is_last = take_next(rt, hub, taker, false).is_none();
    is_first && is_second && is_last
}

/// Says whether what is left are the keys 4 and 5, in this order.
fn are_left(left: &[Told]) -> bool {
    left.len() == 2 && is_key(left.first(), 2, true, 4) && is_key(left.last(), 1, true, 5)
}

// Checks that the taker takes the inputs of two seats in the order of their puts, that a full queue gives the input back, and that
// what is left is there in order.
#[test]
fn inputs_come_in_the_order_of_the_puts(rt: HostRuntime) -> Result<(), Fail> {
    let (mut hub, mut taker) = InputHub::new(rt.alloc(), 2)?;
    let mut one = hub.seat(1);
    let mut two = hub.seat(2);
    assert!(rt; take_next(&rt, &hub, &mut taker, false).is_none());
    assert!(rt; fill(&rt, &hub, &mut one, &mut two));
    assert!(rt; take_both(&rt, &hub, &mut taker));
    assert!(rt; puts(&rt, &hub, &mut two, key(4)));
    assert!(rt; puts(&rt, &hub, &mut one, key(5)));
    let seats = Vec::from_array(rt.alloc(), [one, two])
        .ok()
        .ok_or("no seats")?;
    let left = hub.join(&rt, taker, seats)?;
    assert!(rt; are_left(left.items.as_slice()));
    Ok(())
}

/// Lets go what a viewer holds in a queue that is full, and says whether something is left of it each time that one input was taken:
/// the key 1 that went down, and the pointer that was pressed.
fn is_let_go_in_parts<R: Wait>(
    rt: &R,
    hub: &InputHub,
    taker: &mut Taker,
    seat: &mut InputSeat,
) -> bool
    requires taker { taker.old.queue ≡ hub.now.queue }
    requires seat { seat.old.queue ≡ hub.now.queue }
    ensures taker { taker.new.queue ≡ taker.old.queue }
    ensures seat { seat.new.queue ≡ seat.old.queue }
{
    let at_first = hub.let_go(rt, seat);
    let pressed = take_next(rt, hub, taker, false);
    let then = hub.let_go(rt, seat);
    let moved = take_next(rt, hub, taker, false);
    !at_first && !then && is_key(pressed.as_ref(), 7, true, 1) && is_pointer(moved.as_ref(), 7, 5)
}

/// Lets go the rest, and says whether that is all: the key's release, and the pointer where it was.
fn is_let_go<R: Wait>(rt: &R, hub: &InputHub, taker: &mut Taker, seat: &mut InputSeat) -> bool
    requires taker { taker.old.queue ≡ hub.now.queue }
    requires seat { seat.old.queue ≡ hub.now.queue }
{
    let is_all = hub.let_go(rt, seat);
    let up = take_next(rt, hub, taker, false);
    let free = take_next(rt, hub, taker, false);
    let is_still_all = hub.let_go(rt, seat);
    is_all
        && is_still_all
        && is_key(up.as_ref(), 7, false, 1)
        && is_pointer(free.as_ref(), 7, 0)
        && take_next(rt, hub, taker, false).is_none()
}

// Checks that `let_go` lets go what a viewer holds, as far as there is room, and then the rest.
#[test]
fn what_is_held_is_let_go(rt: HostRuntime) -> Result<(), Fail> {
    let (mut hub, mut taker) = InputHub::new(rt.alloc(), 2)?;
    let mut seat = hub.seat(7);
    let pointer = Input::Pointer {
        mask: 5,
        x: 2,
        y: 3,
    };
    assert!(rt; puts(&rt, &hub, &mut seat, key(1)) && puts(&rt, &hub, &mut seat, pointer));
    assert!(rt; is_let_go_in_parts(&rt, &hub, &mut taker, &mut seat));
    assert!(rt; is_let_go(&rt, &hub, &mut taker, &mut seat));
    Ok(())
}

/// Takes the next input, or finds that the taker was woken.
fn take_or_woken<R: Wait>(rt: &R, hub: &InputHub, taker: &mut Taker) -> Result<Option<Told>, AtEnd>
    requires { taker.old.queue ≡ hub.now.queue }
    ensures { taker.new.queue ≡ taker.old.queue }
{
    hub.take_or_woken(rt, taker)
}

/// Says whether a taker that is woken takes the key 1, which was put before, then finds nothing, and is at the end of a closed hub.
fn is_woken<R: Wait>(rt: &R, hub: &InputHub, taker: &mut Taker) -> bool
    requires { taker.old.queue ≡ hub.now.queue }
{
    hub.wake();
    let first = take_or_woken(rt, hub, taker);
    let second = take_or_woken(rt, hub, taker);
    hub.close();
    let third = take_or_woken(rt, hub, taker);
    matches!(&first, Ok(Some(told)) if is_key(Some(told), 7, true, 1))
        && matches!(second, Ok(None))
        && third.is_err()
}

// Checks that a taker that is woken finds nothing, after what was put before, and that a closed hub is at its end.
#[test]
fn a_taker_is_woken(rt: HostRuntime) -> Result<(), Fail> {
    let (mut hub, mut taker) = InputHub::new(rt.alloc(), 2)?;
    let mut seat = hub.seat(7);
    assert!(rt; puts(&rt, &hub, &mut seat, key(1)));
    assert!(rt; is_woken(&rt, &hub, &mut taker));
    Ok(())
}

#[test]
fn capacities_are_1_to_65_536(rt: HostRuntime) {
    for capacity in [0usize, 65_537] {
        let made = InputHub::new(rt.alloc(), capacity);
        assert!(rt; matches!(made, Err(QueueError::BadCapacity)), "{capacity}");
    }
    for capacity in [1usize, 65_536] {
        assert!(rt; InputHub::new(rt.alloc(), capacity).is_ok(), "{capacity}");
    }
}

/// Puts the keys from 0 to 999, in 1,000,000 turns at most, trying again if the queue is full, and returns how many were accepted.
fn put_all<R: Wait>(rt: &R, hub: &InputHub, mut seat: InputSeat) -> (InputSeat, u32)
    requires { seat.queue ≡ hub.now.queue }
    ensures { result.0.queue ≡ seat.queue }
{
    let mut next = 0u32;
    for _ in 0..1_000_000u32 {
        if next >= 1000 {
            break;
        }
        if puts(rt, hub, &mut seat, key(next)) {
            next += 1;
        } else {
            thread::yield_now();
        }
    }
    (seat, next)
}

/// Takes the next input; waits for it if `waits`. `None` if there is none.
fn take_next<R: Wait>(rt: &R, hub: &InputHub, taker: &mut Taker, waits: bool) -> Option<Told>
    requires { taker.old.queue ≡ hub.now.queue }
    ensures { taker.new.queue ≡ taker.old.queue }
{
    if waits {
        hub.take_wait(rt, taker).ok()
    } else {
        hub.take(rt, taker)
    }
}

/// Takes inputs, in 1,000,000 turns at most: if `waits`, until the hub is closed, and else until there are 2,000, trying again
/// while there is nothing.
fn take_all<R: Wait>(
    rt: &R,
    alloc: Global,
    hub: &InputHub,
    mut taker: Taker,
    waits: bool,
) -> (Taker, Vec<Told>)
    requires { taker.queue ≡ hub.now.queue }
    ensures { result.0.queue ≡ taker.queue }
{
    let mut all = Vec::new(alloc);
    for _ in 0..1_000_000u32 {
        if !waits && all.len() >= 2000 {
            break;
        }
        match take_next(rt, hub, &mut taker, waits) {
            Some(told) => {
                if all.push(told).is_err() {
                    break;
                }
            }
            None if waits => break,
            None => thread::yield_now(),
        }
    }
    (taker, all)
}

/// Lets two seats put all their keys, each in a thread.
fn both<R: Threads + Wait + Sync>(
    rt: &R,
    hub: &InputHub,
    one: InputSeat,
    two: InputSeat,
) -> ((InputSeat, u32), (InputSeat, u32))
    requires { (one.queue ≡ hub.now.queue) × (two.queue ≡ hub.now.queue) }
    ensures { (result.0.0.queue ≡ hub.now.queue) × (result.1.0.queue ≡ hub.now.queue) }
{
    thread::join(
        rt,
        move || -> (InputSeat, u32)
            requires { one.queue ≡ hub.now.queue }
            ensures { result.0.queue ≡ hub.entry.now.queue }
        { put_all(rt, hub, one) },
        move || -> (InputSeat, u32)
            requires { two.queue ≡ hub.now.queue }
            ensures { result.0.queue ≡ hub.entry.now.queue }
        { put_all(rt, hub, two) },
    )
}

/// Says whether `taken` are the keys from 0 to 999 of viewers 1 and 2, each viewer's in order, and nothing else.
fn are_all(taken: &[Told]) -> bool {
    let mut next = [0u32; 2];
    for told in taken {
        let [one, two] = next;
        let place = if told.viewer == 1 { one } else { two };
        if told.viewer > 2 || !is_key(Some(told), told.viewer, true, place) {
            return false;
        }
        next = if told.viewer == 1 {
            [one.saturating_add(1), two]
        } else {
            [one, two.saturating_add(1)]
        };
    }
    next == [1000, 1000]
}

/// Lets two seats put and a third thread take, waiting if `waits`. Says whether all was accepted, and what was taken is that, in
/// order, and nothing else.
fn three<R: Threads + Wait + Sync>(rt: &R, alloc: Global, waits: bool) -> Result<bool, QueueError> {
    let (mut hub, taker) = InputHub::new(alloc, 64)?;
    let one = hub.seat(1);
    let two = hub.seat(2);
    let shared = &hub;
    let (((one, first), (two, second)), (taker, taken)) = thread::join(
        rt,
        move || -> ((InputSeat, u32), (InputSeat, u32))
            requires { (one.queue ≡ shared.now.queue) × (two.queue ≡ shared.now.queue) }
            ensures { (result.0.0.queue ≡ shared.entry.now.queue) × (result.1.0.queue ≡ shared.entry.now.queue) }
        {
            let put = both(rt, shared, one, two);
            shared.close();
            put
        },
        move || -> (Taker, Vec<Told>)
            requires { taker.queue ≡ shared.now.queue }
            ensures { result.0.queue ≡ shared.entry.now.queue }
        { take_all(rt, alloc, shared, taker, waits) },
    );
    let Ok(seats) = Vec::from_array(alloc, [one, two]) else {
        return Err(QueueError::OutOfMemory);
    };
    let left = hub.join(rt, taker, seats)?;
    Ok((first, second) == (1000, 1000) && are_all(&taken) && left.items.is_empty())
}

#[test]
fn threads_put_and_take(rt: HostRuntime) -> Result<(), Fail> {
    for waits in [true, false] {
        assert!(rt; three(&rt, rt.alloc(), waits)?, "waits: {waits}");
    }
    Ok(())
}
