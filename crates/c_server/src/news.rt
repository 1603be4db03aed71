//! What waits to be fetched.

ghost use Rattle.std.specs.Prelude.{◌≡◌, ◌≤◌, ◌+◌, ◌-◌, ◌++◌, ◌^◌, length, take, drop, min, OnOk};
ghost use Rattle.std.specs.VecDeque.{deque_len, deque_capacity};
ghost use Rattle.c_screen.specs.Inputs.{IsFetched};
ghost use Rattle.c_server.specs.Desk.{fitting, texts_size};
ghost use Rattle.c_server.specs.Gathering.{IsPut, PutsComing};

use crate::told::ToldBy;
use crate::visits::{Visit, coming_of};
use c_screen::{Told, told_as};
use event_loop::{Admission, Input, Listed, LoopError};
use std::alloc::AllocError;
use std::collections::VecDeque;

/// How many inputs wait at most.
pub(crate) const MOST_INPUTS: usize = 4096;

/// How many comings and goings wait at most.
pub(crate) const MOST_VISITS: usize = 1024;

/// How many bytes wait at most in texts: 16 of the longest.
pub(crate) const MOST_TEXT: usize = 1 << 22;

/// Makes room so that as many wait at most.
pub(crate) fn make_room<T>(waiting: &mut VecDeque<T>, most: usize) -> Result<(), AllocError>
    ensures same { waiting.new.items ≡ waiting.old.items }
    ensures len { deque_len waiting.new ≡ deque_len waiting.old }
    ensures room { OnOk result (most ≤ deque_capacity waiting.new) }
{
    waiting.reserve(most.saturating_sub(waiting.len()))
}

/// Puts the inputs that came behind those that wait, as many as may wait, and texts while so many bytes more may wait in them, in room that
/// was made. Returns how many are lost, and how many bytes more may wait then.
pub(crate) fn put_inputs(
    waiting: &mut VecDeque<ToldBy>,
    mut came: VecDeque<ToldBy>,
    text_room: usize,
) -> (usize, usize)
    requires { 4096 ≤ deque_capacity waiting.old }
    ensures kept { waiting.new.items ≡ waiting.old.items ++ (fitting (4096 - length waiting.old.items) text_room came.items).0 }
    ensures lost { result.0 ≡ (fitting (4096 - length waiting.old.items) text_room came.items).1 }
    ensures room { result.1 ≡ (fitting (4096 - length waiting.old.items) text_room came.items).2 }
{
    let mut room = text_room;
    let mut lost = 0;
    while let Some(one) = came.pop_front() {
        match room.checked_sub(one.text_len()) {
            Some(left) if waiting.len() < MOST_INPUTS => {
                room = left;
                waiting.push_back_reserved(one);
            }
            _ => lost += 1,
        }
    }
    (lost, room)
}

/// Puts a coming or going behind those that wait, in room that was made, unless 1,024 wait. Returns how much is lost, where `lost` was
/// before.
fn put_visit(waiting: &mut VecDeque<Visit>, lost: u64, visit: Visit) -> u64
    requires { 1024 ≤ deque_capacity waiting.old }
    ensures { IsPut visit waiting.old.items waiting.new.items lost result }
{
    if waiting.len() >= MOST_VISITS {
        return lost.saturating_add(1);
    }
    waiting.push_back_reserved(visit);
    lost
}

/// Puts the coming of a viewer whose connection was taken in behind those that wait, in room that was made, unless 1,024 wait. Returns how
/// much is lost, where `lost` was before.
pub(crate) fn put_coming(
    waiting: &mut VecDeque<Visit>,
    lost: u64,
    answer: Result<Admission, LoopError>,
) -> u64
    requires { 1024 ≤ deque_capacity waiting.old }
    ensures { PutsComing answer waiting.old.items waiting.new.items lost result }
{
    match answer {
        Ok(Admission::Viewer(viewer)) => put_visit(waiting, lost, coming_of(viewer)),
        Ok(Admission::TurnedAway) => lost,
        Ok(Admission::Refused) => lost,
        Err(_) => lost,
    }
}

/// Puts what came behind what waits, as much as may wait, in room that was made. Returns how much of it is lost, which stays in `came`.
pub(crate) fn put_all<T>(waiting: &mut VecDeque<T>, came: &mut VecDeque<T>, most: usize) -> usize
    requires { most ≤ deque_capacity waiting.old }
    ensures kept { waiting.new.items ≡ waiting.old.items ++ take (most - length waiting.old.items) came.old.items }
    ensures lost { result ≡ length came.old.items - (most - length waiting.old.items) }
{
    while waiting.len() < most {
        let Some(one) = came.pop_front() else {
            return 0;
        };
        waiting.push_back_reserved(one);
    }
    came.len()
}

/// Fetches the first inputs, as many as there is room for, up to the first text, whose bytes are put into `text`; the others wait on, and
/// the rest of the room stays. Returns how many they are, and how many bytes the text has.
pub(crate) fn fetch_inputs(
    waiting: &mut VecDeque<ToldBy>,
    room: &mut [Told],
    text: &mut Listed<u8>,
) -> (usize, usize)
    ensures fetched { IsFetched (length room.old) waiting.old.items waiting.new.items room.old room.new text.old text.new result.0 }
    ensures texts { texts_size waiting.old.items ≡ result.1 + texts_size waiting.new.items }
{
    let mut count = 0;
    while count < room.len() {
        let Some(first) = waiting.pop_front() else {
            return (count, 0);
        };
        let (viewer, input) = first.into_parts();
        room[count] = told_as(viewer, &input);
        count += 1;
        if let Input::Text { text: bytes, .. } = input {
            *text = bytes;
            return (count, text.len());
        }
    }
    (count, 0)
}

/// Fetches the first comings and goings, as many as there is room for. Returns how many they are; the others wait on, and the rest
/// of the room stays.
pub(crate) fn fetch_visits(waiting: &mut VecDeque<Visit>, room: &mut [Visit]) -> usize
    ensures count { result ≡ min (length waiting.old.items) (length room.old) }
    ensures room { room.new ≡ take result waiting.old.items ++ drop result room.old }
    ensures rest { waiting.new.items ≡ drop result waiting.old.items }
{
    let mut count = 0;
    while count < room.len() {
        let Some(visit) = waiting.pop_front() else {
            return count;
        };
        room[count] = visit;
        count += 1;
    }
    count
}
