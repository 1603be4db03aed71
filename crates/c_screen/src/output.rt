//! Output on its way to viewers, in pieces.

ghost use Rattle.std.specs.Prelude.{◌≡◌, ◌≢◌, ◌++◌, ◌∷◌, [], List, ℕ, ◌⊎◌, ◌≤◌, ◌^◌, ◌↔◌, IsTrue, IfOk, OnOk, OnErr, length, drop, take, min};
ghost use Rattle.std.specs.Prelude.{MatchOption, ◌<◌, true, false, vec_len, vec_capacity};
ghost use Rattle.viewer.specs.Given.{bytes_given};
ghost use Rattle.c_screen.specs.Desk.{put_output, has_output, first_index, next_piece, left_of, without};

use std::alloc::{AllocError, Global};
use std::marker::Model;
use viewer::{Stream, Update};

/// How many items `copy_to` copies at most: 2^30, so that their count is a code.
const MOST_COPIED: usize = 1 << 30;

/// Output on its way to a viewer: bytes that are made, from `done` on, and what an update is still to give. Contracts see it as
/// the viewer's number and the bytes that are still to come.
#[derive(Drop)]
pub(crate) struct Output {
    viewer: u64,
    made: Vec<u8>,
    done: usize,
    update: Option<Stream>,
}

impl Model for Output {
    ghost use Rattle.std.specs.Prelude.{ℕ, List, ◌++◌, ◌≤◌, length, drop};
    ghost use Rattle.viewer.specs.Given.{bytes_given};

    ghost Value = { ℕ × List ℕ };

    ghost view = { λ a. (a.viewer, drop a.done a.made.items ++ bytes_given a.update) };

    ghost invariant = { λ a. a.done ≤ length a.made.items };
}

/// Puts the first of `items` at the start of `room`, as many as fit, at most 2^30; the rest of `room` stays. Returns how many.
pub fn copy_to<T: Copy>(room: &mut [T], items: &[T]) -> usize
    ensures count { result ≡ min (min (length items.now) (length room.old)) (2 ^ 30) }
    ensures room { room.new ≡ take result items.now ++ drop result room.old }
{
    let count = items.len().min(room.len()).min(MOST_COPIED);
    room[..count].copy_from_slice(&items[..count]);
    count
}

/// Makes the next piece of `update` in `made`, once all of `made` is done. `done` is how many of its bytes are. After an `AllocError` the
/// bytes that are still to come are the same.
fn make_piece(
    made: &mut Vec<u8>,
    done: &mut usize,
    update: &mut Option<Stream>,
) -> Result<(), AllocError>
    requires { done.old ≤ length made.old.items }
    ensures within { done.new ≤ length made.new.items }
    ensures same { drop done.new made.new.items ++ bytes_given update.new ≡ drop done.old made.old.items ++ bytes_given update.old }
    ensures some { OnOk result (length made.new.items ≤ done.new → drop done.old made.old.items ++ bytes_given update.old ≡ []) }
{
    if *done < made.len() {
        return Ok(());
    }
    made.clear();
    *done = 0;
    match update {
        Some(update) => update.put(made),
        None => Ok(()),
    }
}

/// Appends `bytes` for `viewer` to `output`, in room that was made, unless there are none.
pub(crate) fn put_bytes(output: &mut Vec<Output>, viewer: u64, bytes: Vec<u8>)
    requires { vec_len output.old < vec_capacity output.old }
    ensures { output.new.items ≡ put_output viewer bytes.items output.old.items }
{
    if !bytes.is_empty() {
        output.push_reserved(Output::of_bytes(viewer, bytes));
    }
}

/// Returns the index of the first piece for `viewer`, if one waits.
pub(crate) fn first_for(output: &[Output], viewer: u64) -> Option<usize>
    ensures { MatchOption result (has_output viewer output.now ≡ false) (λ i. (i < length output.now) × (first_index viewer output.now ≡ i) × (has_output viewer output.now ≡ true)) }
{
    let mut i = 0;
    while i < output.len() {
        if output[i].viewer() == viewer {
            return Some(i);
        }
        i += 1;
    }
    None
}

/// Removes what waits for `viewer`.
pub(crate) fn drop_output(output: &mut Vec<Output>, viewer: u64)
    ensures { output.new.items ≡ without viewer output.old.items }
{
    let mut i = 0;
    while i < output.len() {
        if output[i].viewer() == viewer {
            output.remove(i);
        } else {
            i += 1;
        }
    }
}

/// Fetches the first bytes of the first piece for `viewer` into the start of `room`, as many as are made and fit; the rest of `room`
/// stays. Returns how many, at most 2^30, and 0 where no piece waits or `room` has no place. After an `AllocError` nothing was fetched.
pub(crate) fn fetch_output(
    output: &mut Vec<Output>,
    viewer: u64,
    room: &mut [u8],
) -> Result<usize, AllocError>
    ensures given { IfOk result (λ count. (bytes left : List ℕ) × length bytes ≡ count × (bytes ++ left ≡ next_piece viewer output.old.items) ×
        (room.new ≡ bytes ++ drop count room.old) × (output.new.items ≡ left_of viewer left output.old.items)) }
    ensures some { IfOk result (λ count. count ≡ 0 → (room.old ≡ []) ⊎ (next_piece viewer output.old.items ≡ [])) }
    ensures few { IfOk result (λ count. count ≤ 2 ^ 30) }
    ensures err { OnErr result ((output.new.items ≡ output.old.items) × (room.new ≡ room.old)) }
{
    let Some(i) = first_for(output, viewer) else {
        return Ok(0);
    };
    let count = output[i].fetch(room)?;
    if output[i].is_ended() {
        output.remove(i);
    }
    Ok(count)
}

impl Output {
    /// Returns the bytes of `made` for `viewer`.
    pub fn of_bytes(viewer: u64, made: Vec<u8>) -> Output
        ensures { result ≡ (viewer, made.items) }
    {
        Output {
            viewer,
            made,
            done: 0,
            update: None,
        }
    }

    /// Returns an update for `viewer`, to be encoded as it is fetched.
    pub fn of_update(alloc: Global, viewer: u64, update: Update) -> Output
        ensures { result ≡ (viewer, update) }
    {
        Output {
            viewer,
            made: Vec::new(alloc),
            done: 0,
            update: Some(update.into_stream()),
        }
    }

    /// Returns the number of its viewer.
    pub fn viewer(&self) -> u64
        ensures { result ≡ self.now.0 }
    {
        self.viewer
    }

    /// Returns whether all of it was fetched.
    pub fn is_ended(&self) -> bool
        ensures { IsTrue result ↔ (self.now.1 ≡ []) }
    {
        if self.done < self.made.len() {
            return false;
        }
        match &self.update {
            Some(update) => update.is_ended(),
            None => true,
        }
    }

    /// Fetches the next bytes into the start of `room`, as many as are made and fit; the rest of `room` stays. Returns how many, at most
    /// 2^30. After an `AllocError` nothing was fetched.
    pub fn fetch(&mut self, room: &mut [u8]) -> Result<usize, AllocError>
        ensures viewer { self.new.0 ≡ self.old.0 }
        ensures bytes { IfOk result (λ count. (given : List ℕ) × (length given ≡ count) × (given ++ self.new.1 ≡ self.old.1) ×
            (room.new ≡ given ++ drop count room.old)) }
        ensures some { IfOk result (λ count. count ≡ 0 → (room.old ≡ []) ⊎ (self.old.1 ≡ [])) }
        ensures few { IfOk result (λ count. count ≤ 2 ^ 30) }
        ensures err { OnErr result ((self.new ≡ self.old) × (room.new ≡ room.old)) }
    {
        make_piece(&mut self.made, &mut self.done, &mut self.update)?;
        let count = copy_to(room, &self.made[self.done..]);
        self.done += count;
        Ok(count)
    }
}
