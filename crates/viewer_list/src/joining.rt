//! Entries of the log that are joined, so that viewers that lag need not catch up when it is full.

ghost use Rattle.std.specs.Prelude.{◌≡◌, [], ◌+◌, ◌≤◌, ◌<◌, All, true, false, length, drop, IfOk, IfSome, OnOk, OnErr};
ghost use Rattle.std.specs.Map.{values_of};
ghost use Rattle.viewer_list.specs.Lagging.{seen, is_mark, IsMark, IsCurrent, Fits, IsJoined};

use crate::lagging::Lagging;
use crate::walks::{catch_up_from, last_position, move_all_within};
use client_list::Clients;
use copy_schedule::joined_log;
use region::Region;
use std::alloc::{AllocError, Global};
use viewer::LogEntry;

/// How many joined entries the log has at most.
const MOST_JOINED: usize = 64;

fn is_mark(entry: &LogEntry) -> bool
    ensures { result ≡ is_mark entry.now }
{
    match entry {
        LogEntry::Mark(_) => true,
        LogEntry::Copy { .. } => false,
    }
}

/// Returns whether all entries are marks.
fn are_marks(entries: &[LogEntry]) -> bool
    ensures { result ≡ true → All IsMark entries.now }
{
    for entry in entries {
        if !is_mark(entry) {
            return false;
        }
    }
    true
}

/// Returns the region that the entries mark together, unless a copy is among them.
fn joined_region(alloc: Global, entries: &[LogEntry]) -> Result<Option<Region>, AllocError>
    ensures { IfOk result (λ region. IfSome region (IsJoined entries.now)) }
{
    if !are_marks(entries) {
        return Ok(None);
    }
    let mut joined = joined_log(alloc, entries, false)?;
    if joined.len() != 1 {
        return Ok(None);
    }
    match joined.pop() {
        Some(LogEntry::Mark(region)) => Ok(Some(region)),
        _ => Ok(None),
    }
}

/// Empties a log of which no viewer lacks an entry, and moves each viewer to its start. This takes no memory.
pub fn start_anew(viewers: &mut Clients<Lagging>, log: &mut Vec<LogEntry>)
    requires { All (IsCurrent log.old.items) (values_of viewers.old.pairs) }
    ensures log { log.new.items ≡ [] }
    ensures seen { seen log.new.items viewers.new.pairs ≡ seen log.old.items viewers.old.pairs }
    ensures fits { All (Fits log.new.items) (values_of viewers.new.pairs) }
{
    log.clear();
    move_all_within(viewers, 0);
}

/// Lets all viewers catch up, and empties the log. After an `AllocError` it stands as it was.
fn empty(
    alloc: Global,
    viewers: &mut Clients<Lagging>,
    log: &mut Vec<LogEntry>,
) -> Result<(), AllocError>
    requires { All (Fits log.old.items) (values_of viewers.old.pairs) }
    ensures ok { OnOk result (log.new.items ≡ []) }
    ensures seen { seen log.new.items viewers.new.pairs ≡ seen log.old.items viewers.old.pairs }
    ensures fits { All (Fits log.new.items) (values_of viewers.new.pairs) }
    ensures err { OnErr result (log.new.items ≡ log.old.items) }
{
    catch_up_from(alloc, viewers, log, 0)?;
    start_anew(viewers, log);
    Ok(())
}

/// Replaces the entries from `position` on by one that marks `region`. The viewers that stand behind the position catch up first,
/// and stand behind the new entry then; the others lack one entry in place of those. After an `AllocError` the log stands as it
/// was.
fn join(
    alloc: Global,
    viewers: &mut Clients<Lagging>,
    log: &mut Vec<LogEntry>,
    position: usize,
    region: Region,
) -> Result<(), AllocError>
    requires position { position < length log.old.items }
    requires joined { IsJoined (drop position log.old.items) region }
    requires fits { All (Fits log.old.items) (values_of viewers.old.pairs) }
    ensures ok { OnOk result (length log.new.items ≡ position + 1) }
    ensures seen { seen log.new.items viewers.new.pairs ≡ seen log.old.items viewers.old.pairs }
    ensures fits { All (Fits log.new.items) (values_of viewers.new.pairs) }
    ensures err { OnErr result (log.new.items ≡ log.old.items) }
{
    catch_up_from(alloc, viewers, log, position + 1)?;
    log.truncate(position);
    log.push_reserved(LogEntry::Mark(region));
    move_all_within(viewers, log.len());
    Ok(())
}

/// Joins the entries from `position` on to one, where all are marks, and returns whether they are. After an `AllocError` the log
/// stands as it was.
fn join_from(
    alloc: Global,
    viewers: &mut Clients<Lagging>,
    log: &mut Vec<LogEntry>,
    position: usize,
) -> Result<bool, AllocError>
    requires position { position < length log.old.items }
    requires fits { All (Fits log.old.items) (values_of viewers.old.pairs) }
    ensures joined { IfOk result (λ joined. joined ≡ true → length log.new.items ≡ position + 1) }
    ensures apart { IfOk result (λ joined. joined ≡ false → log.new.items ≡ log.old.items) }
    ensures seen { seen log.new.items viewers.new.pairs ≡ seen log.old.items viewers.old.pairs }
    ensures fits { All (Fits log.new.items) (values_of viewers.new.pairs) }
    ensures err { OnErr result (log.new.items ≡ log.old.items) }
{
    let Some(region) = joined_region(alloc, &log[position..])? else {
        return Ok(false);
    };
    join(alloc, viewers, log, position, region)?;
    Ok(true)
}

/// Returns whether half of the rectangles of the last entry but one, rounded down, are more than the last has.
fn is_last_small(log: &[LogEntry]) -> bool
    requires { 2 ≤ length log.now }
{
    let before = log[log.len() - 2].region().count_rects();
    before / 2 > log[log.len() - 1].region().count_rects()
}

/// Joins the last two entries from `position` on for as long as the last is not small beside the one before it. So a region is joined
/// again only as more and more is drawn behind it, and the entries from the position on are few. Where memory is refused, they stay
/// apart.
fn join_alike(
    alloc: Global,
    viewers: &mut Clients<Lagging>,
    log: &mut Vec<LogEntry>,
    position: usize,
)
    requires position { position < length log.old.items }
    requires fits { All (Fits log.old.items) (values_of viewers.old.pairs) }
    ensures position { position < length log.new.items }
    ensures len { length log.new.items ≤ length log.old.items }
    ensures seen { seen log.new.items viewers.new.pairs ≡ seen log.old.items viewers.old.pairs }
    ensures fits { All (Fits log.new.items) (values_of viewers.new.pairs) }
{
    while log.len() - position > 1 && !is_last_small(log) {
        let last = log.len() - 2;
        match join_from(alloc, viewers, log, last) {
            Ok(true) => {}
            _ => return,
        }
    }
}

/// Joins the entries besides the first `joined` ones, before they are too many, and with them those joined ones that are not much
/// larger and behind which no viewer stands. Where a copy is among them, or too many joined ones stand there, all viewers catch up in
/// place of that, and the log is emptied. Either way all of its entries are joined ones then, and it returns how many. After an
/// `AllocError` the log stands as it was.
pub fn join_entries(
    alloc: Global,
    viewers: &mut Clients<Lagging>,
    log: &mut Vec<LogEntry>,
    joined: usize,
) -> Result<usize, AllocError>
    requires joined { joined < length log.old.items }
    requires fits { All (Fits log.old.items) (values_of viewers.old.pairs) }
    ensures len { IfOk result (λ len. len ≡ length log.new.items) }
    ensures few { IfOk result (λ len. len ≤ 64) }
    ensures seen { seen log.new.items viewers.new.pairs ≡ seen log.old.items viewers.old.pairs }
    ensures fits { All (Fits log.new.items) (values_of viewers.new.pairs) }
    ensures err { OnErr result (log.new.items ≡ log.old.items) }
{
    if joined >= MOST_JOINED || !join_from(alloc, viewers, log, joined)? {
        empty(alloc, viewers, log)?;
        return Ok(0);
    }
    let position = last_position(viewers, joined);
    join_alike(alloc, viewers, log, position);
    Ok(log.len())
}
