//! What is done with connections, and what is to be seen then.

ghost use Rattle.connections.specs.Drawing.{Draws};

use super::line::{Line, Talk};
use connections::{
    Application, Canvas, Connections, Departed, Draw, Ended, Input, Readiness, Receipt, Rect,
    ScreenError,
};
use std::alloc::{AllocError, Global};

/// The whole screen of 4 by 3, and the place (2, 1).
pub const ALL: Rect = Rect {
    x1: 0,
    y1: 0,
    x2: 4,
    y2: 3,
};

const PLACE: Rect = Rect {
    x1: 2,
    y1: 1,
    x2: 3,
    y2: 2,
};

/// What an application is told at a viewer's end: the release of a key, the pointer without a button, and that the viewer left.
#[derive(Clone, Copy, PartialEq, Eq)]
pub enum Parting {
    Key(u32),
    Pointer(u16, u16),
    Left,
}

/// Counts what it is told, and keeps the number of the viewer that came last. The first button of a pointer paints the screen in
/// 00000b, and so does a request of all of it, where that is wished.
#[derive(Drop)]
pub struct Counting {
    pub came: u64,
    pub told: [u64; 4],
    pub left: u64,
    pub paints: bool,
    // the first releases, and whether a viewer left behind them, in the order in which they were told
    pub partings: [Option<Parting>; 4],
    pub parted: usize,
}

impl Counting {
    /// Notes a parting behind those before it, if it is one of the first four.
    fn note(&mut self, parting: Parting) {
        if let Some(noted) = self.partings.get_mut(self.parted) {
            *noted = Some(parting);
            self.parted = self.parted.saturating_add(1);
        }
    }

    /// Forgets the partings.
    fn forget(&mut self) {
        self.partings = [None; 4];
        self.parted = 0;
    }
}

impl Application for Counting {
    fn on_input(
        &mut self,
        canvas: &mut Canvas,
        viewer: u64,
        input: &Input,
    ) -> Result<(), ScreenError> {
        if let Some(told) = self.told.get_mut((viewer as usize).saturating_sub(1)) {
            *told = told.saturating_add(1);
        }
        match input {
            Input::Key { down: false, key } => self.note(Parting::Key(*key)),
            Input::Pointer { mask: 0, x, y } => self.note(Parting::Pointer(*x, *y)),
            Input::Pointer { mask: 1, .. } => canvas.paint(ALL, &[11; 12])?,
            _ => {}
        }
        Ok(())
    }

    fn came(&mut self, _canvas: &mut Canvas, viewer: u64) -> Result<(), ScreenError>
        ensures draws { Draws _canvas.old _canvas.new }
    {
        self.came = viewer;
        Ok(())
    }

    fn asked(&mut self, canvas: &mut Canvas, _viewer: u64) -> Result<(), ScreenError>
        ensures draws { Draws canvas.old canvas.new }
    {
        if self.paints {
            canvas.paint(ALL, &[11; 12])
        } else {
            Ok(())
        }
    }

    fn left(&mut self, _canvas: &mut Canvas, _receipt: Receipt) -> Result<(), ScreenError> {
        self.left = self.left.saturating_add(1);
        self.note(Parting::Left);
        Ok(())
    }
}

/// How a viewer is to have ended; what it was sent: the first `count` bytes of the opening and the whole screen in this colour, and
/// then what is `behind` them; what was heard of it, in how many pieces; and how many updates were cut for it.
#[derive(Clone, Copy)]
pub struct End {
    pub viewer: u64,
    pub ended: Ended,
    pub colour: u8,
    pub count: usize,
    pub behind: &'static [u8],
    pub heard: &'static [u8],
    pub pieces: u64,
    pub cuts: u64,
}

/// What is done, or is to be seen.
#[derive(Clone, Copy)]
pub enum Step {
    /// The screen is painted in this colour, or the place (2, 1) in 123456.
    Paints(u8),
    PaintsPlace,
    /// The bell rings.
    Rings,
    /// A viewer is admitted; one that floods says an opening and the run's count of pointers.
    Admits(Talk),
    Floods(Talk),
    /// This many turns, in which every transport may be ready each time; or as many as there is something to do for, with nothing
    /// more known of any transport.
    Turns(u32),
    TurnsOn,
    /// The application paints whenever a viewer asks for all of the screen.
    Pulls,
    /// A connection is closed.
    Closes(usize),
    /// Whether something can be done.
    IsBusy(bool),
    /// How many inputs of each viewer the application was told by the last turns, at least and at most.
    AreTold([(u64, u64); 4]),
    /// These have left, and what was sent and heard is kept, or not.
    HaveLeft(&'static [End], bool),
    /// One has left, which was sent this many bytes.
    HasTaken(usize),
    /// One has left, and this is what the application is told then.
    Parts([Option<Parting>; 4]),
    /// There are no connections, and no viewers.
    IsEmpty,
}

/// What a viewer of 4 by 3 places is sent at its opening, and up to the pixels of an update of the whole screen in Raw (RFC 6143, 7.1
/// to 7.3, 7.6.1, 7.7.1).
const HEAD: &[u8] =
    b"RFB 003.008\n\x01\x01\0\0\0\0\0\x04\0\x03\x20\x18\0\x01\0\xff\0\xff\0\xff\x10\x08\0\0\0\0\0\0\0\x04demo\
    \0\0\0\x01\0\0\0\0\0\x04\0\x03\0\0\0\0";

/// Returns what a viewer is sent whose screen has the colour `blue` everywhere.
pub fn whole(alloc: Global, blue: u8) -> Result<Vec<u8>, AllocError> {
    let mut bytes = HEAD.to_vec(alloc)?;
    for _ in 0..12u8 {
        bytes.extend_from_slice(&[blue, 0, 0, 0])?;
    }
    Ok(bytes)
}

/// Makes the transport of a viewer that talks as `talk` and says `says`.
pub fn line(alloc: Global, talk: Talk, says: &[u8]) -> Line<'_> {
    Line {
        taken: Vec::new(alloc),
        rest: says,
        talk,
        read_waits: false,
        write_waits: false,
    }
}

/// Makes `count` turns, in which every transport of the first `keys` keys may be ready each time. Counts anew what the application
/// is told.
pub fn turns(
    connections: &mut Connections<Line<'_>>,
    keys: usize,
    count: u32,
    application: &mut Counting,
) -> Result<(), ScreenError> {
    application.told = [0; 4];
    for _ in 0..count {
        for key in 0..keys {
            connections.note(
                key,
                Readiness {
                    may_read: true,
                    may_write: true,
                    is_hung_up: false,
                },
            )?;
        }
        connections.turn(application)?;
    }
    Ok(())
}

/// Makes turns as long as something can be done, at most 100.
fn turns_on(
    connections: &mut Connections<Line<'_>>,
    application: &mut Counting,
) -> Result<(), ScreenError> {
    for _ in 0..100u32 {
        if !connections.is_busy() {
            break;
        }
        connections.turn(application)?;
    }
    Ok(())
}

/// Says whether a viewer that left ended as `end` says, was sent and heard what `end` says, and whether that is kept if `is_kept`,
/// and not if not.
fn is_end(alloc: Global, departed: &Departed<Line<'_>>, end: &End, is_kept: bool) -> bool {
    let Departed {
        transport,
        receipt,
        ..
    } = departed;
    let taken = transport.taken.as_slice();
    let Ok(whole) = whole(alloc, end.colour) else {
        return false;
    };
    let (first, behind) = taken.split_at(taken.len().min(end.count));
    receipt.viewer == end.viewer
        && receipt.ended == end.ended
        && whole.get(..end.count) == Some(first)
        && behind == end.behind
        && receipt.sent.as_slice() == if is_kept { taken } else { &[] }
        && receipt.heard.as_slice() == if is_kept { end.heard } else { &[] }
        && receipt.pieces == end.pieces
        && receipt.cuts == end.cuts
}

/// Says whether the viewers that left are those of `ends`, one each, and no more.
fn have_left(
    alloc: Global,
    connections: &mut Connections<Line<'_>>,
    ends: &[End],
    is_kept: bool,
) -> bool {
    let mut found = 0u64;
    for _ in ends {
        let Some(departed) = connections.take_departed() else {
            return false;
        };
        if !ends
            .iter()
            .any(|end| is_end(alloc, &departed, end, is_kept))
        {
            return false;
        }
        found |= 1 << (departed.receipt.viewer % 64);
    }
    found.count_ones() as usize == ends.len() && connections.take_departed().is_none()
}

/// Says whether a viewer has left, and the application is told `partings` then.
fn parts(
    connections: &mut Connections<Line<'_>>,
    application: &mut Counting,
    partings: &[Option<Parting>; 4],
) -> Result<bool, ScreenError> {
    let Some(Departed { held, receipt, .. }) = connections.take_departed() else {
        return Ok(false);
    };
    application.forget();
    connections.tell_left(held, receipt, application)?;
    Ok(application.partings == *partings)
}

/// Does a step, and says whether it comes to what it says.
pub fn holds<'a>(
    alloc: Global,
    connections: &mut Connections<Line<'a>>,
    application: &mut Counting,
    keys: &mut usize,
    flood: &'a [u8],
    step: &Step,
) -> Result<bool, ScreenError> {
    match step {
        Step::Paints(blue) => connections.canvas().paint(ALL, &[u32::from(*blue); 12])?,
        Step::PaintsPlace => connections.canvas().paint(PLACE, &[0x12_3456])?,
        Step::Rings => connections.canvas().bell()?,
        Step::Admits(talk) => {
            connections.admit(line(alloc, *talk, talk.says))?;
            *keys = keys.saturating_add(1);
        }
        Step::Floods(talk) => {
            connections.admit(line(alloc, *talk, flood))?;
            *keys = keys.saturating_add(1);
        }
        Step::Turns(count) => turns(connections, *keys, *count, application)?,
        Step::TurnsOn => turns_on(connections, application)?,
        Step::Pulls => application.paints = true,
        Step::Closes(key) => connections.close(*key)?,
        Step::IsBusy(is_busy) => return Ok(connections.is_busy() == *is_busy),
        Step::AreTold(counts) => {
            return Ok(
                application
                    .told
                    .iter()
                    .zip(counts)
                    .all(|(told, (least, most))| least <= told && told <= most),
            );
        }
        Step::HaveLeft(ends, is_kept) => return Ok(have_left(alloc, connections, ends, *is_kept)),
        Step::HasTaken(count) => {
            return Ok(match connections.take_departed() {
                Some(departed) => departed.transport.taken.len() == *count,
                None => false,
            });
        }
        Step::Parts(partings) => return parts(connections, application, partings),
        Step::IsEmpty => {
            return Ok(connections.is_empty() && connections.screen().viewer_count() == 0);
        }
    }
    Ok(true)
}
