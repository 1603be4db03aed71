//! Notices for all viewers.

ghost use Rattle.std.specs.Prelude.{◌≡◌, ◌≤◌, ◌^◌, map, length, IfOk};
ghost use Rattle.std.specs.Map.{values_of};
ghost use Rattle.client_list.specs.Connected.{changed};
ghost use Rattle.updates.specs.declared.notices.Notice.{Notice};
ghost use Rattle.viewer_list.specs.Lagging.{told_of};
ghost use Rattle.viewer_list.specs.Viewers.{text_for};

use crate::lagging::Lagging;
use client_list::Clients;
use std::alloc::{AllocError, Global};
use viewer::{Notice, Text};

/// Keeps a Bell for each viewer that is open.
pub fn ring_all(viewers: &mut Clients<Lagging>)
    ensures { viewers.new.pairs ≡ changed (told_of Notice.Bell) viewers.old.pairs }
{
    let mut position = viewers.first();
    while let Some(at) = position {
        viewers.at_mut(at).viewer.keep(Notice::Bell);
        position = viewers.next(at);
    }
}

impl Lagging {
    /// Returns `text` for the viewer, if it would keep one.
    fn text_for(&self, text: &Text) -> Result<Option<Notice>, AllocError>
        ensures { IfOk result (λ notice. notice ≡ text_for text.now self.now.viewer) }
    {
        if self.viewer.keeps_notices() {
            Ok(Some(Notice::CutText(text.share()?)))
        } else {
            Ok(None)
        }
    }

    /// Keeps the text that was made for the viewer.
    fn keep_text(&mut self, text: &[u8], notice: Option<Notice>)
        requires short { length text.now ≤ 2 ^ 16 }
        requires text { notice ≡ text_for text.now self.old.viewer }
        ensures { self.new ≡ told_of (Notice.CutText text.now) self.old }
    {
        if let Some(notice) = notice {
            self.viewer.keep(notice);
        }
    }
}

/// Returns a text for each viewer that would keep one; all share its bytes.
pub fn texts(
    alloc: Global,
    viewers: &Clients<Lagging>,
    text: &[u8],
) -> Result<Vec<Option<Notice>>, AllocError>
    ensures { IfOk result (λ notices. notices.items ≡ map (λ l. text_for text.now l.viewer) (values_of viewers.now.pairs)) }
{
    let shared = Text::new(alloc, text)?;
    let mut notices = Vec::with_capacity(alloc, viewers.len())?;
    let mut position = viewers.first();
    while let Some(at) = position {
        notices.push(viewers.at(at).text_for(&shared)?)?;
        position = viewers.next(at);
    }
    Ok(notices)
}

/// Keeps for each viewer its text, the first viewer the first. This takes no memory.
pub fn keep_texts(viewers: &mut Clients<Lagging>, text: &[u8], mut notices: Vec<Option<Notice>>)
    requires short { length text.now ≤ 2 ^ 16 }
    requires texts { notices.items ≡ map (λ l. text_for text.now l.viewer) (values_of viewers.old.pairs) }
    ensures { viewers.new.pairs ≡ changed (told_of (Notice.CutText text.now)) viewers.old.pairs }
{
    notices.reverse();
    let mut position = viewers.first();
    while let Some(at) = position {
        if let Some(notice) = notices.pop() {
            viewers.at_mut(at).keep_text(text, notice);
        }
        position = viewers.next(at);
    }
}
