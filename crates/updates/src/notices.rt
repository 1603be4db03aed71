//! The notices that wait for a viewer, in the order in which they were made.

ghost use Rattle.std.specs.Prelude.{◌≡◌, ◌++◌, [], All, IfOk, OnOk, flat_map, nat_lt, length};
ghost use Rattle.updates.specs.Waiting.{none_wait, with_notice};
ghost use Rattle.updates.specs.Bytes.{notice_bytes};
ghost use Rattle.updates.specs.Short.{IsShort};

use messages::{put_bell, put_cut_text};
use std::alloc::{AllocError, Global};
use std::marker::Model;
use std::sync::Arc;

/// A text, which all share to whom it goes. Contracts see the list of its bytes.
#[derive(Drop)]
pub struct Text {
    bytes: Arc<Vec<u8>>,
}

impl Model for Text {
    ghost use Rattle.std.specs.Prelude.{ℕ, List};
    ghost use Rattle.std.specs.Arc.{arc_value};

    ghost Value = { List ℕ };

    ghost view = { λ t. (arc_value t.bytes).items };
}

impl Text {
    /// Copies a text. `AllocError` where memory is refused.
    pub fn new(alloc: Global, bytes: &[u8]) -> Result<Text, AllocError>
        ensures { IfOk result (λ text. text ≡ bytes.now) }
    {
        let bytes = Arc::new(alloc, Vec::from_slice(alloc, bytes)?)?;
        Ok(Text { bytes })
    }

    /// Returns the same text, for one more. Takes no memory; `AllocError` where 2^64 - 1 share it.
    pub fn share(&self) -> Result<Text, AllocError>
        ensures { IfOk result (λ text. text ≡ self.now) }
    {
        let bytes = Arc::try_clone(&self.bytes)?;
        Ok(Text { bytes })
    }

    /// Returns its bytes.
    pub fn as_slice(&self) -> &[u8]
        ensures { result.now ≡ self.now }
    {
        &self.bytes
    }
}

/// What goes to a viewer before the rectangles of its next update.
#[derive(Drop)]
pub enum Notice {
    /// A Bell (RFC 6143, 7.6.3).
    Bell,
    /// A ServerCutText (RFC 6143, 7.6.4).
    CutText(Text),
}

impl Notice {
    /// Returns the same notice, for one more. Takes no memory; `AllocError` where 2^64 - 1 share its text.
    fn share(&self) -> Result<Notice, AllocError>
        ensures { IfOk result (λ notice. notice ≡ self.now) }
    {
        match self {
            Notice::Bell => Ok(Notice::Bell),
            Notice::CutText(text) => Ok(Notice::CutText(text.share()?)),
        }
    }
}

/// How many notices wait at most; a further one is not kept.
const MOST_NOTICES: usize = 64;

/// At most 64 notices, with the capacity for them.
#[derive(Drop)]
pub struct Notices {
    waiting: Vec<Notice>,
}

impl Model for Notices {
    ghost use Rattle.std.specs.Prelude.{List, vec_capacity};
    ghost use Rattle.updates.specs.declared.notices.Notice.{Notice};
    ghost use Rattle.updates.specs.Short.{AreWaiting};

    ghost Value = { List Notice };

    ghost view = { λ a. a.waiting.items };

    ghost invariant = { λ a. AreWaiting (vec_capacity a.waiting) a.waiting.items };
}

impl Notices {
    /// Returns none, with capacity for 64. `AllocError` where memory is refused.
    pub fn new(alloc: Global) -> Result<Notices, AllocError>
        ensures { IfOk result (λ notices. notices ≡ []) }
    {
        Ok(Notices {
            waiting: Vec::with_capacity(alloc, MOST_NOTICES)?,
        })
    }

    /// Keeps a notice, unless 64 wait.
    pub fn keep(&mut self, notice: Notice)
        requires { IsShort notice }
        ensures { self.new ≡ with_notice notice self.old }
    {
        if self.waiting.len() < MOST_NOTICES {
            self.waiting.push_reserved(notice);
        }
    }

    /// Tells whether a further notice would be kept: fewer than 64 wait.
    pub fn has_room(&self) -> bool
        ensures { result ≡ nat_lt (length self.now) 64 }
    {
        self.waiting.len() < MOST_NOTICES
    }

    /// Tells whether none waits.
    pub fn is_empty(&self) -> bool
        ensures { result ≡ none_wait self.now }
    {
        self.waiting.is_empty()
    }

    /// Drops all.
    pub fn clear(&mut self)
        ensures { self.new ≡ [] }
    {
        self.waiting.clear();
    }

    /// Returns all that wait, which an update shares.
    pub fn share(&self, alloc: Global) -> Result<Vec<Notice>, AllocError>
        ensures items { IfOk result (λ shared. shared.items ≡ self.now) }
        ensures short { IfOk result (λ shared. All IsShort shared.items) }
    {
        let mut shared = Vec::with_capacity(alloc, self.waiting.len())?;
        for notice in &self.waiting {
            shared.push(notice.share()?)?;
        }
        Ok(shared)
    }
}

/// Appends a notice.
pub fn put_notice(out: &mut Vec<u8>, notice: &Notice) -> Result<(), AllocError>
    requires { IsShort notice.now }
    ensures { OnOk result (out.new.items ≡ out.old.items ++ notice_bytes notice.now) }
{
    match notice {
        Notice::Bell => put_bell(out),
        Notice::CutText(text) => put_cut_text(out, text.as_slice()),
    }
}

/// Appends notices, in their order.
pub fn put_notices(out: &mut Vec<u8>, notices: &[Notice]) -> Result<(), AllocError>
    requires { All IsShort notices.now }
    ensures { OnOk result (out.new.items ≡ out.old.items ++ flat_map notice_bytes notices.now) }
{
    for notice in notices {
        put_notice(out, notice)?;
    }
    Ok(())
}
