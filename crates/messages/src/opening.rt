//! What the server answers in the opening (RFC 6143 sections 7.1 to 7.3 and appendix A).
ghost use Rattle.std.specs.Prelude.{◌≡◌, ◌≤◌, ◌++◌, length, IfOk, OnOk, OnErr};
ghost use Rattle.messages.specs.Server.{server_init, answer, answers};

use crate::reading::phase_after;
use crate::{Item, Phase, Version, put_result, put_security, put_server_init};
use std::alloc::{AllocError, Global};

/// What ServerInit tells of a desktop (RFC 6143 section 7.3.2).
#[derive(Clone, Copy)]
pub struct Desktop<'a> {
    /// The columns of its framebuffer.
    pub width: u16,
    /// The rows of its framebuffer.
    pub height: u16,
    /// Its name, of at most `u32::MAX` bytes.
    pub name: &'a [u8],
}

/// Appends what `item` is answered, by where the conversation stood, `phase`: the security type to a version, in 3.8 the result to
/// the choice, ServerInit to ClientInit, and nothing to a message. After an `AllocError` the vector's elements are as they were.
pub fn put_greeting(
    out: &mut Vec<u8>,
    desktop: &Desktop<'_>,
    phase: Phase,
    item: &Item,
) -> Result<(), AllocError>
    requires { length desktop.now.name.now ≤ u32.MAX }
    ensures ok { OnOk result (out.new.items
        ≡ out.old.items ++ answer (server_init desktop.now.width desktop.now.height desktop.now.name.now) phase item.now) }
    ensures err { OnErr result (out.new.items ≡ out.old.items) }
{
    match (item, phase) {
        (Item::Version(version), _) => put_security(out, *version),
        (Item::Choice, Phase::Choice(Version::V38)) => put_result(out),
        (Item::Init { .. }, _) => {
            put_server_init(out, desktop.width, desktop.height, desktop.name)
        }
        _ => Ok(()),
    }
}

/// Returns what `items` are answered, one after the other, from where the conversation stood, `phase`. `AllocError` where memory is
/// refused.
pub fn greetings(
    alloc: Global,
    desktop: &Desktop<'_>,
    phase: Phase,
    items: &[Item],
) -> Result<Vec<u8>, AllocError>
    requires { length desktop.now.name.now ≤ u32.MAX }
    ensures { IfOk result (λ bytes. bytes.items
        ≡ answers (server_init desktop.now.width desktop.now.height desktop.now.name.now) phase items.now) }
{
    let mut bytes = Vec::new(alloc);
    let mut phase = phase;
    for item in items {
        put_greeting(&mut bytes, desktop, phase, item)?;
        phase = phase_after(phase, item);
    }
    Ok(bytes)
}
