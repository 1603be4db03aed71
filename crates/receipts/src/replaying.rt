//! What a viewer is to be sent: a run of the drawing calls with its own events alone.

ghost use Rattle.std.specs.Prelude.{◌≡◌, None, IfOk};
ghost use Rattle.scene.specs.Alone.{config_refusal, owner_of};
ghost use Rattle.scene.specs.Answers.{is_owner};
ghost use Rattle.receipts.specs.Histories.{bytes_of};

use scene::{Config, Event, Scene, one_viewer_is_alone};
use std::alloc::{AllocError, Global};

/// Returns the bytes that a viewer is to be sent: those of a run of the drawing calls with its own events alone.
pub fn bytes_of(
    alloc: Global,
    config: &Config,
    viewer: u64,
    history: &[Event],
) -> Result<Vec<u8>, AllocError>
    requires { config_refusal config.now ≡ None }
    ensures { IfOk result (λ bytes. bytes.items ≡ bytes_of config.now viewer history.now) }
{
    one_viewer_is_alone();
    let config = config.try_clone(alloc)?;
    // The configuration is within its limits, so only memory can be wanting.
    let mut scene = Scene::new(alloc, config).map_err(|_| AllocError)?;
    let mut sent = Vec::new(alloc);
    for event in history {
        if is_own(viewer, event) {
            let answer = scene.apply(event)?;
            sent.extend_from_slice(answer.bytes.as_slice())?;
        }
    }
    Ok(sent)
}

/// Returns whether an event is a drawing call or the viewer's own.
fn is_own(viewer: u64, event: &Event) -> bool
    ensures { result ≡ is_owner viewer (owner_of event.now) }
{
    match event {
        Event::Connect { viewer: owner }
        | Event::Hear { viewer: owner, .. }
        | Event::Cut { viewer: owner }
        | Event::Close { viewer: owner } => *owner == viewer,
        _ => true,
    }
}
