//! The heads of messages (RFC 6143, 7.6), and the entries of the colour map.

ghost use Rattle.std.specs.Prelude.{◌≡◌, ℕ, ◌+◌, ◌^◌, ◌<◌, List, length, slice_index, IfOk, IfErr};
ghost use Rattle.server_reader.specs.declared.stage.Size.{Size};
ghost use Rattle.server_reader.specs.Heard.{HearsAt};
ghost use Rattle.server_reader.specs.OnPicture.{StageIsOn, TurnIsOn, size_after};
ghost use Rattle.viewer_picture.specs.Messages.{Display, rectangles_at};
ghost use Rattle.server_reader.specs.Groups.{message_length};
ghost use Rattle.server_reader.specs.Stages.{rest_of, entries_rest};
ghost use Rattle.server_reader.specs.Faults.{IsFaultOf};
ghost use Rattle.server_reader.specs.Steps.{state_at, IsTurn, IsRead};

use crate::fault::ReadFault;
use crate::groups::{be16_at, be32_at};
use crate::stage::{MapEntries, Size, Stage, State, Turn};
use crate::step::Step;

/// Returns where the reader stands at a stage that no text comes before.
pub(crate) fn state_at(size: Size, stage: Stage) -> State
    ensures { result ≡ state_at size stage }
{
    State {
        size,
        text: 0,
        stage,
    }
}

/// Returns what comes next of an update with `count` rectangles to come (RFC 6143, 7.6.1).
#[tactic(auto, using(crate::proofs::MessageTurns::no_rectangles, crate::proofs::MessageTurns::some_rectangles))]
pub(crate) fn next_rectangle(count: u16) -> Stage
    ensures rest { (d : Display) (bytes : List ℕ) → rest_of result d bytes ≡ rectangles_at count d bytes }
    ensures on { (size : Size) → StageIsOn size result }
{
    if count == 0 {
        return Stage::UpdateEnd;
    }
    Stage::Rectangle { behind: count - 1 }
}

/// Returns what comes next where `left` entries of the colour map are to come, from `next` on (RFC 6143, 7.6.2).
#[tactic(auto, using(crate::proofs::MessageTurns::no_entries))]
fn next_entry(next: u32, left: u16) -> Stage
    requires { next + left < 2 ^ 17 }
    ensures rest { (d : Display) (bytes : List ℕ) → rest_of result d bytes ≡ entries_rest left next d bytes }
    ensures on { (size : Size) → StageIsOn size result }
{
    if left == 0 {
        return Stage::Message;
    }
    Stage::MapEntries(MapEntries { next, left })
}

/// Reads the head of a message (RFC 6143, 7.6). Refuses a type that no message has as `UnknownMessage`.
pub(crate) fn read_message<'a>(size: Size, head: &[u8]) -> Result<Turn<'a>, ReadFault>
    requires { length head.now ≡ message_length (slice_index head.now 0) }
    ensures read { IsRead (state_at size Stage.Message) head.now result }
    ensures heard { IfOk result (λ turn. HearsAt Stage.Message head.now turn.step) }
    ensures on { IfOk result (λ turn. TurnIsOn turn) }
    ensures sized { IfOk result (λ turn. turn.state.size ≡ size_after turn.step size) }
    ensures why { IfErr result (λ fault. IsFaultOf size Stage.Message head.now fault) }
{
    match head[0] {
        0 => Ok(Turn {
            state: state_at(size, next_rectangle(be16_at(head, 2))),
            step: Step::Head,
        }),
        1 => {
            let first = u32::from(be16_at(head, 2));
            Ok(Turn {
                state: state_at(size, next_entry(first, be16_at(head, 4))),
                step: Step::Head,
            })
        }
        2 => Ok(Turn {
            state: state_at(size, Stage::Message),
            step: Step::Bell,
        }),
        3 => {
            let length = be32_at(head, 4);
            let state = State {
                size,
                text: length,
                stage: Stage::Message,
            };
            Ok(Turn {
                state,
                step: Step::TextBegins { length },
            })
        }
        kind => Err(ReadFault::UnknownMessage(kind)),
    }
}

/// Reads an entry of the colour map (RFC 6143, 7.6.2).
pub(crate) fn read_entry<'a>(size: Size, entries: MapEntries, bytes: &[u8]) -> Turn<'a>
    requires { length bytes.now ≡ 6 }
    ensures read { IsTurn (state_at size (Stage.MapEntries entries)) bytes.now result }
    ensures heard { HearsAt (Stage.MapEntries entries) bytes.now result.step }
    ensures on { TurnIsOn result }
    ensures sized { result.state.size ≡ size_after result.step size }
{
    let step = Step::MapEntry {
        entry: entries.next,
        red: be16_at(bytes, 0),
        green: be16_at(bytes, 2),
        blue: be16_at(bytes, 4),
    };
    let stage = next_entry(entries.next + 1, entries.left - 1);
    Turn {
        state: state_at(size, stage),
        step,
    }
}
