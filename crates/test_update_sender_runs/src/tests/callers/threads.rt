ghost use Rattle.std.specs.Prelude.{◌≡◌, ◌<◌};

use listed::Listed;
use std::alloc::Global;
use std::marker::Brand;
use std::sync::Wait;
use std::sync::ledger::{Blank, Ledger};
use std::test::Fail;
use update_sender::viewer_receipt::Receipt;
use update_sender::{Config, Ended, FinishError, History, Rect, ScreenError, Shared, check};

fn drawn<L: Ledger, R: Wait>(rt: &R, alloc: Global, blank: Blank) -> Result<bool, ScreenError>
    requires name { blank.name ≡ L.name }
    requires parts { blank.parts ≡ L.parts }
    requires some { 0 < L.parts }
{
    let config = Config {
        width: 2,
        height: 1,
        name: Listed::from_slice(alloc, b"demo")?,
        rects_per_update: 50,
        history: History::NotKept,
    };
    let (shared, mut brush) = Shared::<L>::new(alloc, blank, config)?;
    let line = shared.connect(rt, 1)?;
    let corner = Rect {
        x1: 0,
        y1: 0,
        x2: 1,
        y2: 1,
    };
    brush.paint(&shared, rt, corner, &[0xff_0000])?;
    shared.close(rt, 1)?;
    drop(line);
    Ok(matches!(shared.connect(rt, 1), Err(ScreenError::NumberInUse)))
}

#[test]
fn a_screen_behind_a_lock(rt: HostRuntime) -> Result<(), Fail> {
    assert!(rt; drawn::<Brand, HostRuntime>(&rt, rt.alloc(), Blank::new(1))?);
    Ok(())
}

/// Returns whether a run of no viewer is judged: a receipt of one is one too many.
fn is_judged(alloc: Global) -> Result<bool, ScreenError> {
    let config = Config {
        width: 2,
        height: 1,
        name: Listed::from_slice(alloc, b"demo")?,
        rects_per_update: 50,
        history: History::Kept,
    };
    let receipt = Receipt {
        viewer: 9,
        pieces: 0,
        cuts: 0,
        heard: Listed::new(alloc),
        sent: Listed::new(alloc),
        ended: Ended::Closed,
    };
    let without = check(alloc, &config, &[], &[], &[]);
    let with_one = check(alloc, &config, &[], &[], &[receipt]);
    Ok(without.is_ok() && matches!(with_one, Err(FinishError::Missing { viewer: 9 })))
}

#[test]
fn receipts_are_judged(rt: HostRuntime) -> Result<(), Fail> {
    assert!(rt; is_judged(rt.alloc())?);
    Ok(())
}
