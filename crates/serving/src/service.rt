//! A viewer's service: its thread, and its receipt once that has ended.

ghost use Rattle.std.specs.Prelude.{◌≡◌, ◌≢◌, ◌<◌, ◌≤◌, ◌+◌, ◌-◌, [], ℕ, true, length, get_or, IfOk};
ghost use Rattle.serving.specs.Serving.{AreNumbered};
ghost use Rattle.serving.specs.Services.{viewer_of, is_settled, AreInOrder};
ghost use Rattle.serving.specs.declared.service.Service.{Service};

use receipts::{Ended, Listed, Receipt};
use std::alloc::{AllocError, Global};
use std::mem;
use std::thread::{Promise, PromisedHandle, Threads};

/// A viewer's thread gives a receipt with this number.
#[derive(Clone, Copy)]
pub(crate) struct ReceiptOf(pub u64);

impl Promise<Receipt> for ReceiptOf {
    ghost kept_by = { λ p r. r.viewer ≡ p.0 };
}

/// How far a viewer's service has come.
#[derive(Drop)]
pub(crate) enum Service {
    /// Its thread may still run.
    Running(PromisedHandle<Receipt, ReceiptOf>),
    /// Its thread was joined, and left this.
    Ended(Receipt),
}

impl Service {
    /// Returns the receipt, once the thread has ended.
    pub fn receipt<R: Threads>(self, rt: &R) -> Receipt
        ensures { result.viewer ≡ viewer_of self }
    {
        match self {
            Service::Running(thread) => thread.join(rt),
            Service::Ended(receipt) => receipt,
        }
    }

    /// Waits for the thread, and keeps its receipt.
    fn settle<R: Threads>(&mut self, rt: &R, alloc: Global)
        ensures viewer { viewer_of self.new ≡ viewer_of self.old }
        ensures settled { is_settled self.new ≡ true }
    {
        let service = mem::replace(self, Service::Ended(no_receipt(alloc)));
        *self = Service::Ended(service.receipt(rt));
    }
}

/// Returns what stands in a receipt's place while its thread is joined.
fn no_receipt(alloc: Global) -> Receipt {
    Receipt {
        viewer: 0,
        pieces: 0,
        cuts: 0,
        heard: Listed::new(alloc),
        sent: Listed::new(alloc),
        ended: Ended::Closed,
    }
}

/// Joins the thread of a viewer, if it is among these.
pub(crate) fn settle_viewer<R: Threads>(
    rt: &R,
    alloc: Global,
    services: &mut Vec<Service>,
    viewer: u64,
)
    requires { AreInOrder (length services.old.items) services.old.items }
    ensures len { length services.new.items ≡ length services.old.items }
    ensures order { AreInOrder (length services.old.items) services.new.items }
    ensures settled { (d : Service) → 0 < viewer → viewer ≤ length services.old.items → is_settled (get_or services.new.items (viewer - 1) d) ≡ true }
    ensures others { (k : ℕ) (d : Service) → k + 1 ≢ viewer → get_or services.new.items k d ≡ get_or services.old.items k d }
{
    let Ok(number) = usize::try_from(viewer) else {
        return;
    };
    if let Some(service) = services.get_mut(number.wrapping_sub(1)) {
        service.settle(rt, alloc);
    }
}

/// Returns the receipts by number, in a list that was empty, once all threads have ended.
pub(crate) fn receipts_of<R: Threads>(
    rt: &R,
    services: Vec<Service>,
    mut receipts: Vec<Receipt>,
) -> Result<Vec<Receipt>, AllocError>
    requires order { AreInOrder (length services.items) services.items }
    requires empty { receipts.items ≡ [] }
    ensures { IfOk result (λ receipts. AreNumbered (length services.items) receipts.items) }
{
    for service in services {
        receipts.push(service.receipt(rt))?;
    }
    Ok(receipts)
}
