//! What may happen next.

use alm_types::{Query, Slot, Want};

/// What may happen next.
#[derive(Drop)]
pub enum Step {
    /// A slot sends a request.
    Send(Slot, Want),
    /// The next request of a slot is judged, and joins the open batch.
    Take(Slot),
    /// The open batch is sealed, and an empty one opened.
    Seal,
    /// The next sealed batch is fetched.
    Fetch,
    /// The one device call that is next, or none for a batch without actions.
    Call,
    /// The committed batch is shown.
    Publish,
    /// The next verdict of the published batch is released to its slot.
    Release,
    /// The batch whose verdicts are released is free again.
    GiveBack,
    /// A slot receives its next receipt.
    Receive(Slot),
    /// A slot asks the published plant.
    Look(Slot, Query),
    /// Power is lost. Each pair has a place and its byte. Of several pairs with the same place only the first has an effect, and
    /// a pair whose place isn't pending has none. A pending place without a pair stays as it reads.
    Crash(Vec<(u64, u8)>),
    /// The device is opened again.
    Reopen,
}
