//! Receipts.

ghost use Rattle.std.specs.Prelude.{◌≡◌, ◌+◌, ◌-◌, ◌<◌, ◌≤◌, length, Some, slice_get};
ghost use Rattle.alm_types.specs.declared.action.Action.{Action};
ghost use Rattle.alm_types.specs.declared.verdict.Verdict.TheVariants.{Accepted};

use crate::told::Told;
use alm_types::{Slot, Verdict};

/// The answer to a request. By its type the list that it reports reaches its number. An accepted action is in the list at that
/// number, as the one of this slot's request with this serial.
#[derive(Drop)]
pub struct Receipt<T: Told> {
    pub slot: Slot,
    /// Which of the slot's requests it answers, from 1.
    pub serial: u64,
    pub verdict: Verdict,
    /// The number of the action that was accepted, or the count of actions at which the request was refused.
    pub number: u64,
    pub told: T,
    pub ghost reaches: { number ≤ T.base_count told + length (T.list told) },
    pub ghost stands: { (a : Action) → verdict ≡ Accepted a →
        (T.base_count told < number) × (slice_get (T.list told) (number - T.base_count told - 1) ≡ Some a) },
    pub ghost names: { (a : Action) → verdict ≡ Accepted a →
        slice_get (T.logged told) (number - T.base_count told - 1) ≡
        Some (record { slot = slot; serial = serial; action = a }) },
}
