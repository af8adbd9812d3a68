//! The step that begins a history.

use crate::marked::Marked;
use logbook::{Pen, Plain, Play};

/// The step that begins a history.
pub struct BeginsHistory;

impl<E> Play<Marked<E>, u64> for BeginsHistory {
    ghost use Rattle.alm_history.specs.Kept.{BeginsLog};

    ghost then = { BeginsLog };
}

impl<E> Plain<Pen, Marked<E>, u64> for BeginsHistory {
    ghost use Rattle.std.specs.Prelude.{None};

    ghost ask = { λ pen. record { entry = None; next = pen.nib.key } };

    ghost state = { λ pen. None };
}
