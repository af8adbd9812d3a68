//! What a writer trades as it adds to a history.

use crate::marked::Marked;
use logbook::Gain;

/// A writer trades nothing as it adds to a history.
pub struct TradesNothing;

impl<E> Gain<Marked<E>, u64> for TradesNothing {
    ghost use base.Fml.{ftrue};

    ghost after = { λ names about answer. ftrue };
}
