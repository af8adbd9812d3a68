//! The step that adds an entry.

use crate::addition::Addition;
use crate::adds::Adds;
use crate::marked::Marked;
use logbook::{Plain, Play};
use std::marker::PhantomData;

/// The step that adds an entry.
pub struct TakesTurn<M>(PhantomData<M>);

impl<E, M> Play<Marked<E>, u64> for TakesTurn<M> {
    ghost use Rattle.alm_history.specs.Kept.{Appends};

    ghost then = { Appends };
}

impl<X, E, M: Adds<X, E>> Plain<Addition<'_, X>, Marked<E>, u64> for TakesTurn<M> {
    ghost use Rattle.std.specs.Prelude.{None, Some};

    ghost ask = { λ turn. record { entry = Some (M.entry turn.about.now); next = turn.next.now.nib.key } };

    ghost state = { λ turn. None };
}
