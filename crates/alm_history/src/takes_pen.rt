//! The step that takes a pen.

use crate::marked::Marked;
use logbook::Play;

/// The step that takes a pen, of a word that is new in the book.
pub struct TakesPen;

impl<E> Play<Marked<E>, u64> for TakesPen {
    ghost use Rattle.alm_history.specs.Kept.{GivesPen};

    ghost then = { GivesPen };
}
