//! The rule of a history that has one writer.

use crate::marked::Marked;
use logbook::Rule;

/// The rule of a history that has one writer: each entry uses up the pen that the one before it names.
pub struct OneWriter;

impl<E> Rule<Marked<E>, u64> for OneWriter {
    ghost use Rattle.std.specs.Prelude.{[]};
    ghost use base.Fml.{ftrue};
    ghost use Rattle.alm_history.specs.Kept.{IsKept};

    ghost holds = { λ cells log. IsKept cells log };

    ghost first = { [] };

    ghost hinted = { λ n log. Unit {0} };

    ghost shows = { λ log. [] };

    ghost keeps = { λ names log. ftrue };

    ghost moves = { λ ask before after answer. Unit {0} };
}
