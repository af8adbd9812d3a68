//! The rule of what is shown to readers.

use crate::reader_sight::ReaderSight;
use crossbeam_utils::rule::Protocol;

/// The rule of what is shown to readers: any value may be shown. What a reader sees is a fact of its own step.
pub struct ReadersRule;

impl<T> Protocol<T, ReaderSight> for ReadersRule {
    ghost use Rattle.std.specs.Prelude.{[]};

    ghost holds = { λ shown sights. Unit {0} };

    ghost first = { record { looks = 0; seen = [] } };
}
