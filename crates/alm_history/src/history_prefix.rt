//! A prefix of a history that was seen.
ghost use Rattle.std.specs.Prelude.{◌≡◌};
ghost use mathlib.Core.List.{IsPrefix};
ghost use Rattle.alm_history.specs.Kept.{added_in};

use crate::history_name::HistoryName;
use crate::marked::Marked;
use crate::one_writer::OneWriter;
use logbook::Seen;
use std::marker::{Model, PhantomData};

/// A prefix of a history that was seen: no bytes, however long. Contracts see it as its entries.
#[derive(Drop)]
pub struct HistoryPrefix<E, N: HistoryName> {
    pub(crate) seen: Seen<Marked<E>, u64, OneWriter>,
    of: PhantomData<N>,
}

impl<E, N: HistoryName> Model for HistoryPrefix<E, N> {
    ghost use Rattle.std.specs.Prelude.{◌≡◌, List};
    ghost use Rattle.alm_history.specs.Kept.{added_in};

    ghost Value = { List E };

    ghost view = { λ p. added_in p.seen.log };

    ghost invariant = { λ p. p.seen.book ≡ N.book };
}

impl<E, N: HistoryName> HistoryPrefix<E, N> {
    // What was seen.
    pub(crate) fn new(seen: Seen<Marked<E>, u64, OneWriter>) -> HistoryPrefix<E, N>
        requires { seen.book ≡ N.book }
        ensures { result ≡ added_in seen.log }
    {
        HistoryPrefix {
            seen,
            of: PhantomData,
        }
    }

    /// The same prefix.
    pub fn again(&self) -> HistoryPrefix<E, N>
        ensures { result ≡ self.now }
    {
        HistoryPrefix {
            seen: self.seen.again(),
            of: PhantomData,
        }
    }

    /// A prefix that begins with both. So of two prefixes the shorter begins the longer.
    pub fn joined(&self, other: &HistoryPrefix<E, N>) -> HistoryPrefix<E, N>
        ensures this { IsPrefix self.now result }
        ensures that { IsPrefix other.now result }
    {
        let mut seen = self.seen.again();
        seen.learn(&other.seen);
        HistoryPrefix {
            seen,
            of: PhantomData,
        }
    }
}
