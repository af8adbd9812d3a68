//! The one writer of a history.
ghost use Rattle.std.specs.Prelude.{◌≡◌, ◌<◌, ◌++◌, ◌∷◌, [], length};
ghost use Rattle.logbook.specs.Pages.{nib, may_write};
ghost use Rattle.alm_history.specs.Kept.{added_in, first_word, next_key};

use crate::addition::Addition;
use crate::adds::Adds;
use crate::begins_history::BeginsHistory;
use crate::history_name::HistoryName;
use crate::history_prefix::HistoryPrefix;
use crate::marked::Marked;
use crate::one_writer::OneWriter;
use crate::takes_pen::TakesPen;
use crate::takes_turn::TakesTurn;
use crate::trades_nothing::TradesNothing;
use logbook::{Offer, Pen, Seen, Word};
use std::marker::{Model, PhantomData};

/// The one writer of a history. Contracts see it as all the entries.
#[derive(Drop)]
pub struct HistoryWriter<E, N: HistoryName> {
    head: Word<Marked<E>, u64, OneWriter>,
    seen: Seen<Marked<E>, u64, OneWriter>,
    // Of the word that the last entry names.
    pen: Pen,
    of: PhantomData<N>,
}

impl<E, N: HistoryName> Model for HistoryWriter<E, N> {
    ghost use Rattle.std.specs.Prelude.{◌≡◌, ◌<◌, List, length};
    ghost use Rattle.logbook.specs.Pages.{nib, may_write};
    ghost use Rattle.alm_history.specs.Kept.{added_in, first_word, next_key};

    ghost Value = { List E };

    ghost view = { λ w. added_in w.seen.log };

    ghost invariant = { λ w. (w.seen.book ≡ N.book) × (w.pen.book ≡ N.book) ×
        (w.head ≡ first_word N.book) × (0 < length w.seen.log) ×
        (w.pen.nib ≡ nib may_write (next_key w.seen.log) 0) };
}

// A pen for a word that is new in the book. The word itself is needed by nobody.
pub(crate) fn take_pen<E>(
    head: &Word<Marked<E>, u64, OneWriter>,
    seen: &Seen<Marked<E>, u64, OneWriter>,
) -> Pen
    requires { head.now ≡ first_word seen.now.book }
    ensures book { result.book ≡ seen.now.book }
    ensures pen { (result.nib.right ≡ may_write) × (result.nib.value ≡ 0) }
{
    let mut seen = seen.again();
    let mut pen = seen.no_pen();
    let mut offer: Offer<Marked<E>, u64, OneWriter, TradesNothing> = seen.plain::<
        TradesNothing,
        Pen,
        BeginsHistory,
    >(&pen);
    head.compare_exchange::<TakesPen, TradesNothing>(0, 0, &mut seen, &mut offer, &mut pen);
    drop(Word::<Marked<E>, u64, OneWriter>::tracked(0, &mut pen));
    pen
}

impl<E, N: HistoryName> HistoryWriter<E, N> {
    // One that has begun its history.
    pub(crate) fn new(
        head: Word<Marked<E>, u64, OneWriter>,
        seen: Seen<Marked<E>, u64, OneWriter>,
        pen: Pen,
    ) -> HistoryWriter<E, N>
        requires seen { (seen.book ≡ N.book) × (0 < length seen.log) }
        requires pen { (pen.book ≡ N.book) × (pen.nib ≡ nib may_write (next_key seen.log) 0) }
        requires head { head ≡ first_word N.book }
        ensures { result ≡ added_in seen.log }
    {
        HistoryWriter {
            head,
            seen,
            pen,
            of: PhantomData,
        }
    }

    /// All the entries so far.
    pub fn seen(&self) -> HistoryPrefix<E, N>
        ensures { result ≡ self.now }
    {
        HistoryPrefix::new(self.seen.again())
    }

    /// Adds the entry of a value. Nobody else adds any, so it is never refused.
    pub fn add<X, M: Adds<X, E>>(&mut self, about: &X)
        ensures { self.new ≡ self.old ++ M.entry about.now ∷ [] }
    {
        let next = take_pen(&self.head, &self.seen);
        let mut offer: Offer<Marked<E>, u64, OneWriter, TradesNothing> = self
            .seen
            .plain::<TradesNothing, Addition<'_, X>, TakesTurn<M>>(&Addition {
                about,
                next: &next,
            });
        self.head
            .compare_exchange::<TakesTurn<M>, TradesNothing>(
                1,
                1,
                &mut self.seen,
                &mut offer,
                &mut self.pen,
            );
        self.pen = next;
    }
}
