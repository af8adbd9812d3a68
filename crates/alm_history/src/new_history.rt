//! A history before it has a name.
ghost use Rattle.std.specs.Prelude.{◌≡◌, [], IfSome};
ghost use Rattle.alm_history.specs.Kept.{first_word};

use crate::begins_history::BeginsHistory;
use crate::history_name::HistoryName;
use crate::history_writer::{HistoryWriter, take_pen};
use crate::marked::Marked;
use crate::one_writer::OneWriter;
use crate::trades_nothing::TradesNothing;
use logbook::{Offer, Pen, Seen, Start, Word};

/// A history that has not begun, before it has a name.
#[derive(Drop)]
pub struct NewHistory<E> {
    head: Word<Marked<E>, u64, OneWriter>,
    pub seen: Seen<Marked<E>, u64, OneWriter>,
    pub ghost empty: { seen.log ≡ [] },
    pub ghost head_is: { head ≡ first_word seen.book },
}

impl<E> NewHistory<E> {
    /// A history of its own.
    pub fn new() -> NewHistory<E> {
        let (seen, mut first, _second) = Seen::open(Start::alone(), 0, 0);
        NewHistory {
            head: Word::tracked(0, &mut first),
            seen,
        }
    }

    /// Its writer, under a name. `None` if somebody else has begun it. Nobody else has its word, so it never comes.
    pub fn named<N: HistoryName>(self) -> Option<HistoryWriter<E, N>>
        requires { self.seen.book ≡ N.book }
        ensures { IfSome result (λ writer. writer ≡ []) }
    {
        let NewHistory { head, mut seen } = self;
        let next = take_pen(&head, &seen);
        let mut offer: Offer<Marked<E>, u64, OneWriter, TradesNothing> = seen.plain::<
            TradesNothing,
            Pen,
            BeginsHistory,
        >(&next);
        let mut pen = seen.no_pen();
        let found = head.compare_exchange::<BeginsHistory, TradesNothing>(
            0, 1, &mut seen, &mut offer, &mut pen,
        );
        if found != 0 {
            return None;
        }
        Some(HistoryWriter::new(head, seen, next))
    }
}
