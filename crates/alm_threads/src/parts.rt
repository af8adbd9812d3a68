//! What a run is made of.
ghost use Rattle.std.specs.Prelude.{◌≡◌, ℕ, [], map, length, slice_get, Some, IsSome};
ghost use Rattle.rtrb.specs.Ring.{IsPair};
ghost use Rattle.alm_rings.specs.declared.console.Console.{Console};
ghost use Rattle.alm_rings.specs.declared.inbox.Inbox.{Inbox};
ghost use Rattle.alm_rings.specs.declared.outbox.Outbox.{Outbox};
ghost use Rattle.alm_rings.specs.Placed.{AreApart, inbox_at, outbox_at};
ghost use Rattle.alm_threads.specs.Serving.{ServesNoOthers};

use crate::closes::Closes;
use crate::flusher_parts::FlusherParts;
use crate::middle::Middle;
use alm_board::{Board, Look};
use alm_moments::RunId;
use alm_rings::{Console, Told};
use alm_store::Store;
use alm_types::Slot;
use std::sync::Wait;

/// What a run is made of: for each slot its console and its look, in the order of the slots, and what they share. It
/// isn't `Drop`, since a board isn't.
pub struct Parts<T: Told + Drop, L: Look<Told = T> + Drop, B: Board<Told = T>, K: Store, J: RunId> {
    pub slots: Vec<Slot>,
    pub consoles: Vec<Console<T>>,
    pub looks: Vec<L>,
    pub board: B,
    pub middle: Middle<K, T, J>,
    pub ghost apart: { AreApart (λ s. s) slots.items },
    pub ghost order: { map (λ c. c.slot) consoles.items ≡ slots.items },
    pub ghost each_looks: { length looks.items ≡ length slots.items },
    pub ghost base: { (K.state middle.flusher.store).stored ≡ B.base board },
    pub ghost published: { B.published board ≡ [] },
    pub ghost logged: { B.logged board ≡ [] },
    pub ghost pending: { B.pending board ≡ [] },
    pub ghost inboxes: { (k : ℕ) (c : Console _ _) → slice_get consoles.items k ≡ Some c →
        IsSome (inbox_at c.slot middle.rings.inboxes.items) },
    pub ghost only: { ServesNoOthers slots.items middle.rings.inboxes.items },
    pub ghost outboxes: { (k : ℕ) (c : Console _ _) → slice_get consoles.items k ≡ Some c →
        IsSome (outbox_at c.slot middle.flusher.outboxes.items) },
    pub ghost requests: { (k : ℕ) (c : Console _ _) (i : Inbox) →
        slice_get consoles.items k ≡ Some c → inbox_at c.slot middle.rings.inboxes.items ≡ Some i →
        IsPair c.requests i.requests },
    pub ghost replies: { (k : ℕ) (c : Console _ _) (o : Outbox _ _) →
        slice_get consoles.items k ≡ Some c →
        outbox_at c.slot middle.flusher.outboxes.items ≡ Some o → IsPair o.replies c.replies },
}

impl<T: Told + Drop, L: Look<Told = T> + Drop, B: Board<Told = T>, K: Store, J: RunId> Parts<
    T,
    L,
    B,
    K,
    J,
> {
    ghost use Rattle.std.specs.Prelude.{◌≡◌};

    /// Drops the parts: the board is closed.
    pub fn close<R: Wait>(self, rt: &R) -> K
    where
        B: Closes<R>,
        ensures { result ≡ self.middle.flusher.store }
    {
        let Parts {
            slots: _,
            consoles: _,
            looks: _,
            board,
            middle,
        } = self;
        board.close(rt);
        let Middle { flusher, .. } = middle;
        let FlusherParts { store, .. } = flusher;
        store
    }
}
