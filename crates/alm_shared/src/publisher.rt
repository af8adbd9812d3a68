//! The publisher of a value to readers in other threads.
ghost use Rattle.std.specs.Prelude.{◌≡◌, ◌^◌, ◌<◌, [], drop, fold, IfOk, IsOk, OnErr, OnOk};

use crate::next_shown::NextShown;
use crate::reader_sight::ReaderSight;
use crate::readers_rule::ReadersRule;
use crate::shows_next::ShowsNext;
use alm_types::LoggedAction;
use core::mem::replace_with;
use left_right::Absorb;
use left_right::reader::Reader;
use left_right::writer::Writer;
use std::alloc::{AllocError, Global};
use std::sync::Wait;

/// Shows a value to readers in other threads, by `left_right`. Operations are handed over one by one, and shown together by a
/// turn, which borrows the handle that it waits by. It isn't `Drop`: end it by [`Publisher::take`].
pub struct Publisher<T: Absorb<O, State = [LoggedAction; 0]> + Drop, O: Drop, X: NextShown, Y> {
    writer: Writer<T, O, ReaderSight, ReadersRule>,
    /// What the owner keeps next to it: it knows what the next turn shows.
    pub owner: X,
    /// What else the owner keeps: no call changes it.
    pub extra: Y,
    pub ghost leads: { fold T.applied (T.state writer.desk.shown.value)
        (drop writer.behind writer.log.items) ≡ X.next_shown owner },
}

// Shows all that was handed over, or the same as before if out of memory.
fn show_next<T: Absorb<O, State = [LoggedAction; 0]> + Drop, O: Drop, R: Wait>(
    rt: &R,
    writer: Writer<T, O, ReaderSight, ReadersRule>,
) -> (
    Writer<T, O, ReaderSight, ReadersRule>,
    Result<(), AllocError>,
)
    ensures succeeds { T.never_fails → IsOk result.1 }
    ensures ok { OnOk result.1
        ((T.state result.0.desk.shown.value ≡
        fold T.applied (T.state writer.desk.shown.value) (drop writer.behind writer.log.items)) ×
        (drop result.0.behind result.0.log.items ≡ [])) }
    ensures err { OnErr result.1
        ((result.0.desk.shown.value ≡ writer.desk.shown.value) ×
        (drop result.0.behind result.0.log.items ≡ drop writer.behind writer.log.items)) }
{
    writer.publish_as::<ShowsNext, R>(rt)
}

impl<T: Absorb<O, State = [LoggedAction; 0]> + Drop, O: Drop, X: NextShown, Y> Publisher<
    T,
    O,
    X,
    Y,
> {
    ghost use Rattle.std.specs.Prelude.{◌≡◌, IsOk, OnOk, OnErr, MatchResult};
    ghost use Rattle.alm_shared.specs.Publishers.{published};

    /// Shows the first of two equal values; `readers` is the largest number of readers.
    pub fn new(
        alloc: Global,
        first: T,
        second: T,
        readers: usize,
        owner: X,
        extra: Y,
    ) -> Result<Publisher<T, O, X, Y>, AllocError>
    where
        X: Drop,
        Y: Drop,
        requires readers { (0 < readers) × (readers < 2 ^ 32) }
        requires alike { T.state first ≡ T.state second }
        requires next_shown { X.next_shown owner ≡ T.state first }
        ensures { IfOk result (λ p. (published p ≡ first) × (p.owner ≡ owner) × (p.extra ≡ extra)) }
    {
        let writer = Writer::new(alloc, first, second, readers)?;
        Ok(Publisher {
            writer,
            owner,
            extra,
        })
    }

    /// A reader that hasn't looked yet. An error if out of memory, or if all `readers` are taken.
    pub fn reader(&self) -> Result<Reader<T, ReaderSight, ReadersRule>, AllocError> {
        self.writer.factory().reader()
    }

    /// What readers take now.
    pub fn shown(&self) -> &T
        ensures { result.now ≡ published self.now }
    {
        self.writer.published()
    }

    /// Hands over an operation. It is returned if out of memory.
    pub fn append(&mut self, op: O, owner: X) -> Result<(), (O, X)>
    where
        X: Drop,
        requires { X.next_shown owner ≡ T.applied (X.next_shown self.old.owner) op }
        ensures published { published self.new ≡ published self.old }
        ensures extra { self.new.extra ≡ self.old.extra }
        ensures owner { MatchResult result (λ _. self.new.owner ≡ owner)
            (λ x. (x.0 ≡ op) × (x.1 ≡ owner) × (self.new.owner ≡ self.old.owner)) }
    {
        match self.writer.append(op) {
            Ok(()) => {
                self.owner = owner;
                Ok(())
            }
            Err(op) => Err((op, owner)),
        }
    }

    /// Shows all that was handed over, or the same as before if out of memory. It waits for readers of the older value.
    pub fn turn<R: Wait>(&mut self, rt: &R) -> Result<(), AllocError>
        ensures owner { (self.new.owner ≡ self.old.owner) × (self.new.extra ≡ self.old.extra) }
        ensures succeeds { T.never_fails → IsOk result }
        ensures ok { OnOk result (T.state (published self.new) ≡ X.next_shown self.old.owner) }
        ensures err { OnErr result (published self.new ≡ published self.old) }
    {
        replace_with(&mut self.writer, rt, |writer, rt| { show_next(rt, writer) })
    }

    /// Ends it, and returns what was shown last. It waits for readers of that value.
    pub fn take<R: Wait>(self, rt: &R) -> (Box<T>, X, Y)
        ensures { (result.0.value ≡ published self) × (result.1 ≡ self.owner) ×
            (result.2 ≡ self.extra) }
    {
        let Self {
            writer,
            owner,
            extra,
        } = self;
        (writer.take(rt), owner, extra)
    }
}
