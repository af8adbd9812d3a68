//! One slot's connection over a wire that never waits.
//!
//! ```text
//! let mut session = Session::new(alloc)?;
//! let turn = session.turn(&mut wire, &mut console, &mut look);
//! let all = drain(&mut console, &mut look);
//! ```
//!
//! A [`Session`] does in one turn the first of these that can be done without waiting:
//!
//! | step | if | the turn |
//! |---|---|---|
//! | receives a receipt, learns what it reports, and prints the reply to the oldest action that waits, if it is of that one | the ring knows a receipt | [`Turn::Went`] |
//! | writes once | there are replies to write | Went, Idle if the write is blocked, Fault if it fails |
//! | sends the action of the line that is held | a line is held | Went, Idle if it has to wait |
//! | answers the query or the bad line that is held, or reports what happened | a line is held, no action waits | Went |
//! | reads once | no line is held | Went, Idle if the read is blocked, Ended at the end, Fault if it fails |
//!
//! So replies are written in the order of their lines, and by the time of a look all receipts before it were learnt. While there
//! are replies to write no line is taken, and while a whole line is held the wire is not read: a client that doesn't read isn't
//! read either.
//!
//! | what a session holds | room |
//! |---|---|
//! | bytes that were read | 4,096 |
//! | the line that hasn't ended | 128 |
//! | actions that wait for their receipts | 64 |
//! | replies that aren't written | 131,072 |
//! | events of a reply | 256 |
//!
//! What is used above: [`Session::turn`], by the relation `IsTurn` between the slot's side before and after. The law
//! [`laws::turns_answer_all_lines`] derives from it what a whole connection is. [`drain`] drops what a lost connection leaves.
//! [`Wire`] is what a socket is to a session, [`MemWire`] one in memory.
//!
//! Not covered: time, and that the receipt of a request ever comes. One of another request than the oldest that waits answers no line;
//! the flusher releases none such.
//!
//! Proved:
//! - over any wire, lines are answered in order: a query by one look of that turn, with all reported before, and SINCE by such a look
//!   too (by `Session::turn`, `Wire`, `MemWire`, `laws`)
//! - **an action is answered by the receipt of its own request. After `OK n` its line's action stands at number n of the list that
//!   the receipt reports, as that of this request** (by `Session::turn`)
//! - it reads only when no reply and no line waits; a held action waits only if 64 are unanswered, the ring knew no place,
//!   or serials are spent (by `Session::turn`)
//! - a query is out of memory only if a growth was refused, or for more than 131,072 bytes, which no plant that keeps the
//!   rules needs (by `Session::turn`)
//! - draining takes all that its ring knows, and says when no request is unanswered (by `drain`)
#![tactic(auto)]

mod draining;
mod intake;
pub mod laws;
mod mem_wire;
mod output;
mod session;
mod since;
mod told;
mod turn;
mod unanswered;
mod wire;

pub use draining::drain;
pub use intake::Intake;
pub use mem_wire::MemWire;
pub use output::{Output, Sent};
pub use session::Session;
pub use turn::Turn;
pub use unanswered::Unanswered;
pub use wire::{ReadGave, Wire, WriteTook};
