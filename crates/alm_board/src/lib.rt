//! The published plant: what readers see.
//!
//! ```text
//! let mut board = PlainBoard::new(plant); let mut look = board.looker(seen);
//! board.publish(&(), &(), &batch)?; look.learn(receipt);
//! let count = look.look(query, &mut answer)?;
//! ```
//!
//! | name | is |
//! |---|---|
//! | [`Board`] | what is published: its list goes into receipts |
//! | [`Publish`], [`Voucher`] | shows one more batch, or the same as before; what vouches for the list that is shown |
//! | [`Look`] | one slot's view of it: it asks queries, and learns the lists of receipts |
//! | [`FreeLook`] | one that may learn any receipt of its type |
//! | [`Recall`] | one that reports what happened |
//! | [`PlainBoard`], [`PlainLook`], [`PlainTold`] | the board within one thread |
//!
//! What is used above: a look shows the plant of a list of published actions, with its count. Earlier looks by the same reader
//! saw prefixes of that list, and each receipt that it learnt reported a prefix.
//!
//! Not covered: that a look sees the newest of what another thread has published, and time.
//!
//! Proved:
//! - a look shows a prefix of the published list, which contains all that this reader saw and that its receipts reported
//!   (by `Board::tell`, `Publish::publish`, `Look::look`, `learn`)
#![tactic(auto)]

mod board;
mod free_look;
mod log;
mod look;
mod plain_board;
mod plain_look;
mod plain_told;
mod recall;
mod seen;
mod voucher;

pub use board::{Board, Publish};
pub use free_look::FreeLook;
pub use log::Log;
pub use look::Look;
pub use plain_board::PlainBoard;
pub use plain_look::PlainLook;
pub use plain_told::PlainTold;
pub use recall::Recall;
pub use seen::Seen;
pub use voucher::Voucher;
