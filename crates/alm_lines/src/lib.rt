//! Request lines and reply lines: the texts that pass between a console and the server.
//!
//! A line ends with LF. One space separates two fields; there is none at either end of the line:
//!
//! ```text
//! <id> ACK <alarm>            <id> RESET <alarm>
//! <id> SHELVE <alarm> <secs>  <id> UNSHELVE <alarm>
//! <id> OOS <alarm> ON|OFF     <id> DESIGN <alarm> ON|OFF
//! <id> PRIO <alarm> <num>     <id> SETP <alarm> <value>
//! <id> VAL <alarm> <value>    <id> CLOCK <moment>
//! <id> STATE <alarm>          <id> LIST P|A|S <number>
//! <id> FLOOD <area>           <id> STALE
//! <id> CHATTER                <id> PLANT
//! <id> ATTR <alarm>           <id> ROW <alarm>
//! <id> ACK <alarm> <stamp>    <id> SINCE [<n>]
//! ```
//!
//! `id`, `alarm`, `secs`, `num`, `number` and `area` are decimal digits up to 4294967295 without a leading zero; `moment` is
//! below 2^40, `stamp` below 2^63; `n` is at most 2^48; `value` is from -10^12 to 10^12, never `-0`.
//!
//! A line that has more than 128 bytes, its LF included, is a `LineTooLong` with id 0. It is answered when its LF
//! comes. Every line that is neither too long nor one of the above is a `BadLine`. Its id is the one at its start, if a
//! space or the end of the line follows, and 0 otherwise.
//!
//! What is used above: a [`Decoder`] gives the lines of the stream that it was fed, however the stream was cut, and
//! [`print_reply`] writes exactly a reply's text. No call here takes memory. Not covered: whether an action is admitted. Lines
//! and texts are this project's own.
//!
//! Proved:
//! - lines are those of the stream, however it is cut; each request has exactly one text, a reply exactly its own (by
//!   `Decoder::feed`, `line_of`, `print_reply`)
#![tactic(auto)]

mod ask;
mod attributes;
mod decoder;
mod events;
mod grammar;
mod held_line;
pub mod laws;
mod line;
mod numbers;
mod part;
mod printing;
mod reply;
mod rows;
mod short_text;
mod writing;

pub use ask::Ask;
pub use attributes::{ATTRIBUTE_PARTS, attribute_parts};
pub use decoder::Decoder;
pub use events::{EVENT_PARTS, HEAD_PARTS, event_parts, since_head};
pub use grammar::{LINE_LIMIT, cut, line_of};
pub use held_line::HeldLine;
pub use line::Line;
pub use numbers::number;
pub use part::{Part, put_parts};
pub use printing::{letters, print_reply, print_told, query_word, shown_word};
pub use reply::Reply;
pub use rows::{ROW_PARTS, row_parts};
pub use writing::put;
