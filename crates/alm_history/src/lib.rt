//! A list that one writer adds to, and of which any thread may have seen a prefix. It exists in proofs alone: what threads share is
//! one word.
//!
//! ```text
//! let writer = NewHistory::<E>::new().named::<N>()?;
//! writer.add::<X, M>(&value);
//! let seen = writer.seen();
//! ```
//!
//! | name | is |
//! |---|---|
//! | [`HistoryName`] | which history it is: what is known of two histories never meets |
//! | [`HistoryPrefix`] | a prefix that was seen: no bytes, however long |
//! | [`HistoryWriter`] | the one writer, which has seen all of it |
//! | [`Adds`] | which entry a value adds |
//! | [`NewHistory`] | a history before it has a name |
//!
//! What is used above: of two prefixes one begins with the other. An addition never fails, since nobody else can add anything. For
//! each entry the writer uses up the pen of a word of the book, and the entry names the word whose pen the next one takes. A pen can't
//! be copied, and the book's rule wants it. So the writer's list is the history, and not only a prefix of it.
//!
//! Not covered: which entry is added when. The owner of the writer says so.
//!
//! Proved:
//! - the writer's list grows by each entry that it adds, and by nothing else; no addition is refused (by `HistoryWriter::add`)
//! - two prefixes that were seen are prefixes of one list (by `HistoryPrefix::joined`)
#![tactic(auto)]

mod addition;
mod adds;
mod begins_history;
mod history_name;
mod history_prefix;
mod history_writer;
mod marked;
mod new_history;
mod one_writer;
mod takes_pen;
mod takes_turn;
mod trades_nothing;

pub use adds::Adds;
pub use history_name::HistoryName;
pub use history_prefix::HistoryPrefix;
pub use history_writer::HistoryWriter;
pub use marked::Marked;
pub use new_history::NewHistory;
pub use one_writer::OneWriter;
