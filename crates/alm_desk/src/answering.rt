//! The answer to a line.

ghost use Rattle.std.specs.Prelude.{◌≡◌, OnOk, OnErr};
ghost use Rattle.alm_types.specs.Counts.{one_more};
ghost use Rattle.alm_lines.specs.Reply.{text_of};
ghost use Rattle.alm_lines.specs.Written.{Prints};
ghost use Rattle.alm_desk.specs.Answers.{reply, after_line, answered_at};
ghost use Rattle.alm_desk.specs.Backends.{IsMomentOf};
ghost use Rattle.alm_desk.specs.Standings.{standing_with};
ghost use Rattle.alm_lines.specs.declared.ask.Ask.TheVariants.{Act, Look, Recall};

use crate::backend::Backend;
use crate::counted_writer::CountedWriter;
use crate::hindrance::Hindrance;
use crate::notebook::Notebook;
use crate::stopped::Stopped;
use crate::write_failed::WriteFailed;
use alm_lines::{Ask, Line, Reply};
use alm_types::{Query, Refusal, Request, Slot, Verdict, Want};
use std::io::Write;

/// Submits an action: the reply, and what hindered it.
fn act<B: Backend>(
    backend: &mut B,
    notebook: &mut Notebook,
    slot: Slot,
    id: u32,
    want: Want,
) -> (Reply<'static>, Hindrance)
    requires { IsMomentOf (B.stands backend.old) notebook.old.moment }
    ensures text { text_of result.0 ≡
        reply (standing_with B.Backend backend.old notebook.old)
        (answered_at slot (record { id = id; ask = Act want }) result.1) }
    ensures standing { standing_with B.Backend backend.new notebook.new ≡
        after_line (standing_with B.Backend backend.old notebook.old)
        (answered_at slot (record { id = id; ask = Act want }) result.1) }
    ensures moment { IsMomentOf (B.stands backend.new) notebook.new.moment }
{
    let request = Request { slot, want };
    match backend.submit(&request) {
        Ok(judged) => {
            let n = judged.number;
            match judged.verdict {
                Verdict::Accepted(action) => {
                    notebook.remember(slot, action);
                    (Reply::Ok { id, n }, Hindrance::Nothing)
                }
                Verdict::Refused(refusal, _) => (Reply::No { id, refusal }, Hindrance::Nothing),
            }
        }
        Err(Stopped) => {
            let refusal = Refusal::Stopped;
            (Reply::No { id, refusal }, Hindrance::Stopped)
        }
    }
}

/// Answers a query and writes the reply: what hindered it, and how the writing ended.
fn answer_query<B: Backend, W: Write + Drop>(
    backend: &mut B,
    notebook: &mut Notebook,
    slot: Slot,
    id: u32,
    query: Query,
    writer: &mut CountedWriter<W>,
) -> (Hindrance, Result<(), WriteFailed>)
    requires { IsMomentOf (B.stands backend.old) notebook.old.moment }
    ensures text { Prints (W.contents writer.old.inner) (W.contents writer.new.inner)
        (reply (standing_with B.Backend backend.old notebook.old)
        (answered_at slot (record { id = id; ask = Look query }) result.0)) result.1 }
    ensures standing { standing_with B.Backend backend.new notebook.new ≡
        after_line (standing_with B.Backend backend.old notebook.old)
        (answered_at slot (record { id = id; ask = Look query }) result.0) }
    ensures moment { IsMomentOf (B.stands backend.new) notebook.new.moment }
    ensures whole { OnOk result.1 (writer.new.failed ≡ writer.old.failed) }
    ensures failed { OnErr result.1 (writer.new.failed ≡ one_more writer.old.failed) }
{
    match backend.ask(query, &mut notebook.answer) {
        Ok(n) => {
            let told = Reply::Told {
                id,
                n,
                query,
                answer: &notebook.answer,
            };
            (Hindrance::Nothing, writer.reply(&told))
        }
        Err(Refusal::OutOfMemory) => {
            let refusal = Refusal::OutOfMemory;
            (
                Hindrance::NoMemory,
                writer.reply(&Reply::No { id, refusal }),
            )
        }
        Err(refusal) => (Hindrance::Nothing, writer.reply(&Reply::No { id, refusal })),
    }
}

/// Reports what happened after a number, and writes the reply: what hindered it, and how the writing ended.
fn answer_recall<B: Backend, W: Write + Drop>(
    backend: &mut B,
    notebook: &mut Notebook,
    slot: Slot,
    id: u32,
    after: Option<u64>,
    writer: &mut CountedWriter<W>,
) -> (Hindrance, Result<(), WriteFailed>)
    requires { IsMomentOf (B.stands backend.old) notebook.old.moment }
    ensures text { Prints (W.contents writer.old.inner) (W.contents writer.new.inner)
        (reply (standing_with B.Backend backend.old notebook.old)
        (answered_at slot (record { id = id; ask = Recall after }) result.0)) result.1 }
    ensures standing { standing_with B.Backend backend.new notebook.new ≡
        after_line (standing_with B.Backend backend.old notebook.old)
        (answered_at slot (record { id = id; ask = Recall after }) result.0) }
    ensures moment { IsMomentOf (B.stands backend.new) notebook.new.moment }
    ensures whole { OnOk result.1 (writer.new.failed ≡ writer.old.failed) }
    ensures failed { OnErr result.1 (writer.new.failed ≡ one_more writer.old.failed) }
{
    match backend.ask(Query::Plant, &mut notebook.answer) {
        Ok(n) => {
            let len = notebook.recent.len() as u64;
            let after = after.unwrap_or(n.saturating_sub(len));
            if !notebook.recent.recall(n, after, &mut notebook.events) {
                let refusal = Refusal::Forgotten;
                return (Hindrance::Nothing, writer.reply(&Reply::No { id, refusal }));
            }
            let told = Reply::Recalled {
                id,
                n,
                first: after.saturating_add(1),
                events: &notebook.events,
            };
            (Hindrance::Nothing, writer.reply(&told))
        }
        Err(refusal) => (Hindrance::Nothing, writer.reply(&Reply::No { id, refusal })),
    }
}

/// Does what a line asks and writes the reply: what hindered it, and how the writing ended.
pub fn answer_line<B: Backend, W: Write + Drop>(
    backend: &mut B,
    notebook: &mut Notebook,
    slot: Slot,
    line: Line,
    writer: &mut CountedWriter<W>,
) -> (Hindrance, Result<(), WriteFailed>)
    requires { IsMomentOf (B.stands backend.old) notebook.old.moment }
    ensures text { Prints (W.contents writer.old.inner) (W.contents writer.new.inner)
        (reply (standing_with B.Backend backend.old notebook.old)
        (answered_at slot line result.0)) result.1 }
    ensures standing { standing_with B.Backend backend.new notebook.new ≡
        after_line (standing_with B.Backend backend.old notebook.old)
        (answered_at slot line result.0) }
    ensures moment { IsMomentOf (B.stands backend.new) notebook.new.moment }
    ensures whole { OnOk result.1 (writer.new.failed ≡ writer.old.failed) }
    ensures failed { OnErr result.1 (writer.new.failed ≡ one_more writer.old.failed) }
{
    let id = line.id;
    match line.ask {
        Ask::Act(want) => {
            let (reply, hindrance) = act(backend, notebook, slot, id, want);
            (hindrance, writer.reply(&reply))
        }
        Ask::Look(query) => answer_query(backend, notebook, slot, id, query, writer),
        Ask::Recall(after) => answer_recall(backend, notebook, slot, id, after, writer),
        Ask::Bad(refusal) => (Hindrance::Nothing, writer.reply(&Reply::No { id, refusal })),
    }
}
