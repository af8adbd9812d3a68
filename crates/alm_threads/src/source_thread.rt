//! A source's thread.
ghost use Rattle.std.specs.Prelude.{◌≡◌, ℕ, Some};
ghost use Rattle.alm_rings.specs.Ends.{SameConsole};
ghost use Rattle.alm_threads.specs.Sources.{Accounts, source_state};

use crate::go::Go;
use crate::source::Source;
use crate::source_end::SourceEnd;
use alm_board::Look;
use alm_rings::{Console, Told};
use alm_wake::{Bell, Flags};
use std::sync::Wait;

/// Takes turns until the source ends or `stop` is set. The sequencer is woken after a turn that may have sent something, the
/// flusher after one that may have received something that it waits for. Nothing but its turns sends or receives at the console.
pub fn run_source<
    T: Told + Drop,
    L: Look<Told = T> + Drop,
    S: Source<T, L> + Drop,
    B: Bell + Drop,
    R: Wait,
>(rt: &R, flags: &Flags<B>, console: Console<T>, look: L, source: S) -> SourceEnd<T, S>
    requires slot { (n : ℕ) → S.slot source ≡ Some n → console.slot ≡ n }
    ensures same { SameConsole console result.console }
    ensures accounts { Accounts S.did (source_state source look console) result.source result.console }
{
    let mut console = console;
    let mut look = look;
    let mut source = source;
    let mut idle: u32 = 0;
    for _ in rt.forever() {
        if flags.is_stopped() {
            break;
        }
        let before = console.unanswered();
        let go = source.turn(&mut console, &mut look);
        let after = console.unanswered();
        // A slot that rests wakes no thread.
        let went = go != Go::Rest || after != before;
        if went && after > 0 {
            flags.send(console.slot());
        }
        if went && before > 0 {
            flags.receive();
        }
        match go {
            Go::Go => idle = 0,
            Go::Rest => {
                flags.rest(rt, console.slot(), idle);
                idle = idle.saturating_add(1);
            }
            Go::End => break,
        }
    }
    flags.end_source();
    SourceEnd { console, source }
}
