//! Starts the sources, and joins them.
ghost use Rattle.std.specs.Prelude.{◌≡◌, ◌≤◌, ℕ, [], map, IfOk, Some, vec_len, vec_capacity};
ghost use Rattle.alm_rings.specs.Ends.{SameConsole};
ghost use Rattle.alm_threads.specs.Same.{AllSame};
ghost use Rattle.alm_threads.specs.Sources.{Accounts, AllAccount, source_state};

use crate::joined_threads::JoinedThreads;
use crate::slot_parts::SlotParts;
use crate::source::Source;
use crate::source_back::SourceBack;
use crate::source_end::SourceEnd;
use crate::source_thread::run_source;
use crate::start_fault::StartFault;
use alm_board::Look;
use alm_rings::{Console, Told};
use alm_wake::{Bell, Flags};
use std::alloc::Global;
use std::snapshot::Snapshot;
use std::sync::Wait;
use std::thread::{PromisedHandle, Scope, Threads};

type Handle<T, L, S> = PromisedHandle<SourceEnd<T, S>, SourceBack<T, L, S>>;

/// Starts one source in a thread of its own.
pub fn start_one<
    's,
    E,
    T: Told + Drop + Send,
    L: Look<Told = T> + Drop + Send,
    S: Source<T, L> + Drop + Send,
    B: Bell + Drop + Sync,
    R: Wait + Sync,
>(
    scope: &Scope<'s, E>,
    rt: &'s R,
    flags: &'s Flags<B>,
    own: SlotParts<T, L, S>,
) -> Result<Handle<T, L, S>, StartFault>
where
    T: 's,
    L: 's,
    S: 's,
    B: 's,
    ensures { IfOk result (λ handle. handle.promise.0.value ≡ own) }
{
    let promise = SourceBack(Snapshot::of(&own));
    let SlotParts {
        console,
        look,
        source,
    } = own;
    match scope.spawn_with(
        promise,
        move || -> SourceEnd<T, S>
            requires { (n : ℕ) → S.slot source ≡ Some n → console.slot ≡ n }
            ensures same { SameConsole console result.console }
            ensures accounts { Accounts S.did (source_state source look console) result.source
                result.console }
        { run_source(rt, flags, console, look, source) },
    ) {
        Ok(handle) => Ok(handle),
        Err(_) => Err(StartFault::NoThread),
    }
}

/// Starts each source in a thread of its own, in order. At a fault those that run are stopped.
pub fn start_all<
    's,
    E,
    T: Told + Drop + Send,
    L: Look<Told = T> + Drop + Send,
    S: Source<T, L> + Drop + Send,
    B: Bell + Drop + Sync,
    R: Wait + Sync,
>(
    scope: &Scope<'s, E>,
    rt: &'s R,
    alloc: Global,
    flags: &'s Flags<B>,
    slot_parts: Vec<SlotParts<T, L, S>>,
) -> Result<Vec<Handle<T, L, S>>, StartFault>
where
    T: 's,
    L: 's,
    S: 's,
    B: 's,
    ensures len { IfOk result (λ handles. vec_len handles ≡ vec_len slot_parts) }
    ensures each { IfOk result
        (λ handles. map (λ h. h.promise.0.value) handles.items ≡ slot_parts.items) }
{
    let mut handles = match Vec::with_capacity(alloc, slot_parts.len()) {
        Ok(handles) => handles,
        Err(_) => {
            flags.stop_all();
            return Err(StartFault::OutOfMemory);
        }
    };
    for own in slot_parts {
        match start_one(scope, rt, flags, own) {
            Ok(handle) => handles.push_reserved(handle),
            Err(fault) => {
                flags.stop_all();
                return Err(fault);
            }
        }
    }
    Ok(handles)
}

/// Joins them in the order of the slots. Takes no memory: the consoles and the sources go into `room`.
pub fn join_all<T: Told + Drop, L: Look<Told = T> + Drop, S: Source<T, L> + Drop, R: Threads>(
    rt: &R,
    handles: Vec<Handle<T, L, S>>,
    room: JoinedThreads<T, S>,
) -> JoinedThreads<T, S>
    requires consoles { (room.consoles.items ≡ []) × (vec_len handles ≤ vec_capacity room.consoles) }
    requires sources { (room.sources.items ≡ []) × (vec_len handles ≤ vec_capacity room.sources) }
    ensures len { vec_len result.consoles ≡ vec_len handles }
    ensures each { AllSame (map (λ p. p.console) (map (λ h. h.promise.0.value) handles.items))
        result.consoles.items }
    ensures accounts { AllAccount S.did
        (map (λ p. source_state p.source p.look p.console) (map (λ h. h.promise.0.value) handles.items))
        result.sources.items result.consoles.items }
{
    let JoinedThreads {
        mut consoles,
        mut sources,
    } = room;
    for handle in handles {
        let end = handle.join(rt);
        consoles.push_reserved(end.console);
        sources.push_reserved(end.source);
    }
    JoinedThreads { consoles, sources }
}
