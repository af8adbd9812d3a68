//! All slots, with a source each.

ghost use Rattle.std.specs.Prelude.{◌≡◌, IfOk, length};
ghost use Rattle.alm_rings.specs.Placed.{AreApart};

use crate::asker::{Asker, Enough};
use crate::caller::Caller;
use crate::gate::Gate;
use crate::looker::Looker;
use crate::notes::Notes;
use crate::player::Player;
use crate::script::{Script, Step};
use alm_types::Slot;
use std::alloc::{AllocError, Global};
use std::sync::Arc;

/// All slots, in their order.
pub fn all_slots(alloc: Global) -> Result<Vec<Slot>, AllocError>
    ensures count { IfOk result (λ slots. length slots.items ≡ 18) }
    ensures apart { IfOk result (λ slots. AreApart (λ s. s) slots.items) }
{
    let mut slots = Vec::with_capacity(alloc, 18)?;
    for number in 0..18_u8 {
        match Slot::new(number) {
            Some(slot) => slots.push_reserved(slot),
            None => unreachable!(),
        }
    }
    Ok(slots)
}

/// A caller for each slot, with a number of requests; none if only another slot is to send.
pub fn callers(
    alloc: Global,
    slots: &[Slot],
    only: Option<Slot>,
    each: u64,
    notes: &Arc<Notes, Global>,
) -> Result<Vec<Player>, AllocError>
    ensures { IfOk result (λ callers. length callers.items ≡ length slots.now) }
{
    let mut callers = Vec::new(alloc);
    for place in 0..slots.len() {
        let slot = slots[place];
        let each = match only {
            Some(only) if only != slot => 0,
            _ => each,
        };
        let caller = Caller::new(alloc, slot, each, Arc::try_clone(notes)?);
        callers.push(Player::Caller(caller))?;
    }
    Ok(callers)
}

/// An asker for each slot, with a number of requests unanswered and in all.
pub fn askers(
    alloc: Global,
    slots: &[Slot],
    out: u64,
    each: u64,
    notes: &Arc<Notes, Global>,
) -> Result<Vec<Player>, AllocError>
    ensures { IfOk result (λ askers. length askers.items ≡ length slots.now) }
{
    let mut askers = Vec::new(alloc);
    for place in 0..slots.len() {
        let notes = Arc::try_clone(notes)?;
        let asker = Asker::new(slots[place], out, Enough::Requests(each), notes);
        askers.push(Player::Asker(asker))?;
    }
    Ok(askers)
}

/// The first consoles make some hundreds of looks each, while the feed asks until all have looked; the other slots do nothing.
pub fn lookers(
    alloc: Global,
    slots: &[Slot],
    readers: u8,
    hundreds: u64,
    notes: &Arc<Notes, Global>,
) -> Result<Vec<Player>, AllocError>
    ensures { IfOk result (λ lookers. length lookers.items ≡ length slots.now) }
{
    let all = Enough::Looks(u64::from(readers).wrapping_mul(hundreds).wrapping_mul(100));
    let mut lookers = Vec::new(alloc);
    for place in 0..slots.len() {
        let notes = Arc::try_clone(notes)?;
        let slot = slots[place];
        lookers.push(match slot.number() {
            16 => Player::Asker(Asker::new(slot, 64, all, notes)),
            number if number < readers => Player::Looker(Looker::new(alloc, hundreds, notes)),
            _ => Player::Looker(Looker::new(alloc, 0, notes)),
        })?;
    }
    Ok(lookers)
}

/// A script for each slot: the steps that are listed with it, and none if it isn't listed.
pub fn scripts(
    alloc: Global,
    slots: &[Slot],
    steps: &[(u8, Step)],
    gate: &Arc<Gate, Global>,
    notes: &Arc<Notes, Global>,
) -> Result<Vec<Player>, AllocError>
    ensures { IfOk result (λ scripts. length scripts.items ≡ length slots.now) }
{
    let mut scripts = Vec::new(alloc);
    for place in 0..slots.len() {
        let steps = steps_of(alloc, slots[place], steps)?;
        let gate = Arc::try_clone(gate)?;
        let script = Script::new(alloc, steps, gate, Arc::try_clone(notes)?)?;
        scripts.push(Player::Script(script))?;
    }
    Ok(scripts)
}

/// The steps that are listed with a slot.
fn steps_of(alloc: Global, slot: Slot, steps: &[(u8, Step)]) -> Result<Vec<Step>, AllocError> {
    let mut own = Vec::new(alloc);
    for (number, step) in steps {
        if *number == slot.number() {
            own.push(*step)?;
        }
    }
    Ok(own)
}
