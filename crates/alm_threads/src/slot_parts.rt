//! What the threads of the slots use.
ghost use Rattle.std.specs.Prelude.{◌≡◌, ◌≤◌, ℕ, [], length, map, slice_get, Some, vec_capacity};

use crate::source::Source;
use alm_board::Look;
use alm_rings::{Console, Told};

/// What the thread of a slot uses. A source that was made for one slot has the console of that slot.
#[derive(Drop)]
pub struct SlotParts<T: Told + Drop, L: Look<Told = T> + Drop, S: Source<T, L> + Drop> {
    pub console: Console<T>,
    pub look: L,
    pub source: S,
    pub ghost own: { (n : ℕ) → S.slot source ≡ Some n → console.slot ≡ n },
}

/// The parts of each slot, in their order, in a list that has room for them.
pub fn slot_parts_of<T: Told + Drop, L: Look<Told = T> + Drop, S: Source<T, L> + Drop>(
    mut slot_parts: Vec<SlotParts<T, L, S>>,
    consoles: Vec<Console<T>>,
    looks: Vec<L>,
    sources: Vec<S>,
) -> Vec<SlotParts<T, L, S>>
    requires room { (slot_parts.items ≡ []) × (length consoles.items ≤ vec_capacity slot_parts) }
    requires looks { length looks.items ≡ length consoles.items }
    requires sources { length sources.items ≡ length consoles.items }
    requires place { (k n : ℕ) (s : _) → slice_get sources.items k ≡ Some s → S.slot s ≡ Some n →
        slice_get (map (λ c. c.slot) consoles.items) k ≡ Some n }
    ensures consoles { map (λ p. p.console) result.items ≡ consoles.items }
    ensures looks { map (λ p. p.look) result.items ≡ looks.items }
    ensures sources { map (λ p. p.source) result.items ≡ sources.items }
{
    let mut looks = looks.into_iter();
    let mut sources = sources.into_iter();
    for console in consoles {
        match (looks.next(), sources.next()) {
            (Some(look), Some(source)) => {
                slot_parts.push_reserved(SlotParts {
                    console,
                    look,
                    source,
                });
            }
            _ => unreachable!(),
        }
    }
    slot_parts
}
