//! Which slot may ask for what.

ghost use Rattle.std.specs.Prelude.{◌≡◌};
ghost use Rattle.alm_types.specs.Slots.{role_of};
ghost use Rattle.alm_model.specs.Accept.{may_ask};

use alm_types::{Action, Role, Slot};

/// Whether a slot may ask for an action.
pub fn may_ask(slot: Slot, action: &Action) -> bool
    ensures { result ≡ may_ask (role_of slot) action.now }
{
    match (slot.role(), action) {
        (Role::Clock, Action::Clock(_)) => true,
        (Role::Feed, Action::Value(..) | Action::Design(..)) => true,
        (
            Role::Console,
            Action::Ack(_)
            | Action::Reset(_)
            | Action::Shelve(..)
            | Action::Unshelve(_)
            | Action::Oos(..)
            | Action::SetPriority(..)
            | Action::SetSetpoint(..),
        ) => true,
        _ => false,
    }
}
