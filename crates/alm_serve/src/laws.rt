//! Laws of a slot's service: each function does nothing, and its contract is the law.

ghost use Rattle.std.specs.Prelude.{◌≡◌, ◌++◌, ℕ, []};
ghost use Rattle.alm_model.specs.Plant.{Condensed};
ghost use Rattle.alm_session.specs.Intakes.{lines_from, lines_in, open_in};
ghost use Rattle.alm_session.specs.Turns.{IsTurn, SlotState, looks_of};

use alm_board::Recall;

/// As long as no whole line has come, no action waits and no byte is to be written, nothing is sent and nothing written.
pub fn nothing_goes_out_unasked<L: Recall>()
    ensures { (base : Condensed) (n : ℕ) (a b : SlotState)
        (t : IsTurn (looks_of L.Look.looked L.recalled) base n a b) →
        lines_in a.held ++ lines_from (open_in a.held) t.got ≡ [] → a.waiting ≡ [] →
        a.left ≡ [] → (b.sent ≡ a.sent) × (t.wrote ≡ []) × (b.left ≡ []) }
{}
