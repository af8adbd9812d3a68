//! Laws of turns: each function does nothing, and its contract is the law.

ghost use Rattle.std.specs.Prelude.{ℕ, ◌+◌, ◌≤◌, ◌<◌, ◌^◌, length};
ghost use Rattle.alm_types.specs.declared.query.Query.{Query};
ghost use Rattle.alm_model.specs.Plant.{Condensed};
ghost use Rattle.alm_model.specs.Rules.{KeepsRules};
ghost use Rattle.alm_desk.specs.Answers.{look_reply};
ghost use Rattle.alm_desk.specs.declared.hindrance.Hindrance.TheVariants.{Nothing};
ghost use Rattle.alm_session.specs.Ended.{IsNew, IsFinished, IsAnswered};
ghost use Rattle.alm_session.specs.Turns.{IsTurn, SlotState, between, looks_of};
ghost use Rattle.alm_types.specs.Sizes.{most_actions};
ghost use Rattle.alm_session.specs.Outputs.{output_limit};

use alm_board::Recall;

/// What single turns do, they do one after the other. For a connection that was new and has ended, each line was answered, and
/// each query by a look. What was written is the replies in the order of the lines.
pub fn turns_answer_all_lines<L: Recall>()
    ensures among { (x y : L) (base : Condensed) (n : ℕ) (a b : SlotState) →
        IsTurn (between L.Look.looked L.recalled x y) base n a b → IsTurn (looks_of L.Look.looked L.recalled) base n a b }
    ensures join { (base : Condensed) (m n : ℕ) (a b c : SlotState) →
        IsTurn (looks_of L.Look.looked L.recalled) base m a b → IsTurn (looks_of L.Look.looked L.recalled) base n b c →
        IsTurn (looks_of L.Look.looked L.recalled) base (m + n) a c }
    ensures ended { (base : Condensed) (n : ℕ) (a b : SlotState) →
        IsTurn (looks_of L.Look.looked L.recalled) base n a b → IsNew a → IsFinished b →
        IsAnswered (looks_of L.Look.looked L.recalled) base a b }
{}

/// The plant keeps its rules, and so has 16,384 alarms at most. Then no reply to a query is longer than the room for replies:
/// such a query is never refused for its length.
pub fn replies_have_room()
    ensures { (q : Condensed) (id : ℕ) (query : Query) → KeepsRules q →
        q.panel.count ≤ most_actions →
        id < 2 ^ 32 → length (look_reply q id query Nothing) ≤ output_limit }
{}
