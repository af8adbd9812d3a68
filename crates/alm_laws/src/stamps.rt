//! Laws of stamps, over whole runs.

ghost use Rattle.std.specs.Prelude.{ℕ, List, ◌≡◌, ◌≢◌, ◌<◌};
ghost use Rattle.alm_types.specs.declared.action.Action.{Action};
ghost use Rattle.alm_model.specs.Plant.{RecordedPlant, Condensed};
ghost use Rattle.alm_model.specs.Rules.{KeepsRules, AreAdmitted};
ghost use Rattle.alm_model.specs.Lists.{stamp_of};
ghost use Rattle.alm_model.specs.Step.{run};
ghost use Rattle.alm_model.specs.Counted.{run_whole};
ghost use Rattle.alm_laws.specs.Plant.{StampsAreNew, StampsAreOfOneAlarm, AreTaken, StampsAreCounted};

/// No stamp is given twice, however long a plant runs.
pub fn no_stamp_is_given_twice()
    ensures new { (q : Condensed) (actions : List Action) → KeepsRules q → AreAdmitted q actions →
        StampsAreNew q.panel (run q actions).panel }
    ensures one { (q : Condensed) (actions : List Action) → KeepsRules q → AreAdmitted q actions →
        StampsAreOfOneAlarm q.panel (run q actions).panel }
    ensures never_again { (q : Condensed) (first more : List Action) → KeepsRules q →
        AreAdmitted q first → AreAdmitted (run q first) more → (i j : ℕ) → 0 < stamp_of q.panel i →
        stamp_of (run q first).panel i ≢ stamp_of q.panel i →
        stamp_of (run (run q first) more).panel j ≢ stamp_of q.panel i }
{}

/// Each annunciation takes one stamp, each shelving one, and no other change takes any.
pub fn stamps_are_counted()
    ensures { (p : RecordedPlant) (actions : List Action) → AreTaken p actions →
        StampsAreCounted p actions (run_whole p actions) }
{}
