//! Laws of the definitions: each function does nothing, and its contract is the law.

ghost use Rattle.std.specs.Prelude.{◌≡◌, ◌≤◌, ℕ, List, fold, length};
ghost use Rattle.alm_types.specs.Tables.{Listing, IsTable};
ghost use Rattle.alm_types.specs.declared.action.Action.{Action};
ghost use Rattle.alm_model.specs.Condense.{IsRecorded, condense};
ghost use Rattle.alm_model.specs.Counted.{new_whole, run_whole};
ghost use Rattle.alm_model.specs.Keeping.{in_brief, in_full};
ghost use Rattle.alm_model.specs.Lists.{list_of};
ghost use Rattle.alm_model.specs.New.{new_plant};
ghost use Rattle.alm_model.specs.Plant.{Condensed, RecordedPlant};
ghost use Rattle.alm_model.specs.Rules.{AreAdmitted, KeepsRules};
ghost use Rattle.alm_model.specs.Step.{later, run, settle};
ghost use Rattle.alm_model.specs.declared.list.List.TheVariants.{Chatter};
ghost use Rattle.alm_measure.specs.Calls.{MeasureCall, GoForward, after_metrics_call, called_in_full};
ghost use Rattle.alm_measure.specs.Counted.{AreCounted, with_annunciation};
ghost use Rattle.alm_measure.specs.Metrics.{after_clock, after_annunciation, chattering_by_moments, metrics_of, new_metrics, settled_by_windows};

/// What a call makes of the metrics of a plant is what a new count of the list of all its annunciations gives. The
/// calls: one more annunciation of an alarm, a later moment, and floods that are settled.
pub fn calls_count_anew()
    ensures annunciated { (p : RecordedPlant) (i : ℕ) →
        after_annunciation i (metrics_of (condense p)) ≡ metrics_of (condense (with_annunciation i p)) }
    ensures advanced { (p : RecordedPlant) (t : ℕ) → IsRecorded p.panel.now p.kept → p.panel.now ≤ t →
        after_clock t (metrics_of (condense p)) ≡ metrics_of (condense (later in_full t p)) }
    ensures settled { (p : RecordedPlant) → IsRecorded p.panel.now p.kept →
        settled_by_windows (metrics_of (condense p)) ≡ metrics_of (condense (settle in_full p)) }
{}

/// The clock never moves back in these calls. From a new measure on, and from one of any plant, the metrics after the calls are
/// those counted from the list of all annunciations.
pub fn calls_are_counted()
    ensures new { (t : Listing) (calls : List MeasureCall) → IsTable t → GoForward 0 calls →
        AreCounted (fold called_in_full (new_whole t) calls) (fold after_metrics_call (new_metrics t) calls) }
    ensures any { (p : RecordedPlant) (calls : List MeasureCall) → IsRecorded p.panel.now p.kept →
        length p.panel.attrs ≡ length p.panel.rows → GoForward p.panel.now calls →
        AreCounted (fold called_in_full p calls) (fold after_metrics_call (metrics_of (condense p)) calls) }
{}

/// What becomes of the metrics of a plant is what its step does: at an annunciation, as its clock moves, and as its floods are
/// settled.
pub fn metrics_go_along()
    ensures new { (t : Listing) → metrics_of (new_plant t) ≡ new_metrics t }
    ensures annunciated { (q : Condensed) (i : ℕ) →
        metrics_of (record q { kept = in_brief.note q.panel i q.kept }) ≡
        after_annunciation i (metrics_of q) }
    ensures advanced { (q : Condensed) (t : ℕ) →
        metrics_of (later in_brief t q) ≡ after_clock t (metrics_of q) }
    ensures settled { (q : Condensed) →
        metrics_of (settle in_brief q) ≡ settled_by_windows (metrics_of q) }
    ensures chattering { (q : Condensed) → KeepsRules q →
        chattering_by_moments (metrics_of q) ≡ list_of Chatter q }
{}

/// From a new plant on, after any admitted actions, its metrics are those counted from the list of all annunciations.
pub fn metrics_are_counted()
    ensures { (t : Listing) (actions : List Action) → IsTable t →
        AreAdmitted (new_plant t) actions →
        AreCounted (run_whole (new_whole t) actions) (metrics_of (run (new_plant t) actions)) }
{}
