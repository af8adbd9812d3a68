//! Laws of who asks for what.

ghost use Rattle.std.specs.Prelude.{ℕ, ◌≡◌, ◌<◌, true, false, Ok};
ghost use Rattle.alm_types.specs.Actions.{alarm_of};
ghost use Rattle.alm_types.specs.Sizes.{most_actions};
ghost use Rattle.alm_types.specs.declared.attr.Attr.{Attr};
ghost use Rattle.alm_types.specs.declared.role.Role.TheVariants as role;
ghost use Rattle.alm_laws.specs.Alarm.{acknowledges, resets, is_unacknowledged, is_latched};
ghost use Rattle.alm_types.specs.Slots.{role_of};
ghost use Rattle.alm_types.specs.declared.request.Request.{Request};
ghost use Rattle.alm_types.specs.Wants.{wanted_action};
ghost use Rattle.alm_state.specs.Rows.{State};
ghost use Rattle.alm_model.specs.Plant.{Panel, Condensed};
ghost use Rattle.alm_model.specs.Accept.{accept};
ghost use Rattle.alm_laws.specs.Taken.{NamesStanding};
ghost use Rattle.alm_laws.specs.Plant.{Becomes, IsAlarmOf, asker_of, ShelvedOnlyByAConsole, ServiceOnlyByAConsole, DesignOnlyByTheFeed, ConditionOnlyByTheFeed, TimeOnlyByTheClock, AttributesOnlyByAConsole};

/// Slots 0 to 15 are consoles, 16 is the feed, 17 the clock.
pub fn each_slot_has_its_role()
    ensures consoles { (slot : ℕ) → slot < 16 → role_of slot ≡ role.Console }
    ensures feed { role_of 16 ≡ role.Feed }
    ensures clock { role_of 17 ≡ role.Clock }
{}

/// Each accepted action comes from a slot that may ask for it.
pub fn each_action_has_its_asker()
    ensures { (p : Panel) (r : Request) → accept p r ≡ Ok (wanted_action r) →
        role_of r.slot ≡ asker_of (wanted_action r) }
{}

/// Only a console shelves and sets out of service or back, and gives other priorities and setpoints.
pub fn only_consoles_operate()
    ensures shelves { (q : Condensed) (r : Request) (i : ℕ) (s t : State) → Becomes q r i s t →
        ShelvedOnlyByAConsole r i s t }
    ensures service { (q : Condensed) (r : Request) (i : ℕ) (s t : State) → Becomes q r i s t →
        ServiceOnlyByAConsole r i s t }
    ensures attributes { (q : Condensed) (r : Request) → accept q.panel r ≡ Ok (wanted_action r) → (i : ℕ) →
        AttributesOnlyByAConsole q r i }
{}

/// Only the feed moves a condition and suppresses by design.
pub fn only_the_feed_moves_conditions()
    ensures condition { (q : Condensed) (r : Request) (i : ℕ) (s t : State) → Becomes q r i s t →
        ConditionOnlyByTheFeed r i s t }
    ensures design { (q : Condensed) (r : Request) (i : ℕ) (s t : State) → Becomes q r i s t →
        DesignOnlyByTheFeed r i s t }
{}

/// Only the clock slot moves the time.
pub fn only_the_clock_moves_time()
    ensures { (q : Condensed) (r : Request) → accept q.panel r ≡ Ok (wanted_action r) →
        TimeOnlyByTheClock q r }
{}

/// Any console's acknowledgement of an unacknowledged alarm is accepted, if it names no annunciation or the one that stands, and its reset of one that is latched and acknowledged.
pub fn consoles_are_heard()
    ensures acknowledge { (q : Condensed) (r : Request) (a : Attr) (s : State) →
        IsAlarmOf q (alarm_of (wanted_action r)) a s → q.panel.count < most_actions →
        role_of r.slot ≡ role.Console → acknowledges (wanted_action r) ≡ true →
        is_unacknowledged s.core ≡ true → NamesStanding q.panel r.want →
        accept q.panel r ≡ Ok (wanted_action r) }
    ensures reset { (q : Condensed) (r : Request) (a : Attr) (s : State) →
        IsAlarmOf q (alarm_of (wanted_action r)) a s → q.panel.count < most_actions →
        role_of r.slot ≡ role.Console → resets (wanted_action r) ≡ true → is_latched s.core ≡ true →
        is_unacknowledged s.core ≡ false → accept q.panel r ≡ Ok (wanted_action r) }
{}
