//! What happened, by a slot's view of a shared board.
ghost use Rattle.std.specs.Prelude.{◌≡◌, ◌≤◌, ◌<◌, length, vec_capacity, false, IfErr, OnOk};
ghost use Rattle.alm_board.specs.PrefixesOf.{IsPrefixOf};
ghost use Rattle.alm_board.specs.Recalls.{RecallAnswers};
ghost use Rattle.alm_events.specs.Events.{asked_after, is_remembered, most_told};
ghost use Rattle.alm_types.specs.declared.refusal.Refusal.TheVariants.{Forgotten, Stopped};

use crate::durable::Durable;
use crate::shared_look::SharedLook;
use crate::shown_plant::ShownPlant;
use alm_board::Recall;
use alm_events::Recalled;
use alm_model::Alarms;
use alm_moments::RunId;
use alm_types::{Event, Refusal};

impl<J: RunId, P: Alarms + Drop> Recall for SharedLook<J, P> {
    ghost use Rattle.std.specs.Prelude.{◌≡◌, IfErr, OnOk, length, option_map};
    ghost use Rattle.alm_shared.specs.Sights.{HasForgotten, HasLooked, WasTurnedBack};
    ghost use Rattle.alm_types.specs.declared.refusal.Refusal.TheVariants.{Forgotten, Stopped};
    ghost use Rattle.left_right.specs.Sides.{view};

    ghost logged = { λ look. look.known.prefix };

    /// What is reported is of the list that was published as this very look was made, and what is forgotten is so in that list. It is
    /// Stopped only if this look was turned back.
    ghost recalled = { λ look after result later.
        OnOk result (HasLooked (option_map (λ reader. view reader.place) look.reader)
        (option_map (λ reader. view reader.place) later.reader) later.known.prefix) ×
        IfErr result (λ refusal. refusal ≡ Forgotten → HasForgotten J.base after
        (option_map (λ reader. view reader.place) look.reader)
        (option_map (λ reader. view reader.place) later.reader)) ×
        IfErr result (λ refusal. refusal ≡ Stopped → WasTurnedBack look.gone.gone later.gone.gone
        (length look.known.prefix) (option_map (λ reader. view reader.place) look.reader)
        (option_map (λ reader. view reader.place) later.reader)) };

    fn recall(&mut self, after: Option<u64>, events: &mut Vec<Event>) -> Result<Recalled, Refusal> {
        let Some(reader) = self.reader.take() else {
            unreachable!()
        };
        match self.gone.enter(reader) {
            Ok(reading) => {
                let told = recall_at(reading.get(), &mut self.known, after, events);
                self.reader = Some(reading.leave());
                told
            }
            Err(reader) => {
                self.reader = Some(reader);
                Err(Refusal::Stopped)
            }
        }
    }
}

// Reports what came after a number by what is shown. A list older than the known one isn't used: Stopped, which no run meets.
fn recall_at<J: RunId, P: Alarms + Drop>(
    shown: &ShownPlant<J, P>,
    known: &mut Durable<J>,
    after: Option<u64>,
    events: &mut Vec<Event>,
) -> Result<Recalled, Refusal>
    requires { most_told ≤ vec_capacity events.old }
    ensures later { IsPrefixOf known.old.prefix known.new.prefix }
    ensures answer { RecallAnswers J.base known.old.prefix known.new.prefix after events.old.items
        events.new.items result }
    ensures shown { length known.old.prefix ≤ length shown.now.told.prefix →
        IfErr result (λ refusal. refusal ≡ Forgotten) }
    ensures forgotten { IfErr result (λ refusal. refusal ≡ Forgotten →
        is_remembered J.base shown.now.told.prefix (asked_after J.base shown.now.told.prefix after) ≡
        false) }
    ensures saw { OnOk result (known.new.prefix ≡ shown.now.told.prefix) }
    ensures stopped { IfErr result (λ refusal. refusal ≡ Stopped →
        length shown.now.told.prefix < length known.old.prefix) }
    ensures room { vec_capacity events.new ≡ vec_capacity events.old }
{
    if known.prefix.len() > shown.told.prefix.len() {
        return Err(Refusal::Stopped);
    }
    // for the proof: one of two prefixes of a history begins with the other
    drop(shown.told.prefix.longer(&known.prefix));
    let count = shown.plant.count();
    let number = after.unwrap_or(count - shown.recent.len() as u64);
    if !shown.recent.recall(count, number, events) {
        return Err(Refusal::Forgotten);
    }
    *known = shown.told.again();
    Ok(Recalled {
        count,
        first: number.saturating_add(1),
    })
}
