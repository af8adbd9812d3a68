//! A slot's view of a shared board.
ghost use Rattle.std.specs.Prelude.{◌≡◌, ◌≤◌, ◌<◌, length, IsOk, IsSome, IfErr, OnOk};
ghost use Rattle.alm_model.specs.Judging.{logged_actions};
ghost use Rattle.alm_model.specs.Look.{IsLook, look as told};
ghost use Rattle.alm_model.specs.Step.{run};
ghost use Rattle.alm_types.specs.declared.refusal.Refusal.TheVariants.{Stopped};
ghost use Rattle.alm_board.specs.PrefixesOf.{IsPrefixOf};
ghost use Rattle.alm_board.specs.Looks.{LookAnswers};

use crate::durable::Durable;
use crate::extent::Extent;
use crate::gone_count::GoneCount;
use crate::reader_sight::ReaderSight;
use crate::readers_rule::ReadersRule;
use crate::shown_plant::ShownPlant;
use alm_board::{FreeLook, Look};
use alm_model::{Alarms, look};
use alm_moments::RunId;
use alm_types::{Answer, Query, Refusal};
use left_right::reader::Reader;

/// A slot's view of the published plant, with all that it knows of it: what it saw and what receipts reported.
#[derive(Drop)]
pub struct SharedLook<J: RunId, P: Alarms + Drop> {
    pub reader: Option<Reader<ShownPlant<J, P>, ReaderSight, ReadersRule>>,
    pub(crate) gone: GoneCount,
    /// What it saw last, or what a receipt reported since.
    pub known: Durable<J>,
    pub(crate) extent: Extent<J>,
    /// Between two looks the reader is there.
    pub ghost there: { IsSome reader },
}

impl<J: RunId, P: Alarms + Drop> Look for SharedLook<J, P> {
    ghost use Rattle.std.specs.Prelude.{◌≡◌, IfErr, OnOk, length, option_map};
    ghost use Rattle.alm_types.specs.declared.refusal.Refusal.TheVariants.{Stopped};
    ghost use Rattle.alm_model.specs.Judging.{logged_actions};
    ghost use Rattle.alm_shared.specs.Sights.{HasLooked, WasTurnedBack};
    ghost use Rattle.left_right.specs.Sides.{view};

    type Told = Durable<J>;

    ghost base = { λ _. J.base };

    ghost knows = { λ look. logged_actions look.known.prefix };

    /// An answer is of the list that was published as this very look was made. It is Stopped only if this look was turned back.
    ghost looked = { λ look query result later.
        OnOk result (HasLooked (option_map (λ reader. view reader.place) look.reader)
        (option_map (λ reader. view reader.place) later.reader) later.known.prefix) ×
        IfErr result (λ refusal. refusal ≡ Stopped → WasTurnedBack look.gone.gone later.gone.gone
        (length look.known.prefix) (option_map (λ reader. view reader.place) look.reader)
        (option_map (λ reader. view reader.place) later.reader)) };

    fn look(&mut self, query: Query, answer: &mut Answer) -> Result<u64, Refusal> {
        if let Err(refusal) = self.extent.find(query) {
            return Err(refusal);
        }
        let Some(reader) = self.reader.take() else {
            unreachable!()
        };
        match self.gone.enter(reader) {
            Ok(reading) => {
                let answered = look_at(reading.get(), &mut self.known, query, answer);
                self.reader = Some(reading.leave());
                answered
            }
            Err(reader) => {
                self.reader = Some(reader);
                Err(Refusal::Stopped)
            }
        }
    }

    fn take_in(&mut self, told: Durable<J>) {
        self.known = self.known.longer(&told);
    }
}

impl<J: RunId, P: Alarms + Drop> FreeLook for SharedLook<J, P> {
    ghost free = { λ look told. tt };
}

// Answers a query for something that exists by what is shown. A list older than the known one isn't used: Stopped, which no run
// meets.
fn look_at<J: RunId, P: Alarms + Drop>(
    shown: &ShownPlant<J, P>,
    known: &mut Durable<J>,
    query: Query,
    answer: &mut Answer,
) -> Result<u64, Refusal>
    requires there { IsOk (told J.base query) }
    ensures later { IsPrefixOf (logged_actions known.old.prefix) (logged_actions known.new.prefix) }
    ensures answer { LookAnswers J.base (logged_actions known.old.prefix) (logged_actions known.new.prefix)
        query answer.old answer.new result }
    ensures shown { length known.old.prefix ≤ length shown.now.told.prefix →
        IsLook (run J.base (logged_actions shown.now.told.prefix)) query answer.old answer.new result }
    ensures saw { OnOk result (known.new.prefix ≡ shown.now.told.prefix) }
    ensures stopped { IfErr result (λ refusal. refusal ≡ Stopped →
        length shown.now.told.prefix < length known.old.prefix) }
{
    if shown.told.prefix.len() < known.prefix.len() {
        return Err(Refusal::Stopped);
    }
    // for the proof: one of two prefixes of a history begins with the other
    drop(shown.told.prefix.longer(&known.prefix));
    match look(&shown.plant, query, answer) {
        Ok(count) => {
            *known = shown.told.again();
            Ok(count)
        }
        Err(refusal) => Err(refusal),
    }
}
