//! Trying the actions of a batch on a plant.

ghost use Rattle.std.specs.Prelude.{◌≡◌, ◌+◌, ◌<◌, ◌≤◌, [], ℕ, length, MatchBool, MatchOption, Ok, Err, vec_len, vec_capacity};
ghost use Rattle.alm_codec.specs.Frames.{asked_actions};
ghost use Rattle.alm_model.specs.Rules.{AllAdmitted};
ghost use Rattle.alm_model.specs.Step.{run};
ghost use Rattle.alm_keeper.specs.Batch.{tried_one, tried_batch, Tries, TriesAll};

use alm_codec::{Asked, Asker, Version};
use alm_model::Alarms;
use alm_plant::Plant;
use alm_types::{Entry, Verdict};

/// Does the action of an entry, if it is admitted.
fn try_one(plant: &mut Plant, entry: &Entry, actions: &mut Vec<Asked>, version: Version) -> bool
    requires { vec_len actions.old < vec_capacity actions.old }
    ensures tries { MatchBool result
        (Tries version plant.old plant.new entry.now actions.old.items actions.new.items)
        ((place : ℕ) → tried_one plant.old place entry.now.verdict ≡ Err place) }
    ensures len { vec_len actions.new ≤ vec_len actions.old + 1 }
    ensures room { vec_capacity actions.new ≡ vec_capacity actions.old }
{
    match entry.verdict {
        Verdict::Accepted(action) => {
            match plant.admits(&action) {
                Ok(()) => {
                    plant.apply(&action);
                    let asker = Asker::of(entry.slot, version);
                    actions.push_reserved(Asked { asker, action });
                    true
                }
                Err(_) => false,
            }
        }
        Verdict::Refused(_, _) => true,
    }
}

/// Does the actions of a batch one after the other; the place of the first entry whose action isn't admitted there. The vector
/// then holds them, each with the slot that asked, as frames of a version say it.
pub fn try_all(
    plant: &mut Plant,
    entries: &[Entry],
    actions: &mut Vec<Asked>,
    version: Version,
) -> Option<usize>
    requires none { actions.old.items ≡ [] }
    requires room { length entries.now ≤ vec_capacity actions.old }
    ensures tries { MatchOption result
        (TriesAll version plant.old plant.new entries.now actions.new.items)
        (λ place. tried_batch plant.old 0 entries.now ≡ Err place) }
    ensures room { vec_capacity actions.new ≡ vec_capacity actions.old }
{
    let mut place: usize = 0;
    while place < entries.len() {
        if !try_one(plant, &entries[place], actions, version) {
            return Some(place);
        }
        place += 1;
    }
    None
}

/// Does actions that are admitted one after the other.
pub fn apply_asked(plant: &mut Plant, asked: &[Asked])
    requires { AllAdmitted plant.old (asked_actions asked.now) }
    ensures { plant.new ≡ run plant.old (asked_actions asked.now) }
{
    for one in asked {
        plant.apply(&one.action);
    }
}
