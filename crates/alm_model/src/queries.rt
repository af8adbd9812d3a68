//! What a plant answers to a query.

ghost use Rattle.alm_types.specs.declared.query.Query.TheVariants.{Attributes, Row};
ghost use Rattle.alm_model.specs.Look.{IsListed, IsLook};

use crate::alarms::Alarms;
use crate::list::List;
use alm_types::{AlarmId, AlarmRow, Answer, LastMoments, Query, Refusal};

/// Fills in a list: `NoSuchList` if it doesn't exist, `OutOfMemory` if its growth was refused.
fn look_at_list<P: Alarms>(plant: &P, list: List, answer: &mut Answer) -> Result<u64, Refusal>
    ensures { IsListed (P.plant plant.now) list answer.old answer.new result }
{
    if !plant.has_list(list) {
        return Err(Refusal::NoSuchList);
    }
    if answer.reserve(plant.alarms()).is_err() {
        return Err(Refusal::OutOfMemory);
    }
    plant.fill(list, &mut answer.list);
    Ok(plant.count())
}

/// Fills in an alarm's attributes. It is a function of its own, since inlined its stack frame would cost each other
/// query time.
#[inline(never)]
fn look_at_attributes<P: Alarms>(
    plant: &P,
    alarm: AlarmId,
    answer: &mut Answer,
) -> Result<u64, Refusal>
    ensures { IsLook (P.plant plant.now) (Attributes alarm) answer.old answer.new result }
{
    answer.attr = Some(plant.attr(alarm).ok_or(Refusal::NoSuchAlarm)?);
    Ok(plant.count())
}

/// Fills in an alarm's row. It is a function of its own, since inlined its stack frame would cost each other query time.
#[inline(never)]
fn look_at_row<P: Alarms>(plant: &P, alarm: AlarmId, answer: &mut Answer) -> Result<u64, Refusal>
    ensures { IsLook (P.plant plant.now) (Row alarm) answer.old answer.new result }
{
    let state = plant.state(alarm).ok_or(Refusal::NoSuchAlarm)?;
    let attr = plant.attr(alarm).ok_or(Refusal::NoSuchAlarm)?;
    answer.row = Some(AlarmRow {
        shown: state.shown(),
        active: state.active,
        flags: state.flags(),
        until: state.shelved_until,
        stamp: state.stamp,
        priority: attr.priority,
        setpoint: attr.setpoint,
        moments: LastMoments::of(plant.moments(alarm)),
    });
    Ok(plant.count())
}

/// Puts what a plant answers to a query into `answer`, and returns the count of the plant's actions. The refusals are
/// `NoSuchAlarm`, `NoSuchList`, and `OutOfMemory` if the growth of a list was refused; the answer is then unchanged,
/// except for its count of refused growths.
pub fn look<P: Alarms>(plant: &P, query: Query, answer: &mut Answer) -> Result<u64, Refusal>
    ensures { IsLook (P.plant plant.now) query answer.old answer.new result }
{
    match query {
        Query::State(alarm) => {
            let row = plant.state(alarm).ok_or(Refusal::NoSuchAlarm)?;
            row.report(answer);
            Ok(plant.count())
        }
        Query::Flood(area) => {
            if !plant.has_list(List::Area(area)) {
                return Err(Refusal::NoSuchList);
            }
            let (window, flood) = plant.window(area);
            answer.window = window;
            answer.flood = flood;
            Ok(plant.count())
        }
        Query::Priority(n) => look_at_list(plant, List::Priority(n), answer),
        Query::Area(n) => look_at_list(plant, List::Area(n), answer),
        Query::Wheel(n) => look_at_list(plant, List::Wheel(n), answer),
        Query::Stale => look_at_list(plant, List::Stale, answer),
        Query::Chatter => look_at_list(plant, List::Chatter, answer),
        Query::Plant => {
            answer.moment = plant.now().seconds();
            answer.alarms = plant.alarms() as u64;
            answer.areas = plant.areas() as u64;
            Ok(plant.count())
        }
        Query::Attributes(alarm) => look_at_attributes(plant, alarm, answer),
        Query::Row(alarm) => look_at_row(plant, alarm, answer),
    }
}
