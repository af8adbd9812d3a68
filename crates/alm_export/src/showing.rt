//! What is shown of a plant.

ghost use Rattle.std.specs.List.{flat_map, range_with_len};
ghost use Rattle.alm_lines.specs.Parts.{text_of_parts};
ghost use Rattle.alm_lines.specs.Written.{Prints};
ghost use Rattle.alm_model.specs.Look.{look};
ghost use Rattle.alm_export.specs.Showing.{told_between, alarm_line, priority_line, area_line, plant_text, CountsShow};

use crate::show_fault::ShowFault;
use alm_desk::CountedWriter;
use alm_lines::Part;
use alm_model::{Alarms, look};
use alm_types::{AlarmId, Answer, Query, Refusal};
use std::io::Write;

/// Writes what a plant answers, between words; nothing if it refuses the query.
fn show_told<P: Alarms, W: Write + Drop>(
    plant: &P,
    front: &[Part<'_>],
    query: Query,
    end: &str,
    answer: &mut Answer,
    writer: &mut CountedWriter<W>,
) -> Result<(), ShowFault>
    ensures text { Prints (W.contents writer.old.inner) (W.contents writer.new.inner)
        (told_between (text_of_parts front.now) end.now (look (P.plant plant.now) query)) result }
    ensures counts { CountsShow result writer.old.failed writer.new.failed answer.old.refused
        answer.new.refused }
{
    match look(plant, query, answer) {
        Ok(_) => {
            writer.told(front, query, answer, end)?;
            Ok(())
        }
        Err(Refusal::OutOfMemory) => Err(ShowFault::OutOfMemory),
        Err(_) => Ok(()),
    }
}

/// Writes the line of an alarm.
fn show_alarm<P: Alarms, W: Write + Drop>(
    plant: &P,
    number: u32,
    answer: &mut Answer,
    writer: &mut CountedWriter<W>,
) -> Result<(), ShowFault>
    ensures text { Prints (W.contents writer.old.inner) (W.contents writer.new.inner)
        (alarm_line (P.plant plant.now) number) result }
    ensures counts { CountsShow result writer.old.failed writer.new.failed answer.old.refused
        answer.new.refused }
{
    let Some(attr) = plant.attr(AlarmId(number)) else {
        return Ok(());
    };
    let front = [
        Part::Word("ALARM "),
        Part::Number(u64::from(number)),
        Part::Word(" "),
        Part::Bytes(attr.tag.as_bytes()),
    ];
    show_told(
        plant,
        &front,
        Query::State(AlarmId(number)),
        "\n",
        answer,
        writer,
    )
}

/// Writes the line of a priority.
fn show_priority<P: Alarms, W: Write + Drop>(
    plant: &P,
    priority: u32,
    answer: &mut Answer,
    writer: &mut CountedWriter<W>,
) -> Result<(), ShowFault>
    ensures text { Prints (W.contents writer.old.inner) (W.contents writer.new.inner)
        (priority_line (P.plant plant.now) priority) result }
    ensures counts { CountsShow result writer.old.failed writer.new.failed answer.old.refused
        answer.new.refused }
{
    let front = [Part::Word("P "), Part::Number(u64::from(priority))];
    show_told(
        plant,
        &front,
        Query::Priority(priority),
        "\n",
        answer,
        writer,
    )
}

/// Writes the line of an area.
fn show_area<P: Alarms, W: Write + Drop>(
    plant: &P,
    area: u32,
    answer: &mut Answer,
    writer: &mut CountedWriter<W>,
) -> Result<(), ShowFault>
    ensures text { Prints (W.contents writer.old.inner) (W.contents writer.new.inner)
        (area_line (P.plant plant.now) area) result }
    ensures counts { CountsShow result writer.old.failed writer.new.failed answer.old.refused
        answer.new.refused }
{
    let front = [Part::Word("A "), Part::Number(u64::from(area))];
    show_told(plant, &front, Query::Area(area), " FLOOD", answer, writer)?;
    show_told(plant, &[], Query::Flood(area), "\n", answer, writer)
}

/// Writes the lines of the alarms below a number.
fn show_alarms<P: Alarms, W: Write + Drop>(
    plant: &P,
    count: u32,
    answer: &mut Answer,
    writer: &mut CountedWriter<W>,
) -> Result<(), ShowFault>
    ensures text { Prints (W.contents writer.old.inner) (W.contents writer.new.inner)
        (flat_map (alarm_line (P.plant plant.now)) (range_with_len 0 count)) result }
    ensures counts { CountsShow result writer.old.failed writer.new.failed answer.old.refused
        answer.new.refused }
{
    for number in 0..count {
        show_alarm(plant, number, answer, writer)?;
    }
    Ok(())
}

/// Writes the lines of the priorities.
fn show_priorities<P: Alarms, W: Write + Drop>(
    plant: &P,
    answer: &mut Answer,
    writer: &mut CountedWriter<W>,
) -> Result<(), ShowFault>
    ensures text { Prints (W.contents writer.old.inner) (W.contents writer.new.inner)
        (flat_map (priority_line (P.plant plant.now)) (range_with_len 1 4)) result }
    ensures counts { CountsShow result writer.old.failed writer.new.failed answer.old.refused
        answer.new.refused }
{
    for priority in 1..5 {
        show_priority(plant, priority, answer, writer)?;
    }
    Ok(())
}

/// Writes the lines of the areas below a number.
fn show_areas<P: Alarms, W: Write + Drop>(
    plant: &P,
    count: u32,
    answer: &mut Answer,
    writer: &mut CountedWriter<W>,
) -> Result<(), ShowFault>
    ensures text { Prints (W.contents writer.old.inner) (W.contents writer.new.inner)
        (flat_map (area_line (P.plant plant.now)) (range_with_len 0 count)) result }
    ensures counts { CountsShow result writer.old.failed writer.new.failed answer.old.refused
        answer.new.refused }
{
    for area in 0..count {
        show_area(plant, area, answer, writer)?;
    }
    Ok(())
}

/// Writes a plant and the epoch of its device. If the writer fails or a list can't grow, a prefix of the text is written.
pub fn show_plant<P: Alarms, W: Write + Drop>(
    plant: &P,
    epoch: u64,
    answer: &mut Answer,
    writer: &mut CountedWriter<W>,
) -> Result<(), ShowFault>
    ensures text { Prints (W.contents writer.old.inner) (W.contents writer.new.inner)
        (plant_text (P.plant plant.now) epoch) result }
    ensures counts { CountsShow result writer.old.failed writer.new.failed answer.old.refused
        answer.new.refused }
{
    writer.parts(&[
        Part::Word("NOW "),
        Part::Number(plant.now().seconds()),
        Part::Word(" COUNT "),
        Part::Number(plant.count()),
        Part::Word(" EPOCH "),
        Part::Number(epoch),
        Part::Word("\n"),
    ])?;
    show_alarms(plant, plant.alarms() as u32, answer, writer)?;
    show_priorities(plant, answer, writer)?;
    show_areas(plant, plant.areas() as u32, answer, writer)
}
