//! Plants of an image's parts.

use crate::same::is_same;
use crate::tables::table;
use alm_codec::{image_len, read_image, write_image};
use alm_common_tests::{reading_of, same};
use alm_model::{Alarms, List, PlainPlant};
use alm_plant::Plant;
use alm_types::{Action, AlarmId, Table};
use std::alloc::Global;
use std::test::Fail;

/// The plant of what another's image says.
fn built_of<P: Alarms, Q: Alarms>(alloc: Global, plain: &P) -> Option<Q> {
    let rows = u32::try_from(plain.alarms()).ok()?;
    let areas = u8::try_from(plain.areas()).ok()?;
    let count = plain.count();
    if rows < 1 || rows > 16_384 || areas < 1 || areas > 64 || count > 1 << 48 {
        return None;
    }
    let mut bytes = vec![in alloc; 0u8; image_len(rows, areas) as usize].ok()?;
    if (bytes.len() as u64) < image_len(rows, areas) {
        return None;
    }
    write_image(plain, &mut bytes);
    let parts = read_image(alloc, &bytes, rows, areas, count).ok()?;
    Q::build(alloc, parts).ok()
}

/// Whether an action is admitted, and then done.
fn act<P: Alarms>(plant: &mut P, action: Action) -> bool {
    let admitted = plant.admits(&action).is_ok();
    if admitted {
        plant.apply(&action);
    }
    admitted
}

/// A list; `None` if it doesn't exist, or if out of memory.
fn list_of<P: Alarms>(alloc: Global, plant: &P, list: List) -> Option<Vec<u32>> {
    if !plant.has_list(list) {
        return None;
    }
    let mut all = Vec::with_capacity(alloc, plant.alarms()).ok()?;
    plant.fill(list, &mut all);
    Some(all)
}

/// The list of the area of a plant that is built of another's image, whose alarms came from the last to the first; `None` if the
/// two differ.
fn built_list<P: Alarms + Drop, Q: Alarms + Drop>(
    alloc: Global,
    rows: &Table,
) -> Result<Option<Vec<u32>>, Fail> {
    let mut plain = P::new(alloc, rows)?;
    let zero = reading_of(0)?;
    for turn in 0..24u32 {
        act(
            &mut plain,
            Action::Value(AlarmId(23u32.saturating_sub(turn)), zero),
        );
    }
    let linked: Q = built_of(alloc, &plain).ok_or("built")?;
    if !is_same(alloc, &linked, &plain)? {
        return Ok(None);
    }
    Ok(list_of(alloc, &linked, List::Area(0)))
}

#[test]
fn lists_go_by_stamps_that_run_against_the_numbers(rt: HostRuntime) -> Result<(), Fail> {
    let rows = table(rt.alloc(), 24, 1).ok_or("table")?;
    let all = built_list::<PlainPlant, Plant>(rt.alloc(), &rows)?.ok_or("list")?;
    same(all.len(), 24)?;
    same(all.as_slice().first().copied(), Some(23))?;
    same(all.as_slice().last().copied(), Some(0))?;
    Ok(())
}

/// Whether a plant with shelvings that is built of another's image behaves like that one from then on.
fn goes_on<P: Alarms + Drop, Q: Alarms + Drop>(alloc: Global, rows: &Table) -> Result<bool, Fail> {
    let mut plain = P::new(alloc, rows)?;
    for number in [7u32, 2, 5] {
        act(
            &mut plain,
            Action::Shelve(AlarmId(number), 300u32.saturating_sub(number)),
        );
    }
    let mut linked: Q = built_of(alloc, &plain).ok_or("built")?;
    let mut same = is_same(alloc, &linked, &plain)?;
    for number in [2u32, 7] {
        same = same
            && act(&mut plain, Action::Unshelve(AlarmId(number)))
            && act(&mut linked, Action::Unshelve(AlarmId(number)));
    }
    Ok(same && is_same(alloc, &linked, &plain)?)
}

#[test]
fn a_built_plant_with_shelvings_goes_on_as_the_plain_one(rt: HostRuntime) -> Result<(), Fail> {
    let rows = table(rt.alloc(), 9, 3).ok_or("table")?;
    assert!(rt; goes_on::<PlainPlant, Plant>(rt.alloc(), &rows)?);
    Ok(())
}
