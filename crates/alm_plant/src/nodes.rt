//! The alarms by number, with their lists by priority, area and wheel slot.

ghost use Rattle.std.specs.Prelude.{◌≡◌, ◌<◌, ◌≤◌, ◌-◌, None, Some, true, IsTrue, IfSome, ◌↔◌, is_some, All, length, map, slice_get, slice_set, option_map, vec_capacity, IfOk, replicate, if◌then◌else◌};
ghost use Rattle.alm_model.specs.New.{at_rest};
ghost use Rattle.alm_model.specs.Lists.{alarms_by, stands_in, stamp, deadline, is_due};
ghost use Rattle.alm_model.specs.declared.list.List.TheVariants.{Priority, Area, Wheel as Slot};
ghost use Rattle.alm_model.specs.Keeping.{area_in};
ghost use Rattle.alm_lists.specs.Lists.{list_without};
ghost use Rattle.alm_lists.specs.Orders.{IsSortedFilter};
ghost use Rattle.alm_links.specs.Lists.{list_holding, family_at, key_at_node};
ghost use Rattle.alm_wheel.specs.Deadlines.{deadline_of, slot_of};
ghost use Rattle.alm_state.specs.Rows.{is_annunciated, IsState};
ghost use Rattle.alm_plant.specs.Filing.{stamp_in, filed_again, chains_after, with_insertion, IsPlaced, AreAhead, AreDistinct, by_priority, by_area};
ghost use Rattle.alm_model.specs.Lists.{wheel_slots};
ghost use Rattle.alm_types.specs.Sizes.{most_alarms};

use alm_links::{Chains, ListNodes};
use alm_state::Row;
use alm_types::Attr;
use alm_wheel::Wheel;
use std::alloc::{AllocError, Global};
use std::marker::Model;

const PRIORITIES: u32 = 0;

const AREAS: u32 = 1;

/// The alarms, each with its attributes and its row.
#[derive(Drop)]
pub struct Nodes {
    attrs: Vec<Attr>,
    rows: Vec<Row>,
    /// The stamp of each row.
    stamps: Vec<u64>,
    chains: Chains,
    wheel: Wheel,
}

impl Model for Nodes {
    ghost use Rattle.alm_plant.specs.Filing.{Files};

    ghost Value = { Files };

    ghost use Rattle.alm_plant.specs.Nodes.{files_of, AreFiledIn};

    ghost view = { files_of };

    ghost invariant = { AreFiledIn };
}

/// Whether an alarm keeps its places in the lists of its priority and area, or has none before and after.
fn keeps_lists(before: &Row, row: &Row) -> bool
    ensures { IsTrue result ↔
        ((is_annunciated before.now.core ≡ is_annunciated row.now.core) ×
        (is_annunciated row.now.core ≡ true → before.now.stamp ≡ row.now.stamp)) }
{
    if row.core.is_annunciated() {
        before.core.is_annunciated() && before.stamp == row.stamp
    } else {
        !before.core.is_annunciated()
    }
}

/// Whether it keeps its place in the wheel, or has none before and after.
fn keeps_slot(before: &Row, row: &Row) -> bool
    ensures { IsTrue result ↔
        ((is_some before.now.shelved_until ≡ is_some row.now.shelved_until) ×
        (is_some row.now.shelved_until ≡ true → before.now.stamp ≡ row.now.stamp)) }
{
    if row.shelved_until.is_some() {
        before.shelved_until.is_some() && before.stamp == row.stamp
    } else {
        before.shelved_until.is_none()
    }
}

/// The list of an alarm's priority, if it is in it.
fn priority_of(attr: &Attr, row: &Row) -> Option<u32>
    ensures { result ≡ by_priority attr.now row.now }
{
    if row.core.is_annunciated() {
        Some(u32::from(attr.priority) - 1)
    } else {
        None
    }
}

/// The list of its area.
fn area_of(attr: &Attr, row: &Row) -> Option<u32>
    ensures { result ≡ by_area attr.now row.now }
{
    if row.core.is_annunciated() {
        Some(u32::from(attr.area))
    } else {
        None
    }
}

/// Takes a node out of its list of a family, if it is in one.
fn take_out(chains: &mut Chains, family: u32, node: u32)
    requires family { family < length chains.old.families }
    requires node { node < chains.old.nodes }
    ensures nodes { chains.new.nodes ≡ chains.old.nodes }
    ensures lists { chains.new.families ≡
        slice_set chains.old.families family
        (map (list_without node) (family_at chains.old.families family)) }
{
    if chains.list_of(family, node).is_some() {
        chains.unlink(family, node);
    }
}

/// The same, and puts it at the end of list `to`, if there is one.
#[inline(never)]
fn refile(chains: &mut Chains, family: u32, node: u32, to: Option<u32>)
    requires family { family < length chains.old.families }
    requires node { node < chains.old.nodes }
    requires to { IfSome to (λ l. l < length (family_at chains.old.families family)) }
    ensures nodes { chains.new.nodes ≡ chains.old.nodes }
    ensures lists { chains.new.families ≡
        slice_set chains.old.families family
        (filed_again (family_at chains.old.families family) node to) }
{
    take_out(chains, family, node);
    if let Some(list) = to {
        chains.push_back(family, list, node);
    }
}

/// Takes a node out of its list of a family, if it is in one, and puts it by its key into list `to`, if there is one.
fn insert(chains: &mut Chains, family: u32, node: u32, to: Option<u32>, keys: &[u64])
    requires family { family < length chains.old.families }
    requires node { node < chains.old.nodes }
    requires to { IfSome to (λ l. l < length (family_at chains.old.families family)) }
    requires keys { chains.old.nodes ≤ length keys.now }
    ensures nodes { chains.new.nodes ≡ chains.old.nodes }
    ensures lists { chains.new.families ≡
        slice_set chains.old.families family
        (with_insertion (key_at_node keys.now) (family_at chains.old.families family) node to) }
{
    take_out(chains, family, node);
    if let Some(list) = to {
        chains.insert_by(family, list, node, keys);
    }
}

/// An alarm's place in the list of its priority, by its stamp, unless that stays.
fn reprioritize(
    chains: &mut Chains,
    stays: bool,
    index: u32,
    attr: &Attr,
    row: &Row,
    stamps: &[u64],
)
    requires two { length chains.old.families ≡ 2 }
    requires node { index < chains.old.nodes }
    requires priorities { length (family_at chains.old.families 0) ≡ 4 }
    requires stamps { chains.old.nodes ≤ length stamps.now }
    ensures nodes { chains.new.nodes ≡ chains.old.nodes }
    ensures lists { chains.new.families ≡
        if stays then chains.old.families else slice_set chains.old.families 0
        (with_insertion (key_at_node stamps.now) (family_at chains.old.families 0) index
        (by_priority attr.now row.now)) }
{
    if !stays {
        insert(chains, PRIORITIES, index, priority_of(attr, row), stamps);
    }
}

/// A node has no deadline any more, if it had one.
fn free(wheel: &mut Wheel, node: u32)
    requires node { node < length wheel.old.deadlines }
    requires filed { list_holding node wheel.old.slots ≡
        option_map slot_of (deadline_of wheel.old.deadlines node) }
    ensures deadlines { wheel.new.deadlines ≡ slice_set wheel.old.deadlines node None }
    ensures slots { wheel.new.slots ≡ map (list_without node) wheel.old.slots }
{
    if wheel.deadline_of(node).is_some() {
        wheel.remove(node);
    }
}

/// An alarm's places in the lists of its priority and area, unless they stay.
#[inline(always)]
fn rechain(chains: &mut Chains, stays: bool, index: u32, attr: &Attr, row: &Row)
    requires two { length chains.old.families ≡ 2 }
    requires node { index < chains.old.nodes }
    requires priorities { length (family_at chains.old.families 0) ≡ 4 }
    requires areas { attr.now.area < length (family_at chains.old.families 1) }
    ensures nodes { chains.new.nodes ≡ chains.old.nodes }
    ensures lists { chains.new.families ≡
        if stays then chains.old.families else chains_after chains.old.families index attr.now
        row.now }
{
    if !stays {
        refile(chains, PRIORITIES, index, priority_of(attr, row));
        refile(chains, AREAS, index, area_of(attr, row));
    }
}

/// A node has a deadline from now on, or none any more.
#[inline(never)]
fn schedule(wheel: &mut Wheel, node: u32, to: Option<u64>)
    requires node { node < length wheel.old.deadlines }
    requires filed { list_holding node wheel.old.slots ≡
        option_map slot_of (deadline_of wheel.old.deadlines node) }
    ensures deadlines { wheel.new.deadlines ≡ slice_set wheel.old.deadlines node to }
    ensures slots { wheel.new.slots ≡ filed_again wheel.old.slots node (option_map slot_of to) }
{
    free(wheel, node);
    if let Some(deadline) = to {
        wheel.put(node, deadline);
    }
}

/// An alarm's place in the wheel, unless that stays.
#[inline(always)]
fn reschedule(wheel: &mut Wheel, stays: bool, index: u32, row: &Row)
    requires node { index < length wheel.old.deadlines }
    requires filed { list_holding index wheel.old.slots ≡
        option_map slot_of (deadline_of wheel.old.deadlines index) }
    ensures deadlines { wheel.new.deadlines ≡
        if stays then wheel.old.deadlines else slice_set wheel.old.deadlines index
        row.now.shelved_until }
    ensures slots { wheel.new.slots ≡
        if stays then wheel.old.slots else filed_again wheel.old.slots index
        (option_map slot_of row.now.shelved_until) }
{
    if !stays {
        schedule(wheel, index, row.shelved_until);
    }
}

/// The row of an alarm.
fn row_at(rows: &[Row], index: usize) -> &Row
    requires { index < length rows.now }
    ensures row { slice_get rows.now index ≡ Some result.now }
    ensures state { IsState result.now }
{
    let row = &rows[index];
    // for the proof: what is always true of a row
    let _active = row.active;
    row
}

impl Nodes {
    /// Alarms at rest.
    pub fn new(alloc: Global, attrs: Vec<Attr>, areas: u32) -> Result<Self, AllocError>
        requires few { length attrs.items ≤ most_alarms }
        requires areas { All (λ a. a.area < areas) attrs.items }
        ensures { IfOk result
            (λ n. n ≡
            record
            { attrs = attrs.items; rows = replicate (length attrs.items) at_rest; areas = areas }) }
    {
        let count = attrs.len();
        Ok(Nodes {
            rows: vec![in alloc; Row::new(); count]?,
            stamps: vec![in alloc; 0; count]?,
            chains: Chains::new(alloc, count as u32, &[4, areas])?,
            wheel: Wheel::new(alloc, count as u32)?,
            attrs,
        })
    }

    pub fn attr(&self, index: usize) -> &Attr
        requires { index < length self.now.attrs }
        ensures { slice_get self.now.attrs index ≡ Some result.now }
    {
        &self.attrs[index]
    }

    pub fn row(&self, index: usize) -> &Row
        requires { index < length self.now.rows }
        ensures row { slice_get self.now.rows index ≡ Some result.now }
        ensures state { IsState result.now }
    {
        row_at(&self.rows, index)
    }

    pub fn attrs(&self) -> &[Attr]
        ensures { result.now ≡ self.now.attrs }
    {
        &self.attrs
    }

    pub fn rows(&self) -> &[Row]
        ensures { result.now ≡ self.now.rows }
    {
        &self.rows
    }

    /// A copy of it.
    pub fn copy(&self, alloc: Global) -> Result<Self, AllocError>
        ensures { IfOk result (λ n. n ≡ self.now) }
    {
        Ok(Nodes {
            attrs: self.attrs.to_vec(alloc)?,
            rows: self.rows.to_vec(alloc)?,
            stamps: self.stamps.to_vec(alloc)?,
            chains: self.chains.copy(alloc)?,
            wheel: self.wheel.copy(alloc)?,
        })
    }

    /// Alarms of rows, put by stamp.
    pub fn build(
        alloc: Global,
        attrs: Vec<Attr>,
        rows: &[Row],
        areas: u32,
        order: &[u32],
    ) -> Result<Self, AllocError>
        requires few { length attrs.items ≤ most_alarms }
        requires same { length attrs.items ≡ length rows.now }
        requires areas { All (λ a. a.area < areas) attrs.items }
        requires order { IsSortedFilter (stamp_in rows.now) (λ i. true) (length rows.now)
            order.now }
        requires distinct { AreDistinct rows.now }
        ensures { IfOk result
            (λ n. n ≡ record { attrs = attrs.items; rows = rows.now; areas = areas }) }
    {
        let mut nodes = Nodes::new(alloc, attrs, areas)?;
        for number in order {
            nodes.put(*number, *row_at(rows, *number as usize));
        }
        Ok(nodes)
    }

    pub fn alarms(&self) -> usize
        ensures { result ≡ length self.now.rows }
    {
        self.rows.len()
    }

    /// The row of an alarm becomes another.
    #[inline(always)]
    pub fn put(&mut self, index: u32, row: Row)
        requires here { index < length self.old.rows }
        requires placed { IsPlaced self.old.rows index row }
        ensures { self.new ≡ record self.old { rows = slice_set self.old.rows index row } }
    {
        let before = &self.rows[index as usize];
        let attr = &self.attrs[index as usize];
        let lists_stay = keeps_lists(before, &row);
        let slot_stays = keeps_slot(before, &row);
        self.rows[index as usize] = row;
        self.stamps[index as usize] = row.stamp;
        rechain(&mut self.chains, lists_stay, index, attr, &row);
        reschedule(&mut self.wheel, slot_stays, index, &row);
    }

    /// An alarm has other attributes, in the same area. In the list of another priority its place is by its stamp.
    pub fn set_attr(&mut self, index: u32, attr: Attr)
        requires here { index < length self.old.rows }
        requires area { area_in (slice_get self.old.attrs index) ≡ attr.area }
        requires distinct { AreDistinct self.old.rows }
        ensures { self.new ≡ record self.old { attrs = slice_set self.old.attrs index attr } }
    {
        let before = self.attrs[index as usize];
        let row = row_at(&self.rows, index as usize);
        let stays = before.priority == attr.priority;
        self.attrs[index as usize] = attr;
        reprioritize(&mut self.chains, stays, index, &attr, row, &self.stamps);
    }

    /// The shelvings that end up to a moment, if none ends by an earlier one: by deadline, then number.
    pub fn due(&self, from: u64, to: u64, out: &mut Vec<u32>)
        requires ahead { AreAhead from self.now.rows }
        requires room { length self.now.rows ≤ vec_capacity out.old }
        ensures due { out.new.items ≡ alarms_by deadline (is_due to) self.now.attrs self.now.rows }
        ensures each { All (λ i. i < length self.now.rows) out.new.items }
        ensures few { length out.new.items ≤ length self.now.rows }
        ensures room { vec_capacity out.new ≡ vec_capacity out.old }
    {
        self.wheel.due(from, to, out);
    }

    /// The alarms of a priority, one after the other.
    pub fn priority_list(&self, priority: u32) -> ListNodes<'_>
        requires priority { (1 ≤ priority) × (priority ≤ 4) }
        ensures { result ≡
            alarms_by stamp (stands_in (Priority priority)) self.now.attrs self.now.rows }
    {
        self.chains.iter(PRIORITIES, priority - 1)
    }

    /// Those of an area.
    pub fn area_list(&self, area: u32) -> ListNodes<'_>
        requires area { area < self.now.areas }
        ensures { result ≡ alarms_by stamp (stands_in (Area area)) self.now.attrs self.now.rows }
    {
        self.chains.iter(AREAS, area)
    }

    /// Those of a slot of the wheel.
    pub fn slot_list(&self, slot: u32) -> ListNodes<'_>
        requires slot { slot < wheel_slots }
        ensures { result ≡ alarms_by stamp (stands_in (Slot slot)) self.now.attrs self.now.rows }
    {
        self.wheel.iter(slot)
    }

    /// The vector then holds the alarms of a priority.
    pub fn list_priority(&self, priority: u32, out: &mut Vec<u32>)
        requires priority { (1 ≤ priority) × (priority ≤ 4) }
        requires room { length self.now.rows ≤ vec_capacity out.old }
        ensures list { out.new.items ≡
            alarms_by stamp (stands_in (Priority priority)) self.now.attrs self.now.rows }
        ensures room { vec_capacity out.new ≡ vec_capacity out.old }
    {
        out.clear();
        self.chains.append(PRIORITIES, priority - 1, out);
    }

    /// Those of an area.
    pub fn list_area(&self, area: u32, out: &mut Vec<u32>)
        requires area { area < self.now.areas }
        requires room { length self.now.rows ≤ vec_capacity out.old }
        ensures list { out.new.items ≡
            alarms_by stamp (stands_in (Area area)) self.now.attrs self.now.rows }
        ensures room { vec_capacity out.new ≡ vec_capacity out.old }
    {
        out.clear();
        self.chains.append(AREAS, area, out);
    }

    /// Those of a slot of the wheel.
    pub fn list_slot(&self, slot: u32, out: &mut Vec<u32>)
        requires slot { slot < wheel_slots }
        requires room { length self.now.rows ≤ vec_capacity out.old }
        ensures list { out.new.items ≡
            alarms_by stamp (stands_in (Slot slot)) self.now.attrs self.now.rows }
        ensures room { vec_capacity out.new ≡ vec_capacity out.old }
    {
        out.clear();
        self.wheel.append(slot, out);
    }
}
