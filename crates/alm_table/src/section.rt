//! A table of the file: its keys and their values.

ghost use Rattle.std.specs.Prelude.{◌≡◌, ◌≤◌, Some, None, Ok, [], false, IfOk, IfErr, option_map, IsTrue};
ghost use Rattle.toml.specs.Data.{get_member, as_bool};
ghost use Rattle.toml.specs.View.{view, table_view, array_view};
ghost use Rattle.alm_table.specs.TableFile.{first_unknown, if_known, field, natural, reading_of_data, kind_of_data, tag_of_data, text, tables, are_tables};
ghost use Rattle.alm_table.specs.Faults.{IsFaultIn, NamesKey};

use crate::keys::first_unknown;
use crate::load_fault::LoadFault;
use crate::values::{kind_of, natural_of, reading_of, tables_of, tag_of, text_of};
use alm_types::{Kind, Reading, Tag, Text};
use std::alloc::Global;
use toml::value::Array;
use toml::{Table, Value};

/// A table of the file: an alarm's by its number, or the file itself.
#[derive(Clone, Copy)]
pub struct Section<'a> {
    pub alloc: Global,
    pub alarm: Option<u32>,
    pub table: &'a Table,
}

/// The value at a key.
fn value_at<'a>(table: &'a Table, key: &str) -> Option<&'a Value>
    ensures { option_map (λ v. view v.now) result ≡ get_member key.now (table_view table.now) }
{
    table.get(key)
}

impl<'a> Section<'a> {
    /// What is wrong with a key.
    pub fn fault(&self, key: &str) -> LoadFault
        ensures { NamesKey result self.now.alarm key.now }
    {
        match String::from_str(self.alloc, key) {
            Ok(key) => LoadFault::Key(self.alarm, key),
            Err(_) => LoadFault::OutOfMemory,
        }
    }

    /// Checks that each of its keys is a known one.
    pub fn known(&self) -> Result<(), LoadFault>
        ensures ok { IfOk result
            (λ _. if_known self.now.alarm (table_view self.now.table.now) ≡ Ok []) }
        ensures err { IfErr result
            (λ e. IsFaultIn e (if_known self.now.alarm (table_view self.now.table.now))) }
    {
        match first_unknown(self.alarm, self.table) {
            None => Ok(()),
            Some(key) => Err(self.fault(key)),
        }
    }

    /// A number that has to be there.
    pub fn natural(&self, key: &str, least: u64, most: u64) -> Result<u64, LoadFault>
        ensures ok { IfOk result
            (λ n.
            field self.now.alarm (table_view self.now.table.now) key.now None (natural least most) ≡
            Ok n) }
        ensures limits { IfOk result (λ n. (least ≤ n) × (n ≤ most)) }
        ensures err { IfErr result
            (λ e. IsFaultIn e
            (field self.now.alarm (table_view self.now.table.now) key.now None
            (natural least most))) }
    {
        match value_at(self.table, key) {
            None => Err(self.fault(key)),
            Some(value) => match natural_of(value, least, most) {
                Some(number) => Ok(number),
                None => Err(self.fault(key)),
            },
        }
    }

    /// A number, 0 if it is missing.
    pub fn natural_or_zero(&self, key: &str, most: u64) -> Result<u64, LoadFault>
        ensures ok { IfOk result
            (λ n.
            field self.now.alarm (table_view self.now.table.now) key.now (Some 0) (natural 0 most) ≡
            Ok n) }
        ensures limits { IfOk result (λ n. n ≤ most) }
        ensures err { IfErr result
            (λ e. IsFaultIn e
            (field self.now.alarm (table_view self.now.table.now) key.now (Some 0)
            (natural 0 most))) }
    {
        match value_at(self.table, key) {
            None => Ok(0),
            Some(value) => match natural_of(value, 0, most) {
                Some(number) => Ok(number),
                None => Err(self.fault(key)),
            },
        }
    }

    /// The setpoint.
    pub fn reading(&self, key: &str) -> Result<Reading, LoadFault>
        ensures ok { IfOk result
            (λ r.
            field self.now.alarm (table_view self.now.table.now) key.now None reading_of_data ≡ Ok r) }
        ensures err { IfErr result
            (λ e. IsFaultIn e
            (field self.now.alarm (table_view self.now.table.now) key.now None reading_of_data)) }
    {
        match value_at(self.table, key).and_then(reading_of) {
            Some(reading) => Ok(reading),
            None => Err(self.fault(key)),
        }
    }

    pub fn kind(&self, key: &str) -> Result<Kind, LoadFault>
        ensures ok { IfOk result
            (λ k. field self.now.alarm (table_view self.now.table.now) key.now None kind_of_data ≡ Ok k) }
        ensures err { IfErr result
            (λ e.
            IsFaultIn e (field self.now.alarm (table_view self.now.table.now) key.now None kind_of_data)) }
    {
        match value_at(self.table, key).and_then(kind_of) {
            Some(kind) => Ok(kind),
            None => Err(self.fault(key)),
        }
    }

    /// A boolean, false if it is missing.
    pub fn truth(&self, key: &str) -> Result<bool, LoadFault>
        ensures ok { IfOk result
            (λ b.
            field self.now.alarm (table_view self.now.table.now) key.now (Some false) as_bool ≡
            Ok b) }
        ensures err { IfErr result
            (λ e. IsFaultIn e
            (field self.now.alarm (table_view self.now.table.now) key.now (Some false) as_bool)) }
    {
        match value_at(self.table, key) {
            None => Ok(false),
            Some(value) => match value.as_bool() {
                Some(truth) => Ok(truth),
                None => Err(self.fault(key)),
            },
        }
    }

    pub fn tag(&self, key: &str) -> Result<Tag, LoadFault>
        ensures ok { IfOk result
            (λ t. field self.now.alarm (table_view self.now.table.now) key.now None tag_of_data ≡ Ok t) }
        ensures err { IfErr result
            (λ e.
            IsFaultIn e (field self.now.alarm (table_view self.now.table.now) key.now None tag_of_data)) }
    {
        match value_at(self.table, key).and_then(tag_of) {
            Some(tag) => Ok(tag),
            None => Err(self.fault(key)),
        }
    }

    /// A text, empty if it is missing.
    pub fn text(&self, key: &str) -> Result<Text, LoadFault>
        ensures ok { IfOk result
            (λ t.
            field self.now.alarm (table_view self.now.table.now) key.now (Some []) text ≡ Ok t) }
        ensures err { IfErr result
            (λ e. IsFaultIn e
            (field self.now.alarm (table_view self.now.table.now) key.now (Some []) text)) }
    {
        let Some(value) = value_at(self.table, key) else {
            return Text::new(b"").ok_or(LoadFault::OutOfMemory);
        };
        match text_of(value) {
            Some(text) => Ok(text),
            None => Err(self.fault(key)),
        }
    }

    /// An array of tables.
    pub fn tables(&self, key: &str) -> Result<&'a Array, LoadFault>
        ensures ok { IfOk result
            (λ a. field self.now.alarm (table_view self.now.table.now) key.now None tables ≡
            Ok (array_view a.now)) }
        ensures tables { IfOk result (λ a. IsTrue (are_tables (array_view a.now))) }
        ensures err { IfErr result
            (λ e. IsFaultIn e
            (field self.now.alarm (table_view self.now.table.now) key.now None tables)) }
    {
        match value_at(self.table, key).and_then(tables_of) {
            Some(tables) => Ok(tables),
            None => Err(self.fault(key)),
        }
    }
}
