//! The values of a table file's keys.

ghost use Rattle.std.specs.Prelude.{◌≡◌, option_map};
ghost use Rattle.toml.specs.View.{view, array_view};
ghost use Rattle.alm_table.specs.TableFile.{natural, reading_of_data, kind_named, kind_of_data, tag_of_data, text, tables, are_tables};

use alm_types::{Kind, Reading, Tag, Text};
use toml::Value;
use toml::value::Array;

/// A number in its limits.
pub fn natural_of(value: &Value, least: u64, most: u64) -> Option<u64>
    ensures { result ≡ natural least most (view value.now) }
{
    let number = u64::try_from(value.as_integer()?).ok()?;
    if least <= number && number <= most {
        Some(number)
    } else {
        None
    }
}

/// A kind by its name.
fn kind_named(name: &str) -> Option<Kind>
    ensures { result ≡ kind_named name.now }
{
    if name == "high" {
        Some(Kind::High)
    } else if name == "low" {
        Some(Kind::Low)
    } else if name == "discrete" {
        Some(Kind::Discrete)
    } else {
        None
    }
}

/// Whether each item is a table.
fn are_tables(array: &Array) -> bool
    ensures { result ≡ are_tables (array_view array.now) }
{
    for value in array {
        match value.as_table() {
            Some(_) => {}
            None => return false,
        }
    }
    true
}

pub fn reading_of(value: &Value) -> Option<Reading>
    ensures { result ≡ reading_of_data (view value.now) }
{
    Reading::new(value.as_integer()?)
}

pub fn kind_of(value: &Value) -> Option<Kind>
    ensures { result ≡ kind_of_data (view value.now) }
{
    kind_named(value.as_str()?)
}

pub fn tag_of(value: &Value) -> Option<Tag>
    ensures { result ≡ tag_of_data (view value.now) }
{
    Tag::new(value.as_str()?.as_bytes())
}

pub fn text_of(value: &Value) -> Option<Text>
    ensures { result ≡ text (view value.now) }
{
    Text::new(value.as_str()?.as_bytes())
}

pub fn tables_of(value: &Value) -> Option<&Array>
    ensures { option_map (λ a. array_view a.now) result ≡ tables (view value.now) }
{
    let array = value.as_array()?;
    if are_tables(array) { Some(array) } else { None }
}
