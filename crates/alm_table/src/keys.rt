//! The keys of a table file.

ghost use Rattle.std.specs.Prelude.{◌≡◌, option_map};
ghost use Rattle.toml.specs.View.{table_view};
ghost use Rattle.alm_table.specs.TableFile.{first_unknown, is_key};

use toml::Table;

/// Whether an alarm has such a key, or the file itself.
fn is_key(alarm: Option<u32>, key: &str) -> bool
    ensures { result ≡ is_key alarm key.now }
{
    match alarm {
        None => (key == "size") | (key == "areas") | (key == "alarm"),
        Some(_) => {
            (key == "kind")
                | (key == "setpoint")
                | (key == "priority")
                | (key == "area")
                | (key == "deadband")
                | (key == "max_shelve")
                | (key == "latching")
                | (key == "tag")
                | (key == "text")
        }
    }
}

/// The first key that neither has.
pub fn first_unknown(alarm: Option<u32>, table: &Table) -> Option<&str>
    ensures { option_map (λ k. k.now) result ≡ first_unknown (is_key alarm) (table_view table.now) }
{
    for (key, _) in table.iter() {
        if !is_key(alarm, key.as_str()) {
            return Some(key.as_str());
        }
    }
    None
}
