//! A table of the tree.

ghost use Rattle.std.specs.Prelude.{◌≡◌, OnOk};
ghost use Rattle.toml.specs.View.{view, table_view};
ghost use Rattle.alm_export.specs.Tree.{with_member};

use std::alloc::{AllocError, Global};
use toml::{Table, Value};

/// Puts a value at a key.
pub fn put(alloc: Global, table: &mut Table, key: &str, value: Value) -> Result<(), AllocError>
    ensures { OnOk result
        (table_view table.new ≡ with_member key.now (view value) (table_view table.old)) }
{
    let key = String::from_str(alloc, key)?;
    match table.insert(key, value) {
        Ok(_) => Ok(()),
        Err(_) => Err(AllocError),
    }
}
