//! Exporting a plant's table.

ghost use Rattle.std.specs.Prelude.{◌≡◌, IfOk, string_bytes};
ghost use Rattle.alm_export.specs.Tree.{named_size};
ghost use Rattle.alm_export.specs.Exported.{IsTableText, Exports, CountsExport};

use crate::plant_tree::plant_table;
use crate::show_fault::ShowFault;
use alm_desk::CountedWriter;
use alm_lines::Part;
use alm_model::Alarms;
use std::alloc::{AllocError, Global};
use std::io::Write;

/// The greatest size that a table file may name, in bytes.
const SIZE_LIMIT: u64 = 1_099_511_627_776;

/// The size that a table file may name, nearest to a device's.
fn named_size(size: u64) -> u64
    ensures { result ≡ named_size size }
{
    size.clamp(1, SIZE_LIMIT)
}

/// The text of a plant's table.
fn table_text<P: Alarms>(alloc: Global, plant: &P, size: u64) -> Result<String, AllocError>
    ensures { IfOk result (λ s. IsTableText size (P.plant plant.now) (string_bytes s)) }
{
    let table = plant_table(alloc, plant, named_size(size))?;
    match toml::table_to_string(alloc, &table) {
        Ok(text) => Ok(text),
        Err(_) => Err(AllocError),
    }
}

/// Writes a plant's table as a table file, with the size of its device in bytes. A size that such a file can't name is written as the
/// nearest that it can, 1 to 2^40.
pub fn export_plant<P: Alarms, W: Write + Drop>(
    alloc: Global,
    plant: &P,
    size: u64,
    writer: &mut CountedWriter<W>,
) -> Result<(), ShowFault>
    ensures text { Exports size (P.plant plant.now) (W.contents writer.old.inner)
        (W.contents writer.new.inner) result }
    ensures counts { CountsExport result writer.old.failed writer.new.failed }
{
    let text = match table_text(alloc, plant, size) {
        Ok(text) => text,
        Err(AllocError) => return Err(ShowFault::OutOfMemory),
    };
    writer.parts(&[Part::Word(text.as_str())])?;
    Ok(())
}
