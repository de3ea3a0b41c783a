ghost use Rattle.std.specs.Prelude.{◌≡◌, ◌++◌, map, flat_map, Some, IfOk, OnOk};
ghost use Rattle.cell_core.specs.CellText.{cell_text};
ghost use Rattle.csv.specs.Records.{fields_of, partial_of};
ghost use Rattle.csv.specs.Writing.{default_writer, with_flexible};
ghost use Rattle.reply_layout.specs.Layout.{row_record};

use cell_core::{Cell, Memory, Sequence};
use cell_text::write_cell;
use csv::{ByteRecord, WriterBuilder};
use std::alloc::Global;

/// The text, followed by the records of the rows.
pub(crate) fn with_records(
    alloc: Global,
    text: Vec<u8>,
    rows: &[Sequence<Cell>],
) -> Result<Vec<u8>, Memory>
    ensures { IfOk result (λ whole. whole.items ≡ text.items ++ flat_map row_record rows.now) }
{
    // Rows of several widths are no error here.
    let mut writer = WriterBuilder::new().flexible(true).from_writer(text);
    let mut fields = ByteRecord::new(alloc);
    let mut field = Vec::new(alloc);
    for row in rows {
        fill_record(row.as_slice(), &mut field, &mut fields)?;
        match writer.write_byte_record(&fields) {
            Ok(()) => {}
            Err(_) => return Err(Memory),
        }
    }
    match writer.into_inner() {
        Ok(whole) => Ok(whole),
        Err(_) => Err(Memory),
    }
}

/// Fills the record with the cells of a row. `field` is a buffer for the text of one cell at a
/// time.
fn fill_record(row: &[Cell], field: &mut Vec<u8>, fields: &mut ByteRecord) -> Result<(), Memory>
    ensures { OnOk result (fields_of fields.new ≡ map cell_text row.now) }
{
    fields.clear();
    for cell in row {
        field.clear();
        write_cell(cell, field)?;
        fields.push_field(field)?;
    }
    Ok(())
}
