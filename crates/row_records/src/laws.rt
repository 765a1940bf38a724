// What holds of the cells of records. The function does nothing: its clause is a law.
ghost use Rattle.std.specs.Prelude.{◌≡◌, ◌↔◌, List, Some};
ghost use Rattle.hudi_base.specs.declared.value.Value.{Value};
ghost use Rattle.payload_merge.specs.declared.row.Row.{Row};
ghost use Rattle.payload_merge.specs.Contents.{DataPlace};
ghost use Rattle.row_values.specs.declared.row_layout.RowLayout.{RowLayout};
ghost use Rattle.row_values.specs.Cells.{AreCells};
ghost use Rattle.row_records.specs.Records.{IsRecordOf, record_fields, row_at};

/// Cells that fit the fields of records stand for a row at a place exactly where they are those of the row's record there.
pub fn records_have_rows()
    ensures { (layout : RowLayout) (place : DataPlace) (row : Row) (cells : List Value) → AreCells (record_fields layout.fields) cells →
        (row_at layout place cells ≡ Some row) ↔ IsRecordOf layout place row cells }
{}
