// The fields of records.
ghost use Rattle.std.specs.Prelude.{◌≡◌, ◌∷◌, ◌++◌, [], take, IfOk, OnOk};
ghost use Rattle.row_records.specs.Records.{record_fields, text_field};

use crate::head::OWN_CELLS;
use hudi_base::Name;
use row_values::{CellType, FlatField, FlatFields, RowLayout};
use std::alloc::{AllocError, Global};

/// What the records of a table's rows are made of.
#[derive(Drop)]
pub struct RecordLayout {
    /// The fields of a row.
    pub own: RowLayout,
    /// The fields of a record: five strings, which tell where the row was written, and then the row's.
    pub fields: FlatFields,
    pub ghost whole: { fields ≡ record_fields own.fields },
}

// Adds a field of strings.
fn push_text(alloc: Global, fields: &mut FlatFields, name: &str) -> Result<(), AllocError>
    ensures { OnOk result (fields.new ≡ fields.old ++ text_field name.now ∷ []) }
{
    fields.push(FlatField {
        name: Name::from_text(alloc, name)?,
        cell: CellType::Text,
        nullable: false,
    })
}

fn copy_of(alloc: Global, field: &FlatField) -> Result<FlatField, AllocError>
    ensures { IfOk result (λ copied. copied ≡ field.now) }
{
    Ok(FlatField {
        name: field.name.copy(alloc)?,
        cell: field.cell,
        nullable: field.nullable,
    })
}

// Adds copies of fields.
fn push_all(alloc: Global, fields: &mut FlatFields, more: &[FlatField]) -> Result<(), AllocError>
    ensures { OnOk result (fields.new ≡ fields.old ++ more.now) }
{
    for field in more {
        fields.push(copy_of(alloc, field)?)?;
    }
    Ok(())
}

#[tactic(auto, unfolding(crate::specs::Records::record_fields))]
fn record_fields(alloc: Global, own: &[FlatField]) -> Result<FlatFields, AllocError>
    ensures { IfOk result (λ fields. fields ≡ record_fields own.now) }
{
    let mut fields = FlatFields::new(alloc);
    push_text(alloc, &mut fields, "_hoodie_commit_time")?;
    push_text(alloc, &mut fields, "_hoodie_commit_seqno")?;
    push_text(alloc, &mut fields, "_hoodie_record_key")?;
    push_text(alloc, &mut fields, "_hoodie_partition_path")?;
    push_text(alloc, &mut fields, "_hoodie_file_name")?;
    push_all(alloc, &mut fields, own)?;
    Ok(fields)
}

impl RecordLayout {
    /// The records of rows with this layout. The only error is want of memory.
    pub fn new(alloc: Global, own: RowLayout) -> Result<RecordLayout, AllocError>
        ensures { IfOk result (λ records. records.own ≡ own) }
    {
        let fields = record_fields(alloc, own.fields.as_slice())?;
        Ok(RecordLayout { own, fields })
    }

    // The fields before a row's own.
    #[tactic(auto, unfolding(crate::specs::Records::record_fields))]
    pub(crate) fn text_fields(&self) -> &[FlatField]
        ensures { result.now ≡ take 5 (record_fields self.now.own.fields) }
    {
        &self.fields.as_slice()[..OWN_CELLS]
    }
}
