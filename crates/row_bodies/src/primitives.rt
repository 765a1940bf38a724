// Cells of the five types.
ghost use Rattle.std.specs.Prelude.{ℕ, if◌then◌else◌};
ghost use Rattle.byte_fields.specs.Reading.{Gives};
ghost use Rattle.byte_fields.specs.Varints.{zigzag_at};
ghost use Rattle.byte_fields.specs.Prefixed.{prefixed_at, long_length_at, text_at};
ghost use Rattle.hudi_base.specs.declared.value.Value as variant;
ghost use Rattle.avro_schema.specs.Reading.{boolean_at, index_at, plain, value_at};
ghost use Rattle.row_values.specs.Fields.{cell_type};
ghost use Rattle.row_values.specs.Cells.{cell_view};

use byte_fields::{
    FieldError, long_prefixed_at, long_text_at, u8_at, zigzag_i32_at, zigzag_i64_at,
};
use row_values::{CellRef, CellType};

// A boolean, a byte 0 or 1.
#[tactic(auto, unfolding(avro_schema::specs::Reading::boolean_at))]
fn boolean_at(bytes: &[u8]) -> Result<(bool, &[u8]), FieldError>
    ensures { Gives (λ x. (x.0, x.1.now)) result (boolean_at bytes.now) }
{
    let (byte, rest) = u8_at(bytes)?;
    if byte > 1 {
        return Err(FieldError::bad(bytes));
    }
    Ok((byte == 1, rest))
}

// Whether a value is of the second of two branches.
#[tactic(auto, unfolding(avro_schema::specs::Reading::index_at))]
pub(crate) fn branch_at(bytes: &[u8]) -> Result<(bool, &[u8]), FieldError>
    ensures { Gives (λ x. (if x.0 then 1 else 0, x.1.now)) result (index_at 2 bytes.now) }
{
    let (index, rest) = zigzag_i32_at(bytes)?;
    match index {
        0 => Ok((false, rest)),
        1 => Ok((true, rest)),
        _ => Err(FieldError::bad(bytes)),
    }
}

fn boolean_cell(bytes: &[u8]) -> Result<(CellRef<'_>, &[u8]), FieldError>
    ensures { (left : ℕ) → Gives (λ x. ((cell_view x.0, left), x.1.now)) result
        (plain variant.Boolean left (boolean_at bytes.now)) }
{
    let (truth, rest) = boolean_at(bytes)?;
    Ok((CellRef::Boolean(truth), rest))
}

fn int_cell(bytes: &[u8]) -> Result<(CellRef<'_>, &[u8]), FieldError>
    ensures { (left : ℕ) → Gives (λ x. ((cell_view x.0, left), x.1.now)) result
        (plain variant.Int left (zigzag_at 32 bytes.now)) }
{
    let (number, rest) = zigzag_i32_at(bytes)?;
    Ok((CellRef::Int(number), rest))
}

fn long_cell(bytes: &[u8]) -> Result<(CellRef<'_>, &[u8]), FieldError>
    ensures { (left : ℕ) → Gives (λ x. ((cell_view x.0, left), x.1.now)) result
        (plain variant.Long left (zigzag_at 64 bytes.now)) }
{
    let (number, rest) = zigzag_i64_at(bytes)?;
    Ok((CellRef::Long(number), rest))
}

fn bytes_cell(bytes: &[u8]) -> Result<(CellRef<'_>, &[u8]), FieldError>
    ensures { (left : ℕ) → Gives (λ x. ((cell_view x.0, left), x.1.now)) result
        (plain variant.Bytes left (prefixed_at long_length_at bytes.now)) }
{
    let (content, rest) = long_prefixed_at(bytes)?;
    Ok((CellRef::Bytes(content), rest))
}

fn text_cell(bytes: &[u8]) -> Result<(CellRef<'_>, &[u8]), FieldError>
    ensures { (left : ℕ) → Gives (λ x. ((cell_view x.0, left), x.1.now)) result
        (plain variant.Text left (text_at long_length_at bytes.now)) }
{
    let (text, rest) = long_text_at(bytes)?;
    Ok((CellRef::Text(text), rest))
}

// A cell of a type.
pub(crate) fn cell_at(cell: CellType, bytes: &[u8]) -> Result<(CellRef<'_>, &[u8]), FieldError>
    ensures { (left : ℕ) → Gives (λ x. ((cell_view x.0, left), x.1.now)) result
        (value_at (cell_type cell) left bytes.now) }
{
    match cell {
        CellType::Boolean => boolean_cell(bytes),
        CellType::Int => int_cell(bytes),
        CellType::Long => long_cell(bytes),
        CellType::Bytes => bytes_cell(bytes),
        CellType::Text => text_cell(bytes),
    }
}
