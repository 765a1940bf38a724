// What holds of the grammar. The functions do nothing: their clauses are laws.
ghost use Rattle.std.specs.Prelude.{◌≡◌, ◌<◌, ◌≤◌, ◌-◌, ◌+◌, ◌^◌, ◌++◌, ℕ, List, length, Ok, Err};
ghost use Rattle.hudi_base.specs.declared.value.Value.{Value};
ghost use Rattle.byte_fields.specs.declared.field_error.FieldError.{FieldError};
ghost use Rattle.byte_fields.specs.Reading.{left_of};
ghost use Rattle.avro_schema.specs.AvroTypes.{AvroType};
ghost use Rattle.avro_schema.specs.Grammar.{IsReading};
ghost use Rattle.avro_schema.specs.Fits.{Fits};
ghost use Rattle.avro_schema.specs.Written.{item_count, written};
ghost use Rattle.avro_schema.specs.Reading.{value_at};

/// What is read is a reading of the value, whose items are counted; and each reading of a value whose items are within the
/// limit is read, whatever follows it.
pub fn readings_are_read()
    ensures found { (type : AvroType) (left m : ℕ) (bytes rest : List ℕ) (v : Value) → value_at type left bytes ≡ Ok ((v, m), rest) → (prefix : List ℕ) × (bytes ≡ prefix ++ rest) × IsReading type v prefix × (m + item_count v ≡ left) }
    ensures again { (type : AvroType) (left : ℕ) (prefix rest : List ℕ) (v : Value) → IsReading type v prefix → item_count v ≤ left → value_at type left (prefix ++ rest) ≡ Ok ((v, left - item_count v), rest) }
{}

/// The written form of a value of a type is a reading of it, and only values of the type have readings.
pub fn written_forms_are_readings()
    ensures written { (type : AvroType) (v : Value) → Fits type v → IsReading type v (written v) }
    ensures fits { (type : AvroType) (v : Value) (bytes : List ℕ) → IsReading type v bytes → item_count v < 2 ^ 63 → Fits type v }
{}

/// The first primitive that can't be read begins within the bytes, or at their end.
pub fn refusals_stand_within()
    ensures { (type : AvroType) (left : ℕ) (bytes : List ℕ) (error : FieldError) → value_at type left bytes ≡ Err error → left_of error ≤ length bytes }
{}
