// Properties, and why a text says none.
use avro_schema::Schema;
use hudi_base::Name;
use std::alloc::AllocError;

/// What a table was made with.
#[derive(Drop)]
pub struct Props {
    /// The table's name.
    pub name: Name,
    /// The schema of its rows, which is flat: a record of fields that are booleans, ints, longs, bytes or strings, or
    /// null or one of these.
    pub schema: Schema,
    /// The place of the record key's field in the schema, from 0. It is a string.
    pub key: u32,
    /// The place of the partition's field. It is a string.
    pub partition: u32,
    /// The place of the ordering field, if there is one. It is an int or a long, or null or one of these.
    pub ordering: Option<u32>,
    /// How many file groups a new partition begins with.
    pub buckets: u16,
}

/// Why a text says no properties.
#[derive(Clone, Copy, Debug, PartialEq, Eq)]
pub enum PropsError {
    /// There was not enough memory.
    Memory,
    /// The number of the line that is refused, from 1: it has no `=`, has a listed key again, or a value that its key
    /// can't have. It is the number of lines plus one where each line passes and all together they say no properties.
    BadProps(usize),
}

impl From<AllocError> for PropsError {
    ghost use Rattle.std.specs.Prelude.{◌≡◌};
    ghost use Rattle.table_props.specs.declared.props.PropsError.TheVariants.{Memory};

    ghost from_gives = { λ _ e. e ≡ Memory };

    fn from(_e: AllocError) -> PropsError {
        PropsError::Memory
    }
}
