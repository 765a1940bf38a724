// Why a text names no schema.
ghost use Rattle.std.specs.Prelude.{◌≡◌, ◌⊎◌, [], ◌∷◌, IfOk};
ghost use Rattle.avro_schema.specs.declared.schema_error.SchemaError.TheVariants.{Memory, BadSchema};
ghost use Rattle.avro_schema.specs.SchemaTexts.{inside};

use hudi_base::Sequence;
use std::alloc::{AllocError, AllocFailed, Global};

/// The way from the root to a schema: the position of each union's branch and each record's field, from 0. An array's
/// items and a map's values are at position 0.
pub type Path = Sequence<usize>;

/// Why a text names no schema.
#[derive(Drop)]
pub enum SchemaError {
    /// There was not enough memory.
    Memory,
    /// The text is no JSON in UTF-8.
    NotJson,
    /// The schema there is a text that is no primitive type's name.
    NamedReference(Path),
    /// The schema there is `float` or `double`.
    FloatType(Path),
    /// What stands there is no schema, breaks a rule of the list in which it stands, or is nested too deep.
    BadSchema(Path),
}

impl SchemaError {
    // What stands here is no schema. It takes no memory.
    pub(crate) fn bad(alloc: Global) -> SchemaError
        ensures { result ≡ BadSchema [] }
    {
        SchemaError::BadSchema(Path::new(alloc))
    }

    // The same refusal, seen from the schema that has it inside at a position.
    pub(crate) fn inside(self, position: usize) -> SchemaError
        ensures { (result ≡ Memory) ⊎ (result ≡ inside position self) }
    {
        match self {
            SchemaError::NamedReference(path) => match longer_path(position, path) {
                Ok(path) => SchemaError::NamedReference(path),
                Err(_) => SchemaError::Memory,
            },
            SchemaError::FloatType(path) => match longer_path(position, path) {
                Ok(path) => SchemaError::FloatType(path),
                Err(_) => SchemaError::Memory,
            },
            SchemaError::BadSchema(path) => match longer_path(position, path) {
                Ok(path) => SchemaError::BadSchema(path),
                Err(_) => SchemaError::Memory,
            },
            other => other,
        }
    }
}

// The path with one more position before it.
fn longer_path(position: usize, path: Path) -> Result<Path, AllocFailed<usize>>
    ensures { IfOk result (λ longer. longer ≡ position ∷ path) }
{
    let mut positions = path.into_vec();
    positions.insert(0, position)?;
    Ok(Path::from_vec(positions))
}

impl From<AllocError> for SchemaError {
    ghost use Rattle.std.specs.Prelude.{◌≡◌};
    ghost use Rattle.avro_schema.specs.declared.schema_error.SchemaError.TheVariants.{Memory};

    ghost from_gives = { λ _ e. e ≡ Memory };

    fn from(_e: AllocError) -> SchemaError {
        SchemaError::Memory
    }
}

impl<T: Drop> From<AllocFailed<T>> for SchemaError {
    ghost use Rattle.std.specs.Prelude.{◌≡◌};
    ghost use Rattle.avro_schema.specs.declared.schema_error.SchemaError.TheVariants.{Memory};

    ghost from_gives = { λ _ e. e ≡ Memory };

    fn from(_e: AllocFailed<T>) -> SchemaError {
        SchemaError::Memory
    }
}
