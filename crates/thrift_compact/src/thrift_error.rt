// Why a reader could not read.
ghost use Rattle.std.specs.Prelude.{◌≡◌, ◌≤◌};
ghost use Rattle.byte_fields.specs.Reading.{left_of};
ghost use Rattle.thrift_compact.specs.Cursor.{error_of, offset_named};

use byte_fields::FieldError;

/// Why an item was not read, with the offset of its first byte in the bytes that the reader was made with. Reading takes
/// no memory, so there is no variant for the want of it; a writer's only error is `AllocError`.
#[derive(Clone, Copy, Debug, PartialEq, Eq)]
pub enum ThriftError {
    /// The bytes end inside the item.
    Short(usize),
    /// The item is outside the compact protocol, or a container is nested too deep.
    BadThrift(usize),
}

impl ThriftError {
    /// The offset of the item's first byte.
    pub fn offset(self) -> usize
        ensures { result ≡ offset_named self }
    {
        match self {
            ThriftError::Short(offset) | ThriftError::BadThrift(offset) => offset,
        }
    }

    // The same error in `total` bytes.
    pub(crate) fn in_total(total: usize, error: FieldError) -> ThriftError
        requires { left_of error ≤ total }
        ensures error { error_of total result ≡ error }
        ensures within { offset_named result ≤ total }
    {
        match error {
            FieldError::Short { left } => ThriftError::Short(total - left),
            FieldError::Bad { left } => ThriftError::BadThrift(total - left),
        }
    }
}
