// Why an item was not read.
ghost use Rattle.std.specs.Prelude.{◌≡◌, ◌-◌, length};
ghost use Rattle.byte_fields.specs.Reading.{left_of, of_item};
ghost use Rattle.byte_fields.specs.declared.field_error.FieldError.TheVariants.{Short, Bad};

/// Why an item was not read. `left` is the number of bytes from the item's first byte to the end of the bytes that
/// were given, so an error can be handed up from a reader of the rest without any arithmetic.
#[derive(Clone, Copy, Debug, PartialEq, Eq)]
pub enum FieldError {
    /// The bytes end inside the item.
    Short { left: usize },
    /// The item is not one of its grammar.
    Bad { left: usize },
}

impl FieldError {
    /// The bytes end inside the item that begins with these.
    pub fn short(item: &[u8]) -> FieldError
        ensures { result ≡ Short (length item.now) }
    {
        FieldError::Short { left: item.len() }
    }

    /// The item that begins with these bytes is bad.
    pub fn bad(item: &[u8]) -> FieldError
        ensures { result ≡ Bad (length item.now) }
    {
        FieldError::Bad { left: item.len() }
    }

    /// How many bytes there are from the item's first one on.
    pub fn left(self) -> usize
        ensures { result ≡ left_of self }
    {
        match self {
            FieldError::Short { left } | FieldError::Bad { left } => left,
        }
    }

    /// The item's offset in the `total` bytes that were given.
    pub fn offset(self, total: usize) -> usize
        ensures { result ≡ total - left_of self }
    {
        total.saturating_sub(self.left())
    }

    /// The same error of the item that begins with these bytes, of which the one that failed is a part.
    pub fn of_item(self, item: &[u8]) -> FieldError
        ensures { result ≡ of_item item.now self }
    {
        match self {
            FieldError::Short { .. } => FieldError::short(item),
            FieldError::Bad { .. } => FieldError::bad(item),
        }
    }
}
