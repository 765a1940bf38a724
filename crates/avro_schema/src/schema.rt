// Avro schemas, as trees.
use hudi_base::{Name, Sequence};
use sqlite_items::{Boxed, Items};

/// A schema of Apache Avro, without its floating-point types and without named references ("Schema Declaration" of its
/// specification).
#[derive(Drop)]
#[cycle(schema)]
pub enum Schema {
    Null,
    Boolean,
    Int,
    Long,
    Bytes,
    /// A string, in UTF-8.
    Text,
    /// The type's name and its number of bytes.
    Fixed(Name, u32),
    /// The type's name and its symbols, in their order.
    Enum(Name, Symbols),
    /// The schema of the items.
    Array(Boxed<Schema>),
    /// The schema of the values. Keys are strings.
    Map(Boxed<Schema>),
    /// The branches, in their order.
    Union(Schemas),
    /// The type's name and its fields, in their order.
    Record(Name, Fields),
}

/// The symbols of an enum.
pub type Symbols = Sequence<Name>;

/// Schemas in some order.
pub type Schemas = Items<Schema>;

/// A field of a record.
#[derive(Drop)]
#[cycle(schema)]
pub struct Field {
    pub name: Name,
    pub schema: Schema,
}

/// The fields of a record, in their order.
pub type Fields = Items<Field>;
