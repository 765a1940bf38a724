// The values of fields, as every format of the table has them.
use crate::{Bytes, Name};
use sqlite_items::{Boxed, Items};

/// A value of a field or of a record, of the types of Apache Avro but its floating-point numbers.
#[derive(Drop)]
#[cycle(value)]
pub enum Value {
    /// No value.
    Null,
    Boolean(bool),
    Int(i32),
    Long(i64),
    Bytes(Bytes),
    /// A string.
    Text(Name),
    /// Bytes whose number the type fixes.
    Fixed(Bytes),
    /// The index of a symbol in its type, from 0.
    Enum(u32),
    Array(Values),
    /// Pairs in the order in which they came. Keys may repeat.
    Map(Pairs),
    /// The index of a branch in its type, from 0, and its value.
    Union(u32, Boxed<Value>),
    /// The values of a record's fields, in their order.
    Record(Values),
}

/// Values in some order.
pub type Values = Items<Value>;

/// An entry of a map.
#[derive(Drop)]
#[cycle(value)]
pub struct Pair {
    pub key: Name,
    pub value: Value,
}

/// The entries of a map in some order.
pub type Pairs = Items<Pair>;
