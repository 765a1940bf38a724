//! The numbers of the protocol's types: "Struct encoding" and "List and set" of Thrift's compact protocol.
ghost use Rattle.std.specs.Prelude.{◌≡◌};
ghost use Rattle.thrift_compact.specs.Types.{is_type};

/// A boolean field that is true. In a list, a set or a map this number and the next stand for a boolean of any value.
pub const TRUE: u8 = 1;
/// A boolean field that is false.
pub const FALSE: u8 = 2;
/// A byte.
pub const BYTE: u8 = 3;
/// A number of 16 bits.
pub const I16: u8 = 4;
/// A number of 32 bits.
pub const I32: u8 = 5;
/// A number of 64 bits.
pub const I64: u8 = 6;
/// A floating-point number.
pub const DOUBLE: u8 = 7;
/// Bytes, or a text.
pub const BINARY: u8 = 8;
/// A list.
pub const LIST: u8 = 9;
/// A set.
pub const SET: u8 = 10;
/// A map.
pub const MAP: u8 = 11;
/// A struct.
pub const STRUCT: u8 = 12;

// Whether the number is one of the twelve.
pub(crate) fn is_type(number: u8) -> bool
    ensures { result ≡ is_type number }
{
    TRUE <= number && number <= STRUCT
}
