// Reading, item by item.
ghost use Rattle.std.specs.Prelude.{◌≡◌, ◌-◌, ◌≤◌, length};
ghost use Rattle.byte_fields.specs.Varints.{varint_at, zigzag_at};
ghost use Rattle.byte_fields.specs.Prefixed.{prefixed_at};
ghost use Rattle.thrift_compact.specs.Heads.{field_at, list_at};
ghost use Rattle.thrift_compact.specs.Values.{value_at};
ghost use Rattle.thrift_compact.specs.Cursor.{offset_of, Reads};

use crate::heads::{field_at, list_at};
use crate::skipping::{MAX_LEVELS, after_value};
use crate::thrift_error::ThriftError;
use byte_fields::{varint_prefixed_at, zigzag_i32_at, zigzag_i64_at};
use std::marker::Model;

/// A reader of bytes, which takes no memory. Contracts see the bytes that are left, and of how many they are the last.
/// A call that fails moves nothing.
#[derive(Drop)]
pub struct TReader<'a> {
    rest: &'a [u8],
    total: usize,
}

impl<'a> Model for TReader<'a> {
    ghost use Rattle.std.specs.Prelude.{◌≤◌, length};
    ghost use Rattle.thrift_compact.specs.Cursor.{Cursor};

    ghost Value = { Cursor };

    ghost view = { λ reader. record { total = reader.total; rest = reader.rest.now } };

    ghost invariant = { λ reader. length reader.rest.now ≤ reader.total };
}

impl<'a> TReader<'a> {
    /// A reader that stands at the first byte.
    pub fn new(bytes: &'a [u8]) -> TReader<'a>
        ensures { result ≡ record { total = length bytes.now; rest = bytes.now } }
    {
        TReader {
            rest: bytes,
            total: bytes.len(),
        }
    }

    /// How many bytes have been read: the offset of the next item.
    pub fn offset(&self) -> usize
        ensures offset { result ≡ offset_of self.now }
        ensures within { length self.now.rest ≤ self.now.total }
    {
        self.total - self.rest.len()
    }

    /// The id and type of the next field, whose struct's last field had the id `last`, or 0 where there was none. None is
    /// the stop byte.
    pub fn field(&mut self, last: i16) -> Result<Option<(i16, u8)>, ThriftError>
        ensures { Reads (λ x. x) self.old self.new result (field_at last self.old.rest) }
    {
        match field_at(last, self.rest) {
            Ok((field, rest)) => {
                self.rest = rest;
                Ok(field)
            }
            Err(error) => Err(ThriftError::in_total(self.total, error)),
        }
    }

    /// A number of 32 bits.
    pub fn i32(&mut self) -> Result<i32, ThriftError>
        ensures { Reads (λ x. x) self.old self.new result (zigzag_at 32 self.old.rest) }
    {
        match zigzag_i32_at(self.rest) {
            Ok((number, rest)) => {
                self.rest = rest;
                Ok(number)
            }
            Err(error) => Err(ThriftError::in_total(self.total, error)),
        }
    }

    /// A number of 64 bits.
    pub fn i64(&mut self) -> Result<i64, ThriftError>
        ensures { Reads (λ x. x) self.old self.new result (zigzag_at 64 self.old.rest) }
    {
        match zigzag_i64_at(self.rest) {
            Ok((number, rest)) => {
                self.rest = rest;
                Ok(number)
            }
            Err(error) => Err(ThriftError::in_total(self.total, error)),
        }
    }

    /// A binary, which is lent from the bytes.
    pub fn binary(&mut self) -> Result<&'a [u8], ThriftError>
        ensures { Reads (λ x. x.now) self.old self.new result (prefixed_at (varint_at 32) self.old.rest) }
    {
        match varint_prefixed_at(self.rest) {
            Ok((content, rest)) => {
                self.rest = rest;
                Ok(content)
            }
            Err(error) => Err(ThriftError::in_total(self.total, error)),
        }
    }

    /// The type of a list's items, and how many there are. The number is claimed and says nothing of the bytes.
    pub fn list(&mut self) -> Result<(u8, u32), ThriftError>
        ensures { Reads (λ x. x) self.old self.new result (list_at self.old.rest) }
    {
        match list_at(self.rest) {
            Ok((head, rest)) => {
                self.rest = rest;
                Ok(head)
            }
            Err(error) => Err(ThriftError::in_total(self.total, error)),
        }
    }

    /// Passes over a value of any of the twelve types, with containers nested at most 32 deep; any other type is bad.
    pub fn skip(&mut self, kind: u8) -> Result<(), ThriftError>
        ensures { Reads (λ x. tt) self.old self.new result (value_at 32 kind self.old.rest) }
    {
        match after_value(MAX_LEVELS, kind, self.rest) {
            Ok(rest) => {
                self.rest = rest;
                Ok(())
            }
            Err(error) => Err(ThriftError::in_total(self.total, error)),
        }
    }
}
