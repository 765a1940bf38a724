// Writing, item by item.
ghost use Rattle.std.specs.Prelude.{◌≡◌, ◌∷◌, ◌++◌, [], ◌<◌, ◌^◌, pos, ◌+ℤ◌, ◌-ℤ◌, ◌<ℤ◌, ◌≤ℤ◌, nat_abs, length, OnOk, OnErr};
ghost use Rattle.byte_fields.specs.Varints.{varint, zigzag};
ghost use Rattle.byte_fields.specs.Prefixed.{with_length};
ghost use Rattle.thrift_compact.specs.Heads.{field_head, list_head};
ghost use Rattle.thrift_compact.specs.Writing.{IsItemType, TakesField, TakesItem, IsInStruct, difference_of, after_field, after_item, after_struct, with_items};

use crate::types::{BINARY, I32, I64, LIST, STRUCT};
use byte_fields::{put_varint, put_varint_prefixed, put_zigzag};
use std::alloc::{AllocError, Global};
use std::collections::VecDeque;
use std::marker::Model;

/// What is being written: a struct, or the items of a list.
#[derive(Clone, Copy)]
pub enum Level {
    /// A struct whose last field had this id, or 0 before its first field.
    Struct { last: i16 },
    /// A list that still wants so many items of this type.
    Items { kind: u8, left: u32 },
}

/// A writer of one struct. Contracts see the bytes so far and what is open, the innermost first. A call that fails, for
/// want of memory alone, leaves it as it was.
#[derive(Drop)]
pub struct TWriter {
    bytes: Vec<u8>,
    level: Option<Level>,
    outer: VecDeque<Level>,
}

impl Model for TWriter {
    ghost use Rattle.thrift_compact.specs.Writing.{Written, levels_of};

    ghost Value = { Written };

    ghost view = { λ writer. record {
      bytes = writer.bytes.items;
      levels = levels_of writer.level writer.outer.items;
    } };
}

// Adds the first byte and a number, or nothing.
fn put_number(out: &mut Vec<u8>, head: u8, number: i64) -> Result<(), AllocError>
    ensures ok { OnOk result (out.new.items ≡ out.old.items ++ head ∷ [] ++ varint (zigzag number)) }
    ensures err { OnErr result (out.new.items ≡ out.old.items) }
{
    let start = out.len();
    out.push(head)?;
    match put_zigzag(out, number) {
        Ok(()) => Ok(()),
        Err(error) => {
            out.truncate(start);
            Err(error)
        }
    }
}

// Adds the first byte and a binary, or nothing.
fn put_binary(out: &mut Vec<u8>, head: u8, content: &[u8]) -> Result<(), AllocError>
    requires { length content.now < 2 ^ 32 }
    ensures ok { OnOk result (out.new.items ≡ out.old.items ++ head ∷ [] ++ with_length varint content.now) }
    ensures err { OnErr result (out.new.items ≡ out.old.items) }
{
    let start = out.len();
    out.push(head)?;
    match put_varint_prefixed(out, content) {
        Ok(()) => Ok(()),
        Err(error) => {
            out.truncate(start);
            Err(error)
        }
    }
}

// Adds a list's head, or nothing.
#[tactic(auto, unfolding(crate::specs::Heads::list_head))]
fn put_list_head(out: &mut Vec<u8>, kind: u8, len: u32) -> Result<(), AllocError>
    requires { kind < 16 }
    ensures ok { OnOk result (out.new.items ≡ out.old.items ++ list_head kind len) }
    ensures err { OnErr result (out.new.items ≡ out.old.items) }
{
    if len < 15 {
        out.push(len as u8 * 16 + kind)?;
        return Ok(());
    }
    let start = out.len();
    out.push(240 + kind)?;
    match put_varint(out, u64::from(len)) {
        Ok(()) => Ok(()),
        Err(error) => {
            out.truncate(start);
            Err(error)
        }
    }
}

// Adds the heads of a field and of the list that it is, or nothing.
fn put_list(out: &mut Vec<u8>, head: u8, kind: u8, len: u32) -> Result<(), AllocError>
    requires { kind < 16 }
    ensures ok { OnOk result (out.new.items ≡ out.old.items ++ head ∷ [] ++ list_head kind len) }
    ensures err { OnErr result (out.new.items ≡ out.old.items) }
{
    let start = out.len();
    out.push(head)?;
    match put_list_head(out, kind, len) {
        Ok(()) => Ok(()),
        Err(error) => {
            out.truncate(start);
            Err(error)
        }
    }
}

// The byte of a field's head in a struct whose last field has the id `last`.
fn head_byte(last: i16, id: i16, kind: u8) -> u8
    requires above { last <ℤ id }
    requires near { id ≤ℤ (last +ℤ pos 15) }
    requires kind { kind < 16 }
    ensures { result ∷ [] ≡ field_head (nat_abs (id -ℤ last)) kind }
{
    (id - last) as u8 * 16 + kind
}

impl TWriter {
    /// A writer in the outer struct, which has no field yet.
    pub fn new(alloc: Global) -> TWriter
        ensures { result ≡ record { bytes = []; levels = Level.Struct (pos 0) ∷ [] } }
    {
        TWriter {
            bytes: Vec::new(alloc),
            level: Some(Level::Struct { last: 0 }),
            outer: VecDeque::new(alloc),
        }
    }

    // The byte of the head of a field of the innermost struct.
    fn field_head(&self, id: i16, kind: u8) -> u8
        requires field { TakesField id self.now.levels }
        requires kind { kind < 16 }
        ensures { result ∷ [] ≡ field_head (difference_of id self.now.levels) kind }
    {
        match self.level {
            Some(Level::Struct { last }) => head_byte(last, id, kind),
            _ => unreachable!(),
        }
    }

    // Goes back to the list's surroundings after its last item.
    fn end_item(&mut self)
        ensures { self.new ≡ record self.old { levels = after_item self.old.levels } }
    {
        if let Some(Level::Items { kind, left }) = self.level {
            if left <= 1 {
                self.level = self.outer.pop_front();
            } else {
                self.level = Some(Level::Items {
                    kind,
                    left: left - 1,
                });
            }
        }
    }

    /// Adds a field that is a number of 32 bits.
    pub fn field_i32(&mut self, id: i16, number: i32) -> Result<(), AllocError>
        requires { TakesField id self.old.levels }
        ensures ok { OnOk result
            (self.new ≡ record {
              bytes = self.old.bytes ++ field_head (difference_of id self.old.levels) I32
                  ++ varint (zigzag number);
              levels = after_field id self.old.levels;
            }) }
        ensures err { OnErr result (self.new ≡ self.old) }
    {
        let head = self.field_head(id, I32);
        put_number(&mut self.bytes, head, i64::from(number))?;
        self.level = Some(Level::Struct { last: id });
        Ok(())
    }

    /// Adds a field that is a number of 64 bits.
    pub fn field_i64(&mut self, id: i16, number: i64) -> Result<(), AllocError>
        requires { TakesField id self.old.levels }
        ensures ok { OnOk result
            (self.new ≡ record {
              bytes = self.old.bytes ++ field_head (difference_of id self.old.levels) I64
                  ++ varint (zigzag number);
              levels = after_field id self.old.levels;
            }) }
        ensures err { OnErr result (self.new ≡ self.old) }
    {
        let head = self.field_head(id, I64);
        put_number(&mut self.bytes, head, number)?;
        self.level = Some(Level::Struct { last: id });
        Ok(())
    }

    /// Adds a field that is a binary, which is shorter than 2^32 bytes.
    pub fn field_binary(&mut self, id: i16, content: &[u8]) -> Result<(), AllocError>
        requires field { TakesField id self.old.levels }
        requires short { length content.now < 2 ^ 32 }
        ensures ok { OnOk result
            (self.new ≡ record {
              bytes = self.old.bytes ++ field_head (difference_of id self.old.levels) BINARY
                  ++ with_length varint content.now;
              levels = after_field id self.old.levels;
            }) }
        ensures err { OnErr result (self.new ≡ self.old) }
    {
        let head = self.field_head(id, BINARY);
        put_binary(&mut self.bytes, head, content)?;
        self.level = Some(Level::Struct { last: id });
        Ok(())
    }

    /// Adds a field that is a list of so many items of a type: i32, binary or struct. The items are added next.
    pub fn field_list(&mut self, id: i16, kind: u8, len: u32) -> Result<(), AllocError>
        requires field { TakesField id self.old.levels }
        requires kind { IsItemType kind }
        ensures ok { OnOk result
            (self.new ≡ record {
              bytes = self.old.bytes ++ field_head (difference_of id self.old.levels) LIST
                  ++ list_head kind len;
              levels = with_items kind len (after_field id self.old.levels);
            }) }
        ensures err { OnErr result (self.new ≡ self.old) }
    {
        let head = self.field_head(id, LIST);
        if len == 0 {
            put_list(&mut self.bytes, head, kind, len)?;
            self.level = Some(Level::Struct { last: id });
            return Ok(());
        }
        self.outer.push_front(Level::Struct { last: id })?;
        match put_list(&mut self.bytes, head, kind, len) {
            Ok(()) => {
                self.level = Some(Level::Items { kind, left: len });
                Ok(())
            }
            Err(error) => {
                let _ = self.outer.pop_front();
                Err(error)
            }
        }
    }

    /// Adds a field that is a struct, whose fields are added next, and then its stop byte.
    pub fn field_struct(&mut self, id: i16) -> Result<(), AllocError>
        requires { TakesField id self.old.levels }
        ensures ok { OnOk result
            (self.new ≡ record {
              bytes = self.old.bytes ++ field_head (difference_of id self.old.levels) STRUCT;
              levels = Level.Struct (pos 0) ∷ after_field id self.old.levels;
            }) }
        ensures err { OnErr result (self.new ≡ self.old) }
    {
        let head = self.field_head(id, STRUCT);
        self.outer.push_front(Level::Struct { last: id })?;
        match self.bytes.push(head) {
            Ok(()) => {
                self.level = Some(Level::Struct { last: 0 });
                Ok(())
            }
            Err(error) => {
                let _ = self.outer.pop_front();
                Err(error.into())
            }
        }
    }

    /// Adds an item of a list of numbers.
    pub fn item_i32(&mut self, number: i32) -> Result<(), AllocError>
        requires { TakesItem I32 self.old.levels }
        ensures ok { OnOk result
            (self.new ≡ record {
              bytes = self.old.bytes ++ varint (zigzag number);
              levels = after_item self.old.levels;
            }) }
        ensures err { OnErr result (self.new ≡ self.old) }
    {
        put_zigzag(&mut self.bytes, i64::from(number))?;
        self.end_item();
        Ok(())
    }

    /// Adds an item of a list of binaries, which is shorter than 2^32 bytes.
    pub fn item_binary(&mut self, content: &[u8]) -> Result<(), AllocError>
        requires item { TakesItem BINARY self.old.levels }
        requires short { length content.now < 2 ^ 32 }
        ensures ok { OnOk result
            (self.new ≡ record {
              bytes = self.old.bytes ++ with_length varint content.now;
              levels = after_item self.old.levels;
            }) }
        ensures err { OnErr result (self.new ≡ self.old) }
    {
        put_varint_prefixed(&mut self.bytes, content)?;
        self.end_item();
        Ok(())
    }

    /// Begins an item of a list of structs, whose fields are added next, and then its stop byte.
    pub fn item_struct(&mut self) -> Result<(), AllocError>
        requires { TakesItem STRUCT self.old.levels }
        ensures ok { OnOk result
            (self.new ≡ record self.old { levels = Level.Struct (pos 0) ∷ after_item self.old.levels }) }
        ensures err { OnErr result (self.new ≡ self.old) }
    {
        if let Some(Level::Items { kind, left }) = self.level {
            if left > 1 {
                let left = left - 1;
                self.outer.push_front(Level::Items { kind, left })?;
            }
        }
        self.level = Some(Level::Struct { last: 0 });
        Ok(())
    }

    /// Ends the innermost struct.
    pub fn stop(&mut self) -> Result<(), AllocError>
        requires { IsInStruct self.old.levels }
        ensures ok { OnOk result
            (self.new ≡ record { bytes = self.old.bytes ++ 0 ∷ []; levels = after_struct self.old.levels }) }
        ensures err { OnErr result (self.new ≡ self.old) }
    {
        self.bytes.push(0)?;
        self.level = self.outer.pop_front();
        Ok(())
    }

    /// The bytes, once no struct is open.
    pub fn finish(self) -> Vec<u8>
        requires { self.levels ≡ [] }
        ensures { result.items ≡ self.bytes }
    {
        self.bytes
    }
}
