// What a file contains.
ghost use Rattle.std.specs.Prelude.{◌≡◌, ◌++◌, length, min, take, drop, IfOk, OnOk, OnErr};

use std::alloc::{AllocError, Global};
use std::marker::Model;

/// The bytes of a file, which grow at their end.
#[derive(Drop)]
pub struct Content {
    bytes: Vec<u8>,
}

impl Model for Content {
    ghost use Rattle.std.specs.Prelude.{List, ℕ};

    ghost Value = { List ℕ };

    ghost view = { λ content. content.bytes.items };
}

impl Content {
    /// A copy of the bytes.
    pub fn from_slice(alloc: Global, bytes: &[u8]) -> Result<Content, AllocError>
        ensures { IfOk result (λ content. content ≡ bytes.now) }
    {
        Ok(Content {
            bytes: Vec::from_slice(alloc, bytes)?,
        })
    }

    /// Adds bytes at the end, in place where there is room.
    pub fn extend(&mut self, bytes: &[u8]) -> Result<(), AllocError>
        ensures ok { OnOk result (self.new ≡ self.old ++ bytes.now) }
        ensures err { OnErr result (self.new ≡ self.old) }
    {
        self.bytes.extend_from_slice(bytes)
    }

    /// The bytes.
    pub fn as_slice(&self) -> &[u8]
        ensures { result.now ≡ self.now }
    {
        &self.bytes
    }
}

/// The bytes from an offset on, `len` of them or fewer where they end.
pub fn piece(bytes: &[u8], offset: u64, len: u64) -> &[u8]
    ensures { result.now ≡ take len (drop offset bytes.now) }
{
    prefix(&bytes[bytes.len().min(offset as usize)..], len)
}

/// The first `len` bytes, or all where there are fewer.
pub fn prefix(bytes: &[u8], len: u64) -> &[u8]
    ensures { result.now ≡ take len bytes.now }
{
    &bytes[..bytes.len().min(len as usize)]
}

/// Copies bytes to the beginning of a buffer: as many as both have, and at most `most`. Says how many.
pub fn fill(buf: &mut [u8], bytes: &[u8], most: usize) -> usize
    ensures count { result ≡ min most (min (length buf.old) (length bytes.now)) }
    ensures bytes { buf.new ≡ take result bytes.now ++ drop result buf.old }
{
    let n = most.min(buf.len().min(bytes.len()));
    buf[..n].copy_from_slice(&bytes[..n]);
    n
}
