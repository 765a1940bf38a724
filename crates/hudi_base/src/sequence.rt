// Lists that grow at their end.
ghost use Rattle.std.specs.Prelude.{◌≡◌, ◌∷◌, ◌++◌, [], ◌<◌, length, slice_get, Some, OnOk, OnErr, IsTrue, ◌↔◌};

use std::alloc::{AllocError, Global};
use std::marker::Model;

/// A list of values. Contracts see the list.
#[derive(Drop)]
pub struct Sequence<T> {
    held: Vec<T>,
}

impl<T> Model for Sequence<T> {
    ghost use Rattle.std.specs.Prelude.{List};
    ghost use Rattle.std.specs.Coded.{coded_list};

    ghost Value = { List T };

    ghost coded = { coded_list T.code };

    ghost view = { λ sequence. sequence.held.items };
}

impl<T> Sequence<T> {
    /// No values.
    pub fn new(alloc: Global) -> Sequence<T>
        ensures { result ≡ [] }
    {
        Sequence {
            held: Vec::new(alloc),
        }
    }

    /// The values of a vector, which it takes over.
    pub fn from_vec(values: Vec<T>) -> Sequence<T>
        ensures { result ≡ values.items }
    {
        Sequence { held: values }
    }

    /// The values as a vector.
    pub fn into_vec(self) -> Vec<T>
        ensures { result.items ≡ self }
    {
        self.held
    }

    /// Adds a value at the end. The only error is want of memory.
    pub fn push(&mut self, value: T) -> Result<(), AllocError>
    where
        T: Drop,
        ensures ok { OnOk result (self.new ≡ self.old ++ value ∷ []) }
        ensures err { OnErr result (self.new ≡ self.old) }
    {
        self.held.push(value)?;
        Ok(())
    }

    /// How many values there are.
    pub fn len(&self) -> usize
        ensures { result ≡ length self.now }
    {
        self.held.len()
    }

    /// Whether there is no value.
    pub fn is_empty(&self) -> bool
        ensures { IsTrue result ↔ (self.now ≡ []) }
    {
        self.held.is_empty()
    }

    /// The value at an index, from 0.
    pub fn at(&self, index: usize) -> &T
        requires { index < length self.now }
        ensures { slice_get self.now index ≡ Some result.now }
    {
        &self.held[index]
    }

    /// The values, in order.
    pub fn as_slice(&self) -> &[T]
        ensures { result.now ≡ self.now }
    {
        &self.held
    }
}
