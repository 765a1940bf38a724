// Values with a form in JSON: texts, numbers, times, and what may be null.
ghost use Rattle.std.specs.Prelude.{◌≡◌};
ghost use Rattle.meta_parts.specs.Members.{text_in, number_in, number_32_in, time_in, kind_in, or_null};
ghost use Rattle.meta_parts.specs.Parts.{text_json, number_json, time_json, kind_json, null_or};

use crate::form::Form;
use file_names::Action;
use hudi_base::{InstantTime, Name};
use serde_json::Value;
use std::alloc::{AllocError, Global};

impl Form for Name {
    ghost reads = { λ _. text_in };

    ghost writes = { λ _. text_json };

    fn read(alloc: Global, _table: &Name, value: &Value) -> Result<Option<Name>, AllocError> {
        match value.as_str() {
            Some(text) => Ok(Some(Name::from_text(alloc, text)?)),
            None => Ok(None),
        }
    }

    fn to_json(&self, alloc: Global, _table: &Name) -> Result<Value, AllocError> {
        Ok(Value::String(String::from_str(alloc, self.as_str())?))
    }
}

impl Form for u64 {
    ghost reads = { λ _. number_in };

    ghost writes = { λ _. number_json };

    fn read(_alloc: Global, _table: &Name, value: &Value) -> Result<Option<u64>, AllocError> {
        Ok(value.as_u64())
    }

    fn to_json(&self, _alloc: Global, _table: &Name) -> Result<Value, AllocError> {
        Ok(Value::from(*self))
    }
}

impl Form for u32 {
    ghost reads = { λ _. number_32_in };

    ghost writes = { λ _. number_json };

    fn read(_alloc: Global, _table: &Name, value: &Value) -> Result<Option<u32>, AllocError> {
        match value.as_u64() {
            Some(number) if number < 0x1_0000_0000 => Ok(Some(number as u32)),
            _ => Ok(None),
        }
    }

    fn to_json(&self, _alloc: Global, _table: &Name) -> Result<Value, AllocError> {
        Ok(Value::from(*self))
    }
}

// Seventeen digits.
impl Form for InstantTime {
    ghost reads = { λ _. time_in };

    ghost writes = { λ _. time_json };

    fn read(
        _alloc: Global,
        _table: &Name,
        value: &Value,
    ) -> Result<Option<InstantTime>, AllocError> {
        match value.as_str() {
            Some(text) => Ok(InstantTime::from_text(text.as_bytes())),
            None => Ok(None),
        }
    }

    fn to_json(&self, alloc: Global, table: &Name) -> Result<Value, AllocError> {
        Name::from_slice(alloc, &self.text())?.to_json(alloc, table)
    }
}

// Null, or a value.
impl<T: Form> Form for Option<T> {
    ghost reads = { λ table. or_null (T.reads table) };

    ghost writes = { λ table. null_or (T.writes table) };

    fn read(alloc: Global, table: &Name, value: &Value) -> Result<Option<Option<T>>, AllocError> {
        if value.is_null() {
            return Ok(Some(None));
        }
        match T::read(alloc, table, value)? {
            Some(x) => Ok(Some(Some(x))),
            None => Ok(None),
        }
    }

    fn to_json(&self, alloc: Global, table: &Name) -> Result<Value, AllocError> {
        match self {
            Some(x) => x.to_json(alloc, table),
            None => Ok(Value::Null),
        }
    }
}

// The name of an action that a rollback takes back.
impl Form for Action {
    ghost reads = { λ _. kind_in };

    ghost writes = { λ _. kind_json };

    fn read(_alloc: Global, _table: &Name, value: &Value) -> Result<Option<Action>, AllocError> {
        match value.as_str() {
            Some("deltacommit") => Ok(Some(Action::Delta)),
            Some("replacecommit") => Ok(Some(Action::Replace)),
            _ => Ok(None),
        }
    }

    fn to_json(&self, alloc: Global, _table: &Name) -> Result<Value, AllocError> {
        let name = match self {
            Action::Delta => "deltacommit",
            Action::Compaction => "compaction",
            Action::Replace => "replacecommit",
            Action::Clean => "clean",
            Action::Rollback => "rollback",
        };
        Ok(Value::String(String::from_str(alloc, name)?))
    }
}
