// Files, and groups with their files, as JSON.
ghost use Rattle.std.specs.Prelude.{◌≡◌};
ghost use Rattle.meta_parts.specs.Parts.{file_in, plan_group_in, base_in, file_json, plan_group_json, base_json};

use crate::form::{Form, at_member};
use crate::groups::{group_at, has_only, id_json};
use crate::{BaseMade, NamedFile, PlanGroup};
use hudi_base::{Name, Sequence};
use serde_json::{Value, json};
use std::alloc::{AllocError, Global};

impl Form for NamedFile {
    ghost reads = { λ _. file_in };

    ghost writes = { λ _. file_json };

    #[tactic(auto, unfolding(crate::specs::Parts::file_in))]
    fn read(alloc: Global, table: &Name, value: &Value) -> Result<Option<NamedFile>, AllocError> {
        if !has_only(&["length", "name"], value) {
            return Ok(None);
        }
        let Some(length) = at_member::<u64>(alloc, table, "length", value)? else {
            return Ok(None);
        };
        match at_member::<Name>(alloc, table, "name", value)? {
            Some(name) => Ok(Some(NamedFile { name, length })),
            None => Ok(None),
        }
    }

    fn to_json(&self, alloc: Global, table: &Name) -> Result<Value, AllocError> {
        let name = self.name.to_json(alloc, table)?;
        json!(in alloc; {"length": self.length, "name": name})
    }
}

impl Form for PlanGroup {
    ghost reads = { plan_group_in };

    ghost writes = { plan_group_json };

    #[tactic(auto, unfolding(crate::specs::Parts::plan_group_in))]
    fn read(alloc: Global, table: &Name, value: &Value) -> Result<Option<PlanGroup>, AllocError> {
        if !has_only(&["base", "file", "logs", "partition"], value) {
            return Ok(None);
        }
        let Some(group) = group_at(alloc, table, value)? else {
            return Ok(None);
        };
        let Some(base) = at_member::<Option<NamedFile>>(alloc, table, "base", value)? else {
            return Ok(None);
        };
        match at_member::<Sequence<NamedFile>>(alloc, table, "logs", value)? {
            Some(logs) => Ok(Some(PlanGroup { group, base, logs })),
            None => Ok(None),
        }
    }

    fn to_json(&self, alloc: Global, table: &Name) -> Result<Value, AllocError> {
        let base = self.base.to_json(alloc, table)?;
        let id = id_json(alloc, table, &self.group)?;
        let logs = self.logs.to_json(alloc, table)?;
        let partition = self.group.partition.to_json(alloc, table)?;
        json!(in alloc; {"base": base, "file": id, "logs": logs, "partition": partition})
    }
}

impl Form for BaseMade {
    ghost reads = { base_in };

    ghost writes = { base_json };

    #[tactic(auto, unfolding(crate::specs::Parts::base_in))]
    fn read(alloc: Global, table: &Name, value: &Value) -> Result<Option<BaseMade>, AllocError> {
        if !has_only(&["file", "length", "name", "partition", "rows"], value) {
            return Ok(None);
        }
        let Some(group) = group_at(alloc, table, value)? else {
            return Ok(None);
        };
        let Some(name) = at_member::<Name>(alloc, table, "name", value)? else {
            return Ok(None);
        };
        let Some(length) = at_member::<u64>(alloc, table, "length", value)? else {
            return Ok(None);
        };
        match at_member::<u64>(alloc, table, "rows", value)? {
            Some(rows) => Ok(Some(BaseMade {
                group,
                name,
                length,
                rows,
            })),
            None => Ok(None),
        }
    }

    fn to_json(&self, alloc: Global, table: &Name) -> Result<Value, AllocError> {
        let id = id_json(alloc, table, &self.group)?;
        let name = self.name.to_json(alloc, table)?;
        let partition = self.group.partition.to_json(alloc, table)?;
        json!(in alloc; {
            "file": id,
            "length": self.length,
            "name": name,
            "partition": partition,
            "rows": self.rows
        })
    }
}
