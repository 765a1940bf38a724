// The members of the objects that files hold, and the one at fault.
ghost use Rattle.std.specs.Prelude.{◌≡◌, ◌⊎◌, ℕ, List, Result, Err, option_map};
ghost use Rattle.serde_json.specs.View.{view};
ghost use Rattle.commit_meta.specs.Metadata.{required, with_unknown};
ghost use Rattle.commit_meta.specs.Texts.{Answers};
ghost use Rattle.commit_meta.specs.declared.meta.Meta.{Meta};
ghost use Rattle.commit_meta.specs.declared.meta_error.MetaTextError.TheVariants.{Memory, BadMeta};

use crate::{Meta, MetaTextError};
use hudi_base::Name;
use meta_parts::{Form, at_member};
use serde_json::Value;
use std::alloc::Global;

// The member of that name is at fault.
pub(crate) fn bad(alloc: Global, name: &str) -> MetaTextError
    ensures { (result ≡ Memory) ⊎ (result ≡ BadMeta name.now) }
{
    match Name::from_text(alloc, name) {
        Ok(field) => MetaTextError::BadMeta(field),
        Err(_) => MetaTextError::Memory,
    }
}

// The value of a member that has to be there.
pub(crate) fn required<T: Form>(
    alloc: Global,
    table: &Name,
    name: &str,
    value: &Value,
) -> Result<T, MetaTextError>
    ensures { Answers (λ x. x) result (required (T.reads table.now) name.now (view value.now)) }
{
    match at_member(alloc, table, name, value)? {
        Some(x) => Ok(x),
        None => Err(bad(alloc, name)),
    }
}

// What was read of an object that has an unknown member.
fn unknown_too(alloc: Global, unknown: &str, read: Result<Meta, MetaTextError>) -> MetaTextError
    ensures { (told : Result Meta (List ℕ)) → Answers (λ meta. meta) read told
        → Answers (λ meta. meta) (Err result) (with_unknown (Some unknown.now) told) }
{
    match read {
        Ok(_) => bad(alloc, unknown),
        Err(MetaTextError::Memory) => MetaTextError::Memory,
        Err(MetaTextError::BadMeta(field)) => {
            if field.as_str() > unknown {
                bad(alloc, unknown)
            } else {
                MetaTextError::BadMeta(field)
            }
        }
    }
}

// An unknown member is at fault too.
pub(crate) fn with_unknown(
    alloc: Global,
    unknown: Option<&str>,
    read: Result<Meta, MetaTextError>,
) -> Result<Meta, MetaTextError>
    ensures { (told : Result Meta (List ℕ)) → Answers (λ meta. meta) read told
        → Answers (λ meta. meta) result (with_unknown (option_map (λ name. name.now) unknown.entry) told) }
{
    match unknown {
        Some(name) => Err(unknown_too(alloc, name, read)),
        None => read,
    }
}
