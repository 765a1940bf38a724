// The name of a file.
ghost use Rattle.std.specs.Prelude.{◌≡◌, ◌≢◌, ◌++◌, ◌∷◌, IfOk, codes, string_bytes};
ghost use Rattle.std.specs.Fmt.{decimal};
ghost use Rattle.hudi_base.specs.InstantTime.{time_text};
ghost use Rattle.file_names.specs.declared.file_name.FileName.TheVariants.{Other};
ghost use Rattle.file_names.specs.FileName.{instant_ending, token_text, name_of};

use crate::endings::ending;
use crate::{Action, FileName, NameError, State, Token, file_id};
use hudi_base::{GroupRef, InstantTime, Name};
use std::alloc::{AllocError, Global};

fn time_text(alloc: Global, t: InstantTime) -> Result<Name, AllocError>
    ensures { IfOk result (λ text. text ≡ time_text t) }
{
    Name::from_slice(alloc, &t.text())
}

fn token_text(alloc: Global, token: Token) -> Result<String, AllocError>
    ensures { IfOk result (λ text. string_bytes text ≡ token_text token) }
{
    let session = token.session;
    let attempt = token.attempt;
    format!(in alloc; "0-{session}-{attempt}")
}

fn instant_text(
    alloc: Global,
    t: InstantTime,
    action: Action,
    state: State,
) -> Result<String, AllocError>
    ensures { IfOk result (λ text. string_bytes text ≡ codes ".hoodie/" ++ (time_text t ++ instant_ending action state)) }
{
    let time = time_text(alloc, t)?;
    let time = time.as_str();
    let ending = ending(action, state);
    format!(in alloc; ".hoodie/{time}{ending}")
}

fn base_text(
    alloc: Global,
    partition: &str,
    id: &str,
    token: Token,
    t: InstantTime,
) -> Result<String, AllocError>
    ensures { IfOk result (λ text. string_bytes text
        ≡ partition.now ++ (47 ∷ (id.now ++ (95 ∷ (token_text token ++ (95 ∷ (time_text t ++ codes ".parquet"))))))) }
{
    let token = token_text(alloc, token)?;
    let token = token.as_str();
    let time = time_text(alloc, t)?;
    let time = time.as_str();
    format!(in alloc; "{partition}/{id}_{token}_{time}.parquet")
}

fn log_text(
    alloc: Global,
    partition: &str,
    id: &str,
    slice: InstantTime,
    version: u64,
    token: Token,
) -> Result<String, AllocError>
    ensures { IfOk result (λ text. string_bytes text
        ≡ partition.now ++ (47 ∷ (46 ∷ (id.now ++ (95 ∷ ((time_text slice ++ (codes ".log." ++ decimal version)) ++ (95 ∷ token_text token))))))) }
{
    let token = token_text(alloc, token)?;
    let token = token.as_str();
    let slice = time_text(alloc, slice)?;
    let slice = slice.as_str();
    format!(in alloc; "{partition}/.{id}_{slice}.log.{version}_{token}")
}

#[tactic(auto, unfolding(crate::specs::FileName::name_of))]
fn file_text(alloc: Global, table: &Name, file: &FileName) -> Result<String, NameError>
    requires { file.now ≢ Other }
    ensures { IfOk result (λ text. string_bytes text ≡ name_of table.now file.now) }
{
    match file {
        FileName::Instant(t, action, state) => Ok(instant_text(alloc, *t, *action, *state)?),
        FileName::Base(group, token, t) => {
            let id = file_id(alloc, table, group)?;
            Ok(base_text(alloc, group.partition.as_str(), id.as_str(), *token, *t)?)
        }
        FileName::Log(group, slice, version, token) => {
            let id = file_id(alloc, table, group)?;
            Ok(log_text(
                alloc,
                group.partition.as_str(),
                id.as_str(),
                *slice,
                *version,
                *token,
            )?)
        }
        FileName::Properties => Ok(String::from_str(alloc, ".hoodie/hoodie.properties")?),
        FileName::Other => unreachable!(),
    }
}

/// The name of a file of this table.
pub fn text(alloc: Global, table: &Name, file: &FileName) -> Result<Name, NameError>
    requires { file.now ≢ Other }
    ensures { IfOk result (λ name. name ≡ name_of table.now file.now) }
{
    let name = file_text(alloc, table, file)?;
    Ok(Name::from_text(alloc, name.as_str())?)
}
