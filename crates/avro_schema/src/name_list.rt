// Names that are found one after another, none of them twice.
ghost use Rattle.std.specs.Prelude.{◌≡◌, [], ◌∷◌, ◌++◌, length, map, OnOk};
ghost use Rattle.avro_schema.specs.Names.{is_among};

use std::alloc::{AllocError, Global};
use std::collections::BTreeMap;
use std::marker::Model;

// Names in the order in which they were found. A table of them tells whether a name is one, so that none is compared
// with all the others.
#[derive(Drop)]
pub(crate) struct NameList<'a> {
    names: Vec<&'a str>,
    table: BTreeMap<&'a str, ()>,
}

impl<'a> Model for NameList<'a> {
    ghost use Rattle.std.specs.Prelude.{List, ℕ, map};
    ghost use Rattle.avro_schema.specs.NameLists.{IsTableOf};

    ghost Value = { List (List ℕ) };

    ghost view = { λ list. map (λ name. name.now) list.names.items };

    ghost invariant = { λ list. IsTableOf (map (λ name. name.now) list.names.items) list.table };
}

impl<'a> NameList<'a> {
    pub(crate) fn new(alloc: Global) -> NameList<'a>
        ensures { result ≡ [] }
    {
        NameList {
            names: Vec::new(alloc),
            table: BTreeMap::new(alloc),
        }
    }

    pub(crate) fn len(&self) -> usize
        ensures { result ≡ length self.now }
    {
        self.names.len()
    }

    pub(crate) fn as_slice(&self) -> &[&'a str]
        ensures { map (λ name. name.now) result.now ≡ self.now }
    {
        &self.names
    }

    // Whether the name was found.
    pub(crate) fn has(&self, name: &'a str) -> bool
        ensures { result ≡ is_among self.now name.now }
    {
        self.table.contains_key(&name)
    }

    // Adds a name at the end. The only error is want of memory.
    pub(crate) fn push(&mut self, name: &'a str) -> Result<(), AllocError>
        ensures { OnOk result (self.new ≡ self.old ++ name.now ∷ []) }
    {
        self.names.reserve(1)?;
        match self.table.insert(name, ()) {
            Ok(_) => match self.names.push(name) {
                Ok(()) => Ok(()),
                Err(_) => unreachable!(),
            },
            Err(_) => Err(AllocError),
        }
    }
}
