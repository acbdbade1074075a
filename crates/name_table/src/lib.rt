//! Label sets by number, looked up by their hash.
//!
//! A [`NameTable`] has the texts of label sets in the order in which they were named. It tells the
//! number of one, and the one of a number, and forgets all from a number on.
//!
//! It stands on `indexmap`, whose set keeps its keys in the order of their coming.
#![tactic(auto)]

ghost use Rattle.std.specs.Prelude.{◌≡◌, ◌<◌, ◌≤◌, ◌++◌, ◌∷◌, [], length, take};
ghost use Rattle.std.specs.Prelude.{get_or, IfOk, MatchOption, OnErr, OnOk};
ghost use Rattle.name_table.specs.Names.{number_of};

use indexmap::IndexSet;
use std::alloc::{AllocError, Global};
use std::marker::Model;

/// Label sets in the order in which they were named. The number of one is its place.
#[derive(Drop)]
pub struct NameTable {
    keys: IndexSet<Vec<u8>>,
    alloc: Global,
}

impl Model for NameTable {
    ghost use Rattle.std.specs.Prelude.{ℕ, List};
    ghost use Rattle.name_table.specs.Keys.{keys_in};

    ghost Value = { List (List ℕ) };

    ghost view = { λ t. keys_in t.keys.keys };
}

impl NameTable {
    /// No names.
    pub fn new(alloc: Global) -> NameTable
        ensures { result ≡ [] }
    {
        NameTable {
            keys: IndexSet::new(alloc),
            alloc,
        }
    }

    /// Where it takes memory from.
    pub fn alloc(&self) -> Global {
        self.alloc
    }

    /// How many there are.
    pub fn len(&self) -> usize
        ensures { result ≡ length self.now }
    {
        self.keys.len()
    }

    /// The number of a label set, or how many there are.
    pub fn number_of(&self, text: &[u8]) -> usize
        ensures { result ≡ number_of text.now self.now }
    {
        match self.keys.get_index_of(text) {
            Some(number) => number,
            None => self.keys.len(),
        }
    }

    /// The label set of a number.
    pub fn get(&self, number: usize) -> Option<&[u8]>
        ensures { MatchOption result (length self.now ≤ number)
            (λ n. (number < length self.now) × (n.now ≡ get_or self.now number [])) }
    {
        match self.keys.get_index(number) {
            Some(key) => Some(key.as_slice()),
            None => None,
        }
    }

    /// Names a label set that has no number: it gets the next one.
    pub fn push(&mut self, text: Vec<u8>) -> Result<(), AllocError>
        requires { number_of text.items self.old ≡ length self.old }
        ensures ok { OnOk result (self.new ≡ self.old ++ text.items ∷ []) }
        ensures err { OnErr result (self.new ≡ self.old) }
    {
        self.keys.insert(text)?;
        Ok(())
    }

    /// Forgets all names but the first ones.
    pub fn forget(&mut self, len: usize)
        ensures { self.new ≡ take len self.old }
    {
        self.keys.truncate(len);
    }

    /// The same names once more.
    pub fn copied(&self, alloc: Global) -> Result<NameTable, AllocError>
        ensures { IfOk result (λ copy. copy ≡ self.now) }
    {
        let mut copy = NameTable::new(alloc);
        for number in 0..self.len() {
            let Some(text) = self.get(number) else {
                return Err(AllocError);
            };
            if copy.number_of(text) != copy.len() {
                return Err(AllocError);
            }
            copy.push(Vec::from_slice(alloc, text)?)?;
        }
        Ok(copy)
    }
}
