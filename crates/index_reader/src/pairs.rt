//! The pairs of the offset table: read by their symbols, and found by their texts.

ghost use Rattle.std.specs.List.{Contains};
ghost use Rattle.std.specs.Prelude.{◌≡◌, ◌+◌, ◌<◌, ◌≤◌, length, slice_get, Some, IfOk, IfSome};
ghost use Rattle.std.specs.Prelude.{IfNone};
ghost use Rattle.index_reader.specs.Reading.Agreement.{key_at, keys_at};
ghost use Rattle.index_reader.specs.CheckedFile.{symbol_texts};
ghost use Rattle.index_reader.specs.Indexes.{values_of};
ghost use Rattle.index_reader.specs.KeptIndex.{AreInTable};
ghost use Rattle.index_reader.specs.Outcome.{Gives};
ghost use Rattle.index_reader.specs.Seen.{strings_of, table_entry_seen, table_seen};
ghost use Rattle.index_reader.specs.Reading.Steps.{each};

use crate::error::IndexError;
use crate::keys::{Keys, count_below, is_rising, pair_at, place_of};
use crate::offset_table::{TableEntry, table_entry_at};
use crate::symbols::{Symbols, find_symbol, find_symbol_near, text_in};
use std::alloc::Global;

#[tactic(auto, unfolding(crate::specs::Reading::Agreement::key_at))]
fn key_of(
    symbols: &Symbols,
    guess: (usize, usize),
    listed: &TableEntry<'_>,
) -> Result<(u32, u32), IndexError>
    ensures { Gives (λ k. k) result
        (key_at (symbol_texts symbols.now) (table_entry_seen listed.now)) }
{
    let fault = IndexError::PostingsDisagree;
    let name = find_symbol_near(symbols, guess.0, listed.name).ok_or(fault)?;
    let value = find_symbol_near(symbols, guess.1, listed.value).ok_or(fault)?;
    Ok((name as u32, value as u32))
}

fn keys_of_entries(
    alloc: Global,
    symbols: &Symbols,
    table: &[TableEntry<'_>],
) -> Result<Vec<(u32, u32)>, IndexError>
    ensures exact { Gives (λ v. v.items) result
        (each (key_at (symbol_texts symbols.now)) (table_seen table.now)) }
    ensures counted { IfOk result (λ v. length v.items ≡ length table.now) }
{
    let mut keys = Vec::with_capacity(alloc, table.len())?;
    // Entries ascend, so the next often has the name of the last and the symbol after its value.
    let mut guess = (0usize, 0usize);
    for at in 0..table.len() {
        let listed = table_entry_at(table, at);
        let key = key_of(symbols, guess, &listed)?;
        guess = (key.0 as usize, key.1 as usize + 1);
        keys.push(key)?;
    }
    Ok(keys)
}

/// The pairs of the table after the empty one.
#[tactic(auto, unfolding(crate::specs::Reading::Agreement::keys_at))]
pub fn keys_of(
    alloc: Global,
    symbols: &Symbols,
    table: &[TableEntry<'_>],
) -> Result<Keys, IndexError>
    ensures exact { Gives (λ v. v.pairs.items) result
        (keys_at (symbol_texts symbols.now) (table_seen table.now)) }
    ensures counted { IfOk result (λ v. length v.pairs.items + 1 ≡ length table.now) }
{
    let Some((first, rest)) = table.split_first() else {
        return Err(IndexError::PostingsDisagree);
    };
    let is_empty = (first.name.len() == 0) & (first.value.len() == 0);
    if !is_empty {
        return Err(IndexError::PostingsDisagree);
    }
    let pairs = keys_of_entries(alloc, symbols, rest)?;
    if !is_rising(&pairs) {
        return Err(IndexError::PostingsDisagree);
    }
    Ok(Keys { pairs })
}

/// The symbols of an index and the pairs that it lists, each of two of these symbols.
#[derive(Drop)]
pub struct Pairs {
    pub symbols: Symbols,
    pub keys: Keys,
    ghost inside: { AreInTable (strings_of symbols.texts.items) keys.pairs.items },
}

impl Pairs {
    ghost use Rattle.index_reader.specs.PairTexts.{pair_texts, values_between};

    /// Where the pair of a name and a value stands.
    pub fn place_of(&self, name: &str, value: &str) -> Option<usize>
        ensures found { IfSome result
            (λ i. slice_get (pair_texts self.now) i ≡ Some (name.now, value.now)) }
        ensures absent { IfNone result
            (Contains (pair_texts self.now) (name.now, value.now) → ⊥) }
    {
        let first = find_symbol(&self.symbols, name.as_bytes())?;
        let second = find_symbol(&self.symbols, value.as_bytes())?;
        place_of(&self.keys, (first as u32, second as u32))
    }

    /// From where to where the pairs of a name stand.
    fn span_of(&self, name: &str) -> (usize, usize)
        ensures within { (result.0 ≤ result.1) × (result.1 ≤ length self.now.keys.pairs.items) }
        ensures values { values_of name.now (pair_texts self.now)
            ≡ values_between self.now result.0 result.1 }
    {
        let Some(symbol) = find_symbol(&self.symbols, name.as_bytes()) else {
            return (0, 0);
        };
        let name = symbol as u64;
        (
            count_below(&self.keys, name),
            count_below(&self.keys, name + 1),
        )
    }

    /// How many values a name has among the pairs.
    pub fn value_count(&self, name: &str) -> usize
        ensures { result ≡ length (values_of name.now (pair_texts self.now)) }
    {
        let (start, end) = self.span_of(name);
        end - start
    }

    /// The value at a place among those of a name.
    pub fn value_at(&self, name: &str, i: usize) -> &str
        requires { i < length (values_of name.now (pair_texts self.now)) }
        ensures { slice_get (values_of name.now (pair_texts self.now)) i ≡ Some result.now }
    {
        let (start, _) = self.span_of(name);
        let place = start + i;
        let key = pair_at(&self.keys, place);
        text_in(&self.symbols, key.1 as usize)
    }
}
