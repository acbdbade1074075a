//! Whether the postings are those of the series.

ghost use Rattle.std.specs.List.{list_all};
ghost use Rattle.std.specs.Prelude.{◌≡◌, ◌+◌, ◌≤◌, ◌^◌, length, nat_lt, All, IfOk, ◌==◌, []};
ghost use Rattle.std.specs.Prelude.{MatchOption, true, ◌∷◌};
ghost use Rattle.index_reader.specs.Reading.Agreement.{are_used, agreement_of};
ghost use Rattle.index_reader.specs.CheckedFile.{carriers_seen, symbol_texts};
ghost use Rattle.index_reader.specs.Reading.Carried.{all_empty};
ghost use Rattle.index_reader.specs.Outcome.{Gives};
ghost use Rattle.index_reader.specs.References.{references_in};
ghost use Rattle.index_reader.specs.Seen.{bytes_of, table_seen, references_in_each};
ghost use Rattle.index_reader.specs.Reading.Walk.{in_turn, rests_of, take_reference, take_label};
ghost use Rattle.index_reader.specs.Reading.Walk.{take_series, keys_used_up};

use crate::bodies::{Bodies, label_set_at, reference_of};
use crate::error::IndexError;
use crate::keys::{Keys, guesses_of, key_in, place_near};
use crate::pairs::keys_of;
use crate::postings::{PostingsTable, slice_at};
use crate::symbols::Symbols;
use byteorder::{BigEndian, ByteOrder};
use std::alloc::{AllocError, Global};
use std::marker::Model;

#[tactic(auto, using(crate::proofs::Firsts::of_firsts))]
fn first_reference(bytes: &[u8]) -> Option<(u32, &[u8])>
    ensures { MatchOption result (references_in bytes.now ≡ [])
        (λ x. references_in bytes.now ≡ x.0 ∷ references_in x.1.now) }
{
    if bytes.len() < 4 {
        return None;
    }
    let (_, after) = bytes.split_at(4);
    Some((BigEndian::read_u32(bytes), after))
}

// Whether no reference is left.
fn is_empty(bytes: &[u8]) -> bool
    ensures { result ≡ (length (references_in bytes.now) == 0) }
{
    first_reference(bytes).is_none()
}

/// The pairs of the table, and what is left of each list: of that of all series, and after it of
/// that of each pair.
#[derive(Drop)]
struct Rests<'a> {
    keys: Keys,
    guesses: Vec<usize>,
    lists: Vec<&'a [u8]>,
}

impl<'a> Model for Rests<'a> {
    ghost use Rattle.std.specs.Prelude.{◌≡◌, ◌+◌, length};
    ghost use Rattle.index_reader.specs.Seen.{references_in_each};
    ghost use Rattle.index_reader.specs.Reading.Walk as walk;

    ghost Value = { walk.Rests };

    ghost view = { λ r. record {
      keys = r.keys.pairs.items;
      lists = references_in_each r.lists.items;
    } };

    ghost invariant = { λ r. length r.lists.items ≡ length r.keys.pairs.items + 1 };
}

impl<'a> Rests<'a> {
    // The whole lists.
    #[tactic(auto, using(crate::proofs::Placing::lists_are), unfolding(crate::specs::Reading::Walk::rests_of))]
    fn new(
        alloc: Global,
        symbols: &Symbols,
        table: &PostingsTable<'a>,
    ) -> Result<Rests<'a>, IndexError>
        ensures { Gives (λ r. r) result (rests_of (symbol_texts symbols.now)
            (table_seen table.now.entries.items) (bytes_of table.now.lists.items)) }
    {
        let keys = keys_of(alloc, symbols, &table.entries)?;
        let guesses = guesses_of(alloc, symbols.texts.len(), &keys)?;
        let lists = copy_slices(alloc, &table.lists)?;
        Ok(Rests {
            keys,
            guesses,
            lists,
        })
    }

    // Takes the reference from the front of the list at a place, where it stands there.
    fn take_reference(&mut self, reference: u32, place: usize) -> Result<(), IndexError>
        requires { place ≤ length self.old.keys }
        ensures { Gives (λ _. self.new) result (take_reference reference self.old place) }
    {
        let list = self.lists[place];
        let Some((first, after)) = first_reference(list) else {
            return Err(IndexError::PostingsDisagree);
        };
        if first != reference {
            return Err(IndexError::PostingsDisagree);
        }
        self.lists[place] = after;
        Ok(())
    }

    // Takes it from the list of a label.
    #[tactic(auto, unfolding(crate::specs::Reading::Walk::take_label))]
    fn take_label(&mut self, reference: u32, label: (u32, u32)) -> Result<(), IndexError>
        ensures { Gives (λ _. self.new) result (take_label reference self.old label) }
    {
        let Some(at) = place_near(&self.keys, &self.guesses, label) else {
            return Err(IndexError::PostingsDisagree);
        };
        self.take_reference(reference, at + 1)
    }

    fn take_labels(&mut self, reference: u32, labels: &[(u32, u32)]) -> Result<(), IndexError>
        ensures { Gives (λ _. self.new) result
            (in_turn (take_label reference) self.old labels.now) }
    {
        for at in 0..labels.len() {
            let label = key_in(labels, at);
            self.take_label(reference, label)?;
        }
        Ok(())
    }

    // Takes the reference of a series from the first list, and from that of each of its labels.
    #[tactic(auto, unfolding(crate::specs::Reading::Walk::take_series))]
    fn take_series(&mut self, reference: u32, labels: &[(u32, u32)]) -> Result<(), IndexError>
        ensures { Gives (λ _. self.new) result (take_series self.old (reference, labels.now)) }
    {
        self.take_reference(reference, 0)?;
        self.take_labels(reference, labels)
    }

    // Takes the references of all series, in their order.
    fn take_all(&mut self, bodies: &Bodies) -> Result<(), IndexError>
        ensures { Gives (λ _. self.new) result
            (in_turn take_series self.old (carriers_seen bodies.now)) }
    {
        for at in 0..bodies.series.len() {
            let reference = reference_of(bodies, at);
            let carried = label_set_at(bodies, at);
            self.take_series(reference, carried)?;
        }
        Ok(())
    }

    // Whether nothing is left.
    fn is_empty(&self) -> bool
        ensures { result ≡ all_empty self.now.lists }
    {
        all_empty(&self.lists)
    }

    // The pairs.
    fn into_keys(self) -> Keys
        ensures { result.pairs.items ≡ self.entry.keys }
    {
        let Rests {
            keys,
            guesses: _guesses,
            lists: _lists,
        } = self;
        keys
    }
}

fn all_empty(rests: &[&[u8]]) -> bool
    ensures { result ≡ all_empty (references_in_each rests.now) }
{
    for rest in rests {
        if !is_empty(rest) {
            return false;
        }
    }
    true
}

fn copy_slices<'a>(alloc: Global, lists: &[&'a [u8]]) -> Result<Vec<&'a [u8]>, AllocError>
    ensures texts { IfOk result (λ v. bytes_of v.items ≡ bytes_of lists.now) }
    ensures counted { IfOk result (λ v. length v.items ≡ length lists.now) }
{
    let mut copy = Vec::with_capacity(alloc, lists.len())?;
    for at in 0..lists.len() {
        let list = slice_at(lists, at);
        copy.push(list)?;
    }
    Ok(copy)
}

fn have_bytes(lists: &[&[u8]]) -> bool
    ensures { result ≡ list_all (λ l. nat_lt 0 (length l.now)) lists.now }
{
    lists.iter().all(|list| list.len() > 0)
}

// Whether no list after the first is empty.
#[tactic(auto, using(crate::proofs::Placing::used_behind))]
fn are_used(lists: &[&[u8]]) -> bool
    ensures { result ≡ are_used (bytes_of lists.now) }
{
    if lists.is_empty() {
        return true;
    }
    let (_, rest) = lists.split_at(1);
    have_bytes(rest)
}

// The series are walked once, in their order, each taking its reference from the lists of its
// labels.
#[tactic(auto, unfolding(crate::specs::Reading::Walk::keys_used_up))]
fn use_up_lists(
    alloc: Global,
    symbols: &Symbols,
    table: &PostingsTable<'_>,
    bodies: &Bodies,
) -> Result<Keys, IndexError>
    ensures { Gives (λ v. v.pairs.items) result
        (keys_used_up (symbol_texts symbols.now) (table_seen table.now.entries.items)
        (bytes_of table.now.lists.items) (carriers_seen bodies.now)) }
{
    let mut rests = Rests::new(alloc, symbols, table)?;
    rests.take_all(bodies)?;
    let whole = are_used(&table.lists) & rests.is_empty();
    if !whole {
        return Err(IndexError::PostingsDisagree);
    }
    Ok(rests.into_keys())
}

/// The pairs of the table after the empty one, where its lists are exactly the references of the
/// series that carry them. It looks at each label of each series once, and keeps no list of them.
pub fn check_agreement(
    alloc: Global,
    symbols: &Symbols,
    table: &PostingsTable<'_>,
    bodies: &Bodies,
) -> Result<Keys, IndexError>
    ensures { Gives (λ v. v.pairs.items) result
        (agreement_of (symbol_texts symbols.now) (table_seen table.now.entries.items)
        (bytes_of table.now.lists.items) (carriers_seen bodies.now)) }
{
    use_up_lists(alloc, symbols, table, bodies)
}
