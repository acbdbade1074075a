//! All checks of an index, in their order.

ghost use Rattle.std.specs.Prelude.{IfOk};
ghost use Rattle.index_reader.specs.CheckedFile.{read_seen, IsHeldIn};
ghost use Rattle.index_reader.specs.Outcome.{Gives};
ghost use Rattle.index_reader.specs.Reading.Whole.{read_of, indexed, IsSoundRead};
ghost use Rattle.index_reader.specs.Spelled.{IsIndex};

use crate::agreement::check_agreement;
use crate::bodies::{Bodies, are_small};
use crate::error::IndexError;
use crate::keys::Keys;
use crate::layout::{Layout, read_layout};
use crate::parts::Listed;
use crate::postings::PostingsTable;
use crate::sharing::Readers;
use crate::symbols::Symbols;
use std::alloc::Global;

const MAX_SERIES: usize = 1_048_576;

/// What an index holds, by symbols and in place.
#[derive(Drop)]
pub struct Checked<'a> {
    pub layout: Layout<'a>,
    pub bodies: Bodies,
    pub symbols: Symbols,
    pub keys: Keys,
    pub lists: Vec<&'a [u8]>,
}

/// All checks of an index, in their order.
#[tactic(auto, using(crate::proofs::Sound::sets_are, crate::proofs::Sound::count_is), unfolding(crate::specs::Reading::Whole::read_of))]
pub fn check_all<'a, B: Readers>(
    by: &B,
    alloc: Global,
    file: &'a [u8],
) -> Result<Checked<'a>, IndexError>
    requires { B.is_ready by.now }
    ensures exact { Gives read_seen result (read_of file.now) }
    ensures held { IfOk result (IsHeldIn file.now) }
{
    let layout = read_layout(alloc, file)?;
    let (listed, bodies) = by.parts(alloc, file, &layout);
    let bodies = bodies?;
    let Listed { table, symbols } = listed?;
    let keys = check_agreement(alloc, &symbols, &table, &bodies)?;
    if bodies.series.len() > MAX_SERIES {
        return Err(IndexError::Limit);
    }
    if !are_small(&bodies) {
        return Err(IndexError::Limit);
    }
    let PostingsTable {
        entries: _entries,
        lists,
    } = table;
    Ok(Checked {
        layout,
        bodies,
        symbols,
        keys,
        lists,
    })
}

/// All checks, and what they leave.
pub fn check<'a, B: Readers>(
    by: &B,
    alloc: Global,
    file: &'a [u8],
) -> Result<Checked<'a>, IndexError>
    requires { B.is_ready by.now }
    ensures exact { Gives read_seen result (read_of file.now) }
    ensures held { IfOk result (IsHeldIn file.now) }
    ensures read { IfOk result (λ c. IsSoundRead (read_seen c)) }
    ensures spelled { IfOk result (λ c. IsIndex file.now (indexed (read_seen c))) }
{
    check_all(by, alloc, file)
}
