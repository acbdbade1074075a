//! The parts of a reply, as the search for a state asks them.

ghost use Rattle.std.specs.Prelude.{◌≡◌, ◌↔◌, false, IsTrue, IfOk};
ghost use Rattle.auditor.specs.declared.flaw.Flaw.TheVariants.{Memory};
ghost use Rattle.auditor.specs.Auditing.{IsSoundAnswer};
ghost use Rattle.whole_audit.specs.Showing.{HasAllShown};
ghost use Rattle.reply_state.specs.Searches.{AreRightBlocks};

use auditor::{Flaw, Table, ToldPart, audit};
use cover::PartAnswer;
use matchers::Query;
use state_search::Told;
use std::alloc::{AllocError, Global};
use whole_audit::{are_named, are_right_blocks, has_all_shown};

/// What a reply says of the parts of a store, and the query that it answers.
#[derive(Drop)]
pub(crate) struct ToldParts<'a> {
    pub(crate) query: &'a Query,
    /// All parts.
    pub(crate) parts: &'a [ToldPart],
    /// Those before the last.
    pub(crate) blocks: &'a [ToldPart],
    /// The answer of the last.
    pub(crate) head: &'a PartAnswer,
}

/// What a flaw says of an answer that has it: it is not sound.
fn not_sound(flaw: Flaw) -> Result<bool, AllocError>
    ensures { IfOk result (λ b. (b ≡ false) × (flaw ≡ Memory → ⊥)) }
{
    match flaw {
        Flaw::Memory => Err(AllocError),
        _ => Ok(false),
    }
}

/// Whether an answer is sound of a part.
fn is_sound(
    alloc: Global,
    part: &Table,
    query: &Query,
    answer: &PartAnswer,
) -> Result<bool, AllocError>
    ensures { IfOk result (λ b. IsTrue b ↔ IsSoundAnswer part.now query.now answer.now) }
{
    match audit(alloc, part, query, answer) {
        Ok(()) => Ok(true),
        Err(flaw) => Ok(not_sound(flaw)?),
    }
}

/// Whether these are the names of so many blocks and a head, and what is said of the blocks is
/// right.
fn are_right(
    alloc: Global,
    blocks: &[Table],
    query: &Query,
    parts: &[ToldPart],
    told: &[ToldPart],
) -> Result<bool, AllocError>
    ensures { IfOk result (λ b. IsTrue b
        ↔ AreRightBlocks query.now blocks.now parts.now told.now) }
{
    if !are_named(parts, blocks.len()) {
        return Ok(false);
    }
    if told.len() != blocks.len() {
        return Ok(false);
    }
    Ok(are_right_blocks(alloc, blocks, query, told)?)
}

impl<'a> Told for ToldParts<'a> {
    ghost use Rattle.auditor.specs.Auditing.{IsSoundAnswer};
    ghost use Rattle.whole_audit.specs.Showing.{HasAllShown};
    ghost use Rattle.whole_audit.proofs.Shown.{has_later, sound_has, sound_was};
    ghost use Rattle.kept_world.specs.States.{numbered};
    ghost use Rattle.reply_state.specs.Searches.{AreRightBlocks};
    ghost use Rattle.reply_state.specs.Growth.{grows};

    ghost shows = { λ told part. HasAllShown part told.query.now told.head.now };

    ghost sound = { λ told part. IsSoundAnswer part told.query.now told.head.now };

    ghost right = { λ told blocks.
        AreRightBlocks told.query.now blocks told.parts.now told.blocks.now };

    fn is_shown_by(&self, alloc: Global, head: &Table) -> Result<bool, AllocError> {
        Ok(has_all_shown(alloc, head, self.query, self.head)?)
    }

    fn is_sound_of(&self, alloc: Global, head: &Table) -> Result<bool, AllocError> {
        Ok(is_sound(alloc, head, self.query, self.head)?)
    }

    fn is_right_of(&self, alloc: Global, blocks: &[Table]) -> Result<bool, AllocError> {
        Ok(are_right(alloc, blocks, self.query, self.parts, self.blocks)?)
    }

    ghost later = { λ told p q is_p is_q part has.
        has_later (numbered 1 p) (numbered 1 q) told.query.now (grows 1 p q part) is_p is_q
        told.head.now has };

    ghost shown = { λ told head sound. sound_has head told.query.now told.head.now sound };

    ghost first = { λ told p q is_p is_q part has sound.
        sound_was (numbered 1 p) (numbered 1 q) told.query.now (grows 1 p q part) is_p is_q
        told.head.now has sound };
}
