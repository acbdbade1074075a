//! The search for a state.

ghost use Rattle.std.specs.Prelude.{◌≡◌, ◌+◌, ◌<◌, ◌^◌, ◌↔◌, ℕ, IsTrue, IfOk, IfNone, IfSome};
ghost use Rattle.std.specs.List.{flat_map};
ghost use Rattle.labels.specs.Rows.{AreRows};
ghost use Rattle.postings.specs.declared.part_name.PartName.TheVariants.{Head};
ghost use Rattle.auditor.specs.Judgements.{answers_of, name_of};
ghost use Rattle.reply_reader.specs.declared.reply.ToldPart.TheVariants.{Searched};
ghost use Rattle.auditor.specs.Listing.{last_listed};
ghost use Rattle.kept_world.specs.Births.{AreBornBy};
ghost use Rattle.kept_world.specs.Changes.{events_of};
ghost use Rattle.reply_state.specs.Searches.{AreRightIn, IsWholeIn, Searches};

use crate::told::ToldParts;
use auditor::{Flaw, Reply, ToldPart, audit_merge};
use cover::{PartAnswer, PartName};
use kept_walk::Change;
use kept_world::{Replay, World};
use matchers::Query;
use state_search::{Search, find_state};
use std::alloc::{AllocError, Global};

/// What was answered of a head, if that is what is told.
fn of_head(told: &ToldPart) -> Option<&PartAnswer>
    ensures none { IfNone result (name_of told.now ≡ Head → ⊥) }
    ensures some { IfSome result (λ answer. (told.now ≡ Searched answer.now)
        × (answer.now.part ≡ Head)) }
{
    match told {
        ToldPart::Searched(answer) => match answer.part {
            PartName::Head => Some(answer),
            PartName::Block(_) => None,
        },
        ToldPart::Skipped(_) => None,
    }
}

/// What a search says where no state is right: that, or which of the changes is the first that is
/// refused.
fn find_none(alloc: Global, world: World, changes: &[Change]) -> Result<Search, AllocError>
    requires { world.number ≡ 0 }
    ensures { IfOk result (λ search. (since : ℕ)
        → Searches (λ _. ⊥) since world (events_of changes.now) search) }
{
    if let Replay::Refused(at) = world.replay(alloc, changes)? {
        return Ok(Search::Refused(at));
    }
    Ok(Search::Nowhere)
}

/// The newest state of which all that is said of parts is right, not before `since` events: after
/// how many of the changes it is. The world is what the head of a journal says, with its blocks.
pub fn find_parts(
    alloc: Global,
    world: World,
    changes: &[Change],
    query: &Query,
    parts: &[ToldPart],
    since: usize,
) -> Result<Search, AllocError>
    requires begins { world.number ≡ 0 }
    requires born { AreBornBy 0 world.head }
    ensures { IfOk result (λ search. Searches (AreRightIn query.now parts.now) since world
        (events_of changes.now) search) }
{
    match parts.split_last() {
        Some((last, others)) => match of_head(last) {
            Some(head) => {
                let told = ToldParts {
                    query,
                    parts,
                    blocks: others,
                    head,
                };
                Ok(find_state(alloc, world, changes, &told, since)?)
            }
            None => Ok(find_none(alloc, world, changes)?),
        },
        None => Ok(find_none(alloc, world, changes)?),
    }
}

/// The answers of the parts that were searched.
fn answers_of(alloc: Global, parts: Vec<ToldPart>) -> Result<Vec<PartAnswer>, AllocError>
    ensures { IfOk result (λ answers. answers.items ≡ flat_map answers_of parts.items) }
{
    let mut answers = Vec::new(alloc);
    for part in parts {
        if let ToldPart::Searched(answer) = part {
            answers.push(answer)?;
        }
    }
    Ok(answers)
}

/// Whether the rows of a reply are those of all that its parts list, the value listed last at each
/// point.
fn are_listed(alloc: Global, reply: Reply) -> Result<bool, AllocError>
    ensures { IfOk result (λ b. IsTrue b
        ↔ AreRows reply.rows.items (last_listed (flat_map answers_of reply.parts.items))) }
{
    let Reply { parts, rows } = reply;
    let answers = answers_of(alloc, parts)?;
    match audit_merge(alloc, answers.as_slice(), rows.as_slice()) {
        Ok(()) => Ok(true),
        Err(Flaw::WrongMerge) => Ok(false),
        Err(_) => Err(AllocError),
    }
}

/// The newest state of which a reply is right, whole, not before `since` events: after how many of
/// the changes it is. The world is what the head of a journal says, with its blocks.
///
/// Of such a state something is said of each block, in order, and of the head; each answer is
/// sound, or, of a block, right of its samples under other references; and the rows are those that
/// the query selects of all. Where none is found, there is none. It replays each change once, and
/// makes some 20 copies of the head for each run of batches.
pub fn find_reply(
    alloc: Global,
    world: World,
    changes: &[Change],
    query: &Query,
    reply: Reply,
    since: usize,
) -> Result<Search, AllocError>
    requires begins { world.number ≡ 0 }
    requires born { AreBornBy 0 world.head }
    ensures { IfOk result (λ search. Searches (IsWholeIn query.now reply) since world
        (events_of changes.now) search) }
{
    match find_parts(alloc, world, changes, query, reply.parts.as_slice(), since)? {
        Search::Found(at) => {
            if are_listed(alloc, reply)? {
                Ok(Search::Found(at))
            } else {
                Ok(Search::Nowhere)
            }
        }
        Search::Nowhere => Ok(Search::Nowhere),
        Search::Refused(at) => Ok(Search::Refused(at)),
    }
}
