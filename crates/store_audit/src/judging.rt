//! Judging a reply over a kept store.

ghost use Rattle.std.specs.Prelude.{◌≡◌, ◌≤◌, ℕ, List, [], IfOk, IfErr, IfNone, IfSome, None, Some};
ghost use Rattle.std.specs.Prelude.{if◌then◌else◌, unwrap_or, length};
ghost use Rattle.whole_audit.specs.StateLines.{AreStateLines};
ghost use Rattle.kept_walk.specs.Kept.{Event};
ghost use Rattle.kept_world.specs.Births.{AreBornBy};
ghost use Rattle.kept_world.specs.Changes.{events_of};
ghost use Rattle.kept_world.specs.Sound.{IsSoundHead};
ghost use Rattle.kept_world.specs.States.{State, numbered, shown, state_after};
ghost use Rattle.reply_state.specs.Searches.{AreRightIn, Searches};
ghost use Rattle.state_search.specs.declared.search.Search.TheVariants.{Nowhere};
ghost use Rattle.store_audit.specs.Reports.{AreLinesAt, ArePlaces, IsJudgement, IsJudgementOf};
ghost use Rattle.store_audit.specs.Reports.{IsReached, IsReport, first_in, has_right_rows};

use crate::copies::{copied_head, copied_tables};
use block_walk::Table;
use kept_walk::{Change, Kept, KeptSeries};
use kept_world::{Replay, World};
use matchers::Query;
use reply_reader::Reply;
use reply_state::find_parts;
use state_search::Search;
use std::alloc::{AllocError, Global};
use whole_audit::{StateLine, are_right, state_lines};

/// What is said of a reply over a store.
#[derive(Drop)]
pub struct StateReport {
    /// The lines of the reply over one state.
    pub lines: Vec<StateLine>,
    /// After how many events the newest state is of which all that is said of parts is right.
    pub found: Option<usize>,
    /// If there is none, after how many events a state before is of which the whole reply is right.
    pub earlier: Option<usize>,
    /// After how many events the state of the lines is: the one that was found, or else the last.
    pub told: usize,
    /// How many events the journal has behind its head.
    pub events: usize,
}

/// What is said of a reply over a store, or why nothing is.
#[derive(Drop)]
pub enum StoreJudgement {
    /// The lines over a state.
    Told(StateReport),
    /// No store has such a head.
    BadHead,
    /// The event at this place, from 0, is one that no store accepted after those before it.
    BadEvent(usize),
}

/// A head with its blocks.
#[derive(Drop)]
struct Beginning {
    floor: i64,
    head: Vec<KeptSeries>,
    tables: Vec<Table>,
}

fn copied(alloc: Global, beginning: &Beginning) -> Result<Beginning, AllocError>
    ensures first { IfOk result (λ copy. first_in copy ≡ first_in beginning.now) }
    ensures head { IfOk result (λ copy. copy.head.items ≡ beginning.now.head.items) }
{
    let head = copied_head(alloc, &beginning.head)?;
    let tables = copied_tables(alloc, &beginning.tables)?;
    Ok(Beginning {
        floor: beginning.floor,
        head,
        tables,
    })
}

/// The world that a head with its blocks is; `None` if no store has such a head.
fn first_world(alloc: Global, beginning: Beginning) -> Result<Option<World>, AllocError>
    ensures none { IfOk result (λ world. IfNone world
        (IsSoundHead beginning.head.items → ⊥)) }
    ensures some { IfOk result (λ world. IfSome world (λ s. s ≡ first_in beginning)) }
    ensures born { IfOk result (λ world. IfSome world (λ s. AreBornBy s.number s.head)) }
    ensures first { IfOk result (λ world. IfSome world (λ s. s.number ≡ 0)) }
{
    let Beginning {
        floor,
        head,
        tables,
    } = beginning;
    Ok(World::start(alloc, floor, head, tables)?)
}

/// Where changes lead to.
#[derive(Drop)]
enum Reached {
    /// The world after them.
    Last(World),
    /// No store has such a head.
    NoHead,
    /// The change at this place, from 0, is the first that is refused.
    NoEvent(usize),
}

/// Where changes lead to from a beginning.
fn world_after(
    alloc: Global,
    beginning: Beginning,
    changes: &[Change],
) -> Result<Reached, AllocError>
    ensures { IfOk result (IsReached beginning.head.items (first_in beginning)
        (events_of changes.now)) }
{
    match first_world(alloc, beginning)? {
        Some(world) => match world.replay(alloc, changes)? {
            Replay::Last(world) => Ok(Reached::Last(world)),
            Replay::Refused(at) => Ok(Reached::NoEvent(at)),
        },
        None => Ok(Reached::NoHead),
    }
}

/// The head of a world, as a part.
fn head_of(alloc: Global, world: &World) -> Result<Table, AllocError>
    requires { AreBornBy world.now.number world.now.head }
    ensures { IfOk result (λ head. head ≡ numbered 1 (shown world.now.head)) }
{
    Ok(world.head_at(alloc, world.number())?)
}

/// The lines of a reply over a world.
fn lines_of(
    alloc: Global,
    world: &World,
    query: &Query,
    reply: Reply,
) -> Result<Vec<StateLine>, AllocError>
    requires { AreBornBy world.now.number world.now.head }
    ensures { IfOk result (λ lines. AreStateLines world.now.blocks
        (numbered 1 (shown world.now.head)) query.now reply lines.items) }
{
    let head = head_of(alloc, world)?;
    Ok(state_lines(alloc, world.blocks(), &head, query, reply)?)
}

/// The lines of a reply over the world that so many changes lead to. The search has led there, so
/// there is such a world; if not, this fails as if memory ran out.
fn lines_after(
    alloc: Global,
    beginning: Beginning,
    changes: &[Change],
    query: &Query,
    reply: Reply,
) -> Result<Vec<StateLine>, AllocError>
    ensures { IfOk result (λ lines. (s : State)
        × (state_after (events_of changes.now) (first_in beginning) ≡ Some s)
        × AreStateLines s.blocks (numbered 1 (shown s.head)) query.now reply lines.items) }
{
    match world_after(alloc, beginning, changes)? {
        Reached::Last(world) => Ok(lines_of(alloc, &world, query, reply)?),
        Reached::NoHead | Reached::NoEvent(_) => Err(AllocError),
    }
}

/// Whether the last of the lines, that of the rows, names no flaw.
fn has_right_rows(lines: &[StateLine]) -> bool
    ensures { result ≡ has_right_rows lines.now }
{
    match lines.last() {
        Some(line) => line.grade.is_right(),
        None => false,
    }
}

/// An earlier state, if the lines of the reply say that its rows are right beside its parts.
fn earlier_in(lines: &[StateLine], earlier: Option<usize>) -> Option<usize>
    ensures { result ≡ (if has_right_rows lines.now then earlier else None) }
{
    if has_right_rows(lines) { earlier } else { None }
}

/// The report of a search that found this state, or none, and of one that then found this earlier
/// state, or none.
fn report_of(
    alloc: Global,
    beginning: Beginning,
    changes: &[Change],
    query: &Query,
    reply: Reply,
    found: Option<usize>,
    earlier: Option<usize>,
) -> Result<StateReport, AllocError>
    requires { IfSome found (λ at. at ≤ length changes.now) }
    ensures { IfOk result (λ report. (since : ℕ)
        → ArePlaces query.now reply since (first_in beginning) (events_of changes.now)
        found earlier
        → IsReport query.now reply since (first_in beginning) (events_of changes.now) report) }
{
    let told = found.unwrap_or(changes.len());
    let lines = lines_after(alloc, beginning, changes.split_at(told).0, query, reply)?;
    let earlier = earlier_in(&lines, earlier);
    Ok(StateReport {
        lines,
        found,
        earlier,
        told,
        events: changes.len(),
    })
}

/// Searches for a state, from `since` events on, of which all that is said of parts is right;
/// `None` if no store has such a head. It copies the head and the blocks.
fn search_since(
    alloc: Global,
    beginning: &Beginning,
    changes: &[Change],
    query: &Query,
    reply: &Reply,
    since: usize,
) -> Result<Option<Search>, AllocError>
    ensures none { IfOk result (λ search. IfNone search
        (IsSoundHead beginning.now.head.items → ⊥)) }
    ensures some { IfOk result (λ search. IfSome search
        (Searches (AreRightIn query.now reply.now.parts.items) since (first_in beginning.now)
        (events_of changes.now))) }
{
    let copy = copied(alloc, beginning)?;
    match first_world(alloc, copy)? {
        Some(world) => {
            let parts = reply.parts.as_slice();
            let search = find_parts(alloc, world, changes, query, parts, since)?;
            Ok(Some(search))
        }
        None => Ok(None),
    }
}

fn is_batch(change: &Change) -> bool {
    match change {
        Change::Batch(_) => true,
        Change::Deletion(_, _, _) | Change::Cut(_) => false,
    }
}

/// After how many changes the last run of batches begins.
fn last_run_of(changes: &[Change]) -> usize {
    let mut from = 0;
    for (at, change) in changes.iter().enumerate() {
        if !is_batch(change) {
            from = at + 1;
        }
    }
    from
}

/// Searches as [`search_since`] does, but first in the last run of batches alone: most replies are
/// right of a state of that, and then no other state is looked at.
fn search_newest(
    alloc: Global,
    beginning: &Beginning,
    changes: &[Change],
    query: &Query,
    reply: &Reply,
    since: usize,
) -> Result<Option<Search>, AllocError>
    ensures none { IfOk result (λ search. IfNone search
        (IsSoundHead beginning.now.head.items → ⊥)) }
    ensures some { IfOk result (λ search. IfSome search
        (Searches (AreRightIn query.now reply.now.parts.items) since (first_in beginning.now)
        (events_of changes.now))) }
{
    let late = last_run_of(changes);
    if since < late {
        match search_since(alloc, beginning, changes, query, reply, late)? {
            Some(Search::Found(at)) => return Ok(Some(Search::Found(at))),
            Some(Search::Nowhere) | Some(Search::Refused(_)) | None => {}
        }
    }
    search_since(alloc, beginning, changes, query, reply, since)
}

/// Searches for an earlier state, where there is none from `since` events on. The first search has
/// begun there too, so there is such a head; if not, this fails as if memory ran out.
fn search_before(
    alloc: Global,
    beginning: &Beginning,
    changes: &[Change],
    query: &Query,
    reply: &Reply,
    since: usize,
) -> Result<Search, AllocError>
    requires { Searches (AreRightIn query.now reply.now.parts.items) since
        (first_in beginning.now) (events_of changes.now) Nowhere }
    ensures { IfOk result (Searches (AreRightIn query.now reply.now.parts.items) 0
        (first_in beginning.now) (events_of changes.now)) }
{
    if since == 0 {
        return Ok(Search::Nowhere);
    }
    match search_since(alloc, beginning, changes, query, reply, 0)? {
        Some(search) => Ok(search),
        None => Err(AllocError),
    }
}

/// Judges a reply, where from `since` events on there is no state of which all that is said of
/// parts is right.
fn judge_before(
    alloc: Global,
    beginning: Beginning,
    changes: &[Change],
    query: &Query,
    reply: Reply,
    since: usize,
) -> Result<StoreJudgement, AllocError>
    requires { Searches (AreRightIn query.now reply.parts.items) since (first_in beginning)
        (events_of changes.now) Nowhere }
    ensures { IfOk result (λ judgement. IsJudgementOf query.now reply since
        beginning.head.items (first_in beginning) (events_of changes.now) judgement) }
{
    match search_before(alloc, &beginning, changes, query, &reply, since)? {
        Search::Refused(at) => Ok(StoreJudgement::BadEvent(at)),
        Search::Found(at) => {
            let report = report_of(alloc, beginning, changes, query, reply, None, Some(at))?;
            Ok(StoreJudgement::Told(report))
        }
        Search::Nowhere => {
            let report = report_of(alloc, beginning, changes, query, reply, None, None)?;
            Ok(StoreJudgement::Told(report))
        }
    }
}

/// Judges a reply over all states from `since` events on, the newest run of batches first.
fn judge_all(
    alloc: Global,
    beginning: Beginning,
    changes: &[Change],
    query: &Query,
    reply: Reply,
    since: usize,
) -> Result<StoreJudgement, AllocError>
    ensures { IfOk result (λ judgement. IsJudgementOf query.now reply since
        beginning.head.items (first_in beginning) (events_of changes.now) judgement) }
{
    match search_newest(alloc, &beginning, changes, query, &reply, since)? {
        None => Ok(StoreJudgement::BadHead),
        Some(Search::Refused(at)) => Ok(StoreJudgement::BadEvent(at)),
        Some(Search::Found(at)) => {
            let report = report_of(alloc, beginning, changes, query, reply, Some(at), None)?;
            Ok(StoreJudgement::Told(report))
        }
        Some(Search::Nowhere) => {
            Ok(judge_before(alloc, beginning, changes, query, reply, since)?)
        }
    }
}

/// The report over the last state, that after so many events, if all that a reply says of parts is
/// right of that; else the reply.
fn judge_last(
    alloc: Global,
    world: World,
    events: usize,
    query: &Query,
    reply: Reply,
    since: usize,
) -> Result<Result<StateReport, Reply>, AllocError>
    requires { AreBornBy world.number world.head }
    ensures told { IfOk result (λ said. IfOk said (λ report. (first : State) (es : List Event)
        → events ≡ length es → state_after es first ≡ Some world
        → IsReport query.now reply since first es report)) }
    ensures back { IfOk result (λ said. IfErr said (λ same. same ≡ reply)) }
{
    let head = head_of(alloc, &world)?;
    let parts = reply.parts.as_slice();
    if events < since || !are_right(alloc, world.blocks(), &head, query, parts)? {
        return Ok(Err(reply));
    }
    let lines = state_lines(alloc, world.blocks(), &head, query, reply)?;
    Ok(Ok(StateReport {
        lines,
        found: Some(events),
        earlier: None,
        told: events,
        events,
    }))
}

fn judge(
    alloc: Global,
    beginning: Beginning,
    changes: &[Change],
    query: &Query,
    reply: Reply,
    since: usize,
) -> Result<StoreJudgement, AllocError>
    ensures { IfOk result (λ judgement. IsJudgementOf query.now reply since
        beginning.head.items (first_in beginning) (events_of changes.now) judgement) }
{
    let copy = copied(alloc, &beginning)?;
    match world_after(alloc, copy, changes)? {
        Reached::NoHead => Ok(StoreJudgement::BadHead),
        Reached::NoEvent(at) => Ok(StoreJudgement::BadEvent(at)),
        Reached::Last(world) => {
            match judge_last(alloc, world, changes.len(), query, reply, since)? {
                Ok(report) => Ok(StoreJudgement::Told(report)),
                Err(reply) => judge_all(alloc, beginning, changes, query, reply, since),
            }
        }
    }
}

/// Judges a reply over a store: what its journal says, and its blocks. Not before `since` events,
/// it finds the newest state of which all that the reply says of parts is right, and gives the
/// lines over that state; if there is none, those over the last, and it finds a state before of
/// which the whole reply is right, if there is one.
///
/// It copies the head and the blocks, and replays the changes, once, if the reply is right of the
/// last state: that is tried first. Then the last run of batches is, and then each other.
pub fn judge_store(
    alloc: Global,
    kept: Kept,
    tables: Vec<Table>,
    query: &Query,
    reply: Reply,
    since: usize,
) -> Result<StoreJudgement, AllocError>
    ensures { IfOk result (λ judgement.
        IsJudgement query.now reply since kept tables.items judgement) }
{
    let floor = kept.floor();
    let (head, changes) = kept.into_parts();
    let beginning = Beginning {
        floor,
        head,
        tables,
    };
    judge(alloc, beginning, &changes, query, reply, since)
}
