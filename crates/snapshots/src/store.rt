//! Stores, and how one is opened.

ghost use Rattle.std.specs.Prelude.{◌≡◌, ◌≤◌, ◌<◌, ◌↔◌, [], length, map, vec_len, IfOk, IfErr};
ghost use Rattle.std.specs.Prelude.{List, MatchBool, MatchResult, Ok};
ghost use Rattle.std.specs.Arc.{arc_value};
ghost use Rattle.std.specs.List.{All};
ghost use Rattle.head.specs.Blocks.{part_in, opening_of};
ghost use Rattle.head.specs.Heads.{world_of};
ghost use Rattle.head.specs.Worlds.{replayed};
ghost use Rattle.snapshots.specs.Keeping.{HeldIsKept, MayBeKept, OpensAsKept};
ghost use Rattle.snapshots.specs.Rules.{end_of};
ghost use Rattle.snapshots.specs.Views.{nothing};
ghost use Rattle.snapshots.specs.Grows.{Shows};
ghost use Rattle.snapshots.specs.Seats.{AreFresh, IsRoom};
ghost use Rattle.snapshots.specs.Standings.{StandsFor};
ghost use Rattle.snapshots.specs.declared.entry.Entry.{Entry as Listed};

use crate::book::Book;
use crate::committer::Committer;
use crate::entry::{Entry, Mark};
use crate::error::OpenError;
use crate::log::{Blank, Law, LogEnd};
use crate::naming::Naming;
use crate::pass::Pass;
use crate::plate::{Plate, Right};
use crate::prefix::LogPrefix;
use crate::publishing::Press;
use crate::replayed_state::Standing;
use crate::seat::Seat;
use crate::tip::Tip;
use crate::version::{Grows, Version};
use block::Block;
use head::{MAX_BLOCKS, Snapshot};
use keeper::{Keeper, NoKeeper};
use left_right::reader::Factory;
use logbook::{Seen, Start, Word};
use std::alloc::{AllocError, Global};
use std::marker::PhantomData;
use std::sync::{Arc, Wait};

/// The greatest number of passes, and of seats.
pub const MAX_HANDLES: usize = 64;

/// A store that is not open yet.
#[derive(Drop)]
pub struct Store {
    word: Word<Mark, u64, Law>,
    seen: Seen<Mark, u64, Law>,
    rights: (Right, Right),
    pub ghost empty: { seen.log ≡ [] },
    pub ghost end_is: { word ≡ end_of seen.book },
    pub ghost rights_are: { (rights.0 ≡ seen.book) × (rights.1 ≡ seen.book) },
}

type Desk<J> = Factory<Plate, [Entry; 0], Grows<J>>;

/// Whether so many passes and seats are allowed.
fn is_room(passes: usize, seats: usize) -> bool
    ensures { MatchBool result (IsRoom passes seats) (¬ IsRoom passes seats) }
{
    passes >= 1 && passes <= MAX_HANDLES && seats >= 1 && seats <= MAX_HANDLES
}

/// A press over the opening version. It takes the rights of the store to show versions, of which
/// there are two: so no other press of the store can be made.
fn press_over<J: Naming>(
    alloc: Global,
    opening: &Arc<Snapshot>,
    log: &LogPrefix<J>,
    rights: (Right, Right),
    passes: usize,
) -> Result<Press<J>, AllocError>
    requires room { (0 < passes) × (passes ≤ 64) }
    requires rights { (rights.0 ≡ J.book) × (rights.1 ≡ J.book) }
    requires opening { arc_value opening.now ≡ J.opening }
    requires empty { log.now ≡ [] }
    requires kept { J.kept [] }
    ensures { IfOk result (λ p.
        Shows J.book J.opening J.asked J.kept p.desk.shown.value.version []) }
{
    let version = Version::of(Arc::try_clone(opening)?, log);
    let next = version.share()?;
    let first = Plate {
        version,
        right: rights.0,
    };
    let second = Plate {
        version: next,
        right: rights.1,
    };
    Press::new(alloc, first, second, passes)
}

/// Where a store stands that nothing was published in.
fn standing_of<J: Naming>(
    alloc: Global,
    opening: &Arc<Snapshot>,
    seats: usize,
) -> Result<Standing, AllocError>
    requires { arc_value opening.now ≡ J.opening }
    ensures { IfOk result (λ s.
        StandsFor J.opening [] (arc_value s.snapshot) s.counts.items) }
{
    let snapshot = Arc::try_clone(opening)?;
    let counts = Vec::from_elem(alloc, 0u64, seats)?;
    Ok(Standing { snapshot, counts })
}

fn passes_of<J: Naming>(
    alloc: Global,
    desk: &Desk<J>,
    log: &LogPrefix<J>,
    count: usize,
) -> Result<Vec<Pass<J>>, OpenError>
    requires empty { log.now ≡ [] }
    requires kept { J.kept [] }
    ensures made { IfOk result (λ v. (vec_len v ≡ count) × All (λ p. p ≡ nothing) v.items) }
    ensures refused { IfErr result (λ e. ¬ (e ≡ OpenError.BadPasses) × ¬ (e ≡ OpenError.Limit)) }
{
    let mut passes = Vec::new(alloc);
    for _i in 0..count {
        let Ok(reader) = desk.reader() else {
            return Err(OpenError::Unavailable);
        };
        if passes.push(Pass::of(reader, log)).is_err() {
            return Err(OpenError::Memory);
        }
    }
    Ok(passes)
}

fn seats_of<J: Naming>(
    alloc: Global,
    log: &LogPrefix<J>,
    count: usize,
) -> Result<Vec<Seat<J>>, AllocError>
    requires { log.now ≡ [] }
    ensures { IfOk result (λ v. (vec_len v ≡ count) × AreFresh 0 v.items) }
{
    let mut seats = Vec::new(alloc);
    for number in 0..count {
        seats.push(Seat::new(number, log.share()))?;
    }
    Ok(seats)
}

impl Store {
    /// A store that is not open yet. Its name is picked by the call that opens it.
    pub fn new() -> Store {
        let (seen, mut pens) = Seen::open_row::<(), Blank>(&(), Start::alone(), 3);
        let word = Word::tracked(0, &mut pens.take());
        let first = Right::of(Word::tracked(0, &mut pens.take()));
        let second = Right::of(Word::tracked(0, &mut pens.take()));
        Store {
            word,
            seen,
            rights: (first, second),
        }
    }

    /// Opens the store over these blocks, in this order, with so many passes and seats, which are
    /// numbered from 0. Its first version has these blocks, an empty head and the empty list. `O2`
    /// where there are not 1 to 64 passes and 1 to 64 seats, then `O3` where there are more than 63
    /// blocks, then `O4` where `left_right` refuses a reader. The committer keeps the handle `rt`,
    /// since its drop waits for the readers.
    pub fn open<J: Naming, R: Wait + Drop>(
        self,
        rt: R,
        alloc: Global,
        blocks: Vec<Block>,
        passes: usize,
        seats: usize,
    ) -> Result<(Committer<J, R>, Vec<Pass<J>>, Vec<Seat<J>>), OpenError>
        requires book { self.seen.book ≡ J.book }
        requires opening { opening_of (map part_in blocks.items) ≡ J.opening }
        // In memory alone all counts as kept.
        requires rule { (entries : List Listed) → J.kept entries }
        ensures room { MatchResult result (λ _. IsRoom passes seats) (λ e.
            (e ≡ OpenError.BadPasses) ↔ (¬ IsRoom passes seats)) }
        ensures few { MatchResult result (λ _. length blocks.items ≤ 63) (λ e.
            (e ≡ OpenError.Limit) ↔ (IsRoom passes seats × (63 < length blocks.items))) }
        ensures passes { IfOk result (λ r.
            (vec_len r.1 ≡ passes) × All (λ p. p ≡ nothing) r.1.items) }
        ensures seats { IfOk result (λ r. (vec_len r.2 ≡ seats) × AreFresh 0 r.2.items) }
    {
        if !is_room(passes, seats) {
            return Err(OpenError::BadPasses);
        }
        if blocks.len() > MAX_BLOCKS {
            return Err(OpenError::Limit);
        }
        match Snapshot::opening(alloc, blocks) {
            Ok(opening) => self.start(rt, alloc, opening, NoKeeper, passes, seats),
            Err(_) => Err(OpenError::Memory),
        }
    }

    /// Opens the store over this snapshot, with so many passes and seats, which are numbered from
    /// 0: a store that was kept, as a start found it. Its first version is the snapshot and has the
    /// empty list. The keeper holds the events from before, and the snapshot's world is what they
    /// make of the first one. `O2` if there are not 1 to 64 passes and 1 to 64 seats, `O4` if
    /// `left_right` refuses a reader.
    pub fn resume<J: Naming, R: Wait + Drop, K: Keeper + Drop>(
        self,
        rt: R,
        alloc: Global,
        snapshot: Snapshot,
        keeper: K,
        passes: usize,
        seats: usize,
    ) -> Result<(Committer<J, R, K>, Vec<Pass<J>>, Vec<Seat<J>>), OpenError>
        requires book { self.seen.book ≡ J.book }
        requires opening { snapshot ≡ J.opening }
        requires kept { K.holds keeper J.before }
        requires world { replayed K.first J.before ≡ Ok (world_of J.opening) }
        // The keeper may be handed what is asked for, and nothing else.
        requires may { MayBeKept K.may J.asked J.opening J.before }
        // What it holds for good is kept, and nothing else is known to be.
        requires rule { HeldIsKept K.holds K.stays J.kept J.before }
        ensures room { MatchResult result (λ _. IsRoom passes seats) (λ e.
            (e ≡ OpenError.BadPasses) ↔ (¬ IsRoom passes seats)) }
        ensures few { IfErr result (λ e. ¬ (e ≡ OpenError.Limit)) }
        ensures passes { IfOk result (λ r.
            (vec_len r.1 ≡ passes) × All (λ p. p ≡ nothing) r.1.items) }
        ensures seats { IfOk result (λ r. (vec_len r.2 ≡ seats) × AreFresh 0 r.2.items) }
    {
        if !is_room(passes, seats) {
            return Err(OpenError::BadPasses);
        }
        self.start(rt, alloc, snapshot, keeper, passes, seats)
    }

    /// Opens the store over this snapshot, for so many passes and seats as are allowed.
    fn start<J: Naming, R: Wait + Drop, K: Keeper + Drop>(
        self,
        rt: R,
        alloc: Global,
        opening: Snapshot,
        keeper: K,
        passes: usize,
        seats: usize,
    ) -> Result<(Committer<J, R, K>, Vec<Pass<J>>, Vec<Seat<J>>), OpenError>
        requires room { IsRoom passes seats }
        requires book { self.seen.book ≡ J.book }
        requires opening { opening ≡ J.opening }
        requires kept { K.holds keeper J.before }
        requires world { OpensAsKept K.idle K.first J.before J.opening }
        requires may { MayBeKept K.may J.asked J.opening J.before }
        requires rule { HeldIsKept K.holds K.stays J.kept J.before }
        ensures passes { IfOk result (λ r.
            (vec_len r.1 ≡ passes) × All (λ p. p ≡ nothing) r.1.items) }
        ensures seats { IfOk result (λ r. (vec_len r.2 ≡ seats) × AreFresh 0 r.2.items) }
        ensures refused { IfErr result (λ e.
            ¬ (e ≡ OpenError.BadPasses) × ¬ (e ≡ OpenError.Limit)) }
    {
        let Store { word, seen, rights } = self;
        let end = LogEnd {
            word,
            of: PhantomData,
        };
        let log = LogPrefix::of(seen);
        let told = log.share();
        let Ok(opening) = Arc::new(alloc, opening) else {
            return Err(OpenError::Memory);
        };
        let (Ok(ahead), Ok(base), Ok(seat_list)) = (
            standing_of::<J>(alloc, &opening, seats),
            standing_of::<J>(alloc, &opening, seats),
            seats_of(alloc, &told, seats),
        ) else {
            return Err(OpenError::Memory);
        };
        let Ok(press) = press_over(alloc, &opening, &log, rights, passes) else {
            return Err(OpenError::Memory);
        };
        let desk = press.factory().another();
        let tip = Tip::of(alloc, end, log.share(), ahead, base);
        let book = Book::of(rt, log, press, keeper);
        let committer = Committer::of(alloc, tip, book);
        let Ok(desk) = desk else {
            return Err(OpenError::Unavailable);
        };
        let pass_list = passes_of(alloc, &desk, &told, passes)?;
        Ok((committer, pass_list, seat_list))
    }
}
