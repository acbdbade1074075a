//! What is looked at of blocks, and what one block may have.

ghost use Rattle.std.specs.Prelude.{◌≡◌, ◌≤◌, ◌<◌, ◌+◌, IfSome, IfNone, IsTrue, ◌↔◌, length, drop};
ghost use Rattle.join_schedule.specs.Blocks.{IsRun, Fits, run_of, samples_in};

/// What is looked at of a block.
#[derive(Clone, Copy, Debug, PartialEq, Eq)]
pub struct Shape {
    /// Where its range of times begins, in milliseconds since 1970.
    pub from: i64,
    /// Where its range ends, in milliseconds since 1970. This time is not in the range.
    pub to: i64,
    /// How many samples it has.
    pub samples: u64,
    /// How many series it has.
    pub series: u64,
    /// How many bytes its files have.
    pub bytes: u64,
}

/// What blocks are joined by.
#[derive(Clone, Copy, Debug, PartialEq, Eq)]
pub struct Limits {
    /// The most samples of a joined block.
    pub samples: u64,
    /// The most series of the blocks that are joined, a series once for each block that has it.
    pub series: u64,
    /// The most bytes of the files of the blocks that are joined.
    pub bytes: u64,
    /// The span of a cut in milliseconds, 1 or more.
    pub cut: u64,
    /// The longest window in milliseconds: an eighth of how long samples are kept. None if they
    /// are kept for ever.
    pub longest_window: Option<u64>,
    /// Neighbours are joined where there are more blocks than this: 56 of the 63 of a store.
    pub many: usize,
    /// How many blocks there are to be then: 44, say.
    pub few: usize,
}

/// Blocks side by side.
#[derive(Clone, Copy, Debug, PartialEq, Eq)]
pub struct Run {
    /// The place of the first, from 0 on.
    pub at: usize,
    /// How many there are, 2 or more.
    pub count: usize,
}

impl Limits {
    /// The limits of a round of joins that begins with so many blocks. If these are more than are
    /// many, neighbours are joined until there are few.
    pub fn of_round(&self, blocks: usize) -> Limits
        ensures many { self.now.many < blocks → result ≡ record self.now { many = self.now.few } }
        ensures not_many { blocks ≤ self.now.many → result ≡ self.now }
    {
        if blocks > self.many {
            Limits {
                many: self.few,
                ..*self
            }
        } else {
            *self
        }
    }
}

// What the blocks so far have together.
#[derive(Clone, Copy)]
struct Sums {
    samples: u64,
    series: u64,
    bytes: u64,
}

impl Sums {
    // With those of a block more, if they are within the limits.
    fn with(self, block: &Shape, limits: &Limits) -> Option<Sums>
        ensures samples { IfSome result (λ s. (s.samples ≡ self.samples + block.now.samples)
            × (s.samples ≤ limits.now.samples)) }
        ensures series { IfSome result (λ s. (s.series ≡ self.series + block.now.series)
            × (s.series ≤ limits.now.series)) }
        ensures bytes { IfSome result (λ s. (s.bytes ≡ self.bytes + block.now.bytes)
            × (s.bytes ≤ limits.now.bytes)) }
        ensures none { IfNone result (self.samples + block.now.samples ≤ limits.now.samples
            → self.series + block.now.series ≤ limits.now.series
            → self.bytes + block.now.bytes ≤ limits.now.bytes → ⊥) }
    {
        Some(Sums {
            samples: sum_within(self.samples, block.samples, limits.samples)?,
            series: sum_within(self.series, block.series, limits.series)?,
            bytes: sum_within(self.bytes, block.bytes, limits.bytes)?,
        })
    }
}

/// A sum, if it is no more than `most`. It cannot overflow.
pub(crate) fn sum_within(one: u64, other: u64, most: u64) -> Option<u64>
    ensures some { IfSome result (λ n. (n ≡ one + other) × (n ≤ most)) }
    ensures none { IfNone result (most < one + other) }
{
    let sum = one.checked_add(other)?;
    if sum <= most { Some(sum) } else { None }
}

/// The samples of blocks together, if these may become one. The sums cannot overflow. Time in
/// proportion to the blocks.
pub(crate) fn joined_samples(blocks: &[Shape], floor: i64, limits: &Limits) -> Option<u64>
    ensures some { IfSome result (λ n. (n ≡ samples_in blocks.now)
        × Fits limits.now floor blocks.now) }
    ensures none { IfNone result (Fits limits.now floor blocks.now → ⊥) }
{
    let mut sums = Sums {
        samples: 0,
        series: 0,
        bytes: 0,
    };
    for block in blocks {
        if block.to > floor {
            return None;
        }
        sums = sums.with(block, limits)?;
    }
    Some(sums.samples)
}

/// The blocks from a place on.
pub(crate) fn blocks_from(at: usize, blocks: &[Shape]) -> &[Shape]
    requires { at ≤ length blocks.now }
    ensures { result.now ≡ drop at blocks.now }
{
    &blocks[at..]
}

/// The blocks of a run.
pub(crate) fn blocks_of(run: Run, blocks: &[Shape]) -> &[Shape]
    requires { IsRun blocks.now run }
    ensures { result.now ≡ run_of run blocks.now }
{
    &blocks[run.at..run.at + run.count]
}

/// Whether blocks may become one.
pub(crate) fn fits(blocks: &[Shape], floor: i64, limits: &Limits) -> bool
    ensures { IsTrue result ↔ Fits limits.now floor blocks.now }
{
    joined_samples(blocks, floor, limits).is_some()
}
