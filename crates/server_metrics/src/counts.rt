//! What is counted.

ghost use Rattle.std.specs.Prelude.{◌≡◌, ◌<◌, ◌==◌, count_by, nat_lt, position};
ghost use Rattle.server_metrics.specs.Bounds.{bounds, statuses, port_statuses, refusals};
ghost use Rattle.server_metrics.specs.Counting.{IsNothing, IsUnasked};

/// What was counted of a server's requests since it began.
#[derive(Clone, Copy, Debug, PartialEq, Eq, Drop)]
pub struct Counts {
    pub select: PathCounts,
    pub write: PathCounts,
    pub delete: PathCounts,
    pub cut: PathCounts,
    /// Requests of no path, and what was no request.
    pub other: PathCounts,
    /// Refusals by number, by their [`place_of_refusal`].
    pub refusals: [u64; 13],
    /// Batches, deletions and cuts that the store accepted.
    pub batches: u64,
    pub deletions: u64,
    pub cuts: u64,
    /// Samples of the batches.
    pub samples: u64,
    /// Bytes of replies.
    pub bytes: u64,
    /// Replies of the port of Prometheus by status, by their [`place_of_port_status`].
    pub port_replies: [u64; 9],
    /// Joins of blocks that the store accepted.
    pub joins: u64,
    /// Blocks that left since no sample was left in them.
    pub removed: u64,
}

/// What was counted of the requests of one path.
#[derive(Clone, Copy, Debug, PartialEq, Eq, Drop)]
pub struct PathCounts {
    /// Replies by status, by their [`place_of_status`].
    pub replies: [u64; 9],
    pub times: Times,
}

/// How long requests took.
#[derive(Clone, Copy, Debug, PartialEq, Eq, Drop)]
pub struct Times {
    /// How many took so long, by their [`place_in`] the bounds.
    pub counts: [u64; 11],
    /// How long all took together, in microseconds.
    pub microseconds: u64,
}

impl Counts {
    /// Nothing was counted.
    pub fn none() -> Counts
        ensures { IsNothing result }
    {
        Counts {
            select: PathCounts::none(),
            write: PathCounts::none(),
            delete: PathCounts::none(),
            cut: PathCounts::none(),
            other: PathCounts::none(),
            refusals: [0; 13],
            batches: 0,
            deletions: 0,
            cuts: 0,
            samples: 0,
            bytes: 0,
            port_replies: [0; 9],
            joins: 0,
            removed: 0,
        }
    }
}

impl PathCounts {
    fn none() -> PathCounts
        ensures { IsUnasked result }
    {
        let times = Times {
            counts: [0; 11],
            microseconds: 0,
        };
        PathCounts {
            replies: [0; 9],
            times,
        }
    }
}

/// How a server stands.
#[derive(Clone, Copy, Debug, PartialEq, Eq, Drop)]
pub struct State {
    /// Series, samples and floor (in milliseconds) of the head.
    pub series: u64,
    pub samples: u64,
    pub floor: i64,
    /// Blocks that are searched.
    pub blocks: u64,
    /// Workers, and how many of them serve a connection.
    pub workers: u64,
    pub busy: u64,
    /// Connections on the port of Prometheus.
    pub port_connections: u64,
    /// Memory that the process occupies, in bytes.
    pub resident: u64,
    /// The version of the program, and of the kit that it was made with: neither has a quote, a
    /// backslash or an end of a line.
    pub version: &'static str,
    pub kit: &'static str,
}

/// The statuses of replies, each in its place of [`PathCounts::replies`].
#[tactic(auto, unfolding(crate::specs::Bounds::statuses))]
pub(crate) fn statuses() -> &'static [u64]
    ensures { result.now ≡ statuses }
{
    &[200, 400, 403, 404, 405, 409, 413, 431, 503]
}

/// The statuses of replies of the port of Prometheus, each in its place of
/// [`Counts::port_replies`].
#[tactic(auto, unfolding(crate::specs::Bounds::port_statuses))]
pub(crate) fn port_statuses() -> &'static [u64]
    ensures { result.now ≡ port_statuses }
{
    &[200, 400, 403, 404, 405, 411, 415, 431, 503]
}

/// The numbers of refusals, each in its place of [`Counts::refusals`].
#[tactic(auto, unfolding(crate::specs::Bounds::refusals))]
pub(crate) fn refusal_numbers() -> &'static [u64]
    ensures { result.now ≡ refusals }
{
    &[1, 2, 3, 4, 5, 6, 7, 8, 9, 10, 11, 12, 13]
}

/// The place of a status in [`PathCounts::replies`], if replies have it.
pub fn place_of_status(number: u64) -> Option<usize>
    ensures { result ≡ position (λ one. one == number) statuses }
{
    statuses().iter().position(|one| *one == number)
}

/// The place of a status in [`Counts::port_replies`], if replies of the port of Prometheus have it.
pub fn place_of_port_status(number: u64) -> Option<usize>
    ensures { result ≡ position (λ one. one == number) port_statuses }
{
    port_statuses().iter().position(|one| *one == number)
}

/// The place of a refusal in [`Counts::refusals`], if there is one with this number: 3 is `H3`.
pub fn place_of_refusal(number: u64) -> Option<usize>
    ensures { result ≡ position (λ one. one == number) refusals }
{
    refusal_numbers().iter().position(|one| *one == number)
}

/// The bounds of a histogram, in microseconds: the last count of [`Times::counts`] is of what lies
/// above each of them.
#[tactic(auto, unfolding(crate::specs::Bounds::bounds))]
pub(crate) fn bounds() -> &'static [u64]
    ensures { result.now ≡ bounds }
{
    &[
        100, 500, 1_000, 5_000, 10_000, 50_000, 100_000, 500_000, 1_000_000, 5_000_000,
    ]
}

/// The place in [`Times::counts`] of a request that took so many microseconds: how many bounds lie
/// below it.
#[tactic(auto, unfolding(crate::specs::Bounds::bounds))]
pub fn place_in(microseconds: u64) -> usize
    ensures place { result ≡ count_by (λ bound. nat_lt bound microseconds) bounds }
    ensures within { result < 11 }
{
    bounds()
        .iter()
        .filter(|bound| **bound < microseconds)
        .count()
}
