//! What is left out of a write before the store is asked.

ghost use Rattle.std.specs.Prelude.{◌≡◌, ◌<◌, []};
ghost use Rattle.remote_requests.specs.Left.{Adds, IsTally, counted, first_after, left_code};
ghost use Rattle.remote_requests.specs.Left.{place_of, times};

/// Why a sample or a histogram is left out before the store is asked: of several reasons the first
/// in this order.
#[derive(Clone, Copy, Debug, PartialEq, Eq, Drop)]
pub enum LeftOut {
    /// `L5`: the names and values of its series have more than 65,536 bytes.
    TooLong,
    /// `L4`: a name or a value of its series is no UTF-8.
    BadText,
    /// `L1`: a name of its series is no label name.
    BadName,
    /// `L2`: a name of its series stands twice.
    Repeated,
    /// `L3`: its series has more than 64 labels with a value.
    TooMany,
    /// `N2`: the `__name__` of its series names no metric.
    BadMetric,
    /// `A2`: its time is none of the store's.
    NoTime,
    /// `N4`: its time is more than 86,400,000 ms ahead of the clock.
    TooFarAhead,
    /// `N3`: it is a native histogram.
    Histogram,
}

impl LeftOut {
    /// Each of them.
    pub const ALL: [LeftOut; 9] = [
        LeftOut::TooLong,
        LeftOut::BadText,
        LeftOut::BadName,
        LeftOut::Repeated,
        LeftOut::TooMany,
        LeftOut::BadMetric,
        LeftOut::NoTime,
        LeftOut::TooFarAhead,
        LeftOut::Histogram,
    ];

    /// Its number.
    pub fn code(self) -> &'static str
        ensures { result.now ≡ left_code self }
    {
        match self {
            LeftOut::TooLong => "L5",
            LeftOut::BadText => "L4",
            LeftOut::BadName => "L1",
            LeftOut::Repeated => "L2",
            LeftOut::TooMany => "L3",
            LeftOut::BadMetric => "N2",
            LeftOut::NoTime => "A2",
            LeftOut::TooFarAhead => "N4",
            LeftOut::Histogram => "N3",
        }
    }

    fn place(self) -> usize
        ensures is { result ≡ place_of self }
        ensures below { result < 9 }
    {
        match self {
            LeftOut::TooLong => 0,
            LeftOut::BadText => 1,
            LeftOut::BadName => 2,
            LeftOut::Repeated => 3,
            LeftOut::TooMany => 4,
            LeftOut::BadMetric => 5,
            LeftOut::NoTime => 6,
            LeftOut::TooFarAhead => 7,
            LeftOut::Histogram => 8,
        }
    }
}

fn first_after(first: Option<LeftOut>, why: LeftOut) -> Option<LeftOut>
    ensures { result ≡ first_after first why }
{
    match first {
        Some(first) => Some(first),
        None => Some(why),
    }
}

/// How many were left out for each reason, and for which the first.
#[derive(Clone, Copy, Drop)]
pub struct Left {
    pub(crate) first: Option<LeftOut>,
    pub(crate) counts: [u64; 9],
}

impl Left {
    /// Nothing was left out.
    pub fn none() -> Left
        ensures { IsTally result [] }
    {
        Left {
            first: None,
            counts: [0; 9],
        }
    }

    /// Why the first was left out; none if none was.
    pub fn first(&self) -> Option<LeftOut>
        ensures { result ≡ self.now.first }
    {
        self.first
    }

    /// How many were left out for a reason.
    pub fn count(&self, why: LeftOut) -> u64
        ensures { result ≡ counted self.now (place_of why) }
    {
        self.counts[why.place()]
    }

    /// So many more are left out for a reason.
    pub(crate) fn add(&mut self, why: LeftOut, count: u64)
        ensures { Adds self.old self.new (times count why) }
    {
        if count == 0 {
            return;
        }
        self.first = first_after(self.first, why);
        let place = why.place();
        self.counts[place] = self.counts[place].saturating_add(count);
    }
}
