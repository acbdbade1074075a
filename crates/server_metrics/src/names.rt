//! The names of families, and what they are.

ghost use Rattle.std.specs.Prelude.{◌≡◌};
ghost use Rattle.server_metrics.specs.Names.{name_of, help_of, row_name, refusal_front, port_front};
ghost use Rattle.server_metrics.specs.Names.{event_front, version_front, kit_front};

/// A family of rows.
#[derive(Clone, Copy, Drop)]
pub(crate) enum Family {
    Requests,
    Refusals,
    Events,
    Samples,
    Bytes,
    Durations,
    PortReplies,
    HeadSeries,
    HeadSamples,
    Floor,
    Blocks,
    Workers,
    Busy,
    PortConnections,
    Resident,
    Build,
    Joins,
    Removed,
}

/// A row of a histogram.
#[derive(Clone, Copy, Drop)]
pub(crate) enum Row {
    Bucket,
    Sum,
    Count,
}

#[tactic(auto, unfolding(crate::specs::Names::name_of))]
pub(crate) fn name_of(family: Family) -> &'static str
    ensures { result.now ≡ name_of family }
{
    match family {
        Family::Requests => "fuzzledge_requests_total",
        Family::Refusals => "fuzzledge_refusals_total",
        Family::Events => "fuzzledge_events_total",
        Family::Samples => "fuzzledge_samples_accepted_total",
        Family::Bytes => "fuzzledge_replied_bytes_total",
        Family::Durations => "fuzzledge_request_duration_seconds",
        Family::PortReplies => "fuzzledge_prometheus_port_replies_total",
        Family::HeadSeries => "fuzzledge_head_series",
        Family::HeadSamples => "fuzzledge_head_samples",
        Family::Floor => "fuzzledge_head_floor",
        Family::Blocks => "fuzzledge_blocks",
        Family::Workers => "fuzzledge_workers",
        Family::Busy => "fuzzledge_workers_busy",
        Family::PortConnections => "fuzzledge_prometheus_port_connections",
        Family::Resident => "process_resident_memory_bytes",
        Family::Build => "fuzzledge_build_info",
        Family::Joins => "fuzzledge_joins_total",
        Family::Removed => "fuzzledge_removed_blocks_total",
    }
}

#[tactic(auto, unfolding(crate::specs::Names::help_of))]
pub(crate) fn help_of(family: Family) -> &'static str
    ensures { result.now ≡ help_of family }
{
    match family {
        Family::Requests => "Requests for which a reply was made, by path and status.",
        Family::Refusals => "Refusals of requests, by code.",
        Family::Events => "Events that the store accepted, by kind.",
        Family::Samples => "Samples of the batches that the store accepted.",
        Family::Bytes => "Bytes of replies, with their heads.",
        Family::Durations => "Time from accepting a connection to its whole reply, by path.",
        Family::PortReplies => "Replies on the port of Prometheus, by status.",
        Family::HeadSeries => "Series in the head.",
        Family::HeadSamples => "Samples in the head.",
        Family::Floor => "Least time at which the head takes samples, in the unit of their times.",
        Family::Blocks => "Blocks that are searched.",
        Family::Workers => "Workers.",
        Family::Busy => "Workers that serve a connection.",
        Family::PortConnections => "Connections on the port of Prometheus.",
        Family::Resident => "Memory that the process occupies.",
        Family::Build => "1, with the version of the program and of the kit that it was made with.",
        Family::Joins => "Joins of blocks that the store accepted.",
        Family::Removed => "Blocks that left since no sample was left in them.",
    }
}

#[tactic(auto, unfolding(crate::specs::Names::row_name))]
pub(crate) fn row_name(row: Row) -> &'static str
    ensures { result.now ≡ row_name row }
{
    match row {
        Row::Bucket => "fuzzledge_request_duration_seconds_bucket",
        Row::Sum => "fuzzledge_request_duration_seconds_sum",
        Row::Count => "fuzzledge_request_duration_seconds_count",
    }
}

/// What stands before the number of a refusal.
#[tactic(auto, unfolding(crate::specs::Names::refusal_front))]
pub(crate) fn refusal_front() -> &'static str
    ensures { result.now ≡ refusal_front }
{
    "fuzzledge_refusals_total{code=\"H"
}

/// What stands before the status of a reply of the port of Prometheus.
#[tactic(auto, unfolding(crate::specs::Names::port_front))]
pub(crate) fn port_front() -> &'static str
    ensures { result.now ≡ port_front }
{
    "fuzzledge_prometheus_port_replies_total{status=\""
}

/// What stands before the kind of an event.
#[tactic(auto, unfolding(crate::specs::Names::event_front))]
pub(crate) fn event_front() -> &'static str
    ensures { result.now ≡ event_front }
{
    "fuzzledge_events_total{kind=\""
}

/// What stands before the version of the program.
#[tactic(auto, unfolding(crate::specs::Names::version_front))]
pub(crate) fn version_front() -> &'static str
    ensures { result.now ≡ version_front }
{
    "fuzzledge_build_info{version=\""
}

/// What stands before the version of the kit.
#[tactic(auto, unfolding(crate::specs::Names::kit_front))]
pub(crate) fn kit_front() -> &'static str
    ensures { result.now ≡ kit_front }
{
    "\",kit=\""
}
