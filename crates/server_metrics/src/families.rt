//! The families, each with its rows.

ghost use Rattle.std.specs.Prelude.{◌≡◌, ◌++◌, decimal, OnOk, IfOk};
ghost use Rattle.server_metrics.specs.Families.{family_head, replies_text, changes_replies_text};
ghost use Rattle.server_metrics.specs.Families.{requests_text, refusals_text, events_text};
ghost use Rattle.server_metrics.specs.Families.{counter_text, buckets_of, times_text};
ghost use Rattle.server_metrics.specs.Families.{changes_times_text, durations_text, gauge_text};
ghost use Rattle.server_metrics.specs.Families.{floor_text, versions_text, build_text, port_text};
ghost use Rattle.server_metrics.specs.Families.{head_state_text, workers_text, process_text};
ghost use Rattle.server_metrics.specs.Families.{state_text, sums_text, counts_text, joins_text};
ghost use Rattle.server_metrics.specs.Families.{server_metrics};

use crate::counts::{
    Counts, PathCounts, State, Times, bounds, port_statuses, refusal_numbers, statuses,
};
use crate::names::{
    Family, Row, event_front, help_of, kit_front, name_of, port_front, refusal_front, row_name,
    version_front,
};
use crate::rows::{
    Kind, append, append_buckets, append_counts, append_end, append_head, append_path,
    append_path_time, append_plain, append_signed, append_word, front_of, total,
};
use std::alloc::{AllocError, Global};

/// Appends what stands before the rows of a family.
#[tactic(auto, unfolding(crate::specs::Families::family_head))]
fn append_family(out: &mut Vec<u8>, family: Family, kind: Kind) -> Result<(), AllocError>
    ensures { OnOk result (out.new.items ≡ out.old.items ++ family_head family kind) }
{
    append_head(out, name_of(family), kind, help_of(family))
}

/// Appends a counter without labels.
#[tactic(auto, unfolding(crate::specs::Families::counter_text))]
fn append_counter(out: &mut Vec<u8>, family: Family, n: u64) -> Result<(), AllocError>
    ensures { OnOk result (out.new.items ≡ out.old.items ++ counter_text family n) }
{
    append_family(out, family, Kind::Counter)?;
    append_plain(out, name_of(family), n)
}

/// Appends a gauge without labels.
#[tactic(auto, unfolding(crate::specs::Families::gauge_text))]
fn append_gauge(out: &mut Vec<u8>, family: Family, n: u64) -> Result<(), AllocError>
    ensures { OnOk result (out.new.items ≡ out.old.items ++ gauge_text family n) }
{
    append_family(out, family, Kind::Gauge)?;
    append_plain(out, name_of(family), n)
}

/// Appends the replies of a path, by status.
#[tactic(auto, unfolding(crate::specs::Families::replies_text))]
fn append_replies(
    out: &mut Vec<u8>,
    alloc: Global,
    path: &str,
    counts: &PathCounts,
) -> Result<(), AllocError>
    ensures { OnOk result
        (out.new.items ≡ out.old.items ++ replies_text path.now counts.now) }
{
    let front = front_of(alloc, name_of(Family::Requests), path, "status")?;
    append_counts(out, front.as_slice(), statuses(), &counts.replies)
}

#[tactic(auto, unfolding(crate::specs::Families::changes_replies_text))]
fn append_changes_replies(
    out: &mut Vec<u8>,
    alloc: Global,
    counts: &Counts,
) -> Result<(), AllocError>
    ensures { OnOk result
        (out.new.items ≡ out.old.items ++ changes_replies_text counts.now) }
{
    append_replies(out, alloc, "write", &counts.write)?;
    append_replies(out, alloc, "delete", &counts.delete)?;
    append_replies(out, alloc, "cut", &counts.cut)
}

#[tactic(auto, unfolding(crate::specs::Families::requests_text))]
fn append_requests(out: &mut Vec<u8>, alloc: Global, counts: &Counts) -> Result<(), AllocError>
    ensures { OnOk result (out.new.items ≡ out.old.items ++ requests_text counts.now) }
{
    append_family(out, Family::Requests, Kind::Counter)?;
    append_replies(out, alloc, "select", &counts.select)?;
    append_changes_replies(out, alloc, counts)?;
    append_replies(out, alloc, "other", &counts.other)
}

/// Appends the refusals, by code.
#[tactic(auto, unfolding(crate::specs::Families::refusals_text))]
fn append_refusals(out: &mut Vec<u8>, counts: &Counts) -> Result<(), AllocError>
    ensures { OnOk result (out.new.items ≡ out.old.items ++ refusals_text counts.now) }
{
    append_family(out, Family::Refusals, Kind::Counter)?;
    append_counts(
        out,
        refusal_front().as_bytes(),
        refusal_numbers(),
        &counts.refusals,
    )
}

/// Appends the events, by kind.
#[tactic(auto, unfolding(crate::specs::Families::events_text))]
fn append_events(out: &mut Vec<u8>, counts: &Counts) -> Result<(), AllocError>
    ensures { OnOk result (out.new.items ≡ out.old.items ++ events_text counts.now) }
{
    append_family(out, Family::Events, Kind::Counter)?;
    let front = event_front().as_bytes();
    append_word(out, front, "batch", counts.batches)?;
    append_word(out, front, "deletion", counts.deletions)?;
    append_word(out, front, "cut", counts.cuts)
}

/// Appends what is counted without labels.
#[tactic(auto, unfolding(crate::specs::Families::sums_text))]
fn append_sums(out: &mut Vec<u8>, counts: &Counts) -> Result<(), AllocError>
    ensures { OnOk result (out.new.items ≡ out.old.items ++ sums_text counts.now) }
{
    append_counter(out, Family::Samples, counts.samples)?;
    append_counter(out, Family::Bytes, counts.bytes)
}

/// Appends the buckets of a path's histogram.
#[tactic(auto, unfolding(crate::specs::Families::buckets_of))]
fn append_path_buckets(
    out: &mut Vec<u8>,
    alloc: Global,
    path: &str,
    times: &Times,
) -> Result<(), AllocError>
    ensures { OnOk result
        (out.new.items ≡ out.old.items ++ buckets_of path.now times.now) }
{
    let front = front_of(alloc, row_name(Row::Bucket), path, "le")?;
    append_buckets(out, front.as_slice(), bounds(), &times.counts)?;
    append_word(out, front.as_slice(), "+Inf", total(&times.counts))
}

/// Appends the histogram of a path.
#[tactic(auto, unfolding(crate::specs::Families::times_text))]
fn append_times(
    out: &mut Vec<u8>,
    alloc: Global,
    path: &str,
    times: &Times,
) -> Result<(), AllocError>
    ensures { OnOk result
        (out.new.items ≡ out.old.items ++ times_text path.now times.now) }
{
    append_path_buckets(out, alloc, path, times)?;
    append_path_time(out, row_name(Row::Sum), path, times.microseconds)?;
    append_path(out, row_name(Row::Count), path, total(&times.counts))
}

#[tactic(auto, unfolding(crate::specs::Families::changes_times_text))]
fn append_changes_times(out: &mut Vec<u8>, alloc: Global, counts: &Counts) -> Result<(), AllocError>
    ensures { OnOk result
        (out.new.items ≡ out.old.items ++ changes_times_text counts.now) }
{
    append_times(out, alloc, "write", &counts.write.times)?;
    append_times(out, alloc, "delete", &counts.delete.times)?;
    append_times(out, alloc, "cut", &counts.cut.times)
}

#[tactic(auto, unfolding(crate::specs::Families::durations_text))]
fn append_durations(out: &mut Vec<u8>, alloc: Global, counts: &Counts) -> Result<(), AllocError>
    ensures { OnOk result (out.new.items ≡ out.old.items ++ durations_text counts.now) }
{
    append_family(out, Family::Durations, Kind::Histogram)?;
    append_times(out, alloc, "select", &counts.select.times)?;
    append_changes_times(out, alloc, counts)?;
    append_times(out, alloc, "other", &counts.other.times)
}

/// Appends the least time at which the head takes samples.
#[tactic(auto, unfolding(crate::specs::Families::floor_text))]
fn append_floor(out: &mut Vec<u8>, floor: i64) -> Result<(), AllocError>
    ensures { OnOk result (out.new.items ≡ out.old.items ++ floor_text floor) }
{
    append_family(out, Family::Floor, Kind::Gauge)?;
    append_signed(out, name_of(Family::Floor), floor)
}

/// Appends how the head stands.
#[tactic(auto, unfolding(crate::specs::Families::head_state_text))]
fn append_head_state(out: &mut Vec<u8>, state: &State) -> Result<(), AllocError>
    ensures { OnOk result (out.new.items ≡ out.old.items ++ head_state_text state.now) }
{
    append_gauge(out, Family::HeadSeries, state.series)?;
    append_gauge(out, Family::HeadSamples, state.samples)?;
    append_floor(out, state.floor)
}

/// Appends the workers.
#[tactic(auto, unfolding(crate::specs::Families::workers_text))]
fn append_workers(out: &mut Vec<u8>, state: &State) -> Result<(), AllocError>
    ensures { OnOk result (out.new.items ≡ out.old.items ++ workers_text state.now) }
{
    append_gauge(out, Family::Workers, state.workers)?;
    append_gauge(out, Family::Busy, state.busy)?;
    append_gauge(out, Family::PortConnections, state.port_connections)
}

/// Appends how the process stands.
#[tactic(auto, unfolding(crate::specs::Families::process_text))]
fn append_process(out: &mut Vec<u8>, state: &State) -> Result<(), AllocError>
    ensures { OnOk result (out.new.items ≡ out.old.items ++ process_text state.now) }
{
    append_gauge(out, Family::Blocks, state.blocks)?;
    append_workers(out, state)?;
    append_gauge(out, Family::Resident, state.resident)
}

/// Appends the version of the program and of its kit, up to the last quote.
#[tactic(auto, unfolding(crate::specs::Families::versions_text))]
fn append_versions(out: &mut Vec<u8>, state: &State) -> Result<(), AllocError>
    ensures { OnOk result (out.new.items ≡ out.old.items ++ versions_text state.now) }
{
    append(out, version_front())?;
    append(out, state.version)?;
    append(out, kit_front())?;
    append(out, state.kit)
}

/// Appends a row with the version of the program and of its kit.
#[tactic(auto, unfolding(crate::specs::Families::build_text))]
fn append_build(out: &mut Vec<u8>, state: &State) -> Result<(), AllocError>
    ensures { OnOk result (out.new.items ≡ out.old.items ++ build_text state.now) }
{
    append_family(out, Family::Build, Kind::Gauge)?;
    append_versions(out, state)?;
    append_end(out, 1)
}

/// Appends how a server stands.
#[tactic(auto, unfolding(crate::specs::Families::state_text))]
fn append_state(out: &mut Vec<u8>, state: &State) -> Result<(), AllocError>
    ensures { OnOk result (out.new.items ≡ out.old.items ++ state_text state.now) }
{
    append_head_state(out, state)?;
    append_process(out, state)?;
    append_build(out, state)
}

/// Appends the replies of the port of Prometheus, by status.
#[tactic(auto, unfolding(crate::specs::Families::port_text))]
fn append_port(out: &mut Vec<u8>, counts: &Counts) -> Result<(), AllocError>
    ensures { OnOk result (out.new.items ≡ out.old.items ++ port_text counts.now) }
{
    append_family(out, Family::PortReplies, Kind::Counter)?;
    append_counts(
        out,
        port_front().as_bytes(),
        port_statuses(),
        &counts.port_replies,
    )
}

/// Appends what was counted.
#[tactic(auto, unfolding(crate::specs::Families::counts_text))]
fn append_all_counts(out: &mut Vec<u8>, alloc: Global, counts: &Counts) -> Result<(), AllocError>
    ensures { OnOk result (out.new.items ≡ out.old.items ++ counts_text counts.now) }
{
    append_requests(out, alloc, counts)?;
    append_refusals(out, counts)?;
    append_events(out, counts)?;
    append_sums(out, counts)?;
    append_durations(out, alloc, counts)?;
    append_port(out, counts)
}

/// Appends the joins of blocks.
#[tactic(auto, unfolding(crate::specs::Families::joins_text))]
fn append_joins(out: &mut Vec<u8>, counts: &Counts) -> Result<(), AllocError>
    ensures { OnOk result (out.new.items ≡ out.old.items ++ joins_text counts.now) }
{
    append_counter(out, Family::Joins, counts.joins)?;
    append_counter(out, Family::Removed, counts.removed)
}

/// The text of `GET /metrics`: each family with what it is and its rows, in the order of
/// `server_metrics`. It has some 150 rows, whatever the counts are.
#[tactic(auto, unfolding(crate::specs::Families::server_metrics))]
pub fn metrics(alloc: Global, counts: &Counts, state: &State) -> Result<Vec<u8>, AllocError>
    ensures { IfOk result (λ text. text.items ≡ server_metrics counts.now state.now) }
{
    let mut out = Vec::new(alloc);
    append_all_counts(&mut out, alloc, counts)?;
    append_state(&mut out, state)?;
    append_joins(&mut out, counts)?;
    Ok(out)
}
