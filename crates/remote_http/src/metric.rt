//! Rows that can be sent to a Prometheus.

ghost use Rattle.std.specs.Prelude.{◌≡◌};
ghost use Rattle.remote_http.specs.Reading.{are_named};

use labels::Row;
use remote_requests::names_metric;

/// Whether each row has no `__name__`, or one that names a metric.
pub(crate) fn are_named(rows: &[Row]) -> bool
    ensures { result ≡ are_named rows.now }
{
    rows.iter().all(|row| names_metric(row.labels()))
}
