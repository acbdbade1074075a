//! Writing a reply.

ghost use Rattle.std.specs.Prelude.{◌≡◌, ◌++◌, ℕ, List, map, OnOk};
ghost use Rattle.remote_write.specs.Format.{SeriesValue};
ghost use Rattle.remote_write.specs.Reading.{series_seen};
ghost use Rattle.remote_write.specs.Writing.{body_text, text_field};
ghost use Rattle.remote_read.specs.Answer.{Fits, IsResponse, response_text};

use remote_write::{Series, put_body, put_text};
use std::alloc::{AllocError, Global};

// Appends one result, by way of a vector of its own.
fn put_result(alloc: Global, out: &mut Vec<u8>, series: &[Series<'_>]) -> Result<(), AllocError>
    ensures { OnOk result
        (out.new.items ≡ out.old.items ++ text_field 1 (body_text (map series_seen series.now))) }
{
    let mut body = Vec::new(alloc);
    let mut room = Vec::new(alloc);
    let mut small = Vec::new(alloc);
    put_body(&mut body, &mut room, &mut small, series)?;
    put_text(out, 1, body.as_slice())
}

/// Appends a reply, `prometheus.ReadResponse`: a result for each query, in their order. Each series
/// is written without its histograms.
pub fn put_response(
    alloc: Global,
    out: &mut Vec<u8>,
    results: &[Vec<Series<'_>>],
) -> Result<(), AllocError>
    ensures { OnOk result (out.new.items
        ≡ out.old.items ++ response_text (map (λ r. map series_seen r.items) results.now)) }
{
    for one in results {
        put_result(alloc, out, one.as_slice())?;
    }
    Ok(())
}

/// The text of results is a reply that means these results, and no bytes mean two.
pub fn response_is_read_back()
    ensures means { (results : List (List SeriesValue)) → Fits results
        → IsResponse (response_text results) results }
    ensures one { (bytes : List ℕ) (results others : List (List SeriesValue))
        → IsResponse bytes results → IsResponse bytes others → results ≡ others }
{}
