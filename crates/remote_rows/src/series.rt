//! The series that is sent of a row.

ghost use Rattle.std.specs.Prelude.{◌≡◌, ◌++◌, map, OnOk};
ghost use Rattle.protobuf_fields.specs.Format.{EachIs};
ghost use Rattle.remote_write.specs.Reading.{label_seen, sample_seen, series_seen};
ghost use Rattle.remote_rows.specs.Sent.{IsSampleOf, IsSeriesOf, label_of};

use labels::{LabelSet, Row, Sample as StoredSample};
use remote_write::{Label, Sample, Series};
use std::alloc::AllocError;
use stored_doubles::restored;

fn add_labels<'a>(out: &mut Vec<Label<'a>>, labels: &'a LabelSet) -> Result<(), AllocError>
    ensures { OnOk result (map label_seen out.new.items
        ≡ map label_seen out.old.items ++ map label_of labels.entry.now) }
{
    for at in 0..labels.len() {
        let (name, value) = labels.pair(at);
        out.push(Label {
            name: name.as_bytes(),
            value: value.as_bytes(),
        })?;
    }
    Ok(())
}

fn sample_of(sample: StoredSample) -> Sample
    ensures { IsSampleOf sample (sample_seen result) }
{
    Sample {
        time: sample.t(),
        value: restored(sample.v()),
    }
}

fn fill_samples(out: &mut Vec<Sample>, samples: &[StoredSample]) -> Result<(), AllocError>
    ensures { OnOk result (EachIs IsSampleOf samples.now (map sample_seen out.new.items)) }
{
    out.clear();
    for sample in samples {
        out.push(sample_of(*sample))?;
    }
    Ok(())
}

/// Makes the series that is sent of a row, in the room of another.
pub(crate) fn fill<'a>(
    series: &mut Series<'a>,
    row: &'a Row,
    names_alone: bool,
) -> Result<(), AllocError>
    ensures { OnOk result (IsSeriesOf names_alone row.entry.now (series_seen series.new)) }
{
    series.histograms = 0;
    series.labels.clear();
    add_labels(&mut series.labels, row.labels())?;
    let sent: &[StoredSample] = if names_alone { &[] } else { row.samples() };
    fill_samples(&mut series.samples, sent)
}
