//! How many samples are not deleted.

ghost use Rattle.std.specs.Prelude.{◌≡◌, ◌-◌, ◌^◌, length, min};
ghost use Rattle.block.specs.Samples.{samples_in, undeleted};
ghost use Rattle.block.specs.Blocks.{part_of_series, sample_count};
ghost use Rattle.block.specs.Kept.{source_in, AreKeptFrom};
ghost use Rattle.block.specs.Packing.{ArePacked};

use crate::files::Files;
use crate::samples::chunk_samples;
use index_reader::Chunk;
use labels::SeriesRef;
use packed_chunks::PackedSamples;
use tombstones::Tombstones;

fn live_among(samples: &PackedSamples<'_>, tombstones: &Tombstones, reference: SeriesRef) -> u64
    ensures { result ≡ length (undeleted tombstones.now reference samples.now) }
{
    let mut count = 0u64;
    for at in 0..samples.len() {
        if !tombstones.deleted(reference, samples.get(at).t()) {
            count += 1;
        }
    }
    count
}

fn live_in(samples: &PackedSamples<'_>, tombstones: &Tombstones, reference: SeriesRef) -> u64
    ensures { result ≡ length (undeleted tombstones.now reference samples.now) }
{
    if !tombstones.has_deletion_of(reference) {
        return samples.len() as u64;
    }
    live_among(samples, tombstones, reference)
}

fn live_in_all(
    files: &Files,
    first: usize,
    list: &[Chunk],
    tombstones: &Tombstones,
    reference: SeriesRef,
) -> u64
    requires { AreKeptFrom files.now first list.now }
    ensures { result ≡ min (length (undeleted tombstones.now reference
        (samples_in (source_in files.now) list.now))) (2 ^ 64 - 1) }
{
    let mut count = 0u64;
    for k in 0..list.len() {
        let samples = chunk_samples(files, first, list, k);
        count = count.saturating_add(live_in(&samples, tombstones, reference));
    }
    count
}

/// How many samples of all series are not deleted, up to the greatest number.
pub(crate) fn count_live(files: &Files, tombstones: &Tombstones) -> u64
    requires { ArePacked files.now.starts.items files.now.packed files.now.index }
    ensures { result ≡ min (sample_count
        (part_of_series (source_in files.now) tombstones.now files.now.index.series)) (2 ^ 64 - 1) }
{
    let index = &files.index;
    let mut count = 0u64;
    for at in 0..index.len() {
        let reference = index.reference_at(at);
        count = count.saturating_add(live_in_all(
            files,
            files.starts[at],
            index.chunks_at(at),
            tombstones,
            reference,
        ));
    }
    count
}
