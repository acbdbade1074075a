//! Whether the samples of chunks are the same.

ghost use Rattle.std.specs.Prelude.{◌≡◌, true};

use packed_chunks::{PackedChunks, PackedSamples};

fn are_same_samples(samples: &PackedSamples<'_>, others: &PackedSamples<'_>) -> bool
    ensures { result ≡ true → samples.now ≡ others.now }
{
    if samples.len() != others.len() {
        return false;
    }
    for i in 0..samples.len() {
        if samples.get(i) != others.get(i) {
            return false;
        }
    }
    true
}

/// Whether both hold the same samples, chunk by chunk.
pub(crate) fn are_same_chunks(chunks: &PackedChunks, others: &PackedChunks) -> bool
    ensures { result ≡ true → chunks.now ≡ others.now }
{
    if chunks.len() != others.len() {
        return false;
    }
    for n in 0..chunks.len() {
        if !are_same_samples(&chunks.get(n), &others.get(n)) {
            return false;
        }
    }
    true
}
