//! The samples of one label set, in packed chunks that versions share.

ghost use Rattle.std.specs.Prelude.{◌≡◌, ◌<◌, ◌++◌, IfOk, OnOk, [], ◌∷◌, length, map, filter};
ghost use Rattle.std.specs.Prelude.{nat_le, min, OnErr};
ghost use Rattle.std.specs.Arc.{arc_value};
ghost use Rattle.std.specs.Prelude.{T};
ghost use Rattle.std.specs.Ordering.{int_cmp};
ghost use Rattle.std.specs.List.{list_all};
ghost use Rattle.std.specs.FinMap.Entries.{find, is_sorted};
ghost use Rattle.labels.specs.Contents.{in_range};
ghost use Rattle.labels.specs.Parts.{has_sample, within};
ghost use Rattle.head.specs.Pointers.{values_in};
ghost use Rattle.head.specs.Chunks.{chunks_in};
ghost use Rattle.head.specs.ChunkEnds.{ends_before};
ghost use Rattle.head.specs.Taking.{grown};
ghost use Rattle.head.specs.Removing.{outside, series_less};

use crate::MAX_SAMPLES;
use crate::looking::first_value;
use crate::saved::SavedSeries;
use labels::{LabelSet, Sample};
use packed_chunks::{PackedChunk, PackedSamples};
use pages::PagedList;
use std::alloc::{AllocError, Global};
use std::marker::Model;
use std::mem;
use std::sync::Arc;

/// How many samples a sealed chunk has.
pub(crate) const CHUNK: usize = 120;

/// Samples that do not change any more, in few bytes.
#[derive(Drop)]
pub(crate) struct Chunk {
    packed: PackedChunk,
}

impl Model for Chunk {
    ghost use Rattle.std.specs.Prelude.{List, ℤ};

    ghost Value = { List (ℤ × ℤ) };

    ghost view = { λ c. c.packed };
}

impl Chunk {
    fn new(alloc: Global, samples: &[Sample]) -> Result<Chunk, AllocError>
        requires { length samples.now < 65536 }
        ensures { IfOk result (λ c. c ≡ samples.now) }
    {
        let packed = PackedChunk::encode(alloc, samples)?;
        Ok(Chunk { packed })
    }

    /// The samples, which are decoded as they are asked for.
    fn samples(&self) -> PackedSamples<'_>
        ensures { result ≡ self.now }
    {
        self.packed.samples()
    }

    /// Whether all samples lie before a time, as seen from the last.
    fn ends_before(&self, time: i64) -> bool
        ensures { result ≡ ends_before time self.now }
    {
        let samples = self.samples();
        samples.is_empty() || samples.last_time() < time
    }

    /// Whether one of the samples, whose times ascend, lies in the closed range.
    fn has_sample_in(&self, from: i64, to: i64) -> bool
        requires { T (is_sorted int_cmp self.now) }
        ensures { result ≡ has_sample from to self.now }
    {
        let samples = self.samples();
        let place = samples.place_from(from);
        place < samples.len() && samples.time_at(place) <= to
    }

    /// Adds those of the samples whose times lie in the closed range.
    fn push_within(&self, found: &mut Vec<Sample>, from: i64, to: i64) -> Result<(), AllocError>
        ensures { OnOk result (found.new.items ≡ found.old.items ++ within from to self.now) }
    {
        let samples = self.samples();
        for place in 0..samples.len() {
            let sample = samples.get(place);
            if is_within(sample, from, to) {
                found.push(sample)?;
            }
        }
        Ok(())
    }
}

/// Whether one of the samples, whose times ascend, lies in the closed range.
fn has_sample_in(samples: &[Sample], from: i64, to: i64) -> bool
    requires { T (is_sorted int_cmp samples.now) }
    ensures { result ≡ has_sample from to samples.now }
{
    let place = samples.partition_point(|sample| sample.t() < from);
    place < samples.len() && samples[place].t() <= to
}

/// The series of a head in order of creation, in pages that versions share.
pub(crate) type SeriesList = PagedList<Arc<Series>, 16>;

fn share_chunks(alloc: Global, chunks: &[Arc<Chunk>]) -> Result<Vec<Arc<Chunk>>, AllocError>
    ensures { IfOk result (λ v. values_in v.items ≡ values_in chunks.now) }
{
    let mut copy = Vec::new(alloc);
    for chunk in chunks {
        copy.push(Arc::try_clone(chunk)?)?;
    }
    Ok(copy)
}

/// Adds a chunk at the end; the list is copied where another version holds it.
fn push_to(
    alloc: Global,
    chunks: &mut Arc<Vec<Arc<Chunk>>>,
    chunk: Arc<Chunk>,
) -> Result<(), AllocError>
    ensures ok { OnOk result (chunks_in chunks.new ≡ chunks_in chunks.old ++ arc_value chunk ∷ []) }
    ensures err { OnErr result (chunks_in chunks.new ≡ chunks_in chunks.old) }
{
    if let Some(own) = Arc::get_mut(chunks) {
        own.push(chunk)?;
        return Ok(());
    }
    let mut copy = share_chunks(alloc, chunks.as_slice())?;
    copy.push(chunk)?;
    *chunks = Arc::new(alloc, copy)?;
    Ok(())
}

/// Sealed chunks. Versions share the list of them, until one more is sealed.
#[derive(Drop)]
struct Sealed {
    chunks: Option<Arc<Vec<Arc<Chunk>>>>,
}

impl Model for Sealed {
    ghost use Rattle.std.specs.Prelude.{List, ℤ, [], None, Some};
    ghost use Rattle.head.specs.Chunks.{chunks_in};

    ghost Value = { List (List (ℤ × ℤ)) };

    ghost view = { λ s. elim s.chunks [
      | None ↦ []
      | Some chunks ↦ chunks_in chunks
    ] };
}

impl Sealed {
    fn new() -> Sealed
        ensures { result ≡ [] }
    {
        Sealed { chunks: None }
    }

    fn chunks(&self) -> &[Arc<Chunk>]
        ensures { values_in result.now ≡ self.now }
    {
        match &self.chunks {
            Some(chunks) => chunks.as_slice(),
            None => &[],
        }
    }

    /// The same chunks: one pointer is copied.
    fn try_clone(&self) -> Result<Sealed, AllocError>
        ensures { IfOk result (λ sealed. sealed ≡ self.now) }
    {
        match &self.chunks {
            Some(chunks) => Ok(Sealed {
                chunks: Some(Arc::try_clone(chunks)?),
            }),
            None => Ok(Sealed::new()),
        }
    }

    /// Seals a chunk of these samples.
    fn push(&mut self, alloc: Global, samples: &[Sample]) -> Result<(), AllocError>
        requires { length samples.now < 65536 }
        ensures ok { OnOk result (self.new ≡ self.old ++ samples.now ∷ []) }
        ensures err { OnErr result (self.new ≡ self.old) }
    {
        let chunk = Arc::new(alloc, Chunk::new(alloc, samples)?)?;
        match &mut self.chunks {
            Some(chunks) => push_to(alloc, chunks, chunk),
            None => {
                let mut first = Vec::with_capacity(alloc, 1)?;
                first.push(chunk)?;
                self.chunks = Some(Arc::new(alloc, first)?);
                Ok(())
            }
        }
    }
}

/// The samples of one label set: sealed chunks of 120 samples, shared, and an open one of fewer.
#[derive(Drop)]
pub(crate) struct Series {
    labels: LabelSet,
    sealed: Sealed,
    tail: Vec<Sample>,
    newest: Sample,
}

impl Model for Series {
    ghost use Rattle.head.specs.Heads.{HeadSeries};
    ghost use Rattle.head.specs.Chunks.{joined_chunks, OnlyLastHasRoom};

    ghost Value = { HeadSeries };

    ghost view = { λ s. record {
      labels = s.labels;
      samples = joined_chunks s.sealed s.tail.items;
      newest = s.newest;
    } };

    ghost invariant = { λ s. OnlyLastHasRoom s.sealed s.tail.items };
}

fn is_within(sample: Sample, from: i64, to: i64) -> bool
    ensures { result ≡ in_range from to sample.0 }
{
    sample.t() >= from && sample.t() <= to
}

/// Whether all samples lie in the closed range.
pub(crate) fn are_within(samples: &[Sample], from: i64, to: i64) -> bool
    ensures { result ≡ list_all (λ s. in_range from to s.0) samples.now }
{
    samples.iter().all(|sample| is_within(*sample, from, to))
}

/// Adds those of the samples whose times lie in the closed range.
fn push_within(
    found: &mut Vec<Sample>,
    samples: &[Sample],
    from: i64,
    to: i64,
) -> Result<(), AllocError>
    ensures { OnOk result (found.new.items ≡ found.old.items ++ within from to samples.now) }
{
    for sample in samples {
        if is_within(*sample, from, to) {
            found.push(*sample)?;
        }
    }
    Ok(())
}

impl Series {
    pub(crate) fn new(
        alloc: Global,
        labels: &LabelSet,
        sample: Sample,
    ) -> Result<Series, AllocError>
        ensures { IfOk result (λ s. s
            ≡ record { labels = labels.now; samples = sample ∷ []; newest = sample }) }
    {
        let mut tail = Vec::with_capacity(alloc, 1)?;
        tail.push(sample)?;
        Ok(Series {
            labels: labels.try_clone()?,
            sealed: Sealed::new(),
            tail,
            newest: sample,
        })
    }

    /// The series that was saved so.
    pub(crate) fn of_saved(alloc: Global, saved: &SavedSeries) -> Result<Series, AllocError>
        ensures { IfOk result (λ s. s ≡ saved.now) }
    {
        let mut series = Series {
            labels: saved.labels().try_clone()?,
            sealed: Sealed::new(),
            tail: Vec::new(alloc),
            newest: saved.newest(),
        };
        for sample in saved.samples() {
            series.append(alloc, *sample)?;
        }
        Ok(series)
    }

    /// What is saved of the series: a copy of its samples.
    pub(crate) fn saved(&self, alloc: Global) -> Result<SavedSeries, AllocError>
        ensures { IfOk result (λ s. s ≡ self.now) }
    {
        let labels = self.labels.try_clone()?;
        let samples = self.samples(alloc)?;
        Ok(SavedSeries::new(labels, samples, self.newest))
    }

    /// An equal series, which shares all but the open chunk, and how many samples that one has. It
    /// has room for one sample more.
    pub(crate) fn copy_to_grow(&self, alloc: Global) -> Result<(Series, u64), AllocError>
        ensures same { IfOk result (λ p. p.0 ≡ self.now) }
        ensures few { IfOk result (λ p. p.1 < 120) }
    {
        let mut tail = Vec::with_capacity(alloc, self.tail.len() + 1)?;
        tail.extend_from_slice(self.tail.as_slice())?;
        let copied = tail.len() as u64;
        let copy = Series {
            labels: self.labels.try_clone()?,
            sealed: self.sealed.try_clone()?,
            tail,
            newest: self.newest,
        };
        Ok((copy, copied))
    }

    /// Adds a sample at the end, which becomes the newest one.
    pub(crate) fn push(&mut self, alloc: Global, sample: Sample) -> Result<(), AllocError>
        ensures { OnOk result (self.new ≡ grown sample self.old) }
    {
        self.append(alloc, sample)?;
        self.newest = sample;
        Ok(())
    }

    /// Adds a sample at the end of the chunks, and seals the open one where that is its last.
    fn append(&mut self, alloc: Global, sample: Sample) -> Result<(), AllocError>
        ensures { OnOk result (self.new
            ≡ record self.old { samples = self.old.samples ++ sample ∷ [] }) }
    {
        self.tail.push(sample)?;
        if self.tail.len() == CHUNK {
            let full = mem::replace(&mut self.tail, Vec::new(alloc));
            self.sealed.push(alloc, full.as_slice())?;
        }
        Ok(())
    }

    /// Adds those of the samples whose times lie outside the closed range.
    fn append_outside(
        &mut self,
        alloc: Global,
        samples: &[Sample],
        from: i64,
        to: i64,
    ) -> Result<(), AllocError>
        ensures { OnOk result (self.new
            ≡ record self.old { samples = self.old.samples ++ outside from to samples.now }) }
    {
        for sample in samples {
            if !is_within(*sample, from, to) {
                self.append(alloc, *sample)?;
            }
        }
        Ok(())
    }

    /// The series less its samples in the closed range; its newest sample is known as before. It
    /// copies what is left.
    pub(crate) fn without(&self, alloc: Global, from: i64, to: i64) -> Result<Series, AllocError>
        ensures { IfOk result (λ s. s ≡ series_less from to self.now) }
    {
        let mut left = Series {
            labels: self.labels.try_clone()?,
            sealed: Sealed::new(),
            tail: Vec::new(alloc),
            newest: self.newest,
        };
        let samples = self.samples(alloc)?;
        left.append_outside(alloc, samples.as_slice(), from, to)?;
        Ok(left)
    }

    pub(crate) fn labels(&self) -> &LabelSet
        ensures { result.now ≡ self.now.labels }
    {
        &self.labels
    }

    /// Whether there is no room for one more sample.
    pub(crate) fn is_full(&self) -> bool
        ensures { result ≡ nat_le MAX_SAMPLES (length self.now.samples) }
    {
        let sealed = self.sealed.chunks().len();
        let last = MAX_SAMPLES / CHUNK;
        sealed > last || sealed == last && self.tail.len() >= MAX_SAMPLES % CHUNK
    }

    /// How many samples there are, at most [`MAX_SAMPLES`]. None is decoded.
    pub(crate) fn sample_count(&self) -> usize
        ensures { result ≡ min MAX_SAMPLES (length self.now.samples) }
    {
        if self.is_full() {
            return MAX_SAMPLES;
        }
        self.sealed.chunks().len() * CHUNK + self.tail.len()
    }

    pub(crate) fn newest(&self) -> Sample
        ensures { result ≡ self.now.newest }
    {
        self.newest
    }

    /// Whether a sample lies in the closed range. It halves over the sealed chunks, and then over
    /// one chunk.
    pub(crate) fn has_sample_in(&self, from: i64, to: i64) -> bool
        requires { T (is_sorted int_cmp self.now.samples) }
        ensures { result ≡ has_sample from to self.now.samples }
    {
        let chunks = self.sealed.chunks();
        let place = chunks.partition_point(|chunk| chunk.ends_before(from));
        if place < chunks.len() {
            return chunks[place].has_sample_in(from, to);
        }
        has_sample_in(self.tail.as_slice(), from, to)
    }

    /// A copy of all samples.
    pub(crate) fn samples(&self, alloc: Global) -> Result<Vec<Sample>, AllocError>
        ensures { IfOk result (λ found. found.items ≡ self.now.samples) }
    {
        let mut found = Vec::new(alloc);
        for chunk in self.sealed.chunks() {
            chunk.samples().push_all(&mut found)?;
        }
        found.extend_from_slice(self.tail.as_slice())?;
        Ok(found)
    }

    /// The samples whose times lie in the closed range.
    pub(crate) fn samples_within(
        &self,
        alloc: Global,
        from: i64,
        to: i64,
    ) -> Result<Vec<Sample>, AllocError>
        ensures { IfOk result (λ found. found.items ≡ within from to self.now.samples) }
    {
        let mut found = Vec::new(alloc);
        for chunk in self.sealed.chunks() {
            chunk.push_within(&mut found, from, to)?;
        }
        push_within(&mut found, self.tail.as_slice(), from, to)?;
        Ok(found)
    }

    /// The value at a time.
    pub(crate) fn value_at(&self, alloc: Global, t: i64) -> Result<Option<i64>, AllocError>
        ensures { IfOk result (λ value. value ≡ find int_cmp t self.now.samples) }
    {
        let samples = self.samples_within(alloc, t, t)?;
        Ok(first_value(samples.as_slice()))
    }
}
