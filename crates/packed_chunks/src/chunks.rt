//! Many chunks.

ghost use Rattle.std.specs.Prelude.{◌≡◌, ◌<◌, ◌++◌, ◌∷◌, [], length, slice_get, map, IfOk};
ghost use Rattle.std.specs.Prelude.{OnOk, OnErr, Some};
ghost use Rattle.packed_chunks.specs.Chunks.{moved, AreMovable};

use crate::chunk::write_rows;
use crate::form::Form;
use crate::samples::PackedSamples;
use labels::Sample;
use std::alloc::{AllocError, Global};
use std::marker::Model;

/// Where the rows of one chunk begin among those of all, in bytes, and how they are read.
#[derive(Clone, Copy, Drop)]
pub struct Placed {
    pub form: Form,
    pub start: usize,
}

/// Chunks whose rows stand one after the other. Beside its rows a chunk takes 48 bytes, and 8 after
/// them.
#[derive(Drop)]
pub struct PackedChunks {
    places: Vec<Placed>,
    rows: Vec<u8>,
}

impl Model for PackedChunks {
    ghost use Rattle.std.specs.Prelude.{ℤ, List};
    ghost use Rattle.packed_chunks.specs.Chunks.{chunks_in, ArePlaced};

    ghost Value = { List (List (ℤ × ℤ)) };

    ghost view = { λ c. chunks_in c.rows.items c.places.items };

    ghost invariant = { λ c. ArePlaced c.rows.items c.places.items };
}

impl PackedChunks {
    /// No chunks. It allocates nothing.
    pub fn new(alloc: Global) -> PackedChunks
        ensures { result ≡ [] }
    {
        PackedChunks {
            places: Vec::new(alloc),
            rows: Vec::new(alloc),
        }
    }

    /// Adds a chunk of these samples. `scratch` is written over. An `Err` changes nothing.
    pub fn push(&mut self, scratch: &mut Vec<u8>, samples: &[Sample]) -> Result<(), AllocError>
        requires { length samples.now < 65536 }
        ensures ok { OnOk result (self.new ≡ self.old ++ samples.now ∷ []) }
        ensures err { OnErr result (self.new ≡ self.old) }
    {
        let form = write_rows(scratch, samples)?;
        scratch.extend_from_slice(&[0; 8])?;
        self.places.reserve(1)?;
        let start = self.rows.len();
        self.rows.extend_from_slice(scratch.as_slice())?;
        self.places.push(Placed { form, start })?;
        Ok(())
    }

    /// Adds the chunks of another list, as where threads made a list each. An `Err` changes
    /// nothing.
    pub fn append(&mut self, alloc: Global, others: &PackedChunks) -> Result<(), AllocError>
        ensures ok { OnOk result (self.new ≡ self.old ++ others.now) }
        ensures err { OnErr result (self.new ≡ self.old) }
    {
        let by = self.rows.len();
        let moved = moved_places(alloc, others.places.as_slice(), by)?;
        self.places.reserve(moved.len())?;
        self.rows.extend_from_slice(others.rows.as_slice())?;
        self.places.extend_from_slice(moved.as_slice())?;
        Ok(())
    }

    /// How many chunks there are.
    pub fn len(&self) -> usize
        ensures { result ≡ length self.now }
    {
        self.places.len()
    }

    /// The samples of the chunk at a place, from 0, in constant time.
    pub fn get(&self, n: usize) -> PackedSamples<'_>
        requires { n < length self.now }
        ensures { slice_get self.now n ≡ Some result }
    {
        let placed = self.places[n];
        let (_, rows) = self.rows.as_slice().split_at(placed.start);
        PackedSamples::new(placed.form, rows)
    }
}

/// The places of chunks whose rows stand so many bytes further on.
fn moved_places(alloc: Global, places: &[Placed], by: usize) -> Result<Vec<Placed>, AllocError>
    requires { AreMovable by places.now }
    ensures { IfOk result (λ v. v.items ≡ map (moved by) places.now) }
{
    let mut further = Vec::with_capacity(alloc, places.len())?;
    for i in 0..places.len() {
        let placed = places[i];
        further.push(Placed {
            form: placed.form,
            start: placed.start + by,
        })?;
    }
    Ok(further)
}
