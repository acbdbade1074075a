//! What actors have added and not yet committed.

ghost use Rattle.std.specs.Prelude.{◌≡◌, [], IsTrue, OnOk};
ghost use Rattle.head.specs.Batches.{is_batch};
ghost use Rattle.history.specs.Held.{buffers_of};
ghost use Rattle.history.specs.Machine.{with_buffer};

use labels::{LabelSet, Sample};
use std::alloc::{AllocError, Global};
use std::collections::BTreeMap;
use std::marker::Model;

#[derive(Drop)]
pub(crate) struct Buffer {
    samples: Vec<(LabelSet, Sample)>,
}

impl Model for Buffer {
    ghost use Rattle.head.specs.Worlds.{Batch};

    ghost Value = { Batch };

    ghost use Rattle.std.specs.Prelude.{IsTrue};
    ghost use Rattle.head.specs.Batches.{is_batch};

    ghost view = { λ b. b.samples.items };

    ghost invariant = { λ b. IsTrue (is_batch b.samples.items) };
}

/// The buffers of actors, each of at most 4,096 samples, all at times. An actor that is not there
/// has an empty one.
#[derive(Drop)]
pub(crate) struct Held {
    buffers: BTreeMap<usize, Buffer>,
}

impl Held {
    pub(crate) fn new(alloc: Global) -> Held
        ensures { buffers_of result ≡ (λ _. []) }
    {
        Held {
            buffers: BTreeMap::new(alloc),
        }
    }

    /// Takes the buffer of an actor, and leaves an empty one.
    pub(crate) fn take(&mut self, alloc: Global, actor: usize) -> Vec<(LabelSet, Sample)>
        ensures taken { result.items ≡ buffers_of self.old actor }
        ensures is_batch { IsTrue (is_batch result.items) }
        ensures left { buffers_of self.new ≡ with_buffer actor [] (buffers_of self.old) }
    {
        match self.buffers.remove(&actor) {
            Some(buffer) => buffer.samples,
            None => Vec::new(alloc),
        }
    }

    /// Makes these samples the buffer of an actor.
    pub(crate) fn put(
        &mut self,
        actor: usize,
        samples: Vec<(LabelSet, Sample)>,
    ) -> Result<(), AllocError>
        requires { IsTrue (is_batch samples.items) }
        ensures { OnOk result (buffers_of self.new
            ≡ with_buffer actor samples.items (buffers_of self.old)) }
    {
        self.buffers.insert(actor, Buffer { samples })?;
        Ok(())
    }
}
