//! A chunk, and the writing of its bytes.

ghost use Rattle.std.specs.Prelude.{◌≡◌, ◌+◌, ◌*◌, ◌<◌, ◌≤◌, length, IfOk};
ghost use Rattle.packed_chunks.specs.Packed.{Means, IsForm};

use crate::choice::choose;
use crate::form::Form;
use crate::rows::{push_plain_rows, push_rows};
use crate::samples::PackedSamples;
use labels::Sample;
use std::alloc::{AllocError, Global};
use std::marker::Model;

/// The samples of one chunk, in an allocation of their own. It is 64 bytes beside them.
#[derive(Drop)]
pub struct PackedChunk {
    form: Form,
    rows: Vec<u8>,
}

impl Model for PackedChunk {
    ghost use Rattle.std.specs.Prelude.{◌≡◌, ◌+◌, ◌*◌, ℤ, List, length};
    ghost use Rattle.packed_chunks.specs.Packed.{samples_in, IsForm};

    ghost Value = { List (ℤ × ℤ) };

    ghost view = { λ c. samples_in c.form c.rows.items };

    ghost invariant = { λ c. IsForm c.form
        × (length c.rows.items ≡ c.form.count * c.form.width + 8) };
}

/// Writes the rows of the samples in place of what `rows` has, and gives their form: as narrow as
/// the lines that are chosen allow, else of 16 bytes each. After an `Err` the rows mean nothing.
pub fn write_rows(rows: &mut Vec<u8>, samples: &[Sample]) -> Result<Form, AllocError>
    requires { length samples.now < 65536 }
    ensures form { IfOk result (λ form. IsForm form) }
    ensures count { IfOk result (λ form. form.count ≡ length samples.now) }
    ensures length { IfOk result (λ form. length rows.new.items ≡ length samples.now * form.width) }
    // The rows mean the samples, whatever comes after them.
    ensures means { IfOk result (λ form. Means form rows.new.items samples.now) }
{
    rows.clear();
    let form = choose(samples);
    if form.is_sound() {
        let whole = push_rows(rows, &form, samples)?;
        if whole {
            return Ok(form);
        }
    }
    rows.clear();
    let form = Form::plain(samples.len() as u16);
    push_plain_rows(rows, &form, samples)?;
    Ok(form)
}

impl PackedChunk {
    /// A chunk of these samples. It takes the bytes of the rows and no more.
    pub fn encode(alloc: Global, samples: &[Sample]) -> Result<PackedChunk, AllocError>
        requires { length samples.now < 65536 }
        ensures { IfOk result (λ held. held ≡ samples.now) }
    {
        let mut written = Vec::new(alloc);
        let form = write_rows(&mut written, samples)?;
        let mut rows = Vec::with_capacity(alloc, written.len() + 8)?;
        rows.extend_from_slice(written.as_slice())?;
        rows.extend_from_slice(&[0; 8])?;
        Ok(PackedChunk { form, rows })
    }

    /// The samples, which are decoded as they are asked for.
    #[tactic(auto, using(crate::proofs::RowLaws::rows_stand))]
    pub fn samples(&self) -> PackedSamples<'_>
        ensures { result ≡ self.now }
    {
        PackedSamples::new(self.form, self.rows.as_slice())
    }

    /// How many bytes the rows take, with the eight after them: at most 16 a sample, and 8.
    #[tactic(auto, using(crate::proofs::RowLaws::rows_short))]
    pub fn len_in_bytes(&self) -> usize
        ensures { result ≤ 16 * length self.now + 8 }
    {
        self.rows.len()
    }
}
