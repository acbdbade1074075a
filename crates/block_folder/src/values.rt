//! What the values of a block mean.

ghost use Rattle.std.specs.Prelude.{◌≡◌, ◌↔◌, IsTrue};
ghost use Rattle.serde_json.specs.View.{view};
ghost use Rattle.block.specs.Metas.{json_of, or_meta};
ghost use Rattle.block.specs.Outcome.{Gives};
ghost use Rattle.block_folder.specs.Meanings.{values_in, values_named, values_said};

use block::BlockError;
use serde_json::Value;
use std::alloc::Global;

const LIMIT: usize = 1_048_576;

/// What the values of a block mean, or those of a store: they are whole numbers of 64 bits.
#[derive(Clone, Copy, Debug, PartialEq, Eq, Drop)]
pub enum Values {
    /// Each stands for itself.
    Whole,
    /// Each stands for a double, as the crate `stored_doubles` has it.
    Doubles,
}

impl Values {
    /// What the text of a `meta.json` says of the values: its member `values` is `"doubles"`, or it
    /// has none. Other members are ignored; of one that is given twice the last counts. `B2` for
    /// any other text or number there, for what is no JSON, and for more than 1,048,576 bytes.
    pub fn read_meta(alloc: Global, text: &[u8]) -> Result<Values, BlockError>
        ensures { Gives (λ values. values) result (or_meta (values_said text.now)) }
    {
        if text.len() > LIMIT {
            return Err(BlockError::Meta);
        }
        let meta = value_of(alloc, text)?;
        values_in(&meta).ok_or(BlockError::Meta)
    }

    /// Whether both are the same.
    pub fn is_same(self, other: Values) -> bool
        ensures { IsTrue result ↔ (self ≡ other) }
    {
        match self {
            Values::Whole => matches!(other, Values::Whole),
            Values::Doubles => matches!(other, Values::Doubles),
        }
    }
}

fn value_of(alloc: Global, text: &[u8]) -> Result<Value, BlockError>
    ensures { Gives (λ value. view value) result (or_meta (json_of text.now)) }
{
    match Value::from_slice(alloc, text) {
        Ok(value) => Ok(value),
        Err(error) => if error.is_memory() {
            Err(BlockError::Memory)
        } else {
            Err(BlockError::Meta)
        },
    }
}

fn values_in(meta: &Value) -> Option<Values>
    ensures { result ≡ values_in (view meta.now) }
{
    match meta.get("values") {
        Some(value) => values_named(value.as_str()?),
        None => Some(Values::Whole),
    }
}

fn values_named(name: &str) -> Option<Values>
    ensures { result ≡ values_named name.now }
{
    if name == "doubles" {
        Some(Values::Doubles)
    } else {
        None
    }
}
