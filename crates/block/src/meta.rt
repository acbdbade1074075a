//! The text of a `meta.json`.

ghost use Rattle.std.specs.Prelude.{◌≡◌};
ghost use Rattle.serde_json.specs.View.{view};
ghost use Rattle.block.specs.Metas.{integer_at, json_of, or_meta, range_in, range_said};
ghost use Rattle.block.specs.Outcome.{Gives};

use crate::error::BlockError;
use crate::range::Range;
use serde_json::Value;
use std::alloc::Global;

const LIMIT: usize = 1_048_576;

impl Range {
    /// The range that the text of a `meta.json` says, in milliseconds: a JSON object with the
    /// members `minTime`, `maxTime` and `version`, integers of 64 bits written as such, the version
    /// 1, both others times and the first below the second. Other members are ignored; of one that
    /// is given twice the last counts. `B2` for anything else, and for more than 1,048,576 bytes.
    pub fn read_meta(alloc: Global, text: &[u8]) -> Result<Range, BlockError>
        ensures { Gives (λ range. range) result (or_meta (range_said text.now)) }
    {
        if text.len() > LIMIT {
            return Err(BlockError::Meta);
        }
        let meta = value_of(alloc, text)?;
        range_in(&meta).ok_or(BlockError::Meta)
    }
}

fn value_of(alloc: Global, text: &[u8]) -> Result<Value, BlockError>
    ensures { Gives (λ value. view value) result (or_meta (json_of text.now)) }
{
    match Value::from_slice(alloc, text) {
        Ok(value) => Ok(value),
        Err(error) => if error.is_memory() {
            Err(BlockError::Memory)
        } else {
            Err(BlockError::Meta)
        },
    }
}

fn range_in(meta: &Value) -> Option<Range>
    ensures { result ≡ range_in (view meta.now) }
{
    if integer_of(meta, "version")? != 1 {
        return None;
    }
    let min = integer_of(meta, "minTime")?;
    let max = integer_of(meta, "maxTime")?;
    Range::new(min, max)
}

fn integer_of(meta: &Value, name: &str) -> Option<i64>
    ensures { result ≡ integer_at name.now (view meta.now) }
{
    meta.get(name)?.as_i64()
}
