//! The text of a block's `meta.json`.

ghost use Rattle.std.specs.Prelude.{◌≡◌, string_bytes, IfOk, IfSome, Some};
ghost use Rattle.std.specs.Bool.{OnTrue};
ghost use Rattle.block.specs.Metas.{range_said};
ghost use Rattle.block_folder.specs.Meanings.{values_said};

use crate::values::Values;
use block::Range;
use std::alloc::{AllocError, Global};

#[tactic(auto, using(crate::proofs::Said::same_range))]
fn is_same(a: Range, b: Range) -> bool
    ensures { OnTrue result (a ≡ b) }
{
    a.min() == b.min() && a.max() == b.max()
}

// Whether the text of a `meta.json` says a range.
fn is_read_as(alloc: Global, text: &[u8], range: Range) -> bool
    ensures { OnTrue result (range_said text.now ≡ Some range) }
{
    let Ok(read) = Range::read_meta(alloc, text) else {
        return false;
    };
    is_same(read, range)
}

// Whether the text of a `meta.json` says a meaning of the values.
fn says(alloc: Global, text: &[u8], values: Values) -> bool
    ensures { OnTrue result (values_said text.now ≡ Some values) }
{
    let Ok(read) = Values::read_meta(alloc, text) else {
        return false;
    };
    read.is_same(values)
}

/// The member behind all others of a `meta.json`, which says what the values mean; nothing for
/// whole numbers.
fn member_of(values: Values) -> &'static str {
    match values {
        Values::Whole => "",
        Values::Doubles => ",\"values\":\"doubles\"",
    }
}

/// The text of a `meta.json` that says a range, how many series and samples there are, how many
/// digits after the point its values have, and what they mean. `None` where it would not be read as
/// this range and this meaning.
pub fn meta_text(
    alloc: Global,
    range: Range,
    series: usize,
    samples: u64,
    digits: u32,
    values: Values,
) -> Result<Option<String>, AllocError>
    ensures range { IfOk result (λ meta. IfSome meta (λ text.
        range_said (string_bytes text) ≡ Some range)) }
    ensures values { IfOk result (λ meta. IfSome meta (λ text.
        values_said (string_bytes text) ≡ Some values)) }
{
    let (min, max) = (range.min(), range.max());
    let last = member_of(values);
    let text = format!(in alloc;
        "{{\"minTime\":{min},\"maxTime\":{max},\"version\":1,\
         \"stats\":{{\"numSeries\":{series},\"numSamples\":{samples}}},\
         \"decimals\":{digits}{last}}}\n"
    )?;
    if !is_read_as(alloc, text.as_bytes(), range) || !says(alloc, text.as_bytes(), values) {
        return Ok(None);
    }
    Ok(Some(text))
}
