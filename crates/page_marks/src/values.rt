//! The values that rows show.

ghost use Rattle.std.specs.Prelude.{◌≡◌, ◌++◌, List, IfOk, OnOk};
ghost use Rattle.page_text.specs.declared.value.Value.{Value as ValueShown};
ghost use Rattle.page_marks.specs.Values.{figure_values, AreRowValues, AreValuesOf};

use crate::figures::figures_of;
use labels::{Row, Sample};
use page_claims::Figures;
use page_text::{Value, Values};
use std::alloc::{AllocError, Global};

fn append_figures(
    shown: &mut Vec<Value>,
    values: Values,
    figures: Figures,
) -> Result<(), AllocError>
    ensures { OnOk result (shown.new.items ≡ shown.old.items ++ figure_values values figures) }
{
    let Figures {
        first,
        last,
        least,
        greatest,
    } = figures;
    let all = [
        values.of(first),
        values.of(last),
        values.of(least),
        values.of(greatest),
    ];
    shown.extend_from_slice(&all)
}

fn append_row(shown: &mut Vec<Value>, values: Values, samples: &[Sample]) -> Result<(), AllocError>
    ensures { OnOk result ((more : List ValueShown) × (shown.new.items ≡ shown.old.items ++ more)
        × AreRowValues values samples.now more) }
{
    match figures_of(values, samples) {
        Some(figures) => {
            append_figures(shown, values, figures)?;
            Ok(())
        }
        None => Ok(()),
    }
}

/// The values that rows show, by what they mean: of each row that has samples its first, last,
/// least and greatest.
pub fn row_values(alloc: Global, values: Values, rows: &[Row]) -> Result<Vec<Value>, AllocError>
    ensures { IfOk result (λ shown. AreValuesOf values rows.now shown.items) }
{
    let mut shown = Vec::new(alloc);
    for row in rows {
        append_row(&mut shown, values, row.samples())?;
    }
    Ok(shown)
}
