//! Whether a part may be skipped.

ghost use Rattle.std.specs.Prelude.{◌≡◌, [], Err, OnOk, IfErr};
ghost use Rattle.auditor.specs.Auditing.{selected_content, IsHiding};

use crate::flaw::Flaw;
use crate::looks::Looks;
use block_walk::Table;
use matchers::Query;
use std::alloc::Global;

/// Whether a part that was skipped has nothing to show: `Ok` exactly where the query selects no
/// rows of it, else `F9`. It looks at each series until one answers, and takes memory for the
/// searches of patterns alone.
pub fn audit_skip(alloc: Global, table: &Table, query: &Query) -> Result<(), Flaw>
    ensures empty { OnOk result (selected_content table.now query.now ≡ []) }
    ensures hidden { IfErr result (λ e. IsHiding table.now query.now e) }
{
    let mut looks = Looks::new(alloc, query)?;
    let series = table.series();
    for entry in series {
        if looks.answers(entry) {
            return Err(Flaw::Hidden);
        }
    }
    Ok(())
}
