//! The brackets of lists and objects.

ghost use Rattle.std.specs.Prelude.{◌≡◌, ◌≤◌, [], ◌∷◌, ◌++◌, take, drop, vec_len, OnOk};
ghost use Rattle.answers.specs.AfterCommas.{with_bracket};

use std::alloc::AllocError;

/// Puts the opening bracket in place of the comma at `start`, or at the end if there is nothing at
/// `start`.
pub(crate) fn open_list(out: &mut Vec<u8>, start: usize, first: u8) -> Result<(), AllocError>
    requires { start ≤ vec_len out.old }
    ensures { OnOk result (out.new.items
        ≡ take start out.old.items ++ with_bracket first (drop start out.old.items)) }
{
    if start == out.len() {
        out.push(first)?;
        return Ok(());
    }
    out[start] = first;
    Ok(())
}

/// Puts the items from `start` on, each of which has a comma before it, between brackets.
pub(crate) fn close_list(
    out: &mut Vec<u8>,
    start: usize,
    first: u8,
    last: u8,
) -> Result<(), AllocError>
    requires { start ≤ vec_len out.old }
    ensures { OnOk result (out.new.items ≡ take start out.old.items
        ++ (with_bracket first (drop start out.old.items) ++ last ∷ [])) }
{
    open_list(out, start, first)?;
    out.push(last)?;
    Ok(())
}
