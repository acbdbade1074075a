//! What parts of a write left out, added up.

ghost use Rattle.std.specs.Prelude.{◌≡◌, ◌+◌, ◌<◌, ◌^◌};
ghost use Rattle.head.specs.Telling.{total};
ghost use Rattle.remote_http.specs.Told.{then_left, first_of};

use head::{Left, Reason};

fn first_of(first: Option<Reason>, later: Option<Reason>) -> Option<Reason>
    ensures { result ≡ first_of first later }
{
    match first {
        Some(why) => Some(why),
        None => later,
    }
}

/// What one part and a later one left out.
pub(crate) fn then_left(first: Left, later: Left) -> Left
    requires { total first + total later < 2 ^ 64 }
    ensures { result ≡ then_left first later }
{
    Left {
        out_of_bounds: first.out_of_bounds + later.out_of_bounds,
        out_of_order: first.out_of_order + later.out_of_order,
        duplicate: first.duplicate + later.duplicate,
        limit: first.limit + later.limit,
        first: first_of(first.first, later.first),
    }
}
