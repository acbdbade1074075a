//! Which kinds of events are among some.

ghost use Rattle.std.specs.Prelude.{◌≡◌};
ghost use Rattle.store_folder.specs.Kinds.{has_cut, is_cut};

use head::{Event, EventView};

fn is_cut(event: &Event) -> bool
    ensures { result ≡ is_cut event.now }
{
    match event.view() {
        EventView::Cut(_) => true,
        EventView::Batch(_) | EventView::Deletion(_, _, _) => false,
    }
}

/// Whether one of these events is a cut.
pub fn has_cut(events: &[Event]) -> bool
    ensures { result ≡ has_cut events.now }
{
    for event in events {
        if is_cut(event) {
            return true;
        }
    }
    false
}
