//! Layers of a column.

ghost use Rattle.std.specs.Prelude.{◌≡◌, ◌<◌, ◌≤◌, ◌+◌, ◌^◌, ℕ};
ghost use Rattle.page_layout.specs.Layers.{top};

/// How high the layers of a column are up to one, this included: one unit for each, and of what is
/// left of the height (`room`) the share that the things below and in it have of all (`total`).
#[tactic(auto, using(crate::proofs::Edges::edges))]
pub fn top(layers: u64, things: u64, total: u64, room: u64) -> u64
    requires some { 0 < total }
    requires within { things ≤ total }
    requires few { layers + room < 2 ^ 63 }
    ensures value { result ≡ top layers things total room }
    ensures within { result ≤ layers + room }
{
    layers + (things as u128 * room as u128 / total as u128) as u64
}

/// The laws of layers: a layer more is at least one unit more, so that one thing among thousands is
/// still a line; and all layers are as high as there is room, besides a unit for each.
pub fn layers_law()
    ensures seen { (layers below things total room : ℕ) → 0 < total → below ≤ things
        → top layers below total room + 1 ≤ top (layers + 1) things total room }
    ensures full { (layers total room : ℕ) → 0 < total
        → top layers total total room ≡ layers + room }
{}
