//! What outputs hold together.

ghost use Rattle.std.specs.Prelude.{ℤ, List};
ghost use Rattle.labels.specs.Contents.{Content};
ghost use Rattle.labels.specs.Rows.{Row as RowValue};
ghost use Rattle.block_outputs.specs.Contents.{AreOutputsOf, HoldAll};
ghost use Rattle.block_outputs.specs.Tiles.{AreTiles};
ghost use Rattle.block_outputs.specs.declared.tiles.Stretch.{Stretch};

/// A law: the outputs of the tiles of a range of times hold exactly what the contents that they
/// come from have in the range, in which the later content wins. So no sample is in two outputs,
/// and none is missing.
pub fn outputs_hold_contents()
    ensures { (cs : List Content) (from to : ℤ) (tiles : List Stretch)
        (outputs : List (List RowValue)) → AreTiles from to tiles → AreOutputsOf cs tiles outputs
        → HoldAll cs from to outputs }
{}
