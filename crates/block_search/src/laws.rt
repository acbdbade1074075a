//! What two searches have in common.

ghost use Rattle.std.specs.Prelude.{List};
ghost use Rattle.std.specs.List.{AllZip};
ghost use Rattle.matchers.specs.Views.{QueryView};
ghost use Rattle.head.specs.Heads.{SnapshotParts};
ghost use Rattle.block_search.specs.Answers.{AreAnswers, Agree};

use cover::PartAnswer;

/// A law: what a snapshot's parts answer to a query is told by the contract of a search in all but
/// the moves: any two lists of answers agree in names, rows, certificates and separators.
pub fn searches_agree()
    ensures { (query : QueryView) (s : SnapshotParts) (xs ys : List PartAnswer)
        → AreAnswers query s xs → AreAnswers query s ys → AllZip Agree xs ys }
{}
