//! What an auditor says of the answers of a snapshot.

ghost use Rattle.std.specs.Prelude.{◌≡◌, [], true, List};
ghost use Rattle.labels.specs.Rows.{Row, AreRows};
ghost use Rattle.matchers.specs.Views.{QueryView};
ghost use Rattle.head.specs.Heads.{SnapshotParts};
ghost use Rattle.block.specs.Blocks.{Shown, AreInside};
ghost use Rattle.series_merge.specs.Merging.{merged_content};
ghost use Rattle.block_search.specs.Skipping.{AskedPart, is_skipped};
ghost use Rattle.block_search.specs.Answers.{IsAnswerOf, AreAnswers};
ghost use Rattle.auditor.specs.Auditing.{IsSoundAnswer, selected_content};
ghost use Rattle.auditor.specs.Listing.{last_listed};

use cover::PartAnswer;

/// The laws of right answers: what a search answers of a part is sound; of a block that it skips
/// nothing is selected; and rows that are those of what the answers list together are those of what
/// they list last.
pub fn answers_are_sound()
    ensures sound { (query : QueryView) (asked : AskedPart) (answer : PartAnswer)
        → IsAnswerOf query asked answer → IsSoundAnswer asked.part query answer }
    ensures silent { (query : QueryView) (block : Shown) → AreInside block.range block.part
        → is_skipped query block.range ≡ true → selected_content block.part query ≡ [] }
    ensures merged { (query : QueryView) (s : SnapshotParts) (answers : List PartAnswer)
        (rows : List Row) → AreAnswers query s answers → AreRows rows (merged_content answers)
        → AreRows rows (last_listed answers) }
{}
