//! The laws.

ghost use Rattle.std.specs.Prelude.{◌≡◌, ◌≤◌, ◌<◌, ◌^◌, ◌++◌, ◌∷◌, [], ℕ, ℤ, List, true, Some};
ghost use Rattle.std.specs.Prelude.{unsigned_abs};
ghost use Rattle.labels.specs.Labels.{Labels};
ghost use Rattle.labels.specs.LabelSets.{IsLabelSet};
ghost use Rattle.metrics_writer.specs.Numbers.{number_text};
ghost use Rattle.metrics_writer.specs.Series.{is_metric, line_text, metric_of, series_text};
ghost use Rattle.open_metrics.specs.Grammar.{IsSample};
ghost use Rattle.open_metrics.specs.Numbers.{number_at};
ghost use Rattle.open_metrics.specs.declared.comments.Format.TheVariants.{OpenMetrics};
ghost use Rattle.open_metrics.specs.declared.numbers.Value.TheVariants.{Parts};
ghost use Rattle.metrics_laws.specs.Read.{AreAllSaid, AreGroupedTexts, AreReadAgain};
ghost use Rattle.metrics_laws.specs.Read.{AreWrittenAgain, sample_of};

/// A number that is written is read again, exactly.
pub fn numbers_are_read_again()
    ensures { (places : ℕ) (v : ℤ) → places ≤ 9 → unsigned_abs v < 2 ^ 63
        → number_at (number_text places v) places ≡ Some (Parts v) }
{}

/// The line that is written for a sample spells this sample: its metric, its other labels, its
/// value and its time.
pub fn lines_are_read_again()
    ensures { (places : ℕ) (labels : Labels) (s : ℤ × ℤ) → places ≤ 9 → IsLabelSet labels
        → is_metric (metric_of labels) ≡ true
        → unsigned_abs s.0 < 2 ^ 63 → unsigned_abs s.1 < 2 ^ 63
        → (line : List ℕ)
        × (line_text places (series_text labels) s ≡ line ++ 10 ∷ [])
        × IsSample OpenMetrics places line (sample_of places labels s) }
{}

/// The text that is written for rows says exactly their samples. So what reads it gives them.
pub fn texts_are_read_again()
    ensures { AreReadAgain }
{}

/// In the text that is written for rows each line before the end spells a sample, and between two
/// lines of one metric stand only lines of this metric, as OpenMetrics has it.
pub fn texts_are_grouped()
    ensures { AreGroupedTexts }
{}

/// The samples that are read of the rows of a content are the content.
pub fn contents_are_read_again()
    ensures { AreAllSaid }
{}

/// The samples that a text of either format says can be written, and the text that is written for
/// their rows says the same.
pub fn samples_are_written_again()
    ensures { AreWrittenAgain }
{}
