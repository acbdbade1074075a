//! The pairs of a label set, one after another.

ghost use Rattle.std.specs.Prelude.{◌≡◌};
ghost use Rattle.std.specs.Iterator.{YieldsFirstBy, item_count};
ghost use Rattle.labels.specs.Pairs.{text_pair};
ghost use Rattle.labels.specs.PairsLeft.{pairs_left};

use crate::text::Pairs;

/// The pairs of a label set that are left, each a name and a value, in the order of the names.
#[derive(Clone, Copy, Debug)]
pub struct LabelPairs<'a> {
    pairs: &'a Pairs,
    at: usize,
}

impl<'a> LabelPairs<'a> {
    /// All of these pairs.
    pub(crate) fn new(pairs: &'a Pairs) -> LabelPairs<'a>
        ensures { pairs_left result ≡ pairs.entry.now }
    {
        LabelPairs { pairs, at: 0 }
    }
}

impl<'a> Iterator for LabelPairs<'a> {
    type Item = (&'a str, &'a str);

    ghost next_gives = { YieldsFirstBy text_pair pairs_left };

    ghost remaining = { item_count pairs_left };

    fn next(&mut self) -> Option<(&'a str, &'a str)> {
        if self.at >= self.pairs.len() {
            return None;
        }
        let pair = self.pairs.pair(self.at);
        self.at += 1;
        Some(pair)
    }
}
