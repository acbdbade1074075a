//! When a journal is begun anew.

ghost use Rattle.std.specs.Prelude.{◌≡◌};
ghost use Rattle.store_folder.specs.Terms.{are_met};

/// After a cut a journal is begun anew by this share of its bytes.
const SHARE: u64 = 8;

/// When a journal is begun anew.
#[derive(Clone, Copy, Debug, PartialEq, Eq, Drop)]
pub struct RollTerms {
    /// After how many bytes of events; after a cut an eighth of them is enough.
    pub most: u64,
    /// How many bytes the journal had when that was tried last, or 0 if that is not known.
    pub len: usize,
    /// How many blocks the store had then.
    pub blocks: usize,
}

impl RollTerms {
    /// Those of a store of so many blocks that was just started, whose journal had so many bytes
    /// when it was begun, as far as that is known.
    pub fn new(most: u64, len: usize, blocks: usize) -> RollTerms
        ensures { result ≡ record { most = most; len = len; blocks = blocks } }
    {
        RollTerms { most, len, blocks }
    }

    /// Whether a journal of so many bytes is to be begun anew, of a store of so many blocks.
    pub fn are_met(&self, len: usize, blocks: usize) -> bool
        ensures { result ≡ are_met self.now len blocks }
    {
        let grown = len.saturating_sub(self.len) as u64;
        grown > self.most || (blocks != self.blocks && grown > self.most / SHARE)
    }

    /// Notes that it is tried now.
    pub fn note(&mut self, len: usize, blocks: usize)
        ensures { self.new ≡ record { most = self.old.most; len = len; blocks = blocks } }
    {
        self.len = len;
        self.blocks = blocks;
    }
}
