//! A medium in memory, some of whose calls fail.

ghost use Rattle.std.specs.Prelude.{◌≡◌, ◌≤◌, ◌++◌, ◌∷◌, [], ℕ, true, not, length, take, OnOk};
ghost use Rattle.std.specs.Prelude.{OnErr};
ghost use Rattle.journal.specs.Past.{Since};
ghost use Rattle.journal.specs.PastLaws.{only_since, since_earlier};

use crate::medium::{Medium, MediumError};
use std::alloc::{AllocError, Global};

/// Bytes in memory, of which a crash may take what was not synced. It keeps what a crash might have
/// left during each of its calls, so it is for tests. Some of its calls fail: a write then leaves
/// half of its bytes.
#[derive(Drop)]
pub struct MemoryMedium {
    alloc: Global,
    bytes: Vec<u8>,
    synced: usize,
    past: Vec<(Vec<u8>, usize)>,
    before: u64,
    failing: u64,
    lost: bool,
    failed: bool,
    ghost within: { synced ≤ length bytes.items },
}

/// Keeps these bytes, one after the other.
fn remember(
    alloc: Global,
    past: &mut Vec<(Vec<u8>, usize)>,
    bytes: &[u8],
    more: &[u8],
    low: usize,
) -> Result<(), AllocError>
    ensures ok { OnOk result ((i : _) × (i.0.items ≡ bytes.now ++ more.now) × (i.1 ≡ low)
        × (past.new.items ≡ past.old.items ++ i ∷ [])) }
    ensures err { OnErr result (past.new.items ≡ past.old.items) }
{
    let mut image = bytes.to_vec(alloc)?;
    image.extend_from_slice(more)?;
    past.push((image, low))?;
    Ok(())
}

/// Adds the first bytes of some more, or none of them.
fn add_part(bytes: &mut Vec<u8>, more: &[u8], few: usize) -> bool
    requires { few ≤ length more.now }
    ensures all { result ≡ true → bytes.new.items ≡ bytes.old.items ++ take few more.now }
    ensures part { (k : ℕ) × (bytes.new.items ≡ bytes.old.items ++ take k more.now) }
{
    bytes.extend_from_slice(&more[..few]).is_ok()
}

/// Whether this call goes well: of the calls, so many do, and then so many do not.
fn goes_well(before: &mut u64, failing: &mut u64) -> bool {
    if *before > 0 {
        *before -= 1;
        return true;
    }
    if *failing > 0 {
        *failing -= 1;
        return false;
    }
    true
}

impl MemoryMedium {
    ghost use Rattle.journal.specs.MemoryMedium.{memory_bytes, memory_synced, memory_sound};

    /// Nothing, on a medium of whose calls `before` go well, the next `failing` fail, and all
    /// others go well.
    pub fn new(alloc: Global, before: u64, failing: u64) -> MemoryMedium
        ensures bytes { memory_bytes result ≡ [] }
        ensures synced { memory_synced result ≡ 0 }
        ensures sound { memory_sound result ≡ true }
    {
        MemoryMedium {
            alloc,
            bytes: Vec::new(alloc),
            synced: 0,
            past: Vec::new(alloc),
            before,
            failing,
            lost: false,
            failed: false,
        }
    }

    /// What was written.
    pub fn bytes(&self) -> &[u8]
        ensures { result.now ≡ memory_bytes self.now }
    {
        &self.bytes
    }

    /// How many bytes each crash leaves.
    pub fn synced(&self) -> usize
        ensures count { result ≡ memory_synced self.now }
        ensures within { result ≤ length (memory_bytes self.now) }
    {
        self.synced
    }
}

impl Medium for MemoryMedium {
    ghost shows = { λ m bytes. bytes ≡ m.bytes.items };

    ghost kept = { λ m n. n ≤ m.synced };

    ghost sound = { λ m. not m.lost };

    ghost failed = { λ m. m.failed };

    ghost moment = { λ m. length m.past.items };

    ghost left_since = { λ m t left. Since m.past.items m.synced m.bytes.items t left };

    ghost beside = { λ a b. Unit {0} };

    ghost stays = { λ m. tt };

    ghost goes_on = { λ a b c first second. tt };

    ghost only_now = { λ m bytes n left shown le had.
        only_since m.past.items m.synced m.bytes.items bytes n left shown le had };

    ghost earlier = { λ m t u left le fits had.
        since_earlier m.past.items m.synced m.bytes.items t u left le had };

    fn append(&mut self, bytes: &[u8]) -> Result<(), MediumError> {
        if remember(self.alloc, &mut self.past, &self.bytes, bytes, self.synced).is_err() {
            self.failed = true;
            return Err(MediumError);
        }
        if !goes_well(&mut self.before, &mut self.failing) {
            let _ = add_part(&mut self.bytes, bytes, bytes.len() / 2);
            self.failed = true;
            return Err(MediumError);
        }
        if !add_part(&mut self.bytes, bytes, bytes.len()) {
            self.failed = true;
            return Err(MediumError);
        }
        Ok(())
    }

    fn sync(&mut self) -> Result<(), MediumError> {
        if !goes_well(&mut self.before, &mut self.failing) {
            self.lost = true;
            self.failed = true;
            return Err(MediumError);
        }
        if remember(self.alloc, &mut self.past, &self.bytes, &[], self.synced).is_err() {
            self.lost = true;
            self.failed = true;
            return Err(MediumError);
        }
        self.synced = self.bytes.len();
        Ok(())
    }

    fn cut(&mut self, len: usize) -> Result<(), MediumError> {
        if !goes_well(&mut self.before, &mut self.failing) {
            self.lost = true;
            self.failed = true;
            return Err(MediumError);
        }
        if remember(
            self.alloc,
            &mut self.past,
            &self.bytes,
            &[],
            self.synced.min(len),
        )
        .is_err()
        {
            self.lost = true;
            self.failed = true;
            return Err(MediumError);
        }
        self.bytes.truncate(len);
        self.synced = len;
        Ok(())
    }
}
