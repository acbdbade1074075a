//! Files in memory, and what they are made of.

ghost use Rattle.std.specs.Prelude.{◌≡◌};

use crate::spelling::words_of;
use audit_command as audit;
use commands::{ReadError, ReadFiles};
use std::alloc::Global;
use wire::crc32c;

/// Files by their paths.
#[derive(Drop)]
pub struct Directories {
    files: Vec<(String, Vec<u8>)>,
}

/// The bytes of a file until now, and where the next are put.
#[derive(Drop)]
struct Draft {
    bytes: Vec<u8>,
    at: usize,
}

impl Draft {
    fn put(&mut self, bytes: &[u8]) -> Option<()> {
        for byte in bytes {
            match self.bytes.get_mut(self.at) {
                Some(slot) => *slot = *byte,
                None => self.bytes.push(*byte).ok()?,
            }
            self.at = self.at.saturating_add(1);
        }
        Some(())
    }

    /// Puts the checksum of the bytes in a range behind them.
    fn put_sum(&mut self, range: &str) -> Option<()> {
        let (from, to) = range.split_once("..")?;
        let (from, to) = (from.parse().ok()?, to.parse().ok()?);
        let sum = crc32c(self.bytes.get(from..to)?);
        self.at = to;
        self.put(&sum.to_be_bytes())
    }

    /// Does what one piece of a file says.
    fn put_piece(&mut self, alloc: Global, files: &Directories, piece: &str) -> Option<()> {
        if let Some(place) = piece.strip_prefix('@') {
            self.at = place.parse().ok()?;
            return Some(());
        }
        if let Some(text) = piece.strip_prefix("text:") {
            return self.put(text.as_bytes());
        }
        if let Some(path) = piece.strip_prefix("like:") {
            return self.put(files.bytes_of(path)?);
        }
        if let Some(range) = piece.strip_prefix("sum:") {
            return self.put_sum(range);
        }
        if let Some(count) = piece.strip_prefix("first:") {
            self.at = count.parse().ok()?;
            self.bytes.truncate(self.at);
            return Some(());
        }
        self.put(&hex::decode(alloc, piece).ok()?)
    }
}

/// The files of a directory, as changes name them, and where they are.
const NAMES: [(&str, &str); 4] = [
    ("meta:", "meta.json"),
    ("index:", "index"),
    ("chunks:", "chunks/000001"),
    ("tombstones:", "tombstones"),
];

impl Directories {
    pub fn new(alloc: Global) -> Directories {
        Directories {
            files: Vec::new(alloc),
        }
    }

    fn bytes_of(&self, path: &str) -> Option<&[u8]> {
        for (name, bytes) in &self.files {
            if name.as_str() == path {
                return Some(bytes.as_slice());
            }
        }
        None
    }

    /// Adds the files that these lines define.
    pub fn define(&mut self, alloc: Global, lines: &[&str]) -> Option<()> {
        for line in lines {
            let words = words_of(alloc, line)?;
            let mut words = words.iter();
            if line.starts_with("file ") {
                words.next()?;
                let path = String::from_str(alloc, words.next()?.as_str()).ok()?;
                self.files.push((path, Vec::new(alloc))).ok()?;
            }
            let (path, bytes) = self.files.pop()?;
            let mut draft = Draft {
                at: bytes.len(),
                bytes,
            };
            for word in words {
                draft.put_piece(alloc, self, word.as_str())?;
            }
            let Draft { bytes, at: _ } = draft;
            self.files.push((path, bytes)).ok()?;
        }
        Some(())
    }

    /// The file of a directory with the changes that words say of it.
    fn changed(&self, alloc: Global, path: &str, name: &str, words: &[String]) -> Option<Vec<u8>> {
        let mut draft = Draft {
            bytes: self.bytes_of(path)?.to_vec(alloc).ok()?,
            at: 0,
        };
        let mut of_it = false;
        for word in words {
            if word.ends_with(':') {
                of_it = word.as_str() == name;
            } else if of_it {
                draft.put_piece(alloc, self, word.as_str())?;
            }
        }
        let Draft { bytes, at: _ } = draft;
        Some(bytes)
    }

    /// The directory `it`, which is another with the changes that words say.
    pub fn with_changes(
        &self,
        alloc: Global,
        directory: &str,
        words: &[String],
    ) -> Option<Directories> {
        let mut it = Directories::new(alloc);
        for (name, place) in NAMES {
            let path = format!(in alloc; "{directory}/{place}").ok()?;
            let bytes = self.changed(alloc, path.as_str(), name, words)?;
            let path = format!(in alloc; "it/{place}").ok()?;
            it.files.push((path, bytes)).ok()?;
        }
        Some(it)
    }
}

/// No clause says what these files hold.
impl ReadFiles for Directories {
    ghost use Rattle.std.specs.Prelude.{⊤};

    ghost may_read = { λ _ _ _. ⊤ };

    fn read_file(&self, alloc: Global, path: &str, most: usize) -> Result<Vec<u8>, ReadError> {
        let Some(bytes) = self.bytes_of(path) else {
            return Err(ReadError::Unreadable);
        };
        match bytes.to_vec(alloc) {
            Ok(mut found) => {
                found.truncate(most);
                Ok(found)
            }
            Err(_) => Err(ReadError::Memory),
        }
    }
}

/// The same for `auditor`, which has a trait of its own.
impl audit::ReadFiles for Directories {
    ghost use Rattle.std.specs.Prelude.{⊤};

    ghost may_read = { λ _ _ _. ⊤ };

    fn read_file(
        &self,
        alloc: Global,
        path: &str,
        most: usize,
    ) -> Result<Vec<u8>, audit::ReadError> {
        match ReadFiles::read_file(self, alloc, path, most) {
            Ok(found) => Ok(found),
            Err(ReadError::Memory) => Err(audit::ReadError::Memory),
            Err(ReadError::Unreadable) => Err(audit::ReadError::Unreadable),
        }
    }
}
