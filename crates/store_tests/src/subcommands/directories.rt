//! Two directories in memory, whose blocks are spelled by hand.

ghost use Rattle.std.specs.Prelude.{◌≡◌};

use commands::{ReadError, ReadFiles};
use std::alloc::{AllocError, Global};

/// The bytes of a file, piece after piece. A file without a piece is not there.
type Pieces = &'static [&'static [u8]];

/// A directory's name, and its files: the meta, the index, the chunks and the tombstones.
type Directory = (&'static str, [Pieces; 4]);

/// The place of a file among those of a directory.
fn place_of(name: &str) -> usize {
    match name {
        "/meta.json" => 0,
        "/index" => 1,
        "/chunks/000001" => 2,
        "/tombstones" => 3,
        _ => 4,
    }
}

/// The directories in memory that the runs of the tests read.
pub struct Directories;

/// The bytes of pieces, one after another.
fn join_pieces(alloc: Global, pieces: Pieces) -> Result<Vec<u8>, AllocError> {
    let mut bytes = Vec::new(alloc);
    for piece in pieces {
        bytes.extend_from_slice(piece)?;
    }
    Ok(bytes)
}

impl ReadFiles for Directories {
    ghost use Rattle.std.specs.Prelude.{⊤};

    ghost may_read = { λ _ _ _. ⊤ };

    fn read_file(&self, alloc: Global, path: &str, most: usize) -> Result<Vec<u8>, ReadError> {
        for (directory, files) in READ {
            if let Some(name) = path.strip_prefix(*directory) {
                let pieces: Pieces = files.get(place_of(name)).copied().unwrap_or(&[]);
                if !pieces.is_empty() {
                    let Ok(mut found) = join_pieces(alloc, pieces) else {
                        return Err(ReadError::Memory);
                    };
                    found.truncate(most);
                    return Ok(found);
                }
            }
        }
        Err(ReadError::Unreadable)
    }
}

const META: Pieces = &[br#"{"minTime":0,"maxTime":20,"version":1}"#];

const NOTHING_DELETED: Pieces = &[b"\x01\x30\xBA\x30\x01\0\0\0\0"];

/// Of the indexes of two blocks of one series, `up{job="a"}` at 3: what comes before its entry.
const ONE_SYMBOLS: &[u8] =
    b"\xBA\xAA\xD7\0\x02\0\0\0\x16\0\0\0\x04\x08__name__\x01a\x03job\x02up\x4C\x53\x9A\x65\0\0\0\0\0\0\0\0\0\0\0\0\0";

/// Three lists of this series.
const ONE_LISTS: &[u8] =
    b"\0\0\0\x08\0\0\0\x01\0\0\0\x03\xA7\x69\x2E\xD2\0\0\0\x08\0\0\0\x01\0\0\0\x03\xA7\x69\x2E\xD2\0\0\0\x08\0\0\0\x01\0\0\0\x03\xA7\x69\x2E\xD2";

/// Their table, and the table of contents.
const ONE_TABLES: &[u8] =
    b"\0\0\0\x1E\0\0\0\x03\x02\0\0\x3E\x02\x08__name__\x02up\x4E\x02\x03job\x01a\x5E\x50\x01\x8B\x0C\0\0\0\0\0\0\0\x05\0\0\0\0\0\0\0\x30\0\0\0\0\0\0\0\0\0\0\0\0\0\0\0\0\0\0\0\0\0\0\0\x3E\0\0\0\0\0\0\0\x6E\x73\x28\x81\x34";

const A_INDEX: Pieces = &[
    ONE_SYMBOLS,
    b"\x09\x02\0\x03\x02\x01\x01\x14\x05\x08\xE9\x24\xDA\xB9",
    ONE_LISTS,
    ONE_TABLES,
];

/// The samples (10, 1) and (15, 2).
const A_CHUNKS: Pieces = &[
    b"\x85\xBD\x40\xDD\x01\0\0\0",
    b"\x22\xE0\0\x02\0\0\0\0\0\0\0\x0A\0\0\0\0\0\0\0\x01\0\0\0\0\0\0\0\x0F\0\0\0\0\0\0\0\x02\xA5\xCF\x5A\xEE",
];

const B_INDEX: Pieces = &[
    ONE_SYMBOLS,
    b"\x09\x02\0\x03\x02\x01\x01\x14\0\x08\xB4\x0C\x23\x12",
    ONE_LISTS,
    ONE_TABLES,
];

/// The sample (10, 9).
const B_CHUNKS: Pieces = &[
    b"\x85\xBD\x40\xDD\x01\0\0\0",
    b"\x12\xE0\0\x01\0\0\0\0\0\0\0\x0A\0\0\0\0\0\0\0\x09\xE2\x19\x2F\x3C",
];

/// Where the runs of the tests read.
const READ: &[Directory] = &[
    ("a", [META, A_INDEX, A_CHUNKS, NOTHING_DELETED]),
    ("b", [META, B_INDEX, B_CHUNKS, NOTHING_DELETED]),
];

pub const DIRECTORIES: Directories = Directories;
