//! The files of a block, read from the host's file system or from memory.

ghost use Rattle.std.specs.Prelude.{◌≡◌, ◌≤◌, ◌+◌, ℕ, List, Option, length, take, string_bytes};
ghost use Rattle.std.specs.Prelude.{IfOk, IfErr, IfSome};
ghost use Rattle.std.specs.Thread.{IsSync};
ghost use Rattle.commands.specs.Indexing.{IsIndexOutcome, IsOpened};
ghost use Rattle.commands.specs.declared.files.FileName.TheVariants as file_name;
ghost use Rattle.commands.specs.Reading.{limit_of, path_of, text_of, AreFirstBytes, AreRead};
ghost use Rattle.commands.specs.Reading.{IsRead};
ghost use Rattle.commands.specs.Reading.{IsReadFailure, IsFileOutcome, IsFileFault, IsReadingFault};

use crate::fault::Fault;
use index_reader::{Index, IndexError};
use std::alloc::{AllocError, Global};
use std::error::Error;
use std::fmt;
use std::fs::{File, OpenFile};
use std::io::{self, ErrorKind, Read};
use std::os::unix::fs::PermissionsExt;
use std::thread::{Threads, join};

/// How many threads open the index of a block.
const THREADS: usize = 4;

/// Why a file is not read.
#[derive(Clone, Copy, Debug, PartialEq, Eq, Drop)]
pub enum ReadError {
    /// Nothing can be read there.
    Unreadable,
    /// No memory is left.
    Memory,
}

impl fmt::Display for ReadError {
    ghost use Rattle.std.specs.Prelude.{Some};
    ghost use Rattle.commands.specs.Faults.{read_error_text};

    ghost output = { λ error. Some (read_error_text error) };

    fn fmt<W: fmt::Write>(&self, f: &mut fmt::Formatter<W>) -> fmt::Result {
        match self {
            ReadError::Unreadable => write!(f, "cannot read the file"),
            ReadError::Memory => write!(f, "no memory"),
        }
    }
}

impl Error for ReadError {}

/// What gives the bytes of files to any thread: the file system of the host, or files in memory.
pub trait ReadFiles: Sync {
    /// What reading a path may find: the bytes of a file, or nothing if it cannot be read.
    ghost may_read: { Self → List ℕ → Option (List ℕ) → Type 0 };

    /// The first bytes of the file at a path, at most `most`.
    fn read_file(&self, alloc: Global, path: &str, most: usize) -> Result<Vec<u8>, ReadError>
        ensures ok { IfOk result (λ bytes.
            AreFirstBytes (may_read self.now) path.now most bytes.items) }
        ensures err { IfErr result (λ error. IsReadFailure (may_read self.now) path.now error) };

    /// The same of a file that only its owner may read. Files in memory have no other readers.
    fn read_secret(&self, alloc: Global, path: &str, most: usize) -> Result<Vec<u8>, ReadError>
        ensures ok { IfOk result (λ bytes.
            AreFirstBytes (may_read self.now) path.now most bytes.items) }
        ensures err { IfErr result (λ error. IsReadFailure (may_read self.now) path.now error) }
    {
        self.read_file(alloc, path, most)
    }

    /// Learns of which directory the files are read next. Nothing that is read depends on it.
    fn begin(&self, _directory: &str) {}

    /// The host that has the files. A store is kept there. Files in memory are on no host.
    fn host(&self) -> Option<&HostRuntime> {
        None
    }
}

/// The first bytes that a reader gives, at most `most`, in a list that is made with this room.
fn first_of<R: Read + Drop>(
    alloc: Global,
    reader: R,
    room: usize,
    most: usize,
) -> io::Result<Vec<u8>>
    ensures few { IfOk result (λ bytes. length bytes.items ≤ most) }
    ensures first { IfOk result (λ bytes. IfSome (R.remaining reader) (λ all.
        bytes.items ≡ take most all)) }
{
    let mut bytes = Vec::with_capacity(alloc, room)?;
    reader.take(most as u64).read_to_end(&mut bytes)?;
    bytes.truncate(most);
    Ok(bytes)
}

/// The first bytes of the file of the host at a path, at most `most`.
fn first_of_file(alloc: Global, rt: &HostRuntime, path: &str, most: usize) -> io::Result<Vec<u8>>
    ensures { IfOk result (λ bytes. length bytes.items ≤ most) }
{
    let file = File::open(rt, path)?;
    let room = file.metadata()?.len().saturating_add(1).min(most as u64);
    first_of(alloc, file, room as usize, most)
}

/// The same of a file that only its owner may read.
fn first_of_secret(alloc: Global, rt: &HostRuntime, path: &str, most: usize) -> io::Result<Vec<u8>>
    ensures { IfOk result (λ bytes. length bytes.items ≤ most) }
{
    let file = File::open(rt, path)?;
    if file.metadata()?.permissions().mode() & 0o077 != 0 {
        return Err(io::Error::from(ErrorKind::PermissionDenied));
    }
    first_of(alloc, file, 0, most)
}

/// No clause can say what the host's files hold.
impl ReadFiles for HostRuntime {
    ghost use Rattle.std.specs.Prelude.{⊤};

    ghost may_read = { λ _ _ _. ⊤ };

    fn read_file(&self, alloc: Global, path: &str, most: usize) -> Result<Vec<u8>, ReadError> {
        match first_of_file(alloc, self, path, most) {
            Ok(bytes) => Ok(bytes),
            Err(error) if error.kind() == ErrorKind::OutOfMemory => Err(ReadError::Memory),
            Err(_) => Err(ReadError::Unreadable),
        }
    }

    fn read_secret(&self, alloc: Global, path: &str, most: usize) -> Result<Vec<u8>, ReadError> {
        match first_of_secret(alloc, self, path, most) {
            Ok(bytes) => Ok(bytes),
            Err(error) if error.kind() == ErrorKind::OutOfMemory => Err(ReadError::Memory),
            Err(_) => Err(ReadError::Unreadable),
        }
    }

    fn host(&self) -> Option<&HostRuntime> {
        Some(self)
    }
}

/// A file of a block.
#[derive(Clone, Copy, Debug, PartialEq, Eq)]
pub enum FileName {
    Meta,
    Index,
    Chunks,
    Tombstones,
}

impl FileName {
    /// Where the file is in its directory.
    fn text(self) -> &'static str
        ensures { result.now ≡ text_of self }
    {
        match self {
            FileName::Meta => "meta.json",
            FileName::Index => "index",
            FileName::Chunks => "chunks/000001",
            FileName::Tombstones => "tombstones",
        }
    }

    /// How many bytes the file may have.
    fn limit(self) -> usize
        ensures { result ≡ limit_of self }
    {
        match self {
            FileName::Meta => 1_048_576,
            FileName::Index | FileName::Chunks | FileName::Tombstones => 1_073_741_824,
        }
    }
}

/// The bytes of the files of a block, and what opening its index gave. If a file is longer than it
/// may be, they are its first bytes, as many as show that.
#[derive(Drop)]
pub struct BlockFiles {
    pub meta: Vec<u8>,
    pub index: Vec<u8>,
    pub opened: Result<Index, IndexError>,
    pub chunks: Vec<u8>,
    pub tombstones: Vec<u8>,
}

fn path_of(alloc: Global, directory: &str, name: FileName) -> Result<String, AllocError>
    ensures { IfOk result (λ path. string_bytes path ≡ path_of directory.now name) }
{
    let name = name.text();
    format!(in alloc; "{directory}/{name}")
}

/// Reads a file of the block in a directory.
fn read_one<F: ReadFiles>(
    alloc: Global,
    files: &F,
    directory: &str,
    name: FileName,
) -> Result<Vec<u8>, Fault>
    ensures ok { IfOk result (λ bytes.
        IsRead (F.may_read files.now) directory.now name bytes.items) }
    ensures err { IfErr result (λ fault.
        IsFileFault (F.may_read files.now) directory.now name fault) }
{
    let path = path_of(alloc, directory, name)?;
    match files.read_file(alloc, path.as_str(), name.limit() + 1) {
        Ok(bytes) => Ok(bytes),
        Err(ReadError::Unreadable) => Err(Fault::CannotRead(path)),
        Err(ReadError::Memory) => Err(Fault::Memory),
    }
}

/// Reads the index of the block in a directory, and opens it by several threads.
fn read_index<T: Threads + Sync, F: ReadFiles>(
    rt: &T,
    alloc: Global,
    files: &F,
    directory: &str,
) -> Result<(Vec<u8>, Result<Index, IndexError>), Fault>
    ensures ok { IfOk result (λ read.
        IsRead (F.may_read files.now) directory.now file_name.Index read.0.items) }
    ensures opened { IfOk result (λ read. IsOpened read.0.items read.1) }
    ensures err { IfErr result (λ fault.
        IsFileFault (F.may_read files.now) directory.now file_name.Index fault) }
{
    let index = read_one(alloc, files, directory, FileName::Index)?;
    let opened = Index::open_by(rt, THREADS, alloc, index.as_slice());
    Ok((index, opened))
}

/// Reads the files of the block in a directory, each once: the meta, the index, the chunks and the
/// tombstones, up to the first that cannot be read. Up to four threads open the index while another
/// thread reads the chunks.
pub fn read_block<T: Threads + Sync, F: ReadFiles>(
    rt: &T,
    alloc: Global,
    files: &F,
    directory: &str,
) -> Result<BlockFiles, Fault>
    ensures ok { IfOk result (λ block. AreRead (F.may_read files.now) directory.now block) }
    ensures opened { IfOk result (λ block. IsOpened block.index.items block.opened) }
    ensures err { IfErr result (λ fault.
        IsReadingFault (F.may_read files.now) directory.now fault) }
{
    files.begin(directory);
    let meta = read_one(alloc, files, directory, FileName::Meta)?;
    let apart = || -> Result<Vec<u8>, Fault>
        requires { IsSync F.row }
        ensures { IsFileOutcome (F.may_read files.entry.now) directory.entry.now file_name.Chunks
            result }
    { read_one(alloc, files, directory, FileName::Chunks) };
    let here = || -> Result<(Vec<u8>, Result<Index, IndexError>), Fault>
        requires { IsSync T.row × IsSync F.row }
        ensures { IsIndexOutcome (F.may_read files.entry.now) directory.entry.now result }
    { read_index(rt, alloc, files, directory) };
    let (chunks, index) = join(rt, apart, here);
    let (index, opened) = index?;
    let chunks = chunks?;
    let tombstones = read_one(alloc, files, directory, FileName::Tombstones)?;
    Ok(BlockFiles {
        meta,
        index,
        opened,
        chunks,
        tombstones,
    })
}
