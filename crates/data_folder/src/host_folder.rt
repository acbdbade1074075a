//! A folder of the host's file system, of whose files no clause knows.

ghost use Rattle.std.specs.Prelude.{◌≡◌, true};

use crate::folder::Folder;
use journal::MediumError;
use std::alloc::{AllocError, Global};
use std::fs::{self, File, OpenOptions};
use std::io::{self, ErrorKind, Read, Write};
use std::os::fd::AsRawFd;
use std::rt::Files;

/// A file that is appended to, and its name. It stays open, since the system tells an error of its
/// own writing to a file that was open then.
#[derive(Drop)]
struct Opened {
    name: String,
    file: File,
}

/// A folder of a host. It tells neither what its files have nor what a crash leaves: that its calls
/// are those that their names say has to be read here. Each file is synced with the folders that it
/// stands in, up to this one.
#[derive(Drop)]
pub struct HostFolder<'a, R> {
    rt: &'a R,
    alloc: Global,
    path: &'a str,
    opened: Option<Opened>,
    lost: bool,
    failed: bool,
}

fn path_of(alloc: Global, folder: &str, name: &str) -> Result<String, AllocError> {
    format!(in alloc; "{folder}/{name}")
}

/// Syncs a folder, and those in it that a name stands in.
fn sync_folders<R: Files<File = File>>(
    rt: &R,
    alloc: Global,
    folder: &str,
    name: &str,
) -> io::Result<()> {
    let mut path = String::from_str(alloc, folder)?;
    for part in name.split('/') {
        File::open(rt, path.as_str())?.sync_all()?;
        path.push('/')?;
        path.push_str(part)?;
    }
    Ok(())
}

/// Has the next read ask the disk: after a sync that failed, perhaps in an earlier process, the
/// kernel's copies may be other than what the disk has.
fn drop_copies(file: &File) -> io::Result<()> {
    let advised = libc::posix_fadvise(file.as_raw_fd(), 0, 0, libc::POSIX_FADV_DONTNEED);
    if advised != 0 {
        return Err(io::Error::from_raw_os_error(advised));
    }
    Ok(())
}

fn write_whole<R: Files<File = File>>(
    rt: &R,
    alloc: Global,
    folder: &str,
    name: &str,
    bytes: &[u8],
) -> io::Result<()> {
    let path = path_of(alloc, folder, name)?;
    let mut file = File::create(rt, path.as_str())?;
    file.write_all(bytes)?;
    file.sync_all()?;
    sync_folders(rt, alloc, folder, name)
}

fn rename_whole<R: Files<File = File>>(
    rt: &R,
    alloc: Global,
    folder: &str,
    from: &str,
    to: &str,
) -> io::Result<()> {
    let old = path_of(alloc, folder, from)?;
    let new = path_of(alloc, folder, to)?;
    fs::rename(rt, old.as_str(), new.as_str())?;
    sync_folders(rt, alloc, folder, from)?;
    sync_folders(rt, alloc, folder, to)
}

/// Removes a file, or a folder in which nothing stands.
fn remove_whole<R: Files<File = File>>(
    rt: &R,
    alloc: Global,
    folder: &str,
    name: &str,
) -> io::Result<()> {
    let path = path_of(alloc, folder, name)?;
    match fs::remove_file(rt, path.as_str()) {
        Ok(()) => {}
        Err(error) if error.kind() == ErrorKind::NotFound => return Ok(()),
        Err(_) => fs::remove_dir(rt, path.as_str())?,
    }
    sync_folders(rt, alloc, folder, name)
}

fn read_whole<R: Files<File = File>>(
    rt: &R,
    alloc: Global,
    folder: &str,
    name: &str,
) -> io::Result<Option<Vec<u8>>> {
    let path = path_of(alloc, folder, name)?;
    let mut file = match File::open(rt, path.as_str()) {
        Ok(file) => file,
        Err(error) if error.kind() == ErrorKind::NotFound => return Ok(None),
        Err(error) => return Err(error),
    };
    file.sync_all()?;
    sync_folders(rt, alloc, folder, name)?;
    drop_copies(&file)?;
    let mut bytes = Vec::new(alloc);
    file.read_to_end(&mut bytes)?;
    Ok(Some(bytes))
}

fn make_folder<R: Files>(rt: &R, alloc: Global, folder: &str, name: &str) -> io::Result<()> {
    let path = path_of(alloc, folder, name)?;
    match fs::create_dir(rt, path.as_str()) {
        Ok(()) => Ok(()),
        Err(error) if error.kind() == ErrorKind::AlreadyExists => Ok(()),
        Err(error) => Err(error),
    }
}

fn names_of<R: Files + AllocGlobal + Clone + Drop>(
    rt: &R,
    alloc: Global,
    folder: &str,
    name: &str,
) -> io::Result<Vec<String>> {
    let path = path_of(alloc, folder, name)?;
    let mut names = Vec::new(alloc);
    let entries = match fs::read_dir(rt, path.as_str()) {
        Ok(entries) => entries,
        Err(error) if error.kind() == ErrorKind::NotFound => return Ok(names),
        Err(error) => return Err(error),
    };
    for entry in entries {
        names.push(String::from_str(alloc, entry?.file_name())?)?;
    }
    Ok(names)
}

fn append_to(file: &mut File, bytes: &[u8]) -> io::Result<()> {
    file.write_all(bytes)
}

fn cut_to(file: &mut File, len: usize) -> io::Result<()> {
    file.set_len(len as u64)?;
    file.sync_all()
}

impl<'a, R> HostFolder<'a, R> {
    ghost use Rattle.data_folder.specs.Hosts.{host_sound};

    /// The folder of a path, which has to be there. Nobody else may write into it.
    pub fn new(rt: &'a R, alloc: Global, path: &'a str) -> HostFolder<'a, R>
        ensures { host_sound result ≡ true }
    {
        HostFolder {
            rt,
            alloc,
            path,
            opened: None,
            lost: false,
            failed: false,
        }
    }
}

impl<'a, R: Files<File = File>> HostFolder<'a, R> {
    /// The file of a name, to append to it: the one that is open, or it is opened.
    fn file_of(&mut self, name: &str) -> io::Result<Opened>
        ensures lost { self.new.lost ≡ self.old.lost }
        ensures failed { self.new.failed ≡ self.old.failed }
    {
        if let Some(opened) = self.opened.take() {
            if opened.name.as_str() == name {
                return Ok(opened);
            }
        }
        let path = path_of(self.alloc, self.path, name)?;
        let file = OpenOptions::new()
            .append(true)
            .open(self.rt, path.as_str())?;
        let name = String::from_str(self.alloc, name)?;
        Ok(Opened { name, file })
    }

    fn append_bytes(&mut self, name: &str, bytes: &[u8]) -> io::Result<()>
        ensures lost { self.new.lost ≡ self.old.lost }
        ensures failed { self.new.failed ≡ self.old.failed }
    {
        let mut opened = self.file_of(name)?;
        let done = append_to(&mut opened.file, bytes);
        self.opened = Some(opened);
        done
    }

    fn sync_bytes(&mut self, name: &str) -> io::Result<()>
        ensures lost { self.new.lost ≡ self.old.lost }
        ensures failed { self.new.failed ≡ self.old.failed }
    {
        let opened = self.file_of(name)?;
        let done = opened.file.sync_data();
        self.opened = Some(opened);
        done
    }

    fn cut_bytes(&mut self, name: &str, len: usize) -> io::Result<()>
        ensures lost { self.new.lost ≡ self.old.lost }
        ensures failed { self.new.failed ≡ self.old.failed }
    {
        let mut opened = self.file_of(name)?;
        let done = cut_to(&mut opened.file, len);
        self.opened = Some(opened);
        done
    }
}

impl<'a, R: Files<File = File> + AllocGlobal + Clone + Drop> Folder for HostFolder<'a, R> {
    ghost use Rattle.std.specs.Prelude.{not};

    ghost shows = { λ f name x. Unit {0} };

    ghost lists = { λ f folder names. Unit {0} };

    ghost kept = { λ f name n. Unit {0} };

    ghost sound = { λ f. not f.lost };

    ghost failed = { λ f. f.failed };

    ghost moment = { λ f. 0 };

    ghost left_since = { λ f t left. ⊥ };

    fn append(&mut self, name: &str, bytes: &[u8]) -> Result<(), MediumError> {
        if self.append_bytes(name, bytes).is_err() {
            self.failed = true;
            return Err(MediumError);
        }
        Ok(())
    }

    fn sync(&mut self, name: &str) -> Result<(), MediumError> {
        if self.sync_bytes(name).is_err() {
            self.lost = true;
            self.failed = true;
            return Err(MediumError);
        }
        Ok(())
    }

    fn cut(&mut self, name: &str, len: usize) -> Result<(), MediumError> {
        if self.cut_bytes(name, len).is_err() {
            self.lost = true;
            self.failed = true;
            return Err(MediumError);
        }
        Ok(())
    }

    fn write(&mut self, name: &str, bytes: &[u8]) -> Result<(), MediumError> {
        self.opened = None;
        if write_whole(self.rt, self.alloc, self.path, name, bytes).is_err() {
            self.failed = true;
            return Err(MediumError);
        }
        Ok(())
    }

    fn replace(&mut self, from: &str, to: &str) -> Result<(), MediumError> {
        self.opened = None;
        if rename_whole(self.rt, self.alloc, self.path, from, to).is_err() {
            self.lost = true;
            self.failed = true;
            return Err(MediumError);
        }
        Ok(())
    }

    fn remove(&mut self, name: &str) -> Result<(), MediumError> {
        if remove_whole(self.rt, self.alloc, self.path, name).is_err() {
            self.failed = true;
            return Err(MediumError);
        }
        Ok(())
    }

    fn read(&mut self, alloc: Global, name: &str) -> Result<Option<Vec<u8>>, MediumError> {
        match read_whole(self.rt, alloc, self.path, name) {
            Ok(found) => Ok(found),
            Err(_) => {
                self.lost = true;
                self.failed = true;
                Err(MediumError)
            }
        }
    }

    fn make(&mut self, folder: &str) -> Result<(), MediumError> {
        if make_folder(self.rt, self.alloc, self.path, folder).is_err() {
            self.failed = true;
            return Err(MediumError);
        }
        Ok(())
    }

    fn names(&mut self, alloc: Global, folder: &str) -> Result<Vec<String>, MediumError> {
        match names_of(self.rt, alloc, self.path, folder) {
            Ok(names) => Ok(names),
            Err(_) => {
                self.failed = true;
                Err(MediumError)
            }
        }
    }

    ghost only_now = { λ f name x n left shown kept had. absurd had };

    ghost earlier = { λ f t u left le fits had. had };
}
