//! Files on disk.
ghost use Rattle.std.specs.Prelude.{◌≡◌, ◌≤◌, IfOk, length};

use crate::adapters::counts::read_again;
use crate::files::{FileAnswer, Files, Replaced};
use auth_grammar::Octets;
use std::alloc::{AllocError, Global};
use std::fs::{File, OpenFile, OpenOptions, Permissions};
use std::io::{self, ErrorKind, Read, Write};
use std::os::unix::fs::{OpenOptionsExt, PermissionsExt};
use std::rt::Files as FileSystem;

/// A file shorter than so many bytes is read whole at once.
const SHORT_BYTES: usize = 512;

/// How many names for a new file beside the old one are tried, more than there are workers that write at one time.
const SPARE_NAMES: u32 = 1_024;

/// The files of the system's file system. A name is a path, as UTF-8.
///
/// Reading answers Absent for a path that isn't there, is a folder, leads below a file, or is one that the system
/// refuses as a name. Replacing writes a new file beside the old one, with the old one's mode, syncs it, and renames it,
/// so after a crash the name has the old bytes or the new ones. A link is replaced itself, and not what it leads to.
#[derive(Drop)]
pub struct DiskFiles<'r, R> {
    system: &'r R,
    alloc: Global,
    faults: u64,
}

impl<'r, R: FileSystem> DiskFiles<'r, R> {
    /// Over the system's files. What is read from one takes its memory from `alloc`.
    pub fn new(system: &'r R, alloc: Global) -> DiskFiles<'r, R>
        ensures { ⟦<DiskFiles<'r, R> as Files>⟧.faults result ≡ 0 }
    {
        DiskFiles {
            system,
            alloc,
            faults: 0,
        }
    }
}

/// Why a call of the file system gave nothing.
#[derive(Clone, Copy)]
enum Cause {
    Absent,
    TooLarge,
    Fault,
    Memory,
}

impl From<std::io::Error> for Cause {
    fn from(error: std::io::Error) -> Cause {
        match error.kind() {
            ErrorKind::NotFound
            | ErrorKind::NotADirectory
            | ErrorKind::IsADirectory
            | ErrorKind::InvalidInput
            | ErrorKind::InvalidFilename => Cause::Absent,
            ErrorKind::OutOfMemory => Cause::Memory,
            _ => Cause::Fault,
        }
    }
}

impl From<AllocError> for Cause {
    fn from(_error: AllocError) -> Cause {
        Cause::Memory
    }
}

/// The name as the system takes it.
fn path_of(name: &[u8]) -> Result<&str, Cause> {
    str::from_utf8(name).map_err(|_| Cause::Absent)
}

/// Reads on until the buffer is full or the reader has ended. Answers how much of it is filled.
fn fill_from<F: Read>(reader: &mut F, into: &mut [u8]) -> Result<usize, Cause>
    ensures { IfOk result (λ count. count ≤ length into.new) }
{
    let mut at = 0;
    while at < into.len() {
        match read_again(reader, &mut into[at..])? {
            0 => return Ok(at),
            count => at += count,
        }
    }
    Ok(at)
}

/// These bytes, where they are at most `limit`.
fn within(bytes: Vec<u8>, limit: u64) -> Result<Octets, Cause>
    ensures { IfOk result (λ bytes. length bytes ≤ limit) }
{
    if bytes.len() as u64 > limit {
        return Err(Cause::TooLarge);
    }
    Ok(Octets::from_vec(bytes))
}

/// These bytes and all that a reader gives behind them, where they are together at most `limit`.
fn with_rest<F: Read + Drop>(mut bytes: Vec<u8>, reader: F, limit: u64) -> Result<Octets, Cause>
    ensures { IfOk result (λ bytes. length bytes ≤ limit) }
{
    let room = limit.saturating_add(1).saturating_sub(bytes.len() as u64);
    reader.take(room).read_to_end(&mut bytes)?;
    within(bytes, limit)
}

/// The bytes of a front and all that a reader gives behind it, where they are together at most `limit`. They are thought
/// to be this many, and get memory for one more, in which their end shows.
fn read_behind<F: Read + Drop>(
    alloc: Global,
    front: &[u8],
    mut reader: F,
    expected: u64,
    limit: u64,
) -> Result<Octets, Cause>
    ensures { IfOk result (λ bytes. length bytes ≤ limit) }
{
    let behind = (expected as usize)
        .saturating_sub(front.len())
        .saturating_add(1);
    let room = front.len().saturating_add(behind);
    let mut bytes = Vec::with_capacity(alloc, room)?;
    bytes.extend_from_slice(front)?;
    bytes.resize(room, 0)?;
    let count = fill_from(&mut reader, &mut bytes[front.len()..])?;
    if count == behind {
        return with_rest(bytes, reader, limit);
    }
    bytes.truncate(front.len() + count);
    within(bytes, limit)
}

/// The bytes of a file, where there are at most `limit`. Its length is asked for only where it isn't a short one.
fn read_file<R: FileSystem>(
    system: &R,
    alloc: Global,
    name: &[u8],
    limit: u64,
) -> Result<Octets, Cause>
    ensures { IfOk result (λ bytes. length bytes ≤ limit) }
{
    let mut file = File::open(system, path_of(name)?)?;
    let mut front = [0; SHORT_BYTES];
    let count = fill_from(&mut file, &mut front)?;
    if count < SHORT_BYTES {
        return within(Vec::from_slice(alloc, &front[..count])?, limit);
    }
    let expected = OpenFile::metadata(&file)?.len();
    if expected > limit {
        return Err(Cause::TooLarge);
    }
    read_behind(alloc, &front, file, expected, limit)
}

/// A name in the folder of the given one, with a byte that no path of a request may have.
fn spare_name(alloc: Global, path: &str, number: u32) -> Result<String, AllocError> {
    match path.rsplit_once('/') {
        Some((folder, _)) => format!(in alloc; "{folder}/%{number}.new"),
        None => format!(in alloc; "%{number}.new"),
    }
}

/// Who may read and write the file, where it is there, as the bits of its mode.
fn mode_of<R: FileSystem>(system: &R, path: &str) -> Option<u32> {
    match system.metadata(path) {
        Ok(metadata) => Some(metadata.permissions().mode()),
        Err(_) => None,
    }
}

/// A new file of this name, which nobody can open whom the mode doesn't let.
fn create_new<R: FileSystem>(system: &R, path: &str, mode: Option<u32>) -> io::Result<R::File> {
    let mut options = OpenOptions::new();
    options.write(true).create_new(true);
    if let Some(mode) = mode {
        options.mode(mode);
    }
    options.open(system, path)
}

/// Writes the bytes to a new file beside the given one, and answers its name.
fn write_beside<R: FileSystem>(
    system: &R,
    alloc: Global,
    path: &str,
    bytes: &[u8],
) -> Result<String, Cause> {
    let mode = mode_of(system, path);
    for number in 0..SPARE_NAMES {
        let spare = spare_name(alloc, path, number)?;
        match create_new(system, spare.as_str(), mode) {
            Ok(file) => return filled(system, file, spare, mode, bytes),
            Err(error) if error.kind() == ErrorKind::AlreadyExists => {}
            Err(error) => return Err(Cause::from(error)),
        }
    }
    Err(Cause::Fault)
}

/// Writes all of the bytes to a new file and has them kept, or removes it.
fn filled<R: FileSystem>(
    system: &R,
    file: R::File,
    spare: String,
    mode: Option<u32>,
    bytes: &[u8],
) -> Result<String, Cause> {
    match fill(file, mode, bytes) {
        Ok(()) => Ok(spare),
        Err(cause) => {
            let _ = system.remove_file(spare.as_str());
            Err(cause)
        }
    }
}

/// Writes all of the bytes and has them kept, in a file that has this mode from the first byte on. A new file has lost the
/// bits that the process' own mask takes, so they are given back.
fn fill<F: Write + OpenFile + Drop>(
    mut file: F,
    mode: Option<u32>,
    bytes: &[u8],
) -> Result<(), Cause> {
    if let Some(mode) = mode {
        file.set_permissions(Permissions::from_mode(mode))?;
    }
    file.write_all(bytes)?;
    file.sync_all()?;
    Ok(())
}

/// Makes the bytes the file's whole content.
fn replace_file<R: FileSystem>(
    system: &R,
    alloc: Global,
    name: &[u8],
    bytes: &[u8],
) -> Result<(), Cause> {
    let path = path_of(name)?;
    let spare = write_beside(system, alloc, path, bytes)?;
    match system.rename(spare.as_str(), path) {
        Ok(()) => Ok(()),
        Err(error) => {
            let _ = system.remove_file(spare.as_str());
            Err(Cause::from(error))
        }
    }
}

impl<'r, R: FileSystem> Files for DiskFiles<'r, R> {
    ghost use Rattle.std.specs.Prelude.{None};

    ghost contents = { λ _. None };

    ghost asked = { λ _. None };

    ghost faults = { λ s. s.faults };

    fn read(&mut self, name: &[u8], limit: u64) -> FileAnswer {
        match read_file(self.system, self.alloc, name, limit) {
            Ok(bytes) => FileAnswer::Found(bytes),
            Err(Cause::Absent) => FileAnswer::Absent,
            Err(Cause::TooLarge) => FileAnswer::TooLarge,
            Err(Cause::Memory) => FileAnswer::OutOfMemory,
            Err(Cause::Fault) => {
                self.faults = self.faults.saturating_add(1);
                FileAnswer::Failed
            }
        }
    }

    fn replace(&mut self, name: &[u8], bytes: &[u8]) -> Replaced {
        match replace_file(self.system, self.alloc, name, bytes) {
            Ok(()) => Replaced::Done,
            Err(Cause::Memory) => Replaced::OutOfMemory,
            Err(_) => {
                self.faults = self.faults.saturating_add(1);
                Replaced::Failed
            }
        }
    }
}
