// Files that a command reads and writes, by name.
ghost use Rattle.std.specs.Prelude.{◌≡◌, ℕ, List, Bool, Option, None, Some, option_map, Result, Ok, Err, IfOk, IfErr, OnOk};
ghost use Rattle.bay_io.specs.declared.input.ReadFault.{ReadFault};
ghost use Rattle.bay_files.specs.Files.{ReadsBoth, ReadsFile, ReadsIfNamed, WritesAtomically, unread_view};
ghost use Rattle.bay_files.specs.declared.files.FileFault.{FileFault};

use bay_io::input::{ReadFault, read_all};
use bay_io::reader::WatchedReader;
use std::alloc::{AllocError, Global};
use std::fs::{File, OpenFile, Permissions};
use std::io::{ErrorKind, Write};
use std::os::unix::fs::PermissionsExt;
use std::path::PathBuf;
use std::rt::Files;
use std::{fs, io};
use thiserror::Error;

// The most octets that a bay file, a program or an image may have.
const FILE_LIMIT: usize = 16_777_216;

// How many temporary names are tried next to the file being written.
const TRIES: u32 = 100;

// The bits of a file's mode that permit its group and others to read, write or run the file.
const OTHERS: u32 = 0o077;

// The most names that are looked up to find the file to write: the given one, and those that
// symbolic links lead to.
const LINKS: u32 = 40;

/// Why writing a file failed.
#[derive(Clone, Copy, Debug, Error)]
pub enum FileFault {
    /// The name leads to something other than a regular file, no file can be created, or a write
    /// failed, for this reason: `InvalidInput` if the name leads to anything but a regular file,
    /// and
    /// `Other` if all names beside the file are taken.
    #[error("the file can't be written")]
    Failed(ErrorKind),
    #[error("out of memory")]
    OutOfMemory,
}

impl From<AllocError> for FileFault {
    fn from(_: AllocError) -> FileFault {
        FileFault::OutOfMemory
    }
}

/// The octets of a file, and whether its mode denies all access to its group and others.
#[derive(Drop)]
pub struct ProtectedFile {
    pub octets: Vec<u8>,
    pub is_private: bool,
}

/// A file system: files by name.
///
/// Its meaning is four relations. `reads files name result`: a read of this name may have this
/// result, the octets or the fault. `guards files name result`: the same, with whether the file's
/// mode denies all access to its group and others. `writes old name number octets outcome new`: the
/// attempt with this number to write these octets to this name, with this outcome, may have led
/// from the files before to those after. `same files one other is_same`: whether both names are
/// known to lead to one file. Files in memory define these relations. For the files of a system
/// nothing is known: the defaults hold of everything.
pub trait FileSystem {
    ghost reads: { Self → List ℕ → Result (List ℕ) ReadFault → Type 0 } = { λ _ _ _. Unit {0} };

    ghost guards: { Self → List ℕ → Result (List ℕ × Bool) ReadFault → Type 0 } = { λ _ _ _. Unit {0} };

    ghost writes: { Self → List ℕ → ℕ → List ℕ → Result Bool FileFault → Self → Type 0 } = { λ _ _ _ _ _ _. Unit {0} };

    ghost same: { Self → List ℕ → List ℕ → Bool → Type 0 } = { λ _ _ _ _. Unit {0} };

    /// Reads all octets of a file, at most 16,777,216. Fails with `TooLong` if there are more, with
    /// `Failed` if the file can't be opened or read, and with `OutOfMemory`.
    fn read(&self, alloc: Global, name: &str) -> Result<Vec<u8>, ReadFault>
        ensures ok { IfOk result (λ octets. reads self.now name.now (Ok octets.items)) }
        ensures err { IfErr result (λ fault. reads self.now name.now (Err fault)) };

    /// Reads a file like `read`, and returns also whether its mode denies all access to its group
    /// and others.
    fn read_guarded(&self, alloc: Global, name: &str) -> Result<ProtectedFile, ReadFault>
        ensures ok { IfOk result
            (λ had. guards self.now name.now (Ok (had.octets.items, had.is_private))) }
        ensures err { IfErr result (λ fault. guards self.now name.now (Err fault)) };

    /// Writes octets to the file that a name leads to: fills a new file beside it, named like it
    /// with `.part` and the number of the attempt appended, and renames the new file to it. Follows
    /// symbolic links. Replaces a regular file, whose mode stays, or creates one; if the name leads
    /// to anything else it fails and does not touch that. Returns `Ok(false)` and changes nothing
    /// if the name beside is taken. Removes the new file if a later step fails.
    fn write(
        &mut self,
        alloc: Global,
        name: &str,
        number: u32,
        octets: &[u8],
    ) -> Result<bool, FileFault>
        ensures { writes self.old name.now number octets.now result self.new };

    /// Creates an empty file, to be written piece by piece. Fails if the name exists. Nothing is
    /// known of the files after the call.
    fn create(&mut self, name: &str) -> Result<File, FileFault>;

    /// Returns whether two names are known to lead to one file.
    fn is_same(&self, alloc: Global, name: &str, other: &str) -> bool
        ensures { same self.now name.now other.now result };
}

/// The octets of the two files that a command reads: a bay file, and a program or an image.
#[derive(Drop)]
pub struct BothFiles {
    pub bay: Vec<u8>,
    pub program: Vec<u8>,
}

/// A file that could not be read, and why.
#[derive(Drop)]
pub struct UnreadFile<'a> {
    pub name: &'a str,
    pub fault: ReadFault,
}

/// Reads a file. An error has the file's name and the fault.
pub fn read_file<'a, F: FileSystem>(
    alloc: Global,
    files: &F,
    name: &'a str,
) -> Result<Vec<u8>, UnreadFile<'a>>
    ensures ok { IfOk result (λ octets. ReadsFile F.reads files.now name.entry.now
        (Ok octets.items)) }
    ensures err { IfErr result (λ unread. ReadsFile F.reads files.now name.entry.now
        (Err (unread_view unread))) }
{
    match files.read(alloc, name) {
        Ok(octets) => Ok(octets),
        Err(fault) => Err(UnreadFile { name, fault }),
    }
}

/// Reads the file with this name. Without a name, returns no octets.
pub fn read_optional<'a, F: FileSystem>(
    alloc: Global,
    files: &F,
    name: Option<&'a str>,
) -> Result<Vec<u8>, UnreadFile<'a>>
    ensures ok { IfOk result
        (λ octets. ReadsIfNamed F.reads files.now (option_map (λ n. n.now) name.entry)
        (Ok octets.items)) }
    ensures err { IfErr result
        (λ unread. ReadsIfNamed F.reads files.now (option_map (λ n. n.now) name.entry)
        (Err (unread_view unread))) }
{
    match name {
        Some(name) => read_file(alloc, files, name),
        None => Ok(Vec::new(alloc)),
    }
}

/// Reads the two files of a command: the bay file first, then the program. An error has the name of
/// the first that can't be read, and the fault.
pub fn read_files<'a, F: FileSystem>(
    alloc: Global,
    files: &F,
    bay: &'a str,
    program: &'a str,
) -> Result<BothFiles, UnreadFile<'a>>
    ensures ok { IfOk result
        (λ both. ReadsBoth F.reads files.now bay.entry.now program.entry.now
        (Ok (record { bay = both.bay.items; program = both.program.items }))) }
    ensures err { IfErr result
        (λ unread. ReadsBoth F.reads files.now bay.entry.now program.entry.now
        (Err (unread_view unread))) }
{
    let bay = read_file(alloc, files, bay)?;
    let program = read_file(alloc, files, program)?;
    Ok(BothFiles { bay, program })
}

/// The files of the system that the program runs on.
#[derive(Drop)]
pub struct SystemFiles<'a, R> {
    rt: &'a R,
}

impl<'a, R: Files> SystemFiles<'a, R> {
    /// Creates a view of the system's files.
    pub fn new(rt: &'a R) -> Self {
        SystemFiles { rt }
    }
}

// Converts an error of the system to a fault of reading.
fn read_fault(error: &io::Error) -> ReadFault {
    if error.kind() == ErrorKind::OutOfMemory {
        ReadFault::OutOfMemory
    } else {
        ReadFault::Failed(error.kind())
    }
}

// Converts an error of the system to a fault of writing.
fn file_fault(error: &io::Error) -> FileFault {
    if error.kind() == ErrorKind::OutOfMemory {
        FileFault::OutOfMemory
    } else {
        FileFault::Failed(error.kind())
    }
}

// Opens a file for reading, and returns it with its mode.
fn open_with_mode<R: Files>(rt: &R, name: &str) -> io::Result<(R::File, u32)> {
    let file = fs::open(rt, name)?;
    let mode = file.metadata()?.permissions().mode();
    Ok((file, mode))
}

// The file that a name leads to.
#[derive(Drop)]
struct Target {
    /// The name after following all links.
    name: PathBuf,
    /// The mode of the regular file with this name; `None` if there is no file.
    mode: Option<Permissions>,
}

impl<R: Files> SystemFiles<'_, R> {
    // Returns the name that a link leads to, resolved from the link's folder.
    fn follow_link(&self, alloc: Global, link: &PathBuf) -> Result<PathBuf, FileFault> {
        let to = self
            .rt
            .read_link(alloc, link.as_str())
            .map_err(|error| file_fault(&error))?;
        match link.parent() {
            Some(folder) => Ok(folder.join(alloc, to.as_str())?),
            None => Ok(to),
        }
    }

    // Returns the file that a name leads to, over at most 39 links. Fails if there is anything but
    // a regular file or nothing.
    fn target_of(&self, alloc: Global, name: &str) -> Result<Target, FileFault> {
        let mut name = PathBuf::from_str(alloc, name)?;
        for _ in 0..LINKS {
            match self.rt.symlink_metadata(name.as_str()) {
                Ok(found) if found.is_symlink() => name = self.follow_link(alloc, &name)?,
                Ok(found) if found.is_file() => {
                    let mode = Some(found.permissions());
                    return Ok(Target { name, mode });
                }
                Ok(_) => return Err(FileFault::Failed(ErrorKind::InvalidInput)),
                Err(error) if error.kind() == ErrorKind::NotFound => {
                    return Ok(Target { name, mode: None });
                }
                Err(error) => return Err(file_fault(&error)),
            }
        }
        Err(FileFault::Failed(ErrorKind::FilesystemLoop))
    }

    // Fills the new file named `beside`, waits until the system has stored it, and renames it to
    // the target.
    fn fill(
        &self,
        mut file: R::File,
        beside: &str,
        octets: &[u8],
        target: Target,
    ) -> io::Result<()> {
        if let Some(mode) = target.mode {
            file.set_permissions(mode)?;
        }
        file.write_all(octets)?;
        file.sync_all()?;
        fs::rename(self.rt, beside, target.name.as_str())
    }
}

impl<R: Files<File = File>> FileSystem for SystemFiles<'_, R> {
    fn read(&self, alloc: Global, name: &str) -> Result<Vec<u8>, ReadFault> {
        match fs::open(self.rt, name) {
            Ok(file) => read_all(alloc, &mut WatchedReader::new(file), FILE_LIMIT),
            Err(error) => Err(read_fault(&error)),
        }
    }

    fn read_guarded(&self, alloc: Global, name: &str) -> Result<ProtectedFile, ReadFault> {
        let (file, mode) = open_with_mode(self.rt, name).map_err(|error| read_fault(&error))?;
        let octets = read_all(alloc, &mut WatchedReader::new(file), FILE_LIMIT)?;
        Ok(ProtectedFile {
            octets,
            is_private: mode & OTHERS == 0,
        })
    }

    fn write(
        &mut self,
        alloc: Global,
        name: &str,
        number: u32,
        octets: &[u8],
    ) -> Result<bool, FileFault> {
        let target = self.target_of(alloc, name)?;
        let beside = format!(in alloc; "{}.part{number}", target.name.as_str())?;
        let file = match File::create_new(self.rt, beside.as_str()) {
            Ok(file) => file,
            Err(error) if error.kind() == ErrorKind::AlreadyExists => return Ok(false),
            Err(error) => return Err(file_fault(&error)),
        };
        match self.fill(file, beside.as_str(), octets, target) {
            Ok(()) => Ok(true),
            Err(error) => {
                let _ = fs::remove_file(self.rt, beside.as_str());
                Err(file_fault(&error))
            }
        }
    }

    fn create(&mut self, name: &str) -> Result<File, FileFault> {
        File::create_new(self.rt, name).map_err(|error| file_fault(&error))
    }

    fn is_same(&self, alloc: Global, name: &str, other: &str) -> bool {
        match (
            self.rt.canonicalize(alloc, name),
            self.rt.canonicalize(alloc, other),
        ) {
            (Ok(one), Ok(two)) => one == two,
            _ => name == other,
        }
    }
}

/// Writes octets to the file with this name: all of them or none. Tries a hundred names beside the
/// file, one after the other, until one is free. Fails with `Failed` if all are taken or the file
/// can't be written, and with `OutOfMemory`.
pub fn write_atomically<F: FileSystem>(
    alloc: Global,
    files: &mut F,
    name: &str,
    octets: &[u8],
) -> Result<(), FileFault>
    ensures ok { OnOk result
        (WritesAtomically F.writes 100 0 name.now octets.now files.old files.new None) }
    ensures err { IfErr result
        (λ fault. WritesAtomically F.writes 100 0 name.now octets.now files.old files.new
        (Some fault)) }
{
    for number in 0..TRIES {
        match files.write(alloc, name, number, octets) {
            Ok(true) => return Ok(()),
            Ok(false) => {}
            Err(fault) => return Err(fault),
        }
    }
    Err(FileFault::Failed(ErrorKind::Other))
}
