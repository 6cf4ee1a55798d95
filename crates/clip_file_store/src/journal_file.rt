//! The file of a journal, in a folder of its own.
use crate::backing::{Backing, Failed};
use crate::recorded::Recorded;
use std::alloc::Global;
use std::fs::{self, DirBuilder, File, OpenOptions};
use std::io::{self, ErrorKind, Read, Write};
use std::os::unix::fs::{DirBuilderExt, OpenOptionsExt};
use std::rt::Files;

/// Who may read a journal's files, and write them: their owner.
const FILE_MODE: u32 = 0o600;

/// Who may look into a journal's folder, and change it: its owner.
const FOLDER_MODE: u32 = 0o700;

/// The most files that torn ends are kept in.
const MOST_ASIDE: u32 = 1_000_000;

/// The file `changes` of a folder, that is open for more. Nobody else has it open so while `lock` is held there.
///
/// What is added is gathered in memory, and written by the next sync, all of it at once.
#[derive(Drop)]
pub struct JournalFile<'r, R: Files<File = File>> {
    files: &'r R,
    folder: File,
    path: String,
    beside: String,
    file: File,
    added: Vec<u8>,
    written: Option<File>,
    lock: File,
}

/// A path in a folder.
fn path_in(alloc: Global, folder: &str, name: &str) -> io::Result<String> {
    Ok(format!(in alloc; "{folder}/{name}")?)
}

/// Makes the folder, where there is none. Its parent is synced then.
fn make_folder<R: Files<File = File>>(files: &R, alloc: Global, folder: &str) -> io::Result<()> {
    match DirBuilder::new().mode(FOLDER_MODE).create(files, folder) {
        Ok(()) => File::open(files, path_in(alloc, folder, "..")?.as_str())?.sync_all(),
        Err(error) if error.kind() == ErrorKind::AlreadyExists => Ok(()),
        Err(error) => Err(error),
    }
}

/// Opens the journal's file in a folder, and makes what is missing. The store has all of the file's bytes, which were
/// synced, and the folder too.
///
/// An error where the folder or the file can't be made, read or synced, where another process has the journal open
/// (`WouldBlock`), or where there is no memory. Memory: the bytes, until something is written.
pub fn open_file<'r, R: Files<File = File>>(
    files: &'r R,
    alloc: Global,
    folder: &str,
) -> io::Result<Recorded<JournalFile<'r, R>>> {
    make_folder(files, alloc, folder)?;
    let lock = OpenOptions::new()
        .write(true)
        .create(true)
        .mode(FILE_MODE)
        .open(files, path_in(alloc, folder, "lock")?.as_str())?;
    if lock.try_lock().is_err() {
        return Err(ErrorKind::WouldBlock.into());
    }
    let path = path_in(alloc, folder, "changes")?;
    let mut file = OpenOptions::new()
        .read(true)
        .append(true)
        .create(true)
        .mode(FILE_MODE)
        .open(files, path.as_str())?;
    let mut bytes = Vec::new(alloc);
    file.read_to_end(&mut bytes)?;
    file.sync_all()?;
    let folder_file = File::open(files, folder)?;
    folder_file.sync_all()?;
    let backing = JournalFile {
        files,
        folder: folder_file,
        path,
        beside: path_in(alloc, folder, "changes.new")?,
        file,
        added: Vec::new(alloc),
        written: None,
        lock,
    };
    Ok(Recorded::over(alloc, backing, bytes))
}

/// Keeps bytes in a new file of the folder, `changes.torn.1` or the next number, synced, and gives its path.
///
/// An error where that can't be done, or where there is no memory. Cost: a call for each such file that is there.
pub fn set_aside<R: Files<File = File>>(
    files: &R,
    alloc: Global,
    folder: &str,
    bytes: &[u8],
) -> io::Result<String> {
    for number in 1..MOST_ASIDE {
        let path = format!(in alloc; "{folder}/changes.torn.{number}")?;
        let opened = OpenOptions::new()
            .write(true)
            .create_new(true)
            .mode(FILE_MODE)
            .open(files, path.as_str());
        match opened {
            Ok(mut file) => {
                file.write_all(bytes)?;
                file.sync_all()?;
                File::open(files, folder)?.sync_all()?;
                return Ok(path);
            }
            Err(error) if error.kind() == ErrorKind::AlreadyExists => {}
            Err(error) => return Err(error),
        }
    }
    Err(ErrorKind::AlreadyExists.into())
}

impl<R: Files<File = File>> JournalFile<'_, R> {
    /// Reads the file once more, from its beginning, with what was added since behind it.
    fn read_whole(&self, alloc: Global) -> io::Result<Vec<u8>> {
        let mut bytes = Vec::new(alloc);
        File::open(self.files, self.path.as_str())?.read_to_end(&mut bytes)?;
        bytes.extend_from_slice(&self.added)?;
        Ok(bytes)
    }

    /// Writes what was added, and syncs it.
    fn write_added(&mut self) -> io::Result<()> {
        self.file.write_all(&self.added)?;
        self.added.clear();
        self.file.sync_data()
    }

    /// Writes a file beside the journal's, synced.
    fn written_beside(&self, bytes: &[u8]) -> io::Result<File> {
        let mut file = OpenOptions::new()
            .write(true)
            .create(true)
            .truncate(true)
            .mode(FILE_MODE)
            .open(self.files, self.beside.as_str())?;
        file.write_all(bytes)?;
        file.sync_all()?;
        Ok(file)
    }

    /// Renames the file beside the journal's into that one's place, synced.
    fn renamed(&self) -> io::Result<()> {
        fs::rename(self.files, self.beside.as_str(), self.path.as_str())?;
        self.folder.sync_all()
    }
}

/// A call that failed.
fn failed<T: Drop>(answer: io::Result<T>) -> Result<T, Failed> {
    match answer {
        Ok(done) => Ok(done),
        Err(_) => Err(Failed),
    }
}

impl<R: Files<File = File>> Backing for JournalFile<'_, R> {
    fn append(&mut self, bytes: &[u8]) -> Result<(), Failed> {
        match self.added.extend_from_slice(bytes) {
            Ok(()) => Ok(()),
            Err(_) => Err(Failed),
        }
    }

    fn sync(&mut self) -> Result<(), Failed> {
        failed(self.write_added())
    }

    fn read(&self, alloc: Global) -> Result<Vec<u8>, Failed> {
        failed(self.read_whole(alloc))
    }

    fn put_beside(&mut self, bytes: &[u8]) -> Result<(), Failed> {
        self.written = None;
        self.written = Some(failed(self.written_beside(bytes))?);
        Ok(())
    }

    fn put_in_place(&mut self) -> Result<(), Failed> {
        let Some(file) = self.written.take() else {
            return Err(Failed);
        };
        failed(self.renamed())?;
        self.added.clear();
        self.file = file;
        Ok(())
    }
}
