//! The folder of a journal: what is in it, and what a stop tore there.
use crate::fault::Fault;
use clip_file_store::{JournalFile, Recorded, open_file, set_aside};
use clip_journal::{Store, begin, read_back};
use std::alloc::Global;
use std::fs::{self, File};
use std::rt::Files;

/// The file in which `clip_file_store` has a journal.
const OWN_FILE: &str = "changes";

/// The file in which `service/keep` had its journal.
const OTHER_FILE: &str = "journal";

/// The path of the journal's file in a folder.
pub(crate) fn file_of(alloc: Global, folder: &str) -> Result<String, Fault> {
    Ok(format!(in alloc; "{folder}/{OWN_FILE}")?)
}

/// Refuses a folder that has a journal that `service/keep` had. `Unopened` where that can't be seen.
pub(crate) fn refuse_other<R: Files<File = File>>(
    files: &R,
    alloc: Global,
    folder: &str,
) -> Result<(), Fault> {
    let path = format!(in alloc; "{folder}/{OTHER_FILE}")?;
    if fs::exists(files, path.as_str())? {
        return Err(Fault::Other);
    }
    Ok(())
}

/// What is torn at a store's end. In a store that has nothing a journal is begun.
fn torn_end<S: Store>(alloc: Global, store: &mut S) -> Result<Vec<u8>, Fault> {
    let bytes = store.read(alloc)?;
    if bytes.is_empty() {
        begin(alloc, store)?;
        return Ok(Vec::new(alloc));
    }
    let found = read_back(alloc, &bytes)?;
    Ok(Vec::from_slice(alloc, found.torn())?)
}

/// The store of the journal in a folder, which is made where there is none. What is torn at its end is kept in a file
/// beside it, of which standard error is told, and is in the store still.
///
/// `Broken` and `Other` with nothing changed; `Locked` where another process has the journal; `Unopened` where a file
/// can't be made, read, written or synced; `NoMemory`. Cost: reads the file, with a digest of each entry.
pub fn open_folder<'r, R: Eprint + Files<File = File>>(
    rt: &'r R,
    alloc: Global,
    folder: &str,
) -> Result<Recorded<JournalFile<'r, R>>, Fault> {
    refuse_other(rt, alloc, folder)?;
    let mut store = open_file(rt, alloc, folder)?;
    let torn = torn_end(alloc, &mut store)?;
    if !torn.is_empty() {
        let aside = set_aside(rt, alloc, folder, &torn)?;
        let many = torn.len();
        let _ = eprintln!(rt;
            "pressclip-keep: {folder}: {many} torn bytes at its end are left out, and kept in {aside}"
        );
    }
    Ok(store)
}
