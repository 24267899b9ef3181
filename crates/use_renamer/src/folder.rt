//! Reads a folder, and renames its files.

use crate::plan::Rename;
use anyhow::{Result, bail};
use std::fs;
use std::io::{ErrorKind, IsTerminal};

// If there are this many files or more, progress is shown on a terminal, each time this many are
// renamed.
const MIN_FILES_FOR_PROGRESS: usize = 1000;

/// The contents of a folder: the names of its files, and the names of everything else. Both are
/// sorted.
#[derive(Drop)]
pub struct Folder {
    pub files: Vec<String>,
    pub others: Vec<String>,
    /// The number of names that are not UTF-8.
    pub unreadable: usize,
}

/// Reads the contents of a folder.
///
/// # Errors
///
/// Returns an error if the folder cannot be read or an allocation fails.
pub fn read_folder(rt: &HostRuntime, path: &str) -> Result<Folder> {
    let alloc = rt.alloc();
    let mut files = Vec::new(alloc);
    let mut others = Vec::new(alloc);
    let mut unreadable = 0usize;
    let entries = match fs::read_dir(rt, path) {
        Ok(entries) => entries,
        Err(why) => bail!("{path}: {why}"),
    };
    for entry in entries {
        let entry = match entry {
            Ok(entry) => entry,
            Err(e) if e.kind() == ErrorKind::InvalidFilename => {
                unreadable = unreadable.saturating_add(1);
                continue;
            }
            Err(e) => return Err(e.into()),
        };
        let is_file = entry.file_type()?.is_file();
        let name = String::from_str(alloc, entry.file_name())?;
        if is_file {
            files.push(name)?
        } else {
            others.push(name)?
        }
    }
    files.sort()?;
    others.sort()?;
    Ok(Folder {
        files,
        others,
        unreadable,
    })
}

/// Renames files one by one.
///
/// # Errors
///
/// Returns an error if a file cannot be renamed, or if something has its new name by then. The
/// files before it are already renamed, and no further file is.
pub fn apply(rt: &HostRuntime, folder: &str, plan: &[Rename]) -> Result<()> {
    let tells = rt.stderr().is_terminal() && plan.len() >= MIN_FILES_FOR_PROGRESS;
    for (done, Rename { from, to }) in plan.iter().enumerate() {
        if tells && done % MIN_FILES_FOR_PROGRESS == 0 {
            eprint!(rt; "\r{done} of {} files", plan.len())?;
        }
        move_file(rt, folder, from.as_str(), to.as_str())?;
    }
    if tells {
        eprint!(rt; "\r\u{1b}[K")?;
    }
    Ok(())
}

fn move_file(rt: &HostRuntime, folder: &str, from: &str, to: &str) -> Result<()> {
    let alloc = rt.alloc();
    let old = format!(in alloc; "{folder}/{from}")?;
    let new = format!(in alloc; "{folder}/{to}")?;
    if fs::symlink_metadata(rt, new.as_str()).is_ok() {
        bail!("{from} is not renamed, since {to} is there now");
    }
    if let Err(why) = fs::rename(rt, old.as_str(), new.as_str()) {
        bail!("{from} is not renamed to {to}: {why}");
    }
    Ok(())
}
