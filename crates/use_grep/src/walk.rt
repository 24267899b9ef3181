//! Finds the files in directories, in the order of their names.

use crate::glob::Globs;
use std::alloc::AllocError;
use std::fs::DirEntry;
use std::{fs, io};

/// The items of a walk.
#[derive(Drop)]
pub enum Step {
    /// A file.
    File(String),
    /// A path that cannot be read, and the reason.
    Trouble(String, io::Error),
}

/// A walk through a directory and its subdirectories. It does not follow symbolic links, and finds
/// only regular files.
#[derive(Drop)]
pub struct Walk<'s> {
    rt: &'s HostRuntime,
    globs: &'s Globs,
    // The paths that are still to be visited, the next one last, and whether each is a directory.
    left: Vec<(String, bool)>,
    // The paths that could not be read.
    unreadable_paths: Vec<Step>,
}

impl<'s> Walk<'s> {
    /// Creates a walk through a directory. An empty path is the current directory.
    ///
    /// # Errors
    ///
    /// `AllocError` if an allocation fails.
    pub fn new(rt: &'s HostRuntime, globs: &'s Globs, path: &str) -> Result<Walk<'s>, AllocError> {
        let mut left = Vec::new(rt.alloc());
        left.push((String::from_str(rt.alloc(), path)?, true))?;
        Ok(Walk {
            rt,
            globs,
            left,
            unreadable_paths: Vec::new(rt.alloc()),
        })
    }

    /// Returns the next file, or the next path that cannot be read. Returns `None` at the end.
    ///
    /// # Errors
    ///
    /// `AllocError` if an allocation fails.
    pub fn advance(&mut self) -> Result<Option<Step>, AllocError> {
        for _ in 0..u64::MAX {
            if let Some(trouble) = self.unreadable_paths.pop() {
                return Ok(Some(trouble));
            }
            match self.left.pop() {
                Some((path, true)) => self.open(&path)?,
                Some((path, false)) => return Ok(Some(Step::File(path))),
                None => break,
            }
        }
        Ok(None)
    }

    // Reads a directory.
    fn open(&mut self, path: &String) -> Result<(), AllocError> {
        let mut found = self.entries(path.as_str())?;
        found.sort()?;
        for _ in 0..found.len() {
            if let Some((path, kind)) = found.pop() {
                self.push(path, kind)?;
            }
        }
        Ok(())
    }

    // Returns the entries of a directory that can be read, in no particular order. The others are
    // recorded as unreadable.
    fn entries(&mut self, path: &str) -> Result<Vec<(String, Kind)>, AllocError> {
        let mut found = Vec::new(self.rt.alloc());
        let real = if path.is_empty() { "." } else { path };
        let entries = match fs::read_dir(self.rt, real) {
            Ok(entries) => entries,
            Err(why) => {
                self.trouble(real, why)?;
                return Ok(found);
            }
        };
        for entry in entries {
            match entry {
                Ok(entry) => found.push(entry_of(self.rt, path, &entry)?)?,
                Err(why) => self.trouble(real, why)?,
            }
        }
        Ok(found)
    }

    // Adds an entry to the paths to visit, if it is to be searched.
    fn push(&mut self, path: String, kind: Kind) -> Result<(), AllocError> {
        let is_taken = match kind {
            Kind::File => self
                .globs
                .is_file_searched(last_path_component(path.as_str()))?,
            Kind::Directory => self
                .globs
                .is_directory_searched(last_path_component(path.as_str()))?,
            Kind::Other => false,
        };
        if is_taken {
            self.left.push((path, kind == Kind::Directory))?;
        }
        Ok(())
    }

    fn trouble(&mut self, path: &str, why: io::Error) -> Result<(), AllocError> {
        let path = String::from_str(self.rt.alloc(), path)?;
        Ok(self.unreadable_paths.push(Step::Trouble(path, why))?)
    }
}

#[derive(Clone, Copy, Debug, PartialEq, Eq, PartialOrd, Ord)]
enum Kind {
    File,
    Directory,
    Other,
}

// Returns the last part of a path that does not end with a slash.
fn last_path_component(path: &str) -> &str {
    match path.rsplit_once('/') {
        Some((_, name)) => name,
        None => path,
    }
}

// Returns the path of an entry, and its kind.
fn entry_of(
    rt: &HostRuntime,
    folder: &str,
    entry: &DirEntry,
) -> Result<(String, Kind), AllocError> {
    let name = entry.file_name();
    let slash = if folder.is_empty() || folder.ends_with('/') {
        ""
    } else {
        "/"
    };
    let path = format!(in rt.alloc(); "{folder}{slash}{name}")?;
    let kind = match entry.file_type() {
        Ok(of) if of.is_dir() => Kind::Directory,
        Ok(of) if of.is_file() => Kind::File,
        _ => Kind::Other,
    };
    Ok((path, kind))
}
