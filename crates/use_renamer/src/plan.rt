//! The plan: which files are renamed, and whether this is safe.

ghost use Rattle.std.specs.Prelude.{◌≡◌, ◌||◌, ◌++◌, ◌∷◌, [], IfErr, IfOk, OnOk, bytes_eq, find, is_none, not, option_map, string_bytes};
ghost use Rattle.regress_match.specs.CompileErrors.{IsOutOfMemory};
ghost use Rattle.use_renamer.specs.Names.{AreRenamingsSafe, IsReasonToRefuse, all_differ, changes, pairs_of_different_names, is_among, is_file_name, moves_of, texts};

use crate::names::{is_among, is_file_name};
use regress_match::{Regex, SearchError};
use std::alloc::{AllocError, Global};
use thiserror::Error;

/// A renaming: the old and the new name of a file.
#[derive(Debug, Drop)]
pub struct Rename {
    pub from: String,
    pub to: String,
}

/// Why the renamings are refused.
#[derive(Debug, Drop, Error)]
pub enum Refusal {
    /// An allocation failed.
    #[error("out of memory")]
    Memory,
    /// The new name is not a valid file name.
    #[error("{from} would become {to:?}, which is no name in this folder")]
    InvalidNewName {
        from: String,
        to: String,
    },
    /// Something in the folder already has the new name.
    #[error("{from} would become {to}, which is there already")]
    NewNameExists {
        from: String,
        to: String,
    },
    /// Two files would have the same name.
    #[error("{from} and {other} would both become {to}")]
    Same {
        from: String,
        other: String,
        to: String,
    },
}

impl From<SearchError> for Refusal {
    ghost use Rattle.use_renamer.specs.declared.plan.Refusal.TheVariants.{Memory};

    ghost from_gives = { λ _ e. e ≡ Memory };

    fn from(_: SearchError) -> Self {
        Refusal::Memory
    }
}

impl From<AllocError> for Refusal {
    ghost use Rattle.use_renamer.specs.declared.plan.Refusal.TheVariants.{Memory};

    ghost from_gives = { λ _ e. e ≡ Memory };

    fn from(_: AllocError) -> Self {
        Refusal::Memory
    }
}

/// Returns the renamings of the files whose names change, in the order of the files. In a new name,
/// each match is replaced by the expansion of the template. `others` are the names of everything
/// else in the folder.
///
/// # Errors
///
/// Returns `Memory` if an allocation fails. Returns the other errors exactly if the renamings are
/// not safe.
pub fn plan(
    alloc: Global,
    re: &Regex,
    template: &str,
    files: &[String],
    others: &[String],
) -> Result<Vec<Rename>, Refusal>
    ensures planned { IfOk result (λ plan. moves_of plan.items
        ≡ changes re.now template.now (texts files.now)) }
    ensures safe { let folder = texts files.now ++ texts others.now in
        IfOk result (λ plan. AreRenamingsSafe folder (moves_of plan.items)) }
    ensures refused { let folder = texts files.now ++ texts others.now in
        IfErr result (IsReasonToRefuse folder (changes re.now template.now (texts files.now))) }
{
    let renames = changes(alloc, re, template, files)?;
    check(&renames, files, others)?;
    Ok(renames)
}

// Returns the renamings of the files whose names change. They may be unsafe.
fn changes(
    alloc: Global,
    re: &Regex,
    template: &str,
    files: &[String],
) -> Result<Vec<Rename>, SearchError>
    ensures each { IfOk result (λ renames. moves_of renames.items
        ≡ changes re.now template.now (texts files.now)) }
    ensures refused { IfErr result IsOutOfMemory }
{
    let mut renames = Vec::new(alloc);
    for name in files {
        let new = re.replace_all(name.as_str(), template)?;
        push_change(&mut renames, name, new)?;
    }
    Ok(renames)
}

// Appends a renaming if the names differ.
fn push_change(renames: &mut Vec<Rename>, name: &String, new: String) -> Result<(), AllocError>
    ensures { IfOk result (λ _. moves_of renames.new.items
        ≡ moves_of renames.old.items ++ pairs_of_different_names ((string_bytes name.now, string_bytes new) ∷ [])) }
{
    if name.as_str() == new.as_str() {
        return Ok(());
    }
    let from = name.clone()?;
    Ok(renames.push(Rename { from, to: new })?)
}

// Returns an error if the renamings would lose a file or leave the folder.
fn check(renames: &[Rename], files: &[String], others: &[String]) -> Result<(), Refusal>
    ensures safe { let folder = texts files.now ++ texts others.now in
        OnOk result (AreRenamingsSafe folder (moves_of renames.now)) }
    ensures refused { let folder = texts files.now ++ texts others.now in
        IfErr result (IsReasonToRefuse folder (moves_of renames.now)) }
{
    if let Some(Rename { from, to }) = first_with_invalid_new_name(renames) {
        return Err(Refusal::InvalidNewName {
            from: from.clone()?,
            to: to.clone()?,
        });
    }
    if let Some(Rename { from, to }) = first_with_existing_new_name(renames, files, others) {
        return Err(Refusal::NewNameExists {
            from: from.clone()?,
            to: to.clone()?,
        });
    }
    if let Some((Rename { from, to }, other)) = first_two_with_same_new_name(renames) {
        return Err(Refusal::Same {
            from: from.clone()?,
            other: other.from.clone()?,
            to: to.clone()?,
        });
    }
    Ok(())
}

// Returns the first renaming whose new name is not a valid file name.
fn first_with_invalid_new_name(renames: &[Rename]) -> Option<&Rename>
    ensures { option_map (λ r. r.now) result
        ≡ find (λ r. not (is_file_name (string_bytes r.to))) renames.now }
{
    renames
        .iter()
        .find(|rename| !is_file_name(rename.to.as_str()))
}

// Returns the first renaming whose new name exists in the folder.
fn first_with_existing_new_name<'a>(
    renames: &'a [Rename],
    files: &[String],
    others: &[String],
) -> Option<&'a Rename>
    ensures { option_map (λ r. r.now) result
        ≡ find (λ r. is_among string_bytes (string_bytes r.to) files.now
        || is_among string_bytes (string_bytes r.to) others.now) renames.now }
{
    renames.iter().find(|rename| {
        is_among(rename.to.as_str(), files) || is_among(rename.to.as_str(), others)
    })
}

// Returns the first two renamings with the same new name.
fn first_two_with_same_new_name(renames: &[Rename]) -> Option<(&Rename, &Rename)>
    ensures { is_none result ≡ all_differ (λ r. string_bytes r.to) renames.now }
{
    let mut left = renames;
    while let Some((first, behind)) = left.split_first() {
        if let Some(second) = first_renaming_to(first.to.as_str(), behind) {
            return Some((first, second));
        }
        left = behind;
    }
    None
}

// Returns the first renaming with this new name.
fn first_renaming_to<'a>(name: &str, renames: &'a [Rename]) -> Option<&'a Rename>
    ensures { option_map (λ r. r.now) result
        ≡ find (λ r. bytes_eq name.now (string_bytes r.to)) renames.now }
{
    renames.iter().find(|rename| name == rename.to.as_str())
}
