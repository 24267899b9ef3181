//! The names of groups.

ghost use Rattle.std.specs.Prelude.{◌≡◌, IfOk, map, string_bytes};

use std::alloc::{AllocError, Global};
use std::fmt;
use std::marker::Model;
use std::sync::Arc;

// A list with one owner, or a shared list.
#[derive(Drop)]
enum OwnedOrSharedNameList {
    Own(Vec<String>),
    Shared(Arc<Vec<String>, Global>),
}

/// The names of groups by id, with an empty name for a group without one. The list is empty if no
/// group has a name. A program shares it with its matches. Contracts see the list.
#[derive(Drop)]
pub struct GroupNames {
    held: OwnedOrSharedNameList,
}

impl Model for GroupNames {
    ghost use Rattle.std.specs.Prelude.{ℕ, List};

    ghost Value = { List (List ℕ) };

    ghost use Rattle.regress_program.specs.GroupNamesOwnedOrShared.{stored_names};

    ghost view = { λ names. stored_names names.held };
}

impl GroupNames {
    /// Stores these names in a list of its own, which `clone` copies. It allocates no memory.
    pub fn from_owned_names(names: Vec<String>) -> Self
        ensures { result ≡ map string_bytes names.items }
    {
        GroupNames {
            held: OwnedOrSharedNameList::Own(names),
        }
    }

    /// Stores these names in a shared list, which `clone` does not copy.
    ///
    /// # Errors
    ///
    /// Returns `Err` if the allocation of the shared list fails. An empty list is not allocated.
    pub fn from_names_to_share(names: Vec<String>) -> Result<Self, AllocError>
        ensures { IfOk result (λ shared. shared ≡ map string_bytes names.items) }
    {
        if names.is_empty() {
            return Ok(GroupNames::from_owned_names(names));
        }
        let alloc = *names.allocator();
        let names = Arc::new(alloc, names)?;
        Ok(GroupNames {
            held: OwnedOrSharedNameList::Shared(names),
        })
    }

    /// Returns the names.
    #[inline(always)]
    pub fn as_slice(&self) -> &[String]
        ensures { map string_bytes result.now ≡ self.now }
    {
        match &self.held {
            OwnedOrSharedNameList::Own(names) => names,
            OwnedOrSharedNameList::Shared(names) => names.as_slice(),
        }
    }

    /// Returns the same names. It allocates no memory if the list is shared.
    ///
    /// # Errors
    ///
    /// Returns `Err` if the allocation for a list of its own fails.
    #[inline(always)]
    pub fn clone(&self) -> Result<Self, AllocError>
        ensures { IfOk result (λ copy. copy ≡ self.now) }
    {
        match &self.held {
            OwnedOrSharedNameList::Own(names) => Ok(GroupNames::from_owned_names(copy_names(
                names,
            )?)),
            OwnedOrSharedNameList::Shared(names) => Ok(GroupNames {
                held: OwnedOrSharedNameList::Shared(names.clone()?),
            }),
        }
    }
}

// Copies the names. The test for an empty list is inlined: each match has a list, and most patterns
// name no group.
#[inline(always)]
fn copy_names(names: &Vec<String>) -> Result<Vec<String>, AllocError>
    ensures { IfOk result (λ copy. map string_bytes copy.items ≡ map string_bytes names.now.items) }
{
    if names.is_empty() {
        return Ok(Vec::new(*names.allocator()));
    }
    Ok(names.clone()?)
}

impl fmt::Debug for GroupNames {
    fn fmt<W: fmt::Write>(&self, f: &mut fmt::Formatter<W>) -> fmt::Result {
        fmt::Debug::fmt(self.as_slice(), f)
    }
}
