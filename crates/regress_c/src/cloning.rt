//! Copying a pattern from one handle into another.

ghost use Rattle.std.specs.Prelude.{◌≡◌, Some, None};
ghost use Rattle.std.specs.Result.{result_map_both};
ghost use Rattle.regress_c.specs.Compiling.{IsCloneResultForHandle, RepliesCloned};

use crate::pattern::Pattern;
use crate::refusal::{DONE, Refusal};
use regress_match::Regex;
use std::alloc::Global;

/// Puts an equal pattern into an empty handle, and returns the code.
pub(crate) fn clone(alloc: Global, pattern: &mut Pattern, into: &mut Pattern) -> u32
    ensures replies { RepliesCloned pattern.old.held into.old.held into.new.held result }
    ensures kept { pattern.new.held ≡ pattern.old.held }
{
    let Some(re) = pattern.take(alloc) else {
        return Refusal::Empty.code();
    };
    let code = clone_into_handle(alloc, &re, into);
    pattern.put(re);
    code
}

// Puts a copy of a pattern into a handle, and returns the code.
fn clone_into_handle(alloc: Global, re: &Regex, into: &mut Pattern) -> u32
    ensures { RepliesCloned (Some re.now) into.old.held into.new.held result }
{
    if let Some(held) = into.take(alloc) {
        into.put(held);
        return Refusal::Full.code();
    }
    match boxed_clone(alloc, re) {
        Ok(copy) => {
            into.put(copy);
            DONE
        }
        Err(refusal) => refusal.code(),
    }
}

// Returns a copy of a pattern on the heap.
fn boxed_clone(alloc: Global, re: &Regex) -> Result<Box<Regex>, Refusal>
    ensures { IsCloneResultForHandle (Some re.now) None (result_map_both (λ b. b.value) (λ e. e) result) }
{
    Ok(Box::new(alloc, re.clone()?)?)
}
