//! The pattern handle of a C caller: a pointer to a pattern on the heap, or null.

ghost use Rattle.std.specs.Prelude.{◌≡◌, None, Option, Some, option_map};
ghost use Rattle.std.specs.Coded.{coded_option};
ghost use Rattle.std.specs.Option.{MatchOption};
ghost use Rattle.regress_c.specs.HeldPattern.{ownership_of_handle};
ghost use Rattle.regress_match.specs.{contracts.api.regex.Regex.{the_row}, declared.api.regex.Regex.{Regex as Compiled}};

use crate::raw_box::RawBox;
use regress_match::Regex;
use std::alloc::Global;
use std::marker::Model;
use std::mem::replace;
use std::ptr::null_mut;

/// A handle. It holds a pattern, or nothing if the pointer is null. Only `take` returns the pattern
/// to be freed, because freeing needs the allocator.
#[repr(C)]
#[derive(Drop)]
pub struct Pattern {
    at: *mut u8,
    pub ghost held: { Option Compiled } by { coded_option the_row.coded },
}

impl Model for Pattern {
    ghost also_owns = { λ p. ownership_of_handle the_row p.at p.held };
}

impl Pattern {
    // Creates a handle that holds a pattern, from its pointer.
    fn of(loose: RawBox<Regex, Global>) -> Pattern
        ensures { result.held ≡ Some loose.value }
    {
        let RawBox { at, alloc: _ } = loose;
        Pattern { at: at as *mut u8 }
    }

    /// Returns a handle that holds nothing.
    pub(crate) fn empty() -> Pattern
        ensures { result.held ≡ None }
    {
        Pattern { at: null_mut() }
    }

    // Returns the pointer and the allocator of the pattern, or `None` if the handle is empty.
    fn into_raw_box(self, alloc: Global) -> Option<RawBox<Regex, Global>>
        ensures { MatchOption result (self.held ≡ None) (λ l. self.held ≡ Some l.value) }
    {
        let Pattern { at } = self;
        if at.is_null() {
            None
        } else {
            Some(RawBox {
                at: at as *mut Regex,
                alloc,
            })
        }
    }

    /// Takes the pattern out of the handle, which becomes empty. Returns `None` if it was empty.
    pub(crate) fn take(&mut self, alloc: Global) -> Option<Box<Regex>>
        ensures taken { option_map (λ b. b.value) result ≡ self.old.held }
        ensures empty { self.new.held ≡ None }
    {
        match replace(self, Pattern::empty()).into_raw_box(alloc) {
            Some(loose) => Some(loose.into_box()),
            None => None,
        }
    }

    /// Puts a pattern into a handle, which must be empty.
    pub(crate) fn put(&mut self, re: Box<Regex>)
        requires { self.old.held ≡ None }
        ensures { self.new.held ≡ Some re.value }
    {
        *self = Pattern::of(RawBox::of(re));
    }
}
