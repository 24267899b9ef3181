//! Types and limits that several modules share.

ghost use Rattle.std.specs.Prelude.{◌≡◌, ℕ, ◌&&◌, not, map, nat_le, IfOk};
ghost use Rattle.regex_meaning.specs.Outcomes.{in_intervals};
ghost use Rattle.regex_meaning.specs.CharacterClasses.{AreCanonicalIntervals};
ghost use Rattle.regex_pattern_front.specs.Intervals.{interval_of};

use crate::codepointset::{CodePointSet, Interval};
use std::alloc::AllocError;

/// The id of a capturing group, from 0 on in order of opening.
pub type CaptureGroupID = u16;

/// The number of a loop in a program.
pub type LoopID = u16;

/// Maximum number of capturing groups in a pattern.
pub const MAX_CAPTURE_GROUPS: usize = 65535;

/// Maximum number of characters in a set that fits one instruction.
pub const MAX_CHAR_SET_LENGTH: usize = 4;

/// A class: the code points of a set or, with `invert`, all others.
#[derive(Drop)]
pub struct BracketContents {
    pub invert: bool,
    pub cps: CodePointSet,
}

impl BracketContents {
    /// Checks whether a number is in the set, regardless of `invert`.
    pub fn contains(&self, c: u32) -> bool
        ensures { result ≡ in_intervals self.now.cps c }
    {
        self.cps.contains(c)
    }

    /// Returns the intervals of the set in increasing order, regardless of `invert`.
    pub fn intervals(&self) -> &[Interval]
        ensures { map interval_of result.now ≡ self.now.cps }
    {
        self.cps.intervals()
    }

    /// Returns the code points that are not in the set, regardless of `invert`.
    ///
    /// # Errors
    ///
    /// Returns an error on allocation failure.
    pub fn inverted(&self) -> Result<CodePointSet, AllocError>
        ensures members { IfOk result (λ s. (c : ℕ) → in_intervals s c
            ≡ (nat_le c 0x10_FFFF && not (in_intervals self.now.cps c))) }
        ensures apart { IfOk result (λ s. AreCanonicalIntervals s) }
    {
        self.cps.inverted()
    }

    /// Returns a copy of the class.
    ///
    /// # Errors
    ///
    /// Returns an error on allocation failure.
    pub fn clone(&self) -> Result<Self, AllocError>
        ensures { IfOk result (λ b. b ≡ self.now) }
    {
        Ok(BracketContents {
            invert: self.invert,
            cps: self.cps.clone()?,
        })
    }
}
