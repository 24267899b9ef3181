//! Start predicates.

ghost use Rattle.std.specs.Prelude.{◌≡◌, IfOk};
ghost use Rattle.regress_program.specs.InsnsAsSpec.{start_predicate_as_spec};
ghost use Rattle.regress_program.specs.StartPredicates.{IsCopyOfPredicate, is_anchored_predicate};

use regex_pattern_front::bytesearch::ByteBitmap;
use std::alloc::AllocError;

/// What the text has to start with, in bytes, at each offset where the pattern matches.
#[derive(Drop)]
pub enum StartPredicate {
    /// Anything.
    Arbitrary,
    /// This byte.
    ByteSet1([u8; 1]),
    /// One of these two bytes.
    ByteSet2([u8; 2]),
    /// One of these three bytes.
    ByteSet3([u8; 3]),
    /// These bytes, at least two.
    ByteSeq(Vec<u8>),
    /// A byte of this set.
    ByteBracket(ByteBitmap),
    /// The pattern matches only at the left end of the text.
    StartAnchored,
}

impl StartPredicate {
    /// Checks whether it says that the pattern matches only at the left end of the text.
    #[inline(always)]
    pub fn is_anchored(&self) -> bool
        ensures { result ≡ is_anchored_predicate (start_predicate_as_spec self.now) }
    {
        matches!(self, StartPredicate::StartAnchored)
    }

    /// Copies the predicate.
    ///
    /// # Errors
    ///
    /// Returns `Err` if the allocation for the copy fails.
    pub fn clone(&self) -> Result<Self, AllocError>
        ensures { IfOk result (IsCopyOfPredicate self.now) }
    {
        let copy = match self {
            StartPredicate::Arbitrary => StartPredicate::Arbitrary,
            StartPredicate::ByteSet1(bytes) => StartPredicate::ByteSet1(*bytes),
            StartPredicate::ByteSet2(bytes) => StartPredicate::ByteSet2(*bytes),
            StartPredicate::ByteSet3(bytes) => StartPredicate::ByteSet3(*bytes),
            StartPredicate::ByteSeq(bytes) => {
                StartPredicate::ByteSeq(Vec::from_slice(*bytes.allocator(), bytes)?)
            }
            StartPredicate::ByteBracket(set) => StartPredicate::ByteBracket(*set),
            StartPredicate::StartAnchored => StartPredicate::StartAnchored,
        };
        Ok(copy)
    }
}
