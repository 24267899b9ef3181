//! The executors of the public searches, and the function that starts a search with one.

ghost use Rattle.std.specs.Prelude.{◌≡◌, IfErr, IfOk, nat_le, not};
ghost use Rattle.regex_meaning.specs.CodeUnitOffsets.{units, IsBoundaryOrPastEnd, is_past};
ghost use Rattle.regex_pattern_front.specs.AstToSpecTree.{tree_of};
ghost use Rattle.regress_match.specs.{CompileErrors.{IsOutOfMemory}, SearchResults.{YieldsMatches}};

pub use regress_backtrack::classicalbacktrack::{
    BacktrackExecutor, LimitedExecutor, WorkLimitedExecutor,
};
use regress_input::indexing::{AsciiInput, Ucs2Input, Utf8Input, Utf16Input};
use regress_program::insn::CompiledRegex;
use regress_search::exec::{Matches, ProducerFromProgramAndText, SearchError};

/// The executor that searches UTF-8 text.
pub type DefaultExecutor<'r, 't> = BacktrackExecutor<'r, Utf8Input<'t>>;

/// The executor that searches ASCII text.
pub type DefaultAsciiExecutor<'r, 't> = BacktrackExecutor<'r, AsciiInput<'t>>;

/// The executor that searches UTF-16 text.
pub type DefaultUtf16Executor<'r, 't> = BacktrackExecutor<'r, Utf16Input<'t>>;

/// The executor that searches UCS-2 text.
pub type DefaultUcs2Executor<'r, 't> = BacktrackExecutor<'r, Ucs2Input<'t>>;

// Returns the matches of this program from an offset on, as found by the executor `S`.
pub(crate) fn search_with_executor_from<'r, S: ProducerFromProgramAndText<'r>>(
    re: &'r CompiledRegex,
    text: S::Text,
    start: usize,
) -> Result<Matches<S>, SearchError>
    requires executable { S.can_search text }
    requires start { IsBoundaryOrPastEnd (S.text_of text (tree_of re.now).flags.unicode) start }
    ensures answers { IfOk result
        (YieldsMatches (tree_of re.now) (S.text_of text (tree_of re.now).flags.unicode) start) }
    ensures ended { IfOk result (λ it. it.ended
        ≡ is_past start (units (S.text_of text (tree_of re.now).flags.unicode))) }
    ensures refused { IfErr result IsOutOfMemory }
{
    let executor = S::new(re, text)?;
    Ok(Matches::new(executor, start))
}
