//! The stages below a compiled pattern (parsing, optimizing, emitting), and searches with a chosen
//! executor.

ghost use Rattle.std.specs.Prelude.{◌≡◌, IfErr, IfOk, false, nat_le, not};
ghost use Rattle.regex_meaning.specs.CodeUnitOffsets.{units, IsBoundaryOrPastEnd, is_past};
ghost use Rattle.regress_match.specs.{ProgramTreesAndAnswers.{tree_for_byte_units}, CompileErrors.{IsOutOfMemory}, SearchResults.{YieldsMatches}};

use crate::api::{Regex, SearchError};
use crate::executor_aliases::search_with_executor_from;
pub use crate::executor_aliases::{
    BacktrackExecutor, DefaultAsciiExecutor, DefaultExecutor, DefaultUcs2Executor,
    DefaultUtf16Executor, LimitedExecutor, WorkLimitedExecutor,
};
pub use regex_parser::parse::{diagnose, diagnose_in, try_parse, try_parse_in};
pub use regex_pattern_front::optimizer::optimize;
pub use regress_pikevm::pikevm::PikeVMExecutor;
pub use regress_program::emit::{emit, emit_units};
use regress_search::exec::{Executor, Matches};

/// Returns the matches of a pattern in `text` from offset `start` on, as found by the executor `E`.
///
/// `start` is a boundary or past the end. The text is one that `E` can search.
///
/// # Errors
///
/// `Memory` if an allocation for the search fails.
pub fn find<'a, E: Executor<'a, 'a>>(
    re: &'a Regex,
    text: &'a str,
    start: usize,
) -> Result<Matches<E>, SearchError>
    requires executable { E.can_search text }
    requires start { IsBoundaryOrPastEnd (E.text_of text (tree_for_byte_units re.now).flags.unicode) start }
    ensures answers { IfOk result (YieldsMatches (tree_for_byte_units re.now)
        (E.text_of text.entry (tree_for_byte_units re.now).flags.unicode) start) }
    ensures ended { IfOk result (λ it. it.ended
        ≡ is_past start (units (E.text_of text.entry (tree_for_byte_units re.now).flags.unicode))) }
    ensures refused { IfErr result IsOutOfMemory }
{
    search_with_executor_from::<E>(re.byte_program(), text, start)
}

/// Like `find`, with the executor over ASCII text that corresponds to `E`.
///
/// # Errors
///
/// `Memory` if an allocation for the search fails.
pub fn find_ascii<'a, E: Executor<'a, 'a>>(
    re: &'a Regex,
    text: &'a str,
    start: usize,
) -> Result<Matches<E::AsAscii>, SearchError>
where
    E::AsAscii: Executor<'a, 'a>,
    requires executable { E.AsAscii.can_search text }
    requires start { IsBoundaryOrPastEnd (E.AsAscii.text_of text (tree_for_byte_units re.now).flags.unicode) start }
    ensures answers { IfOk result (YieldsMatches (tree_for_byte_units re.now)
        (E.AsAscii.text_of text.entry (tree_for_byte_units re.now).flags.unicode) start) }
    ensures ended { IfOk result (λ it. it.ended
        ≡ is_past start (units (E.AsAscii.text_of text.entry (tree_for_byte_units re.now).flags.unicode))) }
    ensures refused { IfErr result IsOutOfMemory }
{
    search_with_executor_from::<E::AsAscii>(re.byte_program(), text, start)
}
