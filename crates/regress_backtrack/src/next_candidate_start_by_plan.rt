//! The next candidate start of a search.

ghost use Rattle.std.specs.Prelude.{◌≡◌, false};
ghost use Rattle.regex_meaning.specs.CodeUnitOffsets.{IsBoundary};
ghost use Rattle.regress_search.specs.AttemptsAndStarts.{NextStartSkipsNoMatch, NoMatchAt};
ghost use Rattle.regress_machine.specs.SearchFindsFirstOutcomeAtPlace.{TreeProgramCanSearchText};
ghost use Rattle.regress_search.specs.{TreePlanAndText.{program_of}, StartSearch.{IsFirstCandidate}};

use regress_search::search_context::SearchContext;
use regress_search::start_search::{first_candidate, is_candidate};

/// Returns the first candidate start of the plan at an offset or later. Returns `None` if no match
/// begins there.
#[inline(always)]
pub(crate) fn first_candidate_start_from<W: SearchContext>(
    context: &W,
    from: usize,
) -> Option<usize>
    requires at { IsBoundary (W.searching context.now).text from }
    requires executable { let w = W.searching context.now in TreeProgramCanSearchText (program_of w) w.tree w.text }
    ensures first { IsFirstCandidate (W.searching context.now) from result }
    ensures next { let w = W.searching context.now in NextStartSkipsNoMatch w.tree w.text from result }
{
    first_candidate(context, from)
}

/// Checks whether an offset is a candidate start of the plan. If it is not, no match begins there.
#[inline(always)]
pub(crate) fn is_candidate_start<W: SearchContext>(context: &W, at: usize) -> bool
    requires at { IsBoundary (W.searching context.now).text at }
    requires executable { let w = W.searching context.now in TreeProgramCanSearchText (program_of w) w.tree w.text }
    ensures { let w = W.searching context.now in result ≡ false → NoMatchAt w.tree w.text at }
{
    is_candidate(context, at)
}
