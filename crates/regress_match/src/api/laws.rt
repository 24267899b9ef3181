//! Laws of searches for callers to cite. They are functions that do nothing.

ghost use Rattle.regex_meaning.specs.EcmaGrammarWithAnnexB.{ecmascript};
ghost use Rattle.regex_meaning.specs.Grammar.{profile};
ghost use Rattle.regress_match.specs.Laws.{MatchesAtOffsetsFollowGrammar, MatchesLieInTextInOrder, SearchesFollowThePattern, SearchesFollowGrammar};
ghost use Rattle.regress_match.specs.{Laws.{SearchesReturnMatchesOfPattern}, SearchResults.{SearchesReturnMatchesInOrder}};
ghost use Rattle.regress_match.specs.WorkBounds.{SearchesReturnMatchesWithinWork, CallCostsAreWorkSpent, CallsWithinWorkReturnMatches, WorkPerUnitLimitSuffices};

use regress_search::exec::WorkLimitedProducer;

/// A law: a search yields the matches of the list, one after another, and then always `None`. It
/// ends earlier only with the error `Memory`.
///
/// Statement: `specs/SearchResults`.
pub fn searches_return_matches_in_order()
    ensures { SearchesReturnMatchesInOrder }
{}

/// A law: a search within a work budget yields the matches of the list, one after another, and then
/// always `None`. It ends earlier only with `Memory` or `WorkLimit`. `WorkLimit` does not occur if
/// the budget is at least what the pattern's bound requires. The work that is left never exceeds
/// the budget.
///
/// Statement: `specs/WorkBounds`.
pub fn searches_return_matches_within_work()
    ensures { SearchesReturnMatchesWithinWork }
{}

/// A law: if the budget is at least what the pattern's bound requires and no allocation fails, the
/// calls of a search together cost exactly what is taken from the budget. So if the budget is just
/// what the bound requires, they cost at most that.
///
/// Statement: `specs/WorkBounds`.
pub fn call_costs_are_work_spent<P: WorkLimitedProducer>()
    ensures { CallCostsAreWorkSpent P.costs P.tree P.text P.failures }
{}

/// A law: any number of calls of an iterator with a work limit return the matches of its list in
/// order, until the list ends or an error is returned. If none returns an error, together they cost
/// exactly what is taken from the work limit.
///
/// Statement: `specs/WorkBounds`.
pub fn calls_within_work_return_matches<P: WorkLimitedProducer>()
    ensures { CallsWithinWorkReturnMatches P.costs P.tree P.text P.failures }
{}

/// A law: the matches of a compiled pattern in a text, in each encoding, are those of the
/// tree that the grammar gives to the pattern (the only one, by `pattern_has_at_most_one_tree`).
///
/// Statement: `specs/Laws`.
pub fn searches_follow_the_pattern()
    ensures { SearchesFollowThePattern }
{}

/// A law: the same for a pattern of `Syntax::EcmaScript2018`.
///
/// Statement: `specs/Laws`.
pub fn searches_follow_the_ecmascript_pattern()
    ensures { SearchesFollowGrammar ecmascript }
{}

/// A law: the match that begins at an offset (`match_at` and its variants), in each encoding and for
/// both values of `Syntax`, is that of the tree that the grammar gives to the pattern.
///
/// Statement: `specs/Laws`.
pub fn matches_at_offsets_follow_the_pattern()
    ensures profile { MatchesAtOffsetsFollowGrammar profile }
    ensures ecmascript { MatchesAtOffsetsFollowGrammar ecmascript }
{}

/// The main theorem, as a law: the results of successive calls of `next` are the matches of the
/// tree that the grammar gives to the pattern, one after another, and then always `None`, in each
/// encoding and for both values of `Syntax`. They end earlier only with the error `Memory`.
///
/// It follows from `searches_return_matches_in_order`, and from `searches_follow_the_pattern` or
/// `searches_follow_the_ecmascript_pattern`.
///
/// Statement: `specs/Laws`.
pub fn searches_return_matches_of_pattern()
    ensures profile { SearchesReturnMatchesOfPattern profile }
    ensures ecmascript { SearchesReturnMatchesOfPattern ecmascript }
{}

/// A law: the matches of a search are in the text, in ascending order, and do not overlap.
///
/// Statement: `specs/Laws`.
pub fn matches_lie_in_text_in_order()
    ensures { MatchesLieInTextInOrder }
{}

/// A law: no work bound of a pattern exceeds `work_per_unit_limit`, which depends only on its two
/// programs. So a budget computed from that number suffices for every search of the pattern.
///
/// Statement: `specs/WorkBounds`.
pub fn work_per_unit_limit_suffices()
    ensures { WorkPerUnitLimitSuffices }
{}
