//! Callers of the laws of the crates. Each function cites one or two laws, and its clause follows
//! from them.

ghost use Rattle.std.specs.Prelude.{◌≡◌, ◌==◌, ◌≤◌, ◌<◌, ◌+◌, ◌-◌, ℕ, List, [], ◌∷◌, true, false, Option, Some, None, Result, Ok, Err, IfOk, IfSome, IsAscii, chars, codes, if◌then◌else◌, length};
ghost use Rattle.std.specs.Prelude.{◌⊎◌, IsCharBoundary, option_map, slice_get, string_bytes};
ghost use Rattle.std.specs.List.{list_all};
ghost use Rattle.regex_meaning.specs.{MatchGroupsByNumberAndName.{Answer, answers_from, group_names_by_id}, CodeUnitOffsets.{HasRisingPlaceOffsets, place_at}};
ghost use Rattle.regex_meaning.specs.{Laws.{AreAscendingDisjointAnswersFrom, Each}, Text.{Text, last_place, utf8_text}, Tree.{Flags, Tree, group_ids}};
ghost use Rattle.regex_meaning.specs.{FlagLettersAndEscaping.{flags_from_letters}, SearchAnswers.{answer_at}};
ghost use Rattle.regex_meaning.specs.{Grammar.{Parses, ParsesBy}, EcmaGrammarWithAnnexB.{ecmascript}, GroupNameScan.{scanned_names_per_capturing_group}, GrammarLaws.{literal_tree}};
ghost use Rattle.regress_search.specs.{MatchesAsSpecAnswers.{answer_of}, RemainingAnswers.{NextYields, RemainingView}};
ghost use Rattle.regress_search.specs.MatchesWithinWork.{RemainingAnswersAndWork};
ghost use Rattle.regress_search.specs.CostsOfCalls.{WorkMatchesView, without_costs};
ghost use Rattle.regress_search.specs.declared.{exec.Match.{Match as TheMatch}, exec.SearchError.{SearchError as TheError}};
ghost use Rattle.regress_search.specs.declared.exec.work_matches.WorkError.TheVariants.{WorkLimit};
ghost use Rattle.regress_match.specs.ProgramTreesAndAnswers.{IsCompiledWith, IsCompiledWithSyntax, bytes_as_utf8_text, ascii_answers, tree_for_byte_units, tree_for_16_bit_units, utf8_answers};
ghost use Rattle.regress_match.specs.{ExpansionsAndMatchRanges.{MatchFitsText}, SearchResults.{AreAllResultsNone, NextCallsYield, NextResult, YieldsMatches}};
ghost use Rattle.regress_match.specs.WorkBounds.{NextCallsYieldWithinWork, IsHigherOfProgramWorkBounds, WorkLimitedNextResult, YieldsMatchesIfWorkSuffices, enough_work_for_text};
ghost use Rattle.regress_match.specs.WorkBounds.{NextCallsYieldAtTotalCost, IsNoAllocationFailure, NextCallsYieldAtCost, work_per_unit_limit};
ghost use Rattle.regress_match.specs.declared.api.regex.Regex.{Regex as TheRegex};

use regex_meaning::{
    answer_count_is_bounded, answers_are_ordered_without_overlap, ascii_and_utf8_answers_agree,
    encoded_texts_have_rising_offsets, escaped_utf8_parses_as_literal,
    pattern_has_at_most_one_tree, resuming_after_nonempty_match_yields_rest,
    scan_counts_pattern_groups, scan_finds_group_names,
};
use regress_match::api::{
    call_costs_are_work_spent, calls_within_work_return_matches,
    matches_at_offsets_follow_the_pattern, matches_lie_in_text_in_order,
    replacing_by_match_keeps_text, searches_follow_the_ecmascript_pattern,
    searches_follow_the_pattern, searches_return_matches_in_order,
    searches_return_matches_of_pattern, searches_return_matches_within_work,
    work_per_unit_limit_suffices,
};
use regress_match::exec::{WorkLimitedProducer, match_at_text_end_is_last};
use regress_match::{Error, Match, Matches, Regex, SearchError, escape};
use std::alloc::Global;

// ---- Patterns

/// Compiles the pattern whose matches are the occurrences of `text`: its tree is the sequence of
/// the text's characters.
///
/// # Errors
///
/// The same as `Regex::new`.
pub fn compile_literal(alloc: Global, text: &str) -> Result<Regex, Error>
    ensures { IfOk result (λ re. tree_for_16_bit_units re ≡ literal_tree (flags_from_letters []) (chars text.now)) }
{
    escaped_utf8_parses_as_literal();
    pattern_has_at_most_one_tree();
    let pattern = escape(alloc, text)?;
    Regex::new(alloc, pattern.as_str())
}

/// The groups of a pattern are those that a scan of its text counts and names.
pub fn groups_are_those_of_the_text(re: &Regex)
    ensures { (flags : Flags) (pattern : List ℕ) → IsCompiledWith flags pattern re.now →
        let root = (tree_for_16_bit_units re.now).root in let names = scanned_names_per_capturing_group false pattern in
        (length (group_ids root) ≡ length names)
        × (group_names_by_id root ≡ (if list_all (λ name. length name == 0) names then [] else names)) }
{
    scan_counts_pattern_groups();
    scan_finds_group_names();
}

// ---- Matches

/// Finds the first match in `text`. It is the first answer of the tree that the grammar gives to
/// the pattern.
///
/// # Errors
///
/// The same as `Regex::find`.
pub fn find_first(re: &Regex, text: &str) -> Result<Option<Match>, SearchError>
    ensures { (flags : Flags) (pattern : List ℕ) (tree : Tree) → IsCompiledWith flags pattern re.now
        → Parses flags pattern tree → IfOk result (λ m. option_map answer_of m
        ≡ slice_get (answers_from tree.root (utf8_text text.now flags.unicode) 0) 0) }
{
    searches_follow_the_pattern();
    re.find(text)
}

/// Returns an iterator over the matches in `text` of a pattern of `Syntax::EcmaScript2018`. They
/// are the answers of the tree that the grammar of ECMAScript gives to the pattern.
///
/// # Errors
///
/// The same as `Regex::find_iter`.
pub fn find_each_in_ecmascript<'r, 't>(
    re: &'r Regex,
    text: &'t str,
) -> Result<Matches<'r, 't>, SearchError>
    ensures { (flags : Flags) (pattern : List ℕ) (tree : Tree) → IsCompiledWithSyntax ecmascript flags pattern re.now
        → ParsesBy ecmascript flags pattern tree
        → IfOk result (YieldsMatches tree (utf8_text text.now flags.unicode) 0) }
{
    searches_follow_the_ecmascript_pattern();
    re.find_iter(text)
}

/// Returns the match in `text` that begins at byte offset `at`, a character boundary or past the
/// end. It is that of the tree that the grammar gives to the pattern.
///
/// # Errors
///
/// The same as `Regex::match_at`.
pub fn match_at_offset(re: &Regex, text: &str, at: usize) -> Result<Option<Match>, SearchError>
    requires { IsCharBoundary text.now at ⊎ (length text.now < at) }
    ensures { (flags : Flags) (pattern : List ℕ) (tree : Tree) → IsCompiledWith flags pattern re.now
        → Parses flags pattern tree → IfOk result (λ m. option_map answer_of m
        ≡ answer_at tree.root (utf8_text text.now flags.unicode) at) }
{
    matches_at_offsets_follow_the_pattern();
    re.match_at(text, at)
}

/// Replaces each match by itself, which does not change the text.
///
/// # Errors
///
/// The same as `Regex::replace_all`.
pub fn replace_by_itself(re: &Regex, text: &str) -> Result<String, SearchError>
    ensures { IfOk result (λ made. string_bytes made ≡ text.now) }
{
    replacing_by_match_keeps_text();
    re.replace_all(text, "$0")
}

/// The first match is a slice of the text: it begins and ends at character boundaries.
pub fn first_match_is_a_slice(re: &Regex, text: &str)
    ensures { IfSome (slice_get (utf8_answers re.now text.now 0) 0) (MatchFitsText text.now) }
{
    matches_lie_in_text_in_order();
}

/// The matches are in order, and none overlaps another.
pub fn matches_are_in_order(re: &Regex, text: &str)
    ensures { AreAscendingDisjointAnswersFrom 0 (utf8_answers re.now text.now 0) }
{
    encoded_texts_have_rising_offsets();
    answers_are_ordered_without_overlap();
}

/// There is at most one match more than there are characters.
pub fn match_count_is_bounded(re: &Regex, text: &str)
    ensures { let it = bytes_as_utf8_text re.now text.now in (place : ℕ) → place_at it 0 ≡ Some place
        → length (utf8_answers re.now text.now 0) ≤ last_place it - place + 1 }
{
    encoded_texts_have_rising_offsets();
    answer_count_is_bounded();
}

/// If the first match is not empty, a search from its end finds the remaining matches.
pub fn search_resumes_after_first_match(re: &Regex, text: &str)
    ensures { (m : Answer) (rest : List Answer) → utf8_answers re.now text.now 0 ≡ m ∷ rest → m.range.0 < m.range.1
        → utf8_answers re.now text.now m.range.1 ≡ rest }
{
    encoded_texts_have_rising_offsets();
    resuming_after_nonempty_match_yields_rest();
}

/// Searches for ASCII texts and searches for UTF-8 texts find the same matches in an ASCII text.
pub fn same_matches_in_ascii(re: &Regex, text: &str)
    ensures { IsAscii text.now → ascii_answers re.now text.now 0 ≡ utf8_answers re.now text.now 0 }
{
    ascii_and_utf8_answers_agree();
}

// ---- Iterators

/// After `None`, an iterator over matches always returns `None`.
pub fn none_stays_after_none()
    ensures { (tree : Tree) (text : Text) (start : ℕ) (it behind : RemainingView) (rs : List NextResult)
        → YieldsMatches tree text start it → NextCallsYield it (None ∷ rs) behind → AreAllResultsNone rs }
{
    searches_return_matches_in_order();
}

/// The first match that `next` returns is the first of the tree that the grammar of ECMAScript gives
/// to the pattern.
pub fn first_result_is_first_match()
    ensures { (flags : Flags) (pattern : List ℕ) (re : TheRegex) (tree : Tree)
        → IsCompiledWithSyntax ecmascript flags pattern re → ParsesBy ecmascript flags pattern tree
        → (text : List ℕ) (it behind : RemainingView) (m : TheMatch)
        → YieldsMatches (tree_for_byte_units re) (bytes_as_utf8_text re text) 0 it → NextYields it (Some (Ok m)) behind
        → slice_get (answers_from tree.root (utf8_text text flags.unicode) 0) 0 ≡ Some (answer_of m) }
{
    searches_return_matches_of_pattern();
}

/// After a match that begins at the end of the text, no item follows.
pub fn no_item_follows_match_at_text_end()
    ensures { (before behind later : RemainingView) (m : TheMatch) (item : Result TheMatch TheError)
        → NextYields before (Some (Ok m)) behind → m.range.start ≡ before.text_end
        → NextYields behind (Some item) later → ⊥ }
{
    match_at_text_end_is_last();
}

/// The first item of a search within a work budget is `WorkLimit` only if the budget is less than
/// the bound.
pub fn work_limit_means_too_small_a_budget()
    ensures { (tree : Tree) (text : Text) (start per_unit work : ℕ) (it behind : RemainingAnswersAndWork)
        (rs : List WorkLimitedNextResult)
        → YieldsMatchesIfWorkSuffices tree text start per_unit work it
        → NextCallsYieldWithinWork it (Some (Err WorkLimit) ∷ rs) behind → work < enough_work_for_text per_unit text }
{
    searches_return_matches_within_work();
}

/// If the budget is just what the bound requires and no allocation fails, the calls of a search
/// together cost at most that budget.
pub fn calls_cost_at_most_the_bound<P: WorkLimitedProducer>()
    ensures { (tree : Tree) (text : Text) (start per_unit : ℕ) (it behind : WorkMatchesView P)
        (rs : List WorkLimitedNextResult) → let bound = enough_work_for_text per_unit text in
        YieldsMatchesIfWorkSuffices tree text start per_unit bound (without_costs it)
        → NextCallsYieldAtCost P.costs P.tree P.text P.failures it rs behind → Each IsNoAllocationFailure rs
        → (cost : ℕ) × NextCallsYieldAtTotalCost P.costs P.tree P.text P.failures it rs cost behind ×
        (cost ≤ bound) }
{
    call_costs_are_work_spent::<P>();
}

/// Within any work limit, the first item is the first match of the list, unless it is an error.
pub fn first_item_within_work_is_the_first_match<P: WorkLimitedProducer>()
    ensures { (it behind : WorkMatchesView P) (m : TheMatch) (rs : List WorkLimitedNextResult)
        → NextCallsYieldAtCost P.costs P.tree P.text P.failures it (Some (Ok m) ∷ rs) behind
        → slice_get it.remaining.answers 0 ≡ Some (answer_of m) }
{
    calls_within_work_return_matches::<P>();
}

/// If the budget is computed from the limit of the pattern's bounds, the work suffices, whichever
/// bound is used.
pub fn budget_by_the_limit_is_enough()
    ensures { (re : TheRegex) (text : Text) (start per_unit work : ℕ) (it : RemainingAnswersAndWork) →
        IsHigherOfProgramWorkBounds re per_unit
        → YieldsMatchesIfWorkSuffices (tree_for_byte_units re) text start per_unit work it
        → enough_work_for_text (work_per_unit_limit re) text ≤ work → it.enough ≡ true }
{
    work_per_unit_limit_suffices();
}
