//! The next matches of an open search.

ghost use Rattle.std.specs.Prelude.{◌≡◌, ◌<◌, ◌≤◌, ◌+◌, ◌++◌, None, Some, drop, length, take};
ghost use Rattle.regress_c.specs.Codes.{code_of_refusal};
ghost use Rattle.regress_c.specs.NextInWork.{TakesWorkOfMatches, code_of_stop_in_work};
ghost use Rattle.regress_c.specs.NextMatches.{Fills, FillsFrom, FillsInEncoding, RepliesNext, code_of_stop_reason, number_of_ranges as spec_number_of_ranges, tree_for_encoding};
ghost use Rattle.regress_c.specs.{Searching.{can_start_utf8, can_start_utf16}, Replies.{spans_of}};
ghost use Rattle.regex_meaning.specs.CodeUnitOffsets.{units, IsBoundaryOrPastEnd};
ghost use Rattle.regress_search.specs.CostsOfSearches.{IfWorkIsCounted};
ghost use Rattle.regress_search.specs.MatchesAsSpecAnswers.{answer_of};
ghost use Rattle.regress_match.specs.ProgramTreesAndAnswers.{units_as_ucs2_text, units_as_utf16_text, bytes_as_utf8_text, tree_for_byte_units, tree_for_16_bit_units};

use crate::opening::{splits_surrogate_pair, splits_utf8_character};
use crate::pattern::Pattern;
use crate::refusal::{DONE, NO_MATCH, Refusal};
use crate::reply::{Reply, Span, write_at};
use crate::search::{Encoding, Search};
use regress_match::{MatchAndNext, Regex, SearchError, next_from};
use regress_search::search_loop::SingleAttemptExecutor;
use std::alloc::Global;

/// Why no further match was written.
#[derive(Clone, Copy)]
pub(crate) enum Stop {
    /// There is no room for one more match.
    Full,
    /// No match remains.
    Over,
    /// The search for the next match failed.
    Refused(SearchError),
}

impl Stop {
    // Returns the code that reports why no further match was written.
    fn code(self) -> u32
        ensures { result ≡ code_of_stop_reason self }
    {
        match self {
            Stop::Full => DONE,
            Stop::Over => NO_MATCH,
            Stop::Refused(error) => Refusal::from(error).code(),
        }
    }

    /// Returns the code that reports why a call with a work limit wrote no further match. `out` says
    /// whether the last search reached the limit.
    pub(crate) fn code_in_work(self, out: bool) -> u32
        ensures { result ≡ code_of_stop_in_work self out }
    {
        match self {
            Stop::Refused(_) if out => Refusal::WorkLimit.code(),
            _ => self.code(),
        }
    }
}

/// The result of writing matches: their number, the offset at which the list continues after them,
/// and why no more were written.
#[derive(Clone, Copy)]
pub(crate) struct Filled {
    pub(crate) matches: usize,
    pub(crate) next: usize,
    pub(crate) stop: Stop,
    /// The number of steps that are left, if steps are counted.
    pub(crate) left: Option<u64>,
}

/// The reply of a call, and the number of steps that are left, if steps are counted.
#[derive(Clone, Copy)]
pub(crate) struct CallOutcome {
    pub(crate) reply: Reply,
    pub(crate) left: Option<u64>,
}

/// Writes the next matches of a search with the handle's pattern, as many as there is room for. If
/// steps are counted, returns the number that is left.
///
/// The spans, the reply and the steps left are those of one outcome of the call (see
/// `specs/NextMatches`). The handle keeps its pattern.
pub(crate) fn write_next_matches(
    alloc: Global,
    pattern: &mut Pattern,
    search: &mut Search<'_>,
    steps: Option<u64>,
    spans: &mut [Span],
) -> CallOutcome
    ensures replies { RepliesNext pattern.old.held search.old search.new steps result.left spans.old
        spans.new result.reply }
    ensures kept { pattern.new.held ≡ pattern.old.held }
{
    let Some(re) = pattern.take(alloc) else {
        return refused(Refusal::Empty, steps);
    };
    let went = write_next_matches_with_regex(&re, search, steps, spans);
    pattern.put(re);
    went
}

// Writes the next matches of a search with this pattern.
fn write_next_matches_with_regex(
    re: &Regex,
    search: &mut Search<'_>,
    steps: Option<u64>,
    spans: &mut [Span],
) -> CallOutcome
    ensures { RepliesNext (Some re.now) search.old search.new steps result.left spans.old spans.new result.reply }
{
    let Some(encoding) = search.encoding() else {
        return refused(Refusal::NotOpen, steps);
    };
    let ranges = number_of_ranges(re, encoding);
    if spans.len() < ranges {
        let code = Refusal::ShortBuffer.code();
        let reply = Reply {
            code,
            count: ranges,
        };
        return CallOutcome { reply, left: steps };
    }
    match fill_in_encoding(re, search, encoding, steps, spans) {
        Ok(filled) => {
            search.next = filled.next;
            let reply = Reply {
                code: filled.stop.code(),
                count: filled.matches,
            };
            CallOutcome {
                reply,
                left: filled.left,
            }
        }
        Err(refusal) => refused(refusal, steps),
    }
}

// Returns the result of a refused call, which takes no steps.
fn refused(refusal: Refusal, steps: Option<u64>) -> CallOutcome
    ensures { result ≡ record { reply = record { code = code_of_refusal refusal; count = 0 }; left = steps } }
{
    let reply = refusal.reply();
    CallOutcome { reply, left: steps }
}

/// Returns the number of ranges of a match.
pub(crate) fn number_of_ranges(re: &Regex, encoding: Encoding) -> usize
    ensures { result ≡ spec_number_of_ranges (tree_for_encoding re.now encoding) }
{
    match encoding {
        Encoding::Utf8 => re.group_count() + 1,
        Encoding::Utf16 | Encoding::Ucs2 => re.unit_group_count() + 1,
    }
}

// Writes the next matches of a search in this encoding. Steps are counted in UTF-8 only.
fn fill_in_encoding(
    re: &Regex,
    search: &Search<'_>,
    encoding: Encoding,
    steps: Option<u64>,
    spans: &mut [Span],
) -> Result<Filled, Refusal>
    ensures { FillsInEncoding re.now search.now encoding steps spans.old spans.new result }
{
    let start = search.next;
    match (encoding, steps) {
        (Encoding::Utf8, None) => in_utf8(re, search.text(), start, spans),
        (Encoding::Utf8, Some(steps)) => write_utf8_matches_within_steps(
            re,
            search.text(),
            start,
            steps,
            spans,
        ),
        (Encoding::Utf16, None) => in_utf16(re, search.units, start, spans),
        (Encoding::Ucs2, None) => in_ucs2(re, search.units, start, spans),
        (Encoding::Utf16 | Encoding::Ucs2, Some(_)) => Err(Refusal::NotCounted),
    }
}

// Writes the next matches in a UTF-8 text.
// The clause of this and of the next functions says that the tree's matches from `start` on are
// written, or that the call is refused and writes nothing (`FillsFrom`).
fn in_utf8(re: &Regex, text: &str, start: usize, spans: &mut [Span]) -> Result<Filled, Refusal>
    ensures { FillsFrom (tree_for_byte_units re.now) (bytes_as_utf8_text re.now text.now)
        (can_start_utf8 text.now start) None start spans.old spans.new result }
{
    if splits_utf8_character(text, start) {
        return Err(Refusal::NotBoundary);
    }
    let mut executor = re.utf8_search(text)?;
    Ok(fill(&mut executor, start, re.group_count() + 1, spans))
}

// Writes the next matches in a UTF-8 text, with at most `steps` steps.
fn write_utf8_matches_within_steps(
    re: &Regex,
    text: &str,
    start: usize,
    steps: u64,
    spans: &mut [Span],
) -> Result<Filled, Refusal>
    ensures { FillsFrom (tree_for_byte_units re.now) (bytes_as_utf8_text re.now text.now)
        (can_start_utf8 text.now start) (Some steps) start spans.old spans.new result }
{
    if splits_utf8_character(text, start) {
        return Err(Refusal::NotBoundary);
    }
    let mut executor = re.utf8_search_limited(text, steps)?;
    let mut filled = fill(&mut executor, start, re.group_count() + 1, spans);
    filled.left = Some(executor.steps_left());
    Ok(filled)
}

// Writes the next matches in a UTF-16 text.
fn in_utf16(re: &Regex, units: &[u16], start: usize, spans: &mut [Span]) -> Result<Filled, Refusal>
    ensures { FillsFrom (tree_for_16_bit_units re.now) (units_as_utf16_text re.now units.now)
        (can_start_utf16 units.now start) None start spans.old spans.new result }
{
    if splits_surrogate_pair(units, start) {
        return Err(Refusal::NotBoundary);
    }
    let mut executor = re.utf16_search(units)?;
    Ok(fill(&mut executor, start, re.unit_group_count() + 1, spans))
}

// Writes the next matches in a UCS-2 text.
fn in_ucs2(re: &Regex, units: &[u16], start: usize, spans: &mut [Span]) -> Result<Filled, Refusal>
    ensures { FillsFrom (tree_for_16_bit_units re.now) (units_as_ucs2_text re.now units.now) (Unit {0}) None
        start spans.old spans.new result }
{
    let mut executor = re.ucs2_search(units)?;
    Ok(fill(&mut executor, start, re.unit_group_count() + 1, spans))
}

/// Writes matches from an offset on, as many as there is room for. Each match has `ranges` ranges.
/// The clause `cost` says which work is taken, if the search counts work.
pub(crate) fn fill<E: SingleAttemptExecutor>(
    search: &mut E,
    start: usize,
    ranges: usize,
    spans: &mut [Span],
) -> Filled
    requires starts { IsBoundaryOrPastEnd (E.text search.old) start }
    requires ranges { ranges ≡ spec_number_of_ranges (E.tree search.old) }
    ensures fills { Fills (E.tree search.old) (E.text search.old) (E.budget search.old) start spans.old
        spans.new result (E.budget search.new) }
    ensures cost { IfWorkIsCounted E.counts_work (TakesWorkOfMatches E.costs (E.tree search.old)
        (E.text search.old) (E.failures search.old) start (E.left search.old) result.matches result.stop
        (E.out_of_work search.new) (E.left search.new)) }
    ensures unset { result.left ≡ None }
{
    let mut filled = Filled {
        matches: 0,
        next: start,
        stop: Stop::Full,
        left: None,
    };
    let mut at = 0;
    'matches: while spans.len() - at >= ranges {
        match next_from(search, filled.next) {
            Ok(Some(step)) => {
                filled.next = write_step(step, ranges, at, spans);
                filled.matches += 1;
                at += ranges;
            }
            Ok(None) => {
                filled.next = offset_past_every_text(search);
                filled.stop = Stop::Over;
                return filled;
            }
            Err(error) => {
                filled.stop = Stop::Refused(error);
                return filled;
            }
        }
    }
    filled
}

// Writes the `count` ranges of a match to the buffer from index `at` on. Returns the offset at
// which the list of matches continues.
#[inline(always)]
fn write_step(step: MatchAndNext, count: usize, at: usize, spans: &mut [Span]) -> usize
    requires all { count ≡ length (spans_of (answer_of step.found)) }
    requires room { at + count ≤ length spans.old }
    ensures next { result ≡ step.next }
    ensures written { spans.new ≡ take at spans.old ++ spans_of (answer_of step.found) ++ drop (at + count) spans.old }
{
    write_at(&step.found, count, at, spans);
    step.next
}

// Returns `usize::MAX`, which is past the end of every text.
fn offset_past_every_text<E: SingleAttemptExecutor>(search: &E) -> usize
    ensures max_u64 { result ≡ usize.MAX }
    ensures past { units (E.text search.now) < result }
{
    let _input = search.input();
    usize::MAX
}
