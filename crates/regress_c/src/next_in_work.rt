//! The next matches of an open search, within a work limit.

ghost use Rattle.std.specs.Prelude.{◌≡◌, Some};
ghost use Rattle.regex_meaning.specs.CodeUnits.{ucs2, utf16, utf8};
ghost use Rattle.regress_backtrack.specs.WorkOfAttempts.{work_costs};
ghost use Rattle.regress_match.specs.ProgramTreesAndAnswers.{bytes_as_utf8_text, units_as_ucs2_text, units_as_utf16_text, tree_for_byte_units, tree_for_16_bit_units};
ghost use Rattle.regress_c.specs.NextInWork.{FillsInWork, FillsInWorkFrom, IsWorkSpentIf, RepliesNextInWork};
ghost use Rattle.regress_c.specs.Searching.{can_start_utf8, can_start_utf16};

use crate::next_matches::{Filled, fill, number_of_ranges};
use crate::opening::{splits_surrogate_pair, splits_utf8_character};
use crate::pattern::Pattern;
use crate::refusal::Refusal;
use crate::reply::{Reply, Span};
use crate::search::{Encoding, Search};
use regress_match::Regex;
use regress_search::exec::WorkLimitedProducer;
use std::alloc::Global;

/// The result of writing matches within a work limit.
#[derive(Clone, Copy)]
pub(crate) struct FilledInWork {
    pub(crate) filled: Filled,
    /// Whether the last search reached the work limit.
    pub(crate) out: bool,
}

/// Writes the next matches of a search with the handle's pattern, as many as there is room for.
/// Takes their work from `work`.
///
/// The spans, the reply and the work left are those of one outcome of the call (see
/// `specs/NextInWork`). The handle keeps its pattern.
pub(crate) fn write_next_matches_in_work(
    alloc: Global,
    pattern: &mut Pattern,
    search: &mut Search<'_>,
    work: &mut u64,
    spans: &mut [Span],
) -> Reply
    ensures replies { RepliesNextInWork pattern.old.held search.old search.new work.old work.new spans.old
        spans.new result }
    ensures kept { pattern.new.held ≡ pattern.old.held }
{
    let Some(re) = pattern.take(alloc) else {
        return Refusal::Empty.reply();
    };
    let reply = write_in_work_with_regex(&re, search, work, spans);
    pattern.put(re);
    reply
}

// Writes the next matches of a search with this pattern.
fn write_in_work_with_regex(
    re: &Regex,
    search: &mut Search<'_>,
    work: &mut u64,
    spans: &mut [Span],
) -> Reply
    ensures { RepliesNextInWork (Some re.now) search.old search.new work.old work.new spans.old spans.new result }
{
    let Some(encoding) = search.encoding() else {
        return Refusal::NotOpen.reply();
    };
    let ranges = number_of_ranges(re, encoding);
    if spans.len() < ranges {
        let code = Refusal::ShortBuffer.code();
        return Reply {
            code,
            count: ranges,
        };
    }
    match fill_in_work(re, search, encoding, work, spans) {
        Ok(written) => {
            search.next = written.filled.next;
            Reply {
                code: written.filled.stop.code_in_work(written.out),
                count: written.filled.matches,
            }
        }
        Err(refusal) => refusal.reply(),
    }
}

// Writes the next matches of a search in this encoding.
fn fill_in_work(
    re: &Regex,
    search: &Search<'_>,
    encoding: Encoding,
    work: &mut u64,
    spans: &mut [Span],
) -> Result<FilledInWork, Refusal>
    ensures { FillsInWork re.now search.now encoding work.old work.new spans.old spans.new result }
{
    let start = search.next;
    match encoding {
        Encoding::Utf8 => fill_utf8_in_work(re, search.text(), start, work, spans),
        Encoding::Utf16 => fill_utf16_in_work(re, search.units, start, work, spans),
        Encoding::Ucs2 => fill_ucs2_in_work(re, search.units, start, work, spans),
    }
}

// Writes the next matches in a UTF-8 text.
// The clause of this and of the next functions says that the tree's matches from `start` on are
// written and their work is taken, or that the call is refused and changes nothing
// (`FillsInWorkFrom`).
fn fill_utf8_in_work(
    re: &Regex,
    text: &str,
    start: usize,
    work: &mut u64,
    spans: &mut [Span],
) -> Result<FilledInWork, Refusal>
    ensures { FillsInWorkFrom (work_costs utf8) (tree_for_byte_units re.now) (bytes_as_utf8_text re.now text.now)
        start work.old work.new (can_start_utf8 text.now start) spans.old spans.new result }
{
    if splits_utf8_character(text, start) {
        return Err(Refusal::NotBoundary);
    }
    let mut executor = re.utf8_search_in_work(text, *work)?;
    let filled = fill(&mut executor, start, re.group_count() + 1, spans);
    Ok(with_work_left(&executor, filled, work))
}

// Writes the next matches in a UTF-16 text.
fn fill_utf16_in_work(
    re: &Regex,
    units: &[u16],
    start: usize,
    work: &mut u64,
    spans: &mut [Span],
) -> Result<FilledInWork, Refusal>
    ensures { FillsInWorkFrom (work_costs utf16) (tree_for_16_bit_units re.now) (units_as_utf16_text re.now units.now)
        start work.old work.new (can_start_utf16 units.now start) spans.old spans.new result }
{
    if splits_surrogate_pair(units, start) {
        return Err(Refusal::NotBoundary);
    }
    let mut executor = re.utf16_search_in_work(units, *work)?;
    let filled = fill(&mut executor, start, re.unit_group_count() + 1, spans);
    Ok(with_work_left(&executor, filled, work))
}

// Writes the next matches in a UCS-2 text.
fn fill_ucs2_in_work(
    re: &Regex,
    units: &[u16],
    start: usize,
    work: &mut u64,
    spans: &mut [Span],
) -> Result<FilledInWork, Refusal>
    ensures { FillsInWorkFrom (work_costs ucs2) (tree_for_16_bit_units re.now) (units_as_ucs2_text re.now units.now)
        start work.old work.new (Unit {0}) spans.old spans.new result }
{
    let mut executor = re.ucs2_search_in_work(units, *work)?;
    let filled = fill(&mut executor, start, re.unit_group_count() + 1, spans);
    Ok(with_work_left(&executor, filled, work))
}

// Returns what was written, with whether the last search reached the work limit. Sets `work` to the
// work that is left.
fn with_work_left<P: WorkLimitedProducer>(
    producer: &P,
    filled: Filled,
    work: &mut u64,
) -> FilledInWork
    ensures filled { result.filled ≡ filled }
    ensures out { result.out ≡ P.out_of_work producer.now }
    ensures left { work.new ≡ P.left producer.now }
    ensures spent { IsWorkSpentIf result.out work.new }
{
    let out = producer.is_work_exhausted();
    *work = producer.work_left();
    FilledInWork { filled, out }
}
