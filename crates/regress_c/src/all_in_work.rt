//! All matches in a text within a work budget, with the pattern of a handle.

ghost use Rattle.std.specs.Prelude.{◌≡◌, ◌<◌, Some, length};
ghost use Rattle.regex_meaning.specs.Laws.{Each};
ghost use Rattle.regress_search.specs.CostsOfCalls.{without_costs};
ghost use Rattle.regress_c.specs.{AllMatchesInWork.{FillsInWork, RepliesAllInWork, RepliesOutcome, WritesMatchesWithinWork}, Replies.{spans_of}, Searching.{can_start_utf8}, Texts.{range_count}};

use crate::pattern::Pattern;
use crate::refusal::{DONE, NO_MATCH, Refusal};
use crate::reply::{Reply, Span, write_at};
use crate::subject::text_with_valid_start;
use regress_match::{BoundedRegex, Regex};
use regress_search::exec::{WorkLimitedProducer, WorkMatches};
use std::alloc::Global;

/// Writes the matches in a UTF-8 text from an offset on, as many as there is room for. All of them
/// together take at most `work` work. Sets `work` to the work that is left.
pub(crate) fn find_all(
    alloc: Global,
    pattern: &mut Pattern,
    bytes: &[u8],
    start: usize,
    work: &mut u64,
    spans: &mut [Span],
) -> Reply
    ensures replies { RepliesAllInWork pattern.old.held bytes.now start work.old work.new spans.old spans.new result }
    ensures kept { pattern.new.held ≡ pattern.old.held }
{
    let Some(re) = pattern.take(alloc) else {
        return Refusal::Empty.reply();
    };
    let reply = find_all_with_regex(&re, bytes, start, work, spans);
    pattern.put(re);
    reply
}

// Writes the matches with a pattern.
fn find_all_with_regex(
    re: &Regex,
    bytes: &[u8],
    start: usize,
    work: &mut u64,
    spans: &mut [Span],
) -> Reply
    ensures { RepliesOutcome re.now bytes.now start work.old work.new spans.old spans.new result }
{
    match write_all_matches_if_accepted(re, bytes, start, work, spans) {
        Ok(reply) => reply,
        Err(refusal) => refusal.reply(),
    }
}

// Writes the matches with a pattern, unless the call is refused.
fn write_all_matches_if_accepted(
    re: &Regex,
    bytes: &[u8],
    start: usize,
    work: &mut u64,
    spans: &mut [Span],
) -> Result<Reply, Refusal>
    ensures { FillsInWork re.now bytes.now start work.old work.new spans.old spans.new result }
{
    let text = text_with_valid_start(bytes, start)?;
    let ranges = re.group_count() + 1;
    if spans.len() < ranges {
        let code = Refusal::ShortBuffer.code();
        return Ok(Reply {
            code,
            count: ranges,
        });
    }
    let bounded = re.bounded()?;
    let mut matches = bounded.find_from(text, start, *work)?;
    let reply = write_all(&mut matches, ranges, spans);
    *work = matches.work_left();
    Ok(reply)
}

// Writes the remaining matches of an iterator to the buffer, as many as there is room for. Each
// match has `ranges` ranges.
fn write_all<P: WorkLimitedProducer + Drop>(
    matches: &mut WorkMatches<P>,
    ranges: usize,
    spans: &mut [Span],
) -> Reply
    requires some { 0 < ranges }
    requires each { Each (λ m. length (spans_of m) ≡ ranges) matches.old.remaining.answers }
    ensures { WritesMatchesWithinWork ranges (without_costs matches.old) (without_costs matches.new) spans.old spans.new
        result }
{
    let mut count = 0;
    let mut at = 0;
    'written: while spans.len() - at >= ranges {
        match matches.next() {
            Some(Ok(found)) => {
                write_at(&found, ranges, at, spans);
                count += 1;
                at += ranges;
            }
            Some(Err(error)) => {
                let code = Refusal::from(error).code();
                return Reply { code, count };
            }
            None => {
                return Reply {
                    code: NO_MATCH,
                    count,
                };
            }
        }
    }
    Reply { code: DONE, count }
}
