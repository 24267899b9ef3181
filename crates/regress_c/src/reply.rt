//! The reply of a search, and the ranges that a search writes into the caller's buffer.

ghost use Rattle.std.specs.Prelude.{◌≡◌, ◌≤◌, ◌+◌, ◌++◌, Ok, Some, drop, length, option_map, take};
ghost use Rattle.regress_c.specs.Replies.{buffer_after_search, reply_to, span_of, spans_of, with_front_overwritten};
ghost use Rattle.regress_search.specs.MatchesAsSpecAnswers.{answer_of, range_as_pair};

use crate::refusal::{DONE, NO_MATCH, Refusal};
use regress_match::{Match, Range};

/// A range of the text, in units. If a group did not match, both ends are `usize::MAX`.
#[repr(C)]
#[derive(Clone, Copy)]
pub struct Span {
    pub start: usize,
    pub end: usize,
}

/// A code and a count. For a search, the count is the number of ranges of the match, or 0 if there
/// is no match.
#[repr(C)]
#[derive(Clone, Copy)]
pub struct Reply {
    pub code: u32,
    pub count: usize,
}

// Returns the span of a range. `None` is the range of a group that did not match.
fn to_span(range: Option<Range<usize>>) -> Span
    ensures { result ≡ span_of (option_map range_as_pair range) }
{
    match range {
        Some(range) => Span {
            start: range.start,
            end: range.end,
        },
        None => Span {
            start: usize::MAX,
            end: usize::MAX,
        },
    }
}

// Writes the `count` ranges of a match to the front of the buffer.
fn write(found: &Match, count: usize, spans: &mut [Span])
    requires all { count ≡ length (spans_of (answer_of found.now)) }
    requires room { count ≤ length spans.old }
    ensures { spans.new ≡ with_front_overwritten (spans_of (answer_of found.now)) spans.old }
{
    for number in 0..count {
        spans[number] = to_span(found.group(number));
    }
}

/// Writes the `count` ranges of a match to the buffer from index `at` on.
pub(crate) fn write_at(found: &Match, count: usize, at: usize, spans: &mut [Span])
    requires all { count ≡ length (spans_of (answer_of found.now)) }
    requires room { at + count ≤ length spans.old }
    ensures { spans.new ≡ take at spans.old ++ spans_of (answer_of found.now) ++ drop (at + count) spans.old }
{
    write(found, count, &mut spans[at..]);
}

/// Returns the reply to the result of a search, and writes the ranges of a match into the buffer if
/// there is room for all of them.
pub(crate) fn reply_to_search_result(
    found: Result<Option<Match>, Refusal>,
    spans: &mut [Span],
) -> Reply
    ensures reply { result ≡ reply_to found (length spans.old) }
    ensures written { spans.new ≡ buffer_after_search found spans.old }
{
    match found {
        Ok(Some(found)) => reply_for_match(&found, spans),
        Ok(None) => Reply {
            code: NO_MATCH,
            count: 0,
        },
        Err(refusal) => refusal.reply(),
    }
}

// Returns the reply for a match.
#[tactic(auto, using(crate::proofs::ReplyLemmas::count_is, crate::proofs::ReplyLemmas::done_reply, crate::proofs::ReplyLemmas::short_reply, crate::proofs::ReplyLemmas::done_left, crate::proofs::ReplyLemmas::short_left))]
fn reply_for_match(found: &Match, spans: &mut [Span]) -> Reply
    ensures reply { result ≡ reply_to (Ok (Some found.now)) (length spans.old) }
    ensures written { spans.new ≡ buffer_after_search (Ok (Some found.now)) spans.old }
{
    let count = found.captures.len() + 1;
    if spans.len() < count {
        let code = Refusal::ShortBuffer.code();
        return Reply { code, count };
    }
    write(found, count, spans);
    Reply { code: DONE, count }
}
