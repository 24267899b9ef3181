//! The search for the first match with the pattern of a handle.

ghost use Rattle.std.specs.Prelude.{◌≡◌};
ghost use Rattle.regress_c.specs.Searching.{IsFindResultOfHandle, Replies};

use crate::pattern::Pattern;
use crate::refusal::Refusal;
use crate::reply::{Reply, Span, reply_to_search_result};
use crate::subject::Subject;
use regress_match::Match;
use std::alloc::Global;

/// Searches for the first match, writes its ranges if there is room, and returns the reply.
pub(crate) fn search<S: Subject>(
    alloc: Global,
    pattern: &mut Pattern,
    subject: &S,
    start: usize,
    spans: &mut [Span],
) -> Reply
    ensures replies { Replies pattern.old.held (S.is_text subject.now) (S.can_start subject.now start)
        (λ re. S.coming subject.now re start) spans.old spans.new result }
    ensures kept { pattern.new.held ≡ pattern.old.held }
{
    reply_to_search_result(find(alloc, pattern, subject, start), spans)
}

// Finds the first match with the handle's pattern. The handle holds the pattern again afterwards.
fn find<S: Subject>(
    alloc: Global,
    pattern: &mut Pattern,
    subject: &S,
    start: usize,
) -> Result<Option<Match>, Refusal>
    ensures finds { IsFindResultOfHandle pattern.old.held (S.is_text subject.now) (S.can_start subject.now start)
        (λ re. S.coming subject.now re start) result }
    ensures kept { pattern.new.held ≡ pattern.old.held }
{
    let Some(re) = pattern.take(alloc) else {
        return Err(Refusal::Empty);
    };
    let found = subject.first(&re, start);
    pattern.put(re);
    found
}
