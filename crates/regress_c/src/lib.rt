//! Regular expressions for C: the functions that `c/regress_c.h` declares, over `regress_match`.
//!
//! C callers are not verified, so the functions here require nothing of their arguments beyond
//! their types. Each precondition of `regress_match` is checked at run time, and a violation is
//! reported by a code. `Global` has size zero, so C passes nothing for it. A slice is passed as a
//! pointer followed by a length.
#![tactic(auto)]

ghost use Rattle.std.specs.Prelude.{◌≡◌, IsUtf8, None, Some, chars, length};
ghost use Rattle.std.specs.Char.{len_utf8};
ghost use Rattle.regex_meaning.specs.Text.{utf16_characters, utf16_width};
ghost use Rattle.regress_c.specs.Compiling.{RepliesCloned, RepliesCompileResult, RepliesCompileResultWithSyntax, given, given_with_syntax, unbounded};
ghost use Rattle.regress_c.specs.NextInWork.{RepliesNextInWork};
ghost use Rattle.regress_c.specs.NextMatches.{RepliesNext};
ghost use Rattle.regress_c.specs.{FirstMatchInWork.{RepliesInWork, RepliesWorkBound}, Opening.{OpensUcs2, OpensUtf8, OpensUtf16, RepliesOpened}, AllMatchesInWork.{RepliesAllInWork}, Codes.{done}};
ghost use Rattle.regress_c.specs.GroupNumbers.{group_number_reply_of_handle};
ghost use Rattle.regress_c.specs.Reading.{syntax_of_number};
ghost use Rattle.regress_c.specs.Searching.{Replies, can_start_utf8, can_start_utf16, ucs2_matches_to_come, utf8_matches_to_come, utf16_matches_to_come};
ghost use Rattle.regress_c.specs.{MatchesAt.{ucs2_match_to_come_at, utf16_match_to_come_at, utf8_match_to_come_at}, Messages.{message_of_code}};
ghost use Rattle.regress_c.specs.Texts.{IsEscapeResult, IsGroupNameResultOfHandle, IsReplaceResultOfHandle, RepliesText, RepliesDiagnosis, RepliesDiagnosisWithSyntax, range_count_reply_of_handle};
ghost use Rattle.regress_c.specs.Texts.{buffer_after_text, text_reply};
ghost use Rattle.regress_c.specs.declared.text_replies.ReplacedMatches.TheVariants.{First, All};

mod all_in_work;
mod anchored;
mod cloning;
mod compiling;
mod first_match;
mod first_match_in_work;
mod flags;
mod message;
mod next_in_work;
mod next_matches;
mod opening;
mod pattern;
mod raw_box;
mod refusal;
mod reply;
mod search;
mod source;
mod subject;
mod syntax;
mod text_replies;

use crate::all_in_work::find_all;
use crate::anchored::{AnchoredUcs2, AnchoredUtf8, AnchoredUtf16};
use crate::compiling::{Bounds, compile, compile_with_syntax};
use crate::first_match::search;
use crate::first_match_in_work::{find, write_work_bound};
use crate::next_in_work::write_next_matches_in_work;
use crate::next_matches::write_next_matches;
use crate::opening::open;
use crate::pattern::Pattern;
use crate::refusal::Refusal;
use crate::reply::{Reply, Span, reply_to_search_result};
use crate::search::Search;
use crate::source::{Utf8Source, Utf16Source};
use crate::subject::{Ucs2, Utf8, Utf16};
use crate::text_replies::{ReplacedMatches, reply_group_number, write_group_name};
use regress_match::Syntax;
use std::alloc::Global;

/// The version, encoded as in the header: 10203 for `1.2.3`.
const VERSION: u32 = 200;

/// Returns the version of the library.
#[unsafe(no_mangle)]
pub extern "C" fn regress_c_version() -> u32
    ensures { result ≡ VERSION }
{
    VERSION
}

// ---- Patterns

/// Compiles a UTF-8 pattern with the flags of these letters into an empty handle, and returns a
/// code. If the call is refused, the handle is unchanged.
#[unsafe(no_mangle)]
pub extern "C" fn regress_c_compile_utf8(
    alloc: Global,
    pattern: &mut Pattern,
    text: &[u8],
    flags: &[u8],
) -> u32
    ensures { RepliesCompileResult pattern.old.held (given (IsUtf8 text.now) (chars text.now) flags.now) unbounded
        pattern.new.held result }
{
    compile(
        alloc,
        pattern,
        &Utf8Source { bytes: text },
        flags,
        Syntax::Profile,
        Bounds::NO_PATTERN_BOUNDS,
    )
}

/// Compiles a UTF-8 pattern that is within bounds, like `regress_c_compile_utf8`.
#[unsafe(no_mangle)]
pub extern "C" fn regress_c_compile_utf8_within(
    alloc: Global,
    pattern: &mut Pattern,
    text: &[u8],
    flags: &[u8],
    bounds: &Bounds,
) -> u32
    ensures { RepliesCompileResult pattern.old.held (given (IsUtf8 text.now) (chars text.now) flags.now) bounds.now
        pattern.new.held result }
{
    compile(
        alloc,
        pattern,
        &Utf8Source { bytes: text },
        flags,
        Syntax::Profile,
        *bounds,
    )
}

/// Compiles a UTF-16 pattern, like `regress_c_compile_utf8`.
#[unsafe(no_mangle)]
pub extern "C" fn regress_c_compile_utf16(
    alloc: Global,
    pattern: &mut Pattern,
    text: &[u16],
    flags: &[u8],
) -> u32
    ensures { RepliesCompileResult pattern.old.held (given (Unit {0}) (utf16_characters text.now) flags.now)
        unbounded pattern.new.held result }
{
    compile(
        alloc,
        pattern,
        &Utf16Source { units: text },
        flags,
        Syntax::Profile,
        Bounds::NO_PATTERN_BOUNDS,
    )
}

/// Compiles a UTF-16 pattern that is within bounds, like `regress_c_compile_utf8`.
#[unsafe(no_mangle)]
pub extern "C" fn regress_c_compile_utf16_within(
    alloc: Global,
    pattern: &mut Pattern,
    text: &[u16],
    flags: &[u8],
    bounds: &Bounds,
) -> u32
    ensures { RepliesCompileResult pattern.old.held (given (Unit {0}) (utf16_characters text.now) flags.now)
        bounds.now pattern.new.held result }
{
    compile(
        alloc,
        pattern,
        &Utf16Source { units: text },
        flags,
        Syntax::Profile,
        *bounds,
    )
}

/// Compiles a UTF-8 pattern of the language with this number in the header, and within bounds, like
/// `regress_c_compile_utf8`.
#[unsafe(no_mangle)]
pub extern "C" fn regress_c_compile_utf8_with_syntax(
    alloc: Global,
    pattern: &mut Pattern,
    text: &[u8],
    flags: &[u8],
    syntax: u32,
    bounds: &Bounds,
) -> u32
    ensures { RepliesCompileResultWithSyntax pattern.old.held (syntax_of_number syntax)
        (λ s. given_with_syntax s (IsUtf8 text.now) (chars text.now) flags.now) bounds.now pattern.new.held result }
{
    compile_with_syntax(
        alloc,
        pattern,
        &Utf8Source { bytes: text },
        flags,
        syntax,
        *bounds,
    )
}

/// Compiles a UTF-16 pattern, like `regress_c_compile_utf8_with_syntax`.
#[unsafe(no_mangle)]
pub extern "C" fn regress_c_compile_utf16_with_syntax(
    alloc: Global,
    pattern: &mut Pattern,
    text: &[u16],
    flags: &[u8],
    syntax: u32,
    bounds: &Bounds,
) -> u32
    ensures { RepliesCompileResultWithSyntax pattern.old.held (syntax_of_number syntax)
        (λ s. given_with_syntax s (Unit {0}) (utf16_characters text.now) flags.now) bounds.now pattern.new.held result }
{
    compile_with_syntax(
        alloc,
        pattern,
        &Utf16Source { units: text },
        flags,
        syntax,
        *bounds,
    )
}

/// Writes what is wrong with a UTF-8 pattern, and sets `at` to the offset in bytes at which it
/// begins.
#[unsafe(no_mangle)]
pub extern "C" fn regress_c_diagnose_utf8(
    alloc: Global,
    text: &[u8],
    flags: &[u8],
    at: &mut usize,
    cause: &mut [u8],
) -> Reply
    ensures { RepliesDiagnosis (given (IsUtf8 text.now) (chars text.now) flags.now) len_utf8 at.old cause.old
        at.new cause.new result }
{
    text_replies::diagnosis(
        alloc,
        &Utf8Source { bytes: text },
        flags,
        Syntax::Profile,
        at,
        cause,
    )
}

/// Writes what is wrong with a UTF-16 pattern, and sets `at` to the offset in code units at which
/// it begins.
#[unsafe(no_mangle)]
pub extern "C" fn regress_c_diagnose_utf16(
    alloc: Global,
    text: &[u16],
    flags: &[u8],
    at: &mut usize,
    cause: &mut [u8],
) -> Reply
    ensures { RepliesDiagnosis (given (Unit {0}) (utf16_characters text.now) flags.now) utf16_width at.old
        cause.old at.new cause.new result }
{
    text_replies::diagnosis(
        alloc,
        &Utf16Source { units: text },
        flags,
        Syntax::Profile,
        at,
        cause,
    )
}

/// Writes what is wrong with a UTF-8 pattern of the language with this number in the header, like
/// `regress_c_diagnose_utf8`.
#[unsafe(no_mangle)]
pub extern "C" fn regress_c_diagnose_utf8_with_syntax(
    alloc: Global,
    text: &[u8],
    flags: &[u8],
    syntax: u32,
    at: &mut usize,
    cause: &mut [u8],
) -> Reply
    ensures { RepliesDiagnosisWithSyntax (syntax_of_number syntax)
        (λ s. given_with_syntax s (IsUtf8 text.now) (chars text.now) flags.now) len_utf8 at.old cause.old
        at.new cause.new result }
{
    text_replies::diagnosis_with_syntax(
        alloc,
        &Utf8Source { bytes: text },
        flags,
        syntax,
        at,
        cause,
    )
}

/// Writes what is wrong with a UTF-16 pattern, like `regress_c_diagnose_utf8_with_syntax`.
#[unsafe(no_mangle)]
pub extern "C" fn regress_c_diagnose_utf16_with_syntax(
    alloc: Global,
    text: &[u16],
    flags: &[u8],
    syntax: u32,
    at: &mut usize,
    cause: &mut [u8],
) -> Reply
    ensures { RepliesDiagnosisWithSyntax (syntax_of_number syntax)
        (λ s. given_with_syntax s (Unit {0}) (utf16_characters text.now) flags.now) utf16_width at.old
        cause.old at.new cause.new result }
{
    text_replies::diagnosis_with_syntax(
        alloc,
        &Utf16Source { units: text },
        flags,
        syntax,
        at,
        cause,
    )
}

/// Puts an equal pattern into an empty handle, without compiling it again, and returns a code.
#[unsafe(no_mangle)]
pub extern "C" fn regress_c_clone(alloc: Global, pattern: &mut Pattern, into: &mut Pattern) -> u32
    ensures replies { RepliesCloned pattern.old.held into.old.held into.new.held result }
    ensures kept { pattern.new.held ≡ pattern.old.held }
{
    cloning::clone(alloc, pattern, into)
}

/// Frees the pattern of the handle, if it holds one. The handle is empty afterwards.
#[unsafe(no_mangle)]
pub extern "C" fn regress_c_free(alloc: Global, pattern: &mut Pattern)
    ensures { pattern.new.held ≡ None }
{
    drop(pattern.take(alloc));
}

/// Replies with the number of ranges of a match: one for the whole match, and one for each group.
#[unsafe(no_mangle)]
pub extern "C" fn regress_c_range_count(alloc: Global, pattern: &mut Pattern) -> Reply
    ensures reply { result ≡ range_count_reply_of_handle pattern.old.held }
    ensures kept { pattern.new.held ≡ pattern.old.held }
{
    text_replies::range_count(alloc, pattern)
}

/// Writes the name of a group, in UTF-8.
#[unsafe(no_mangle)]
pub extern "C" fn regress_c_group_name(
    alloc: Global,
    pattern: &mut Pattern,
    number: usize,
    name: &mut [u8],
) -> Reply
    ensures replies { RepliesText (IsGroupNameResultOfHandle pattern.old.held number) name.old name.new result }
    ensures kept { pattern.new.held ≡ pattern.old.held }
{
    let Some(re) = pattern.take(alloc) else {
        return Refusal::Empty.reply();
    };
    let reply = write_group_name(&re, number, name);
    pattern.put(re);
    reply
}

/// Replies with the number of the group with this name, in UTF-8.
#[unsafe(no_mangle)]
pub extern "C" fn regress_c_group_number(alloc: Global, pattern: &mut Pattern, name: &[u8]) -> Reply
    ensures reply { result ≡ group_number_reply_of_handle pattern.old.held name.now }
    ensures kept { pattern.new.held ≡ pattern.old.held }
{
    let Some(re) = pattern.take(alloc) else {
        return Refusal::Empty.reply();
    };
    let reply = reply_group_number(&re, name);
    pattern.put(re);
    reply
}

// ---- The first match

/// Finds the first match in a UTF-8 text from `start` on, an offset in bytes.
#[unsafe(no_mangle)]
pub extern "C" fn regress_c_find_utf8(
    alloc: Global,
    pattern: &mut Pattern,
    text: &[u8],
    start: usize,
    spans: &mut [Span],
) -> Reply
    ensures replies { Replies pattern.old.held (IsUtf8 text.now) (can_start_utf8 text.now start)
        (λ re. utf8_matches_to_come text.now re start) spans.old spans.new result }
    ensures kept { pattern.new.held ≡ pattern.old.held }
{
    search(alloc, pattern, &Utf8 { bytes: text }, start, spans)
}

/// Finds the first match in a UTF-16 text from `start` on, an offset in code units.
#[unsafe(no_mangle)]
pub extern "C" fn regress_c_find_utf16(
    alloc: Global,
    pattern: &mut Pattern,
    text: &[u16],
    start: usize,
    spans: &mut [Span],
) -> Reply
    ensures replies { Replies pattern.old.held (Unit {0}) (can_start_utf16 text.now start)
        (λ re. utf16_matches_to_come text.now re start) spans.old spans.new result }
    ensures kept { pattern.new.held ≡ pattern.old.held }
{
    search(alloc, pattern, &Utf16 { units: text }, start, spans)
}

/// Finds the first match in a UCS-2 text from `start` on, an offset in code units.
#[unsafe(no_mangle)]
pub extern "C" fn regress_c_find_ucs2(
    alloc: Global,
    pattern: &mut Pattern,
    text: &[u16],
    start: usize,
    spans: &mut [Span],
) -> Reply
    ensures replies { Replies pattern.old.held (Unit {0}) (Unit {0}) (λ re. ucs2_matches_to_come text.now re start)
        spans.old spans.new result }
    ensures kept { pattern.new.held ≡ pattern.old.held }
{
    search(alloc, pattern, &Ucs2 { units: text }, start, spans)
}

// ---- The match at one offset

/// Finds the match that begins at `at` in a UTF-8 text, an offset in bytes.
#[unsafe(no_mangle)]
pub extern "C" fn regress_c_match_at_utf8(
    alloc: Global,
    pattern: &mut Pattern,
    text: &[u8],
    at: usize,
    spans: &mut [Span],
) -> Reply
    ensures replies { Replies pattern.old.held (IsUtf8 text.now) (can_start_utf8 text.now at)
        (λ re. utf8_match_to_come_at text.now re at) spans.old spans.new result }
    ensures kept { pattern.new.held ≡ pattern.old.held }
{
    search(alloc, pattern, &AnchoredUtf8 { bytes: text }, at, spans)
}

/// Finds the match that begins at `at` in a UTF-16 text, an offset in code units.
#[unsafe(no_mangle)]
pub extern "C" fn regress_c_match_at_utf16(
    alloc: Global,
    pattern: &mut Pattern,
    text: &[u16],
    at: usize,
    spans: &mut [Span],
) -> Reply
    ensures replies { Replies pattern.old.held (Unit {0}) (can_start_utf16 text.now at)
        (λ re. utf16_match_to_come_at text.now re at) spans.old spans.new result }
    ensures kept { pattern.new.held ≡ pattern.old.held }
{
    search(alloc, pattern, &AnchoredUtf16 { units: text }, at, spans)
}

/// Finds the match that begins at `at` in a UCS-2 text, an offset in code units.
#[unsafe(no_mangle)]
pub extern "C" fn regress_c_match_at_ucs2(
    alloc: Global,
    pattern: &mut Pattern,
    text: &[u16],
    at: usize,
    spans: &mut [Span],
) -> Reply
    ensures replies { Replies pattern.old.held (Unit {0}) (Unit {0})
        (λ re. ucs2_match_to_come_at text.now re at) spans.old spans.new result }
    ensures kept { pattern.new.held ≡ pattern.old.held }
{
    search(alloc, pattern, &AnchoredUcs2 { units: text }, at, spans)
}

// ---- Within a work budget

/// Sets `per_unit` to the work bound of the pattern: for a text of n bytes, `per_unit` × (n + 1)
/// work suffices. Returns a code.
#[unsafe(no_mangle)]
pub extern "C" fn regress_c_work_per_unit(
    alloc: Global,
    pattern: &mut Pattern,
    per_unit: &mut u64,
) -> u32
    ensures replies { RepliesWorkBound pattern.old.held per_unit.old per_unit.new result }
    ensures kept { pattern.new.held ≡ pattern.old.held }
{
    write_work_bound(alloc, pattern, per_unit)
}

/// Finds the first match in a UTF-8 text from `start` on, an offset in bytes, with at most `work`
/// work. Sets `work` to the work that is left.
#[unsafe(no_mangle)]
pub extern "C" fn regress_c_find_utf8_in_work(
    alloc: Global,
    pattern: &mut Pattern,
    text: &[u8],
    start: usize,
    work: &mut u64,
    spans: &mut [Span],
) -> Reply
    ensures replies { RepliesInWork pattern.old.held text.now start work.old work.new spans.old spans.new result }
    ensures kept { pattern.new.held ≡ pattern.old.held }
{
    reply_to_search_result(find(alloc, pattern, text, start, work), spans)
}

/// Writes the matches in a UTF-8 text from `start` on (an offset in bytes), as many as there is
/// room for. All of them together take at most `work` work. Sets `work` to the work that is left.
#[unsafe(no_mangle)]
pub extern "C" fn regress_c_find_all_utf8_in_work(
    alloc: Global,
    pattern: &mut Pattern,
    text: &[u8],
    start: usize,
    work: &mut u64,
    spans: &mut [Span],
) -> Reply
    ensures replies { RepliesAllInWork pattern.old.held text.now start work.old work.new spans.old spans.new result }
    ensures kept { pattern.new.held ≡ pattern.old.held }
{
    find_all(alloc, pattern, text, start, work, spans)
}

// ---- All matches

/// Opens a search in a UTF-8 text from `start` on, an offset in bytes, and returns a code. If the
/// call is refused, `search` is unchanged.
#[unsafe(no_mangle)]
pub extern "C" fn regress_c_search_utf8<'t>(
    search: &mut Search<'t>,
    text: &'t [u8],
    start: usize,
) -> u32
    ensures { RepliesOpened (OpensUtf8 text.now start) search.old search.new result }
{
    open(search, Search::in_utf8(text, start))
}

/// Opens a search in a UTF-16 text from `start` on, an offset in code units, and returns a code.
#[unsafe(no_mangle)]
pub extern "C" fn regress_c_search_utf16<'t>(
    search: &mut Search<'t>,
    text: &'t [u16],
    start: usize,
) -> u32
    ensures { RepliesOpened (OpensUtf16 text.now start) search.old search.new result }
{
    open(search, Search::in_utf16(text, start))
}

/// Opens a search in a UCS-2 text from `start` on, an offset in code units, and returns a code.
#[unsafe(no_mangle)]
pub extern "C" fn regress_c_search_ucs2<'t>(
    search: &mut Search<'t>,
    text: &'t [u16],
    start: usize,
) -> u32
    ensures { RepliesOpened (OpensUcs2 text.now start) search.old search.new result }
{
    open(search, Ok(Search::in_ucs2(text, start)))
}

/// Writes the next matches of a search, as many as there is room for.
#[unsafe(no_mangle)]
pub extern "C" fn regress_c_next(
    alloc: Global,
    pattern: &mut Pattern,
    search: &mut Search<'_>,
    spans: &mut [Span],
) -> Reply
    ensures replies { RepliesNext pattern.old.held search.old search.new None None spans.old spans.new result }
    ensures kept { pattern.new.held ≡ pattern.old.held }
{
    write_next_matches(alloc, pattern, search, None, spans).reply
}

/// Writes the next matches of a search, with at most `steps` steps. Sets `steps` to the steps that
/// are left.
#[unsafe(no_mangle)]
pub extern "C" fn regress_c_next_within(
    alloc: Global,
    pattern: &mut Pattern,
    search: &mut Search<'_>,
    steps: &mut u64,
    spans: &mut [Span],
) -> Reply
    ensures replies { RepliesNext pattern.old.held search.old search.new (Some steps.old) (Some steps.new)
        spans.old spans.new result }
    ensures kept { pattern.new.held ≡ pattern.old.held }
{
    let went = write_next_matches(alloc, pattern, search, Some(*steps), spans);
    if let Some(left) = went.left {
        *steps = left;
    }
    went.reply
}

/// Writes the next matches of a search, with at most `work` work. Sets `work` to the work that is
/// left.
///
/// Each search takes exactly its cost (`work_costs`) from `work`. No bound of the pattern is
/// needed, and no number suffices for every text.
#[unsafe(no_mangle)]
pub extern "C" fn regress_c_next_in_work(
    alloc: Global,
    pattern: &mut Pattern,
    search: &mut Search<'_>,
    work: &mut u64,
    spans: &mut [Span],
) -> Reply
    ensures replies { RepliesNextInWork pattern.old.held search.old search.new work.old work.new spans.old spans.new
        result }
    ensures kept { pattern.new.held ≡ pattern.old.held }
{
    write_next_matches_in_work(alloc, pattern, search, work, spans)
}

/// Closes a search. Then it no longer borrows a text.
#[unsafe(no_mangle)]
pub extern "C" fn regress_c_close(search: &mut Search<'_>)
    ensures { search.new.encoding ≡ 0 }
{
    *search = Search::closed();
}

// ---- Produced texts

/// Writes a UTF-8 text with the first match replaced by the replacement.
#[unsafe(no_mangle)]
pub extern "C" fn regress_c_replace_utf8(
    alloc: Global,
    pattern: &mut Pattern,
    text: &[u8],
    replacement: &[u8],
    made: &mut [u8],
) -> Reply
    ensures replies { RepliesText (IsReplaceResultOfHandle pattern.old.held text.now replacement.now First) made.old
        made.new result }
    ensures kept { pattern.new.held ≡ pattern.old.held }
{
    text_replies::replace(
        alloc,
        pattern,
        text,
        replacement,
        ReplacedMatches::First,
        made,
    )
}

/// Writes a UTF-8 text with each match replaced by the replacement.
#[unsafe(no_mangle)]
pub extern "C" fn regress_c_replace_all_utf8(
    alloc: Global,
    pattern: &mut Pattern,
    text: &[u8],
    replacement: &[u8],
    made: &mut [u8],
) -> Reply
    ensures replies { RepliesText (IsReplaceResultOfHandle pattern.old.held text.now replacement.now All) made.old
        made.new result }
    ensures kept { pattern.new.held ≡ pattern.old.held }
{
    text_replies::replace(
        alloc,
        pattern,
        text,
        replacement,
        ReplacedMatches::All,
        made,
    )
}

/// Writes a UTF-8 text with its syntax characters escaped, so that a pattern matches it literally.
#[unsafe(no_mangle)]
pub extern "C" fn regress_c_escape_utf8(alloc: Global, text: &[u8], escaped: &mut [u8]) -> Reply
    ensures { RepliesText (IsEscapeResult text.now) escaped.old escaped.new result }
{
    text_replies::escaped(alloc, text, escaped)
}

// ---- Messages

/// Writes the text of a code, in ASCII. There is also a text for numbers that are not codes.
#[unsafe(no_mangle)]
pub extern "C" fn regress_c_message_utf8(code: u32, message: &mut [u8]) -> Reply
    ensures reply { result ≡ text_reply done (message_of_code code) (length message.old) }
    ensures written { message.new ≡ buffer_after_text (message_of_code code) message.old }
{
    text_replies::message(code, message)
}
