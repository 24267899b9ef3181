//! Skips the char loop or the word characters with which each match begins, or the units before a
//! repeated character with which each match begins.

ghost use Rattle.std.specs.Prelude.{◌≡◌, ◌≤◌, ◌<◌, ◌+◌, ℕ, true, false, Some, IfSome, option_and_then, option_map, slice_get};
ghost use Rattle.regex_meaning.specs.CodeUnitOffsets.{IsBoundary, units};
ghost use Rattle.regress_machine.specs.SearchFindsFirstOutcomeAtPlace.{TreeProgramCanSearchText};
ghost use Rattle.regress_program.specs.{Plans.{op_as_char_loop}, TableKeysOfUnits.{is_16_bit_encoding}, LeadingCharLoops.{OnlyOpensGroups}};
ghost use Rattle.regress_search.specs.DeadThreads.{MatchFailureExtendsUntil, BeginsWithRepeatedChar, NextUnitDoesNotRepeatCharUnit, may_be_char_unit};
ghost use Rattle.regress_search.specs.{CharLoopExits.{HasScannedClassCharsTo, ClassFitsText}, TreePlanAndText.{PlanFitsProgram, program_of}, WideUnits.{AcceptsNoTrailSurrogate}};

use crate::class_char_and_table_lookups::unit_at_offset;
use crate::class_scan::{scan_chars_of_class_end, scan_single_unit_chars};
use crate::search_context::{SearchContext, text_end};
use crate::unit_runs::{KeyTest, count_passing};
use regress_input::cursor::Forward;
use regress_input::front::Sameness;
use regress_input::indexing::{CodeUnitEncoding, HasUnitType};
use regress_program::char_class_tables::Class;
use regress_program::ops::{CharLoop, Op};

/// Each match begins with the char loop after `opens` instructions that open groups, or with a word
/// boundary. Returns the offset at which this loop, or a run of word characters, ends if it begins
/// at `from`. If no match begins at `from`, no match begins before the returned offset: it would
/// continue where a match from `from` continues. If each match begins with a repeated character of
/// one unit, returns the next offset at which a unit is repeated. Returns `from` if matches begin
/// otherwise, or if the loop's maximum is less than the length of the text.
#[inline(always)]
pub fn skip_leading_char_loop<W: SearchContext>(context: &W, opens: usize, from: usize) -> usize
    requires opens { OnlyOpensGroups (W.searching context.now).plan opens }
    requires at { IsBoundary (W.searching context.now).text from }
    requires executable { let w = W.searching context.now in TreeProgramCanSearchText (program_of w) w.tree w.text }
    ensures at { IsBoundary (W.searching context.now).text result }
    ensures no_match { MatchFailureExtendsUntil (W.searching context.now) from result }
{
    let Some(op) = context.op_at(opens) else {
        return from;
    };
    if let Op::WordEdge(_) = *op {
        return end_of_leading_word_chars(context, from);
    }
    if let Op::OpenGroup(_) = *op {
        return skip_to_repeated_unit(context, from);
    }
    match op.as_char_loop() {
        Some(run) => skip_run_of_leading_char_loop(context, opens, run, from),
        None => from,
    }
}

/// The keys of word characters, which are units below 128.
struct WordKeys;

impl KeyTest for WordKeys {
    ghost use Rattle.regex_meaning.specs.Text.{is_word_char};

    ghost key_passes = { λ _ key. is_word_char false key };

    #[inline(always)]
    fn passes_key(&self, key: usize) -> bool {
        0x61 <= key && key <= 0x7A
            || 0x41 <= key && key <= 0x5A
            || 0x30 <= key && key <= 0x39
            || key == 0x5F
    }
}

// Returns the end of the word characters from `from` on, if each match begins with a word boundary.
// No word boundary is between two of the characters.
#[inline(always)]
fn end_of_leading_word_chars<W: SearchContext>(context: &W, from: usize) -> usize
    requires at { IsBoundary (W.searching context.now).text from }
    requires executable { let w = W.searching context.now in TreeProgramCanSearchText (program_of w) w.tree w.text }
    ensures at { IsBoundary (W.searching context.now).text result }
    ensures no_match { MatchFailureExtendsUntil (W.searching context.now) from result }
{
    let Some(Op::WordEdge(edge)) = context.op_at(0) else {
        return from;
    };
    if edge.invert {
        return from;
    }
    let left = text_end(context) - from;
    from + count_passing(context, &WordKeys, from, left)
}

// Returns the first offset from `from` on of a unit that the next one repeats, or the end of the
// text, if each match begins with a group of a character of one unit that a backreference repeats.
#[inline(always)]
fn skip_to_repeated_unit<W: SearchContext>(context: &W, from: usize) -> usize
    requires at { IsBoundary (W.searching context.now).text from }
    requires executable { let w = W.searching context.now in TreeProgramCanSearchText (program_of w) w.tree w.text }
    ensures at { IsBoundary (W.searching context.now).text result }
    ensures no_match { MatchFailureExtendsUntil (W.searching context.now) from result }
{
    let Some(number) = number_of_repeated_leading_class(context) else {
        return from;
    };
    let Some(class) = class_by_number(context, number) else {
        return from;
    };
    if !class.single_unit || may_have_trail_surrogates::<W>(class) {
        return from;
    }
    next_repeated_unit(context, from)
}

// Checks whether the class may contain a 16-bit unit that is a trail surrogate, which has the key 238
// or 239.
#[inline(always)]
fn may_have_trail_surrogates<W: SearchContext>(class: &Class) -> bool
    ensures { result ≡ false → is_16_bit_encoding W.Input.Units.encoding ≡ true → AcceptsNoTrailSurrogate class.now }
{
    if <<W::Input as HasUnitType>::Units as CodeUnitEncoding>::ARE_BYTES {
        return false;
    }
    class.steps[238] != 0 || class.steps[239] != 0
}

// Returns the class with this number, or `None` if there is none.
#[inline(always)]
fn class_by_number<W: SearchContext>(context: &W, number: u32) -> Option<&Class>
    ensures class { let classes = (W.searching context.now).plan.classes.items in
        option_map (λ class. class.now) result ≡ slice_get classes number }
    ensures plan_fits { PlanFitsProgram (W.searching context.now) }
{
    context.plan().classes.get(number as usize)
}

// Returns the number of the class of one character in a group with which each match begins, and
// which a backreference repeats; `None` if matches begin otherwise.
#[inline(always)]
fn number_of_repeated_leading_class<W: SearchContext>(context: &W) -> Option<u32>
    ensures { IfSome result (BeginsWithRepeatedChar (W.searching context.now).plan) }
{
    let Some(Op::OpenGroup(group)) = context.op_at(0) else {
        return None;
    };
    let Some(Op::One(number)) = context.op_at(1) else {
        return None;
    };
    let Some(Op::CloseGroup(closed)) = context.op_at(2) else {
        return None;
    };
    let Some(Op::MatchBackref(again)) = context.op_at(3) else {
        return None;
    };
    let Sameness::Exact = again.same else {
        return None;
    };
    if *closed == *group && again.slot == *group {
        Some(*number)
    } else {
        None
    }
}

// Returns the first offset from `from` on of a unit that may be a character and that the next one
// repeats, or the end of the text.
#[inline(always)]
fn next_repeated_unit<W: SearchContext>(context: &W, from: usize) -> usize
    requires { IsBoundary (W.searching context.now).text from }
    ensures at { IsBoundary (W.searching context.now).text result }
    ensures alone { (at : ℕ) → from ≤ at → at < result → NextUnitDoesNotRepeatCharUnit (W.searching context.now) at }
{
    let end = text_end(context);
    let mut at = from;
    'units: while end - at > 1 {
        if is_char_unit_repeated_next(context, at) {
            return at;
        }
        at += 1;
    }
    end
}

// Checks whether the unit at an offset may be a character, and the next one repeats it.
#[inline(always)]
fn is_char_unit_repeated_next<W: SearchContext>(context: &W, at: usize) -> bool
    requires { at + 1 < units (W.searching context.now).text }
    ensures boundary { result ≡ true → IsBoundary (W.searching context.now).text at }
    ensures alone { result ≡ false → NextUnitDoesNotRepeatCharUnit (W.searching context.now) at }
{
    let unit = unit_at_offset(context, at);
    if !may_be_char::<W>(unit) {
        return false;
    }
    unit == unit_at_offset(context, at + 1)
}

// Checks whether a unit begins a character and may be all of it: a byte below 128, or a 16-bit unit
// that is no trail surrogate.
#[inline(always)]
fn may_be_char<W: SearchContext>(unit: u32) -> bool
    ensures { result ≡ may_be_char_unit (is_16_bit_encoding W.Input.Units.encoding) unit }
{
    if <<W::Input as HasUnitType>::Units as CodeUnitEncoding>::ARE_BYTES {
        unit < 128
    } else {
        unit < 0xDC00 || 0xE000 <= unit
    }
}

// Does what `skip_leading_char_loop` does, for a char loop that exists.
// Contract: the loop `run` follows `opens` operations that open groups. `executable` says that the
// program can search the text. `no_match` says that if no match begins at the boundary `from`, none
// begins between it and the result, which is a boundary too.
#[inline(always)]
fn skip_run_of_leading_char_loop<W: SearchContext>(
    context: &W,
    opens: usize,
    run: CharLoop,
    from: usize,
) -> usize
    requires opens { OnlyOpensGroups (W.searching context.now).plan opens }
    requires run { let ops = (W.searching context.now).plan.ops.items in
        option_and_then op_as_char_loop (slice_get ops opens) ≡ Some run }
    requires at { IsBoundary (W.searching context.now).text from }
    requires executable { let w = W.searching context.now in TreeProgramCanSearchText (program_of w) w.tree w.text }
    ensures at { IsBoundary (W.searching context.now).text result }
    ensures no_match { MatchFailureExtendsUntil (W.searching context.now) from result }
{
    let Some(class) = class_by_number(context, run.class) else {
        return from;
    };
    let most = context.char_loop_bounds_with_number(run.bounds).max;
    let end = text_end(context);
    if most < end {
        return from;
    }
    end_of_class_chars(context, class, from)
}

// Returns the offset after all characters of a class to the right.
#[inline(always)]
fn end_of_class_chars<W: SearchContext>(context: &W, class: &Class, from: usize) -> usize
    requires class { ClassFitsText (W.searching context.now) class.now }
    requires at { IsBoundary (W.searching context.now).text from }
    ensures { let w = W.searching context.now in HasScannedClassCharsTo w true class.now from (units w.text) result }
{
    let end = text_end(context);
    if !class.single_unit {
        return scan_chars_of_class_end(context, Forward, class, from, end);
    }
    let (far, _count) = scan_single_unit_chars(context, class, from, end);
    far
}
