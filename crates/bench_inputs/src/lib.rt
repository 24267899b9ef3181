//! Loops over an input. Rust code times them beside the same loops written in Rust
//! (`bench/inputs.rs`). Each loop takes the bytes of a text, or its 16-bit units.
#![tactic(auto)]

ghost use Rattle.std.specs.Prelude.{◌<◌, ◌≤◌, All, IfSome, IsAscii, IsUtf8};
ghost use Rattle.regex_meaning.specs.CodeUnitOffsets.{IsBoundary, units};
ghost use Rattle.regex_pattern_front.specs.ByteSetMembers.{member_bytes_of_ascii_bitmap};

use regress_input::cursor::{self, Direction, Forward};
use regress_input::front::{
    AsciiBitmap, BracketContents, ByteBitmap, ByteSearcher, CodePointSet, Interval,
};
use regress_input::indexing::{
    AsciiInput, ElementType, InputIndexer, Ucs2Input, Utf8Input, Utf16Input,
};
use regress_input::scm::{Bracket, MatchByteSet, SingleCharMatcher};
use std::alloc::{AllocError, Global};

// Counts the characters to the right of the left end, up to the first one with this number.
#[inline(always)]
fn count_right<Input: InputIndexer>(input: &Input, stop: u32) -> usize {
    let mut pos = input.left_end();
    let mut count: usize = 0;
    while let Some(c) = input.next_right(&mut pos) {
        if c.as_u32() == stop {
            return count;
        }
        count = count.wrapping_add(1);
    }
    count
}

// Counts the characters to the left of the right end, up to the first one with this number.
#[inline(always)]
fn count_left<Input: InputIndexer>(input: &Input, stop: u32) -> usize {
    let mut pos = input.right_end();
    let mut count: usize = 0;
    while let Some(c) = input.next_left(&mut pos) {
        if c.as_u32() == stop {
            return count;
        }
        count = count.wrapping_add(1);
    }
    count
}

// Counts the characters from the left end on that the matcher accepts.
#[inline(always)]
fn count_taken<Input: InputIndexer, Matcher: SingleCharMatcher<Input, Forward>>(
    input: &Input,
    matcher: &Matcher,
) -> usize
    requires { Matcher.can_match matcher.now }
{
    let mut pos = input.left_end();
    let mut count: usize = 0;
    while matcher.matches(input, Forward::new(), &mut pos) {
        count = count.wrapping_add(1);
    }
    count
}

// Returns the position of an offset in units.
#[inline(always)]
fn position_at<Input: InputIndexer>(input: &Input, offset: usize) -> Option<Input::Position>
    ensures { IfSome result (λ p. Input.Position.offset p ≤ units (Input.text input.now)) }
{
    input.try_move_right(input.left_end(), offset)
}

// Counts the offsets at which the literal occurs.
#[inline(always)]
fn count_literals<const N: usize, Input: InputIndexer>(input: &Input, literal: &[u8; N]) -> usize {
    let end = input.pos_to_offset(input.right_end());
    let mut count: usize = 0;
    let mut offset = 0;
    while offset < end {
        let Some(mut pos) = position_at(input, offset) else {
            return count;
        };
        if cursor::try_match_lit(input, Forward::new(), &mut pos, literal) {
            count = count.wrapping_add(1);
        }
        offset += 1;
    }
    count
}

// Returns the first offset at which the searcher finds its bytes, or the length of the text if it
// finds none.
#[inline(always)]
fn first_found<Input: InputIndexer, Search: ByteSearcher>(input: &Input, search: &Search) -> usize {
    let found = input.find_bytes(input.left_end(), search);
    let at = found.unwrap_or(input.right_end());
    input.pos_to_offset(at)
}

#[inline(always)]
fn utf8(bytes: &[u8]) -> Utf8Input<'_>
    requires { IsUtf8 bytes.now }
{
    Utf8Input::new(unsafe { str::from_utf8_unchecked(bytes) }, false)
}

#[inline(always)]
fn ascii(bytes: &[u8]) -> AsciiInput<'_>
    requires utf8 { IsUtf8 bytes.now }
    requires ascii { IsAscii bytes.now }
{
    AsciiInput::new(unsafe { str::from_utf8_unchecked(bytes) }, false)
}

#[unsafe(no_mangle)]
pub extern "C" fn regress_input_bench_utf8_right(bytes: &[u8], stop: u32) -> usize
    requires { IsUtf8 bytes.now }
{
    count_right(&utf8(bytes), stop)
}

#[unsafe(no_mangle)]
pub extern "C" fn regress_input_bench_utf8_left(bytes: &[u8], stop: u32) -> usize
    requires { IsUtf8 bytes.now }
{
    count_left(&utf8(bytes), stop)
}

#[unsafe(no_mangle)]
pub extern "C" fn regress_input_bench_ascii_right(bytes: &[u8], stop: u32) -> usize
    requires utf8 { IsUtf8 bytes.now }
    requires ascii { IsAscii bytes.now }
{
    count_right(&ascii(bytes), stop)
}

#[unsafe(no_mangle)]
pub extern "C" fn regress_input_bench_ascii_left(bytes: &[u8], stop: u32) -> usize
    requires utf8 { IsUtf8 bytes.now }
    requires ascii { IsAscii bytes.now }
{
    count_left(&ascii(bytes), stop)
}

#[unsafe(no_mangle)]
pub extern "C" fn regress_input_bench_utf16_right(units: &[u16], stop: u32) -> usize {
    count_right(&Utf16Input::new(units, false), stop)
}

#[unsafe(no_mangle)]
pub extern "C" fn regress_input_bench_utf16_left(units: &[u16], stop: u32) -> usize {
    count_left(&Utf16Input::new(units, false), stop)
}

#[unsafe(no_mangle)]
pub extern "C" fn regress_input_bench_ucs2_right(units: &[u16], stop: u32) -> usize {
    count_right(&Ucs2Input::new(units, false), stop)
}

#[unsafe(no_mangle)]
pub extern "C" fn regress_input_bench_ucs2_left(units: &[u16], stop: u32) -> usize {
    count_left(&Ucs2Input::new(units, false), stop)
}

fn interval(first: u32, last: u32) -> Interval {
    Interval { first, last }
}

// Returns the class of letters, digits, `_`, and the letters of two more scripts.
fn letters(alloc: Global) -> Result<BracketContents, AllocError> {
    let intervals = [
        interval(0x30, 0x39),
        interval(0x41, 0x5A),
        interval(0x5F, 0x5F),
        interval(0x61, 0x7A),
        interval(0xC0, 0x24F),
        interval(0x370, 0x3FF),
    ];
    Ok(BracketContents {
        invert: false,
        cps: CodePointSet::from_intervals(alloc, &intervals)?,
    })
}

// Counts the characters from the left end on that are in the class. Returns 0 if the class could
// not be allocated.
#[inline(always)]
fn count_in_class<Input: InputIndexer>(alloc: Global, input: &Input) -> usize {
    match letters(alloc) {
        Ok(bc) => count_taken(input, &Bracket { bc: &bc }),
        Err(_) => 0,
    }
}

#[unsafe(no_mangle)]
pub extern "C" fn regress_input_bench_bracket(alloc: Global, bytes: &[u8]) -> usize
    requires { IsUtf8 bytes.now }
{
    count_in_class(alloc, &utf8(bytes))
}

#[unsafe(no_mangle)]
pub extern "C" fn regress_input_bench_utf16_bracket(alloc: Global, units: &[u16]) -> usize {
    count_in_class(alloc, &Utf16Input::new(units, false))
}

#[unsafe(no_mangle)]
pub extern "C" fn regress_input_bench_ucs2_bracket(alloc: Global, units: &[u16]) -> usize {
    count_in_class(alloc, &Ucs2Input::new(units, false))
}

// Returns the set of lower-case letters.
#[inline(always)]
fn lower_letters() -> AsciiBitmap
    ensures { All (λ b. b < 128) (member_bytes_of_ascii_bitmap result) }
{
    let mut set = AsciiBitmap::default();
    for byte in 0x61..0x7B {
        set.set(byte);
    }
    set
}

#[unsafe(no_mangle)]
pub extern "C" fn regress_input_bench_bitmap(bytes: &[u8]) -> usize
    requires { IsUtf8 bytes.now }
{
    let set = lower_letters();
    count_taken(&utf8(bytes), &MatchByteSet { bytes: &set })
}

#[unsafe(no_mangle)]
pub extern "C" fn regress_input_bench_literal(bytes: &[u8]) -> usize
    requires { IsUtf8 bytes.now }
{
    count_literals(&utf8(bytes), b"needle")
}

#[unsafe(no_mangle)]
pub extern "C" fn regress_input_bench_find_one(bytes: &[u8], byte: u8) -> usize
    requires { IsUtf8 bytes.now }
{
    first_found(&utf8(bytes), &[byte])
}

#[unsafe(no_mangle)]
pub extern "C" fn regress_input_bench_find_three(bytes: &[u8], byte: u8) -> usize
    requires { IsUtf8 bytes.now }
{
    first_found(&utf8(bytes), &[byte, 0x40, 0x24])
}

#[unsafe(no_mangle)]
pub extern "C" fn regress_input_bench_find_bitmap(bytes: &[u8], byte: u8) -> usize
    requires { IsUtf8 bytes.now }
{
    let mut set = ByteBitmap::default();
    set.set(byte);
    set.set(0x40);
    first_found(&utf8(bytes), &set)
}
