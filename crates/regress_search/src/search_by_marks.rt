//! Searches for offsets with SIMD vectors, which test 32 offsets at a time.

ghost use Rattle.std.specs.Prelude.{◌≡◌, ◌≢◌, ◌≤◌, ◌<◌, ◌+◌, ℕ, Bool, true};
ghost use Rattle.std.specs.Int.{bit_at};
ghost use Rattle.regex_meaning.specs.CodeUnitOffsets.{units};
ghost use Rattle.regex_meaning.specs.CodeUnits.{text_units_in_encoding};
ghost use Rattle.regress_input.specs.TextCodeUnits.{MarksUnitsWithBits};
ghost use Rattle.regress_search.specs.MarkedOffsets.{TestFailsThroughoutRange, IsFirstPassingOffset, MarksAllPassing};
ghost use Rattle.regress_search.specs.TreePlanAndText.{SearchInput};

use crate::search_context::SearchContext;
use regress_input::indexing::{CodeUnit, CodeUnitEncoding, HasUnitType, InputIndexer, LANES};

/// A test of offsets. Contracts see at which offsets it passes, and how many units it reads from an
/// offset.
pub(crate) trait OffsetTest<W: SearchContext> {
    ghost passes_at: { Self → SearchInput → (at : ℕ) → Bool };

    ghost reach: { Self → ℕ };

    /// Tests the 32 offsets `at..at + 32`. If bit `i` is clear, the test fails at `at + i`. If it
    /// is set, the test may pass or fail.
    fn marks(&self, context: &W, at: usize) -> u64
        requires { at + 31 + reach self.now ≤ units (W.searching context.now).text }
        ensures { MarksAllPassing (passes_at self.now (W.searching context.now)) at result };

    /// Like `marks`, but may set fewer bits. It is called for blocks in which `marks` sets a bit.
    #[inline(always)]
    fn strict_marks(&self, context: &W, at: usize) -> u64
        requires { at + 31 + reach self.now ≤ units (W.searching context.now).text }
        ensures { MarksAllPassing (passes_at self.now (W.searching context.now)) at result }
    {
        self.marks(context, at)
    }

    /// Returns `true` only if the test fails at all 32 offsets from `at` on; `false` decides
    /// nothing. It is called for blocks in which `marks` sets a bit.
    #[inline(always)]
    fn rejects(&self, context: &W, at: usize) -> bool
        requires { at + 31 + reach self.now ≤ units (W.searching context.now).text }
        ensures { result ≡ true → TestFailsThroughoutRange (passes_at self.now (W.searching context.now)) at (at + 32) }
    {
        false
    }

    /// Checks whether the test passes at an offset.
    fn passes(&self, context: &W, at: usize) -> bool
        requires { at + reach self.now ≤ units (W.searching context.now).text }
        ensures { result ≡ passes_at self.now (W.searching context.now) at };
}

/// Tests the 32 code units from `at` on. Bit `i` of the result is set if the bits of unit `at + i`
/// under `mask` are exactly `bits`.
#[inline(always)]
pub(crate) fn units_with_bits<W: SearchContext>(context: &W, at: usize, mask: u16, bits: u16) -> u64
    requires { at + 32 ≤ units (W.searching context.now).text }
    ensures { let w = W.searching context.now in
        MarksUnitsWithBits (text_units_in_encoding w.encoding w.text) at mask bits result }
{
    let all = context.input().code_units();
    <<<W::Input as HasUnitType>::Units as CodeUnitEncoding>::Unit as CodeUnit>::units_with_bits(
        all, at, mask, bits,
    )
}

/// Does what `units_with_bits` does, for a mask that fits in a byte.
#[inline(always)]
pub(crate) fn units_with_byte_bits<W: SearchContext>(
    context: &W,
    at: usize,
    mask: u8,
    bits: u8,
) -> u64
    requires { at + 32 ≤ units (W.searching context.now).text }
    ensures { let w = W.searching context.now in
        MarksUnitsWithBits (text_units_in_encoding w.encoding w.text) at mask bits result }
{
    let text = context.input().code_units();
    <<<W::Input as HasUnitType>::Units as CodeUnitEncoding>::Unit as CodeUnit>::units_with_byte_bits(
        text, at, mask, bits,
    )
}

/// Returns the first offset in `from..to` at which the test passes. It tests the first block at
/// once, because that offset is often near.
#[inline(always)]
pub(crate) fn first_by_marks<W: SearchContext, Test: OffsetTest<W>>(
    context: &W,
    test: &Test,
    from: usize,
    to: usize,
) -> Option<usize>
    requires order { from ≤ to }
    requires room { from < to → to + Test.reach test.now ≤ units (W.searching context.now).text + 1 }
    ensures { IsFirstPassingOffset (Test.passes_at test.now (W.searching context.now)) from to result }
{
    let mut at = from;
    'blocks: while to - at >= LANES {
        if let Some(found) = first_in_block(context, test, at) {
            return Some(found);
        }
        at = past_blocks_without_marks(context, test, at + LANES, to);
    }
    // The last block overlaps offsets at which the test is known to fail. In short texts, testing
    // the rest one by one would take longer than all else.
    if at < to && to - from >= LANES {
        return first_in_block(context, test, to - LANES);
    }
    first_one_by_one(context, test, at, to)
}

// Skips blocks without marks. It is not inlined, so that no loop with calls surrounds it, and the
// vectors stay in registers.
#[inline(never)]
fn past_blocks_without_marks<W: SearchContext, Test: OffsetTest<W>>(
    context: &W,
    test: &Test,
    from: usize,
    to: usize,
) -> usize
    requires order { from ≤ to }
    requires room { from < to → to + Test.reach test.now ≤ units (W.searching context.now).text + 1 }
    ensures low { from ≤ result }
    ensures high { result ≤ to }
    ensures passed { TestFailsThroughoutRange (Test.passes_at test.now (W.searching context.now)) from result }
{
    let mut at = from;
    'blocks: while to - at >= LANES && may_skip_block(context, test, at) {
        at += LANES;
    }
    at
}

// Checks whether a block may be skipped, because the test fails at all of its offsets.
#[inline(always)]
fn may_skip_block<W: SearchContext, Test: OffsetTest<W>>(
    context: &W,
    test: &Test,
    at: usize,
) -> bool
    requires { at + 31 + Test.reach test.now ≤ units (W.searching context.now).text }
    ensures { result ≡ true → TestFailsThroughoutRange (Test.passes_at test.now (W.searching context.now)) at
        (at + 32) }
{
    if test.marks(context, at) == 0 {
        return true;
    }
    test.rejects(context, at)
}

// Returns the first offset of a block at which the test passes. It is not inlined: if the compiler
// sees the vectors in two branches, it splits them.
#[inline(never)]
fn first_in_block<W: SearchContext, Test: OffsetTest<W>>(
    context: &W,
    test: &Test,
    from: usize,
) -> Option<usize>
    requires { from + 31 + Test.reach test.now ≤ units (W.searching context.now).text }
    ensures { IsFirstPassingOffset (Test.passes_at test.now (W.searching context.now)) from (from + 32) result }
{
    let mut left = test.strict_marks(context, from);
    'marked: while left != 0 {
        let bit = lowest_bit(left);
        if test.passes(context, from + bit) {
            return Some(from + bit);
        }
        left = without_bit(left, bit);
    }
    None
}

// Returns the first offset of a range at which the test passes, without vectors.
#[inline(always)]
fn first_one_by_one<W: SearchContext, Test: OffsetTest<W>>(
    context: &W,
    test: &Test,
    from: usize,
    to: usize,
) -> Option<usize>
    requires order { from ≤ to }
    requires room { from < to → to + Test.reach test.now ≤ units (W.searching context.now).text + 1 }
    ensures { IsFirstPassingOffset (Test.passes_at test.now (W.searching context.now)) from to result }
{
    let mut at = from;
    'places: while at < to {
        if test.passes(context, at) {
            return Some(at);
        }
        at += 1;
    }
    None
}

// Returns the number of the lowest bit that is set.
#[inline(always)]
fn lowest_bit(marks: u64) -> usize
    requires { marks ≢ 0 }
    ensures bound { result < 64 }
    ensures set { bit_at marks result ≡ 1 }
    ensures below { (k : ℕ) → k < result → bit_at marks k ≡ 0 }
{
    marks.trailing_zeros() as usize
}

// Returns the marks with bit `bit`, which is set, cleared.
#[inline(always)]
fn without_bit(marks: u64, bit: usize) -> u64
    requires bound { bit < 64 }
    requires set { bit_at marks bit ≡ 1 }
    ensures smaller { result < marks }
    ensures kept { (k : ℕ) → k < 64 → k ≢ bit → bit_at result k ≡ bit_at marks k }
    ensures no_more { (k : ℕ) → bit_at result k ≡ 1 → bit_at marks k ≡ 1 }
{
    marks & !(1 << bit)
}
