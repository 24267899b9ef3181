//! Searches for one of a few 16-bit code units.

ghost use Rattle.std.specs.Prelude.{◌≡◌, ◌≢◌, ◌≤◌, ◌==◌, ◌||◌, max, true, false};
ghost use Rattle.std.specs.List.{list_all};
ghost use Rattle.regex_meaning.specs.Outcomes.{is_some_and};
ghost use Rattle.regex_meaning.specs.CodeUnitOffsets.{units};
ghost use Rattle.regress_input.specs.TextCodeUnits.{has_bits};
ghost use Rattle.regress_program.specs.TableKeysOfUnits.{is_16_bit_encoding};
ghost use Rattle.regress_search.specs.MarkedOffsets.{IsFirstPassingOffset};
ghost use Rattle.regress_search.specs.ReadsAtOffset.{input_unit_at};
ghost use Rattle.regress_search.specs.WideUnits.{BitsIdentifyUnitsOfKey, BitsIdentifyListedKeys, unit_has_listed_key, bits_identify_key as spec_bits_identify_key};

use crate::class_char_and_table_lookups::unit_at_offset;
use crate::search_by_marks::{OffsetTest, first_by_marks, units_with_bits};
use crate::search_context::{SearchContext, text_end};
use regress_program::up_to_three_units::UpToThreeUnits;

/// The units whose bits under `mask` are exactly `bits`.
#[derive(Clone, Copy)]
struct UnitBits {
    mask: u16,
    bits: u16,
}

impl<W: SearchContext> OffsetTest<W> for UnitBits {
    ghost passes_at = { λ kind w at. is_some_and (input_unit_at w at) (has_bits kind.mask kind.bits) };

    ghost reach = { λ _. 1 };

    #[inline(always)]
    fn marks(&self, context: &W, at: usize) -> u64 {
        units_with_bits(context, at, self.mask, self.bits)
    }

    #[inline(always)]
    fn passes(&self, context: &W, at: usize) -> bool {
        unit_at_offset(context, at) & u32::from(self.mask) == u32::from(self.bits)
    }
}

/// The test for one unit. Its mask is known at compile time, which takes fewer instructions.
#[derive(Clone, Copy)]
struct SingleUnitTest {
    unit: u16,
}

impl<W: SearchContext> OffsetTest<W> for SingleUnitTest {
    ghost passes_at = { λ one w at. is_some_and (input_unit_at w at) (has_bits 0xFFFF one.unit) };

    ghost reach = { λ _. 1 };

    #[inline(always)]
    fn marks(&self, context: &W, at: usize) -> u64 {
        units_with_bits(context, at, 0xFFFF, self.unit)
    }

    #[inline(always)]
    fn passes(&self, context: &W, at: usize) -> bool {
        unit_at_offset(context, at) & 0xFFFF == u32::from(self.unit)
    }
}

/// The test that passes where one of two tests passes.
#[derive(Clone, Copy)]
struct Either<A, B> {
    a: A,
    b: B,
}

impl<W: SearchContext, A: OffsetTest<W>, B: OffsetTest<W>> OffsetTest<W> for Either<A, B> {
    ghost passes_at = { λ either w at. A.passes_at either.a w at || B.passes_at either.b w at };

    ghost reach = { λ either. max (A.reach either.a) (B.reach either.b) };

    #[inline(always)]
    fn marks(&self, context: &W, at: usize) -> u64 {
        self.a.marks(context, at) | self.b.marks(context, at)
    }

    #[inline(always)]
    fn passes(&self, context: &W, at: usize) -> bool {
        self.a.passes(context, at) || self.b.passes(context, at)
    }
}

/// The test for units that may begin a surrogate pair: those from 0xD800 to 0xDBFF.
#[derive(Clone, Copy)]
struct LeadSurrogateTest;

impl<W: SearchContext> OffsetTest<W> for LeadSurrogateTest {
    ghost passes_at = { λ _ w at. is_some_and (input_unit_at w at) (has_bits 0xFC00 0xD800) };

    ghost reach = { λ _. 1 };

    #[inline(always)]
    fn marks(&self, context: &W, at: usize) -> u64 {
        units_with_bits(context, at, 0xFC00, 0xD800)
    }

    #[inline(always)]
    fn passes(&self, context: &W, at: usize) -> bool {
        unit_at_offset(context, at) & 0xFC00 == 0xD800
    }
}

// Returns the bits of the 16-bit units with a key other than 128. No bits identify the units with
// key 128, from 128 to 511.
#[inline(always)]
fn units_of_key(key: u8) -> UnitBits
    ensures { key ≢ 128 → BitsIdentifyUnitsOfKey result key }
{
    if key < 128 {
        UnitBits {
            mask: 0xFFFF,
            bits: u16::from(key),
        }
    } else {
        UnitBits {
            mask: 0xFE00,
            bits: u16::from(key - 128) << 9,
        }
    }
}

// Checks whether only one unit has these bits.
#[inline(always)]
fn is_one_unit(kind: UnitBits) -> bool
    ensures { result ≡ (kind.mask == 0xFFFF) }
{
    kind.mask == 0xFFFF
}

/// Checks whether bits identify the 16-bit units with each of these keys, and none of these units
/// ends a surrogate pair.
#[inline(always)]
pub(crate) fn do_bits_identify_units(few: UpToThreeUnits) -> bool
    ensures { result ≡ list_all spec_bits_identify_key few.units }
{
    let [a, b, c] = few.units;
    bits_identify_key(a) && bits_identify_key(b) && bits_identify_key(c)
}

// Checks whether bits identify the 16-bit units with a key, and none of them ends a surrogate pair.
#[inline(always)]
fn bits_identify_key(key: u8) -> bool
    ensures { result ≡ spec_bits_identify_key key }
{
    key < 128 || (key > 128 && key != 238 && key != 239)
}

// Returns the offset of the first unit in `from..to` with these bits.
#[inline(always)]
fn first_unit_with_bits<W: SearchContext>(
    context: &W,
    kind: UnitBits,
    from: usize,
    to: usize,
) -> Option<usize>
    requires order { from ≤ to }
    requires inside { to ≤ units (W.searching context.now).text }
    ensures { let w = W.searching context.now in
        IsFirstPassingOffset (λ at. is_some_and (input_unit_at w at) (has_bits kind.mask kind.bits)) from to result }
{
    if kind.mask == 0xFFFF {
        first_by_marks(context, &SingleUnitTest { unit: kind.bits }, from, to)
    } else {
        first_by_marks(context, &kind, from, to)
    }
}

// Returns the offset of the first unit in `from..to` with the bits of one of two kinds.
#[inline(always)]
fn first_unit_of_two_kinds<W: SearchContext>(
    context: &W,
    a: UnitBits,
    b: UnitBits,
    from: usize,
    to: usize,
) -> Option<usize>
    requires order { from ≤ to }
    requires inside { to ≤ units (W.searching context.now).text }
    ensures { let w = W.searching context.now in
        IsFirstPassingOffset (λ at. is_some_and (input_unit_at w at) (has_bits a.mask a.bits)
        || is_some_and (input_unit_at w at) (has_bits b.mask b.bits)) from to result }
{
    if b.mask == 0xFFFF && a.mask == 0xFFFF {
        let a = SingleUnitTest { unit: a.bits };
        let b = SingleUnitTest { unit: b.bits };
        first_by_marks(context, &Either { a, b }, from, to)
    } else {
        first_by_marks(context, &Either { a, b }, from, to)
    }
}

// Returns the offset of the first unit in `from..to` with the bits of one of three kinds.
#[inline(always)]
fn first_unit_of_three_kinds<W: SearchContext>(
    context: &W,
    a: UnitBits,
    b: UnitBits,
    c: UnitBits,
    from: usize,
    to: usize,
) -> Option<usize>
    requires order { from ≤ to }
    requires inside { to ≤ units (W.searching context.now).text }
    ensures { let w = W.searching context.now in
        IsFirstPassingOffset (λ at. (is_some_and (input_unit_at w at) (has_bits a.mask a.bits)
        || is_some_and (input_unit_at w at) (has_bits b.mask b.bits))
        || is_some_and (input_unit_at w at) (has_bits c.mask c.bits)) from to result }
{
    if a.mask == 0xFFFF && b.mask == 0xFFFF {
        let a = SingleUnitTest { unit: a.bits };
        let b = SingleUnitTest { unit: b.bits };
        let a = Either { a, b };
        first_by_marks(context, &Either { a, b: c }, from, to)
    } else {
        let a = Either { a, b };
        first_by_marks(context, &Either { a, b: c }, from, to)
    }
}

/// Returns the offset of the first unit in `from..to` that has one of these keys of 16-bit units. A
/// byte below 128 has the same key as a 16-bit unit.
#[inline(always)]
pub(crate) fn first_unit_with_listed_key<W: SearchContext>(
    context: &W,
    few: UpToThreeUnits,
    from: usize,
    to: usize,
) -> Option<usize>
    requires told { BitsIdentifyListedKeys few }
    requires order { from ≤ to }
    requires inside { to ≤ units (W.searching context.now).text }
    ensures { let w = W.searching context.now in
        IsFirstPassingOffset (unit_has_listed_key false few w) from to result }
{
    let [a, b, c] = few.units;
    match few.len {
        0 => None,
        1 => first_unit_with_bits(context, units_of_key(a), from, to),
        2 => first_unit_of_two_kinds(context, units_of_key(a), units_of_key(b), from, to),
        _ => {
            let a = units_of_key(a);
            let b = units_of_key(b);
            first_unit_of_three_kinds(context, a, b, units_of_key(c), from, to)
        }
    }
}

/// Returns the offset of the first 16-bit unit at `from` or later that has one of these keys or may
/// begin a surrogate pair. It is not inlined: a loop around it would first compute the bits of each
/// kind of unit, needed or not.
#[inline(never)]
pub(crate) fn next_16_bit_unit_or_pair_with_key<W: SearchContext>(
    context: &W,
    few: UpToThreeUnits,
    from: usize,
) -> Option<usize>
    requires wide { is_16_bit_encoding (W.searching context.now).encoding ≡ true }
    requires told { BitsIdentifyListedKeys few }
    requires at { from ≤ units (W.searching context.now).text }
    ensures { let w = W.searching context.now in
        IsFirstPassingOffset (unit_has_listed_key true few w) from (units w.text) result }
{
    let end = text_end(context);
    let [a, b, c] = few.units;
    match few.len {
        0 => first_by_marks(context, &LeadSurrogateTest, from, end),
        1 => next_pair_or_unit_of_kind(context, units_of_key(a), from),
        2 => next_pair_or_unit_of_two_kinds(context, units_of_key(a), units_of_key(b), from),
        _ => {
            let a = units_of_key(a);
            let b = units_of_key(b);
            next_pair_or_unit_of_three_kinds(context, a, b, units_of_key(c), from)
        }
    }
}

// Returns the offset of the first unit at `from` or later that may begin a surrogate pair or has
// these bits.
#[inline(always)]
fn next_pair_or_unit_of_kind<W: SearchContext>(
    context: &W,
    a: UnitBits,
    from: usize,
) -> Option<usize>
    requires { from ≤ units (W.searching context.now).text }
    ensures { let w = W.searching context.now in
        IsFirstPassingOffset (λ at. is_some_and (input_unit_at w at) (has_bits 0xFC00 0xD800)
        || is_some_and (input_unit_at w at) (has_bits a.mask a.bits)) from (units w.text) result }
{
    let end = text_end(context);
    let pair = LeadSurrogateTest;
    if is_one_unit(a) {
        let b = SingleUnitTest { unit: a.bits };
        first_by_marks(context, &Either { a: pair, b }, from, end)
    } else {
        first_by_marks(context, &Either { a: pair, b: a }, from, end)
    }
}

// Does what `next_pair_or_unit_of_kind` does, for units of two kinds.
#[inline(always)]
fn next_pair_or_unit_of_two_kinds<W: SearchContext>(
    context: &W,
    a: UnitBits,
    b: UnitBits,
    from: usize,
) -> Option<usize>
    requires { from ≤ units (W.searching context.now).text }
    ensures { let w = W.searching context.now in
        IsFirstPassingOffset (λ at. (is_some_and (input_unit_at w at) (has_bits 0xFC00 0xD800)
        || is_some_and (input_unit_at w at) (has_bits a.mask a.bits))
        || is_some_and (input_unit_at w at) (has_bits b.mask b.bits)) from (units w.text) result }
{
    let end = text_end(context);
    let pair = LeadSurrogateTest;
    if is_one_unit(a) && is_one_unit(b) {
        let a = SingleUnitTest { unit: a.bits };
        let b = SingleUnitTest { unit: b.bits };
        let a = Either { a: pair, b: a };
        first_by_marks(context, &Either { a, b }, from, end)
    } else {
        let a = Either { a: pair, b: a };
        first_by_marks(context, &Either { a, b }, from, end)
    }
}

// Does what `next_pair_or_unit_of_kind` does, for units of three kinds.
#[inline(always)]
fn next_pair_or_unit_of_three_kinds<W: SearchContext>(
    context: &W,
    a: UnitBits,
    b: UnitBits,
    c: UnitBits,
    from: usize,
) -> Option<usize>
    requires { from ≤ units (W.searching context.now).text }
    ensures { let w = W.searching context.now in
        IsFirstPassingOffset (λ at. ((is_some_and (input_unit_at w at) (has_bits 0xFC00 0xD800)
        || is_some_and (input_unit_at w at) (has_bits a.mask a.bits))
        || is_some_and (input_unit_at w at) (has_bits b.mask b.bits))
        || is_some_and (input_unit_at w at) (has_bits c.mask c.bits)) from (units w.text) result }
{
    let end = text_end(context);
    let pair = LeadSurrogateTest;
    if is_one_unit(a) && is_one_unit(b) {
        let a = SingleUnitTest { unit: a.bits };
        let b = SingleUnitTest { unit: b.bits };
        let a = Either { a: pair, b: a };
        let a = Either { a, b };
        first_by_marks(context, &Either { a, b: c }, from, end)
    } else {
        let a = Either { a: pair, b: a };
        let a = Either { a, b };
        first_by_marks(context, &Either { a, b: c }, from, end)
    }
}
