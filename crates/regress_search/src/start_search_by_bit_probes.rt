//! Searches for offsets where a prefix may occur, by testing some bits of some of its units.

ghost use Rattle.std.specs.Prelude.{◌≡◌, ◌≤◌, ◌<◌, ◌+◌, ◌-◌, ◌^◌, ◌==◌, true};
ghost use Rattle.std.specs.List.{list_all};
ghost use Rattle.std.proofs.Props.{props};
ghost use Rattle.regex_meaning.specs.CodeUnitOffsets.{IsBoundary, units};
ghost use Rattle.regress_program.specs.PrefixesAndPrefilters.{ProbePassesPrefix, ProbesPassPrefix, PrefixAllowsOnlyAsciiFirst, units_allowed_by_prefix};
ghost use Rattle.regress_machine.specs.RequiredPrefixes.{unit_is_allowed};
ghost use Rattle.regress_program.specs.declared.required_prefix_types.Prefix as prefix;
ghost use Rattle.regress_search.specs.MarkedOffsets.{MarksAllPassing};
ghost use Rattle.regress_search.specs.ReadsAtOffset.{unit_key_in_search};
ghost use Rattle.regress_search.specs.StartSearch.{prefix_fits_at, IsFirstPrefixFit};

use crate::class_char_and_table_lookups::{low_16_bit_unit_at_offset, unit_key_at_offset};
use crate::search_by_marks::{OffsetTest, first_by_marks, units_with_bits, units_with_byte_bits};
use crate::search_context::{SearchContext, text_end};
use regress_input::indexing::{CodeUnitEncoding, HasUnitType};
use regress_program::required_prefix_prefilters::MaskedUnitProbe;
use regress_program::required_prefix_types::Prefix;

/// A prefix of all matches, and probes that test bits of some of its units.
#[derive(Clone, Copy)]
pub(crate) struct PrefixAndBitProbes<'p> {
    pub(crate) prefix: &'p Prefix,
    pub(crate) probes: &'p [MaskedUnitProbe; 4],
    ghost some: { 0 < prefix.now.len },
    ghost probes_pass_prefix: { ProbesPassPrefix prefix.now probes.now } by { Prim.hlevel props },
}

// Checks whether each unit of the prefix may occur at an offset.
#[inline(always)]
fn prefix_fits_at_offset<W: SearchContext>(context: &W, prefix: &Prefix, at: usize) -> bool
    requires { at + prefix.now.len ≤ units (W.searching context.now).text }
    ensures { result ≡ prefix_fits_at (W.searching context.now) prefix.now at }
{
    let mut ahead = 0;
    'units: while ahead < prefix.len {
        if !prefix_allows_unit(context, prefix, at + ahead, ahead) {
            return false;
        }
        ahead += 1;
    }
    true
}

// Checks whether the prefix allows the unit at an offset, as the one `ahead` units after the start.
#[inline(always)]
fn prefix_allows_unit<W: SearchContext>(
    context: &W,
    prefix: &Prefix,
    at: usize,
    ahead: usize,
) -> bool
    requires inside { at < units (W.searching context.now).text }
    requires ahead { ahead < prefix.now.len }
    ensures { result ≡ unit_is_allowed (units_allowed_by_prefix prefix.now) ahead
        (unit_key_in_search (W.searching context.now) at) }
{
    if let Some(key) = low_16_bit_unit_at_offset(context, at) {
        return prefix.is_key_allowed(key, ahead);
    }
    prefix.is_key_allowed(unit_key_at_offset(context, at), ahead)
}

/// Checks whether the prefix may occur at an offset.
#[inline(never)]
pub(crate) fn prefix_fits<W: SearchContext>(context: &W, prefix: &Prefix, at: usize) -> bool
    requires { IsBoundary (W.searching context.now).text at }
    ensures { result ≡ prefix_fits_at (W.searching context.now) prefix.now at }
{
    prefix_fits_inlined(context, prefix, at)
}

/// Does what `prefix_fits` does.
#[inline(always)]
pub(crate) fn prefix_fits_inlined<W: SearchContext>(context: &W, prefix: &Prefix, at: usize) -> bool
    requires { IsBoundary (W.searching context.now).text at }
    ensures { result ≡ prefix_fits_at (W.searching context.now) prefix.now at }
{
    text_end(context) - at >= prefix.len && prefix_fits_at_offset(context, prefix, at)
}

// Returns the marks of the 32 offsets from `at` on at which a probe passes.
#[inline(always)]
fn marks_of_probe<W: SearchContext>(context: &W, at: usize, probe: MaskedUnitProbe) -> u64
    requires { at + probe.ahead + 32 ≤ units (W.searching context.now).text }
    ensures { (f : prefix.Prefix) → ProbePassesPrefix f probe
        → MarksAllPassing (prefix_fits_at (W.searching context.now) f) at result }
{
    units_with_byte_bits(context, at + probe.ahead, probe.mask, probe.bits)
}

impl<W: SearchContext> OffsetTest<W> for PrefixAndBitProbes<'_> {
    ghost passes_at = { λ probed w at. prefix_fits_at w probed.prefix.now at };

    ghost reach = { λ probed. probed.prefix.now.len };

    // Tests the two rarest probes.
    #[inline(always)]
    fn marks(&self, context: &W, at: usize) -> u64 {
        let [a, b, _, _] = *self.probes;
        marks_of_probe(context, at, a) & marks_of_probe(context, at, b)
    }

    // Tests all probes.
    #[inline(always)]
    fn strict_marks(&self, context: &W, at: usize) -> u64 {
        let [_, _, c, d] = *self.probes;
        let seldom = self.marks(context, at);
        seldom & marks_of_probe(context, at, c) & marks_of_probe(context, at, d)
    }

    #[inline(always)]
    fn passes(&self, context: &W, at: usize) -> bool {
        prefix_fits_at_offset(context, self.prefix, at)
    }
}

/// A test with the same probes. A block that the two rarest probes mark is tested by the others
/// before the search leaves its loop.
#[derive(Clone, Copy)]
struct TwoStageProbes<'p> {
    probed: PrefixAndBitProbes<'p>,
}

impl<W: SearchContext> OffsetTest<W> for TwoStageProbes<'_> {
    ghost passes_at = { λ staged w at. prefix_fits_at w staged.probed.prefix.now at };

    ghost reach = { λ staged. staged.probed.prefix.now.len };

    // A branch on the rarest probe alone would be mispredicted in many blocks, and take longer than
    // the second probe.
    #[inline(always)]
    fn marks(&self, context: &W, at: usize) -> u64 {
        self.probed.marks(context, at)
    }

    #[inline(always)]
    fn strict_marks(&self, context: &W, at: usize) -> u64 {
        self.probed.strict_marks(context, at)
    }

    // The marks of the rarest probe are not used here, so that no vector has to be kept between
    // blocks of instructions.
    #[inline(always)]
    fn rejects(&self, context: &W, at: usize) -> bool {
        let [_, b, c, d] = *self.probed.probes;
        let second = marks_of_probe(context, at, b);
        second & marks_of_probe(context, at, c) & marks_of_probe(context, at, d) == 0
    }

    #[inline(always)]
    fn passes(&self, context: &W, at: usize) -> bool {
        prefix_fits_at_offset(context, self.probed.prefix, at)
    }
}

/// A test with the same probes, each of which tests all bits of a unit. Then 16-bit units are
/// compared without a mask.
#[derive(Clone, Copy)]
struct ExactProbes<'p> {
    probed: PrefixAndBitProbes<'p>,
    // Whether the other probes test a block before the search leaves its loop.
    staged: bool,
    ghost exact: { list_all (λ probe. probe.mask == 255) probed.probes.now ≡ true },
}

impl<W: SearchContext> OffsetTest<W> for ExactProbes<'_> {
    ghost passes_at = { λ exact w at. prefix_fits_at w exact.probed.prefix.now at };

    ghost reach = { λ exact. exact.probed.prefix.now.len };

    #[inline(always)]
    fn marks(&self, context: &W, at: usize) -> u64 {
        let [a, b, _, _] = *self.probed.probes;
        marks_of_exact_probe(context, at, a) & marks_of_exact_probe(context, at, b)
    }

    #[inline(always)]
    fn strict_marks(&self, context: &W, at: usize) -> u64 {
        let [_, _, c, d] = *self.probed.probes;
        let seldom = self.marks(context, at);
        seldom & marks_of_exact_probe(context, at, c) & marks_of_exact_probe(context, at, d)
    }

    #[inline(always)]
    fn rejects(&self, context: &W, at: usize) -> bool {
        if !self.staged {
            return false;
        }
        let [_, b, c, d] = *self.probed.probes;
        let second = marks_of_exact_probe(context, at, b);
        second & marks_of_exact_probe(context, at, c) & marks_of_exact_probe(context, at, d) == 0
    }

    #[inline(always)]
    fn passes(&self, context: &W, at: usize) -> bool {
        prefix_fits_at_offset(context, self.probed.prefix, at)
    }
}

// Returns the marks of the 32 offsets from `at` on at which a probe passes that tests all bits of a
// unit.
#[inline(always)]
fn marks_of_exact_probe<W: SearchContext>(context: &W, at: usize, probe: MaskedUnitProbe) -> u64
    requires inside { at + probe.ahead + 32 ≤ units (W.searching context.now).text }
    requires exact { probe.mask ≡ 255 }
    ensures { (f : prefix.Prefix) → ProbePassesPrefix f probe
        → MarksAllPassing (prefix_fits_at (W.searching context.now) f) at result }
{
    units_with_bits(context, at + probe.ahead, 0xFFFF, u16::from(probe.bits))
}

// Checks whether each probe tests all bits of a unit.
#[inline(always)]
fn are_exact(probes: &[MaskedUnitProbe; 4]) -> bool
    ensures { result ≡ list_all (λ probe. probe.mask == 255) probes.now }
{
    let [a, b, c, d] = *probes;
    a.mask == 0xFF && b.mask == 0xFF && c.mask == 0xFF && d.mask == 0xFF
}

// Checks whether a probe passes only for a rare letter: a capital letter, or a letter in both cases
// that is rare in words. Few blocks have one. Most blocks that it and a second letter mark contain
// no match, because letters occur together in words. Other rare units are frequent in logs and in
// source code.
fn is_of_rare_letter(probe: MaskedUnitProbe) -> bool {
    let is_rare = matches!(probe.bits | 0x20, b'j' | b'k' | b'q' | b'v' | b'x' | b'z');
    match probe.mask {
        0xFF => is_rare || probe.bits.is_ascii_uppercase(),
        0xDF => is_rare,
        _ => false,
    }
}

// Returns the number of offsets at `at` or later that at least `len` units follow.
#[inline(always)]
fn number_of_offsets_with_room(units: usize, at: usize, len: usize) -> usize
    requires { units + 1 < 2 ^ 64 }
    ensures { result ≡ units + 1 - (at + len) }
{
    (units + 1).saturating_sub(at).saturating_sub(len)
}

/// Returns the first offset at `from` or later where the prefix may occur, by bit probes.
#[inline(never)]
pub(crate) fn next_by_bit_probes<W: SearchContext>(
    context: &W,
    probed: PrefixAndBitProbes<'_>,
    from: usize,
) -> Option<usize>
    requires at { IsBoundary (W.searching context.now).text from }
    requires ascii { PrefixAllowsOnlyAsciiFirst probed.prefix.now }
    ensures { IsFirstPrefixFit (W.searching context.now) probed.entry.prefix.now from result }
{
    let to = from + number_of_offsets_with_room(text_end(context), from, probed.prefix.len);
    let staged = is_of_rare_letter(probed.probes[0]);
    if !<<W::Input as HasUnitType>::Units as CodeUnitEncoding>::ARE_BYTES
        && are_exact(probed.probes)
    {
        first_by_marks(context, &ExactProbes { probed, staged }, from, to)
    } else if staged {
        first_by_marks(context, &TwoStageProbes { probed }, from, to)
    } else {
        first_by_marks(context, &probed, from, to)
    }
}
