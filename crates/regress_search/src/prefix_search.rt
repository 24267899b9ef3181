//! Searches bytes for indices at which each unit of a prefix may occur.

ghost use Rattle.std.specs.Prelude.{◌≡◌, ◌≤◌, ◌<◌, ◌+◌, true, length, take, IfSome};
ghost use Rattle.std.proofs.Props.{props};
ghost use Rattle.memchr.specs.Find.{OccursAt};
ghost use Rattle.regress_program.specs.PrefixesAndPrefilters.{units_allowed_by_prefix, prefix_allows_units_at, IsOnlyUnitAllowedAtPosition, IsLiteralForcedByPrefix};
ghost use Rattle.regress_search.specs.PrefixSearch.{FindsPrefix};

use crate::literal_finder::StartLiteralFinder;
use memchr::memchr;
use regress_input::front::ByteSearcher;
use regress_program::required_prefix_types::{
    Literal, Prefix, RequiredUnitAndOffset, is_mask_bit_clear,
};

/// A prefix of all matches, and a unit that it may require at a fixed offset.
#[derive(Clone, Copy)]
pub(crate) struct PrefixAndItsRequiredUnit<'p> {
    pub(crate) prefix: &'p Prefix,
    pub(crate) rare: Option<RequiredUnitAndOffset>,
    ghost some: { 0 < prefix.now.len },
    ghost is_rare: { IfSome rare (λ r. IsOnlyUnitAllowedAtPosition prefix.now r) } by { Prim.hlevel props },
}

impl ByteSearcher for PrefixAndItsRequiredUnit<'_> {
    ghost use Rattle.regress_program.specs.PrefixesAndPrefilters.{units_allowed_by_prefix, prefix_allows_units_at};

    ghost stands_at = { λ f bytes index.
        prefix_allows_units_at (units_allowed_by_prefix f.prefix.now) bytes index f.prefix.now.len };

    #[inline(always)]
    fn find_in(&self, bytes: &[u8]) -> Option<usize> {
        match self.rare {
            Some(rare) => find_prefix_by_required_unit(self.prefix, rare, bytes),
            None => find_prefix_by_shift_or(self.prefix, bytes),
        }
    }
}

/// A prefix of all matches with a required literal, and the finder of the literal.
#[derive(Drop)]
pub(crate) struct PrefixAndLiteralFinder<'k, 'p> {
    pub(crate) kept: &'k StartLiteralFinder<'k>,
    pub(crate) prefix: &'p Prefix,
    pub(crate) literal: &'p Literal,
    ghost some: { 0 < prefix.now.len },
    ghost is_literal: { IsLiteralForcedByPrefix prefix.now literal.now } by { Prim.hlevel props },
}

impl ByteSearcher for PrefixAndLiteralFinder<'_, '_> {
    ghost use Rattle.regress_program.specs.PrefixesAndPrefilters.{units_allowed_by_prefix, prefix_allows_units_at};

    ghost stands_at = { λ f bytes index.
        prefix_allows_units_at (units_allowed_by_prefix f.prefix.now) bytes index f.prefix.now.len };

    #[inline(always)]
    fn find_in(&self, bytes: &[u8]) -> Option<usize> {
        find_prefix_by_literal(self.kept, self.prefix, self.literal, bytes)
    }
}

// Returns the first index at which each unit of the prefix may occur. This is the Shift-Or
// algorithm: bit `j` of the state is clear if the last `j` units may be the first `j` units of a
// match.
#[inline(always)]
fn find_prefix_by_shift_or(prefix: &Prefix, bytes: &[u8]) -> Option<usize>
    requires { 0 < prefix.now.len }
    ensures { FindsPrefix prefix.now bytes.now result }
{
    let len = prefix.len;
    let mut state = !1u16;
    let mut at = 0;
    'units: while at < bytes.len() {
        state |= prefix.masks[usize::from(bytes[at])];
        state <<= 1;
        at += 1;
        if is_mask_bit_clear(state, len) {
            return Some(at - len);
        }
    }
    None
}

// Does what `find_prefix_by_shift_or` does, by a search for the required unit.
#[inline(always)]
fn find_prefix_by_required_unit(
    prefix: &Prefix,
    rare: RequiredUnitAndOffset,
    bytes: &[u8],
) -> Option<usize>
    requires { IsOnlyUnitAllowedAtPosition prefix.now rare }
    ensures { FindsPrefix prefix.now bytes.now result }
{
    let mut at = 0;
    'places: while at + rare.ahead < bytes.len() {
        let Some(more) = memchr(rare.unit, &bytes[at + rare.ahead..]) else {
            return None;
        };
        at += more;
        if prefix_units_fit_in_range(prefix, bytes, at, 0, prefix.len) {
            return Some(at);
        }
        at += 1;
    }
    None
}

// Does what `find_prefix_by_shift_or` does, by a search for the required literal.
#[inline(always)]
fn find_prefix_by_literal(
    kept: &StartLiteralFinder<'_>,
    prefix: &Prefix,
    literal: &Literal,
    bytes: &[u8],
) -> Option<usize>
    requires some { 0 < prefix.now.len }
    requires literal { IsLiteralForcedByPrefix prefix.now literal.now }
    ensures { FindsPrefix prefix.now bytes.now result }
{
    let needle = &literal.units[..literal.len];
    let mut at = 0;
    'places: while at + literal.ahead < bytes.len() {
        let Some(more) = kept.find(needle, &bytes[at + literal.ahead..]) else {
            return None;
        };
        at += more;
        if prefix_fits_around_literal(prefix, literal, bytes, at) {
            return Some(at);
        }
        at += 1;
    }
    None
}

// Checks whether the prefix may occur at an index. The literal occurs in it, so the literal's units
// are not tested again.
#[inline(always)]
fn prefix_fits_around_literal(prefix: &Prefix, literal: &Literal, bytes: &[u8], at: usize) -> bool
    requires literal { IsLiteralForcedByPrefix prefix.now literal.now }
    requires row { OccursAt bytes.now (take literal.now.len literal.now.units) (at + literal.now.ahead) }
    ensures { result ≡ prefix_allows_units_at (units_allowed_by_prefix prefix.now) bytes.now at prefix.now.len }
{
    if !prefix_units_fit_in_range(prefix, bytes, at, 0, literal.ahead) {
        return false;
    }
    prefix_units_fit_in_range(prefix, bytes, at, literal.ahead + literal.len, prefix.len)
}

// Checks whether the first `to` units of the prefix may occur at an index. The first `from` of them
// are known, and are not tested again.
#[inline(always)]
fn prefix_units_fit_in_range(
    prefix: &Prefix,
    bytes: &[u8],
    at: usize,
    from: usize,
    to: usize,
) -> bool
    requires at { at ≤ length bytes.now }
    requires order { from ≤ to }
    requires inside { to ≤ prefix.now.len }
    requires before { prefix_allows_units_at (units_allowed_by_prefix prefix.now) bytes.now at from ≡ true }
    ensures { result ≡ prefix_allows_units_at (units_allowed_by_prefix prefix.now) bytes.now at to }
{
    let left = bytes.len() - at;
    if left < to {
        return false;
    }
    let mut ahead = from;
    'units: while ahead < to {
        if !prefix.is_key_allowed(usize::from(bytes[at + ahead]), ahead) {
            return false;
        }
        ahead += 1;
    }
    true
}
