//! Searches for candidate starts. No match begins at any other offset.

ghost use Rattle.std.specs.Prelude.{◌≡◌, ◌<◌, true, false, Some, IfSome};
ghost use Rattle.regex_meaning.specs.CodeUnitOffsets.{IsBoundary, units};
ghost use Rattle.regex_meaning.specs.Text.{rightwards};
ghost use Rattle.regress_input.specs.CharAndByteReadsFromOffset.{is_byte_encoding, past};
ghost use Rattle.regress_program.specs.LookbehindFilter.{FilterKeysAreLeadBytes, allows_start};
ghost use Rattle.regress_program.specs.PrefixesAndPrefilters.{PrefixAllowsOnlyAsciiFirst, IsLiteralForcedByPrefix, IsOnlyUnitAllowedAtPosition, IsLiteralPrefilterOfPrefix, IsPrefilterOfPrefix};
ghost use Rattle.regress_program.specs.PrefixesAndPrefilters.{ListsFirstUnits, IsFirstUnitsPrefilterOfPrefix, IsOtherPrefilterOfPrefix};
ghost use Rattle.regress_program.specs.TableKeysOfUnits.{is_16_bit_encoding};
ghost use Rattle.regress_program.specs.Plans.{unit_table_of_set_number};
ghost use Rattle.regress_machine.specs.FirstSetTables.{AllowedNextKeys};
ghost use Rattle.regress_search.specs.StartSearch.{IsFirstAllowedBoundary, IsFirstBoundaryWhere, IsFirstPrefixFit, IsFirstCandidate, IsFirstByteSearchHit, AllowsOnlyLeadBytes, SkipsNoBoundary};
ghost use Rattle.regress_search.specs.StartSearch.{IsFirstUnitsSearch, IsPastFirstAllowedChar, table_of_listed_units, may_start_at};
ghost use Rattle.regress_search.specs.TreePlanAndText.{PlanFitsProgram};

use crate::class_char_and_table_lookups::{
    set_allows_next_unit, unit_at_offset, unit_key_at_offset,
};
use crate::few_units_finder::FewUnitsFinder;
use crate::few_wide_units::{do_bits_identify_units, first_unit_with_listed_key};
use crate::literal_finder::LONG;
use crate::prefix_search::{PrefixAndItsRequiredUnit, PrefixAndLiteralFinder};
use crate::search_context::{
    SearchContext, offset_in_searched_text, position_in_searched_text, text_end,
};
use crate::start_search_by_bit_probes::{
    PrefixAndBitProbes, next_by_bit_probes, prefix_fits, prefix_fits_inlined,
};
use regress_input::front::ByteSearcher;
use regress_input::indexing::{CodeUnitEncoding, HasUnitType, InputIndexer};
use regress_program::first_set_type::FirstSet;
use regress_program::lookbehind_filter::PrecedingCharFilter;
use regress_program::plan::CandidateStarts;
use regress_program::required_prefix_prefilters::{
    FirstUnitsPrefilter, LiteralPrefilter, OtherPrefilter, RequiredPrefixPrefilter,
};
use regress_program::required_prefix_types::{Literal, Prefix, RequiredUnitAndOffset};
use regress_program::up_to_three_units::UpToThreeUnits;

/// The set of code units with which a match may begin. Contracts see its table.
pub(crate) trait StartSet {
    ghost table: { Self → AllowedNextKeys };

    /// Checks whether a code unit with this key is in the set.
    fn has_key(&self, key: usize) -> bool
        requires { key < 256 }
        ensures { result ≡ (table self.now).keys key };

    /// Checks whether the end of the text is in the set.
    fn has_end(&self) -> bool
        ensures { result ≡ (table self.now).end };
}

impl StartSet for FirstSet {
    ghost use Rattle.regress_program.specs.TableKeysOfUnits.{unit_table_of_set};

    ghost table = { unit_table_of_set };

    #[inline(always)]
    fn has_key(&self, key: usize) -> bool {
        self.keys[key]
    }

    #[inline(always)]
    fn has_end(&self) -> bool {
        self.end
    }
}

impl StartSet for UpToThreeUnits {
    ghost use Rattle.regress_search.specs.StartSearch.{table_of_listed_units};

    ghost table = { table_of_listed_units };

    #[inline(always)]
    fn has_key(&self, key: usize) -> bool {
        self.has(key)
    }

    #[inline(always)]
    fn has_end(&self) -> bool {
        false
    }
}

// Returns the offset past a code unit, or past a character if units are not bytes.
#[inline(always)]
fn offset_after_unit_or_char<W: SearchContext>(context: &W, at: usize) -> usize
    requires inside { at < units (W.searching context.now).text }
    requires at { let w = W.searching context.now in
        is_byte_encoding w.encoding ≡ false → IsBoundary w.text at }
    ensures { let w = W.searching context.now in SkipsNoBoundary w.text (is_byte_encoding w.encoding) at result }
{
    if <<W::Input as HasUnitType>::Units as CodeUnitEncoding>::ARE_BYTES {
        at + 1
    } else {
        offset_after_char(context, at)
    }
}

// Returns the offset after the character at a boundary.
#[inline(always)]
fn offset_after_char<W: SearchContext>(context: &W, at: usize) -> usize
    requires inside { at < units (W.searching context.now).text }
    requires at { IsBoundary (W.searching context.now).text at }
    ensures { past (W.searching context.now).text rightwards at ≡ Some result }
{
    offset_in_searched_text(
        context,
        context.input().past(position_in_searched_text(context, at)),
    )
}

// Returns the first offset at `from` or later that the set allows.
#[inline(always)]
fn first_allowed_offset<W: SearchContext, Set: StartSet>(
    context: &W,
    set: &Set,
    from: usize,
) -> Option<usize>
    requires at { IsBoundary (W.searching context.now).text from }
    requires leads { AllowsOnlyLeadBytes (is_16_bit_encoding (W.searching context.now).encoding) (Set.table set.now) }
    ensures { IsFirstAllowedBoundary (W.searching context.now) (Set.table set.now) from result }
{
    let end = text_end(context);
    let mut at = from;
    'units: while at < end {
        let unit = unit_at_offset(context, at);
        // A 16-bit unit below 128 is its own key, and a branch takes less than computing the key.
        if !<<W::Input as HasUnitType>::Units as CodeUnitEncoding>::ARE_BYTES && unit < 128 {
            if set.has_key(unit as usize) {
                return Some(at);
            }
            at += 1;
            continue 'units;
        }
        if set.has_key(unit_key_at_offset(context, at)) {
            return Some(at);
        }
        at = offset_after_unit_or_char(context, at);
    }
    if set.has_end() { Some(at) } else { None }
}

// Returns the first offset at `from` or later that the set with this number allows.
#[inline(always)]
fn next_in_set<W: SearchContext>(context: &W, number: u32, from: usize) -> Option<usize>
    requires { IsBoundary (W.searching context.now).text from }
    ensures { let w = W.searching context.now in IsFirstAllowedBoundary w (unit_table_of_set_number w.plan number)
        from result }
{
    match context.first_set_with_number(number) {
        Some(set) => first_allowed_offset(context, set, from),
        None => Some(from),
    }
}

// Returns the first offset at `from` or later at which the searcher finds its bytes.
#[inline(always)]
fn find<W: SearchContext, Search: ByteSearcher>(
    context: &W,
    search: &Search,
    from: usize,
) -> Option<usize>
    requires { IsBoundary (W.searching context.now).text from }
    ensures { IsFirstByteSearchHit (W.searching context.now) (Search.stands_at search.now) from result }
{
    let pos = position_in_searched_text(context, from);
    match context.input().find_bytes(pos, search) {
        Some(pos) => Some(offset_in_searched_text(context, pos)),
        None => None,
    }
}

/// Returns the offset of the first unit at `from` or later that is one of a few code units.
#[inline(never)]
pub(crate) fn next_of_few_units<W: SearchContext>(
    context: &W,
    few: UpToThreeUnits,
    from: usize,
) -> Option<usize>
    requires at { IsBoundary (W.searching context.now).text from }
    requires leads { let wide = is_16_bit_encoding (W.searching context.now).encoding in
        AllowsOnlyLeadBytes wide (table_of_listed_units few) }
    ensures { IsFirstAllowedBoundary (W.searching context.now) (table_of_listed_units few) from result }
{
    if <<W::Input as HasUnitType>::Units as CodeUnitEncoding>::ARE_BYTES {
        find(context, &FewUnitsFinder { few }, from)
    } else {
        next_of_few_wide_units(context, few, from)
    }
}

// Does what `next_of_few_units` does, in 16-bit units. It uses vectors if bits identify the units.
#[inline(always)]
fn next_of_few_wide_units<W: SearchContext>(
    context: &W,
    few: UpToThreeUnits,
    from: usize,
) -> Option<usize>
    requires wide { is_16_bit_encoding (W.searching context.now).encoding ≡ true }
    requires at { IsBoundary (W.searching context.now).text from }
    ensures { IsFirstAllowedBoundary (W.searching context.now) (table_of_listed_units few) from result }
{
    if do_bits_identify_units(few) {
        first_unit_with_listed_key(context, few, from, text_end(context))
    } else {
        first_allowed_offset(context, &few, from)
    }
}

// ---- By the prefix of matches

// Returns the first offset at `from` or later at which the prefix may occur in bytes. It searches
// for a rare unit if the prefix requires one, and otherwise uses the masks of all units.
#[inline(never)]
fn next_prefix_match<W: SearchContext>(
    context: &W,
    prefix: &Prefix,
    rare: Option<RequiredUnitAndOffset>,
    from: usize,
) -> Option<usize>
    requires at { IsBoundary (W.searching context.now).text from }
    requires bytes { is_16_bit_encoding (W.searching context.now).encoding ≡ false }
    requires prefix { (0 < prefix.now.len) × PrefixAllowsOnlyAsciiFirst prefix.now }
    requires rare { IfSome rare (λ r. IsOnlyUnitAllowedAtPosition prefix.now r) }
    ensures { IsFirstPrefixFit (W.searching context.now) prefix.now from result }
{
    let fitting = PrefixAndItsRequiredUnit { prefix, rare };
    find(context, &fitting, from)
}

// Does what `next_prefix_match` does, by a search for the required literal.
#[inline(never)]
fn next_prefix_by_literal<W: SearchContext>(
    context: &W,
    prefix: &Prefix,
    literal: &Literal,
    from: usize,
) -> Option<usize>
    requires at { IsBoundary (W.searching context.now).text from }
    requires bytes { is_16_bit_encoding (W.searching context.now).encoding ≡ false }
    requires prefix { (0 < prefix.now.len) × PrefixAllowsOnlyAsciiFirst prefix.now }
    requires literal { IsLiteralForcedByPrefix prefix.now literal.now }
    ensures { IsFirstPrefixFit (W.searching context.now) prefix.now from result }
{
    let in_row = PrefixAndLiteralFinder {
        kept: context.cached_literal_finder(),
        prefix,
        literal,
    };
    find(context, &in_row, from)
}

/// How many first units that begin no match are found before a search for first units ends.
const MAX_MISSES: usize = 16;

/// The result of a search for a prefix by its first units.
#[derive(Clone, Copy)]
enum FirstUnitsSearch {
    /// The prefix may occur at this offset, and at none before it.
    Fits(usize),
    /// The prefix does not occur.
    Nowhere,
    /// The prefix does not occur before this offset. The text has many of the first units.
    GaveUp(usize),
}

// Searches for the first offset at `from` or later at which the prefix may occur, by a search for
// the units with which it begins.
#[inline(always)]
fn search_for_first_units<W: SearchContext>(
    context: &W,
    prefix: &Prefix,
    few: UpToThreeUnits,
    from: usize,
) -> FirstUnitsSearch
    requires at { IsBoundary (W.searching context.now).text from }
    requires prefix { (0 < prefix.now.len) × PrefixAllowsOnlyAsciiFirst prefix.now }
    requires few { ListsFirstUnits prefix.now few }
    ensures { IsFirstUnitsSearch (W.searching context.now) prefix.now from result }
{
    let mut at = from;
    'misses: for _ in 0..MAX_MISSES {
        let Some(hit) = next_of_few_units(context, few, at) else {
            return FirstUnitsSearch::Nowhere;
        };
        if prefix_fits_inlined(context, prefix, hit) {
            return FirstUnitsSearch::Fits(hit);
        }
        at = offset_after_char(context, hit);
    }
    FirstUnitsSearch::GaveUp(at)
}

// Does what `next_prefix_match` does, by a search for the first units. Where the text has many of
// them, it searches for something else.
#[inline(never)]
fn next_prefix_by_first_units<W: SearchContext>(
    context: &W,
    prefix: &Prefix,
    first: &FirstUnitsPrefilter,
    from: usize,
) -> Option<usize>
    requires at { IsBoundary (W.searching context.now).text from }
    requires prefix { (0 < prefix.now.len) × PrefixAllowsOnlyAsciiFirst prefix.now }
    requires first { IsFirstUnitsPrefilterOfPrefix (is_16_bit_encoding (W.searching context.now).encoding) prefix.now
        first.now }
    ensures { IsFirstPrefixFit (W.searching context.now) prefix.now from result }
{
    match search_for_first_units(context, prefix, first.units, from) {
        FirstUnitsSearch::Fits(at) => Some(at),
        FirstUnitsSearch::Nowhere => None,
        FirstUnitsSearch::GaveUp(at) => {
            next_prefix_by_other_units(context, prefix, &first.otherwise, at)
        }
    }
}

// Does what `next_prefix_by_first_units` does, by a search for something else.
#[inline(never)]
fn next_prefix_by_other_units<W: SearchContext>(
    context: &W,
    prefix: &Prefix,
    otherwise: &OtherPrefilter,
    from: usize,
) -> Option<usize>
    requires at { IsBoundary (W.searching context.now).text from }
    requires prefix { (0 < prefix.now.len) × PrefixAllowsOnlyAsciiFirst prefix.now }
    requires otherwise { IsOtherPrefilterOfPrefix (is_16_bit_encoding (W.searching context.now).encoding) prefix.now
        otherwise.now }
    ensures { IsFirstPrefixFit (W.searching context.now) prefix.now from result }
{
    match otherwise {
        OtherPrefilter::Literal(literal) => next_prefix_by_literal(context, prefix, literal, from),
        OtherPrefilter::Probes(probes) => next_by_bit_probes(
            context,
            PrefixAndBitProbes { prefix, probes },
            from,
        ),
        OtherPrefilter::Units => next_prefix_match(context, prefix, None, from),
    }
}

// Does what `next_prefix_match` does, for a prefix whose units are known. In a long text, it
// searches for the literal.
// Contract: `some`, `ascii` and `known` say what the prefix and its prefilter have to be, and the
// text consists of bytes. The result is the first boundary at `from` or later where the prefix may
// occur.
#[inline(always)]
fn next_prefix_with_known_units<W: SearchContext>(
    context: &W,
    prefix: &Prefix,
    known: &LiteralPrefilter,
    from: usize,
) -> Option<usize>
    requires at { IsBoundary (W.searching context.now).text from }
    requires bytes { is_16_bit_encoding (W.searching context.now).encoding ≡ false }
    requires some { 0 < prefix.now.len }
    requires ascii { PrefixAllowsOnlyAsciiFirst prefix.now }
    requires known { IsLiteralPrefilterOfPrefix prefix.now known.now }
    ensures { IsFirstPrefixFit (W.searching context.now) prefix.now from result }
{
    if known.literal.len < 3 && known.literal.len < prefix.len {
        if let Some(probes) = &known.probes {
            return next_by_bit_probes(context, PrefixAndBitProbes { prefix, probes }, from);
        }
    }
    if text_end(context).saturating_sub(from) > LONG {
        return next_prefix_by_literal(context, prefix, &known.literal, from);
    }
    next_prefix_in_short_text(context, prefix, known, from)
}

// Does what `next_prefix_with_known_units` does, in a short text. It searches for a rare unit if
// there is one, or uses bit probes if there are any.
// The contract is that of `next_prefix_with_known_units`.
#[inline(always)]
fn next_prefix_in_short_text<W: SearchContext>(
    context: &W,
    prefix: &Prefix,
    known: &LiteralPrefilter,
    from: usize,
) -> Option<usize>
    requires at { IsBoundary (W.searching context.now).text from }
    requires bytes { is_16_bit_encoding (W.searching context.now).encoding ≡ false }
    requires some { 0 < prefix.now.len }
    requires ascii { PrefixAllowsOnlyAsciiFirst prefix.now }
    requires known { IsLiteralPrefilterOfPrefix prefix.now known.now }
    ensures { IsFirstPrefixFit (W.searching context.now) prefix.now from result }
{
    if known.rare.is_none() {
        if let Some(probes) = &known.probes {
            return next_by_bit_probes(context, PrefixAndBitProbes { prefix, probes }, from);
        }
    }
    next_prefix_match(context, prefix, known.rare, from)
}

// Returns the first offset at `from` or later at which the prefix may occur. It uses the prefilter
// of the plan.
#[inline(always)]
fn next_prefix_by_prefilter<W: SearchContext>(
    context: &W,
    prefix: &Prefix,
    prefilter: &RequiredPrefixPrefilter,
    from: usize,
) -> Option<usize>
    requires at { IsBoundary (W.searching context.now).text from }
    requires some { 0 < prefix.now.len }
    requires ascii { PrefixAllowsOnlyAsciiFirst prefix.now }
    requires filter { IsPrefilterOfPrefix (is_16_bit_encoding (W.searching context.now).encoding) prefix.now
        prefilter.now }
    ensures { IsFirstPrefixFit (W.searching context.now) prefix.now from result }
{
    match prefilter {
        RequiredPrefixPrefilter::Probes(probes) => next_by_bit_probes(
            context,
            PrefixAndBitProbes { prefix, probes },
            from,
        ),
        RequiredPrefixPrefilter::ByFirstUnits(first) => next_prefix_by_first_units(
            context, prefix, first, from,
        ),
        RequiredPrefixPrefilter::ByLiteral(known) => next_prefix_with_known_units(
            context, prefix, known, from,
        ),
        RequiredPrefixPrefilter::Absent => next_prefix_match(context, prefix, None, from),
    }
}

// ---- By the character before a match

// Returns the offset after the first character at `from` or later that begins with one of a few
// code units.
#[inline(always)]
fn start_after_unit<W: SearchContext>(
    context: &W,
    few: UpToThreeUnits,
    from: usize,
) -> Option<usize>
    requires at { IsBoundary (W.searching context.now).text from }
    requires leads { let wide = is_16_bit_encoding (W.searching context.now).encoding in
        AllowsOnlyLeadBytes wide (table_of_listed_units few) }
    ensures { IsPastFirstAllowedChar (W.searching context.now) (table_of_listed_units few) from result }
{
    let hit = next_of_few_units(context, few, from)?;
    Some(offset_after_char(context, hit))
}

// Returns the first offset at `from` or later where a match may begin, given the character before
// it.
#[inline(never)]
fn next_start_by_preceding_char<W: SearchContext>(
    context: &W,
    before: PrecedingCharFilter,
    from: usize,
) -> Option<usize>
    requires at { IsBoundary (W.searching context.now).text from }
    requires leads { FilterKeysAreLeadBytes (is_16_bit_encoding (W.searching context.now).encoding) before }
    ensures { let w = W.searching context.now in
        IsFirstBoundaryWhere w (may_start_at w (CandidateStarts.Behind before)) from result }
{
    let PrecedingCharFilter { keys, edge } = before;
    match context
        .input()
        .next_left_pos(position_in_searched_text(context, from))
    {
        Some(start) => start_after_unit(context, keys, offset_in_searched_text(context, start)),
        None => {
            if edge {
                Some(from)
            } else {
                start_after_unit(context, keys, from)
            }
        }
    }
}

// ---- By any start condition

/// Checks whether an offset is a candidate start of the plan.
#[inline(always)]
pub fn is_candidate<W: SearchContext>(context: &W, at: usize) -> bool
    requires { IsBoundary (W.searching context.now).text at }
    ensures may_start { let w = W.searching context.now in result ≡ may_start_at w w.plan.start at }
    ensures plan_fits { PlanFitsProgram (W.searching context.now) }
{
    match context.start_filter_of_plan() {
        CandidateStarts::Anywhere => true,
        CandidateStarts::InSet { set } => match context.first_set_with_number(*set) {
            Some(set) => set_allows_next_unit(context, set, at),
            None => true,
        },
        CandidateStarts::FewUnits(few) => {
            at < text_end(context) && few.has(unit_key_at_offset(context, at))
        }
        CandidateStarts::Behind(before) => preceding_char_allows_start(context, *before, at),
        CandidateStarts::Prefix { prefix, .. } => prefix_fits(context, prefix, at),
    }
}

// Checks whether a match may begin at an offset, given the character before it.
#[inline(never)]
fn preceding_char_allows_start<W: SearchContext>(
    context: &W,
    before: PrecedingCharFilter,
    at: usize,
) -> bool
    requires { IsBoundary (W.searching context.now).text at }
    ensures { let w = W.searching context.now in result ≡ allows_start w.encoding before w.text at }
{
    let PrecedingCharFilter { keys, edge } = before;
    match context
        .input()
        .next_left_pos(position_in_searched_text(context, at))
    {
        Some(start) => keys.has(unit_key_at_offset(
            context,
            offset_in_searched_text(context, start),
        )),
        None => edge,
    }
}

/// Returns the first candidate start of the plan at `from` or later.
#[inline(always)]
pub fn first_candidate<W: SearchContext>(context: &W, from: usize) -> Option<usize>
    requires { IsBoundary (W.searching context.now).text from }
    ensures first { IsFirstCandidate (W.searching context.now) from result }
    ensures plan_fits { PlanFitsProgram (W.searching context.now) }
{
    match context.start_filter_of_plan() {
        CandidateStarts::Anywhere => Some(from),
        CandidateStarts::InSet { set } => next_in_set(context, *set, from),
        CandidateStarts::FewUnits(few) => next_of_few_units(context, *few, from),
        CandidateStarts::Behind(before) => next_start_by_preceding_char(context, *before, from),
        CandidateStarts::Prefix { prefix, prefilter } => next_prefix_by_prefilter(
            context, prefix, prefilter, from,
        ),
    }
}
