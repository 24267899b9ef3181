//! Prefilters: what is searched for before the units of a required prefix are checked.

ghost use Rattle.std.specs.Prelude.{◌≡◌, ◌<◌, ◌≤◌, ◌+◌, ◌↔◌, ℕ, true, false, IsTrue, IfSome};
ghost use Rattle.regress_program.specs.PrefixesAndPrefilters.{units_allowed_by_prefix, unit_passes_probe, IsOnlyUnitAllowedAtPosition, IsLiteralForcedByPrefix, ProbePassesPrefix, ProbesPassPrefix};
ghost use Rattle.regress_program.specs.PrefixesAndPrefilters.{IsPrefilterOfPrefix, ListsFirstUnits};
ghost use Rattle.regress_program.specs.TableKeysOfUnits.{is_16_bit_width};

use crate::required_prefix_types::{
    Literal, MOST, Prefix, RequiredUnitAndOffset, is_mask_bit_clear,
};
use crate::table_keys_of_units::{KEYS, UnitWidth};
use crate::up_to_three_units::{KeySelection, UpToThreeUnits};

/// A test of the unit `ahead` units after the start: of the bits in `mask`, exactly those in `bits`
/// are set in its low eight bits.
#[derive(Clone, Copy)]
pub struct MaskedUnitProbe {
    pub ahead: usize,
    pub mask: u8,
    pub bits: u8,
}

impl MaskedUnitProbe {
    /// Checks whether a unit passes the test.
    #[inline(always)]
    pub fn passes_bit_probe(&self, unit: u32) -> bool
        ensures { result ≡ unit_passes_probe self.now unit }
    {
        (unit % 256) as u8 & self.mask == self.bits
    }
}

/// A literal to search for. In short texts, this takes longer than searching for a rare unit or for
/// probes.
#[derive(Clone, Copy)]
pub struct LiteralPrefilter {
    pub literal: Literal,
    pub rare: Option<RequiredUnitAndOffset>,
    pub probes: Option<[MaskedUnitProbe; 4]>,
}

/// The units with which a prefix begins, if they are few and rare. Where a text has many of them,
/// something else is searched for.
#[derive(Clone, Copy)]
pub struct FirstUnitsPrefilter {
    pub units: UpToThreeUnits,
    pub otherwise: OtherPrefilter,
}

/// What is searched for where a text has many of the first units of a prefix.
#[derive(Clone, Copy)]
pub enum OtherPrefilter {
    /// A literal, in bytes.
    Literal(Literal),
    /// Bits of some units.
    Probes([MaskedUnitProbe; 4]),
    /// All units of the prefix, in bytes.
    Units,
}

impl OtherPrefilter {
    /// Returns the literal, if one is searched for.
    pub fn as_literal(&self) -> Option<&Literal> {
        match self {
            OtherPrefilter::Literal(literal) => Some(literal),
            _ => None,
        }
    }
}

/// What is searched for before the units of a required prefix are checked.
#[derive(Clone, Copy)]
pub enum RequiredPrefixPrefilter {
    /// Nothing.
    Absent,
    /// A literal, in bytes.
    ByLiteral(LiteralPrefilter),
    /// The first units.
    ByFirstUnits(FirstUnitsPrefilter),
    /// Bits of some units.
    Probes([MaskedUnitProbe; 4]),
}

impl RequiredPrefixPrefilter {
    /// Checks whether nothing is searched for.
    pub fn is_absent(&self) -> bool
        ensures { IsTrue result ↔ self.now ≡ RequiredPrefixPrefilter.Absent }
    {
        match self {
            RequiredPrefixPrefilter::Absent => true,
            RequiredPrefixPrefilter::ByLiteral(_) => false,
            RequiredPrefixPrefilter::ByFirstUnits(_) => false,
            RequiredPrefixPrefilter::Probes(_) => false,
        }
    }
}

/// A unit at least as frequent as this, in a thousand, is not searched for alone.
const OFTEN: u32 = 15;

/// The maximum frequency of the first units, in a thousand, if they are searched for alone. Where
/// they are more frequent, it takes longer to check the prefix at each of them than to test bits of
/// several units.
const MAX_FIRST_UNITS_FREQUENCY: u32 = 10;

/// The maximum frequency of a unit, in a thousand.
const ALWAYS: u32 = 1000;

/// The maximum number of positions, in a million, that may pass all probes.
const MOST_THAT_PASS: u32 = 100_000;

/// What the units that may occur at a position have in common: the bits that all of them have, and
/// the bits that some have. Also their number, and how often they occur in texts.
#[derive(Clone, Copy)]
struct CommonBitsOfUnits {
    all: u8,
    some: u8,
    count: u32,
    often: u32,
}

/// The common bits of no units.
const NO_UNIT: CommonBitsOfUnits = CommonBitsOfUnits {
    all: 0xFF,
    some: 0,
    count: 0,
    often: 0,
};

impl CommonBitsOfUnits {
    // Adds a unit that occurs in texts with this frequency. The sums are of at most 128 units, so
    // they do not wrap.
    #[inline(always)]
    fn with(self, unit: u8, often: u8) -> CommonBitsOfUnits {
        CommonBitsOfUnits {
            all: self.all & unit,
            some: self.some | unit,
            count: self.count.wrapping_add(1),
            often: self.often.wrapping_add(u32::from(often)),
        }
    }

    // Checks whether it is one unit alone.
    fn is_unit(self) -> bool {
        self.count == 1
    }

    // Estimates how often units with these bits occur in texts, in a thousand. Each is taken to be
    // as frequent as the units that may occur are on average.
    fn frequency(self) -> u32 {
        if self.some >= 128 || self.count == 0 {
            return ALWAYS;
        }
        let free = (self.all ^ self.some).count_ones().min(8);
        (self.often.min(ALWAYS) << free).min(1_000_000) / self.count.max(1)
    }

    // Returns the probe for these bits, `ahead` units after the start.
    fn probe(self, ahead: usize) -> MaskedUnitProbe {
        MaskedUnitProbe {
            ahead,
            mask: !(self.all ^ self.some),
            bits: self.all,
        }
    }
}

impl Prefix {
    /// Chooses the prefilter: first units that are few and rare, or for texts in bytes a literal,
    /// if there is one, and otherwise probes, if few positions pass them. Not inlined, because most
    /// patterns have no prefilter, and its buffers would be cleared in the caller.
    #[inline(never)]
    pub(crate) fn choose_prefilter(&self, units: UnitWidth) -> Option<RequiredPrefixPrefilter>
        ensures { IfSome result (IsPrefilterOfPrefix (is_16_bit_width units) self.now) }
    {
        let common_bits = self.common_bits();
        let probes = self.probes(&common_bits);
        match units {
            UnitWidth::Bytes => Some(self.choose_prefilter_in_bytes(&common_bits, probes)),
            UnitWidth::Wide => Some(self.choose_prefilter_in_units(&common_bits, probes?)),
        }
    }

    // Chooses the prefilter for texts in bytes.
    fn choose_prefilter_in_bytes(
        &self,
        common_bits: &[CommonBitsOfUnits; 16],
        probes: Option<[MaskedUnitProbe; 4]>,
    ) -> RequiredPrefixPrefilter
        requires { IfSome probes (ProbesPassPrefix self.now) }
        ensures { IsPrefilterOfPrefix false self.now result }
    {
        let literal = self.literal(common_bits);
        if let Some(units) = self.rare_first_units(common_bits, literal.is_some()) {
            let otherwise = match (literal, probes) {
                (Some(literal), _) => OtherPrefilter::Literal(literal),
                (None, Some(probes)) => OtherPrefilter::Probes(probes),
                (None, None) => OtherPrefilter::Units,
            };
            return RequiredPrefixPrefilter::ByFirstUnits(FirstUnitsPrefilter { units, otherwise });
        }
        if let Some(literal) = literal {
            let rare = self.rare(common_bits);
            return RequiredPrefixPrefilter::ByLiteral(LiteralPrefilter {
                literal,
                rare,
                probes,
            });
        }
        match probes {
            Some(probes) => RequiredPrefixPrefilter::Probes(probes),
            None => RequiredPrefixPrefilter::Absent,
        }
    }

    // Chooses the prefilter for texts of 16-bit units.
    fn choose_prefilter_in_units(
        &self,
        common_bits: &[CommonBitsOfUnits; 16],
        probes: [MaskedUnitProbe; 4],
    ) -> RequiredPrefixPrefilter
        requires { ProbesPassPrefix self.now probes }
        ensures { IsPrefilterOfPrefix true self.now result }
    {
        let has_literal = self.literal(common_bits).is_some();
        match self.rare_first_units(common_bits, has_literal) {
            Some(units) => {
                let otherwise = OtherPrefilter::Probes(probes);
                let first = FirstUnitsPrefilter { units, otherwise };
                RequiredPrefixPrefilter::ByFirstUnits(first)
            }
            None => RequiredPrefixPrefilter::Probes(probes),
        }
    }

    // Returns the first units, if they are few and rare. If the prefix requires a literal, they must
    // be a capital letter before a small one.
    fn rare_first_units(
        &self,
        common_bits: &[CommonBitsOfUnits; 16],
        has_literal: bool,
    ) -> Option<UpToThreeUnits>
        ensures { IfSome result (ListsFirstUnits self.now) }
    {
        if common_bits[0].often > MAX_FIRST_UNITS_FREQUENCY {
            return None;
        }
        if has_literal && !begins_with_capital(common_bits) {
            return None;
        }
        UpToThreeUnits::of_selected(self)
    }

    // Returns, for each position, what the units that may occur there have in common; `NO_UNIT`
    // where some are not below 128.
    fn common_bits(&self) -> [CommonBitsOfUnits; 16] {
        let others = !self.mask_excluding_keys(128, KEYS);
        let mut common_bits = [NO_UNIT; 16];
        for block in 0..8 {
            let from = block * 16;
            if self.mask_excluding_keys(from, from + 16) | others != u16::MAX {
                self.add_keys(from, others, &mut common_bits);
            }
        }
        common_bits
    }

    // Adds the units of 16 keys from `from` on, except at positions in the mask `others`.
    fn add_keys(&self, from: usize, others: u16, common_bits: &mut [CommonBitsOfUnits; 16])
        requires { from ≤ 240 }
    {
        for key in from..from + 16 {
            let mask = self.masks[key] | others;
            if mask != u16::MAX {
                add_key(common_bits, self.len, mask, key as u8);
            }
        }
    }

    // Returns the longest literal, unless it is a single unit of a longer prefix.
    fn literal(&self, common_bits: &[CommonBitsOfUnits; 16]) -> Option<Literal>
        ensures { IfSome result (IsLiteralForcedByPrefix self.now) }
    {
        let literal = longest_literal(common_bits, self.len);
        if (literal.len > 1 || literal.len == self.len) && self.has_literal(&literal) {
            Some(literal)
        } else {
            None
        }
    }

    // Checks whether each unit of the literal is the only one that may occur at its position.
    fn has_literal(&self, literal: &Literal) -> bool
        ensures { result ≡ true → IsLiteralForcedByPrefix self.now literal.now }
    {
        let Literal { units, len, ahead } = *literal;
        if len == 0 || len > self.len || ahead > self.len - len {
            return false;
        }
        for i in 0..len {
            let unit = RequiredUnitAndOffset {
                unit: units[i],
                ahead: ahead + i,
            };
            if !self.has_alone(unit) {
                return false;
            }
        }
        true
    }

    // Returns the rarest unit, if each position allows one unit alone and this one is rare.
    fn rare(&self, common_bits: &[CommonBitsOfUnits; 16]) -> Option<RequiredUnitAndOffset>
        ensures { IfSome result (λ rare. IsOnlyUnitAllowedAtPosition self.now rare) }
    {
        let mut rare = RequiredUnitAndOffset { unit: 0, ahead: 0 };
        let mut least = OFTEN;
        for ahead in 0..self.len {
            let common = common_bits[ahead];
            if !common.is_unit() {
                return None;
            }
            if common.frequency() < least {
                least = common.frequency();
                rare = RequiredUnitAndOffset {
                    unit: common.all,
                    ahead,
                };
            }
        }
        if self.has_alone(rare) {
            Some(rare)
        } else {
            None
        }
    }

    // Checks whether this unit may occur at its position, and no other.
    fn has_alone(&self, rare: RequiredUnitAndOffset) -> bool
        ensures { result ≡ true → IsOnlyUnitAllowedAtPosition self.now rare }
    {
        if rare.ahead >= self.len {
            return false;
        }
        let unit = usize::from(rare.unit);
        self.is_key_allowed(unit, rare.ahead)
            && self.excludes_key_range_at(0, unit, rare.ahead)
            && self.excludes_key_range_at(unit + 1, KEYS, rare.ahead)
    }

    // Returns the probes to search for, if they are rare.
    fn probes(&self, common_bits: &[CommonBitsOfUnits; 16]) -> Option<[MaskedUnitProbe; 4]>
        ensures { IfSome result (λ probes. ProbesPassPrefix self.now probes) }
    {
        let [a, b, c, d] = rarest_probes(common_bits)?;
        if self.has_probe(a) && self.has_probe(b) && self.has_probe(c) && self.has_probe(d) {
            Some([a, b, c, d])
        } else {
            None
        }
    }

    // Checks whether only units below 128 that pass the probe may occur at its position.
    fn has_probe(&self, probe: MaskedUnitProbe) -> bool
        ensures { result ≡ true → ProbePassesPrefix self.now probe }
    {
        probe.ahead < self.len && self.allows_only_ascii_at(probe.ahead) && self.ascii_passes(probe)
    }

    // Checks whether, of the units below 128, only those that pass the probe may occur at its
    // position.
    fn ascii_passes(&self, probe: MaskedUnitProbe) -> bool
        requires { probe.ahead < 16 }
        ensures { result ≡ true → (k : ℕ) → k < 128
            → units_allowed_by_prefix self.now probe.ahead k ≡ true → unit_passes_probe probe k ≡ true }
    {
        for block in 0..8 {
            if !self.block_passes(probe, block * 16) {
                return false;
            }
        }
        true
    }

    // Checks the same for 16 keys from `from` on. In most blocks, none may occur.
    fn block_passes(&self, probe: MaskedUnitProbe, from: usize) -> bool
        requires ahead { probe.ahead < 16 }
        requires inside { from + 16 ≤ 256 }
        ensures { result ≡ true → (k : ℕ) → from ≤ k → k < from + 16
            → units_allowed_by_prefix self.now probe.ahead k ≡ true → unit_passes_probe probe k ≡ true }
    {
        if self.excludes_key_range_at(from, from + 16, probe.ahead) {
            return true;
        }
        let mut others = false;
        for key in from..from + 16 {
            others |= self.is_key_allowed(key, probe.ahead) & !probe.passes_bit_probe(key as u32);
        }
        !others
    }
}

// Checks whether a capital letter and a small one are the first two units. A capital letter that
// begins a word is rare. Words of capital letters are frequent in some texts.
fn begins_with_capital(common_bits: &[CommonBitsOfUnits; 16]) -> bool {
    let first = common_bits[0];
    let second = common_bits[1];
    first.is_unit()
        && first.all.is_ascii_uppercase()
        && second.is_unit()
        && second.all.is_ascii_lowercase()
}

// The keys of the units with which a prefix may begin.
impl KeySelection for Prefix {
    ghost use Rattle.regress_program.specs.PrefixesAndPrefilters.{units_allowed_by_prefix};

    ghost selects_key = { λ prefix key. units_allowed_by_prefix prefix 0 key };

    fn selects(&self, key: u8) -> bool {
        self.is_key_allowed(usize::from(key), 0)
    }
}

// Returns the longest sequence of positions below `len` that allow one unit each.
fn longest_literal(common_bits: &[CommonBitsOfUnits; 16], len: usize) -> Literal {
    let mut longest = 0;
    let mut first = 0;
    let mut from = 0;
    for ahead in 0..MOST {
        if ahead < len && common_bits[ahead].is_unit() {
            let row = (ahead + 1).saturating_sub(from);
            if row > longest {
                longest = row;
                first = from;
            }
        } else {
            from = ahead + 1;
        }
    }
    literal_at(common_bits, first, longest)
}

// Returns the literal of `len` units at the positions from `ahead` on.
fn literal_at(common_bits: &[CommonBitsOfUnits; 16], ahead: usize, len: usize) -> Literal {
    let mut units = [0; 15];
    for i in 0..len.min(MOST) {
        if let Some(common) = common_bits.get(ahead.saturating_add(i)) {
            units[i] = common.all;
        }
    }
    Literal { units, len, ahead }
}

// Adds a key at each position below `len` at which its mask allows it.
fn add_key(common_bits: &mut [CommonBitsOfUnits; 16], len: usize, mask: u16, key: u8) {
    let often = frequency(key);
    for ahead in 0..len.min(16) {
        if is_mask_bit_clear(mask, ahead) {
            common_bits[ahead] = common_bits[ahead].with(key, often);
        }
    }
}

// Returns the four rarest probes, the rarest one first, if they are rare enough.
fn rarest_probes(common_bits: &[CommonBitsOfUnits; 16]) -> Option<[MaskedUnitProbe; 4]> {
    let mut often = [ALWAYS; 16];
    for ahead in 0..16 {
        often[ahead] = common_bits[ahead].frequency().min(ALWAYS);
    }
    let mut probes = [common_bits[0].probe(0); 4];
    let mut pass = 1_000_000u32;
    for i in 0..4 {
        let ahead = least(&often);
        pass = pass.saturating_mul(often[ahead]) / 1000;
        probes[i] = common_bits[ahead].probe(ahead);
        often[ahead] = ALWAYS;
    }
    if pass > MOST_THAT_PASS {
        None
    } else {
        Some(probes)
    }
}

// Returns the index of the smallest number.
fn least(numbers: &[u32; 16]) -> usize
    ensures { result < 16 }
{
    let mut at = 0;
    'numbers: for i in 1..16 {
        if numbers[i] < numbers[at] {
            at = i;
        }
    }
    at
}

/// An estimate of how often each unit below 128 occurs in texts, in a thousand: 150 for a space, 50
/// for the twelve most frequent letters, 10 for `v`, `k`, `.` and `,`, 20 for other small letters
/// but the four rarest, for digits and for the end of a line, 3 for capital letters, and 5 for all
/// others.
static FREQUENCIES: [u8; 128] = [
    5, 5, 5, 5, 5, 5, 5, 5, 5, 5, 20, 5, 5, 5, 5, 5, 5, 5, 5, 5, 5, 5, 5, 5, 5, 5, 5, 5, 5, 5, 5,
    5, 150, 5, 5, 5, 5, 5, 5, 5, 5, 5, 5, 5, 10, 5, 10, 5, 20, 20, 20, 20, 20, 20, 20, 20, 20, 20,
    5, 5, 5, 5, 5, 5, 5, 3, 3, 3, 3, 3, 3, 3, 3, 3, 3, 3, 3, 3, 3, 3, 3, 3, 3, 3, 3, 3, 3, 3, 3, 3,
    3, 5, 5, 5, 5, 5, 5, 50, 20, 20, 50, 50, 20, 20, 50, 50, 5, 10, 50, 20, 50, 50, 20, 5, 50, 50,
    50, 50, 10, 20, 5, 20, 5, 5, 5, 5, 5, 5,
];

/// The frequency of a unit of 128 or more.
const FREQUENCY_BEYOND_ASCII: u8 = 5;

/// Estimates how often a unit occurs in texts, in a thousand.
#[inline]
pub(crate) fn frequency(unit: u8) -> u8 {
    match FREQUENCIES.get(usize::from(unit)) {
        Some(frequency) => *frequency,
        None => FREQUENCY_BEYOND_ASCII,
    }
}
