//! First sets: which characters may come next, by the keys of their first units.
//!
//! Functions that return a set are inlined, because each call would clear and copy the whole set.

ghost use Rattle.std.specs.Prelude.{◌≡◌, ◌≢◌, ◌<◌, ◌↔◌, ◌&&◌, ◌||◌, ◌==◌, ℕ, Bool, Option, None, true, false, not, slice_index_or};
ghost use Rattle.regex_meaning.specs.CodeUnits.{Encoding};
ghost use Rattle.regress_machine.specs.FirstSetTables.{TableAllowsAll, IsSubtable, table_allows_key_or_end};
ghost use Rattle.regress_program.specs.AlternationDispatch.{key_or_end_of_table_index};
ghost use Rattle.regress_program.specs.TableKeysOfUnits.{is_16_bit_width, is_16_bit_encoding, begins_utf8_character, unit_table_of_set, KeyCharsLieInRangeOrPairs};
ghost use Rattle.regress_program.specs.Plans.{IsCharOrEnd, allows_next, HasOnlyLeadBytes};
ghost use Rattle.regress_program.specs.{ClosedFirstSets.{AllowsLineEnd, AllowsReadLengths}, KeyClassBoundaries.{AreDistinguishedBy}};

use crate::char_class_tables::Class;
use crate::equal_tables::ComparedTable;
use crate::table_keys_of_units::{KEYS, UnitWidth, characters_of_key, key_of_first_unit};

/// A set of characters, by the keys of their first units, and whether the right end of the text is
/// in it.
#[derive(Clone, Copy)]
pub struct FirstSet {
    pub keys: [bool; 256],
    pub end: bool,
}

impl FirstSet {
    /// Returns the set of all characters and the right end. In bytes, it contains only keys of lead
    /// bytes.
    #[inline(always)]
    pub(crate) fn anything(units: UnitWidth) -> Self
        ensures all { (e : Encoding) → is_16_bit_encoding e ≡ is_16_bit_width units → (next : Option ℕ)
            → IsCharOrEnd e next → allows_next e (unit_table_of_set result) next ≡ true }
        ensures leads { HasOnlyLeadBytes (is_16_bit_width units) result }
    {
        FirstSet {
            keys: all_keys(units),
            end: true,
        }
    }

    /// Returns the set of all keys and the right end.
    #[inline(always)]
    pub(crate) fn full() -> Self
        ensures { TableAllowsAll (unit_table_of_set result) }
    {
        FirstSet {
            keys: [true; 256],
            end: true,
        }
    }

    /// Checks whether the set contains all keys and the right end.
    pub(crate) fn is_full(&self) -> bool
        ensures { result ≡ true → TableAllowsAll (unit_table_of_set self.now) }
    {
        self.end && self.is_superset_of(&FirstSet::full())
    }

    /// Checks whether the set contains this key, or the right end if `seen` is `KEYS`.
    #[inline(always)]
    pub(crate) fn contains_key_or_end(&self, seen: usize) -> bool
        requires { seen < 257 }
        ensures { result ≡ table_allows_key_or_end (unit_table_of_set self.now) (key_or_end_of_table_index seen) }
    {
        if seen < KEYS {
            self.keys[seen]
        } else {
            self.end
        }
    }

    /// Returns the empty set.
    #[inline(always)]
    pub(crate) fn nothing() -> Self
        ensures keys { (k : ℕ) → k < 256 → (unit_table_of_set result).keys k ≡ false }
        ensures end { result.end ≡ false }
    {
        FirstSet {
            keys: [false; 256],
            end: false,
        }
    }

    /// Returns the set with one more key.
    #[inline(always)]
    pub(crate) fn with(self, key: usize) -> Self
        requires { key < 256 }
        ensures keys { (k : ℕ) → (unit_table_of_set result).keys k ≡ ((unit_table_of_set self).keys k || k == key) }
        ensures end { result.end ≡ self.end }
    {
        let mut set = self;
        set.keys[key] = true;
        set
    }

    /// Returns what may come next at the end of a line: the right end and, with `multiline`, the
    /// line terminators.
    pub(crate) fn line_end_first_set(multiline: bool, units: UnitWidth) -> Self
        ensures { AllowsLineEnd (is_16_bit_width units) multiline (unit_table_of_set result) }
    {
        let mut set = FirstSet::nothing();
        set.end = true;
        if multiline {
            set = set.with(key_of_first_unit(0x0A, units));
            set = set.with(key_of_first_unit(0x0D, units));
            set = set.with(key_of_first_unit(0x2028, units));
            set = set.with(key_of_first_unit(0x2029, units));
        }
        set
    }

    /// Returns the keys of characters that a class may accept.
    #[inline(always)]
    pub(crate) fn first_keys_of_class(class: &Class) -> Self
        ensures keys { (k : ℕ) → k < 256 → (unit_table_of_set result).keys k
            ≡ not (slice_index_or class.now.steps k 0 == 0) }
        ensures end { result.end ≡ false }
    {
        let mut set = FirstSet::nothing();
        for key in 0..KEYS {
            set.keys[key] = class.steps[key] != 0;
        }
        set
    }

    /// Adds the keys of characters that a class may accept.
    pub(crate) fn add_keys_of_class(&mut self, class: &Class) {
        for key in 0..KEYS {
            self.keys[key] |= class.steps[key] != 0;
        }
    }

    /// Checks whether the set contains the key of each character that a class may accept.
    pub(crate) fn contains_keys_of_class(&self, class: &Class) -> bool
        ensures { result ≡ true → AllowsReadLengths class.now.steps (unit_table_of_set self.now) }
    {
        // Without an early exit, the loop can process many keys at a time.
        let mut contains = true;
        for key in 0..KEYS {
            contains = contains & self.contains_key_of_class(class, key);
        }
        contains
    }

    // Checks whether the set contains a key, or the class accepts no character with this key.
    #[inline(always)]
    fn contains_key_of_class(&self, class: &Class, key: usize) -> bool
        requires { key < 256 }
        ensures { result ≡ true → slice_index_or class.now.steps key 0 ≢ 0 → (unit_table_of_set self.now).keys key ≡ true }
    {
        (class.steps[key] == 0) | self.keys[key]
    }

    /// Returns the union of both sets.
    #[inline(always)]
    pub(crate) fn or(&self, other: &FirstSet) -> Self
        ensures keys { (k : ℕ) → (unit_table_of_set result).keys k
            ≡ ((unit_table_of_set self.now).keys k || (unit_table_of_set other.now).keys k) }
        ensures end { result.end ≡ (self.now.end || other.now.end) }
    {
        let mut keys = [false; 256];
        for key in 0..KEYS {
            keys[key] = self.keys[key] | other.keys[key];
        }
        FirstSet {
            keys,
            end: self.end || other.end,
        }
    }

    /// Returns the intersection of both sets.
    #[inline(always)]
    pub(crate) fn and(&self, other: &FirstSet) -> Self
        ensures keys { (k : ℕ) → (unit_table_of_set result).keys k
            ≡ ((unit_table_of_set self.now).keys k && (unit_table_of_set other.now).keys k) }
        ensures end { result.end ≡ (self.now.end && other.now.end) }
    {
        let mut keys = [false; 256];
        for key in 0..KEYS {
            keys[key] = self.keys[key] & other.keys[key];
        }
        FirstSet {
            keys,
            end: self.end && other.end,
        }
    }

    /// Returns `others` with the keys added that the set distinguishes from the key before them.
    pub(crate) fn with_unlike_keys(&self, others: &[bool; 256]) -> [bool; 256]
        ensures { AreDistinguishedBy self.now others.now result }
    {
        let mut told = *others;
        for key in 1..KEYS {
            told[key] |= self.keys[key] != self.keys[key - 1];
        }
        told
    }

    /// Checks whether the other set is a subset of this one.
    #[inline(always)]
    pub(crate) fn is_superset_of(&self, other: &FirstSet) -> bool
        ensures { (result ≡ true) ↔ IsSubtable (unit_table_of_set other.now) (unit_table_of_set self.now) }
    {
        // Without an early exit, the loop can process many keys at a time.
        let mut lacks = false;
        for key in 0..KEYS {
            lacks |= other.keys[key] & !self.keys[key];
        }
        if lacks {
            return false;
        }
        self.end || !other.end
    }
}

impl ComparedTable for FirstSet {
    fn is_equal_to(&self, other: &FirstSet) -> bool {
        // The set of everything, which is compared first in each plan, includes any other set.
        self.end == other.end && other.is_superset_of(self) && self.is_superset_of(other)
    }
}

// Returns the keys with which characters begin.
fn all_keys(units: UnitWidth) -> [bool; 256]
    ensures all { (k : ℕ) → k < 256 → slice_index_or result k true ≡ false
        → KeyCharsLieInRangeOrPairs (is_16_bit_width units) k None }
    ensures leads { (k : ℕ) → k < 256 → slice_index_or result k true ≡ true
        → (is_16_bit_width units || begins_utf8_character k) ≡ true }
{
    let mut keys = [false; 256];
    for key in 0..=u8::MAX {
        keys[usize::from(key)] = characters_of_key(key, units).is_some();
    }
    keys
}
