//! Character classes: `[a-z]`, `\d` and the like.

ghost use Rattle.std.specs.Prelude.{◌≡◌, ◌≢◌, ◌≤◌, ◌∷◌, ◌++◌, [], Bool, false, ℕ, length, map, option_map, IfOk, OnOk};
ghost use Rattle.regex_meaning.specs.Outcomes.{in_intervals};
ghost use Rattle.regex_meaning.specs.CharacterClasses.{class, single_code_point_interval, CharacterClass, ClassAtom, IsSetOf, class_member_contains};
ghost use Rattle.std.specs.List.{list_any};
ghost use Rattle.regex_pattern_front.specs.Intervals.{interval_of};
ghost use Rattle.regex_pattern_front.specs.AstToSpecTree.{class_as_spec, spec_flags_of};
ghost use Rattle.regex_parser.specs.CodePointReaderContracts.{IsReadAndErrorMeansUnreadable, IsReadOrSyntaxError, class_end};
ghost use Rattle.regex_parser.specs.ClassReaderContracts.{uninverted_digit_word_or_space_set, class_member_of_character_class_escape, class_member_of_atom, class_escape_of_letter, is_in_any_interval};
ghost use Rattle.regex_parser.specs.ClassReaderContracts.{IsCaseClosureOfTest, AddsMembers, IsRangeEndRead};
ghost use Rattle.regex_parser.specs.ClassReaderContracts.{IsClassMemberRead, AreClassRangesRead, FailsExactlyOnSetOperation, AreRangeEndsIfBothCharacters, begins_nested_class_or_operation};
ghost use Rattle.regex_parser.specs.ClassReaderContracts.{some_case_variant_passes, letter_case_variants_if_any_passes};

use crate::code_point_reader::PatternReader;
use crate::diagnosis::Cause;
use crate::escapes_and_group_names::character_escape;
use crate::parser_error::ParseStopReason;
use regex_pattern_front::codepointset::{CodePointSet, Interval};
use regex_pattern_front::flags::Flags;
use regex_pattern_front::folding_and_first_bytes::expand_code_point;
use regex_pattern_front::types::BracketContents;
use std::alloc::{AllocError, Global};

const DIGITS: [Interval; 1] = [Interval {
    first: 0x30,
    last: 0x39,
}];

const WORD_CHARACTERS: [Interval; 4] = [
    Interval {
        first: 0x30,
        last: 0x39,
    },
    Interval {
        first: 0x41,
        last: 0x5A,
    },
    Interval {
        first: 0x5F,
        last: 0x5F,
    },
    Interval {
        first: 0x61,
        last: 0x7A,
    },
];

// WhiteSpace and LineTerminator (ECMA-262, 11.2 and 11.3).
const SPACES: [Interval; 10] = [
    Interval {
        first: 0x09,
        last: 0x0D,
    },
    Interval {
        first: 0x20,
        last: 0x20,
    },
    Interval {
        first: 0xA0,
        last: 0xA0,
    },
    Interval {
        first: 0x1680,
        last: 0x1680,
    },
    Interval {
        first: 0x2000,
        last: 0x200A,
    },
    Interval {
        first: 0x2028,
        last: 0x2029,
    },
    Interval {
        first: 0x202F,
        last: 0x202F,
    },
    Interval {
        first: 0x205F,
        last: 0x205F,
    },
    Interval {
        first: 0x3000,
        last: 0x3000,
    },
    Interval {
        first: 0xFEFF,
        last: 0xFEFF,
    },
];

/// A class escape: `\d`, `\w` or `\s` or, with `invert`, `\D`, `\W` or `\S`.
#[derive(Clone, Copy)]
pub(crate) struct DigitWordOrSpaceEscape {
    pub(crate) base: CharacterClassType,
    pub(crate) invert: bool,
}

/// The set of a class escape, before it is inverted.
#[derive(Clone, Copy)]
pub(crate) enum CharacterClassType {
    Digits,
    WordCharacters,
    Spaces,
}

impl DigitWordOrSpaceEscape {
    /// Returns the class escape of this letter, or `None` if the letter has none.
    pub(crate) fn of(letter: Option<char>) -> Option<DigitWordOrSpaceEscape>
        ensures { option_map class_member_of_character_class_escape result ≡ class_escape_of_letter letter }
    {
        let (base, invert) = match letter? {
            'd' => (CharacterClassType::Digits, false),
            'D' => (CharacterClassType::Digits, true),
            'w' => (CharacterClassType::WordCharacters, false),
            'W' => (CharacterClassType::WordCharacters, true),
            's' => (CharacterClassType::Spaces, false),
            'S' => (CharacterClassType::Spaces, true),
            _ => return None,
        };
        Some(DigitWordOrSpaceEscape { base, invert })
    }

    /// Returns the class of the escape.
    ///
    /// The set is that of the lowercase escape, and `invert` says whether the class is inverted.
    pub(crate) fn bracket_contents_of_escape(
        self,
        alloc: Global,
        flags: Flags,
    ) -> Result<BracketContents, AllocError>
        ensures set { IfOk result (λ b. IsSetOf (spec_flags_of flags)
            (class (uninverted_digit_word_or_space_set self.base) false ∷ []) b.cps) }
        ensures invert { IfOk result (λ b. b.invert ≡ self.invert) }
    {
        Ok(BracketContents {
            invert: self.invert,
            cps: into_case_closed_set(self.base.intervals(alloc)?, flags)?,
        })
    }

    // Returns the code points of the escape.
    fn set(self, alloc: Global, flags: Flags) -> Result<CodePointSet, AllocError>
        ensures { IfOk result (λ s. (c : ℕ) → in_intervals s c ≡ class_member_contains (spec_flags_of flags) c
            (class_member_of_character_class_escape self)) }
    {
        let contents = self.bracket_contents_of_escape(alloc, flags)?;
        if contents.invert {
            contents.cps.inverted()
        } else {
            Ok(contents.cps)
        }
    }

    // Adds the code points of the escape to the intervals.
    fn add_to(self, intervals: &mut Vec<Interval>, flags: Flags) -> Result<(), AllocError>
        ensures { let old = intervals.old.items in let new = intervals.new.items in
            OnOk result (AddsMembers (spec_flags_of flags) old new (class_member_of_character_class_escape self ∷ [])) }
    {
        let set = self.set(*intervals.allocator(), flags)?;
        append_intervals(intervals, set.intervals())
    }
}

impl CharacterClassType {
    /// Returns the intervals of the set, without code points beyond ASCII that fold into it.
    pub(crate) fn intervals(self, alloc: Global) -> Result<Vec<Interval>, AllocError>
        ensures { IfOk result (λ v. map interval_of v.items ≡ uninverted_digit_word_or_space_set self) }
    {
        match self {
            CharacterClassType::Digits => DIGITS.to_vec(alloc),
            CharacterClassType::WordCharacters => WORD_CHARACTERS.to_vec(alloc),
            CharacterClassType::Spaces => SPACES.to_vec(alloc),
        }
    }
}

/// Appends these intervals.
pub(crate) fn append_intervals(
    intervals: &mut Vec<Interval>,
    others: &[Interval],
) -> Result<(), AllocError>
    ensures { OnOk result (intervals.new.items ≡ intervals.old.items ++ others.now) }
{
    for interval in others {
        intervals.push(*interval)?;
    }
    Ok(())
}

/// Reads a class from after its `[` to its `]` (ECMA-262, 21.2.1 `CharacterClass`).
pub(crate) fn read_class(
    alloc: Global,
    reader: &mut PatternReader,
    flags: Flags,
) -> Result<BracketContents, ParseStopReason>
    ensures moves { length reader.new.rest.now ≤ length reader.old.rest.now }
    ensures text { let here = reader.old.rest.now in
        IsReadOrSyntaxError class_as_spec (CharacterClass (spec_flags_of flags) here) result reader.new.rest.now }
{
    if flags.unicode_sets {
        no_set_operation(*reader)?;
    }
    let start = *reader;
    let invert = reader.eat('^');
    Ok(BracketContents {
        invert,
        cps: ranges(alloc, reader, start, flags)?,
    })
}

// Reads the members of a class up to its `]`. The class begins just before `start`.
fn ranges(
    alloc: Global,
    reader: &mut PatternReader,
    start: PatternReader,
    flags: Flags,
) -> Result<CodePointSet, ParseStopReason>
    ensures moves { length reader.new.rest.now ≤ length reader.old.rest.now }
    ensures text { AreClassRangesRead (spec_flags_of flags) reader.old.rest.now result reader.new.rest.now }
{
    let mut intervals = Vec::new(alloc);
    while let Some(c) = reader.next() {
        if c == ']' as u32 {
            return Ok(into_case_closed_set(intervals, flags)?);
        }
        read_member(&mut intervals, reader, c, flags)?;
    }
    Err(start.error_at_last_read(Cause::UnclosedClass))
}

// Returns an error if the class that begins here contains a nested class, `&&` or `--`.
fn no_set_operation(reader: PatternReader) -> Result<(), ParseStopReason>
    ensures { FailsExactlyOnSetOperation reader.entry.rest.now result }
{
    let mut ahead = reader;
    while let Some(c) = ahead.read_next_and_skip_escaped() {
        if c == ']' as u32 {
            return Ok(());
        }
        if begins_nested_class_or_operation(c, ahead.peek()) {
            return Err(ahead.error_at_last_read(Cause::SetOperation));
        }
    }
    Ok(())
}

// Checks whether this code point begins a nested class or a set operation, given the next one.
fn begins_nested_class_or_operation(c: u32, next: Option<char>) -> bool
    ensures { result ≡ begins_nested_class_or_operation c next }
{
    match char::from_u32(c) {
        Some('[') => true,
        Some('&') => next == Some('&'),
        Some('-') => next == Some('-'),
        _ => false,
    }
}

// One end of a range, or a member by itself.
#[derive(Clone, Copy)]
enum ClassAtomValue {
    Character(u32),
    Escape(DigitWordOrSpaceEscape),
}

// Reads the character, range or class escape that begins with this code point. A `-` that makes no
// range denotes itself.
fn read_member(
    intervals: &mut Vec<Interval>,
    reader: &mut PatternReader,
    c: u32,
    flags: Flags,
) -> Result<(), ParseStopReason>
    requires { c ≢ class_end }
    ensures moves { length reader.new.rest.now ≤ length reader.old.rest.now }
    ensures text { let here = c ∷ reader.old.rest.now in let there = reader.new.rest.now in
        IsClassMemberRead (spec_flags_of flags) here intervals.old.items result intervals.new.items there }
{
    let start = *reader;
    let first = read_atom(reader, c, flags)?;
    let mut ahead = *reader;
    let Some(second) = range_end(&mut ahead, flags)? else {
        add_class_atom(intervals, first, flags)?;
        return Ok(());
    };
    *reader = ahead;
    if let Some((first, last)) = range_ends_of_atoms(first, second) {
        if last < first {
            return Err(start.error_at_last_read(Cause::RangeOutOfOrder));
        }
        intervals.push(Interval { first, last })?;
        return Ok(());
    }
    add_class_atom(intervals, first, flags)?;
    add_class_atom(intervals, ClassAtomValue::Character('-' as u32), flags)?;
    add_class_atom(intervals, second, flags)?;
    Ok(())
}

// Returns the ends of a range, if both atoms are characters.
fn range_ends_of_atoms(first: ClassAtomValue, second: ClassAtomValue) -> Option<(u32, u32)>
    ensures { AreRangeEndsIfBothCharacters first second result }
{
    let ClassAtomValue::Character(first) = first else {
        return None;
    };
    let ClassAtomValue::Character(last) = second else {
        return None;
    };
    Some((first, last))
}

// Reads a `-` and the atom that ends the range. Returns `None` if there is no `-`, or if it is the
// last character of the class.
fn range_end(
    reader: &mut PatternReader,
    flags: Flags,
) -> Result<Option<ClassAtomValue>, ParseStopReason>
    ensures moves { length reader.new.rest.now ≤ length reader.old.rest.now }
    ensures text { IsRangeEndRead (spec_flags_of flags) reader.old.rest.now result reader.new.rest.now }
{
    if !reader.eat('-') {
        return Ok(None);
    }
    match reader.next() {
        Some(c) if c != ']' as u32 => Ok(Some(read_atom(reader, c, flags)?)),
        _ => Ok(None),
    }
}

// Reads the character or class escape that begins with this code point.
fn read_atom(
    reader: &mut PatternReader,
    c: u32,
    flags: Flags,
) -> Result<ClassAtomValue, ParseStopReason>
    requires { c ≢ class_end }
    ensures moves { length reader.new.rest.now ≤ length reader.old.rest.now }
    ensures text { let here = c ∷ reader.old.rest.now in
        IsReadAndErrorMeansUnreadable class_member_of_atom (ClassAtom (spec_flags_of flags) here) result
        reader.new.rest.now }
{
    if c != '\\' as u32 {
        return Ok(ClassAtomValue::Character(c));
    }
    if let Some(escape) = DigitWordOrSpaceEscape::of(reader.peek()) {
        let _ = reader.next();
        return Ok(ClassAtomValue::Escape(escape));
    }
    if reader.eat('b') {
        return Ok(ClassAtomValue::Character(0x08));
    }
    Ok(ClassAtomValue::Character(character_escape(reader, flags.unicode)?))
}

// Adds the members of an atom.
fn add_class_atom(
    intervals: &mut Vec<Interval>,
    atom: ClassAtomValue,
    flags: Flags,
) -> Result<(), AllocError>
    ensures { let old = intervals.old.items in let new = intervals.new.items in
        OnOk result (AddsMembers (spec_flags_of flags) old new (class_member_of_atom atom ∷ [])) }
{
    match atom {
        ClassAtomValue::Character(c) => intervals.push(Interval { first: c, last: c })?,
        ClassAtomValue::Escape(escape) => escape.add_to(intervals, flags)?,
    }
    Ok(())
}

// Returns the set of these intervals. With `icase` it also contains all code points that fold as a
// member does.
fn into_case_closed_set(
    mut intervals: Vec<Interval>,
    flags: Flags,
) -> Result<CodePointSet, AllocError>
    ensures { IfOk result (λ s. IsCaseClosureOfTest (spec_flags_of flags) (is_in_any_interval intervals.items) s) }
{
    let alloc = *intervals.allocator();
    let set = CodePointSet::from_intervals(alloc, &intervals)?;
    if !flags.icase {
        return Ok(set);
    }
    add_case_variants(&mut intervals, &set, flags.unicode)?;
    CodePointSet::from_intervals(alloc, &intervals)
}

// Adds all code points that fold as a member of the set does. The set must have the same members as
// the intervals.
fn add_case_variants(
    intervals: &mut Vec<Interval>,
    set: &CodePointSet,
    unicode: bool,
) -> Result<(), AllocError>
    ensures { OnOk result (((c : ℕ) → in_intervals set.now c ≡ is_in_any_interval intervals.old.items c)
        → (c : ℕ) → is_in_any_interval intervals.new.items c ≡ some_case_variant_passes unicode
        (in_intervals set.now) c) }
{
    for upper in 'A' as u32..'Z' as u32 + 1 {
        add_letter_fold_variants(intervals, set, upper, unicode)?;
    }
    Ok(())
}

// Adds all code points with the fold of this letter, if one of them is in the set.
fn add_letter_fold_variants(
    intervals: &mut Vec<Interval>,
    set: &CodePointSet,
    upper: u32,
    unicode: bool,
) -> Result<(), AllocError>
    ensures { OnOk result (map interval_of intervals.new.items
        ≡ map interval_of intervals.old.items ++ letter_case_variants_if_any_passes (in_intervals set.now)
        upper unicode) }
{
    let letters = expand_code_point(*intervals.allocator(), upper, true, unicode)?;
    if !has_any(set, &letters) {
        return Ok(());
    }
    add_each(intervals, &letters)
}

// Checks whether any of these code points is in the set.
fn has_any(set: &CodePointSet, members: &[u32]) -> bool
    ensures { result ≡ list_any (in_intervals set.now) members.now }
{
    members.iter().any(|c| set.contains(*c))
}

/// Adds these code points.
pub(crate) fn add_each(intervals: &mut Vec<Interval>, members: &[u32]) -> Result<(), AllocError>
    ensures { OnOk result (map interval_of intervals.new.items
        ≡ map interval_of intervals.old.items ++ map single_code_point_interval members.now) }
{
    for c in members {
        intervals.push(Interval {
            first: *c,
            last: *c,
        })?;
    }
    Ok(())
}
