//! Character classes in the whole language of ECMAScript.

ghost use Rattle.std.specs.Prelude.{◌≡◌, ◌≢◌, ◌≤◌, ◌∷◌, ◌&&◌, [], ℕ, not, length, IfOk, OnOk};
ghost use Rattle.regex_meaning.specs.Outcomes.{in_intervals};
ghost use Rattle.regex_meaning.specs.EcmaClasses.{CharacterClass, ClassAtom, ClassEscape as SpecClassEscape, character, class, IsSetOf, is_in_invertible_set};
ghost use Rattle.regex_pattern_front.specs.AstToSpecTree.{class_as_spec, spec_flags_of};
ghost use Rattle.regex_parser.specs.CodePointReaderContracts.{IsReadOrSyntaxError, class_end};
ghost use Rattle.regex_parser.specs.ClassReaderContracts.{is_in_any_interval};
ghost use Rattle.regex_parser.specs.EcmaClassContracts.{member_of_atom, set_of_letter, AreEcmaRangesRead, IsEcmaMemberRead, IsEcmaRangeEndRead, IsClassControlRead, AddsEcmaMembers};
ghost use Rattle.regex_parser.specs.EcmaClassContracts.{IsCanonicalClosure, IsPropertyLetterRead, IsRangeOrCause, IsNoRangeOrUnicodeError, IsSimpleClassEscapeRead};
ghost use Rattle.regex_meaning.specs.ReadingStatesAndDigits.{begins_with_characters};

use crate::case_variants::add_canonical_variants;
use crate::character_class_parser::{CharacterClassType, DigitWordOrSpaceEscape, append_intervals};
use crate::code_point_reader::PatternReader;
use crate::diagnosis::Cause;
use crate::ecmascript_escapes::{GrammarParameters, read_character_escape};
use crate::parser_error::ParseStopReason;
use crate::unicode_properties::{Property, read_property_expression};
use regex_pattern_front::codepointset::{CodePointSet, Interval};
use regex_pattern_front::flags::Flags;
use regex_pattern_front::types::BracketContents;
use std::alloc::{AllocError, Global};

/// A reader of classes: the flags, and whether a group of the pattern has a name.
#[derive(Clone, Copy)]
pub(crate) struct ClassReader {
    pub(crate) alloc: Global,
    pub(crate) flags: Flags,
    pub(crate) named_groups: bool,
}

// A member of a class, or an end of a range.
#[derive(Clone, Copy)]
enum AtomValue {
    Character(u32),
    Letter(DigitWordOrSpaceEscape),
    Property { property: Property, invert: bool },
}

impl ClassReader {
    /// Reads a class from after its `[` to its `]` (ECMA-262, `CharacterClass` of B.1.4).
    pub(crate) fn read_class(
        self,
        reader: &mut PatternReader,
    ) -> Result<BracketContents, ParseStopReason>
        ensures moves { length reader.new.rest.now ≤ length reader.old.rest.now }
        ensures text { IsReadOrSyntaxError class_as_spec (CharacterClass (spec_flags_of self.flags) self.named_groups
            reader.old.rest.now) result reader.new.rest.now }
    {
        let start = *reader;
        let invert = reader.eat('^');
        Ok(BracketContents {
            invert,
            cps: self.read_ranges(reader, start)?,
        })
    }

    // Reads the members of a class up to its `]`. The class begins just before `start`.
    fn read_ranges(
        self,
        reader: &mut PatternReader,
        start: PatternReader,
    ) -> Result<CodePointSet, ParseStopReason>
        ensures moves { length reader.new.rest.now ≤ length reader.old.rest.now }
        ensures text { AreEcmaRangesRead (spec_flags_of self.flags) self.named_groups reader.old.rest.now result
            reader.new.rest.now }
    {
        let mut intervals = Vec::new(self.alloc);
        while let Some(c) = reader.next() {
            if c == ']' as u32 {
                return Ok(canonical_closure(intervals, self.flags)?);
            }
            self.read_member(&mut intervals, reader, c)?;
        }
        Err(start.error_at_last_read(Cause::UnclosedClass))
    }

    // Reads the atom or the range that begins with this code point, and adds its characters.
    fn read_member(
        self,
        intervals: &mut Vec<Interval>,
        reader: &mut PatternReader,
        c: u32,
    ) -> Result<(), ParseStopReason>
        requires { c ≢ class_end }
        ensures moves { length reader.new.rest.now ≤ length reader.old.rest.now }
        ensures text { IsEcmaMemberRead (spec_flags_of self.flags) self.named_groups (c ∷ reader.old.rest.now)
            intervals.old.items result intervals.new.items reader.new.rest.now }
    {
        let start = *reader;
        let first = self.read_atom(reader, c)?;
        let mut ahead = *reader;
        let Some(second) = self.read_range_end(&mut ahead)? else {
            add_atom(intervals, first, self.flags)?;
            return Ok(());
        };
        *reader = ahead;
        match range_or_cause(first, second, self.flags.unicode) {
            Ok(Some(range)) => Ok(intervals.push(range)?),
            Ok(None) => Ok(add_atoms_and_dash(intervals, first, second, self.flags)?),
            Err(cause) => Err(start.error_at_last_read(cause)),
        }
    }

    // Reads a `-` and the atom that ends the range. Returns `None` if there is no `-`, or if it is
    // the last character of the class.
    fn read_range_end(
        self,
        reader: &mut PatternReader,
    ) -> Result<Option<AtomValue>, ParseStopReason>
        ensures moves { length reader.new.rest.now ≤ length reader.old.rest.now }
        ensures text { IsEcmaRangeEndRead (spec_flags_of self.flags) self.named_groups reader.old.rest.now result
            reader.new.rest.now }
    {
        if !reader.eat('-') {
            return Ok(None);
        }
        match reader.next() {
            Some(c) if c != ']' as u32 => Ok(Some(self.read_atom(reader, c)?)),
            _ => Ok(None),
        }
    }

    // Reads the atom that begins with this code point.
    fn read_atom(self, reader: &mut PatternReader, c: u32) -> Result<AtomValue, ParseStopReason>
        requires { c ≢ class_end }
        ensures moves { length reader.new.rest.now ≤ length reader.old.rest.now }
        ensures text { IsReadOrSyntaxError (member_of_atom (spec_flags_of self.flags))
            (ClassAtom (spec_flags_of self.flags)
            self.named_groups (c ∷ reader.old.rest.now)) result reader.new.rest.now }
    {
        if c != '\\' as u32 {
            return Ok(AtomValue::Character(c));
        }
        if !is_control_without_unicode(reader, self.flags.unicode) {
            return self.read_escape(reader);
        }
        let start = *reader;
        match self.read_escape(reader) {
            Ok(atom) => Ok(atom),
            Err(ParseStopReason::Memory(refused)) => Err(ParseStopReason::Memory(refused)),
            Err(ParseStopReason::Refused { .. }) => {
                *reader = start;
                Ok(AtomValue::Character('\\' as u32))
            }
        }
    }

    // Reads an escape in a class, after its backslash (`ClassEscape`).
    fn read_escape(self, reader: &mut PatternReader) -> Result<AtomValue, ParseStopReason>
        ensures moves { length reader.new.rest.now ≤ length reader.old.rest.now }
        ensures text { IsReadOrSyntaxError (member_of_atom (spec_flags_of self.flags))
            (SpecClassEscape (spec_flags_of self.flags)
            self.named_groups reader.old.rest.now) result reader.new.rest.now }
    {
        let start = *reader;
        if let Some(c) = read_simple_escape(reader, self.flags) {
            return Ok(AtomValue::Character(c));
        }
        if let Some(escape) = DigitWordOrSpaceEscape::of(reader.peek()) {
            let _ = reader.next();
            return Ok(AtomValue::Letter(escape));
        }
        if let Some(invert) = read_property_letter(reader, self.flags.unicode) {
            let property = read_property_expression(self.alloc, start, reader)?;
            return Ok(AtomValue::Property { property, invert });
        }
        let parameters = GrammarParameters {
            unicode: self.flags.unicode,
            named_groups: self.named_groups,
        };
        Ok(AtomValue::Character(read_character_escape(reader, parameters)?))
    }
}

/// Checks whether a `c` is next, without `unicode`. If this `c` begins no escape, the backslash
/// before it denotes itself (B.1.4).
pub(crate) fn is_control_without_unicode(reader: &PatternReader, unicode: bool) -> bool
    ensures { result ≡ (not unicode && begins_with_characters "c" reader.now.rest.now) }
{
    !unicode && reader.peek() == Some('c')
}

// Reads `b`, `-` (with `unicode`), or `c` and a `ClassControlLetter` (without `unicode`), and
// returns the character that it denotes.
// If none of them is next, returns `None` and reads nothing.
fn read_simple_escape(reader: &mut PatternReader, flags: Flags) -> Option<u32>
    ensures moves { length reader.new.rest.now ≤ length reader.old.rest.now }
    ensures text { IsSimpleClassEscapeRead (spec_flags_of flags) reader.old.rest.now result reader.new.rest.now }
{
    if reader.eat('b') {
        return Some(0x08);
    }
    if !flags.unicode {
        return read_class_control(reader);
    }
    if reader.eat('-') {
        Some('-' as u32)
    } else {
        None
    }
}

/// Reads the `p` or `P` of a property escape, and returns whether it is inverted. Returns `None`
/// without `unicode`, or if neither letter is next.
pub(crate) fn read_property_letter(reader: &mut PatternReader, unicode: bool) -> Option<bool>
    ensures moves { length reader.new.rest.now ≤ length reader.old.rest.now }
    ensures text { IsPropertyLetterRead unicode reader.old.rest.now result reader.new.rest.now }
{
    if !unicode {
        return None;
    }
    if reader.eat('p') {
        return Some(false);
    }
    if reader.eat('P') { Some(true) } else { None }
}

// Reads `c` and a decimal digit or `_` (`ClassControlLetter`).
fn read_class_control(reader: &mut PatternReader) -> Option<u32>
    ensures moves { length reader.new.rest.now ≤ length reader.old.rest.now }
    ensures text { IsClassControlRead reader.old.rest.now result reader.new.rest.now }
{
    let mut ahead = *reader;
    if !ahead.eat('c') {
        return None;
    }
    let c = ahead.next()?;
    if c != '_' as u32 && !('0' as u32 <= c && c <= '9' as u32) {
        return None;
    }
    *reader = ahead;
    Some(c % 32)
}

// Returns the range between two atoms. Returns `None` if one of them is not a character and the `-`
// between them denotes itself, as it does without `unicode`.
fn range_or_cause(
    first: AtomValue,
    second: AtomValue,
    unicode: bool,
) -> Result<Option<Interval>, Cause>
    ensures { IsRangeOrCause first second unicode result }
{
    let AtomValue::Character(first) = first else {
        return no_range_or_unicode_error(unicode);
    };
    let AtomValue::Character(last) = second else {
        return no_range_or_unicode_error(unicode);
    };
    if first <= last {
        Ok(Some(Interval { first, last }))
    } else {
        Err(Cause::RangeOutOfOrder)
    }
}

// Returns no range or, with `unicode`, the error of a range that a class escape begins or ends.
fn no_range_or_unicode_error(unicode: bool) -> Result<Option<Interval>, Cause>
    ensures { IsNoRangeOrUnicodeError unicode result }
{
    if unicode {
        Err(Cause::RangeOfClasses)
    } else {
        Ok(None)
    }
}

// Adds two atoms and the `-` between them.
fn add_atoms_and_dash(
    intervals: &mut Vec<Interval>,
    first: AtomValue,
    second: AtomValue,
    flags: Flags,
) -> Result<(), AllocError>
    ensures { let f = spec_flags_of flags in OnOk result (AddsEcmaMembers intervals.old.items intervals.new.items
        (member_of_atom f first ∷ character 45 ∷ member_of_atom f second ∷ [])) }
{
    add_atom(intervals, first, flags)?;
    add_atom(intervals, AtomValue::Character('-' as u32), flags)?;
    add_atom(intervals, second, flags)
}

// Adds the members of an atom.
fn add_atom(intervals: &mut Vec<Interval>, atom: AtomValue, flags: Flags) -> Result<(), AllocError>
    ensures { let f = spec_flags_of flags in
        OnOk result (AddsEcmaMembers intervals.old.items intervals.new.items (member_of_atom f atom ∷ [])) }
{
    match atom {
        AtomValue::Character(c) => intervals.push(Interval { first: c, last: c })?,
        AtomValue::Letter(escape) => {
            let set = letter_set(*intervals.allocator(), escape, flags)?;
            append_intervals(intervals, set.intervals())?;
        }
        AtomValue::Property { property, invert } => {
            let set = property.set(*intervals.allocator(), invert)?;
            append_intervals(intervals, set.intervals())?;
        }
    }
    Ok(())
}

/// Returns the class of an escape of one letter. Its set is closed: each character that matches a
/// digit, a space or a word character is one itself.
pub(crate) fn class_of_letter_escape(
    alloc: Global,
    escape: DigitWordOrSpaceEscape,
    flags: Flags,
) -> Result<BracketContents, AllocError>
    ensures set { IfOk result (λ b. IsSetOf (spec_flags_of flags)
        (class (set_of_letter (spec_flags_of flags) escape.base) ∷ []) b.cps) }
    ensures invert { IfOk result (λ b. b.invert ≡ escape.invert) }
    ensures members { IfOk result (λ b. (c : ℕ) → in_intervals b.cps c ≡ set_of_letter (spec_flags_of flags)
        escape.base c) }
{
    let intervals = letter_intervals(alloc, escape.base, flags)?;
    Ok(BracketContents {
        invert: escape.invert,
        cps: CodePointSet::from_intervals(alloc, &intervals)?,
    })
}

// Returns the code points of an escape of one letter.
fn letter_set(
    alloc: Global,
    escape: DigitWordOrSpaceEscape,
    flags: Flags,
) -> Result<CodePointSet, AllocError>
    ensures { IfOk result (λ s. (c : ℕ) → in_intervals s c
        ≡ is_in_invertible_set (set_of_letter (spec_flags_of flags) escape.base, escape.invert) c) }
{
    let contents = class_of_letter_escape(alloc, escape, flags)?;
    if contents.invert {
        contents.cps.inverted()
    } else {
        Ok(contents.cps)
    }
}

// Returns the digits, the spaces or the word characters. With `icase` and `unicode`, the word
// characters include U+017F and U+212A, which fold to word characters (*WordCharacters*,
// 21.2.2.6.1).
fn letter_intervals(
    alloc: Global,
    base: CharacterClassType,
    flags: Flags,
) -> Result<Vec<Interval>, AllocError>
    ensures { IfOk result (λ v. (c : ℕ) → is_in_any_interval v.items c ≡ set_of_letter (spec_flags_of flags) base c) }
{
    let mut intervals = base.intervals(alloc)?;
    if matches!(base, CharacterClassType::WordCharacters) && flags.icase && flags.unicode {
        intervals.push(Interval {
            first: 0x017F,
            last: 0x017F,
        })?;
        intervals.push(Interval {
            first: 0x212A,
            last: 0x212A,
        })?;
    }
    Ok(intervals)
}

/// Returns the set of the characters that match a character in these intervals.
pub(crate) fn canonical_closure(
    mut intervals: Vec<Interval>,
    flags: Flags,
) -> Result<CodePointSet, AllocError>
    ensures { IfOk result (λ s. IsCanonicalClosure (spec_flags_of flags) (is_in_any_interval intervals.items) s) }
{
    let alloc = *intervals.allocator();
    let set = CodePointSet::from_intervals(alloc, &intervals)?;
    if !flags.icase {
        return Ok(set);
    }
    add_canonical_variants(&mut intervals, &set, flags.unicode)?;
    CodePointSet::from_intervals(alloc, &intervals)
}
