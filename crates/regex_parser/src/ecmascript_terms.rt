//! Terms that contain no group, in the whole language of ECMAScript.

ghost use Rattle.std.specs.Prelude.{◌≡◌, ℕ, ◌<◌, ◌≤◌, ◌∷◌, max, List, [], false, true, length, IfOk, IfErr, IfSome, IsTrue};
ghost use Rattle.std.specs.BTreeMap.{get_by_text};
ghost use Rattle.regex_meaning.specs.Tree.{back_ref, by_canonical_case};
ghost use Rattle.regex_meaning.specs.{ReadingStatesAndDigits.{RemainingCodePoints}, EcmaClasses.{IsSetOf, class, is_in_invertible_set}};
ghost use Rattle.regex_meaning.specs.UnicodeProperties.{has_property};
ghost use Rattle.regex_pattern_front.specs.AstToSpecTree.{spec_node_of, spec_flags_of};
ghost use Rattle.regex_pattern_front.specs.SubtreeListInvariants.{IsWellFormedGrouplessSubtree};
ghost use Rattle.regex_parser.specs.CodePointReaderContracts.{is_syntax_error, backslash};
ghost use Rattle.regex_parser.specs.PropertyReaderContracts.{spec_property_of};
ghost use Rattle.regex_parser.specs.GrouplessTermContracts.{pattern_context, is_paren_or_bar, IsReaderOfSame};
ghost use Rattle.regex_parser.specs.EcmaTermContracts.{AreGroupsKnown, IsEcmaTermRead, IsAtomEscapeRead, IsEcmaCharacterNode, IsClassEscapeRead, IsEcmaReferenceRead, IsGroupNumberRead};
ghost use Rattle.regex_parser.specs.EcmaTermContracts.{IsNoReferenceOrUnicodeError, IsEcmaNameNumberRead, is_nonzero_digit};

use crate::case_variants::case_variants;
use crate::character_class_parser::DigitWordOrSpaceEscape;
use crate::code_point_reader::PatternReader;
use crate::diagnosis::Cause;
use crate::ecmascript_classes::{
    ClassReader, canonical_closure, class_of_letter_escape, is_control_without_unicode,
    read_property_letter,
};
use crate::ecmascript_escapes::{GrammarParameters, read_character_escape};
use crate::ecmascript_group_name_reader::read_group_name;
use crate::group_openings_and_names::GroupNumbers;
use crate::groupless_terms::{
    GrouplessTerm, GrouplessTermReader, atom, bracket, decimal, is_brace_or_closing_bracket,
    nonzero_group_number,
};
use crate::parser_error::ParseStopReason;
use crate::unicode_properties::{Property, read_property_expression};
use regex_pattern_front::flags::Flags;
use regex_pattern_front::ir::Node;
use regex_pattern_front::types::BracketContents;
use std::alloc::{AllocError, Global};

/// What is known about the groups of a whole pattern before it is parsed.
#[derive(Clone, Copy)]
pub(crate) struct PatternGroups {
    /// Number of groups.
    pub(crate) count: u32,
    /// Whether `\k` begins a reference: with `unicode`, or if a group has a name.
    pub(crate) named: bool,
}

impl GrouplessTermReader<'_> {
    /// Reads the term of the whole language that begins with this code point, which is not a
    /// parenthesis.
    ///
    /// The clause `text` says which term is read if `groups` and the reader's numbers are those of
    /// the pattern's groups. The clauses `leaf`, `references` and `bounded` say that the node is
    /// well formed without groups, and bound the greatest reference. The clauses `moves` and `same`
    /// say that the rest of the text does not grow, and that the reader is still one of the same
    /// pattern.
    pub(crate) fn read_ecmascript_term(
        &mut self,
        c: u32,
        groups: PatternGroups,
    ) -> Result<GrouplessTerm, ParseStopReason>
        ensures moves { length self.new.reader.rest.now ≤ length self.old.reader.rest.now }
        ensures leaf { IfOk result (λ l. IsWellFormedGrouplessSubtree self.new.references (spec_node_of l.node)) }
        ensures references { self.old.references ≤ self.new.references }
        ensures same { IsReaderOfSame self.new self.old }
        ensures bounded { (names : List RemainingCodePoints)
            → AreGroupsKnown self.old.flags groups.count groups.named self.old.numbers names
            → self.new.references ≤ max self.old.references (length names) }
        ensures text { is_paren_or_bar c ≡ false → (names : List RemainingCodePoints)
            → AreGroupsKnown self.old.flags groups.count groups.named self.old.numbers names
            → IsEcmaTermRead (pattern_context self.old.flags names) (c ∷ self.old.reader.rest.now) result
            self.new.reader.rest.now }
    {
        if c == '\\' as u32 {
            return self.read_ecmascript_escape(groups);
        }
        if c == '[' as u32 {
            let classes = ClassReader {
                alloc: self.alloc,
                flags: self.flags,
                named_groups: groups.named,
            };
            return Ok(bracket(classes.read_class(&mut self.reader)?));
        }
        if let Some(leaf) = self.sign(c) {
            return Ok(leaf);
        }
        if let Some(cause) = self.cause_if_wrong_alone(c) {
            return Err(self.reader.error_at_last_read(cause));
        }
        if is_brace_or_closing_bracket(c) {
            return Ok(atom(Node::Char { c }));
        }
        ecmascript_character(self.alloc, self.flags, c)
    }

    // Reads a term after its backslash. Without `unicode`, a backslash before a `c` that begins no
    // escape denotes itself (B.1.4).
    // The contract is that of `read_ecmascript_term` for a term that begins with a backslash.
    fn read_ecmascript_escape(
        &mut self,
        groups: PatternGroups,
    ) -> Result<GrouplessTerm, ParseStopReason>
        ensures moves { length self.new.reader.rest.now ≤ length self.old.reader.rest.now }
        ensures leaf { IfOk result (λ l. IsWellFormedGrouplessSubtree self.new.references (spec_node_of l.node)) }
        ensures references { self.old.references ≤ self.new.references }
        ensures same { IsReaderOfSame self.new self.old }
        ensures bounded { (names : List RemainingCodePoints)
            → AreGroupsKnown self.old.flags groups.count groups.named self.old.numbers names
            → self.new.references ≤ max self.old.references (length names) }
        ensures text { (names : List RemainingCodePoints)
            → AreGroupsKnown self.old.flags groups.count groups.named self.old.numbers names
            → IsEcmaTermRead (pattern_context self.old.flags names) (backslash ∷ self.old.reader.rest.now) result
            self.new.reader.rest.now }
    {
        if self.reader.eat('b') {
            return Ok(self.boundary(false));
        }
        if self.reader.eat('B') {
            return Ok(self.boundary(true));
        }
        if !is_control_without_unicode(&self.reader, self.flags.unicode) {
            return self.read_ecmascript_atom_escape(groups);
        }
        let start = self.reader;
        let parameters = grammar_parameters(self.flags, groups);
        match read_character_escape(&mut self.reader, parameters) {
            Ok(c) => ecmascript_character(self.alloc, self.flags, c),
            Err(_) => {
                self.reader = start;
                Ok(atom(Node::Char { c: '\\' as u32 }))
            }
        }
    }

    // Reads an atom after its backslash (ECMA-262, `AtomEscape` of B.1.4).
    // The contract is that of `read_ecmascript_term`, except that `text` is about the escape after
    // the backslash.
    fn read_ecmascript_atom_escape(
        &mut self,
        groups: PatternGroups,
    ) -> Result<GrouplessTerm, ParseStopReason>
        ensures moves { length self.new.reader.rest.now ≤ length self.old.reader.rest.now }
        ensures leaf { IfOk result (λ l. IsWellFormedGrouplessSubtree self.new.references (spec_node_of l.node)) }
        ensures references { self.old.references ≤ self.new.references }
        ensures same { IsReaderOfSame self.new self.old }
        ensures bounded { (names : List RemainingCodePoints)
            → AreGroupsKnown self.old.flags groups.count groups.named self.old.numbers names
            → self.new.references ≤ max self.old.references (length names) }
        ensures text { (names : List RemainingCodePoints)
            → AreGroupsKnown self.old.flags groups.count groups.named self.old.numbers names
            → IsAtomEscapeRead (pattern_context self.old.flags names) self.old.reader.rest.now result
            self.new.reader.rest.now }
    {
        let left = self.reader.count_code_points_from_last_read();
        let reference = read_reference(
            self.alloc,
            self.flags,
            &mut self.reader,
            &self.numbers,
            groups,
        )?;
        if let Some(group) = reference {
            return Ok(self.ecmascript_reference(group, left));
        }
        if let Some(contents) = read_class_escape(self.alloc, self.flags, &mut self.reader)? {
            return Ok(bracket(contents));
        }
        let parameters = grammar_parameters(self.flags, groups);
        let c = read_character_escape(&mut self.reader, parameters)?;
        ecmascript_character(self.alloc, self.flags, c)
    }

    // Returns a reference to a group. `left` code points are left from the reference on. The
    // reference differs from one of the profile only if case is ignored.
    // Contract: `node`, `atom` and `leaf` say that the term is a well-formed backreference to
    // `group`, and an atom. `references` says that the greatest reference becomes `group` if that
    // is greater. `moves` and `same` say that the reader stays where it is.
    fn ecmascript_reference(&mut self, group: u32, left: usize) -> GrouplessTerm
        requires { 0 < group }
        ensures leaf { IsWellFormedGrouplessSubtree self.new.references (spec_node_of result.node) }
        ensures moves { self.new.reader ≡ self.old.reader }
        ensures references { self.new.references ≡ max self.old.references group }
        ensures same { IsReaderOfSame self.new self.old }
        ensures atom { result.is_atom ≡ true }
        ensures node { spec_node_of result.node ≡ back_ref group
            (by_canonical_case self.old.flags.icase self.old.flags.unicode) }
    {
        let in_profile = self.reference(group, left);
        if !self.flags.icase {
            return in_profile;
        }
        atom(Node::CanonicalBackRef {
            group,
            unicode: self.flags.unicode,
        })
    }
}

fn grammar_parameters(flags: Flags, groups: PatternGroups) -> GrammarParameters
    ensures { (result.unicode ≡ flags.unicode) × (result.named_groups ≡ groups.named) }
{
    GrammarParameters {
        unicode: flags.unicode,
        named_groups: groups.named,
    }
}

// Reads a reference after its backslash, and returns the number of its group. Returns `None` if no
// reference begins here. Without `unicode`, a number that is greater than the number of groups is
// not a reference.
fn read_reference(
    alloc: Global,
    flags: Flags,
    reader: &mut PatternReader,
    numbers: &GroupNumbers,
    groups: PatternGroups,
) -> Result<Option<u32>, ParseStopReason>
    ensures moves { length reader.new.rest.now ≤ length reader.old.rest.now }
    ensures counts_from_one { IfOk result (λ group. IfSome group (λ n. 0 < n)) }
    ensures text { (names : List RemainingCodePoints) → AreGroupsKnown flags groups.count groups.named numbers.now names
        → IsEcmaReferenceRead (pattern_context flags names) reader.old.rest.now result reader.new.rest.now }
{
    if is_nonzero_digit(reader.peek()) {
        return read_group_number(reader, groups.count, flags.unicode);
    }
    if !groups.named {
        return Ok(None);
    }
    let start = *reader;
    if !reader.eat('k') {
        return Ok(None);
    }
    Ok(Some(read_named_group(alloc, start, reader, numbers)?))
}

// Checks whether the letter is a digit other than 0.
fn is_nonzero_digit(letter: Option<char>) -> bool
    ensures { result ≡ is_nonzero_digit letter }
{
    match letter {
        Some(c) => '1' <= c && c <= '9',
        None => false,
    }
}

// Reads the number of a group, which must not be greater than the number of groups.
fn read_group_number(
    reader: &mut PatternReader,
    groups: u32,
    unicode: bool,
) -> Result<Option<u32>, ParseStopReason>
    ensures moves { length reader.new.rest.now ≤ length reader.old.rest.now }
    ensures counts_from_one { IfOk result (λ group. IfSome group (λ n. 0 < n)) }
    ensures text { IsGroupNumberRead groups unicode reader.old.rest.now result reader.new.rest.now }
{
    let mut ahead = *reader;
    let Some(group) = decimal(&mut ahead) else {
        return no_reference_or_unicode_error(*reader, unicode);
    };
    if group == 0 || group > groups {
        return no_reference_or_unicode_error(*reader, unicode);
    }
    *reader = ahead;
    Ok(Some(group))
}

// Returns no reference or, with `unicode`, the error that no group has the number.
fn no_reference_or_unicode_error(
    reader: PatternReader,
    unicode: bool,
) -> Result<Option<u32>, ParseStopReason>
    ensures { IsNoReferenceOrUnicodeError unicode result }
{
    if unicode {
        Err(reader.error_at_last_read(Cause::NoSuchGroup))
    } else {
        Ok(None)
    }
}

// Reads `<name>` and returns the number of its group. The reference begins just before `start`.
fn read_named_group(
    alloc: Global,
    start: PatternReader,
    reader: &mut PatternReader,
    numbers: &GroupNumbers,
) -> Result<u32, ParseStopReason>
    ensures moves { length reader.new.rest.now ≤ length reader.old.rest.now }
    ensures counts_from_one { IfOk result (λ group. 0 < group) }
    ensures text { IsEcmaNameNumberRead (λ x. get_by_text numbers.now x) reader.old.rest.now result
        reader.new.rest.now }
{
    if !reader.eat('<') {
        return Err(start.error_at_last_read(Cause::MissingName));
    }
    let name = read_group_name(alloc, reader)?;
    let number = numbers.get(name.as_str()).copied();
    nonzero_group_number(start, number, Cause::NoSuchName)
}

// Reads a class escape after its backslash, if there is one.
fn read_class_escape(
    alloc: Global,
    flags: Flags,
    reader: &mut PatternReader,
) -> Result<Option<BracketContents>, ParseStopReason>
    ensures moves { length reader.new.rest.now ≤ length reader.old.rest.now }
    ensures text { IsClassEscapeRead flags reader.old.rest.now result reader.new.rest.now }
{
    if let Some(escape) = DigitWordOrSpaceEscape::of(reader.peek()) {
        let _ = reader.next();
        return Ok(Some(class_of_letter_escape(alloc, escape, flags)?));
    }
    let start = *reader;
    let Some(invert) = read_property_letter(reader, flags.unicode) else {
        return Ok(None);
    };
    let property = read_property_expression(alloc, start, reader)?;
    Ok(Some(property_contents(alloc, property, invert, flags)?))
}

// Returns the class of the code points that match a code point with the property or, with `invert`,
// one without it.
fn property_contents(
    alloc: Global,
    property: Property,
    invert: bool,
    flags: Flags,
) -> Result<BracketContents, AllocError>
    ensures invert { IfOk result (λ b. b.invert ≡ false) }
    ensures set { IfOk result (λ b. IsSetOf (spec_flags_of flags)
        (class (is_in_invertible_set (has_property (spec_property_of property), invert)) ∷ []) b.cps) }
{
    let set = property.set(alloc, invert)?;
    let intervals = set.intervals().to_vec(alloc)?;
    Ok(BracketContents {
        invert: false,
        cps: canonical_closure(intervals, flags)?,
    })
}

// Returns the term of a character. If the character has several case variants, it is their set.
fn ecmascript_character(
    alloc: Global,
    flags: Flags,
    c: u32,
) -> Result<GrouplessTerm, ParseStopReason>
    ensures leaf { IfOk result (λ l. (greatest : ℕ) → IsWellFormedGrouplessSubtree greatest (spec_node_of l.node)) }
    ensures atom { IfOk result (λ l. l.is_atom ≡ true) }
    ensures node { IfOk result (λ l. IsEcmaCharacterNode (spec_flags_of flags) c (spec_node_of l.node)) }
    ensures memory { IfErr result (λ e. is_syntax_error e ≡ false) }
{
    let members = case_variants(alloc, c, flags.icase, flags.unicode)?;
    if members.len() > 1 {
        Ok(atom(Node::CharSet(members)))
    } else {
        Ok(atom(Node::Char { c }))
    }
}
