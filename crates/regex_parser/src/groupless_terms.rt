//! Terms that contain no group.

ghost use Rattle.std.specs.Prelude.{◌≡◌, ℕ, ◌<◌, ◌≤◌, max, length, IfOk, IfErr, IfSome, IsTrue, List, ◌∷◌, true, false};
ghost use Rattle.std.specs.BTreeMap.{get_by_text};
ghost use Rattle.regex_meaning.specs.Tree.{bracket as spec_bracket, back_ref, by_case};
ghost use Rattle.regex_meaning.specs.{ReadingStatesAndDigits.{RemainingCodePoints}, Grammar.{character_node}};
ghost use Rattle.regex_pattern_front.specs.AstToSpecTree.{spec_node_of, spec_flags_of, class_as_spec};
ghost use Rattle.regex_pattern_front.specs.SubtreeListInvariants.{IsWellFormedGrouplessSubtree};
ghost use Rattle.regex_parser.specs.CodePointReaderContracts.{is_syntax_error, backslash};
ghost use Rattle.regex_parser.specs.GrouplessTermContracts.{pattern_context, NamesAreNumberedWithinGroupLimit, TextBetweenIsGrouplessTerm, IsGrouplessTermReadIfPresent, IsAtomReadIfPresent};
ghost use Rattle.regex_parser.specs.GrouplessTermContracts.{TextBetweenOpensNoGroup, AnchorOrDotReadIfPresent, RefusesCodePointThatIsNoTerm, is_paren_or_bar};
ghost use Rattle.regex_parser.specs.GrouplessTermContracts.{is_star_plus_or_question, is_brace_or_closing_bracket, begins_backreference, anchor_sign, boundary_letter, IsReferencedGroupNumberRead};
ghost use Rattle.regex_parser.specs.GrouplessTermContracts.{IsReferencedNameNumberRead, IsReaderOfSame, IsTermReadIn};
ghost use Rattle.regex_parser.specs.EcmaTermContracts.{IsEcmaAnchorOrDotIfAny, IsEcmaAtomOr};
ghost use Rattle.regex_parser.specs.SyntaxDialects.{spec_syntax_of, AreGroupsKnownIn};
ghost use Rattle.regex_parser.specs.GrouplessTermContracts.{IsNumberUnlessMissingOrZero, IsDecimalReadIfItFitsU32};

use crate::character_class_parser::{DigitWordOrSpaceEscape, read_class};
use crate::code_point_reader::PatternReader;
use crate::diagnosis::Cause;
use crate::ecmascript_terms::PatternGroups;
use crate::escapes_and_group_names::{character_escape, name};
use crate::group_openings_and_names::GroupNumbers;
use crate::parser_error::ParseStopReason;
use crate::syntax::Syntax;
use regex_pattern_front::flags::Flags;
use regex_pattern_front::folding_and_first_bytes::expand_code_point;
use regex_pattern_front::ir::{AnchorType, Node};
use regex_pattern_front::types::BracketContents;
use std::alloc::Global;

/// A reader of terms that contain no group.
#[derive(Drop)]
pub(crate) struct GrouplessTermReader<'p> {
    pub(crate) alloc: Global,
    pub(crate) flags: Flags,
    pub(crate) syntax: Syntax,
    pub(crate) numbers: GroupNumbers,
    pub(crate) groups: PatternGroups,
    pub(crate) reader: PatternReader<'p>,
    /// The greatest group number among the references that were read.
    pub(crate) references: u32,
    /// Number of code points that are left from that reference on.
    pub(crate) reference_left: usize,
}

/// A term that contains no group, and whether it may have a quantifier.
#[derive(Drop)]
pub(crate) struct GrouplessTerm {
    pub(crate) node: Node,
    pub(crate) is_atom: bool,
}

impl GrouplessTermReader<'_> {
    /// Reads the term that begins with this code point, which is not a parenthesis.
    pub(crate) fn read_term_without_group(
        &mut self,
        c: u32,
    ) -> Result<GrouplessTerm, ParseStopReason>
        ensures moves { length self.new.reader.rest.now ≤ length self.old.reader.rest.now }
        ensures leaf { IfOk result (λ l. IsWellFormedGrouplessSubtree self.new.references (spec_node_of l.node)) }
        ensures references { self.old.references ≤ self.new.references }
        ensures same { IsReaderOfSame self.new self.old }
        ensures text { let s = spec_syntax_of self.old.syntax in is_paren_or_bar c ≡ false
            → (groups : List RemainingCodePoints)
            → AreGroupsKnownIn s self.old.flags self.old.groups.count self.old.groups.named self.old.numbers groups
            → IsTermReadIn s (pattern_context self.old.flags groups) (c ∷ self.old.reader.rest.now) result
            self.old.references self.new.references self.new.reader.rest.now }
    {
        match self.syntax {
            Syntax::Profile => self.read_profile_term(c),
            Syntax::EcmaScript2018 => self.read_ecmascript_term(c, self.groups),
        }
    }

    // Reads a term of the profile.
    // Contract: unless `c` is a parenthesis or `|`, `text` and `passed` say that a term without
    // groups is read, or that none begins here. `leaf` and `references` say that its node is well
    // formed, and that the greatest reference does not decrease. `moves` and `same` say that the
    // rest of the text does not grow, and that the reader is still one of the same pattern.
    fn read_profile_term(&mut self, c: u32) -> Result<GrouplessTerm, ParseStopReason>
        ensures moves { length self.new.reader.rest.now ≤ length self.old.reader.rest.now }
        ensures leaf { IfOk result (λ l. IsWellFormedGrouplessSubtree self.new.references (spec_node_of l.node)) }
        ensures references { self.old.references ≤ self.new.references }
        ensures same { IsReaderOfSame self.new self.old }
        ensures passed { is_paren_or_bar c ≡ false
            → IfOk result (λ l. TextBetweenOpensNoGroup (c ∷ self.old.reader.rest.now) self.new.reader.rest.now) }
        ensures text { is_paren_or_bar c ≡ false → (groups : List RemainingCodePoints) →
            NamesAreNumberedWithinGroupLimit self.old.numbers groups
            → IsGrouplessTermReadIfPresent (pattern_context self.old.flags groups) (c ∷ self.old.reader.rest.now) result
            self.old.references self.new.references self.new.reader.rest.now }
    {
        if c == '\\' as u32 {
            return self.escape();
        }
        if c == '[' as u32 {
            let contents = read_class(self.alloc, &mut self.reader, self.flags)?;
            return Ok(bracket(contents));
        }
        if let Some(leaf) = self.sign(c) {
            return Ok(leaf);
        }
        if let Some(cause) = self.cause_if_wrong_alone(c) {
            return Err(self.reader.error_at_last_read(cause));
        }
        self.character(c)
    }

    // Returns the term of `^`, `$` or `.`, or `None` for any other code point.
    pub(crate) fn sign(&self, c: u32) -> Option<GrouplessTerm>
        ensures leaf { IfSome result (λ l. (greatest : ℕ) → IsWellFormedGrouplessSubtree greatest
            (spec_node_of l.node)) }
        ensures text { (groups : List RemainingCodePoints) (there : RemainingCodePoints)
            → AnchorOrDotReadIfPresent (pattern_context self.now.flags groups) c there result }
        ensures ecma { (groups : List RemainingCodePoints) (there : RemainingCodePoints)
            → IsEcmaAnchorOrDotIfAny (pattern_context self.now.flags groups) c there result }
    {
        if c == '^' as u32 {
            Some(self.anchor(AnchorType::StartOfLine))
        } else if c == '$' as u32 {
            Some(self.anchor(AnchorType::EndOfLine))
        } else if c == '.' as u32 {
            Some(self.dot())
        } else {
            None
        }
    }

    // Returns the error if this code point, the last one that was read, is not a term by itself.
    pub(crate) fn cause_if_wrong_alone(&self, c: u32) -> Option<Cause>
        ensures { RefusesCodePointThatIsNoTerm self.now.flags.unicode c self.now.reader.rest.now result }
    {
        if is_star_plus_or_question(c) {
            return Some(Cause::NothingToRepeat);
        }
        if !is_brace_or_closing_bracket(c) {
            return None;
        }
        if c == '{' as u32 && self.reader.last_read_brace_begins_quantifier() {
            return Some(Cause::NothingToRepeat);
        }
        if self.flags.unicode {
            Some(lone_bracket_cause(c))
        } else {
            None
        }
    }

    fn anchor(&self, anchor_type: AnchorType) -> GrouplessTerm
        ensures leaf { (greatest : ℕ) → IsWellFormedGrouplessSubtree greatest (spec_node_of result.node) }
        ensures text { (groups : List RemainingCodePoints) (there : RemainingCodePoints)
            → TextBetweenIsGrouplessTerm (pattern_context self.now.flags groups) (anchor_sign anchor_type ∷ there)
            result there }
        ensures ecma { (groups : List RemainingCodePoints) (there : RemainingCodePoints)
            → IsEcmaAtomOr result.is_atom (pattern_context self.now.flags groups) (anchor_sign anchor_type ∷ there)
            there (spec_node_of result.node) }
    {
        GrouplessTerm {
            node: Node::Anchor {
                anchor_type,
                multiline: self.flags.multiline,
            },
            is_atom: false,
        }
    }

    fn dot(&self) -> GrouplessTerm
        ensures leaf { (greatest : ℕ) → IsWellFormedGrouplessSubtree greatest (spec_node_of result.node) }
        ensures text { (groups : List RemainingCodePoints) (there : RemainingCodePoints)
            → TextBetweenIsGrouplessTerm (pattern_context self.now.flags groups) (46 ∷ there) result there }
        ensures ecma { (groups : List RemainingCodePoints) (there : RemainingCodePoints)
            → IsEcmaAtomOr result.is_atom (pattern_context self.now.flags groups) (46 ∷ there) there
            (spec_node_of result.node) }
    {
        if self.flags.dot_all {
            atom(Node::MatchAny)
        } else {
            atom(Node::MatchAnyExceptLineTerminator)
        }
    }

    // Returns the term of a character. With `icase`, if several code points have its fold, it is
    // their set.
    fn character(&self, c: u32) -> Result<GrouplessTerm, ParseStopReason>
        ensures leaf { IfOk result (λ l. (greatest : ℕ) → IsWellFormedGrouplessSubtree greatest (spec_node_of l.node)) }
        ensures atom { IfOk result (λ l. l.is_atom ≡ true) }
        ensures node { IfOk result (λ l. spec_node_of l.node ≡ character_node (spec_flags_of self.now.flags) c) }
        ensures memory { IfErr result (λ e. is_syntax_error e ≡ false) }
    {
        if !self.flags.icase {
            return Ok(atom(Node::Char { c }));
        }
        let members = expand_code_point(self.alloc, c, self.flags.icase, self.flags.unicode)?;
        if members.len() > 1 {
            Ok(atom(Node::CharSet(members)))
        } else {
            Ok(atom(Node::Char { c }))
        }
    }

    // Reads a term after its backslash.
    // The contract is that of `read_profile_term` for a term that begins with a backslash.
    fn escape(&mut self) -> Result<GrouplessTerm, ParseStopReason>
        ensures moves { length self.new.reader.rest.now ≤ length self.old.reader.rest.now }
        ensures leaf { IfOk result (λ l. IsWellFormedGrouplessSubtree self.new.references (spec_node_of l.node)) }
        ensures references { self.old.references ≤ self.new.references }
        ensures same { IsReaderOfSame self.new self.old }
        ensures passed { IfOk result (λ l. TextBetweenOpensNoGroup (backslash ∷ self.old.reader.rest.now)
            self.new.reader.rest.now) }
        ensures text { (groups : List RemainingCodePoints) → NamesAreNumberedWithinGroupLimit self.old.numbers groups
            → IsGrouplessTermReadIfPresent (pattern_context self.old.flags groups)
            (backslash ∷ self.old.reader.rest.now) result self.old.references self.new.references
            self.new.reader.rest.now }
    {
        if self.reader.eat('b') {
            return Ok(self.boundary(false));
        }
        if self.reader.eat('B') {
            return Ok(self.boundary(true));
        }
        self.atom_escape()
    }

    // Reads an atom after its backslash (ECMA-262, 21.2.1 `AtomEscape`).
    // The contract is that of `escape`, except that `text` is about an atom.
    fn atom_escape(&mut self) -> Result<GrouplessTerm, ParseStopReason>
        ensures moves { length self.new.reader.rest.now ≤ length self.old.reader.rest.now }
        ensures leaf { IfOk result (λ l. IsWellFormedGrouplessSubtree self.new.references (spec_node_of l.node)) }
        ensures references { self.old.references ≤ self.new.references }
        ensures same { IsReaderOfSame self.new self.old }
        ensures passed { IfOk result (λ l. TextBetweenOpensNoGroup (backslash ∷ self.old.reader.rest.now)
            self.new.reader.rest.now) }
        ensures text { (groups : List RemainingCodePoints) → NamesAreNumberedWithinGroupLimit self.old.numbers groups
            → IsAtomReadIfPresent (pattern_context self.old.flags groups) (backslash ∷ self.old.reader.rest.now) result
            self.old.references self.new.references self.new.reader.rest.now }
    {
        let letter = self.reader.peek();
        if let Some(escape) = DigitWordOrSpaceEscape::of(letter) {
            let _ = self.reader.next();
            let contents = escape.bracket_contents_of_escape(self.alloc, self.flags)?;
            return Ok(bracket(contents));
        }
        if begins_backreference(letter) {
            let left = self.reader.count_code_points_from_last_read();
            let group = group_number(self.alloc, &mut self.reader, &self.numbers)?;
            return Ok(self.reference(group, left));
        }
        let c = character_escape(&mut self.reader, self.flags.unicode)?;
        self.character(c)
    }

    pub(crate) fn boundary(&self, invert: bool) -> GrouplessTerm
        ensures leaf { (greatest : ℕ) → IsWellFormedGrouplessSubtree greatest (spec_node_of result.node) }
        ensures text { (groups : List RemainingCodePoints) (there : RemainingCodePoints)
            → TextBetweenIsGrouplessTerm (pattern_context self.now.flags groups)
            (backslash ∷ boundary_letter invert ∷ there) result there }
        ensures ecma { (groups : List RemainingCodePoints) (there : RemainingCodePoints)
            → IsEcmaAtomOr result.is_atom (pattern_context self.now.flags groups)
            (backslash ∷ boundary_letter invert ∷ there) there (spec_node_of result.node) }
    {
        GrouplessTerm {
            node: Node::WordBoundary {
                invert,
                unicode_icase: self.flags.icase && self.flags.unicode,
            },
            is_atom: false,
        }
    }

    // Returns a reference to a group. `left` code points are left from the reference on.
    // Contract: `node`, `atom` and `leaf` say that the term is a well-formed backreference to
    // `group`, and an atom. `references` says that the greatest reference becomes `group` if that
    // is greater. `moves` and `same` say that the reader stays where it is.
    pub(crate) fn reference(&mut self, group: u32, left: usize) -> GrouplessTerm
        requires { 0 < group }
        ensures leaf { IsWellFormedGrouplessSubtree self.new.references (spec_node_of result.node) }
        ensures moves { self.new.reader ≡ self.old.reader }
        ensures references { self.new.references ≡ max self.old.references group }
        ensures same { IsReaderOfSame self.new self.old }
        ensures atom { result.is_atom ≡ true }
        ensures node { spec_node_of result.node ≡ back_ref group (by_case self.old.flags.icase) }
    {
        let is_greatest = self.references < group;
        self.reference_left = if is_greatest {
            left
        } else {
            self.reference_left
        };
        self.references = self.references.max(group);
        atom(Node::BackRef {
            group,
            icase: self.flags.icase,
        })
    }
}

// Checks whether the code point is `*`, `+` or `?`.
fn is_star_plus_or_question(c: u32) -> bool
    ensures { result ≡ is_star_plus_or_question c }
{
    c == '*' as u32 || c == '+' as u32 || c == '?' as u32
}

/// Checks whether the code point is `{`, `}` or `]`.
pub(crate) fn is_brace_or_closing_bracket(c: u32) -> bool
    ensures { result ≡ is_brace_or_closing_bracket c }
{
    c == '{' as u32 || c == '}' as u32 || c == ']' as u32
}

// Returns the cause for a `{`, `}` or `]` that belongs to no quantifier or class.
fn lone_bracket_cause(c: u32) -> Cause {
    if c == '{' as u32 {
        Cause::IncompleteQuantifier
    } else {
        Cause::LoneBracket
    }
}

// Checks whether a reference to a group begins with this letter or digit.
fn begins_backreference(letter: Option<char>) -> bool
    ensures { result ≡ begins_backreference letter }
{
    match letter {
        Some(c) => c == 'k' || '1' <= c && c <= '9',
        None => false,
    }
}

pub(crate) fn atom(node: Node) -> GrouplessTerm
    ensures node { result.node ≡ node }
    ensures atom { result.is_atom ≡ true }
{
    GrouplessTerm {
        node,
        is_atom: true,
    }
}

pub(crate) fn bracket(contents: BracketContents) -> GrouplessTerm
    ensures leaf { (greatest : ℕ) → IsWellFormedGrouplessSubtree greatest (spec_node_of result.node) }
    ensures atom { result.is_atom ≡ true }
    ensures node { spec_node_of result.node ≡ spec_bracket (class_as_spec contents) }
{
    atom(Node::Bracket(contents))
}

// Reads the group number of `\1` or `\k<name>`, after the backslash.
fn group_number(
    alloc: Global,
    reader: &mut PatternReader,
    numbers: &GroupNumbers,
) -> Result<u32, ParseStopReason>
    ensures moves { length reader.new.rest.now ≤ length reader.old.rest.now }
    ensures counts_from_one { IfOk result (λ group. 0 < group) }
    ensures text { IsReferencedGroupNumberRead (λ x. get_by_text numbers.now x) reader.old.rest.now result
        reader.new.rest.now }
{
    let start = *reader;
    if reader.eat('k') {
        read_name_reference(alloc, start, reader, numbers)
    } else {
        nonzero_group_number(start, decimal(reader), Cause::NoSuchGroup)
    }
}

// Reads `<name>` and returns its group number. The reference begins just before `start`.
fn read_name_reference(
    alloc: Global,
    start: PatternReader,
    reader: &mut PatternReader,
    numbers: &GroupNumbers,
) -> Result<u32, ParseStopReason>
    ensures moves { length reader.new.rest.now ≤ length reader.old.rest.now }
    ensures counts_from_one { IfOk result (λ group. 0 < group) }
    ensures text { IsReferencedNameNumberRead (λ x. get_by_text numbers.now x) reader.old.rest.now result
        reader.new.rest.now }
{
    if !reader.eat('<') {
        return Err(start.error_at_last_read(Cause::MissingName));
    }
    let name = name(alloc, reader)?;
    let number = numbers.get(name.as_str()).copied();
    nonzero_group_number(start, number, Cause::NoSuchName)
}

/// Returns the number of a group, counted from 1, or the error for the reference that begins just
/// before `start`.
pub(crate) fn nonzero_group_number(
    start: PatternReader,
    number: Option<u32>,
    cause: Cause,
) -> Result<u32, ParseStopReason>
    ensures counts { IsNumberUnlessMissingOrZero number result }
    ensures syntax { IfErr result (λ e. IsTrue (is_syntax_error e)) }
{
    match number {
        Some(number) if number > 0 => Ok(number),
        _ => Err(start.error_at_last_read(cause)),
    }
}

// Reads a decimal number. Returns `None` if there is none, or if it is greater than `u32::MAX`.
pub(crate) fn decimal(reader: &mut PatternReader) -> Option<u32>
    ensures moves { length reader.new.rest.now ≤ length reader.old.rest.now }
    ensures text { IsDecimalReadIfItFitsU32 reader.old.rest.now result reader.new.rest.now }
{
    let n = reader.read_number_in_base(10)?;
    if n <= u32::MAX as usize {
        Some(n as u32)
    } else {
        None
    }
}
