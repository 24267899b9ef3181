//! The parser: from the text of a pattern to its tree.

ghost use Rattle.regex_parser.specs.CodePointReaderContracts.{open_parenthesis, close_parenthesis};
ghost use Rattle.std.specs.Prelude.{◌≡◌, ℕ, ◌+◌, ◌≤◌, ◌∷◌, ◌||◌, nat_lt, List, [], false, length, IfOk, IfErr, IfSome, OnOk, IsTrue, None};
ghost use Rattle.regex_meaning.specs.{CompilationRelation.{tree_contains_byte_nodes}, Tree.{Tree}, WellFormedTrees.{is_well_formed}, Grammar.{Parses, ParsesBy}};
ghost use Rattle.regex_meaning.specs.ReadingStatesAndDigits.{RemainingCodePoints};
ghost use Rattle.regex_pattern_front.specs.AstToSpecTree.{spec_node_of, tree_of, spec_flags_of, group_name_bytes};
ghost use Rattle.regex_pattern_front.specs.OptimizedTrees.{has_no_char_loops};
ghost use Rattle.regex_pattern_front.specs.SubtreeListInvariants.{IsSoundSubtreeWithGroupIds};
ghost use Rattle.regex_parser.specs.GroupIdInvariant.{OpenDisjunctionsHaveAllGroups, captures_opened_by_group_kind};
ghost use Rattle.regex_parser.specs.ParserContracts.{HasReadPatternUpTo, IsOptionalGroupNameRead, IsParseResult, IsTermWithOptionalQuantifierRead, AdvancesOrHasNoTree, is_named_group};
ghost use Rattle.regex_parser.specs.ParserContracts.{group_node_around, tree_of_root_and_flags};
ghost use Rattle.regex_parser.specs.ParserContracts.{IsTextRefused, IsTextRefusedIn, IsJustifiedRefusal, RefusalPlaceLiesInPattern};
ghost use Rattle.regex_parser.specs.SyntaxDialects.{spec_syntax_of};
ghost use Rattle.regex_parser.specs.GrouplessTermContracts.{is_paren_or_bar, IsReaderOfSame};
ghost use Rattle.regex_parser.specs.ParseErrors.{IsParseErrorOf, IsParseErrorIn};
ghost use Rattle.regex_parser.specs.ParserInvariants.{AreWithinGroupLimit, FindsGroups, group_names_found_by_scan};
ghost use Rattle.regex_parser.specs.GroupReaderContracts.{AreGroupsCollected};
ghost use Rattle.std.specs.BTreeMap.{get_by_text, btree_map_len};

use crate::code_point_reader::PatternReader;
use crate::diagnosis::{Cause, Diagnosis};
use crate::ecmascript_terms::PatternGroups;
use crate::group_openings_and_names::{
    GroupKind, GroupNumbers, ScannedGroups, read_group_kind, read_name, scan_groups,
};
use crate::groupless_terms::{GrouplessTerm, GrouplessTermReader};
use crate::open_groups::{OpenGroup, PartialDisjunction};
use crate::parser_error::ParseStopReason;
use crate::syntax::Syntax;
use regex_pattern_front::flags::Flags;
use regex_pattern_front::ir::{Node, Regex};
use regex_pattern_front::types::{CaptureGroupID, MAX_CAPTURE_GROUPS};
use std::alloc::{AllocError, Global};
use std::mem;
use std::ops::Range;
use thiserror::Error;

/// Why a pattern is refused.
#[derive(Clone, Copy, Debug, PartialEq, Eq, Error)]
pub enum ParseError {
    /// The text is not a pattern. The diagnosis says what is wrong with it, and where.
    #[error("{0}")]
    Syntax(Diagnosis),
    /// The text opens more than 65,535 capturing groups.
    #[error("too many groups (at most 65535)")]
    TooManyGroups,
    /// An allocation failed.
    #[error("out of memory")]
    Memory,
}

// Why a pattern is refused, with the diagnosis.
#[derive(Clone, Copy)]
enum Refusal {
    Syntax(Diagnosis),
    TooManyGroups(Diagnosis),
    Memory(AllocError),
}

/// Parses a pattern and returns its tree, which has the flags given.
///
/// The tree is `Cat`[the pattern, `Goal`]. Alternatives nest to the right, and an alternative is a
/// `Cat` of its terms, which are in reverse order inside a lookbehind (ECMA-262, 21.2.1 and
/// 21.2.2).
///
/// Open groups are stored on the heap, so neither many alternatives nor deeply nested groups take
/// stack.
///
/// The clauses `tree` and `flags` say which tree is returned. The clauses `well_formed`,
/// `characters`, `plain` and `within` say that it is well formed, and has no byte nodes, no char
/// loops and at most 65,535 groups. The clause `refused` says what an error means.
///
/// # Errors
///
/// - `TooManyGroups` if the text opens more than 65,535 groups, whatever else is wrong with it.
///   These are the parentheses outside escapes and classes that open a capturing group, so each
///   tree of the text has as many groups. `diagnose` reports how many there are.
/// - `Syntax` if it does not, and the grammar (`regex_meaning`) has no tree for it, with the
///   diagnosis that `parse_or_diagnose` reports.
/// - `Memory` on allocation failure.
pub fn try_parse(alloc: Global, pattern: &[u32], flags: Flags) -> Result<Regex, ParseError>
    ensures flags { IfOk result (λ re. re.flags ≡ flags) }
    ensures well_formed { IfOk result (λ re. IsTrue (is_well_formed (tree_of re).root)) }
    ensures characters { IfOk result (λ re. tree_contains_byte_nodes (tree_of re).root ≡ false) }
    ensures plain { IfOk result (λ re. IsTrue (has_no_char_loops (tree_of re).root)) }
    ensures tree { IfOk result (λ re. Parses (spec_flags_of flags) pattern.now (tree_of re)) }
    ensures within { IfOk result (λ re. AreWithinGroupLimit (group_names_found_by_scan pattern.now)) }
    ensures refused { IfErr result (IsParseErrorOf (spec_flags_of flags) pattern.now) }
{
    try_parse_in(alloc, pattern, flags, Syntax::Profile)
}

/// Parses a pattern of this language, as `try_parse` parses one of the profile.
///
/// The contract is that of `try_parse`, with the grammar of this language.
///
/// # Errors
///
/// Returns the errors of `try_parse`. `Syntax` means that the language has no tree for the text.
pub fn try_parse_in(
    alloc: Global,
    pattern: &[u32],
    flags: Flags,
    syntax: Syntax,
) -> Result<Regex, ParseError>
    ensures flags { IfOk result (λ re. re.flags ≡ flags) }
    ensures well_formed { IfOk result (λ re. IsTrue (is_well_formed (tree_of re).root)) }
    ensures characters { IfOk result (λ re. tree_contains_byte_nodes (tree_of re).root ≡ false) }
    ensures plain { IfOk result (λ re. IsTrue (has_no_char_loops (tree_of re).root)) }
    ensures tree { IfOk result (λ re. ParsesBy (spec_syntax_of syntax) (spec_flags_of flags) pattern.now (tree_of re)) }
    ensures within { IfOk result (λ re. AreWithinGroupLimit (group_names_found_by_scan pattern.now)) }
    ensures refused { IfErr result (IsParseErrorIn (spec_syntax_of syntax) (spec_flags_of flags) pattern.now) }
{
    match scan_groups_and_parse(alloc, pattern, flags, syntax) {
        Ok(re) => Ok(re),
        Err(Refusal::Syntax(diagnosis)) => Err(ParseError::Syntax(diagnosis)),
        Err(Refusal::TooManyGroups(_)) => Err(ParseError::TooManyGroups),
        Err(Refusal::Memory(_)) => Err(ParseError::Memory),
    }
}

/// Returns what is wrong with a text that is refused, and where, as `parse_or_diagnose` reports it.
/// Returns `None` if `try_parse` returns a tree for the text.
///
/// # Errors
///
/// Returns an error on allocation failure.
pub fn diagnose(
    alloc: Global,
    pattern: &[u32],
    flags: Flags,
) -> Result<Option<Diagnosis>, AllocError>
    ensures place { IfOk result (λ found. IfSome found (λ d. d.at ≤ length pattern.now)) }
    ensures by_grammar { let flags = spec_flags_of flags in IfOk result (λ found.
        IfSome found (λ d. IsTextRefused flags pattern.now)
        × (found ≡ None → (tree : Tree) × Parses flags pattern.now tree)) }
{
    diagnose_in(alloc, pattern, flags, Syntax::Profile)
}

/// Returns what is wrong with a text of this language, as `diagnose` does for the profile.
///
/// # Errors
///
/// Returns an error on allocation failure.
pub fn diagnose_in(
    alloc: Global,
    pattern: &[u32],
    flags: Flags,
    syntax: Syntax,
) -> Result<Option<Diagnosis>, AllocError>
    ensures place { IfOk result (λ found. IfSome found (λ d. d.at ≤ length pattern.now)) }
    ensures by_grammar { let s = spec_syntax_of syntax in let flags = spec_flags_of flags in IfOk result (λ found.
        IfSome found (λ d. IsTextRefusedIn s flags pattern.now)
        × (found ≡ None → (tree : Tree) × ParsesBy s flags pattern.now tree)) }
{
    Ok(parse_or_diagnose_in(alloc, pattern, flags, syntax)?.err())
}

/// Parses a pattern and returns its tree as `try_parse` does, or a diagnosis of what is wrong with
/// the text. The text is not read again for the diagnosis. It reports too many groups, and
/// otherwise the first error. There are two exceptions, which are detected only at the end. For
/// unclosed groups it reports the innermost one, and for references to missing groups the one with
/// the greatest number.
///
/// The clause `tree` says which tree is returned, and that a text with a diagnosis has no tree or
/// opens too many groups. The clause `place` says that a diagnosis is within the text or at its
/// end. The other clauses are those of `try_parse`.
///
/// # Errors
///
/// Returns an error on allocation failure.
pub fn parse_or_diagnose(
    alloc: Global,
    pattern: &[u32],
    flags: Flags,
) -> Result<Result<Regex, Diagnosis>, AllocError>
    ensures flags { IfOk result (λ read. IfOk read (λ re. re.flags ≡ flags)) }
    ensures well_formed { IfOk result (λ read. IfOk read (λ re. IsTrue (is_well_formed (tree_of re).root))) }
    ensures characters { IfOk result (λ read. IfOk read (λ re. tree_contains_byte_nodes (tree_of re).root ≡ false)) }
    ensures plain { IfOk result (λ read. IfOk read (λ re. IsTrue (has_no_char_loops (tree_of re).root))) }
    ensures place { IfOk result (λ read. IfErr read (λ d. d.at ≤ length pattern.now)) }
    ensures tree { let flags = spec_flags_of flags in IfOk result (λ read.
        IfOk read (λ re. Parses flags pattern.now (tree_of re)) × IfErr read (λ d. IsTextRefused flags pattern.now)) }
{
    parse_or_diagnose_in(alloc, pattern, flags, Syntax::Profile)
}

/// Parses a pattern of this language, or diagnoses it, as `parse_or_diagnose` does for the profile.
///
/// The contract is that of `parse_or_diagnose`, with the grammar of this language.
///
/// # Errors
///
/// Returns an error on allocation failure.
pub fn parse_or_diagnose_in(
    alloc: Global,
    pattern: &[u32],
    flags: Flags,
    syntax: Syntax,
) -> Result<Result<Regex, Diagnosis>, AllocError>
    ensures flags { IfOk result (λ read. IfOk read (λ re. re.flags ≡ flags)) }
    ensures well_formed { IfOk result (λ read. IfOk read (λ re. IsTrue (is_well_formed (tree_of re).root))) }
    ensures characters { IfOk result (λ read. IfOk read (λ re. tree_contains_byte_nodes (tree_of re).root ≡ false)) }
    ensures plain { IfOk result (λ read. IfOk read (λ re. IsTrue (has_no_char_loops (tree_of re).root))) }
    ensures place { IfOk result (λ read. IfErr read (λ d. d.at ≤ length pattern.now)) }
    ensures tree { let s = spec_syntax_of syntax in let flags = spec_flags_of flags in IfOk result (λ read.
        IfOk read (λ re. ParsesBy s flags pattern.now (tree_of re)) × IfErr read
        (λ d. IsTextRefusedIn s flags pattern.now)) }
{
    match scan_groups_and_parse(alloc, pattern, flags, syntax) {
        Ok(re) => Ok(Ok(re)),
        Err(Refusal::Syntax(diagnosis)) => Ok(Err(diagnosis)),
        Err(Refusal::TooManyGroups(diagnosis)) => Ok(Err(diagnosis)),
        Err(Refusal::Memory(refused)) => Err(refused),
    }
}

// Parses a pattern after a scan for its groups, or returns why it is refused.
// Contract: the clauses about the tree are those of `try_parse_in`. `refused` and `place` say that
// a refused text has no tree or opens too many groups, and that its error is within the text or at
// its end.
fn scan_groups_and_parse(
    alloc: Global,
    pattern: &[u32],
    flags: Flags,
    syntax: Syntax,
) -> Result<Regex, Refusal>
    ensures flags { IfOk result (λ re. re.flags ≡ flags) }
    ensures well_formed { IfOk result (λ re. IsTrue (is_well_formed (tree_of re).root)) }
    ensures characters { IfOk result (λ re. tree_contains_byte_nodes (tree_of re).root ≡ false) }
    ensures plain { IfOk result (λ re. IsTrue (has_no_char_loops (tree_of re).root)) }
    ensures tree { IfOk result (λ re. ParsesBy (spec_syntax_of syntax) (spec_flags_of flags) pattern.now (tree_of re)) }
    ensures within { IfOk result (λ re. AreWithinGroupLimit (group_names_found_by_scan pattern.now)) }
    ensures refused { IfErr result (IsJustifiedRefusal (spec_syntax_of syntax) (spec_flags_of flags) pattern.now) }
    ensures place { IfErr result (RefusalPlaceLiesInPattern pattern.now) }
{
    let found = match scan_groups(alloc, pattern, syntax) {
        Ok(found) => found,
        Err(refused) => return Err(Refusal::Memory(refused)),
    };
    if found.count > MAX_CAPTURE_GROUPS as u32 {
        let groups = found.count;
        return Err(Refusal::TooManyGroups(Diagnosis {
            cause: Cause::TooManyGroups { groups },
            at: pattern.len().saturating_sub(found.left_at_excess),
        }));
    }
    match parse_to_tree(alloc, pattern, flags, syntax, found) {
        Ok(re) => Ok(re),
        Err(ParseStopReason::Refused { cause, left }) => Err(Refusal::Syntax(Diagnosis {
            cause,
            at: pattern.len().saturating_sub(left),
        })),
        Err(ParseStopReason::Memory(refused)) => Err(Refusal::Memory(refused)),
    }
}

// Parses a pattern whose named groups have these numbers.
fn parse_to_tree(
    alloc: Global,
    pattern: &[u32],
    flags: Flags,
    syntax: Syntax,
    found: ScannedGroups,
) -> Result<Regex, ParseStopReason>
    ensures flags { IfOk result (λ re. re.flags ≡ flags) }
    ensures well_formed { IfOk result (λ re. IsTrue (is_well_formed (tree_of re).root)) }
    ensures characters { IfOk result (λ re. tree_contains_byte_nodes (tree_of re).root ≡ false) }
    ensures plain { IfOk result (λ re. IsTrue (has_no_char_loops (tree_of re).root)) }
    ensures tree { (names : List RemainingCodePoints) → FindsGroups (spec_syntax_of syntax) pattern.now names
        → AreGroupsCollected found.count found.numbers names → AreWithinGroupLimit names
        → IsParseResult (spec_syntax_of syntax) tree_of (spec_flags_of flags) pattern.now result }
{
    let mut parser = Parser {
        leaves: GrouplessTermReader {
            alloc,
            flags,
            syntax,
            groups: PatternGroups {
                count: found.count,
                named: has_named_groups(flags, &found.numbers),
            },
            numbers: found.numbers,
            reader: PatternReader { rest: pattern },
            references: 0,
            reference_left: 0,
        },
        groups: 0,
        level: PartialDisjunction::new(alloc, false),
        around: Vec::new(alloc),
    };
    parser.read_all()?;
    let node = parser.finish()?;
    Ok(Regex { node, flags })
}

// Checks whether `\k` begins a reference: with `unicode`, or if a group has a name.
fn has_named_groups(flags: Flags, numbers: &GroupNumbers) -> bool
    ensures { result ≡ (flags.unicode || nat_lt 0 (btree_map_len numbers.now)) }
{
    flags.unicode || !numbers.is_empty()
}

/// What has been read of a pattern so far.
#[derive(Drop)]
struct Parser<'p> {
    leaves: GrouplessTermReader<'p>,
    /// Number of capturing groups that have opened.
    groups: CaptureGroupID,
    level: PartialDisjunction,
    /// The open groups around the current disjunction, the outermost first.
    around: Vec<OpenGroup>,
}

impl Parser<'_> {
    fn read_all(&mut self) -> Result<(), ParseStopReason>
        requires { OpenDisjunctionsHaveAllGroups self.old }
        ensures reading { OnOk result (OpenDisjunctionsHaveAllGroups self.new) }
        ensures same { IsReaderOfSame self.new.leaves self.old.leaves }
        ensures end { OnOk result (self.new.leaves.reader.rest.now ≡ []) }
        ensures text { AdvancesOrHasNoTree self.old.leaves.reader.rest.now self.old result self.new }
    {
        while let Some(c) = self.leaves.reader.next() {
            self.read_what_code_point_begins(c)?;
        }
        Ok(())
    }

    // Reads what begins with this code point: a `|`, a parenthesis or a term.
    fn read_what_code_point_begins(&mut self, c: u32) -> Result<(), ParseStopReason>
        requires { OpenDisjunctionsHaveAllGroups self.old }
        ensures reading { OnOk result (OpenDisjunctionsHaveAllGroups self.new) }
        ensures moves { length self.new.leaves.reader.rest.now ≤ length self.old.leaves.reader.rest.now }
        ensures same { IsReaderOfSame self.new.leaves self.old.leaves }
        ensures text { AdvancesOrHasNoTree (c ∷ self.old.leaves.reader.rest.now) self.old result self.new }
    {
        match char::from_u32(c) {
            Some('|') => Ok(self.level.end_alternative()?),
            Some(')') => self.close_open_group(),
            Some('(') => self.enter(),
            _ => self.term(c),
        }
    }

    // Reads a term that is not a group.
    fn term(&mut self, c: u32) -> Result<(), ParseStopReason>
        requires { OpenDisjunctionsHaveAllGroups self.old }
        ensures reading { OnOk result (OpenDisjunctionsHaveAllGroups self.new) }
        ensures moves { length self.new.leaves.reader.rest.now ≤ length self.old.leaves.reader.rest.now }
        ensures same { IsReaderOfSame self.new.leaves self.old.leaves }
        ensures text { is_paren_or_bar c ≡ false → AdvancesOrHasNoTree (c ∷ self.old.leaves.reader.rest.now) self.old
            result self.new }
    {
        let GrouplessTerm { node, is_atom } = self.leaves.read_term_without_group(c)?;
        let groups = self.groups..self.groups;
        let node = quantified(&mut self.leaves, node, groups, is_atom)?;
        self.level.push(node)?;
        Ok(())
    }

    // Opens a group, after its `(`.
    fn enter(&mut self) -> Result<(), ParseStopReason>
        requires { OpenDisjunctionsHaveAllGroups self.old }
        ensures reading { OnOk result (OpenDisjunctionsHaveAllGroups self.new) }
        ensures moves { length self.new.leaves.reader.rest.now ≤ length self.old.leaves.reader.rest.now }
        ensures same { IsReaderOfSame self.new.leaves self.old.leaves }
        ensures text { AdvancesOrHasNoTree (open_parenthesis ∷ self.old.leaves.reader.rest.now) self.old result
            self.new }
    {
        let alloc = self.leaves.alloc;
        let start = self.groups;
        let parenthesis = self.leaves.reader;
        let opening = read_group_kind(&mut self.leaves.reader)?;
        let name = read_unused_group_name(&mut self.leaves, opening, start)?;
        let more = opening.captures_opened_by_group_kind();
        if more > CaptureGroupID::MAX - start {
            let groups = u32::from(start) + 1;
            return Err(parenthesis.error_at_last_read(Cause::TooManyGroups { groups }));
        }
        self.groups = start + more;
        let inner = PartialDisjunction::new(
            alloc,
            opening.are_inner_terms_reversed(self.level.are_terms_reversed()),
        );
        self.around.push(OpenGroup {
            outer: mem::replace(&mut self.level, inner),
            opening,
            name,
            start,
            left: parenthesis.count_code_points_from_last_read(),
        })?;
        Ok(())
    }

    // Closes a group, after its `)`.
    fn close_open_group(&mut self) -> Result<(), ParseStopReason>
        requires { OpenDisjunctionsHaveAllGroups self.old }
        ensures reading { OnOk result (OpenDisjunctionsHaveAllGroups self.new) }
        ensures moves { length self.new.leaves.reader.rest.now ≤ length self.old.leaves.reader.rest.now }
        ensures same { IsReaderOfSame self.new.leaves self.old.leaves }
        ensures text { AdvancesOrHasNoTree (close_parenthesis ∷ self.old.leaves.reader.rest.now) self.old result
            self.new }
    {
        let Some(
            OpenGroup {
                outer,
                opening,
                name,
                start,
                ..
            },
        ) = self.around.pop()
        else {
            return Err(self.leaves.reader.error_at_last_read(Cause::UnopenedGroup));
        };
        let contents = mem::replace(&mut self.level, outer).into_alternation_node()?;
        let end = self.groups;
        let node = enclosed(self.leaves.alloc, opening, name, contents, start..end)?;
        let is_atom = opening.is_atom(self.leaves.syntax, self.leaves.flags.unicode);
        let node = quantified(&mut self.leaves, node, start..end, is_atom)?;
        self.level.push(node)?;
        Ok(())
    }

    // Returns the error for the innermost open group.
    fn unclosed(&self) -> ParseStopReason {
        ParseStopReason::Refused {
            cause: Cause::UnclosedGroup,
            left: self.around.last().map_or(0, |open| open.left),
        }
    }

    // Returns the root of the tree, if no group is open and each reference has its group.
    fn finish(self) -> Result<Node, ParseStopReason>
        requires { OpenDisjunctionsHaveAllGroups self }
        ensures well_formed { IfOk result (λ n. IsTrue (is_well_formed (spec_node_of n))) }
        ensures characters { IfOk result (λ n. tree_contains_byte_nodes (spec_node_of n) ≡ false) }
        ensures plain { IfOk result (λ n. IsTrue (has_no_char_loops (spec_node_of n))) }
        ensures tree { let flags = spec_flags_of self.entry.leaves.flags in
            (pattern : RemainingCodePoints) (names : List RemainingCodePoints)
            → HasReadPatternUpTo pattern names [] self.entry
            → IsParseResult (spec_syntax_of self.entry.leaves.syntax) (tree_of_root_and_flags flags) flags pattern
            result }
    {
        if !self.around.is_empty() {
            return Err(self.unclosed());
        }
        if self.leaves.references > u32::from(self.groups) {
            return Err(ParseStopReason::Refused {
                cause: Cause::NoSuchGroup,
                left: self.leaves.reference_left,
            });
        }
        let alloc = self.leaves.alloc;
        let node = self.level.into_alternation_node()?;
        Ok(Node::Cat(vec![in alloc; node, Node::Goal]?))
    }
}

// Returns the node of a group with these contents, which contain these groups.
fn enclosed(
    alloc: Global,
    opening: GroupKind,
    name: Option<String>,
    contents: Node,
    groups: Range<CaptureGroupID>,
) -> Result<Node, AllocError>
    ensures part { IfOk result (λ n. (greatest : ℕ)
        → IsSoundSubtreeWithGroupIds (groups.start + captures_opened_by_group_kind opening) groups.end greatest
        (spec_node_of contents)
        → IsSoundSubtreeWithGroupIds groups.start groups.end greatest (spec_node_of n)) }
    ensures node { IfOk result (λ n. spec_node_of n
        ≡ group_node_around opening (group_name_bytes name) groups.start groups.end (spec_node_of contents)) }
{
    match opening {
        GroupKind::Plain => Ok(contents),
        GroupKind::Capture | GroupKind::Named => Ok(Node::CaptureGroup {
            id: groups.start,
            contents: Box::new(alloc, contents)?,
            name,
        }),
        GroupKind::Look { negate, backwards } => Ok(Node::LookaroundAssertion {
            negate,
            backwards,
            start_group: groups.start,
            end_group: groups.end,
            contents: Box::new(alloc, contents)?,
        }),
    }
}

// Returns the term, which contains these groups, or a loop over it if it is an atom and a
// quantifier follows.
fn quantified(
    leaves: &mut GrouplessTermReader,
    term: Node,
    groups: Range<CaptureGroupID>,
    is_atom: bool,
) -> Result<Node, ParseStopReason>
    ensures moves { length leaves.new.reader.rest.now ≤ length leaves.old.reader.rest.now }
    ensures references { leaves.new.references ≡ leaves.old.references }
    ensures part { IfOk result (λ n. (greatest : ℕ) → IsSoundSubtreeWithGroupIds groups.start groups.end greatest
        (spec_node_of term)
        → IsSoundSubtreeWithGroupIds groups.start groups.end greatest (spec_node_of n)) }
    ensures same { IsReaderOfSame leaves.new leaves.old }
    ensures text { IsTermWithOptionalQuantifierRead is_atom leaves.old.reader.rest.now groups.start groups.end
        (spec_node_of term) result leaves.new.reader.rest.now }
{
    if !is_atom {
        return if leaves.reader.quantifier_begins_here() {
            Err(leaves.reader.error_here(Cause::RepeatedAssertion))
        } else {
            Ok(term)
        };
    }
    match leaves.reader.read_quantifier()? {
        None => Ok(term),
        Some(quant) => Ok(Node::Loop {
            loopee: Box::new(leaves.alloc, term)?,
            quant,
            enclosed_groups: groups,
        }),
    }
}

// Reads the name of a named group, after its `(?<`. `groups` groups have opened before. If another
// group has the name, this is an error.
fn read_unused_group_name(
    leaves: &mut GrouplessTermReader,
    opening: GroupKind,
    groups: CaptureGroupID,
) -> Result<Option<String>, ParseStopReason>
    ensures moves { length leaves.new.reader.rest.now ≤ length leaves.old.reader.rest.now }
    ensures references { leaves.new.references ≡ leaves.old.references }
    ensures same { IsReaderOfSame leaves.new leaves.old }
    ensures text { IsOptionalGroupNameRead (spec_syntax_of leaves.old.syntax)
        (λ name. get_by_text leaves.old.numbers name) groups (is_named_group opening)
        leaves.old.reader.rest.now result leaves.new.reader.rest.now }
{
    let GroupKind::Named = opening else {
        return Ok(None);
    };
    let start = leaves.reader;
    let name = read_name(leaves.alloc, &mut leaves.reader, leaves.syntax)?;
    if leaves.numbers.get(name.as_str()).copied() == Some(u32::from(groups) + 1) {
        Ok(Some(name))
    } else {
        Err(start.error_here(Cause::DuplicateName))
    }
}
