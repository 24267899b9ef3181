//! Groups: how they open, and a scan for the names of all groups of a pattern.

ghost use Rattle.std.specs.Prelude.{◌≡◌, ◌≤◌, ◌<◌, ◌∷◌, ◌==◌, ◌&&◌, not, [], false, length, string_bytes, IfErr, IfOk, IsTrue, OnOk};
ghost use Rattle.std.specs.BTreeMap.{get_by_text, btree_map_len};
ghost use Rattle.regex_meaning.specs.GroupNameScan.{scanned_names_per_capturing_group};
ghost use Rattle.regex_meaning.specs.ReadingStatesAndDigits.{RemainingCodePoints};
ghost use Rattle.regex_meaning.specs.Tree.{Flags};
ghost use Rattle.regex_parser.specs.GroupReaderContracts.{IsLookaroundPolaritySignRead, IsOpeningRead, AreCountedAndNumbered, RecordsFurtherGroupsInScan, GroupNameScanProcessesCodePoint};
ghost use Rattle.regex_parser.specs.GroupReaderContracts.{group_numbers_adding_absent_name, count_of_groups, IsPatternScanned, DoesNotBeginWith};
ghost use Rattle.regex_parser.specs.CodePointReaderContracts.{is_syntax_error, IsReadOrSyntaxError};
ghost use Rattle.regex_parser.specs.SyntaxDialects.{spec_syntax_of};
ghost use Rattle.regex_parser.specs.declared.syntax.Syntax.TheVariants.{Profile};

use crate::code_point_reader::PatternReader;
use crate::diagnosis::Cause;
use crate::ecmascript_group_name_reader::read_group_name;
use crate::escapes_and_group_names::name;
use crate::parser_error::ParseStopReason;
use crate::syntax::Syntax;
use regex_pattern_front::types::{CaptureGroupID, MAX_CAPTURE_GROUPS};
use std::alloc::{AllocError, Global};
use std::collections::BTreeMap;

/// The kind of a group, which the beginning of the group determines.
#[derive(Clone, Copy)]
pub(crate) enum GroupKind {
    /// `(`
    Capture,
    /// `(?<`, before a name
    Named,
    /// `(?:`
    Plain,
    /// `(?=`, `(?!`, `(?<=` or `(?<!`
    Look { negate: bool, backwards: bool },
}

impl GroupKind {
    ghost use Rattle.regex_parser.specs.GroupReaderContracts.{is_reversed_in, takes_quantifier};
    ghost use Rattle.regex_parser.specs.GroupIdInvariant.{captures_opened_by_group_kind};

    /// Returns the number of capturing groups that it opens: 0 or 1.
    pub(crate) fn captures_opened_by_group_kind(self) -> CaptureGroupID
        ensures { result ≡ captures_opened_by_group_kind self }
    {
        match self {
            GroupKind::Capture | GroupKind::Named => 1,
            GroupKind::Plain | GroupKind::Look { .. } => 0,
        }
    }

    /// Returns whether terms inside the group are stored in reverse order, given whether the terms
    /// outside it are.
    pub(crate) fn are_inner_terms_reversed(self, outside: bool) -> bool
        ensures { result ≡ is_reversed_in self outside }
    {
        match self {
            GroupKind::Look { backwards, .. } => backwards,
            _ => outside,
        }
    }

    /// Checks whether a quantifier may follow the group. In the whole language without `unicode`,
    /// one may follow a lookahead too (`QuantifiableAssertion`).
    pub(crate) fn is_atom(self, syntax: Syntax, unicode: bool) -> bool
        ensures { (flags : Flags) → flags.unicode ≡ unicode
            → result ≡ takes_quantifier (spec_syntax_of syntax) flags self }
    {
        match self {
            GroupKind::Look { backwards, .. } => {
                matches!(syntax, Syntax::EcmaScript2018) && !unicode && !backwards
            }
            _ => true,
        }
    }
}

/// Reads the rest of the opening of a group, after its parenthesis.
pub(crate) fn read_group_kind(reader: &mut PatternReader) -> Result<GroupKind, ParseStopReason>
    ensures moves { length reader.new.rest.now ≤ length reader.old.rest.now }
    ensures text { IsOpeningRead reader.old.rest.now result reader.new.rest.now }
    ensures syntax { IfErr result (λ e. IsTrue (is_syntax_error e)) }
{
    let start = *reader;
    if !reader.eat('?') {
        return Ok(GroupKind::Capture);
    }
    if reader.eat(':') {
        return Ok(GroupKind::Plain);
    }
    let backwards = reader.eat('<');
    if let Some(negate) = read_lookaround_sign(reader) {
        return Ok(GroupKind::Look { negate, backwards });
    }
    if backwards {
        Ok(GroupKind::Named)
    } else {
        Err(start.error_at_last_read(invalid_group_cause(reader.peek())))
    }
}

// Returns the cause for a `(?` that opens no group. `next` is the code point after it.
fn invalid_group_cause(next: Option<char>) -> Cause {
    match next {
        Some('i' | 'm' | 's' | 'u' | 'x' | '-') => Cause::Modifiers,
        Some('>') => Cause::AtomicGroup,
        Some('#') => Cause::Comment,
        Some('P') => Cause::PythonGroup,
        _ => Cause::InvalidGroup,
    }
}

// Reads the sign of a lookaround and returns whether it is negative. Returns `None` if there is no
// sign.
fn read_lookaround_sign(reader: &mut PatternReader) -> Option<bool>
    ensures moves { length reader.new.rest.now ≤ length reader.old.rest.now }
    ensures text { IsLookaroundPolaritySignRead reader.old.rest.now result reader.new.rest.now }
{
    if reader.eat('!') {
        return Some(true);
    }
    if reader.eat('=') { Some(false) } else { None }
}

/// Reads a name after its `<`, and the `>`.
pub(crate) fn read_name(
    alloc: Global,
    reader: &mut PatternReader,
    syntax: Syntax,
) -> Result<String, ParseStopReason>
    ensures moves { length reader.new.rest.now ≤ length reader.old.rest.now }
    ensures text { IsReadOrSyntaxError (λ s. string_bytes s) ((spec_syntax_of syntax).group_name reader.old.rest.now)
        result reader.new.rest.now }
{
    match syntax {
        Syntax::Profile => name(alloc, reader),
        Syntax::EcmaScript2018 => read_group_name(alloc, reader),
    }
}

/// The numbers of named groups, by name. Groups count from 1.
pub(crate) type GroupNumbers = BTreeMap<String, u32>;

/// What a scan finds out about the groups of a whole pattern, before the pattern is parsed.
#[derive(Drop)]
pub(crate) struct ScannedGroups {
    pub(crate) numbers: GroupNumbers,
    /// Number of capturing groups, limited to `u32::MAX`.
    pub(crate) count: u32,
    /// Number of code points that are left where the first group without an id opens. 0 if each
    /// group has an id.
    pub(crate) left_at_excess: usize,
}

/// Scans a whole pattern for its groups and their names. This is done first, because a reference
/// may precede its group, and because too many groups are refused before the pattern is parsed. If
/// a name occurs twice, it belongs to the first group. Syntax errors are skipped here, and the
/// parser reports them.
pub(crate) fn scan_groups(
    alloc: Global,
    pattern: &[u32],
    syntax: Syntax,
) -> Result<ScannedGroups, AllocError>
    ensures count { IfOk result (λ found. found.count
        ≡ count_of_groups (scanned_names_per_capturing_group false pattern.now)) }
    ensures scanned { IfOk result (λ found. IsPatternScanned (spec_syntax_of syntax) pattern.now found.count
        found.numbers) }
    ensures profile { syntax ≡ Profile → IfOk result (λ found. AreCountedAndNumbered found.count found.numbers
        (scanned_names_per_capturing_group false pattern.now)) }
{
    let mut scan = GroupAndNameScanState {
        syntax,
        numbers: BTreeMap::new(alloc),
        groups: 0,
        in_class: false,
    };
    let mut reader = PatternReader { rest: pattern };
    let mut left_at_excess = pattern.len();
    while let Some(c) = reader.read_next_and_skip_escaped() {
        scan.scan_code_point(alloc, c, reader)?;
        left_at_excess = scan.left_at_excess(reader.rest.len(), left_at_excess);
    }
    Ok(ScannedGroups {
        numbers: scan.numbers,
        count: scan.groups,
        left_at_excess,
    })
}

// State of the scan: the numbers of the names, the number of groups, and whether a class is open.
#[derive(Drop)]
struct GroupAndNameScanState {
    syntax: Syntax,
    numbers: GroupNumbers,
    groups: u32,
    in_class: bool,
}

impl GroupAndNameScanState {
    // Processes a code point. The reader is after it.
    fn scan_code_point(
        &mut self,
        alloc: Global,
        c: u32,
        reader: PatternReader,
    ) -> Result<(), AllocError>
        ensures { OnOk result (GroupNameScanProcessesCodePoint (spec_syntax_of self.old.syntax) self.old self.new c
            reader.entry.rest.now) }
    {
        if c == '[' as u32 {
            self.in_class = true;
            return Ok(());
        }
        if c == ']' as u32 {
            self.in_class = false;
            return Ok(());
        }
        if !self.may_open(c) {
            return Ok(());
        }
        self.note_group(alloc, reader)
    }

    // Returns how many code points are left where the first group without an id opens. That is as
    // many as are left now, unless the scan is past that group.
    fn left_at_excess(&self, left: usize, before: usize) -> usize {
        if self.groups <= MAX_CAPTURE_GROUPS as u32 {
            left
        } else {
            before
        }
    }

    // Checks whether the code point may open a group.
    fn may_open(&self, c: u32) -> bool
        ensures { result ≡ (c == 40 && not self.now.in_class) }
    {
        c == '(' as u32 && !self.in_class
    }

    // Records a group whose parenthesis is just before the reader.
    fn note_group(&mut self, alloc: Global, mut reader: PatternReader) -> Result<(), AllocError>
        ensures { OnOk result (RecordsFurtherGroupsInScan (spec_syntax_of self.old.syntax) self.old self.new
            (reader.entry.rest.now ∷ [])) }
    {
        match read_group_kind(&mut reader) {
            Ok(GroupKind::Capture) => {
                self.groups = self.groups.saturating_add(1);
                Ok(())
            }
            Ok(GroupKind::Named) => self.note_name(alloc, reader),
            Ok(GroupKind::Plain) => Ok(()),
            Ok(GroupKind::Look { .. }) => Ok(()),
            Err(_) => Ok(()),
        }
    }

    // Reads the name of a group and records both, unless an earlier group has the name.
    fn note_name(&mut self, alloc: Global, mut reader: PatternReader) -> Result<(), AllocError>
        requires { DoesNotBeginWith 33 reader.rest.now × DoesNotBeginWith 61 reader.rest.now }
        ensures { OnOk result (RecordsFurtherGroupsInScan (spec_syntax_of self.old.syntax) self.old self.new
            ((63 ∷ 60 ∷ reader.entry.rest.now) ∷ [])) }
    {
        self.groups = self.groups.saturating_add(1);
        match read_name(alloc, &mut reader, self.syntax) {
            Ok(name) => self.number(name),
            Err(ParseStopReason::Refused { .. }) => Ok(()),
            Err(ParseStopReason::Memory(refused)) => Err(refused),
        }
    }

    // Gives the last group this name, unless an earlier group has it.
    fn number(&mut self, name: String) -> Result<(), AllocError>
        ensures same { OnOk result ((self.new.groups ≡ self.old.groups) × (self.new.in_class ≡ self.old.in_class)
            × (self.new.syntax ≡ self.old.syntax)) }
        ensures named { OnOk result (0 < btree_map_len self.new.numbers) }
        ensures numbers { OnOk result ((other : RemainingCodePoints) → get_by_text self.new.numbers other
            ≡ group_numbers_adding_absent_name (string_bytes name) self.old.groups
            (λ x. get_by_text self.old.numbers x) other) }
    {
        if self.numbers.contains_key(name.as_str()) {
            return Ok(());
        }
        self.numbers.insert(name, self.groups)?;
        Ok(())
    }
}
