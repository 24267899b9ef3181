//! A program, paired with the text that it searches.

ghost use Rattle.std.specs.Prelude.{◌≡◌, ◌+◌, IsAscii, IsTrue, option_map};
ghost use Rattle.regex_meaning.specs.{Text.{ascii_text, ucs2_text, utf16_text, utf8_text}, WellFormedTrees.{is_well_formed}, CodeUnitOffsets.{IsBoundary}};
ghost use Rattle.regex_pattern_front.specs.AstToSpecTree.{tree_of};
ghost use Rattle.regress_program.specs.{StartPredicates.{is_anchored_tree}, SearchableTexts.{IsByteText}};
ghost use Rattle.regress_machine.specs.TextsForBytePrograms.{tree_contains_byte_nodes};
ghost use Rattle.regress_search.specs.AttemptsAndStarts.{NextStartSkipsNoMatch, offset_after_failed_attempt};
ghost use Rattle.regress_search.specs.CostsOfSearches.{next_attempt_offset};

use regress_input::indexing::{AsciiInput, InputIndexer, Ucs2Input, Utf8Input, Utf16Input};
use regress_program::insn::{CompiledRegex, CompiledRegexFor16BitUnits, Program};

/// A program, and a text that it can search. Characters are folded as the program's flags say. If
/// the program reads bytes, the text is a byte text.
#[derive(Drop)]
pub struct ProgramAndInput<'r, Input: InputIndexer> {
    pub program: &'r Program,
    /// Whether every alternative of the pattern begins with `^`, without the flag `m`
    /// (`is_anchored_tree`).
    pub anchored: bool,
    pub input: Input,
    ghost unicode: { (Input.text input).unicode ≡ (tree_of program.now).flags.unicode },
    ghost well_formed: { IsTrue (is_well_formed (tree_of program.now).root) },
    ghost bytes: { IsTrue (tree_contains_byte_nodes (tree_of program.now).root)
        → IsByteText (Input.text input) Input.Units.ARE_BYTES },
    ghost anchors: { anchored ≡ is_anchored_tree (tree_of program.now) },
}

impl<'r, Input: InputIndexer> ProgramAndInput<'r, Input> {
    /// Checks whether the pattern is known to match only at the left end. If so, no match begins at
    /// a later position.
    #[inline(always)]
    pub fn is_anchored(&self) -> bool
        ensures { result ≡ is_anchored_tree (tree_of self.now.program.now) }
    {
        self.anchored
    }

    /// Returns the position to try after one at which no match begins: one character further.
    /// Returns `None` at the end, or if the pattern is known to match only at the left end.
    #[inline(always)]
    pub fn position_after_failure(&self, tried: Input::Position) -> Option<Input::Position>
        requires { IsBoundary (Input.text self.now.input) (Input.Position.offset tried) }
        ensures next { let at = Input.Position.offset in
            NextStartSkipsNoMatch (tree_of self.now.program.now)
            (Input.text self.now.input) (at tried + 1) (option_map at result) }
        ensures each { let at = Input.Position.offset in option_map at result
            ≡ next_attempt_offset (tree_of self.now.program.now) (Input.text self.now.input) (at tried) }
    {
        position_after_failed(&self.input, self.is_anchored(), tried)
    }
}

// Returns the position to try after one at which no match begins.
#[inline(always)]
fn position_after_failed<Input: InputIndexer>(
    input: &Input,
    anchored: bool,
    tried: Input::Position,
) -> Option<Input::Position>
    requires { IsBoundary (Input.text input.now) (Input.Position.offset tried) }
    ensures { let at = Input.Position.offset in
        option_map at result ≡ offset_after_failed_attempt anchored (Input.text input.now) (at tried) }
{
    if anchored {
        None
    } else {
        input.next_right_pos(tried)
    }
}

impl<'r, Input: InputIndexer> ProgramAndInput<'r, Input> {
    // Pairs a program for bytes with an input whose code units are bytes.
    fn pair_with_bytes(re: &'r CompiledRegex, input: Input) -> Self
        requires unicode { (Input.text input).unicode ≡ (tree_of re.now).flags.unicode }
        requires bytes { IsByteText (Input.text input) Input.Units.ARE_BYTES }
        ensures same { result.program.now ≡ re.now }
        ensures input { result.input ≡ input }
    {
        let program = re.common_program();
        let _well_formed = program.insns();
        ProgramAndInput {
            program,
            anchored: re.is_anchored(),
            input,
        }
    }
}

impl<'r, 't> ProgramAndInput<'r, Utf8Input<'t>> {
    /// Pairs a program with a text in UTF-8.
    pub fn pair_with_utf8_text(re: &'r CompiledRegex, text: &'t str) -> Self
        ensures same { result.program.now ≡ re.now }
        ensures text { ⟦<Utf8Input<'t> as InputIndexer>⟧.text result.input
            ≡ utf8_text text.now (tree_of re.now).flags.unicode }
    {
        ProgramAndInput::pair_with_bytes(
            re,
            Utf8Input::new(text, re.common_program().flags().unicode),
        )
    }
}

impl<'r, 't> ProgramAndInput<'r, AsciiInput<'t>> {
    /// Pairs a program with an ASCII text (see `is_ascii`).
    pub fn pair_with_ascii_text(re: &'r CompiledRegex, text: &'t str) -> Self
        requires { IsAscii text.now }
        ensures same { result.program.now ≡ re.now }
        ensures text { ⟦<AsciiInput<'t> as InputIndexer>⟧.text result.input
            ≡ ascii_text text.now (tree_of re.now).flags.unicode }
    {
        ProgramAndInput::pair_with_bytes(
            re,
            AsciiInput::new(text, re.common_program().flags().unicode),
        )
    }
}

impl<'r, Input: InputIndexer> ProgramAndInput<'r, Input> {
    // Pairs a program for 16-bit code units with an input.
    fn pair_with_units(re: &'r CompiledRegexFor16BitUnits, input: Input) -> Self
        requires { (Input.text input).unicode ≡ (tree_of re.now).flags.unicode }
        ensures same { result.program.now ≡ re.now }
        ensures input { result.input ≡ input }
    {
        let program = re.common_program();
        let _well_formed = program.insns();
        ProgramAndInput {
            program,
            anchored: re.is_anchored(),
            input,
        }
    }
}

impl<'r, 't> ProgramAndInput<'r, Utf16Input<'t>> {
    /// Pairs a program for 16-bit code units with a text in UTF-16.
    pub fn pair_with_utf16_text(re: &'r CompiledRegexFor16BitUnits, text: &'t [u16]) -> Self
        ensures same { result.program.now ≡ re.now }
        ensures text { ⟦<Utf16Input<'t> as InputIndexer>⟧.text result.input
            ≡ utf16_text text.now (tree_of re.now).flags.unicode }
    {
        ProgramAndInput::pair_with_units(
            re,
            Utf16Input::new(text, re.common_program().flags().unicode),
        )
    }
}

impl<'r, 't> ProgramAndInput<'r, Ucs2Input<'t>> {
    /// Pairs a program for 16-bit code units with a text in UCS-2.
    pub fn pair_with_ucs2_text(re: &'r CompiledRegexFor16BitUnits, text: &'t [u16]) -> Self
        ensures same { result.program.now ≡ re.now }
        ensures text { ⟦<Ucs2Input<'t> as InputIndexer>⟧.text result.input
            ≡ ucs2_text text.now (tree_of re.now).flags.unicode }
    {
        ProgramAndInput::pair_with_units(
            re,
            Ucs2Input::new(text, re.common_program().flags().unicode),
        )
    }
}
