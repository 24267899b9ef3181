//! Assertions at an offset: line boundaries and word boundaries.

ghost use Rattle.std.specs.Prelude.{◌≡◌};
ghost use Rattle.regex_meaning.specs.{Tree.{start_of_line, end_of_line}, CodeUnitOffsets.{IsBoundary}, Outcomes.{is_at_word_boundary, exclusive_or}};
ghost use Rattle.regress_input.specs.CharAndByteReadsFromOffset.{place};
ghost use Rattle.regress_search.specs.OffsetsAfterMatchedInsns.{anchor_matches_at};

use crate::insns_that_read_or_test_text::{at_line_end, at_line_start, passes_word_boundary};
use crate::search_context::position_of_offset;
use regress_input::indexing::InputIndexer;
use regress_program::ops::WordBoundaryKind;

/// Checks whether a line starts at `at`. Without `multiline`, this is only the start of the text.
#[inline(always)]
pub fn is_line_start_at_offset<Input: InputIndexer>(
    input: &Input,
    multiline: bool,
    at: usize,
) -> bool
    requires { IsBoundary (Input.text input.now) at }
    ensures { result ≡ anchor_matches_at (Input.text input.now) start_of_line multiline at }
{
    at_line_start(input, multiline, position_of_offset(input, at))
}

/// Checks whether a line ends at `at`. Without `multiline`, this is only the end of the text.
#[inline(always)]
pub fn is_line_end_at_offset<Input: InputIndexer>(input: &Input, multiline: bool, at: usize) -> bool
    requires { IsBoundary (Input.text input.now) at }
    ensures { result ≡ anchor_matches_at (Input.text input.now) end_of_line multiline at }
{
    at_line_end(input, multiline, position_of_offset(input, at))
}

/// Checks whether there is a word boundary at `at`. With `edge.invert`, checks that there is none.
#[inline(always)]
pub fn is_word_boundary_at_offset<Input: InputIndexer>(
    input: &Input,
    edge: WordBoundaryKind,
    at: usize,
) -> bool
    requires { IsBoundary (Input.text input.now) at }
    ensures { let text = Input.text input.now in
        result ≡ exclusive_or edge.invert (is_at_word_boundary text edge.unicode_icase (place text at)) }
{
    passes_word_boundary(
        input,
        edge.invert,
        edge.unicode_icase,
        position_of_offset(input, at),
    )
}
