//! The instructions of nodes that compile to a single one.

ghost use Rattle.std.specs.Prelude.{◌≡◌, ◌≤◌, length};
ghost use Rattle.regex_meaning.specs.CompilationRelation as layout;
ghost use Rattle.regex_pattern_front.specs.AstToSpecTree.{spec_anchor_of};
ghost use Rattle.regress_program.specs.InsnsAsSpec.{insn_as_spec_insn};

use crate::instructions::Insn;
use regex_pattern_front::bytesearch::ByteArraySet;
use regex_pattern_front::ir::AnchorType;

// Returns the instruction that reads one character of a set. The first member is repeated if there
// are fewer than four.
pub(crate) fn char_set_insn(members: &[u32]) -> Insn
    requires { length members.now ≤ 4 }
    ensures { insn_as_spec_insn result ≡ layout.char_set_insn members.now }
{
    match members {
        [] => Insn::JustFail,
        [a] => Insn::CharSet([*a, *a, *a, *a]),
        [a, b] => Insn::CharSet([*a, *b, *a, *a]),
        [a, b, c] => Insn::CharSet([*a, *b, *c, *a]),
        [a, b, c, d] => Insn::CharSet([*a, *b, *c, *d]),
        _ => unreachable!(),
    }
}

// Returns the instruction that reads a code point of a string in any of its case variants.
pub(crate) fn insn_of_case_variants(members: &[u32]) -> Insn
    requires { length members.now ≤ 4 }
    ensures { insn_as_spec_insn result ≡ layout.case_variants_insn members.now }
{
    match members {
        [c] => Insn::Char(*c),
        _ => char_set_insn(members),
    }
}

// Returns the instruction that reads one byte of a set.
pub(crate) fn byte_set_insn(members: &[u8]) -> Insn
    requires { length members.now ≤ 4 }
    ensures { insn_as_spec_insn result ≡ layout.byte_set_insn members.now }
{
    match members {
        [] => Insn::JustFail,
        [a] => Insn::ByteSeq1([*a]),
        [a, b] => Insn::ByteSet2(ByteArraySet([*a, *b])),
        [a, b, c] => Insn::ByteSet3(ByteArraySet([*a, *b, *c])),
        [a, b, c, d] => Insn::ByteSet4(ByteArraySet([*a, *b, *c, *d])),
        _ => unreachable!(),
    }
}

// Returns the instruction of `^` or `$`.
pub(crate) fn anchor_insn(anchor_type: AnchorType, multiline: bool) -> Insn
    ensures { insn_as_spec_insn result ≡ layout.anchor_insn (spec_anchor_of anchor_type) multiline }
{
    match anchor_type {
        AnchorType::StartOfLine => Insn::StartOfLine { multiline },
        AnchorType::EndOfLine => Insn::EndOfLine { multiline },
    }
}

// Returns the instruction of `\b` or `\B`.
pub(crate) fn word_boundary_insn(invert: bool, unicode_icase: bool) -> Insn
    ensures { insn_as_spec_insn result ≡ layout.word_boundary_insn invert unicode_icase }
{
    if unicode_icase {
        Insn::WordBoundaryUnicodeICase { invert }
    } else {
        Insn::WordBoundary { invert }
    }
}
