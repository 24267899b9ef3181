//! Diagnoses of patterns that are refused.

ghost use Rattle.std.specs.Prelude.{◌≡◌, ◌≤◌, IfOk, IfSome, None, chars, length};
ghost use Rattle.regex_meaning.specs.Tree.{Tree};
ghost use Rattle.regex_meaning.specs.Grammar.{Parses, ParsesBy};
ghost use Rattle.regex_parser.specs.ParserContracts.{IsTextRefused, IsTextRefusedIn};
ghost use Rattle.regex_parser.specs.SyntaxDialects.{spec_syntax_of};
ghost use Rattle.regress_match.specs.PublicFlagsAsSpecFlags.{spec_flags_of};

use crate::api::{Flags, Regex, Syntax};
use regex_parser::diagnosis::Diagnosis;
use regex_parser::parse::diagnose_in;
use std::alloc::{AllocError, Global};

// Returns the code points of a text.
pub(super) fn code_points(alloc: Global, text: &str) -> Result<Vec<u32>, AllocError>
    ensures { IfOk result (λ points. points.items ≡ chars text.now) }
{
    text.chars().map(u32::from).collect(alloc)
}

impl Regex {
    /// Returns what is wrong with a pattern that `with_flags` refuses as `Parse(Syntax)` or for too
    /// many groups, and where. It does not compile the pattern. Returns `None` if the pattern is
    /// valid. The error `Parse(Syntax)` of `with_flags` also contains a diagnosis
    /// (`Error::diagnosis`). Tests show that it is the same.
    ///
    /// The diagnosis displays like `unclosed group at 3`, and `below_text` displays it in a line
    /// below the pattern. The position is in code points, and `offset_in` converts it to bytes. For
    /// `é(a|b`, these are 1 and 2 (tested in `test_searches`).
    ///
    /// # Errors
    ///
    /// `AllocError` if an allocation for reading the pattern fails.
    pub fn diagnose(
        alloc: Global,
        pattern: &str,
        flags: Flags,
    ) -> Result<Option<Diagnosis>, AllocError>
        ensures place { IfOk result (λ told. IfSome told (λ d. d.at ≤ length (chars pattern.now))) }
        ensures by_grammar { IfOk result (λ told.
            IfSome told (λ d. IsTextRefused (spec_flags_of flags) (chars pattern.now))
            × (told ≡ None → (tree : Tree) × Parses (spec_flags_of flags) (chars pattern.now) tree)) }
    {
        Regex::diagnose_with_syntax(alloc, pattern, flags, Syntax::Profile)
    }

    /// Returns what is wrong with a pattern that `with_syntax` refuses, and where, as `diagnose`
    /// does for `with_flags`.
    ///
    /// # Errors
    ///
    /// `AllocError` if an allocation for reading the pattern fails.
    pub fn diagnose_with_syntax(
        alloc: Global,
        pattern: &str,
        flags: Flags,
        syntax: Syntax,
    ) -> Result<Option<Diagnosis>, AllocError>
        ensures place { IfOk result (λ told. IfSome told (λ d. d.at ≤ length (chars pattern.now))) }
        ensures by_grammar { let s = spec_syntax_of syntax in let flags = spec_flags_of flags in IfOk result (λ told.
            IfSome told (λ d. IsTextRefusedIn s flags (chars pattern.now))
            × (told ≡ None → (tree : Tree) × ParsesBy s flags (chars pattern.now) tree)) }
    {
        let code_points = code_points(alloc, pattern)?;
        diagnose_in(alloc, &code_points, flags.for_front(), syntax)
    }
}
