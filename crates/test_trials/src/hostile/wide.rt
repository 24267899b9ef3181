//! Searches in texts of 16-bit units: for all matches, or for the first one by a direct call of an
//! executor.

ghost use Rattle.std.specs.Prelude.{◌<◌, ◌⊎◌, IsTrue, length};
ghost use Rattle.regex_meaning.specs.Text.{is_unit_boundary as spec_is_unit_boundary};

use crate::fault::ParseFault;
use crate::hostile::executors::finds;
use crate::hostile::lists::are_expected_matches;
use regress_match::backends::{DefaultUcs2Executor, DefaultUtf16Executor};
use regress_match::{Regex, is_unit_boundary};
use regress_program::insn::CompiledRegexFor16BitUnits;

/// Checks whether an offset does not split a surrogate pair, or is past the end.
pub fn is_unit_start(units: &[u16], offset: usize) -> bool
    ensures { IsTrue result → IsTrue (spec_is_unit_boundary units.now offset) ⊎ (length units.now < offset) }
{
    is_unit_boundary(units, offset) || units.len() < offset
}

/// Checks whether the matches in UTF-16 are the expected ones.
pub fn all_in_utf16(
    re: &Regex,
    units: &[u16],
    start: usize,
    wanted: &str,
) -> Result<bool, ParseFault>
    requires { IsTrue (spec_is_unit_boundary units.now start) ⊎ (length units.now < start) }
{
    are_expected_matches(re.find_from_utf16(units, start)?, wanted)
}

/// Checks whether an executor finds the first expected match in UTF-16.
pub fn asked_in_utf16(
    re: &CompiledRegexFor16BitUnits,
    units: &[u16],
    start: usize,
    wanted: &str,
) -> Result<bool, ParseFault>
    requires { IsTrue (spec_is_unit_boundary units.now start) ⊎ (length units.now < start) }
{
    let mut executor = DefaultUtf16Executor::new_utf16(re, units)?;
    finds(&mut executor, start, wanted)
}

/// Checks whether the matches in UCS-2 are the expected ones.
pub fn all_in_ucs2(
    re: &Regex,
    units: &[u16],
    start: usize,
    wanted: &str,
) -> Result<bool, ParseFault> {
    are_expected_matches(re.find_from_ucs2(units, start)?, wanted)
}

/// Checks whether an executor finds the first expected match in UCS-2.
pub fn asked_in_ucs2(
    re: &CompiledRegexFor16BitUnits,
    units: &[u16],
    start: usize,
    wanted: &str,
) -> Result<bool, ParseFault> {
    let mut executor = DefaultUcs2Executor::new_ucs2(re, units)?;
    finds(&mut executor, start, wanted)
}
