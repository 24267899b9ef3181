//! Runs of code units whose keys pass a test.

ghost use Rattle.std.specs.Prelude.{◌≡◌, ◌≤◌, ◌<◌, ◌+◌, ℕ, Bool, false, true};
ghost use Rattle.regex_meaning.specs.CodeUnitOffsets.{units};
ghost use Rattle.regress_search.specs.UnitRuns.{IsKeyTestAt, UnitsPassKeyTest};

use crate::class_char_and_table_lookups::{unit_at_offset, unit_key_at_offset};
use crate::search_context::SearchContext;
use regress_input::indexing::{CodeUnitEncoding, HasUnitType};

/// A test of code units by their keys. Contracts see which keys pass.
pub(crate) trait KeyTest {
    ghost key_passes: { Self → (key : ℕ) → Bool };

    /// Checks whether a code unit with this key passes.
    fn passes_key(&self, key: usize) -> bool
        requires { key < 256 }
        ensures { result ≡ key_passes self.now key };
}

/// Counts the consecutive code units from an offset on that pass the test, up to `most`.
#[inline(always)]
pub(crate) fn count_passing<W: SearchContext, Test: KeyTest>(
    context: &W,
    test: &Test,
    from: usize,
    most: usize,
) -> usize
    requires { from + most ≤ units (W.searching context.now).text }
    ensures run { UnitsPassKeyTest (W.searching context.now) (Test.key_passes test.now) from most result }
    ensures stop { result < most
        → IsKeyTestAt (W.searching context.now) (Test.key_passes test.now) (from + result) false }
{
    let mut count = count_passing_ascii(context, test, from, most);
    'units: while count < most {
        if !test.passes_key(unit_key_at_offset(context, from + count)) {
            return count;
        }
        count += 1;
    }
    count
}

// The number of units that `count_passing_ascii` tests in one iteration.
const UNITS_AT_ONCE: usize = 4;

// Like `count_passing`, but counts only 16-bit units below 128, which are their own keys. The last
// few units of the text are left out. In bytes, where each unit is its own key, one loop is enough,
// and the count is 0.
#[inline(always)]
fn count_passing_ascii<W: SearchContext, Test: KeyTest>(
    context: &W,
    test: &Test,
    from: usize,
    most: usize,
) -> usize
    requires { from + most ≤ units (W.searching context.now).text }
    ensures { UnitsPassKeyTest (W.searching context.now) (Test.key_passes test.now) from most result }
{
    if <<W::Input as HasUnitType>::Units as CodeUnitEncoding>::ARE_BYTES {
        return 0;
    }
    let mut count = 0;
    'fours: while most - count >= UNITS_AT_ONCE {
        let more = count_passing_ascii_of_four(context, test, from + count);
        if more < UNITS_AT_ONCE {
            return count + more;
        }
        count += UNITS_AT_ONCE;
    }
    count
}

// Counts the consecutive units below 128 from an offset on that pass the test, up to four.
#[inline(always)]
fn count_passing_ascii_of_four<W: SearchContext, Test: KeyTest>(
    context: &W,
    test: &Test,
    at: usize,
) -> usize
    requires { at + 4 ≤ units (W.searching context.now).text }
    ensures { UnitsPassKeyTest (W.searching context.now) (Test.key_passes test.now) at 4 result }
{
    if !is_passing_ascii(context, test, at) {
        return 0;
    }
    if !is_passing_ascii(context, test, at + 1) {
        return 1;
    }
    if !is_passing_ascii(context, test, at + 2) {
        return 2;
    }
    if !is_passing_ascii(context, test, at + 3) {
        return 3;
    }
    4
}

// Checks whether the unit at an offset is below 128 and passes the test.
#[inline(always)]
fn is_passing_ascii<W: SearchContext, Test: KeyTest>(context: &W, test: &Test, at: usize) -> bool
    requires { at < units (W.searching context.now).text }
    ensures { result ≡ true → IsKeyTestAt (W.searching context.now) (Test.key_passes test.now) at true }
{
    unit_at_offset(context, at) < 128 && test.passes_key(unit_key_at_offset(context, at))
}
