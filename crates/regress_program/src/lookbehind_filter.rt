//! Lookbehind filters: which characters must precede a match.

ghost use Rattle.std.specs.Prelude.{◌≡◌, true, Some, slice_get, IfSome};
ghost use Rattle.regex_meaning.specs.CompilationRelation.{Program};
ghost use Rattle.regress_program.specs.LookbehindFilter.{IsLookbehindFilter};
ghost use Rattle.regress_program.specs.PrecedingCharFilterFromOps.{FilterIncludesAllKeysOfSet, LookbehindReadsCharOfSet, reads_character as spec_reads_character};
ghost use Rattle.regress_program.specs.TableKeysOfUnits.{is_16_bit_width};
ghost use Rattle.regress_program.specs.RequiredPrefixAnalysis.{AreOpsOfProgram};

use crate::first_set_fixpoint::{FirstSets, first_set_from_successors};
use crate::first_set_type::FirstSet;
use crate::follow_sets::{OnlyAsciiOrOnlyLeadKeys, up_to_three_keys_of_kind};
use crate::ops::{LookaroundAndNextOp, Op};
use crate::plan::Plan;
use crate::table_keys_of_units::UnitWidth;
use crate::up_to_three_units::UpToThreeUnits;

/// A filter of match starts by the preceding character, which begins with one of these keys. With
/// `edge`, a match may also begin at the left end.
#[derive(Clone, Copy)]
pub struct PrecedingCharFilter {
    pub keys: UpToThreeUnits,
    pub edge: bool,
}

impl PrecedingCharFilter {
    // Returns the filter for characters that begin with keys of this set. `None` if it has more
    // than three keys, or one with which no character begins.
    // The filter has all keys of the set and this `edge`.
    fn of(set: &FirstSet, edge: bool, units: UnitWidth) -> Option<PrecedingCharFilter>
        ensures { IfSome result (FilterIncludesAllKeysOfSet (is_16_bit_width units) set.now edge) }
    {
        let keys = up_to_three_keys_of_kind(set, OnlyAsciiOrOnlyLeadKeys::Leads(units))?;
        Some(PrecedingCharFilter { keys, edge })
    }
}

impl Plan {
    /// Returns what must precede a match, if the first operation decides it.
    pub(crate) fn before(&self, units: UnitWidth) -> Option<PrecedingCharFilter>
        ensures { IfSome result (λ before. (program : Program)
            → AreOpsOfProgram (is_16_bit_width units) program self.now → IsLookbehindFilter (is_16_bit_width units)
            program before) }
    {
        match self.ops.get(0) {
            Some(Op::LineStart { multiline }) if *multiline => {
                PrecedingCharFilter::of(&FirstSet::line_end_first_set(true, units), true, units)
            }
            Some(Op::Look(look)) => self.filter_before_lookaround(*look, units),
            _ => None,
        }
    }

    // Returns the filter of a plan that begins with this lookaround. Not inlined: this case is
    // rare, and the buffers of sets are cleared in the function that makes them.
    #[inline(never)]
    fn filter_before_lookaround(
        &self,
        look: LookaroundAndNextOp,
        units: UnitWidth,
    ) -> Option<PrecedingCharFilter>
        requires { slice_get self.now.ops.items 0 ≡ Some (Op.Look look) }
        ensures { IfSome result (λ before. (program : Program)
            → AreOpsOfProgram (is_16_bit_width units) program self.now → IsLookbehindFilter (is_16_bit_width units)
            program before) }
    {
        if look.forward || look.negate {
            return None;
        }
        let contents = self.first_set_of_second_op(units)?;
        PrecedingCharFilter::of(&contents, false, units)
    }

    // Returns the first set of the second operation, if that reads one character.
    fn first_set_of_second_op(&self, units: UnitWidth) -> Option<FirstSet>
        ensures { IfSome result (LookbehindReadsCharOfSet (is_16_bit_width units) self.now) }
    {
        if self.ops.len() > 1 && reads_character(self.ops[1]) {
            let sets = FirstSets::with_no_sets(*self.ops.allocator());
            Some(first_set_from_successors(self, units, &sets, 1))
        } else {
            None
        }
    }
}

// Checks whether an operation reads one character.
fn reads_character(op: Op) -> bool
    ensures { result ≡ spec_reads_character op }
{
    matches!(op, Op::UnitChar(_) | Op::Char(_) | Op::One(_))
}
