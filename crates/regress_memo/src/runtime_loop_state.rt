//! Checks that loop states are sound: that a search may reach them.

ghost use Rattle.std.specs.Prelude.{◌≡◌, ◌<◌, ◌+◌, ◌^◌, ◌↔◌, true, option_map, IsTrue};
ghost use Rattle.regress_memo.specs.{Liveness.{IsNotAheadInDirection}, MemoKeys.{IsSoundState}};
ghost use Rattle.regress_machine.specs.Machine.{State};
ghost use Rattle.regress_memo.specs.AnalysisAsPotentials.{analysis_as_liveness, insn_direction};
ghost use Rattle.regress_memo.specs.ReachableThreadLoopStates.{direction_from_forward, IsWithinCountBound, LoopDataFitsLoopFacts, ThreadLoopStateFitsAnalysis};
ghost use Rattle.regress_memo.specs.CheckedAnalysis.{loop_iteration_state_as_spec};

use crate::analysis_result::{EnclosingLoop, LoopCountsDistinguishedUpTo, MemoAnalysis};
use crate::loop_data_key_codes::{IterationStatesOfAllLoops, LoopCountAndIterationStart};

// An offset in a text of `units` code units, and the direction in which a search continues.
#[derive(Clone, Copy)]
struct TextOffsetAndSearchDirection {
    at: usize,
    units: usize,
    forward: bool,
}

impl MemoAnalysis {
    /// Checks whether a search may reach a thread at this instruction and offset, with these loop
    /// states, in a text of `units` code units.
    ///
    /// Each current iteration has to begin at an offset that was passed, and must have read a
    /// character if the analysis says so. A loop must not have more iterations than code units were
    /// passed, apart from those that the analysis allows for.
    pub fn is_reachable_loop_state<R: IterationStatesOfAllLoops>(
        &self,
        ip: usize,
        at: usize,
        units: usize,
        rounds: &R,
    ) -> bool
        requires { units < 2 ^ 63 }
        ensures { (s : State) → s.ip ≡ ip → s.pos ≡ at → s.loops ≡ R.rounds rounds.now
            → IsTrue result ↔ IsSoundState (analysis_as_liveness self.now) units (insn_direction self.now ip) s }
    {
        if at > units {
            return false;
        }
        let forward = self.insn_analysis_at(ip).forward;
        let place = TextOffsetAndSearchDirection { at, units, forward };
        let rows = self.enclosing_loops(ip);
        for row in rows {
            let loop_iteration_state = rounds.iteration_state_of_loop(row.id);
            if !self.is_sound_row(row, place, loop_iteration_state) {
                return false;
            }
        }
        true
    }

    // Checks that the state of an entry's loop is sound. A missing state is sound.
    fn is_sound_row(
        &self,
        row: &EnclosingLoop,
        place: TextOffsetAndSearchDirection,
        loop_iteration_state: Option<LoopCountAndIterationStart>,
    ) -> bool
        requires { place.units < 2 ^ 63 }
        ensures { IsTrue result ↔ ThreadLoopStateFitsAnalysis self.now (direction_from_forward place.forward)
            place.units place.at (option_map loop_iteration_state_as_spec loop_iteration_state) row.now }
    {
        match loop_iteration_state {
            Some(loop_iteration_state) => is_sound_by(
                self.count_bound_of_loop(row.id),
                row.moved,
                place,
                loop_iteration_state,
            ),
            None => true,
        }
    }
}

// Checks that a loop state is sound, given what the analysis states about the loop.
fn is_sound_by(
    count: LoopCountsDistinguishedUpTo,
    moved: bool,
    place: TextOffsetAndSearchDirection,
    loop_iteration_state: LoopCountAndIterationStart,
) -> bool
    requires { place.units < 2 ^ 63 }
    ensures { IsTrue result ↔ LoopDataFitsLoopFacts count moved (direction_from_forward place.forward) place.units
        place.at (loop_iteration_state_as_spec loop_iteration_state) }
{
    is_offset_not_ahead(place, loop_iteration_state.entry)
        && (!moved || loop_iteration_state.entry != place.at)
        && is_possible_iteration_count(count, place, loop_iteration_state)
}

// Checks that an offset is not ahead of the current one in the direction.
fn is_offset_not_ahead(place: TextOffsetAndSearchDirection, entry: usize) -> bool
    ensures { IsTrue result ↔ IsNotAheadInDirection (direction_from_forward place.forward) entry place.at }
{
    if place.forward {
        entry <= place.at
    } else {
        place.at <= entry
    }
}

// Checks that the number of iterations is possible.
fn is_possible_iteration_count(
    count: LoopCountsDistinguishedUpTo,
    place: TextOffsetAndSearchDirection,
    loop_iteration_state: LoopCountAndIterationStart,
) -> bool
    requires { place.units < 2 ^ 63 }
    ensures { IsTrue result ↔ IsWithinCountBound count (direction_from_forward place.forward) place.units
        (loop_iteration_state_as_spec loop_iteration_state) }
{
    let up_to = usize::from(count.up_to);
    if count.counted {
        return loop_iteration_state.iters <= up_to;
    }
    let left = if place.forward {
        place.units.saturating_sub(loop_iteration_state.entry)
    } else {
        loop_iteration_state.entry
    };
    let most = place.units + up_to;
    left <= most && loop_iteration_state.iters <= most - left
}
