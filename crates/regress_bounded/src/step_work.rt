//! The work of a step.

ghost use Rattle.std.specs.Prelude.{◌≡◌, map};
ghost use Rattle.regex_pattern_front.specs.AstToSpecTree.{tree_of};
ghost use Rattle.regress_input.specs.CharAndByteReadsFromOffset.{direction_of_forward_flag};
ghost use Rattle.regress_machine.specs.{InsnEffects.{IsNotStuck}, Machine.{act}};
ghost use Rattle.regress_program.specs.{CompilationOfTreesAsFunction.{compiled}, InsnsAsSpec.{insn_as_spec_insn}};
ghost use Rattle.regress_bounded.specs.{BoundedState.{char_loop_max}, BudgetSpending.{IsWorkOrMoreThanLeft}, CostsOfSearchEvents.{work_of_machine_step}};
ghost use Rattle.regress_pikevm.specs.States.{machine_state_of};

use crate::memo_and_work_budget::MemoAndWorkBudget;
use crate::unbounded_char_loops::read_chars_within_budget;
use regress_input::cursor::Direction;
use regress_input::indexing::InputIndexer;
use regress_pikevm::pikevm::states::State;
use regress_program::insn::Insn;
use regress_search::program_and_input::ProgramAndInput;

/// Returns the work of a step: 1, plus 1 for each character that a char loop tests. If this is more
/// than is left, returns another number that is more than is left. It reads no more characters than
/// work is left.
pub(crate) fn work_of_step<Input: InputIndexer, Dir: Direction>(
    searched: &ProgramAndInput<'_, Input>,
    insns: &[Insn],
    dir: Dir,
    state: &State<Input::Position>,
    progress: &MemoAndWorkBudget,
) -> u64
    requires code { map insn_as_spec_insn insns.now ≡ (compiled (tree_of searched.now.program.now)).insns }
    requires executable { let s = searched.now in IsNotStuck (act (compiled (tree_of s.program.now))
        (Input.text s.input) (direction_of_forward_flag Dir.FORWARD)
        (machine_state_of Input.Position.offset state.now)) }
    ensures { let s = searched.now in IsWorkOrMoreThanLeft progress.now.left (work_of_machine_step (act
        (compiled (tree_of s.program.now)) (Input.text s.input) (direction_of_forward_flag Dir.FORWARD)
        (machine_state_of Input.Position.offset state.now))) result }
{
    let Some(most) = char_loop_max(insns[state.ip]) else {
        return 1;
    };
    let mut at = state.pos;
    let passed = read_chars_within_budget(
        searched,
        insns[state.ip + 1],
        dir,
        most,
        progress,
        &mut at,
    );
    most.min(passed + 1) as u64 + 1
}

// Returns the maximum of a char loop. Returns `None` for other instructions.
#[inline(always)]
fn char_loop_max(insn: Insn) -> Option<usize>
    ensures { result ≡ char_loop_max (insn_as_spec_insn insn) }
{
    let Insn::Loop1CharBody { max_iters, .. } = insn else {
        return None;
    };
    Some(max_iters)
}
