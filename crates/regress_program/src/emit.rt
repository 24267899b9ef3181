//! The compiler from pattern trees to programs.

ghost use Rattle.std.specs.Prelude.{◌≡◌, ◌<◌, ◌^◌, true, false, length, IfOk, OnOk, IfErr};
ghost use Rattle.std.specs.Arc.{arc_value};
ghost use Rattle.regex_meaning.specs.{Tree.{group_ids}, CompilationRelation.{IsByteProgramOfTree, Is16BitProgramOfTree}};
ghost use Rattle.regex_pattern_front.specs.AstToSpecTree.{tree_of};
ghost use Rattle.regex_pattern_front.specs.declared.ir.Regex.{Regex};
ghost use Rattle.regress_program.specs.{CompilationOfTreesAsFunction.{compiled, node_insn_count}, EmitterStateAndAppendedCode.{tree_with_char_loops}};
ghost use Rattle.regress_program.specs.{ProgramFieldsMatchTree.{IsCodeOfTree, Is16BitPlanAndCodeOf}, OptimizedTreeUnlessNoOpt.{optimized_tree_unless_no_opt}};
ghost use Rattle.regress_program.specs.CompileRefusals.{TreeHasByteCompileErrorCause, Is16BitUnitCompileErrorCause, IsCompileErrorCause, IsWellFormedWithinLimits};

mod brackets;
mod byte_sequences_and_string_sets;
mod emitter;
mod group_id_and_range_check;
mod nested_nodes;
mod node_detectors;
mod program_size;
mod small_set_and_assertion_insns;
mod storing_group_names_by_id;
mod tree_walk_with_visitor;
mod well_formedness_check;

use crate::emit::emitter::{EmitMode, Emitter};
use crate::emit::node_detectors::{has_no_loop_left_to_optimize, tree_contains_byte_nodes};
use crate::emit::program_size::ProgramSize;
use crate::emit::storing_group_names_by_id::names_by_id;
pub use crate::emit::well_formedness_check::is_well_formed;
use crate::ghost_source_tree::GhostSourceTree;
use crate::insn::{
    CompiledRegex, CompiledRegexFor16BitUnits, EmittedCode, GroupNames, PlanAndCodeFor16BitUnits,
    Program,
};
use crate::plan::{Plan, ProgramPartsForPlan};
use crate::startpredicate::{matches_at_left_end, predicate_for_re};
use crate::table_keys_of_units::UnitWidth;
use regex_pattern_front::ir;
use regex_pattern_front::optimizer::optimize;
use regex_pattern_front::types::{LoopID, MAX_CAPTURE_GROUPS};
use std::alloc::{AllocError, Global};
use std::sync::Arc;
use thiserror::Error;

/// Why a tree is not compiled.
#[derive(Clone, Copy, Debug, PartialEq, Eq, Error)]
pub enum EmitError {
    /// The tree is not well formed.
    #[error("the tree is not well formed")]
    NotWellFormed,
    /// A tree for 16-bit code units contains a byte set or a byte sequence.
    #[error("a tree for 16-bit units contains bytes")]
    BytesInUnits,
    /// There are more than `MAX_CAPTURE_GROUPS` groups.
    #[error("too many groups (at most 65535)")]
    TooManyGroups,
    /// There are more than `LoopID::MAX` loops.
    #[error("too many loops (at most 65535)")]
    TooManyLoops,
    /// There are more than `u32::MAX` instructions.
    #[error("too many instructions (at most 4294967295)")]
    TooManyInstructions,
    /// An allocation failed.
    #[error("out of memory")]
    Memory,
}

impl From<AllocError> for EmitError {
    ghost use Rattle.std.specs.Prelude.{◌≡◌};
    ghost use Rattle.regress_program.specs.declared.emit.EmitError.TheVariants.{Memory};

    ghost from_gives = { λ _ e. e ≡ Memory };

    fn from(_e: AllocError) -> EmitError {
        EmitError::Memory
    }
}

/// Compiles a tree to a program for texts in bytes.
///
/// # Errors
///
/// Returns the first of these whose cause holds, in this order: `NotWellFormed`, `TooManyGroups`,
/// `TooManyLoops`, `TooManyInstructions`, `Memory`. An allocation failure is returned only for a
/// tree that passes all the other checks.
pub fn emit(alloc: Global, re: &ir::Regex) -> Result<CompiledRegex, EmitError>
    ensures tree { IfOk result (λ p. p ≡ re.now) }
    ensures code { OnOk result (IsByteProgramOfTree (compiled (tree_of re.now)) (tree_of re.now)) }
    ensures fits { OnOk result (IsWellFormedWithinLimits (tree_of re.now)) }
    ensures refused { IfErr result (λ e. TreeHasByteCompileErrorCause e (tree_of re.now)) }
{
    let program = compile_common_part(alloc, re, false)?;
    let cr = byte_program_of(alloc, re, program)?;
    Ok(cr)
}

/// Compiles a tree to a program for texts of 16-bit code units.
///
/// # Errors
///
/// Returns the first of these whose cause holds, in this order: `NotWellFormed`, `BytesInUnits`,
/// `TooManyGroups`, `TooManyLoops`, `TooManyInstructions`, `Memory`. An allocation failure is
/// returned only for a tree that passes all the other checks.
pub fn emit_units(alloc: Global, re: &ir::Regex) -> Result<CompiledRegexFor16BitUnits, EmitError>
    ensures tree { IfOk result (λ p. p ≡ re.now) }
    ensures code { OnOk result (Is16BitProgramOfTree (compiled (tree_of re.now)) (tree_of re.now)) }
    ensures fits { OnOk result (IsWellFormedWithinLimits (tree_of re.now)) }
    ensures refused { IfErr result (λ e. Is16BitUnitCompileErrorCause e (tree_of re.now)) }
{
    let program = compile_common_part(alloc, re, tree_contains_byte_nodes(&re.node))?;
    let code = code_to_run(alloc, re, &program)?;
    let run = unit_plan_of(alloc, code, program.groups())?;
    let anchored = matches_at_left_end(re);
    Ok(CompiledRegexFor16BitUnits {
        program,
        anchored,
        run,
    })
}

/// Compiles a parsed tree for both kinds of texts. The program for 16-bit code units is of the tree
/// itself. The program for bytes is of the tree to run, which is optimized unless the flag `no_opt`
/// is set. The two programs share what is the same in both.
///
/// # Errors
///
/// Returns the errors of `emit_units`.
pub fn emit_both(
    alloc: Global,
    re: ir::Regex,
) -> Result<(CompiledRegex, CompiledRegexFor16BitUnits), EmitError>
    ensures units { IfOk result (λ both. both.1 ≡ re) }
    ensures bytes { IfOk result (λ both. tree_of both.0 ≡ optimized_tree_unless_no_opt (tree_of re)) }
    ensures unit_code { OnOk result (Is16BitProgramOfTree (compiled (tree_of re)) (tree_of re)) }
    ensures byte_code { OnOk result (let run = optimized_tree_unless_no_opt (tree_of re) in IsByteProgramOfTree
        (compiled run) run) }
    ensures refused { IfErr result (λ e. Is16BitUnitCompileErrorCause e (tree_of re)) }
{
    let program = compile_common_part(alloc, &re, tree_contains_byte_nodes(&re.node))?;
    let code = code_to_run(alloc, &re, &program)?;
    let run = unit_plan_of(alloc, code.clone()?, program.groups())?;
    let anchored = matches_at_left_end(&re);
    let tree = tree_to_compile(re);
    let optimized = program.with_code_of_tree_to_run(code, &tree)?;
    let cr = byte_program_of(alloc, &tree, optimized)?;
    let units = CompiledRegexFor16BitUnits {
        program,
        anchored,
        run,
    };
    Ok((cr, units))
}

// Builds the program for texts in bytes from the part that both kinds of programs have.
fn byte_program_of(
    alloc: Global,
    re: &ir::Regex,
    program: Program,
) -> Result<CompiledRegex, AllocError>
    requires fits { node_insn_count (tree_of re.now).root < 2 ^ 32 }
    requires same { program ≡ re.now }
    ensures { IfOk result (λ p. p ≡ re.now) }
{
    let start_pred = predicate_for_re(alloc, re)?;
    let plan = program.plan_of_own_code(UnitWidth::Bytes)?;
    Ok(CompiledRegex {
        program,
        start_pred,
        plan,
    })
}

// Returns the tree to run: the optimized tree, or the tree itself if the flag `no_opt` is set.
fn tree_to_compile(mut tree: ir::Regex) -> ir::Regex
    ensures { tree_of result ≡ optimized_tree_unless_no_opt (tree_of tree) }
{
    if tree.flags.no_opt {
        return tree;
    }
    optimize(&mut tree);
    tree
}

// Returns the code of the tree to run. It shares the code of `program`, the program of the tree
// `re`, if the tree to run is `re` itself.
fn code_to_run(
    alloc: Global,
    re: &ir::Regex,
    program: &Program,
) -> Result<Arc<EmittedCode, Global>, AllocError>
    requires fits { IsWellFormedWithinLimits (tree_of re.now) }
    requires same { program.now ≡ re.now }
    ensures { IfOk result (λ code. IsCodeOfTree (optimized_tree_unless_no_opt (tree_of re.now)) (arc_value code)) }
{
    if is_tree_to_run_unchanged(re) {
        return program.code();
    }
    emit_code(alloc, re, true, program.insns().len())
}

// Checks whether the tree to run is the tree itself, because optimizing changes nothing or is off.
fn is_tree_to_run_unchanged(re: &ir::Regex) -> bool
    ensures itself { result ≡ true → optimized_tree_unless_no_opt (tree_of re.now) ≡ tree_of re.now }
    ensures optimized { result ≡ false → re.now.flags.no_opt ≡ false }
{
    if re.flags.no_opt {
        return true;
    }
    has_no_loop_left_to_optimize(&re.node)
}

// Builds the plan for 16-bit code units from the code of the tree to run. `groups` is the number of
// capture groups.
fn unit_plan_of(
    alloc: Global,
    code: Arc<EmittedCode, Global>,
    groups: u32,
) -> Result<PlanAndCodeFor16BitUnits, AllocError>
    requires { length (arc_value code).insns.items < 2 ^ 32 }
    ensures { IfOk result (λ run. (re : Regex) → IsCodeOfTree (optimized_tree_unless_no_opt (tree_of re))
        (arc_value code)
        → groups ≡ (compiled (tree_of re)).groups → Is16BitPlanAndCodeOf re run) }
{
    let parts = ProgramPartsForPlan {
        insns: &code.insns,
        brackets: &code.brackets,
        groups,
    };
    let plan = Plan::new(alloc, parts, UnitWidth::Wide)?;
    Ok(PlanAndCodeFor16BitUnits { plan, code })
}

// Emits the code of a tree. `narrow` says whether each loop over a node that reads one character
// becomes a char loop. `room` is the number of instructions to reserve memory for.
fn emit_code(
    alloc: Global,
    re: &ir::Regex,
    narrow: bool,
    room: usize,
) -> Result<Arc<EmittedCode, Global>, AllocError>
    requires { IsWellFormedWithinLimits (tree_of re.now) }
    ensures { IfOk result (λ code. IsCodeOfTree (tree_with_char_loops narrow (tree_of re.now)) (arc_value code)) }
{
    let mut emitter = Emitter::new(alloc, room)?;
    let mode = EmitMode {
        unicode: re.flags.unicode,
        narrow,
        behind: false,
    };
    emitter.emit(mode, &re.node)?;
    let code = emitter.into_emitted_code();
    Ok(Arc::new(alloc, code)?)
}

// Compiles the part that both kinds of programs have. `bytes_in_units` says that the tree is for
// 16-bit code units and has nodes that read bytes, which is an error.
fn compile_common_part(
    alloc: Global,
    re: &ir::Regex,
    bytes_in_units: bool,
) -> Result<Program, EmitError>
    ensures tree { IfOk result (λ p. p ≡ re.now) }
    ensures fits { OnOk result (IsWellFormedWithinLimits (tree_of re.now)) }
    ensures no_bytes { OnOk result (bytes_in_units ≡ false) }
    ensures refused { IfErr result (λ e. IsCompileErrorCause bytes_in_units e (tree_of re.now)) }
{
    let GroupAndInsnCounts {
        groups,
        insns: room,
    } = check_tree_and_count_size(re, bytes_in_units)?;
    let code = emit_code(alloc, re, false, room)?;
    let group_names = GroupNames::from_names_to_share(names_by_id(alloc, &re.node, groups)?)?;
    Ok(Program {
        code,
        groups,
        group_names,
        flags: re.flags,
        tree: GhostSourceTree::of(re),
    })
}

// The number of groups and the number of instructions of a tree.
#[derive(Clone, Copy)]
struct GroupAndInsnCounts {
    groups: u32,
    insns: usize,
}

// Counts the groups and instructions of a tree, or returns why the tree is not compiled.
fn check_tree_and_count_size(
    re: &ir::Regex,
    bytes_in_units: bool,
) -> Result<GroupAndInsnCounts, EmitError>
    ensures groups { IfOk result (λ counts. counts.groups ≡ length (group_ids (tree_of re.now).root)) }
    ensures fits { OnOk result (IsWellFormedWithinLimits (tree_of re.now)) }
    ensures no_bytes { OnOk result (bytes_in_units ≡ false) }
    ensures refused { IfErr result (λ e. IsCompileErrorCause bytes_in_units e (tree_of re.now)) }
{
    if !is_well_formed(re) {
        return Err(EmitError::NotWellFormed);
    }
    if bytes_in_units {
        return Err(EmitError::BytesInUnits);
    }
    let mut tally = ProgramSize::new();
    tally.count_node_and_descendants(&re.node);
    let ProgramSize {
        groups,
        loops,
        insns,
    } = tally;
    if groups > MAX_CAPTURE_GROUPS {
        return Err(EmitError::TooManyGroups);
    }
    if loops > usize::from(LoopID::MAX) {
        return Err(EmitError::TooManyLoops);
    }
    if insns > u32::MAX as usize {
        return Err(EmitError::TooManyInstructions);
    }
    Ok(GroupAndInsnCounts {
        groups: groups as u32,
        insns,
    })
}
