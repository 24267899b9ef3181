//! Programs for texts in bytes, and programs for texts of 16-bit code units.

ghost use Rattle.std.specs.Prelude.{◌≡◌, IfOk, true, false, map};
ghost use Rattle.regex_pattern_front.specs.AstToSpecTree.{tree_of};
ghost use Rattle.regex_meaning.specs.CompilationRelation.{tree_contains_byte_nodes};
ghost use Rattle.regress_program.specs.InsnsAsSpec.{start_predicate_as_spec, insn_as_spec_insn};
ghost use Rattle.regress_program.specs.{StartPredicates.{HasOverThreeBytes, is_anchored_tree}, CompilationOfTreesAsFunction.{compiled}};
ghost use Rattle.regress_program.specs.OptimizedTreeUnlessNoOpt.{optimized_tree_unless_no_opt};
ghost use Rattle.regress_program.specs.ProgramFieldsMatchTree.{IsPlanForUnitWidth};

use crate::insn::common_program_part::Program;
use crate::insn::plan_for_16_bit_units::{PlanAndCodeFor16BitUnits, copy_plan};
use crate::insn::start_predicate_type::StartPredicate;
use crate::instructions::Insn;
use crate::plan::Plan;
use std::alloc::AllocError;
use std::marker::Model;
use std::ops::Deref;

/// The program of a well-formed pattern tree for texts in bytes: a `Program`, to which it derefs, a
/// start predicate and a plan. Only the compiler makes one. Contracts see the tree.
#[derive(Drop)]
pub struct CompiledRegex {
    pub(crate) program: Program,
    pub(crate) start_pred: StartPredicate,
    pub(crate) plan: Box<Plan>,
}

impl Model for CompiledRegex {
    ghost use Rattle.std.specs.Coded.{codes};
    ghost use Rattle.regex_pattern_front.specs.contracts.ir.Node as node;
    ghost use Rattle.regex_pattern_front.specs.declared.ir.Regex.{Regex};

    ghost Value = { Regex };

    ghost coded = { Prim.hlevel (codes, node.the_row.coded) };

    ghost use Rattle.regress_program.specs.ProgramFieldsMatchTree.{IsByteProgram};

    ghost view = { λ p. p.program };

    ghost invariant = { λ p. IsByteProgram p.program p.start_pred p.plan.value };
}

impl CompiledRegex {
    /// Returns the part that it has in common with programs for 16-bit code units.
    #[inline(always)]
    pub fn common_program(&self) -> &Program
        ensures { result.now ≡ self.now }
    {
        &self.program
    }

    /// Returns the start predicate, which holds wherever the pattern matches.
    #[inline(always)]
    pub fn start_pred(&self) -> &StartPredicate
        ensures predicate { start_predicate_as_spec result.now ≡ (compiled (tree_of self.now)).start_pred }
        ensures over_three { HasOverThreeBytes result.now }
    {
        &self.start_pred
    }

    /// Checks whether every alternative of the pattern begins with `^`, without the flag `m`. Then
    /// the pattern matches only at the left end of a text. A `^` inside a loop or a lookaround does
    /// not count.
    #[inline(always)]
    pub fn is_anchored(&self) -> bool
        ensures { result ≡ is_anchored_tree (tree_of self.now) }
    {
        self.start_pred.is_anchored()
    }

    /// Returns the plan of the program, for executors that search by plans.
    #[inline(always)]
    pub fn plan(&self) -> &Plan
        ensures { IsPlanForUnitWidth false self.now result.now }
    {
        &self.plan
    }

    /// Copies the program.
    ///
    /// # Errors
    ///
    /// Returns `Err` if the allocation for the copy fails.
    pub fn clone(&self) -> Result<Self, AllocError>
        ensures { IfOk result (λ p. p ≡ self.now) }
    {
        Ok(CompiledRegex {
            program: self.program.clone()?,
            start_pred: self.start_pred.clone()?,
            plan: copy_plan(&self.plan)?,
        })
    }
}

impl Deref for CompiledRegex {
    type Target = Program;

    ghost use Rattle.std.specs.Prelude.{◌≡◌};

    ghost deref_gives = { λ p program. program ≡ p };

    #[inline(always)]
    fn deref(&self) -> &Program {
        &self.program
    }
}

/// The program of a well-formed pattern tree without byte sets and byte sequences, for texts of
/// 16-bit code units: a `Program`, to which it derefs, whether the tree is anchored, and a plan of
/// the tree to run, in which loops over one character are char loops. Only the compiler makes one.
/// Contracts see the tree.
#[derive(Drop)]
pub struct CompiledRegexFor16BitUnits {
    pub(crate) program: Program,
    pub(crate) anchored: bool,
    pub(crate) run: PlanAndCodeFor16BitUnits,
}

impl Model for CompiledRegexFor16BitUnits {
    ghost use Rattle.std.specs.Coded.{codes};
    ghost use Rattle.regex_pattern_front.specs.contracts.ir.Node as node;
    ghost use Rattle.regex_pattern_front.specs.declared.ir.Regex.{Regex};

    ghost Value = { Regex };

    ghost coded = { Prim.hlevel (codes, node.the_row.coded) };

    ghost use Rattle.regress_program.specs.ProgramFieldsMatchTree.{IsUnitProgram};

    ghost view = { λ p. p.program };

    ghost invariant = { λ p. IsUnitProgram p.program p.anchored p.run };
}

impl CompiledRegexFor16BitUnits {
    /// Returns the part that it has in common with programs for bytes.
    #[inline(always)]
    pub fn common_program(&self) -> &Program
        ensures tree { result.now ≡ self.now }
        ensures no_bytes { tree_contains_byte_nodes (tree_of self.now).root ≡ false }
    {
        &self.program
    }

    /// Checks whether every alternative of the pattern begins with `^`, without the flag `m`. Then
    /// the pattern matches only at the left end of a text. A `^` inside a loop or a lookaround does
    /// not count.
    #[inline(always)]
    pub fn is_anchored(&self) -> bool
        ensures { result ≡ is_anchored_tree (tree_of self.now) }
    {
        self.anchored
    }

    /// Returns the plan of the tree to run, for executors that search by plans.
    #[inline(always)]
    pub fn plan(&self) -> &Plan
        ensures { IsPlanForUnitWidth true self.now result.now }
    {
        &self.run.plan
    }

    /// Returns the number of loops of the tree to run.
    #[inline(always)]
    pub fn loop_count_of_tree_to_run(&self) -> u32
        ensures { result ≡ (compiled (optimized_tree_unless_no_opt (tree_of self.now))).loops }
    {
        self.run.code.loops
    }

    /// Returns the instructions of the tree to run.
    #[inline(always)]
    pub fn insns_of_tree_to_run(&self) -> &[Insn]
        ensures { map insn_as_spec_insn result.now ≡ (compiled
            (optimized_tree_unless_no_opt (tree_of self.now))).insns }
    {
        &self.run.code.insns
    }

    /// Copies the program.
    ///
    /// # Errors
    ///
    /// Returns `Err` if the allocation for the copy fails.
    pub fn clone(&self) -> Result<Self, AllocError>
        ensures { IfOk result (λ p. p ≡ self.now) }
    {
        Ok(CompiledRegexFor16BitUnits {
            program: self.program.clone()?,
            anchored: self.anchored,
            run: self.run.clone()?,
        })
    }
}

impl Deref for CompiledRegexFor16BitUnits {
    type Target = Program;

    ghost use Rattle.std.specs.Prelude.{◌≡◌};

    ghost deref_gives = { λ p program. program ≡ p };

    #[inline(always)]
    fn deref(&self) -> &Program {
        &self.program
    }
}
