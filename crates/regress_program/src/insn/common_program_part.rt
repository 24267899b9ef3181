//! The part that programs for bytes and for 16-bit code units have in common.

ghost use Rattle.std.specs.Prelude.{◌≡◌, ◌<◌, ◌^◌, IsTrue, IfOk, [], get_or, map, string_bytes};
ghost use Rattle.regex_pattern_front.specs.AstToSpecTree.{tree_of, spec_flags_of, class_as_spec};
ghost use Rattle.regex_meaning.specs.WellFormedTrees.{is_well_formed};
ghost use Rattle.regress_program.specs.{InsnsAsSpec.{insn_as_spec_insn}, CompilationOfTreesAsFunction.{node_insn_count, compiled}, ProgramFieldsMatchTree.{IsCodeOfTree}};
ghost use Rattle.regress_program.specs.{OptimizedTreeUnlessNoOpt.{optimized_tree_unless_no_opt}, TableKeysOfUnits.{is_16_bit_width}, Plans.{IsPlanOf}};
ghost use Rattle.std.specs.Arc.{arc_value};

use crate::ghost_source_tree::GhostSourceTree;
use crate::insn::emitted_code::EmittedCode;
use crate::insn::group_name_storage::GroupNames;
use crate::instructions::Insn;
use crate::plan::{Plan, ProgramPartsForPlan};
use crate::table_keys_of_units::UnitWidth;
use regex_pattern_front::flags::Flags;
use regex_pattern_front::ir;
use regex_pattern_front::types::BracketContents;
use std::alloc::{AllocError, Global};
use std::marker::Model;
use std::sync::Arc;

/// The part that programs for bytes and for 16-bit code units have in common: the code of a
/// well-formed pattern tree, its group names and its flags. Only the compiler makes one. Contracts
/// see the tree.
#[derive(Drop)]
pub struct Program {
    pub(crate) code: Arc<EmittedCode, Global>,
    pub(crate) groups: u32,
    pub(crate) group_names: GroupNames,
    pub(crate) flags: Flags,
    pub(crate) tree: GhostSourceTree,
}

impl Model for Program {
    ghost use Rattle.std.specs.Coded.{codes};
    ghost use Rattle.regex_pattern_front.specs.contracts.ir.Node as node;
    ghost use Rattle.regex_pattern_front.specs.declared.ir.Regex.{Regex};

    ghost Value = { Regex };

    ghost coded = { Prim.hlevel (codes, node.the_row.coded) };

    ghost use Rattle.regress_program.specs.ProgramFieldsMatchTree.{IsCompiledProgram};

    ghost view = { λ p. p.tree.value };

    ghost invariant = { IsCompiledProgram };
}

impl Program {
    /// Returns the instructions. Execution starts at the first one.
    ///
    /// They are the code of the program's tree, which is well formed.
    #[inline(always)]
    pub fn insns(&self) -> &[Insn]
        ensures code { map insn_as_spec_insn result.now ≡ (compiled (tree_of self.now)).insns }
        ensures well_formed { IsTrue (is_well_formed (tree_of self.now).root) }
    {
        &self.code.insns
    }

    /// Returns the brackets, which instructions refer to by index.
    #[inline(always)]
    pub fn brackets(&self) -> &[BracketContents]
        ensures { map class_as_spec result.now ≡ (compiled (tree_of self.now)).brackets }
    {
        &self.code.brackets
    }

    /// Returns the number of loops. The loops are numbered from 0.
    #[inline(always)]
    pub fn loops(&self) -> u32
        ensures { result ≡ (compiled (tree_of self.now)).loops }
    {
        self.code.loops
    }

    /// Returns the number of capture groups.
    #[inline(always)]
    pub fn groups(&self) -> u32
        ensures { result ≡ (compiled (tree_of self.now)).groups }
    {
        self.groups
    }

    /// Returns the names of the groups by id, with an empty name for a group without one. The list
    /// is empty if no group has a name.
    #[inline(always)]
    pub fn group_names(&self) -> &[String]
        ensures { map string_bytes result.now ≡ (compiled (tree_of self.now)).group_names }
    {
        self.group_names.as_slice()
    }

    /// Returns the names of the groups in a form that matches of the program can share.
    #[inline(always)]
    pub fn shared_names(&self) -> &GroupNames
        ensures { result.now ≡ (compiled (tree_of self.now)).group_names }
    {
        &self.group_names
    }

    /// Returns the name of a group. It is empty if the group has no name, or if there is no such
    /// group.
    #[inline(always)]
    pub fn group_name(&self, id: usize) -> &str
        ensures { result.now ≡ get_or (compiled (tree_of self.now)).group_names id [] }
    {
        match self.group_names().get(id) {
            Some(name) => name.as_str(),
            None => "",
        }
    }

    // Builds the plan of the program's own code, for executors that search texts of these units by
    // plans.
    pub(crate) fn plan_of_own_code(&self, units: UnitWidth) -> Result<Box<Plan>, AllocError>
        requires { node_insn_count (tree_of self.now).root < 2 ^ 32 }
        ensures { IfOk result (λ plan. IsPlanOf (is_16_bit_width units) (compiled (tree_of self.now)) plan.value) }
    {
        let code = ProgramPartsForPlan {
            insns: self.insns(),
            brackets: self.brackets(),
            groups: self.groups(),
        };
        Plan::new(self.allocator(), code, units)
    }

    // Returns the code, which is shared.
    pub(crate) fn code(&self) -> Result<Arc<EmittedCode, Global>, AllocError>
        ensures { IfOk result (λ code. IsCodeOfTree (tree_of self.now) (arc_value code)) }
    {
        Ok(self.code.clone()?)
    }

    // Returns the program of the tree to run, whose code is `code`.
    pub(crate) fn with_code_of_tree_to_run(
        &self,
        code: Arc<EmittedCode, Global>,
        tree: &ir::Regex,
    ) -> Result<Program, AllocError>
        requires run { tree_of tree.now ≡ optimized_tree_unless_no_opt (tree_of self.now) }
        requires code { IsCodeOfTree (tree_of tree.now) (arc_value code) }
        ensures { IfOk result (λ p. p ≡ tree.now) }
    {
        Ok(Program {
            code,
            groups: self.groups,
            group_names: self.group_names.clone()?,
            flags: self.flags,
            tree: GhostSourceTree::of(tree),
        })
    }

    /// Copies the program. The copy shares the instructions.
    ///
    /// # Errors
    ///
    /// Returns `Err` if a reference count is at its maximum.
    pub fn clone(&self) -> Result<Self, AllocError>
        ensures { IfOk result (λ p. p ≡ self.now) }
    {
        Ok(Program {
            code: self.code.clone()?,
            groups: self.groups,
            group_names: self.group_names.clone()?,
            flags: self.flags,
            tree: GhostSourceTree::of(&self.tree),
        })
    }

    /// Returns the allocator of the program's parts.
    #[inline(always)]
    pub fn allocator(&self) -> Global {
        *self.code.insns.allocator()
    }

    /// Returns the flags of the pattern.
    #[inline(always)]
    pub fn flags(&self) -> Flags
        ensures { spec_flags_of result ≡ (compiled (tree_of self.now)).flags }
    {
        self.flags
    }
}
