//! The emitter, which appends the code of nodes to the code emitted so far.
#![tactic(auto, using(std::proofs::lemmas::Grind::common_steps), unfolding(regex_pattern_front::specs::AstToSpecTree::spec_node_of, crate::specs::CompilationOfTreesAsFunction::code_of, crate::specs::EmitterStateAndAppendedCode::node_with_char_loops_if_enabled, crate::specs::CompilationOfTreesAsFunction::loop_count, crate::specs::CompilationOfTreesAsFunction::brackets_of, crate::specs::CompilationOfTreesAsFunction::node_insn_count))]

ghost use Rattle.std.specs.Prelude.{◌≡◌, ◌&&◌, ◌+◌, ◌-◌, ◌<◌, ◌^◌, true, length, map, IfOk, OnOk, IsTrue, if◌then◌else◌};
ghost use Rattle.regex_meaning.specs.{Tree.{every_node_passes}, WellFormedTrees.{set_sizes_and_characters_fit_instructions}};
ghost use Rattle.regex_meaning.specs.CompilationRelation.{EnterLoop, lookaround_insn};
ghost use Rattle.regex_pattern_front.specs.OptimizedTrees.{reads_one_character as spec_reads_one_character};
ghost use Rattle.regex_pattern_front.specs.AstToSpecTree.{class_as_spec, spec_node_of};
ghost use Rattle.regress_program.specs.InsnsAsSpec.{loop_fields_as_spec};
ghost use Rattle.regress_program.specs.{InsnsAsSpec.{insn_as_spec_insn}, CompilationOfTreesAsFunction.{group_reset_insns}};
ghost use Rattle.regress_program.specs.LeafNodesAndOptimizableLoops.{is_leaf};
ghost use Rattle.regress_program.specs.EmitterStateAndAppendedCode.{HasIndexRoomForNode, emitter_state, with_insn_appended, with_insns_appended, with_insn_at, with_loop, empty_state, IsEmitted};
ghost use Rattle.regress_program.specs.EmitterStateAndAppendedCode.{lookaround_as_spec};

use crate::emit::small_set_and_assertion_insns::{
    anchor_insn, byte_set_insn, char_set_insn, word_boundary_insn,
};
use crate::insn::EmittedCode;
use crate::instructions::{Insn, LoopFields};
use regex_pattern_front::canonical::Sameness;
use regex_pattern_front::ir::Node;
use regex_pattern_front::optimizer::reads_one_character;
use regex_pattern_front::types::{BracketContents, CaptureGroupID, LoopID};
use std::alloc::{AllocError, Global};
use std::ops::Range;

/// How nodes are compiled: `unicode` selects Unicode case folding, `narrow` makes a char loop of
/// each loop over a node that reads one character, and `behind` is true inside a lookbehind.
#[derive(Clone, Copy)]
pub(crate) struct EmitMode {
    pub(crate) unicode: bool,
    pub(crate) narrow: bool,
    pub(crate) behind: bool,
}

impl EmitMode {
    // Returns the index in the code of part `at` of `count` parts. Inside a lookbehind the order is
    // reversed.
    pub(crate) fn index_in_emission_order(self, at: usize, count: usize) -> usize
        requires { at < count }
        ensures value { result ≡ (if self.behind then count - 1 - at else at) }
        ensures within { result < count }
    {
        if self.behind { count - 1 - at } else { at }
    }

    // Checks whether a loop over this node is to become a char loop.
    pub(crate) fn should_become_char_loop(self, loopee: &Node) -> bool
        ensures { result ≡ (self.narrow && spec_reads_one_character (spec_node_of loopee.now)) }
    {
        self.narrow && reads_one_character(loopee)
    }
}

/// The fields of a lookaround other than its contents.
#[derive(Clone, Copy)]
pub(crate) struct LookaroundFields {
    pub(crate) negate: bool,
    pub(crate) backwards: bool,
    pub(crate) start_group: CaptureGroupID,
    pub(crate) end_group: CaptureGroupID,
}

impl LookaroundFields {
    // Builds the fields of a lookaround that encloses these groups.
    pub(crate) fn new(
        negate: bool,
        backwards: bool,
        groups: Range<CaptureGroupID>,
    ) -> LookaroundFields
        ensures { result ≡ record {
          negate = negate;
          backwards = backwards;
          start_group = groups.start;
          end_group = groups.end;
        } }
    {
        LookaroundFields {
            negate,
            backwards,
            start_group: groups.start,
            end_group: groups.end,
        }
    }

    pub(crate) fn insn(self, continuation: u32) -> Insn
        ensures { insn_as_spec_insn result ≡ lookaround_insn (lookaround_as_spec self) continuation }
    {
        let LookaroundFields {
            negate,
            backwards,
            start_group,
            end_group,
        } = self;
        if backwards {
            Insn::Lookbehind {
                negate,
                start_group,
                end_group,
                continuation,
            }
        } else {
            Insn::Lookahead {
                negate,
                start_group,
                end_group,
                continuation,
            }
        }
    }
}

/// The code that has been emitted so far.
#[derive(Drop)]
pub(crate) struct Emitter {
    pub(crate) insns: Vec<Insn>,
    pub(crate) brackets: Vec<BracketContents>,
    pub(crate) loops: LoopID,
}

impl Emitter {
    // Creates an emitter without code, with room for `room` instructions.
    pub(crate) fn new(alloc: Global, room: usize) -> Result<Emitter, AllocError>
        ensures { IfOk result (λ e. emitter_state e ≡ empty_state) }
    {
        Ok(Emitter {
            insns: Vec::with_capacity(alloc, room)?,
            brackets: Vec::new(alloc),
            loops: 0,
        })
    }

    // Returns the emitted code.
    pub(crate) fn into_emitted_code(self) -> EmittedCode
        ensures insns { map insn_as_spec_insn result.insns.items ≡ (emitter_state self).insns }
        ensures brackets { map class_as_spec result.brackets.items ≡ (emitter_state self).brackets }
        ensures loops { result.loops ≡ (emitter_state self).loops }
    {
        let Emitter {
            insns,
            brackets,
            loops,
        } = self;
        EmittedCode {
            insns,
            brackets,
            loops: u32::from(loops),
        }
    }

    // Emits the code of a leaf, a node without child nodes.
    pub(crate) fn emit_leaf(&mut self, mode: EmitMode, node: &Node) -> Result<(), AllocError>
        requires leaf { is_leaf (spec_node_of node.now) ≡ true }
        requires sets { IsTrue (every_node_passes set_sizes_and_characters_fit_instructions (spec_node_of node.now)) }
        requires room { HasIndexRoomForNode (emitter_state self.old) (spec_node_of node.now) }
        ensures { OnOk result (IsEmitted mode (spec_node_of node.now) self.old self.new) }
    {
        match node {
            Node::Empty => Ok(()),
            Node::Goal => self.append_insn(Insn::Goal),
            Node::Char { c } => self.append_insn(Insn::Char(*c)),
            Node::CharSet(members) => self.append_insn(char_set_insn(members)),
            Node::ByteSet(members) => self.append_insn(byte_set_insn(members)),
            Node::ByteSequence(bytes) => self.emit_bytes(mode, bytes),
            Node::Bracket(contents) => self.emit_bracket(mode, contents),
            Node::StringSet {
                alternatives,
                icase,
            } => self.emit_strings(mode, *icase, alternatives),
            Node::MatchAny => self.append_insn(Insn::MatchAny),
            Node::MatchAnyExceptLineTerminator => self.append_insn(
                Insn::MatchAnyExceptLineTerminator,
            ),
            Node::Anchor {
                anchor_type,
                multiline,
            } => self.append_insn(anchor_insn(*anchor_type, *multiline)),
            Node::WordBoundary {
                invert,
                unicode_icase,
            } => self.append_insn(word_boundary_insn(*invert, *unicode_icase)),
            Node::BackRef { group, icase } => self.append_insn(Insn::BackRef {
                group: group.saturating_sub(1),
                same: Sameness::by_case(*icase),
            }),
            Node::CanonicalBackRef { group, unicode } => self.append_insn(Insn::BackRef {
                group: group.saturating_sub(1),
                same: Sameness::Alike { unicode: *unicode },
            }),
            Node::Cat(_) => unreachable!(),
            Node::Alt(..) => unreachable!(),
            Node::CaptureGroup { .. } => unreachable!(),
            Node::LookaroundAssertion { .. } => unreachable!(),
            Node::Loop { .. } => unreachable!(),
            Node::Loop1CharBody { .. } => unreachable!(),
        }
    }

    // Emits the instructions that reset the groups `start..end`.
    pub(crate) fn emit_group_resets(
        &mut self,
        start: CaptureGroupID,
        end: CaptureGroupID,
    ) -> Result<(), AllocError>
        ensures { OnOk result (emitter_state self.new ≡ with_insns_appended (group_reset_insns start end)
            (emitter_state self.old)) }
    {
        for id in start..end {
            self.append_insn(Insn::ResetCaptureGroup(id))?;
        }
        Ok(())
    }

    // Counts one more loop.
    pub(crate) fn increment_loop_count(&mut self)
        requires { (emitter_state self.old).loops + 1 < 2 ^ 16 }
        ensures { emitter_state self.new ≡ with_loop (emitter_state self.old) }
    {
        self.loops += 1;
    }

    // Returns the index of the next instruction.
    pub(crate) fn next(&self) -> u32
        requires { length (emitter_state self.now).insns < 2 ^ 32 }
        ensures { result ≡ length (emitter_state self.now).insns }
    {
        self.insns.len() as u32
    }

    // Appends an instruction.
    pub(crate) fn append_insn(&mut self, insn: Insn) -> Result<(), AllocError>
        ensures { OnOk result (emitter_state self.new ≡ with_insn_appended (insn_as_spec_insn insn)
            (emitter_state self.old)) }
    {
        self.insns.push(insn)?;
        Ok(())
    }

    // Replaces the instruction at an index.
    pub(crate) fn replace_insn_at(&mut self, place: usize, insn: Insn)
        requires { place < length (emitter_state self.old).insns }
        ensures { emitter_state self.new ≡ with_insn_at place (insn_as_spec_insn insn) (emitter_state self.old) }
    {
        self.insns[place] = insn;
    }
}

// Returns the first instruction of a loop.
pub(crate) fn loop_head_insn(fields: LoopFields) -> Insn
    ensures { insn_as_spec_insn result ≡ EnterLoop (loop_fields_as_spec fields) }
{
    Insn::EnterLoop {
        greedy: fields.greedy,
        loop_id: fields.loop_id,
        exit: fields.exit,
        min_iters: fields.min_iters,
        max_iters: fields.max_iters,
    }
}
