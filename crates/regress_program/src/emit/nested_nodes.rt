//! Emits nested nodes. Pending parts are on the heap, so nested nodes need no stack.
#![tactic(auto, using(std::proofs::lemmas::Grind::common_steps), unfolding(regex_pattern_front::specs::AstToSpecTree::spec_node_of, crate::specs::EmitterStateAndAppendedCode::node_with_char_loops_if_enabled))]

ghost use Rattle.std.specs.Prelude.{◌≡◌, ◌+◌, ◌<◌, ◌^◌, [], length, not, OnOk, IsTrue};
ghost use Rattle.regex_meaning.specs.Tree.{alt, capture_group, lookaround, loop as spec_loop, loop_1_char_body, every_node_passes};
ghost use Rattle.regex_meaning.specs.WellFormedTrees.{set_sizes_and_characters_fit_instructions};
ghost use Rattle.regex_pattern_front.specs.AstToSpecTree.{spec_node_of, spec_quantifier_of};
ghost use Rattle.regress_program.specs.LeafNodesAndOptimizableLoops.{spec_cat_of_children, is_leaf};
ghost use Rattle.regress_program.specs.EmitterStateAndAppendedCode.{HasIndexRoomForNode, node_with_char_loops_if_enabled, node_to_emit_in_mode, emitter_state, IsEmitted, lookaround_as_spec};
ghost use Rattle.regress_program.specs.PendingEmission.{CanEmitPendingPart, FitsIndexWidths, PendingPartIsEmittedOrBegun, BeginsEmittingNode, BeginsEmittingAlternatives, BeginsEmittingNodeList};
ghost use Rattle.regress_program.specs.PendingEmission.{emitter_and_pending_parts, with_alternatives_emitted, with_lookaround_end, with_loop_end};

use crate::emit::emitter::{EmitMode, Emitter, LookaroundFields, loop_head_insn};
use crate::instructions::{Insn, LoopFields};
use regex_pattern_front::ir::{Node, Quantifier};
use regex_pattern_front::types::CaptureGroupID;
use std::alloc::AllocError;
use std::ops::Range;

// The initial capacity of the stack of pending parts.
const INITIAL_CAPACITY: usize = 16;

// A part of the code that is still to be emitted.
#[derive(Clone, Copy)]
pub(crate) enum UnemittedCodePart<'a> {
    // A node.
    Node(EmitMode, &'a Node),
    // The nodes of a list, in order.
    Row(EmitMode, &'a [Node]),
    // The alternatives after the one that has just ended, and the index of the branch to them.
    Others(EmitMode, u32, &'a Node),
    // The jump at this index, which ends an alternative, gets the current end of the code as its
    // target.
    Jump(u32),
    GroupEnd(CaptureGroupID),
    // The end of the lookaround whose first instruction is at this index.
    LookaroundEnd(LookaroundFields, u32),
    // The end of the loop whose first instruction is at this index.
    LoopEnd(LoopFields, u32),
}

impl Emitter {
    // Appends the code of a node.
    pub(crate) fn emit(&mut self, mode: EmitMode, node: &Node) -> Result<(), AllocError>
        requires sets { IsTrue (every_node_passes set_sizes_and_characters_fit_instructions (spec_node_of node.now)) }
        requires room { HasIndexRoomForNode (emitter_state self.old) (node_to_emit_in_mode mode node.now) }
        ensures { OnOk result (IsEmitted mode (node_to_emit_in_mode mode node.now) self.old self.new) }
    {
        let mut rest = Vec::with_capacity(*self.insns.allocator(), INITIAL_CAPACITY)?;
        rest.push(UnemittedCodePart::Node(mode, node))?;
        while let Some(next) = rest.pop() {
            self.emit_pending(next, &mut rest)?;
        }
        Ok(())
    }

    // Emits the next pending part or its beginning. What remains of the part is pushed before the
    // rest.
    fn emit_pending<'a>(
        &mut self,
        next: UnemittedCodePart<'a>,
        rest: &mut Vec<UnemittedCodePart<'a>>,
    ) -> Result<(), AllocError>
        requires { CanEmitPendingPart next (emitter_state self.old) }
        ensures { OnOk result (PendingPartIsEmittedOrBegun next.entry (emitter_and_pending_parts self.old rest.old)
            (emitter_and_pending_parts self.new rest.new)) }
    {
        match next {
            UnemittedCodePart::Node(mode, node) => self.begin(mode, node, rest),
            UnemittedCodePart::Row(mode, nodes) => self.begin_node_list(mode, nodes, rest),
            UnemittedCodePart::Others(mode, branch, others) => self.begin_other_arms(
                mode, branch, others, rest,
            ),
            UnemittedCodePart::Jump(place) => {
                let target = self.next();
                self.replace_insn_at(place as usize, Insn::Jump { target });
                Ok(())
            }
            UnemittedCodePart::GroupEnd(id) => self.append_insn(Insn::EndCaptureGroup(id)),
            UnemittedCodePart::LookaroundEnd(look, head) => self.end_lookaround(look, head),
            UnemittedCodePart::LoopEnd(fields, begin) => self.end_loop(fields, begin),
        }
    }

    // Emits the beginning of a node's code, and pushes what remains of it.
    fn begin<'a>(
        &mut self,
        mode: EmitMode,
        node: &'a Node,
        rest: &mut Vec<UnemittedCodePart<'a>>,
    ) -> Result<(), AllocError>
        requires sets { IsTrue (every_node_passes set_sizes_and_characters_fit_instructions (spec_node_of node.now)) }
        requires room { HasIndexRoomForNode (emitter_state self.old) (node_to_emit_in_mode mode node.now) }
        ensures { OnOk result (BeginsEmittingNode mode (node_to_emit_in_mode mode node.now)
            (emitter_and_pending_parts self.old rest.old) (emitter_and_pending_parts self.new rest.new)) }
    {
        match node {
            Node::Cat(nodes) => self.begin_node_list(mode, nodes, rest),
            Node::Alt(left, right) => self.begin_alternatives(mode, left, right, rest),
            Node::CaptureGroup { id, contents, .. } => self.begin_group(mode, *id, contents, rest),
            Node::LookaroundAssertion {
                negate,
                backwards,
                start_group,
                end_group,
                contents,
            } => {
                let look = LookaroundFields::new(*negate, *backwards, *start_group..*end_group);
                self.begin_lookaround(mode, look, contents, rest)
            }
            Node::Loop {
                loopee,
                quant,
                enclosed_groups,
            } => {
                if mode.should_become_char_loop(loopee) {
                    self.begin_loop_1_char(mode, quant, loopee, rest)
                } else {
                    self.begin_loop(mode, quant, enclosed_groups, loopee, rest)
                }
            }
            Node::Loop1CharBody { loopee, quant } => {
                self.begin_loop_1_char(mode, quant, loopee, rest)
            }
            _ => self.emit_leaf(mode, node),
        }
    }

    // Emits the nodes of a list up to the first with children, and pushes that node and those after
    // it.
    fn begin_node_list<'a>(
        &mut self,
        mode: EmitMode,
        nodes: &'a [Node],
        rest: &mut Vec<UnemittedCodePart<'a>>,
    ) -> Result<(), AllocError>
        requires sets { IsTrue (every_node_passes set_sizes_and_characters_fit_instructions
            (spec_cat_of_children nodes.now)) }
        requires room { HasIndexRoomForNode (emitter_state self.old) (node_with_char_loops_if_enabled mode.narrow
            (spec_cat_of_children nodes.now)) }
        ensures { OnOk result (BeginsEmittingNodeList mode nodes.now (emitter_and_pending_parts self.old rest.old)
            (emitter_and_pending_parts self.new rest.new)) }
    {
        let mut left = nodes;
        while let Some((first, others)) = left.split_first() {
            if has_children(first) {
                rest.push(UnemittedCodePart::Row(mode, others))?;
                rest.push(UnemittedCodePart::Node(mode, first))?;
                return Ok(());
            }
            self.emit_leaf(mode, first)?;
            left = others;
        }
        Ok(())
    }

    // Emits a branch to the other alternatives, and then the first alternative. The branch is
    // rewritten once the index of the other alternatives is known.
    fn begin_alternatives<'a>(
        &mut self,
        mode: EmitMode,
        first: &'a Node,
        others: &'a Node,
        rest: &mut Vec<UnemittedCodePart<'a>>,
    ) -> Result<(), AllocError>
        requires first { IsTrue (every_node_passes set_sizes_and_characters_fit_instructions (spec_node_of first.now)) }
        requires others { IsTrue (every_node_passes set_sizes_and_characters_fit_instructions
            (spec_node_of others.now)) }
        requires room { HasIndexRoomForNode (emitter_state self.old) (alt (node_to_emit_in_mode mode first.now)
            (node_to_emit_in_mode mode others.now)) }
        ensures { OnOk result (BeginsEmittingNode mode (alt (node_to_emit_in_mode mode first.now)
            (node_to_emit_in_mode mode others.now))
            (emitter_and_pending_parts self.old rest.old) (emitter_and_pending_parts self.new rest.new)) }
    {
        let branch = self.next();
        self.append_insn(Insn::Alt { secondary: 0 })?;
        rest.push(UnemittedCodePart::Others(mode, branch, others))?;
        rest.push(UnemittedCodePart::Node(mode, first))?;
        Ok(())
    }

    // Emits a jump past the other alternatives, and then these. The jump is rewritten once their
    // end is known. The branch before the previous alternative gets the other alternatives as its
    // target.
    fn begin_other_arms<'a>(
        &mut self,
        mode: EmitMode,
        branch: u32,
        others: &'a Node,
        rest: &mut Vec<UnemittedCodePart<'a>>,
    ) -> Result<(), AllocError>
        requires branch { branch < length (emitter_state self.old).insns }
        requires sets { IsTrue (every_node_passes set_sizes_and_characters_fit_instructions (spec_node_of others.now)) }
        requires room { FitsIndexWidths (with_alternatives_emitted mode.unicode mode.behind branch
            (node_to_emit_in_mode mode others.now) (emitter_state self.old)) }
        ensures { OnOk result (BeginsEmittingAlternatives mode branch (node_to_emit_in_mode mode others.now)
            (emitter_and_pending_parts self.old rest.old) (emitter_and_pending_parts self.new rest.new)) }
    {
        let jump = self.next();
        self.append_insn(Insn::Jump { target: 0 })?;
        let secondary = self.next();
        self.replace_insn_at(branch as usize, Insn::Alt { secondary });
        rest.push(UnemittedCodePart::Jump(jump))?;
        rest.push(UnemittedCodePart::Node(mode, others))?;
        Ok(())
    }

    fn begin_group<'a>(
        &mut self,
        mode: EmitMode,
        id: CaptureGroupID,
        contents: &'a Node,
        rest: &mut Vec<UnemittedCodePart<'a>>,
    ) -> Result<(), AllocError>
        requires sets { IsTrue (every_node_passes set_sizes_and_characters_fit_instructions
            (spec_node_of contents.now)) }
        requires room { HasIndexRoomForNode (emitter_state self.old)
            (capture_group id [] (node_to_emit_in_mode mode contents.now)) }
        ensures { OnOk result (BeginsEmittingNode mode (capture_group id [] (node_to_emit_in_mode mode contents.now))
            (emitter_and_pending_parts self.old rest.old) (emitter_and_pending_parts self.new rest.new)) }
    {
        self.append_insn(Insn::BeginCaptureGroup(id))?;
        rest.push(UnemittedCodePart::GroupEnd(id))?;
        rest.push(UnemittedCodePart::Node(mode, contents))?;
        Ok(())
    }

    // Emits the beginning of a lookaround. Its first instruction is rewritten once the index of its
    // continuation is known.
    fn begin_lookaround<'a>(
        &mut self,
        mode: EmitMode,
        look: LookaroundFields,
        contents: &'a Node,
        rest: &mut Vec<UnemittedCodePart<'a>>,
    ) -> Result<(), AllocError>
        requires sets { IsTrue (every_node_passes set_sizes_and_characters_fit_instructions
            (spec_node_of contents.now)) }
        requires room { HasIndexRoomForNode (emitter_state self.old) (lookaround (lookaround_as_spec look)
            (node_to_emit_in_mode mode contents.now)) }
        ensures { OnOk result (BeginsEmittingNode mode (lookaround (lookaround_as_spec look)
            (node_to_emit_in_mode mode contents.now))
            (emitter_and_pending_parts self.old rest.old) (emitter_and_pending_parts self.new rest.new)) }
    {
        let head = self.next();
        self.append_insn(look.insn(0))?;
        rest.push(UnemittedCodePart::LookaroundEnd(look, head))?;
        let inside = EmitMode {
            unicode: mode.unicode,
            narrow: mode.narrow,
            behind: look.backwards,
        };
        rest.push(UnemittedCodePart::Node(inside, contents))?;
        Ok(())
    }

    fn end_lookaround(&mut self, look: LookaroundFields, head: u32) -> Result<(), AllocError>
        requires head { head < length (emitter_state self.old).insns }
        requires room { length (emitter_state self.old).insns + 1 < 2 ^ 32 }
        ensures { OnOk result
            (emitter_state self.new ≡ with_lookaround_end (lookaround_as_spec look) head (emitter_state self.old)) }
    {
        self.append_insn(Insn::Goal)?;
        let continuation = self.next();
        self.replace_insn_at(head as usize, look.insn(continuation));
        Ok(())
    }

    // Emits the beginning of a loop. Its first instruction is rewritten once its exit is known.
    fn begin_loop<'a>(
        &mut self,
        mode: EmitMode,
        quant: &Quantifier,
        groups: &Range<CaptureGroupID>,
        loopee: &'a Node,
        rest: &mut Vec<UnemittedCodePart<'a>>,
    ) -> Result<(), AllocError>
        requires sets { IsTrue (every_node_passes set_sizes_and_characters_fit_instructions (spec_node_of loopee.now)) }
        requires room { HasIndexRoomForNode (emitter_state self.old) (spec_loop (spec_quantifier_of quant.now)
            groups.now.start groups.now.end (node_to_emit_in_mode mode loopee.now)) }
        ensures { OnOk result (BeginsEmittingNode mode (spec_loop (spec_quantifier_of quant.now)
            groups.now.start groups.now.end (node_to_emit_in_mode mode loopee.now))
            (emitter_and_pending_parts self.old rest.old) (emitter_and_pending_parts self.new rest.new)) }
    {
        let begin = self.next();
        let fields = LoopFields {
            loop_id: self.loops,
            min_iters: quant.min,
            max_iters: quant.max.unwrap_or(usize::MAX),
            greedy: quant.greedy,
            exit: 0,
        };
        self.append_insn(loop_head_insn(fields))?;
        self.increment_loop_count();
        self.emit_group_resets(groups.start, groups.end)?;
        rest.push(UnemittedCodePart::LoopEnd(fields, begin))?;
        rest.push(UnemittedCodePart::Node(mode, loopee))?;
        Ok(())
    }

    fn end_loop(&mut self, mut fields: LoopFields, begin: u32) -> Result<(), AllocError>
        requires begin { begin < length (emitter_state self.old).insns }
        requires room { length (emitter_state self.old).insns + 1 < 2 ^ 32 }
        ensures { OnOk result (emitter_state self.new ≡ with_loop_end fields begin (emitter_state self.old)) }
    {
        self.append_insn(Insn::LoopAgain { begin })?;
        fields.exit = self.next();
        self.replace_insn_at(begin as usize, loop_head_insn(fields));
        Ok(())
    }

    fn begin_loop_1_char<'a>(
        &mut self,
        mode: EmitMode,
        quant: &Quantifier,
        loopee: &'a Node,
        rest: &mut Vec<UnemittedCodePart<'a>>,
    ) -> Result<(), AllocError>
        requires sets { IsTrue (every_node_passes set_sizes_and_characters_fit_instructions (spec_node_of loopee.now)) }
        requires room { HasIndexRoomForNode (emitter_state self.old)
            (loop_1_char_body (spec_quantifier_of quant.now) (node_to_emit_in_mode mode loopee.now)) }
        ensures { OnOk result (BeginsEmittingNode mode (loop_1_char_body (spec_quantifier_of quant.now)
            (node_to_emit_in_mode mode loopee.now))
            (emitter_and_pending_parts self.old rest.old) (emitter_and_pending_parts self.new rest.new)) }
    {
        self.append_insn(Insn::Loop1CharBody {
            min_iters: quant.min,
            max_iters: quant.max.unwrap_or(usize::MAX),
            greedy: quant.greedy,
        })?;
        rest.push(UnemittedCodePart::Node(mode, loopee))?;
        Ok(())
    }
}

// Checks whether a node has children.
pub(crate) fn has_children(node: &Node) -> bool
    ensures { result ≡ not (is_leaf (spec_node_of node.now)) }
{
    match node {
        Node::Cat(_) => true,
        Node::Alt(..) => true,
        Node::CaptureGroup { .. } => true,
        Node::LookaroundAssertion { .. } => true,
        Node::Loop { .. } => true,
        Node::Loop1CharBody { .. } => true,
        Node::Empty
        | Node::Goal
        | Node::Char { .. }
        | Node::CharSet(_)
        | Node::ByteSet(_)
        | Node::ByteSequence(_)
        | Node::Bracket(_)
        | Node::StringSet { .. }
        | Node::MatchAny
        | Node::MatchAnyExceptLineTerminator
        | Node::Anchor { .. }
        | Node::WordBoundary { .. }
        | Node::BackRef { .. }
        | Node::CanonicalBackRef { .. } => false,
    }
}
