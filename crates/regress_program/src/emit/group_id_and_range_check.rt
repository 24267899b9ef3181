//! Checks of group ids: each id occurs once, and the ranges of loops and lookarounds contain
//! exactly the groups inside them.
#![tactic(auto, unfolding(regex_pattern_front::specs::AstToSpecTree::spec_node_of, crate::specs::GroupIdCheck::are_distinct_unseen, crate::specs::GroupIdCheck::least_group_id, crate::specs::GroupIdCheck::end_of_group_ids, crate::specs::InnerNodeCountMeasure::inner_node_count))]

ghost use Rattle.std.specs.Prelude.{◌≡◌, is_some, IfSome, ◌≤◌, ◌<◌, ◌^◌, ◌&&◌, ◌||◌, ◌+◌, ◌-◌, ◌∷◌, [], not, ◌==◌, ℕ, false, length, IsTrue, nat_le};
ghost use Rattle.regex_meaning.specs.{Tree.{alt, group_ids, every_node_passes}, WellFormedTrees.{has_exact_group_range}};
ghost use Rattle.regex_pattern_front.specs.AstToSpecTree.{spec_node_of};
ghost use Rattle.regress_program.specs.LeafNodesAndOptimizableLoops.{spec_cat_of_children};
ghost use Rattle.regress_program.specs.GroupIdCheck.{is_group_id_seen, are_distinct_unseen, has_exact_group_ids, node_fills_id_range, count_and_span_of_group_ids, MarksGroupIdsSeen};
ghost use Rattle.regress_program.specs.GroupIdCheck.{joined as spec_joined, GroupIdCountAndSpanNumbers};
ghost use Rattle.regress_program.specs.GroupIdSpans.{group_id_span_as_numbers, JoinsGroupIdSpan};

use regex_pattern_front::ir::Node;
use regex_pattern_front::types::CaptureGroupID;

/// The number of group ids inside a node, the least of them, and one more than the greatest.
#[derive(Clone, Copy)]
pub(crate) struct GroupIdCountAndBounds {
    pub(crate) count: usize,
    pub(crate) low: u32,
    pub(crate) high: u32,
}

impl GroupIdCountAndBounds {
    // The span of no ids.
    const NONE: GroupIdCountAndBounds = GroupIdCountAndBounds {
        count: 0,
        low: 65536,
        high: 0,
    };

    // Returns the span of one id.
    fn span_of_one_id(id: CaptureGroupID) -> GroupIdCountAndBounds
        ensures { result ≡ record { count = 1; low = id; high = id + 1 } }
    {
        let low = u32::from(id);
        GroupIdCountAndBounds {
            count: 1,
            low,
            high: low + 1,
        }
    }

    // Returns the span of the ids of both.
    fn joined(self, other: GroupIdCountAndBounds) -> GroupIdCountAndBounds
        ensures { group_id_span_as_numbers result ≡ spec_joined (group_id_span_as_numbers self)
            (group_id_span_as_numbers other) }
    {
        GroupIdCountAndBounds {
            count: self.count.saturating_add(other.count),
            low: self.low.min(other.low),
            high: self.high.max(other.high),
        }
    }

    // Checks whether distinct ids with this span are exactly `start..end`.
    fn covers_range(self, start: CaptureGroupID, end: CaptureGroupID) -> bool
        ensures { result ≡ (nat_le start end && (self.count == (end - start))
            && nat_le start self.low && nat_le self.high end) }
    {
        start <= end
            && self.count == usize::from(end - start)
            && u32::from(start) <= self.low
            && self.high <= u32::from(end)
    }
}

/// The number of words in a bitmap with a bit for each possible id.
const BITMAP_WORDS: usize = 1024;

/// The number of words in the bitmap that is tried first. For a short pattern, clearing a bit for
/// each possible id takes longer than all other work.
const SMALL_BITMAP_WORDS: usize = 4;

/// Returns the span of the ids inside a node. Returns `None` if an id occurs twice, or if the range
/// of a loop or a lookaround is not exactly that of the groups inside it.
pub(crate) fn group_id_span_if_ids_valid(root: &Node) -> Option<GroupIdCountAndBounds>
    ensures exact { is_some result ≡ has_exact_group_ids (λ k. false) (spec_node_of root.now) }
    ensures span { IfSome result (λ span. group_id_span_as_numbers span ≡ count_and_span_of_group_ids
        (group_ids (spec_node_of root.now))) }
    ensures high { IfSome result (λ span. span.high ≤ 65536) }
{
    let mut bits = [0; SMALL_BITMAP_WORDS];
    match span_in(&mut bits, root) {
        Some(span) => Some(span),
        None => span_of_many(root),
    }
}

// Does the work of `group_id_span_if_ids_valid` with a bitmap for all ids, for trees that the small
// bitmap does not decide. It is a separate function because each call clears a bit for each id.
#[inline(never)]
fn span_of_many(root: &Node) -> Option<GroupIdCountAndBounds>
    ensures exact { is_some result ≡ has_exact_group_ids (λ k. false) (spec_node_of root.now) }
    ensures span { IfSome result (λ span. group_id_span_as_numbers span ≡ count_and_span_of_group_ids
        (group_ids (spec_node_of root.now))) }
    ensures high { IfSome result (λ span. span.high ≤ 65536) }
{
    let mut bits = [0; BITMAP_WORDS];
    span_in(&mut bits, root)
}

// Returns the span of the ids inside a node. Returns `None` if an id has its bit set or occurs
// twice, or if the range of a loop or a lookaround is not exactly that of the groups inside it. If
// the bitmap does not have a bit for each possible id, the ids without a bit count as set.
fn span_in(bits: &mut [u64], root: &Node) -> Option<GroupIdCountAndBounds>
    ensures exact { is_some result ≡ has_exact_group_ids (is_group_id_seen bits.old) (spec_node_of root.now) }
    ensures span { IfSome result (λ span. group_id_span_as_numbers span ≡ count_and_span_of_group_ids
        (group_ids (spec_node_of root.now))) }
    ensures high { IfSome result (λ span. span.high ≤ 65536) }
{
    let mut ids = GroupIdSpanDuringCheck {
        inside: GroupIdCountAndBounds::NONE,
    };
    if ids.check_ids(bits, root) {
        Some(ids.inside)
    } else {
        None
    }
}

/// The span of the ids seen so far inside the current node. A separate bitmap records which ids
/// have been seen at all.
#[derive(Drop)]
struct GroupIdSpanDuringCheck {
    inside: GroupIdCountAndBounds,
    ghost counted: { inside.count < 2 ^ 64 },
    ghost low: { inside.low ≤ 65536 },
    ghost high: { inside.high ≤ 65536 },
}

impl GroupIdSpanDuringCheck {
    // Records an id, and returns whether it had not been seen before.
    fn mark_seen(&mut self, bits: &mut [u64], id: CaptureGroupID) -> bool
        ensures fresh { result ≡ not (is_group_id_seen bits.old id) }
        ensures seen { (k : ℕ) → is_group_id_seen bits.new k ≡ (is_group_id_seen bits.old k || k == id) }
        ensures span { group_id_span_as_numbers self.new.inside
            ≡ spec_joined (group_id_span_as_numbers self.old.inside) (count_and_span_of_group_ids (id ∷ [])) }
    {
        self.inside = self
            .inside
            .joined(GroupIdCountAndBounds::span_of_one_id(id));
        let word = usize::from(id / 64);
        if word >= bits.len() {
            return false;
        }
        let bit = id % 64;
        let before = bits[word];
        bits[word] = before | 1 << bit;
        before >> bit & 1 == 0
    }

    // Records the ids inside a node. Returns whether each id was unseen and occurs once, and the
    // ranges of loops and lookarounds are exactly those of the groups inside them.
    #[cycle(check_ids)]
    #[inline(never)]
    fn check_ids(&mut self, bits: &mut [u64], root: &Node) -> bool
        ensures found { result ≡ has_exact_group_ids (is_group_id_seen bits.old) (spec_node_of root.now) }
        ensures span { IsTrue result
            → JoinsGroupIdSpan (group_ids (spec_node_of root.now)) self.old.inside self.new.inside }
        ensures seen { IsTrue result → MarksGroupIdsSeen (group_ids (spec_node_of root.now)) bits.old bits.new }
    {
        self.check_ids_along(bits, root)
    }

    // Does the work of `check_ids`, inlined into its callers. It iterates along the last child of
    // each node and keeps its results in one value. The remaining alternatives, the remaining nodes
    // of a list, and the groups that a loop or a lookaround has to name are saved in one frame, so
    // deep nesting needs little stack.
    #[cycle(check_ids)]
    #[inline(always)]
    fn check_ids_along(&mut self, bits: &mut [u64], root: &Node) -> bool
        ensures found { result ≡ has_exact_group_ids (is_group_id_seen bits.old) (spec_node_of root.now) }
        ensures span { IsTrue result
            → JoinsGroupIdSpan (group_ids (spec_node_of root.now)) self.old.inside self.new.inside }
        ensures seen { IsTrue result → MarksGroupIdsSeen (group_ids (spec_node_of root.now)) bits.old bits.new }
    {
        let mut rest = root;
        loop {
            match rest {
                Node::Cat(nodes) => return self.check_list_ids(bits, nodes),
                Node::Alt(left, right) => {
                    if !self.check_arm_ids(bits, left) {
                        return false;
                    }
                    rest = right;
                }
                Node::CaptureGroup { id, contents, .. } => {
                    if !self.mark_seen(bits, *id) {
                        return false;
                    }
                    rest = contents;
                }
                Node::LookaroundAssertion {
                    start_group,
                    end_group,
                    contents,
                    ..
                } => return self.check_enclosed_ids(bits, *start_group, *end_group, contents),
                Node::Loop {
                    loopee,
                    enclosed_groups,
                    ..
                } => return self.check_enclosed_ids(
                    bits,
                    enclosed_groups.start,
                    enclosed_groups.end,
                    loopee,
                ),
                Node::Loop1CharBody { loopee, .. } => rest = loopee,
                _ => return true,
            }
        }
    }

    // Checks the ids inside an alternative that is not the last.
    #[cycle(check_ids)]
    #[inline(always)]
    fn check_arm_ids(&mut self, bits: &mut [u64], arm: &Node) -> bool
        ensures found { result ≡ has_exact_group_ids (is_group_id_seen bits.old) (spec_node_of arm.now) }
        ensures span { IsTrue result
            → JoinsGroupIdSpan (group_ids (spec_node_of arm.now)) self.old.inside self.new.inside }
        ensures seen { IsTrue result → MarksGroupIdsSeen (group_ids (spec_node_of arm.now)) bits.old bits.new }
    {
        match arm {
            Node::Cat(nodes) => self.check_list_ids(bits, nodes),
            _ => self.check_part_ids(bits, arm),
        }
    }

    // Checks the ids inside a node that is not the last child, or is in a list.
    #[cycle(check_ids)]
    #[inline(always)]
    fn check_part_ids(&mut self, bits: &mut [u64], node: &Node) -> bool
        ensures found { result ≡ has_exact_group_ids (is_group_id_seen bits.old) (spec_node_of node.now) }
        ensures span { IsTrue result
            → JoinsGroupIdSpan (group_ids (spec_node_of node.now)) self.old.inside self.new.inside }
        ensures seen { IsTrue result → MarksGroupIdsSeen (group_ids (spec_node_of node.now)) bits.old bits.new }
    {
        match node {
            Node::LookaroundAssertion {
                start_group,
                end_group,
                contents,
                ..
            } => self.check_enclosed_ids(bits, *start_group, *end_group, contents),
            Node::Loop {
                loopee,
                enclosed_groups,
                ..
            } => self.check_enclosed_ids(bits, enclosed_groups.start, enclosed_groups.end, loopee),
            _ => self.check_ids(bits, node),
        }
    }

    #[cycle(check_ids)]
    #[inline(always)]
    fn check_list_ids(&mut self, bits: &mut [u64], nodes: &[Node]) -> bool
        ensures found { result ≡ has_exact_group_ids (is_group_id_seen bits.old) (spec_cat_of_children nodes.now) }
        ensures span { IsTrue result
            → JoinsGroupIdSpan (group_ids (spec_cat_of_children nodes.now)) self.old.inside self.new.inside }
        ensures seen { IsTrue result → MarksGroupIdsSeen (group_ids (spec_cat_of_children nodes.now)) bits.old
            bits.new }
    {
        for node in nodes {
            if !self.check_part_ids(bits, node) {
                return false;
            }
        }
        true
    }

    // Checks the ids inside a loop or a lookaround against its range.
    #[cycle(check_ids)]
    #[inline(never)]
    fn check_enclosed_ids(
        &mut self,
        bits: &mut [u64],
        start: CaptureGroupID,
        end: CaptureGroupID,
        contents: &Node,
    ) -> bool
        ensures found { result ≡ node_fills_id_range (is_group_id_seen bits.old) start end (spec_node_of contents.now) }
        ensures span { IsTrue result
            → JoinsGroupIdSpan (group_ids (spec_node_of contents.now)) self.old.inside self.new.inside }
        ensures seen { IsTrue result
            → MarksGroupIdsSeen (group_ids (spec_node_of contents.now)) bits.old bits.new }
    {
        let before = self.inside;
        self.inside = GroupIdCountAndBounds::NONE;
        if !self.check_ids_along(bits, contents) {
            return false;
        }
        let inside = self.inside;
        self.inside = before.joined(inside);
        inside.covers_range(start, end)
    }
}
