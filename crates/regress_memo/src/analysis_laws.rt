//! Laws of memo analyses.

ghost use Rattle.regress_memo.specs.{UnreachedCharLoopBodies.{CharLoopBodiesAreUnreached}, WorkBound.{AnalysesBoundTotalWork, ContentsTakeFewSteps, SilentContentsTakeFewSteps}};
ghost use Rattle.regress_memo.specs.CheckedAnalysis.{AnalysesAreMemoPlans, DirectionsAreKept, KeysHaveDistinctBits};

/// An analysis of a program is a memo plan in each text: its keys decide failure, its steps are
/// memo steps, and the work of all attempts together is linear in the length of the text.
/// Statement: `specs/CheckedAnalysis`.
pub fn analyses_are_memo_plans()
    ensures { AnalysesAreMemoPlans }
{}

/// Different keys of a program have different bits.
/// Statement: `specs/CheckedAnalysis`.
pub fn keys_have_distinct_bits()
    ensures { KeysHaveDistinctBits }
{}

/// A step leaves threads at instructions that are searched in the same direction.
/// Statement: `specs/CheckedAnalysis`.
pub fn directions_are_kept()
    ensures { DirectionsAreKept }
{}

/// If no instruction leads to the body of a char loop, then no step leaves a thread there.
/// Statement: `specs/UnreachedCharLoopBodies`.
pub fn char_loop_bodies_are_unreached()
    ensures { CharLoopBodiesAreUnreached }
{}

/// Searches covered by an analysis of a program do no more work per position of a text than the
/// analysis states.
/// Statement: `specs/WorkBound`.
pub fn analyses_bound_total_work()
    ensures { AnalysesBoundTotalWork }
{}

/// If an analysis of a program is bounded, the search of a lookaround's contents takes at most as
/// many steps as the potential of their first instruction.
/// Statement: `specs/WorkBound`.
pub fn contents_take_few_steps()
    ensures { ContentsTakeFewSteps }
{}

/// The search of contents that record nothing takes at most as many steps as the potential of their
/// first instruction, even if the contents of other lookarounds record.
/// Statement: `specs/WorkBound`.
pub fn silent_contents_take_few_steps()
    ensures { SilentContentsTakeFewSteps }
{}
