//! Memoization of searches: its laws on the abstract machine, the static analysis that decides
//! which instructions of a program record, and the memo table of a text.
#![tactic(auto)]

pub mod analysis_builder;
mod analysis_check;
pub mod analysis_laws;
pub mod analysis_result;
pub mod apart_contents;
mod bit_set;
mod closed_lookarounds;
pub mod contents_laws;
mod cost_check;
mod flow_edges;
pub mod laws;
pub mod loop_data_key_codes;
pub mod memo;
mod memo_points_and_costs;
pub mod runtime_loop_state;
pub mod successors;
mod unreached_loop_bodies;
pub mod work_bound;

ghost use Rattle.regress_memo.specs.LawReExports as laws;

/// Searches from states that agree in all live data end alike: with the same outcome, in the same
/// number of steps and, if groups are live, with the same groups.
/// Statement: `specs/Liveness`.
pub fn live_data_decide_search_result()
    ensures { laws.LiveDataDecideSearchResult }
{}

/// If a state finds nothing, each state that agrees with it finds nothing.
/// Statement: `specs/Liveness`.
pub fn live_data_decide_failure()
    ensures { laws.LiveDataDecideFailure }
{}

/// If a state finds nothing, each state with the same key finds nothing. The key is the
/// instruction, the offset, and the live data of the loops that enclose the instruction. Groups are
/// not part of the key if the program has no backreference.
/// Statement: `specs/MemoKeys`.
pub fn memo_keys_decide_failure()
    ensures { laws.MemoKeysDecideFailure }
{}

/// If no data of loops are live, the key is the instruction and the offset.
/// Statement: `specs/MemoKeys`.
pub fn positions_decide_failure()
    ensures { laws.PositionsDecideFailure }
{}

/// A step may leave a record below its threads. Once no thread is left above the record, its state
/// finds nothing.
/// Statement: `specs/MemoKeys`.
pub fn recorded_failures_are_right()
    ensures { laws.RecordedFailuresAreRight }
{}

/// While a record is pending, no state that agrees with its state recurs, because both searches
/// would take the same number of steps. So no key is current twice before its result is known.
/// Statement: `specs/MemoKeys`.
pub fn no_state_recurs_while_pending()
    ensures { laws.NoStateRecursWhilePending }
{}

/// Examples of liveness analyses: for `(?:ab)*c`, an instruction and an offset decide; for
/// `(?:a*){2,}b`, these and six codes decide.
/// Statement: `specs/LivenessExamples`.
pub fn liveness_examples_are_right()
    ensures { laws.LivenessExamplesAreRight }
{}

/// Searches from lists of threads that agree in pairs have the same outcome, including the live
/// groups.
/// Statement: `specs/Liveness`.
pub fn live_data_decide_thread_lists()
    ensures { laws.LiveDataDecideThreadLists }
{}

/// Distinct keys of a finite list are at most as many as the list has, and cost at most as much.
/// Statement: `specs/MemoSearch`.
pub fn distinct_keys_cost_at_most_list()
    ensures { laws.DistinctKeysCostAtMostList }
{}

/// The records in a list of entries stay right if threads that simulate the threads above them
/// replace these, also if further records are added.
/// Statement: `specs/MemoSearch`.
pub fn pending_records_stay_right()
    ensures { laws.PendingRecordsStayRight }
{}

/// Each step keeps the invariant: the entries find the result of the search, the records and the
/// memo table are right, and no key occurs twice in them.
/// Statement: `specs/MemoSearch`.
pub fn steps_keep_invariant()
    ensures { laws.StepsKeepInvariant }
{}

/// After any number of steps, the invariant holds, and the work is at most the initial potential
/// plus the costs of all keys.
/// Statement: `specs/MemoSearch`.
pub fn work_is_bounded()
    ensures { laws.WorkIsBounded }
{}

/// All searches of a text for successive matches together do at most the sum of their initial
/// potentials plus three times the cost of all keys.
/// Statement: `specs/AllMatchesWork`.
pub fn all_matches_work_is_bounded()
    ensures { laws.AllMatchesWorkIsBounded }
{}

/// The steps of an executor are memo steps: without a record, with a record of what is current,
/// and, for char loops, with a record of each position.
/// Statement: `specs/ThreadPotentials`.
pub fn steps_are_memo_steps()
    ensures { laws.StepsAreMemoSteps }
{}

/// If a table passes a check at each instruction, it bounds the potential of the threads that
/// instructions leave. There is a table that passes for all programs.
/// Statement: `specs/ThreadPotentials`.
pub fn threads_left_fit_insn_potentials()
    ensures { laws.ThreadsLeftFitInsnPotentials }
{}

/// Instructions, offsets and codes that distinguish all live data of loops are keys. The cost of
/// all keys is the sum over instructions of cost times codes, times the number of offsets. If
/// positions alone decide, one code is enough.
/// Statement: `specs/ThreadPotentials`.
pub fn offsets_and_codes_are_keys()
    ensures { laws.OffsetsAndCodesAreKeys }
{}

/// The digits of the code of a plan are the answers to its questions. The code distinguishes all
/// live data, and is less than the product of the numbers of possible answers. So each thread at a
/// recording instruction has a key.
/// Statement: `specs/LoopDataKeyCodes`.
pub fn key_codes_distinguish_loop_data()
    ensures { laws.KeyCodesDistinguishLoopData }
{}

/// In a rightward search, no instruction leads to a smaller offset.
/// Statement: `specs/ThreadPotentials`.
pub fn rightward_insns_never_move_left()
    ensures { laws.RightwardInsnsNeverMoveLeft }
{}

/// In a rightward search, no thread or record is before the offset at which the search began, and
/// no record is after the current thread.
/// Statement: `specs/MemoSearch`.
pub fn rightward_searches_never_move_left()
    ensures { laws.RightwardSearchesNeverMoveLeft }
{}

/// The work of all searches is linear in the number of offsets: at most the initial potentials,
/// plus three times the sum of cost times codes over recording instructions, times the number of
/// offsets. If positions alone decide, each instruction has one code.
/// Statement: `specs/AllMatchesWork`.
pub fn all_matches_work_is_linear()
    ensures { laws.AllMatchesWorkIsLinear }
{}

/// The search of a lookaround's contents learns new keys, whose costs cover its work: keys that
/// fail and, if it has found an end, the keys of its pending records, which succeed.
/// Statement: `specs/LookaroundsWithSharedMemo`.
pub fn lookarounds_learn_keys()
    ensures { laws.LookaroundsLearnKeys }
{}

/// If a search finds an end or reaches a key that is known to succeed, the threads of all pending
/// records find an end too.
/// Statement: `specs/LookaroundsWithSharedMemo`.
pub fn found_end_is_shared()
    ensures { laws.FoundEndIsShared }
{}

/// The potential of a char loop that records each of its positions, plus the costs of these keys,
/// covers its step.
/// Statement: `specs/ThreadPotentials`.
pub fn keys_cover_recorded_exits()
    ensures { laws.KeysCoverRecordedExits }
{}

/// Each step from sound threads leaves sound threads, also inside a lookaround and after it.
/// Statement: `specs/LookaroundsWithSharedMemo`.
pub fn sound_states_leave_sound_threads()
    ensures { laws.SoundStatesLeaveSoundThreads }
{}

/// A lookaround is decided without a search if its contents are known to fail or, if it is
/// negative, known to find an end.
/// Statement: `specs/LookaroundsWithSharedMemo`.
pub fn known_results_decide_lookarounds()
    ensures { laws.KnownResultsDecideLookarounds }
{}

/// The search of a lookaround's contents without groups does not change the groups.
/// Statement: `specs/GroupPreservingInsns`.
pub fn insns_keep_groups_to_end()
    ensures { laws.InsnsKeepGroupsToEnd }
{}

/// The threads that a greedy char loop leaves begin with those that it leaves from any later
/// position that it reaches.
/// Statement: `specs/CharLoopExitThreadLists`.
pub fn greedy_threads_split()
    ensures { laws.GreedyThreadsSplit }
{}

/// A lazy char loop continues at its nearest position. The threads that wait from a position on are
/// the thread at this position and the threads that wait from the next position on.
/// Statement: `specs/CharLoopExitThreadLists`.
pub fn lazy_char_loop_threads_unfold()
    ensures { laws.LazyCharLoopThreadsUnfold }
{}

/// The loop, a position and the code of the state there determine the threads that a char loop
/// without a maximum leaves from this position. So they have a key: a greedy loop while its
/// furthest position is current, and a lazy loop while all its positions wait.
/// Statement: `specs/UnboundedCharLoopMemoKeys`.
pub fn char_loops_have_keys()
    ensures { laws.CharLoopsHaveKeys }
{}

/// The threads that a char loop leaves, if its maximum is out of reach.
/// Statement: `specs/CharLoopExitThreadLists`.
pub fn char_loop_yields_exits()
    ensures { laws.CharLoopYieldsExits }
{}

/// In searches for successive matches, each position is tried at most twice. The numbers of looks,
/// the potentials and the work are linear in the number of positions and in the cost of all keys.
/// Statement: `specs/SuccessiveMatches`.
pub fn total_work_is_bounded()
    ensures { laws.TotalWorkIsBounded }
{}

/// If a lookaround's contents have no groups and are known to find an end, the state before them
/// agrees with the state that continues. Threads that agree with those of the machine do so after
/// all steps, and have the same keys.
/// Statement: `specs/SkippedLookarounds`.
pub fn threads_stay_equivalent()
    ensures { laws.ThreadsStayEquivalent }
{}

/// The steps of char loops without a maximum, with their keys. A greedy loop has a record of each
/// position up to one from which it is known to fail. A lazy loop is resumed with a record of the
/// positions that wait.
/// Statement: `specs/UnboundedCharLoops`.
pub fn unbounded_char_loops_are_memo_steps()
    ensures { laws.UnboundedCharLoopsAreMemoSteps }
{}

/// What a checked plan guarantees: its keys decide failure, the steps of its threads are memo
/// steps, and the work of all attempts in a text is linear in its length.
/// Statement: `specs/MemoPlanChecksAndGuarantees`.
pub fn checked_memo_plans_are_sound()
    ensures { laws.CheckedMemoPlansAreSound }
{}

/// If a table of potentials and costs passes a check at each instruction, it covers the steps of
/// threads and of char loops.
/// Statement: `specs/AmortizedStepCosts`.
pub fn step_costs_are_covered()
    ensures { laws.StepCostsAreCovered }
{}

/// The number of steps below the records of a plan is as the laws on threads and char loops
/// require.
/// Statement: `specs/MemoPlanChecksAndGuarantees`.
pub fn zero_or_one_step_below_record()
    ensures { laws.ZeroOrOneStepBelowRecord }
{}

/// The costs of successive steps that are executed at once are covered together. The debts for
/// omitted records add up, and a record below them may cover the sum.
/// Statement: `specs/FusedStepCosts`.
pub fn fused_costs_are_covered()
    ensures { laws.FusedCostsAreCovered }
{}

/// A list of threads finds an end if a part of it finds one. A char loop without a maximum finds an
/// end if it finds one from one of its positions.
/// Statement: `specs/SuccessOfThreadLists`.
pub fn thread_lists_succeed_if_part_does()
    ensures { laws.ThreadListsSucceedIfPartDoes }
{}

/// If a record is reached, its key fails.
/// Statement: `specs/SuccessOfThreadLists`.
pub fn key_fails_when_record_reached()
    ensures { laws.KeyFailsWhenRecordReached }
{}

/// What a step has to satisfy so that the search finds the right result. Such a step keeps the
/// invariant, whatever the offsets of the threads are.
/// Statement: `specs/StepSoundness`.
pub fn steps_are_sound()
    ensures { laws.StepsAreSound }
{}

/// What a memoized search finds, however often keys are looked up. The entries find the result, and
/// each step preserves this. If a record is reached, its key fails. If the first threads find an
/// end, the threads of all records below find one.
/// Statement: `specs/MemoSearchSoundness`.
pub fn searches_stay_sound()
    ensures { laws.SearchesStaySound }
{}

/// The potential of an instruction that does not record is passed on to one that records. So the
/// costs of recording instructions are linear in the program: each instruction contributes an
/// amount of its own, and each edge contributes 1 and an amount of its target.
/// Statement: `specs/TotalCostsOfRecordingInsns`.
pub fn recording_costs_are_linear()
    ensures { laws.RecordingCostsAreLinear }
{}

/// A budget per offset that suffices for all searches of a text: the initial allowance plus one
/// unit, plus three times the sum of the potential of an attempt and the costs of the keys at one
/// offset.
/// Statement: `specs/DelayedMemoizationWorkBudget`.
pub fn work_budgets_suffice()
    ensures { laws.WorkBudgetsSuffice }
{}

/// The checks at each instruction also cover the steps of char loops with a maximum, and the steps
/// of threads that are known to fail.
/// Statement: `specs/CappedCharLoops`.
pub fn bounded_loop_costs_are_covered()
    ensures { laws.BoundedLoopCostsAreCovered }
{}

/// The steps of all char loops are memo steps.
/// Statement: `specs/CappedCharLoops`.
pub fn char_loop_scans_are_memo_steps()
    ensures { laws.CharLoopScansAreMemoSteps }
{}

/// The costs of the keys that the search of a lookaround's contents learns, plus the potential of
/// the lookaround, cover this search.
/// Statement: `specs/CappedCharLoops`.
pub fn lookaround_costs_are_covered()
    ensures { laws.LookaroundCostsAreCovered }
{}

/// A step from a state that has as many groups and loops as the program leaves such states.
/// Statement: `specs/PreservedSlotCounts`.
pub fn states_keep_slots()
    ensures { laws.StatesKeepSlots }
{}
