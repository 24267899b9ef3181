//! The abstract machine that runs compiled programs, its correctness theorem, and simulation
//! relations between its threads.
//!
//! Proofs of executors refer to this machine. The theorem says that the program of a well-formed
//! tree, run from a place of a text (a number of characters from the left), ends with the tree's
//! outcome of highest priority there. It takes as many steps as the tree's list has ticks up to
//! that outcome.
#![tactic(auto)]

ghost use Rattle.regress_machine.specs.TextsForBytePrograms.{ByteTextsHaveUtf8Offsets};
ghost use Rattle.regress_machine.specs.SearchFindsFirstOutcomeAtPlace.{SearchesFindFirstOutcome, SearchResultIsMatchAtPlace, TicksAreSteps};
ghost use Rattle.regress_machine.specs.{FailingInsnsAtOffset.{InsnsExcludedAtOffsetFindNothing}, LoopsReadingNothing.{LastRequiredEmptyIterationReplacesOthers}};
ghost use Rattle.regress_machine.specs.RequiredPrefixes.{RequiredPrefixesExclude};
ghost use Rattle.regress_machine.specs.ThreadSimulation.{DroppingDeadThreadsKeepsEnd, SimulatingThreadsFindSameEnd};
ghost use Rattle.regress_machine.specs.MatchStartsExcludedByFirstSet.{FirstSetExcludesMatchStarts};
ghost use Rattle.regress_machine.specs.FirstSetTables.{StatesExcludedByTablesFindNothing};

/// A search of a tree's program from a place takes one step for each tick of the tree's list up to
/// the first outcome. It ends with that outcome, or with none if the list has none.
/// Statement: `specs/SearchFindsFirstOutcomeAtPlace`.
pub fn searches_find_first_outcome()
    ensures { SearchesFindFirstOutcome }
{}

/// A search of a tree's program from a place ends with the match there, or with none if there is
/// none.
/// Statement: `specs/SearchFindsFirstOutcomeAtPlace`.
pub fn search_result_is_match_at_place()
    ensures { SearchResultIsMatchAtPlace }
{}

/// The ticks of places that are tried one after another are the steps of a search from the first
/// one and, if it fails, the ticks of the others.
/// Statement: `specs/SearchFindsFirstOutcomeAtPlace`.
pub fn ticks_are_steps()
    ensures { TicksAreSteps }
{}

/// Byte programs can run on texts of UTF-8 bytes and on texts of ASCII bytes.
/// Statement: `specs/TextsForBytePrograms`.
pub fn byte_texts_have_utf8_offsets()
    ensures { ByteTextsHaveUtf8Offsets }
{}

/// Threads that simulate those of a search find the same end, in no more steps. If steps are
/// counted, the steps of both searches differ by exactly the number of steps that were spent.
/// Statement: `specs/ThreadSimulation`.
pub fn simulating_threads_find_same_end()
    ensures { SimulatingThreadsFindSameEnd }
{}

/// A thread that finds nothing may be dropped from a list of threads without changing the end.
/// Statement: `specs/ThreadSimulation`.
pub fn dropping_dead_threads_keeps_end()
    ensures { DroppingDeadThreadsKeepsEnd }
{}

/// A thread finds nothing if its instruction is outside a closed set of instructions that may find
/// something.
/// Statement: `specs/FailingInsnsAtOffset`.
pub fn insns_excluded_at_offset_find_nothing()
    ensures { InsnsExcludedAtOffsetFindNothing }
{}

/// A thread finds nothing if the table of its instruction excludes the code unit at its offset, or
/// the end of the text. The tables only have to pass a check for each instruction.
/// Statement: `specs/FirstSetTables`.
pub fn states_excluded_by_tables_find_nothing()
    ensures { StatesExcludedByTablesFindNothing }
{}

/// No match begins where the table of the first instruction excludes the code unit or the end.
/// Statement: `specs/MatchStartsExcludedByFirstSet`.
pub fn first_set_excludes_match_starts()
    ensures { FirstSetExcludesMatchStarts }
{}

/// If the body of a loop reads nothing, the last required iteration may replace any required one.
/// Statement: `specs/LoopsReadingNothing`.
pub fn last_required_empty_iteration_replaces_others()
    ensures { LastRequiredEmptyIterationReplacesOthers }
{}

/// No match begins where one of the next code units is not allowed by the required prefix.
/// Statement: `specs/RequiredPrefixes`.
pub fn required_prefixes_exclude()
    ensures { RequiredPrefixesExclude }
{}
