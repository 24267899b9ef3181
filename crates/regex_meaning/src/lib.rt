//! The meaning of patterns: the definitions that contracts cite, and proofs of their laws.
#![tactic(auto)]

ghost use Rattle.regex_meaning.specs.Laws.{CountingTicksKeepsOutcomes, LoopRepetitionUnfolds, OutcomesEndAheadOfPlace, OutcomesKeepNumberOfGroups, OutcomesStayInText, FirstMatchUnfolds};
ghost use Rattle.regex_meaning.specs.Laws.{MatchListUnfolds, NeededStepsUnfoldMatchByMatch, PlacesCorrespondToBoundaries, EncodedTextsHaveRisingOffsets};
ghost use Rattle.regex_meaning.specs.Laws.{Utf16BoundariesCutNoPair, SameMatchesInUtf8AndUtf16, AsciiAndUtf8AnswersAgree, AnswersFromOffsetUnfold, NextStartIsAhead, FirstAnswerLiesOnBoundaries};
ghost use Rattle.regex_meaning.specs.Laws.{MatchAtIsFirstAnswerIfThere, NamedGroupAgreesWithNamedGroups};
ghost use Rattle.regex_meaning.specs.Laws.{AnswersAreWellFormed, AnswersAreOrderedWithoutOverlap, AnswerCountIsBounded, ResumingAfterNonemptyMatchYieldsRest};
ghost use Rattle.regex_meaning.specs.Laws.{ReplacingMatchesByThemselvesChangesNothing, FlagsRoundTripExceptNoOpt, EscapeIsInjective, StartPredicateIsSound};
ghost use Rattle.regex_meaning.specs.CaseLaws.{AlikeWithoutUnicodeIsAlikeWithUnicode, OnlyTwoCharactersFoldIntoAscii, ProfileFoldsTableAsUnicodeDoes, WordCharacterIffAsciiWordFold};
ghost use Rattle.regex_meaning.specs.CaseLaws.{EachCharacterHasCaseVariants, CaseVariantsAreFew};
ghost use Rattle.regex_meaning.specs.GrammarLaws.{ScanFindsOpenedGroupNames, PatternHasAtMostOneTree, ExampleIsParsed, EscapedUtf8ParsesAsLiteral, EscapedTextParsesAsLiteral, ScanCountsPatternGroups};
ghost use Rattle.regex_meaning.specs.GrammarLaws.{ScanFindsGroupNames, TreesAreWellFormed};
ghost use Rattle.regex_meaning.specs.EcmaGrammarLaws.{EcmaScriptGroupsAreFound, EcmaScriptGroupsIndependentOfContext, EcmaScriptPatternHasAtMostOneTree, EcmaScriptTreesAreWellFormed};
ghost use Rattle.regex_meaning.specs.EcmaGrammarLaws.{EcmaScriptGroupsAgreeWithScan, EcmaScriptClassesAreClosed};

/// The list of ticks and outcomes of a node contains exactly its outcomes, in order.
/// Statement: `specs/Laws`.
pub fn counting_ticks_keeps_outcomes()
    ensures { CountingTicksKeepsOutcomes }
{}

/// A loop's outcomes are those of one iteration followed by the rest of the loop.
/// Statement: `specs/Laws`.
pub fn loop_repetition_unfolds()
    ensures { LoopRepetitionUnfolds }
{}

/// No outcome ends on the wrong side of the place where matching began.
/// Statement: `specs/Laws`.
pub fn outcomes_end_ahead_of_place()
    ensures { OutcomesEndAheadOfPlace }
{}

/// Unit boundaries are the boundaries of a UTF-16 text, which cut no surrogate pair.
/// Statement: `specs/Laws`.
pub fn utf16_boundaries_cut_no_pair()
    ensures { Utf16BoundariesCutNoPair }
{}

/// Every outcome has as many groups as there were before.
/// Statement: `specs/Laws`.
pub fn outcomes_keep_number_of_groups()
    ensures { OutcomesKeepNumberOfGroups }
{}

/// Outcomes and their groups stay within the text.
/// Statement: `specs/Laws`.
pub fn outcomes_stay_in_text()
    ensures { OutcomesStayInText }
{}

/// The list of matches is the first match, followed by the matches from the place where the list
/// continues.
/// Statement: `specs/Laws`.
pub fn match_list_unfolds()
    ensures { MatchListUnfolds }
{}

/// The first match begins at the place itself, or else is the first match from the next place.
/// Statement: `specs/Laws`.
pub fn first_match_unfolds()
    ensures { FirstMatchUnfolds }
{}

/// Places and their offsets correspond one to one, in the same order.
/// Statement: `specs/Laws`.
pub fn places_correspond_to_boundaries()
    ensures { PlacesCorrespondToBoundaries }
{}

/// The texts of the four encodings satisfy `HasRisingPlaceOffsets`.
/// Statement: `specs/Laws`.
pub fn encoded_texts_have_rising_offsets()
    ensures { EncodedTextsHaveRisingOffsets }
{}

/// The list of answers is the first answer, followed by the answers from the next start on.
/// Statement: `specs/Laws`.
pub fn answers_from_offset_unfold()
    ensures { AnswersFromOffsetUnfold }
{}

/// The next start is a boundary after the current start.
/// Statement: `specs/Laws`.
pub fn next_start_is_ahead()
    ensures { NextStartIsAhead }
{}

/// The first answer is a range of whole characters and does not begin before the start.
/// Statement: `specs/Laws`.
pub fn first_answer_lies_on_boundaries()
    ensures { FirstAnswerLiesOnBoundaries }
{}

/// The match at an offset is the first answer from there, if that answer begins there.
/// Statement: `specs/Laws`.
pub fn match_at_is_first_answer_if_there()
    ensures { MatchAtIsFirstAnswerIfThere }
{}

/// Each range of an answer consists of whole characters, and an answer has an entry for each
/// group.
/// Statement: `specs/Laws`.
pub fn answers_are_well_formed()
    ensures { AnswersAreWellFormed }
{}

/// The starts of answers increase, and no two answers overlap.
/// Statement: `specs/Laws`.
pub fn answers_are_ordered_without_overlap()
    ensures { AnswersAreOrderedWithoutOverlap }
{}

/// There is at most one answer more than there are characters.
/// Statement: `specs/Laws`.
pub fn answer_count_is_bounded()
    ensures { AnswerCountIsBounded }
{}

/// A search from the end of a nonempty match yields the rest of the list.
/// Statement: `specs/Laws`.
pub fn resuming_after_nonempty_match_yields_rest()
    ensures { ResumingAfterNonemptyMatchYieldsRest }
{}

/// The list of needs continues from match to match.
/// Statement: `specs/Laws`.
pub fn needed_steps_unfold_match_by_match()
    ensures { NeededStepsUnfoldMatchByMatch }
{}

/// Looking up one name gives the range that the list of all names has for it.
/// Statement: `specs/Laws`.
pub fn named_group_agrees_with_named_groups()
    ensures { NamedGroupAgreesWithNamedGroups }
{}

/// A text has its matches at the same places in UTF-8 and in UTF-16.
/// Statement: `specs/Laws`.
pub fn same_matches_in_utf8_and_utf16()
    ensures { SameMatchesInUtf8AndUtf16 }
{}

/// An ASCII text has the same answers when read as ASCII and as UTF-8.
/// Statement: `specs/Laws`.
pub fn ascii_and_utf8_answers_agree()
    ensures { AsciiAndUtf8AnswersAgree }
{}

/// Replacing each match by itself gives the original text.
/// Statement: `specs/Laws`.
pub fn replacing_matches_by_themselves_changes_nothing()
    ensures { ReplacingMatchesByThemselvesChangesNothing }
{}

/// Parsing displayed flags gives the same flags, with `no_opt` cleared.
/// Statement: `specs/Laws`.
pub fn flags_round_trip_except_no_opt()
    ensures { FlagsRoundTripExceptNoOpt }
{}

/// Different texts have different escaped texts.
/// Statement: `specs/Laws`.
pub fn escape_is_injective()
    ensures { EscapeIsInjective }
{}

/// The start predicate of a well-formed tree is sound.
/// Statement: `specs/Laws`.
pub fn start_predicate_is_sound()
    ensures { StartPredicateIsSound }
{}

/// Two characters that match each other without `u` match each other with it.
/// Statement: `specs/CaseLaws`.
pub fn alike_without_unicode_is_alike_with_unicode()
    ensures { AlikeWithoutUnicodeIsAlikeWithUnicode }
{}

/// The only characters beyond ASCII that fold into ASCII are U+017F and U+212A, and only with `u`.
/// Statement: `specs/CaseLaws`.
pub fn only_two_characters_fold_into_ascii()
    ensures { OnlyTwoCharactersFoldIntoAscii }
{}

/// The characters of the profile's table fold as in all of Unicode.
/// Statement: `specs/CaseLaws`.
pub fn profile_folds_table_as_unicode_does()
    ensures { ProfileFoldsTableAsUnicodeDoes }
{}

/// A character is a word character if and only if its canonical form is one of the 63 word
/// characters of ASCII.
/// Statement: `specs/CaseLaws`.
pub fn word_character_iff_ascii_word_fold()
    ensures { WordCharacterIffAsciiWordFold }
{}

/// Each character has a list of case variants.
/// Statement: `specs/CaseLaws`.
pub fn each_character_has_case_variants()
    ensures { EachCharacterHasCaseVariants }
{}

/// A character has at most four case variants.
/// Statement: `specs/CaseLaws`.
pub fn case_variants_are_few()
    ensures { CaseVariantsAreFew }
{}

/// The pattern `a|ab` has its tree.
/// Statement: `specs/GrammarLaws`.
pub fn example_is_parsed()
    ensures { ExampleIsParsed }
{}

/// A pattern has at most one tree.
/// Statement: `specs/GrammarLaws`.
pub fn pattern_has_at_most_one_tree()
    ensures { PatternHasAtMostOneTree }
{}

/// A scan of the text finds the names of a pattern's groups without parsing it.
/// Statement: `specs/GrammarLaws`.
pub fn scan_finds_opened_group_names()
    ensures { ScanFindsOpenedGroupNames }
{}

/// A scan of the text counts the groups of a pattern, and the group ids are the numbers from 0 on.
/// Statement: `specs/GrammarLaws`.
pub fn scan_counts_pattern_groups()
    ensures { ScanCountsPatternGroups }
{}

/// The tree of a pattern is well formed.
/// Statement: `specs/GrammarLaws`.
pub fn trees_are_well_formed()
    ensures { TreesAreWellFormed }
{}

/// An escaped text is a pattern whose tree is the sequence of its characters.
/// Statement: `specs/GrammarLaws`.
pub fn escaped_text_parses_as_literal()
    ensures { EscapedTextParsesAsLiteral }
{}

/// The names of a tree's groups are those that a scan of the text finds.
/// Statement: `specs/GrammarLaws`.
pub fn scan_finds_group_names()
    ensures { ScanFindsGroupNames }
{}

/// A UTF-8 text whose bytes were escaped is a pattern whose tree is the sequence of its characters.
/// Statement: `specs/GrammarLaws`.
pub fn escaped_utf8_parses_as_literal()
    ensures { EscapedUtf8ParsesAsLiteral }
{}

/// A scan of the text finds the parentheses that open the groups of a pattern of the whole language
/// of ECMAScript.
/// Statement: `specs/EcmaGrammarLaws`.
pub fn ecmascript_groups_are_found()
    ensures { EcmaScriptGroupsAreFound }
{}

/// The groups of a pattern of the whole language do not depend on the context in which it is read:
/// neither on its flags nor on the assumed groups.
/// Statement: `specs/EcmaGrammarLaws`.
pub fn ecmascript_groups_independent_of_context()
    ensures { EcmaScriptGroupsIndependentOfContext }
{}

/// A pattern of the whole language has at most one tree.
/// Statement: `specs/EcmaGrammarLaws`.
pub fn ecmascript_pattern_has_at_most_one_tree()
    ensures { EcmaScriptPatternHasAtMostOneTree }
{}

/// The tree of a pattern of the whole language is well formed.
/// Statement: `specs/EcmaGrammarLaws`.
pub fn ecmascript_trees_are_well_formed()
    ensures { EcmaScriptTreesAreWellFormed }
{}

/// The groups of a tree of the whole language are numbered from 0 and have the names that a scan of
/// the text finds.
/// Statement: `specs/EcmaGrammarLaws`.
pub fn ecmascript_groups_agree_with_scan()
    ensures { EcmaScriptGroupsAgreeWithScan }
{}

/// A character that matches a digit, a space or a word character is itself one, even if case is
/// ignored.
/// Statement: `specs/EcmaGrammarLaws`.
pub fn ecmascript_classes_are_closed()
    ensures { EcmaScriptClassesAreClosed }
{}
