//! Laws of searches of lookarounds' contents with the memo table.

ghost use Rattle.regress_memo.specs.ContentsApart.{StepsStayOnSide, KeysOfContentsAreNotPending};
ghost use Rattle.regress_memo.specs.ContentsWithMemo.{PartsOfSearchesAreCovered, SearchesOfContentsComeOn};
ghost use Rattle.regress_memo.specs.ContentsWithMemo.{LookaroundsThatRecordAreCovered, SilentLookaroundsAreCovered};

/// If the contents of a lookaround are apart, steps stay inside them, or outside of them.
/// Statement: `specs/ContentsApart`.
pub fn steps_stay_on_side()
    ensures { StepsStayOnSide }
{}

/// If the contents of each lookaround are apart, the keys that the search of contents learns, and
/// those of its records, are not pending in the search around it.
/// Statement: `specs/ContentsApart`.
pub fn keys_of_contents_are_not_pending()
    ensures { KeysOfContentsAreNotPending }
{}

/// The work of a part of a search is covered by the potential of the entries with which it begins,
/// and by the costs of the keys that are recorded or become known in it.
/// Statement: `specs/ContentsWithMemo`.
pub fn parts_of_searches_are_covered()
    ensures { PartsOfSearchesAreCovered }
{}

/// The search of a lookaround's contents may begin with the keys that are known in the search around
/// it. Its invariant holds. If it finds an end, the keys of its pending records succeed.
/// Statement: `specs/ContentsWithMemo`.
pub fn searches_of_contents_come_on()
    ensures { SearchesOfContentsComeOn }
{}

/// If contents are searched with the memo table, the potential of the lookaround and the costs of
/// the keys of the contents cover this search and the step of the lookaround.
/// Statement: `specs/ContentsWithMemo`.
pub fn lookarounds_that_record_are_covered()
    ensures { LookaroundsThatRecordAreCovered }
{}

/// If contents record nothing, they may be searched without the memo table. The potential of the
/// lookaround covers each step of this search.
/// Statement: `specs/ContentsWithMemo`.
pub fn silent_lookarounds_are_covered()
    ensures { SilentLookaroundsAreCovered }
{}
