//! Laws of memo tables.

ghost use Rattle.regress_memo.specs.{Laws.{RecordingAddsKnownKeys, MemosAreSound, KeysAreThoseWithBits}, AmortizedMemoSearchSteps.{WorkIsCoveredByKeyCosts}};

/// The contents of a memo table are a list of keys, and recording a key adds it to that list.
/// Statement: `specs/Laws`.
pub fn recording_adds_known_keys()
    ensures { RecordingAddsKnownKeys }
{}

/// If only true facts are recorded, all that a memo table knows is true. Then its list of keys is a
/// right memory in the sense of `MemoSearch`.
/// Statement: `specs/Laws`.
pub fn memos_are_sound()
    ensures { MemosAreSound }
{}

/// Each memo key has a bit, and the keys that have bits are exactly those that may be memoized. A
/// thread at a recording instruction has such a key.
/// Statement: `specs/Laws`.
pub fn keys_are_those_with_bits()
    ensures { KeysAreThoseWithBits }
{}

/// If the memo analysis is bounded, each thread of a search has a key at recording instructions.
/// The cost of each step, each backtrack and each record that is reached is covered.
/// Statement: `specs/AmortizedMemoSearchSteps`.
pub fn work_is_covered_by_key_costs()
    ensures { WorkIsCoveredByKeyCosts }
{}
