//! The state of a search: slots, an undo log of their former values, and choice points.

ghost use Rattle.std.specs.Prelude.{◌≡◌, ◌≢◌, ◌<◌, ◌≤◌, ◌+◌, ◌-◌, ◌^◌, ◌++◌, ℕ, [], ◌∷◌, length, take, drop, map, slice_get, slice_set, Some, true, false, IsTrue, OnOk, OnErr, IfOk};
ghost use Rattle.regress_backtrack.specs.State.{StateModel, undone, IsStateInvariant, initial_slot as spec_initial_slot, logical_slot_value, logical_undo_entry, SlotsAreUnsetAndUnlogged};
ghost use Rattle.regress_backtrack.specs.State.{undo_entry_logged_for_slot, are_slot_numbers_below, ChangesFromNumberAreUndone, LogIsCompacted, SetsSlotUndoably, ChangesStateUndoably};
ghost use Rattle.regress_backtrack.specs.State.{with_group_open};
ghost use Rattle.regress_backtrack.specs.State.{log_len_at_choice_point as spec_log_len_at_choice_point, initial_state, current_thread_state_of, loop_data_in_slot, with_choice_point_list};
ghost use Rattle.regress_backtrack.specs.State.{state_with_group_unset, with_group_range, with_loop_iteration};
ghost use Rattle.regress_backtrack.specs.UndoLog.{HasLogRoomOrIsLogged, IsLoggedOnce, ChangesAreCompacted};
ghost use Rattle.std.specs.List.{All};

use crate::lookaround_frames::LookaroundFrame;
use std::alloc::{AllocError, Global};
use std::marker::Model;
use std::mem;

/// The state of a group or a loop. For a group, it is the offset at which it was last opened, and
/// its range if it has one. For a loop, it is the offset at which the current iteration began, and
/// `from` is the number of finished iterations.
#[derive(Clone, Copy)]
pub struct GroupOrLoopState {
    pub at: usize,
    pub from: usize,
    pub to: usize,
    /// The number of the slot's last entry in the undo log, counted from 1, modulo 2^32. It is 0 if
    /// there is no entry.
    pub noted: u32,
    pub has_range: bool,
    /// Whether the search has set the slot.
    pub is_set: bool,
}

/// An entry of the undo log: the value of a slot before a change. `old` comes before `slot`, so
/// that the slot's value is copied to the log as it is.
#[derive(Clone, Copy)]
pub struct UndoEntry {
    pub old: GroupOrLoopState,
    pub slot: usize,
}

/// The kind of a choice point: which offsets it represents.
#[derive(Clone, Copy, PartialEq, Eq)]
pub enum ChoicePointKind {
    /// Only the offset `next`.
    One,
    /// Only the offset `next`, for the alternation arms from number `last` on.
    Arms,
    /// The boundaries from `next` to `last`, in this order.
    Greedy,
    /// The offset `next` and up to `last` offsets after it. Each is one character further in the
    /// lazy loop before the instruction.
    Lazy,
    /// A record, which represents no offset. Once nothing is left above it, the entry for offset
    /// `next` and key code `last` has failed.
    Record,
}

/// A choice point: an instruction, the offsets at which to continue, and the length of the undo log
/// when it was pushed.
#[derive(Clone, Copy)]
pub struct ChoicePoint {
    pub ip: u32,
    pub kind: ChoicePointKind,
    pub next: usize,
    pub last: usize,
    pub log: usize,
}

/// The slots, the undo log and the choice points. Contracts see them as lists. The undo log and the
/// choice points are the first `log_len` and `choice_point_len` elements of their vectors, which
/// only grow. A slot that is not set has its initial value, so slots need not be written before
/// each search.
#[derive(Drop)]
pub struct BacktrackState {
    groups: usize,
    // The offset at which the search began.
    begun: usize,
    slots: Vec<GroupOrLoopState>,
    log: Vec<UndoEntry>,
    log_len: usize,
    // This many changes are logged even if their slots were logged before.
    free: usize,
    choice_points: Vec<ChoicePoint>,
    choice_point_len: usize,
    // The storage for the frames of lookarounds. It is kept from one attempt to the next.
    frames: Vec<LookaroundFrame>,
}

impl Model for BacktrackState {
    ghost Value = { StateModel };

    ghost view = { λ m. record {
      groups = m.groups;
      slots = map (logical_slot_value m.begun) m.slots.items;
      log = map (logical_undo_entry m.begun) (take m.log_len m.log.items);
      choice_points = take m.choice_point_len m.choice_points.items;
    } };

    ghost invariant = { λ m. IsStateInvariant m.groups m.slots.items m.log_len m.free m.log.items
        m.choice_point_len m.choice_points.items };
}

// Fills elements of a vector that are not yet used. Extending the vector with the value to be
// stored would require that value in memory, even if there is room.
const SLOT_PLACEHOLDER: GroupOrLoopState = GroupOrLoopState {
    at: 0,
    from: 0,
    to: 0,
    noted: 0,
    has_range: false,
    is_set: false,
};

const UNDO_ENTRY_PLACEHOLDER: UndoEntry = UndoEntry {
    slot: 0,
    old: SLOT_PLACEHOLDER,
};

// This many changes are logged without a check whether their slots were logged before. Most
// searches make fewer changes. The duplicate entries never take more memory than this.
const UNCHECKED_ENTRIES: usize = 4096;

const CHOICE_POINT_PLACEHOLDER: ChoicePoint = ChoicePoint {
    ip: 0,
    kind: ChoicePointKind::One,
    next: 0,
    last: 0,
    log: 0,
};

// The approximate maximum number of elements by which a vector becomes longer at a time. Its
// allocation still doubles, but memory pages that are not written are not used.
const MAX_VEC_GROWTH: usize = 4096;

// Makes a vector longer.
#[cold]
#[inline(never)]
fn extend_with_copies<T: Copy + Drop>(row: &mut Vec<T>, value: T) -> Result<(), AllocError>
    ensures longer { OnOk result (length row.old.items < length row.new.items) }
    ensures kept { OnOk result (take (length row.old.items) row.new.items ≡ row.old.items) }
    ensures refused { OnErr result (row.new.items ≡ row.old.items) }
{
    let len = row.len();
    if len < 0x4000_0000_0000_0000 {
        row.resize(len + smaller_of(len, MAX_VEC_GROWTH) + 8, value)
    } else {
        row.push(value)?;
        Ok(())
    }
}

// Returns the length of the undo log when the last choice point was pushed. Returns 0 if there is
// none.
#[inline(always)]
fn log_len_at_choice_point(choice_points: &[ChoicePoint]) -> usize
    ensures { result ≡ spec_log_len_at_choice_point choice_points.now }
{
    if choice_points.len() == 0 {
        0
    } else {
        choice_points[choice_points.len() - 1].log
    }
}

// Makes room for one more entry in a log with `used` entries. Returns whether the change has to be
// logged. It need not be if the slot's last entry, `noted`, was made after the last choice point.
// The first `free` changes are always logged.
// Contract: `room` says what the result means. `kept` says that the entries that are used stay as
// they are. `used` and `free` say that both numbers stay within the log.
#[inline(always)]
fn reserve(
    log: &mut Vec<UndoEntry>,
    free: &mut usize,
    used: usize,
    choice_points: &[ChoicePoint],
    noted: u32,
) -> Result<bool, AllocError>
    requires used { used ≤ length log.old.items }
    requires free { free.old ≤ length log.old.items }
    ensures room { IfOk result (HasLogRoomOrIsLogged used (spec_log_len_at_choice_point choice_points.now) noted
        log.new.items) }
    ensures kept { take used log.new.items ≡ take used log.old.items }
    ensures used { used ≤ length log.new.items }
    ensures free { free.new ≤ length log.new.items }
{
    if used < *free {
        return Ok(true);
    }
    if log_len_at_choice_point(choice_points) < noted as usize {
        return Ok(false);
    }
    make_room_in_log(log, free, used)?;
    Ok(true)
}

// Makes room for one more entry, and updates `free`.
// Contract: `room` and `kept` say that there is room after the entries that are used, which stay as
// they are. `used` and `free` say that both numbers stay within the log.
#[inline(never)]
fn make_room_in_log(
    log: &mut Vec<UndoEntry>,
    free: &mut usize,
    used: usize,
) -> Result<(), AllocError>
    requires used { used ≤ length log.old.items }
    requires free { free.old ≤ length log.old.items }
    ensures room { OnOk result (used < length log.new.items) }
    ensures kept { take used log.new.items ≡ take used log.old.items }
    ensures used { used ≤ length log.new.items }
    ensures free { free.new ≤ length log.new.items }
{
    grow_log_if_full(log, used)?;
    *free = smaller_of(log.len(), UNCHECKED_ENTRIES);
    Ok(())
}

// Makes a log longer if all of its elements are in use.
#[inline(always)]
fn grow_log_if_full(log: &mut Vec<UndoEntry>, used: usize) -> Result<(), AllocError>
    requires { used ≤ length log.old.items }
    ensures room { OnOk result (used < length log.new.items) }
    ensures kept { OnOk result (take used log.new.items ≡ take used log.old.items) }
    ensures longer { length log.old.items ≤ length log.new.items }
    ensures refused { OnErr result (log.new.items ≡ log.old.items) }
{
    if used < log.len() {
        return Ok(());
    }
    extend_with_copies(log, UNDO_ENTRY_PLACEHOLDER)
}

// Returns the smaller of two numbers. Proofs need only that it is at most the first.
#[inline(always)]
fn smaller_of(number: usize, most: usize) -> usize
    ensures { result ≤ number }
{
    if number < most { number } else { most }
}

// Returns the number under which a slot is logged that is about to be set. Appends an entry to the
// log, unless the slot was logged after the last choice point and no free entry is left.
// Contract: `noted` says which number is returned and what is logged. `refused` says that the log
// is the same after an allocation failure. The other clauses say that the numbers are within the
// log and the slots.
#[inline(always)]
fn log_change(
    log: &mut Vec<UndoEntry>,
    log_len: &mut usize,
    free: &mut usize,
    choice_points: &[ChoicePoint],
    slots: &[GroupOrLoopState],
    slot: usize,
) -> Result<u32, AllocError>
    requires log_len { log_len.old ≤ length log.old.items }
    requires free { free.old ≤ length log.old.items }
    requires slot { slot < length slots.now }
    ensures noted { IfOk result (IsLoggedOnce (undo_entry_logged_for_slot slots.now slot)
        (spec_log_len_at_choice_point choice_points.now) log_len.old log.old.items log_len.new log.new.items) }
    ensures refused { OnErr result ((log_len.new ≡ log_len.old)
        × (take log_len.old log.new.items ≡ take log_len.old log.old.items)) }
    ensures log_len { log_len.new ≤ length log.new.items }
    ensures free { free.new ≤ length log.new.items }
{
    let used = *log_len;
    let noted = slots[slot].noted;
    if !reserve(log, free, used, choice_points, noted)? {
        return Ok(noted);
    }
    log[used] = UndoEntry {
        slot,
        old: slots[slot],
    };
    *log_len = used + 1;
    Ok(((used + 1) % 0x1_0000_0000) as u32)
}

// Makes the number of slots equal to `count`.
#[inline(always)]
fn set_slot_count(slots: &mut Vec<GroupOrLoopState>, count: usize) -> Result<(), AllocError>
    ensures made { OnOk result (length slots.new.items ≡ count) }
    ensures fresh { SlotsAreUnsetAndUnlogged slots.old.items → SlotsAreUnsetAndUnlogged slots.new.items }
    ensures refused { OnErr result (length slots.new.items ≢ count) }
    ensures short { OnErr result (length slots.old.items < count) }
{
    if slots.len() == count {
        return Ok(());
    }
    change_slot_count(slots, count)
}

// Changes the number of slots to `count`, which is another number than before.
#[cold]
#[inline(never)]
fn change_slot_count(slots: &mut Vec<GroupOrLoopState>, count: usize) -> Result<(), AllocError>
    ensures made { OnOk result (length slots.new.items ≡ count) }
    ensures fresh { SlotsAreUnsetAndUnlogged slots.old.items → SlotsAreUnsetAndUnlogged slots.new.items }
    ensures refused { OnErr result (slots.new.items ≡ slots.old.items) }
    ensures short { OnErr result (length slots.old.items < count) }
{
    if slots.len() >= count {
        slots.truncate(count);
        return Ok(());
    }
    slots.resize(count, SLOT_PLACEHOLDER)
}

// Returns the initial value of a slot, in a search from an offset.
#[inline(always)]
fn initial_slot(at: usize) -> GroupOrLoopState
    ensures { result ≡ spec_initial_slot at }
{
    GroupOrLoopState {
        at,
        ..SLOT_PLACEHOLDER
    }
}

// Resets all slots to their initial values.
#[cold]
#[inline(never)]
fn reset_all_slots(slots: &mut Vec<GroupOrLoopState>)
    ensures fresh { SlotsAreUnsetAndUnlogged slots.new.items }
    ensures length { length slots.new.items ≡ length slots.old.items }
{
    for id in 0..slots.len() {
        slots[id] = SLOT_PLACEHOLDER;
    }
}

// Drops changes after the first `from` whose slots were logged after the first `from` before.
// Returns the number of changes that are left, and gives their slots the numbers from before them.
#[inline(always)]
fn compact_changes(
    log: &mut Vec<UndoEntry>,
    log_len: usize,
    slots: &mut Vec<GroupOrLoopState>,
    from: usize,
) -> usize
    requires from { from ≤ log_len }
    requires log_len { log_len ≤ length log.old.items }
    requires slots { IsTrue (are_slot_numbers_below (length slots.old.items) (take log_len log.old.items)) }
    requires noted { All (λ s. s.noted ≤ from) (undone slots.old.items (drop from (take log_len log.old.items))) }
    ensures shorter { result ≤ log_len }
    ensures log { length log.new.items ≡ length log.old.items }
    ensures compacted { ChangesAreCompacted from slots.old.items (take log_len log.old.items) slots.new.items
        (take result log.new.items) }
{
    let mut kept = from;
    for index in from..log_len {
        let change = log[index];
        // Otherwise, an earlier change of the slot is kept.
        if change.old.noted as usize <= from {
            log[kept] = change;
            slots[change.slot].noted = change.old.noted;
            kept += 1;
        }
    }
    kept
}

impl BacktrackState {
    /// Creates a state without slots and groups.
    pub fn new(alloc: Global) -> Self
        ensures { result ≡ record { groups = 0; slots = []; log = []; choice_points = [] } }
    {
        BacktrackState {
            groups: 0,
            begun: 0,
            slots: Vec::new(alloc),
            log: Vec::new(alloc),
            log_len: 0,
            free: 0,
            choice_points: Vec::new(alloc),
            choice_point_len: 0,
            frames: Vec::new(alloc),
        }
    }

    /// Begins a search from an offset. The slots of all groups and loops get their initial values,
    /// the undo log becomes empty, and there are no choice points. It allocates memory only if
    /// there were fewer slots before. Returns `Err` if the allocation fails.
    pub fn begin(&mut self, groups: usize, loops: usize, at: usize) -> Result<(), AllocError>
        requires { groups + loops < 2 ^ 64 }
        ensures begun { OnOk result (self.new ≡ initial_state groups loops at) }
        ensures refused { OnErr result (length self.new.slots ≢ groups + loops) }
        ensures short { OnErr result (length self.old.slots < groups + loops) }
    {
        self.undo_all();
        self.groups = 0;
        self.log_len = 0;
        self.choice_point_len = 0;
        self.begun = at;
        set_slot_count(&mut self.slots, groups + loops)?;
        self.groups = groups;
        Ok(())
    }

    // Undoes all changes. If there are more changes than slots, it resets the slots instead.
    #[inline(always)]
    fn undo_all(&mut self)
        ensures groups { self.new.groups ≡ self.old.groups }
        ensures slots { length self.new.slots ≡ length self.old.slots }
        ensures log { self.new.log ≡ [] }
    {
        if self.log_len > self.slots.len() {
            self.log_len = 0;
            reset_all_slots(&mut self.slots);
        } else {
            self.undo_to(0);
        }
    }

    // Sets a slot, and logs its former value. After the first `free` changes, a slot is logged only
    // once since the last choice point. If an allocation fails, nothing is changed.
    #[inline(always)]
    fn set(&mut self, slot: usize, value: GroupOrLoopState) -> Result<(), AllocError>
        requires slot { slot < length self.old.slots }
        requires is_set { value.is_set ≡ true }
        requires noted { value.noted ≡ 0 }
        ensures set { OnOk result (SetsSlotUndoably slot value self.old self.new) }
        ensures refused { OnErr result (self.new ≡ self.old) }
    {
        let noted = log_change(
            &mut self.log,
            &mut self.log_len,
            &mut self.free,
            &self.choice_points[..self.choice_point_len],
            &self.slots,
            slot,
        )?;
        self.slots[slot] = GroupOrLoopState { noted, ..value };
        Ok(())
    }

    // Returns the value of a slot.
    #[inline(always)]
    fn value_of_slot(&self, slot: usize) -> GroupOrLoopState
        requires { slot < length self.now.slots }
        ensures slot { slice_get self.now.slots slot ≡ Some result }
        ensures noted { result.noted ≡ 0 }
    {
        let held = self.slots[slot];
        if held.is_set {
            GroupOrLoopState { noted: 0, ..held }
        } else {
            initial_slot(self.begun)
        }
    }

    /// Returns the number of changes that are logged.
    #[inline(always)]
    pub fn log_len(&self) -> usize
        ensures { result ≡ length self.now.log }
    {
        self.log_len
    }

    /// Undoes the logged changes from number `len` on.
    #[inline(always)]
    pub fn undo_to(&mut self, len: usize)
        requires { len ≤ length self.old.log }
        ensures { ChangesFromNumberAreUndone len self.old self.new }
    {
        'changes: while self.log_len() > len {
            self.undo_last();
        }
    }

    // Undoes the last change.
    #[inline(always)]
    fn undo_last(&mut self)
        requires { 0 < length self.old.log }
        ensures { ChangesFromNumberAreUndone (length self.old.log - 1) self.old self.new }
    {
        self.log_len -= 1;
        let change = self.log[self.log_len];
        self.slots[change.slot] = change.old;
    }

    /// If the undo log is long, shortens it to its first `from` changes and the oldest later change
    /// of each slot. Undoing it to number `from` or less has the same effect as before.
    #[inline(always)]
    pub fn compact_log(&mut self, from: usize)
        requires { from ≤ length self.old.log }
        ensures { LogIsCompacted from self.old self.new }
    {
        if self.log_len() > UNCHECKED_ENTRIES {
            self.compact_long_log(from);
        }
    }

    // Shortens the undo log. The function is not inlined, since most logs are short.
    #[cold]
    #[inline(never)]
    fn compact_long_log(&mut self, from: usize)
        requires { from ≤ length self.old.log }
        ensures { LogIsCompacted from self.old self.new }
    {
        self.log_len = compact_changes(&mut self.log, self.log_len, &mut self.slots, from);
    }

    // ---- Choice points

    /// Returns the number of choice points.
    #[inline(always)]
    pub fn choice_point_count(&self) -> usize
        ensures { result ≡ length self.now.choice_points }
    {
        self.choice_point_len
    }

    /// Pushes a choice point. If an allocation fails, nothing is changed.
    #[inline(always)]
    pub fn append_choice_point(&mut self, mark: ChoicePoint) -> Result<(), AllocError>
        ensures pushed { OnOk result
            (self.new ≡ with_choice_point_list (self.old.choice_points ++ mark ∷ []) self.old) }
        ensures refused { OnErr result (self.new ≡ self.old) }
    {
        if self.choice_point_len >= self.choice_points.len() {
            extend_with_copies(&mut self.choice_points, CHOICE_POINT_PLACEHOLDER)?;
        }
        self.choice_points[self.choice_point_len] = mark;
        self.choice_point_len += 1;
        Ok(())
    }

    /// Returns the choice point with this index.
    #[inline(always)]
    pub fn choice_point_at_index(&self, index: usize) -> ChoicePoint
        requires { index < length self.now.choice_points }
        ensures { slice_get self.now.choice_points index ≡ Some result }
    {
        self.choice_points[index]
    }

    /// Keeps the first `len` choice points and drops the others.
    #[inline(always)]
    pub fn truncate_choice_points(&mut self, len: usize)
        requires { len ≤ length self.old.choice_points }
        ensures { self.new ≡ with_choice_point_list (take len self.old.choice_points) self.old }
    {
        self.choice_point_len = len;
    }

    /// Replaces the choice point with this index.
    #[inline(always)]
    pub fn replace_choice_point(&mut self, index: usize, mark: ChoicePoint)
        requires { index < length self.old.choice_points }
        ensures { self.new ≡ with_choice_point_list (slice_set self.old.choice_points index mark) self.old }
    {
        self.choice_points[index] = mark;
    }

    // ---- Frames of lookarounds

    /// Takes the storage for frames, which is empty.
    #[inline(always)]
    pub(crate) fn take_frame_stack(&mut self) -> Vec<LookaroundFrame>
        ensures none { result.items ≡ [] }
        ensures same { self.new ≡ self.old }
    {
        let alloc = *self.frames.allocator();
        let mut frames = mem::replace(&mut self.frames, Vec::new(alloc));
        frames.truncate(0);
        frames
    }

    /// Puts the storage for frames back.
    #[inline(always)]
    pub(crate) fn return_frame_stack(&mut self, frames: Vec<LookaroundFrame>)
        ensures { self.new ≡ self.old }
    {
        self.frames = frames;
    }

    // ---- Groups

    /// Opens a group at an offset, and removes its range.
    #[inline(always)]
    pub fn open_group(&mut self, id: usize, at: usize) -> Result<(), AllocError>
        requires { id < self.old.groups }
        ensures opened { OnOk result (ChangesStateUndoably (with_group_open id at) self.old self.new) }
        ensures refused { OnErr result (self.new ≡ self.old) }
    {
        let opened = GroupOrLoopState {
            at,
            is_set: true,
            ..SLOT_PLACEHOLDER
        };
        let _laid_out = self.groups;
        self.set(id, opened)
    }

    /// Removes a group's range.
    #[inline(always)]
    pub fn reset_group(&mut self, id: usize) -> Result<(), AllocError>
        requires { id < self.old.groups }
        ensures reset { OnOk result (ChangesStateUndoably (state_with_group_unset id) self.old self.new) }
        ensures refused { OnErr result (self.new ≡ self.old) }
    {
        let _laid_out = self.groups;
        let reset = GroupOrLoopState {
            has_range: false,
            is_set: true,
            ..self.value_of_slot(id)
        };
        self.set(id, reset)
    }

    /// Sets the range of a group.
    #[inline(always)]
    pub fn close_group(&mut self, id: usize, from: usize, to: usize) -> Result<(), AllocError>
        requires { id < self.old.groups }
        ensures closed { OnOk result (ChangesStateUndoably (with_group_range id from to) self.old self.new) }
        ensures refused { OnErr result (self.new ≡ self.old) }
    {
        let _laid_out = self.groups;
        let closed = GroupOrLoopState {
            from,
            to,
            has_range: true,
            is_set: true,
            ..self.value_of_slot(id)
        };
        self.set(id, closed)
    }

    /// Returns the offset at which a group was last opened.
    #[inline(always)]
    pub fn group_open_offset(&self, id: usize) -> usize
        requires { id < self.now.groups }
        ensures { slice_get (current_thread_state_of self.now 0 0).starts id ≡ Some result }
    {
        let _laid_out = self.groups;
        self.value_of_slot(id).at
    }

    /// Returns the number of groups.
    #[inline(always)]
    pub fn group_count(&self) -> usize
        ensures groups { result ≡ self.now.groups }
        ensures length { result ≡ length (current_thread_state_of self.now 0 0).groups }
    {
        self.groups
    }

    /// Returns the number of loops.
    #[inline(always)]
    pub fn number_of_loops(&self) -> usize
        ensures loops { self.now.groups + result ≡ length self.now.slots }
        ensures length { result ≡ length (current_thread_state_of self.now 0 0).loops }
    {
        self.slots.len() - self.groups
    }

    /// Returns the range of a group. Returns `None` if it has none.
    #[inline(always)]
    pub fn captured_range_of(&self, id: usize) -> Option<(usize, usize)>
        requires { id < self.now.groups }
        ensures { slice_get (current_thread_state_of self.now 0 0).groups id ≡ Some result }
    {
        let _laid_out = self.groups;
        let slot = self.value_of_slot(id);
        if slot.has_range {
            Some((slot.from, slot.to))
        } else {
            None
        }
    }

    // ---- Loops

    /// Begins iteration `k` of a loop at an offset.
    #[inline(always)]
    pub fn begin_loop_iteration(&mut self, id: usize, k: usize, at: usize) -> Result<(), AllocError>
        requires { self.old.groups + id < length self.old.slots }
        ensures entered { OnOk result (ChangesStateUndoably (with_loop_iteration id k at) self.old self.new) }
        ensures refused { OnErr result (self.new ≡ self.old) }
    {
        let entered = GroupOrLoopState {
            at,
            from: k,
            is_set: true,
            ..SLOT_PLACEHOLDER
        };
        self.set(self.groups + id, entered)
    }

    /// Returns the slot of a loop: its finished iterations, and the offset at which the current one
    /// began.
    #[inline(always)]
    pub fn loop_data(&self, id: usize) -> GroupOrLoopState
        requires { self.now.groups + id < length self.now.slots }
        ensures { slice_get (current_thread_state_of self.now 0 0).loops id ≡ Some (loop_data_in_slot result) }
    {
        self.value_of_slot(self.groups + id)
    }
}
