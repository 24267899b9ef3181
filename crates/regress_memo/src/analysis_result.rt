//! The memo analysis of a program: what it states about each instruction and each loop.

ghost use Rattle.std.specs.Prelude.{◌≡◌, true};
ghost use Rattle.regress_memo.specs.AnalysisAsPotentials.{no_insn_analysis, insn_analysis_of, enclosing_loops_of, undistinguished_count_bound, count_bound_of, enclosing_loop_has_fact};
ghost use Rattle.regress_memo.specs.AnalysisAsPotentials.{states_loop_fact};

use regex_pattern_front::types::LoopID;

/// A loop that encloses an instruction, and what the analysis states about its current iteration.
#[derive(Clone, Copy)]
pub struct EnclosingLoop {
    pub id: LoopID,
    /// Whether a character is known to have been read since the iteration began.
    pub moved: bool,
    /// Whether the memo key distinguishes iterations that have read a character from empty ones.
    pub empty: bool,
}

/// The iteration count up to which memo keys distinguish a loop's counts, and whether the count
/// never exceeds it.
#[derive(Clone, Copy)]
pub struct LoopCountsDistinguishedUpTo {
    pub up_to: u16,
    pub counted: bool,
}

/// The analysis of an instruction.
#[derive(Clone, Copy)]
pub struct InsnAnalysis {
    /// The range of its entries in `MemoAnalysis::rows`; `end` is exclusive.
    pub first: usize,
    pub end: usize,
    /// From this instruction on, only loops with this number or a greater one may be written.
    pub from: u32,
    /// Whether the instruction is searched to the right.
    pub forward: bool,
    /// Whether capture groups stay unchanged from here on.
    pub silent: bool,
    /// Whether a thread at this instruction is recorded.
    pub records: bool,
    /// Three amounts of work: the potential of a thread here, the potential of the threads that the
    /// instruction leaves, and the cost of a key, which its record covers.
    pub ready: u32,
    pub left: u32,
    pub key_cost: u32,
    /// The number of codes here, and the number of codes at all recording instructions before this
    /// one.
    pub codes: usize,
    pub base: usize,
}

/// The analysis of a program.
#[derive(Drop)]
pub struct MemoAnalysis {
    /// Indexed by instruction.
    pub lines: Vec<InsnAnalysis>,
    /// The enclosing loops, to which `lines` refer by range.
    pub rows: Vec<EnclosingLoop>,
    /// Indexed by loop number.
    pub counts: Vec<LoopCountsDistinguishedUpTo>,
    /// The total number of codes at recording instructions.
    pub codes: usize,
}

/// A fact that an entry may state about its loop.
#[derive(Clone, Copy)]
pub(crate) enum LoopProgressFact {
    Inside,
    Moved,
    Empty,
}

impl MemoAnalysis {
    /// Returns the analysis of an instruction. If the table has no entry, it is
    /// `default_insn_analysis()`.
    #[inline(always)]
    pub fn insn_analysis_at(&self, ip: usize) -> InsnAnalysis
        ensures { result ≡ insn_analysis_of self.now ip }
    {
        match self.lines.get(ip) {
            Some(line) => *line,
            None => default_insn_analysis(),
        }
    }

    // Returns the enclosing loops of an instruction.
    pub(crate) fn enclosing_loops(&self, ip: usize) -> &[EnclosingLoop]
        ensures { result.now ≡ enclosing_loops_of self.now ip }
    {
        let line = self.insn_analysis_at(ip);
        if line.first <= line.end && line.end <= self.rows.len() {
            &self.rows[line.first..line.end]
        } else {
            &[]
        }
    }

    // Returns the count bound of a loop. If the table has no entry, it is
    // `undistinguished_loop_bound()`.
    pub(crate) fn count_bound_of_loop(&self, id: LoopID) -> LoopCountsDistinguishedUpTo
        ensures { result ≡ count_bound_of self.now id }
    {
        match self.counts.get(usize::from(id)) {
            Some(count) => *count,
            None => undistinguished_loop_bound(),
        }
    }

    // Checks whether an entry at the instruction states this fact about a loop.
    pub(crate) fn states_loop_fact(&self, ip: usize, said: LoopProgressFact, id: LoopID) -> bool
        ensures { result ≡ true → states_loop_fact said id (enclosing_loops_of self.now ip) ≡ true }
    {
        let rows = self.enclosing_loops(ip);
        for row in rows {
            if row.id == id && entry_states_loop_fact(said, row) {
                return true;
            }
        }
        false
    }
}

// Returns the analysis of an instruction without an entry.
#[inline(always)]
pub(crate) fn default_insn_analysis() -> InsnAnalysis
    ensures { result ≡ no_insn_analysis }
{
    InsnAnalysis {
        first: 0,
        end: 0,
        from: 0x1_0000,
        forward: true,
        silent: false,
        records: false,
        ready: 1,
        left: 0,
        key_cost: 0,
        codes: 1,
        base: 0,
    }
}

// Returns the count bound of a loop whose iteration count is never distinguished.
pub(crate) fn undistinguished_loop_bound() -> LoopCountsDistinguishedUpTo
    ensures { result ≡ undistinguished_count_bound }
{
    LoopCountsDistinguishedUpTo {
        up_to: 0,
        counted: false,
    }
}

// Checks whether an entry states this fact about its loop.
fn entry_states_loop_fact(said: LoopProgressFact, row: &EnclosingLoop) -> bool
    ensures { result ≡ enclosing_loop_has_fact said row.now }
{
    match said {
        LoopProgressFact::Inside => true,
        LoopProgressFact::Moved => row.moved,
        LoopProgressFact::Empty => row.empty,
    }
}
