//! Decides whether a pattern has a match in a text.

ghost use Rattle.std.specs.Prelude.{◌≡◌, ◌≤◌, ◌<◌, ◌^◌, IfOk, SomeIff};
ghost use Rattle.regress_match.specs.{ProgramTreesAndAnswers.{bytes_as_utf8_text, utf8_answers}, WorkBounds.{enough_work_for_text}};
ghost use Rattle.use_validator.specs.Judge.{IsVerdictRight, verdict_of_matches, verdict_of};

use regress_match::{BoundedRegex, Regex, SearchError, Unbounded, WorkError};
use std::alloc::AllocError;

/// What a search with limited steps says about a text.
#[derive(Clone, Copy, PartialEq, Eq)]
pub enum Verdict {
    /// The text has a match at some position.
    Matches,
    /// The text has no match.
    NoMatch,
    /// The steps did not suffice to decide.
    OutOfSteps,
}

/// Checks whether the pattern has a match in the text, with at most `steps` steps.
///
/// # Errors
///
/// `AllocError` if an allocation fails.
pub fn judge(re: &Regex, text: &str, steps: u64) -> Result<Verdict, AllocError>
    ensures { IfOk result (λ verdict. verdict ≡ verdict_of re.now text.now steps) }
{
    let Ok(mut matches) = re.find_from_limited(text, 0, steps) else {
        return Err(AllocError);
    };
    match matches.next() {
        Some(Ok(_)) => Ok(Verdict::Matches),
        None => Ok(Verdict::NoMatch),
        Some(Err(SearchError::StepLimit)) => Ok(Verdict::OutOfSteps),
        Some(Err(SearchError::Memory)) => Err(AllocError),
    }
}

/// Like `judge`. If the steps do not suffice and the pattern has a work bound, searches again with
/// a sufficient work budget.
///
/// # Errors
///
/// `AllocError` if an allocation fails.
pub fn judge_with_work_if_needed(re: &Regex, text: &str, steps: u64) -> Result<Verdict, AllocError>
    ensures { IfOk result (IsVerdictRight re.now text.now steps) }
{
    let verdict = judge(re, text, steps)?;
    if verdict != Verdict::OutOfSteps {
        return Ok(verdict);
    }
    match re.bounded() {
        Ok(bounded) => match enough(&bounded, text) {
            Some(work) => judge_within_work(&bounded, text, work),
            None => Ok(verdict),
        },
        Err(Unbounded::Memory) => Err(AllocError),
        Err(_) => Ok(verdict),
    }
}

// Returns how much work suffices for all matches in a text. Returns `None` on overflow.
fn enough(bounded: &BoundedRegex<'_>, text: &str) -> Option<u64>
    ensures { let all = enough_work_for_text bounded.now.per_unit (bytes_as_utf8_text bounded.now.re text.now) in
        SomeIff result (all < 2 ^ 64) all }
{
    bounded.work_per_unit().checked_mul(text.len() as u64 + 1)
}

// Checks whether the pattern has a match in the text, with at most `work` work. This much work has
// to suffice.
fn judge_within_work(
    bounded: &BoundedRegex<'_>,
    text: &str,
    work: u64,
) -> Result<Verdict, AllocError>
    requires { enough_work_for_text bounded.now.per_unit (bytes_as_utf8_text bounded.now.re text.now) ≤ work }
    ensures { IfOk result (λ verdict. verdict ≡ verdict_of_matches (utf8_answers bounded.now.re text.now 0)) }
{
    let Ok(mut matches) = bounded.find_from(text, 0, work) else {
        return Err(AllocError);
    };
    let Some(first) = matches.next() else {
        return Ok(Verdict::NoMatch);
    };
    match first {
        Ok(_) => Ok(Verdict::Matches),
        Err(error) => match error {
            WorkError::WorkLimit => unreachable!(),
            WorkError::Memory => Err(AllocError),
        },
    }
}
