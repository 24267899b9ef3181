//! Context lines: the lines near the selected ones.

ghost use Rattle.std.specs.Prelude.{◌≡◌, ◌-◌, ◌≤◌, IfOk, ℕ};
ghost use Rattle.use_grep.specs.Nearby.{IsIncreasing, IsWithinReachOfFirst, is_near, near};

use std::alloc::{AllocError, Global};

/// Returns the numbers in `first..end` of the lines that are printed: each selected line, and each
/// line that is at most `before` lines before or `after` lines after a selected line. Each number
/// occurs once, in ascending order, so overlapping contexts are merged. `selected` has numbers in
/// ascending order.
///
/// # Errors
///
/// `AllocError` if an allocation fails.
pub fn near(
    alloc: Global,
    before: u64,
    after: u64,
    selected: &[u64],
    first: u64,
    end: u64,
) -> Result<Vec<u64>, AllocError>
    ensures { IsIncreasing selected.now
        → IfOk result (λ v. v.items ≡ near before after selected.now first (end - first)) }
{
    let mut numbers = Vec::new(alloc);
    let mut left = selected;
    for number in first..end {
        left = lines_not_yet_passed(left, after, number);
        if is_near_first(left, before, number) {
            numbers.push(number)?;
        }
    }
    Ok(numbers)
}

// Checks whether a line is near the first selected line, if it is not too far after it.
#[tactic(auto, using(crate::proofs::Near::near_first))]
fn is_near_first(selected: &[u64], before: u64, number: u64) -> bool
    ensures { (after : ℕ) → IsWithinReachOfFirst number after selected.now → IsIncreasing selected.now
        → result ≡ is_near before after selected.now number }
{
    match selected {
        [next, _behind @ ..] => next.saturating_sub(number) <= before,
        [] => false,
    }
}

// Returns the selected lines without those that are more than `after` lines before the line
// `number`.
fn lines_not_yet_passed(selected: &[u64], after: u64, number: u64) -> &[u64]
    ensures same { (before n : ℕ) → number ≤ n
        → is_near before after selected.now n ≡ is_near before after result.now n }
    ensures in_order { IsIncreasing selected.now → IsIncreasing result.now }
    ensures starts { IsWithinReachOfFirst number after result.now }
{
    let mut left = selected;
    while let [next, behind @ ..] = left {
        if next.saturating_add(after) >= number {
            return left;
        }
        left = behind;
    }
    left
}
