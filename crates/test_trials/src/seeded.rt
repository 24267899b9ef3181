//! Searches for generated patterns in generated texts, which are the same in each run. It makes
//! checks that do not need the expected matches: another executor, another encoding, `no_opt`, a
//! resumed search, a search with the work that its bound requires, and replacement by `$0` have to
//! agree. After that, for patterns with exploding searches, it shows how much greater the bound is
//! than the work.

use crate::checks::{Case, try_case};
use crate::explosions::{EXPLOSIONS, ExplosivePattern, SIZES};
use crate::patterns::pattern;
use crate::seed::Seed;
use crate::texts::text;
use std::io;

/// The number of cases.
const CASES: u32 = 600;

/// The flags of the cases.
const FLAGS: [&str; 8] = ["", "", "i", "m", "s", "u", "iu", "imsu"];

/// The number of pieces of a pattern, and of characters of a text.
const PIECES: u32 = 9;

const CHARACTERS: u32 = 6;

// Tries the next case. Returns the number of matches and whether there is a bound. Returns `None`
// if a check fails.
fn try_next_case(rt: &HostRuntime, seed: &mut Seed) -> io::Result<Option<(usize, bool)>> {
    let pattern = pattern(rt.alloc(), seed, PIECES)?;
    let text = text(rt.alloc(), seed, CHARACTERS)?;
    let case = Case {
        pattern: &pattern,
        flags: seed.pick(&FLAGS),
        text: &text,
    };
    match try_case(rt.alloc(), case) {
        Ok(matches) => Ok(Some(matches)),
        Err(fault) => {
            let flags = case.flags;
            println!(rt; "{fault:?}: /{pattern}/{flags} on {text:?}")?;
            Ok(None)
        }
    }
}

// Tries all cases.
fn try_cases(rt: &HostRuntime) -> io::Result<()> {
    let mut seed = Seed::new();
    let mut agree = 0u32;
    let mut matches = 0usize;
    let mut bounds = 0u32;
    for _ in 0..CASES {
        if let Some((found, bounded)) = try_next_case(rt, &mut seed)? {
            agree = agree.saturating_add(1);
            matches = matches.saturating_add(found);
            bounds = bounds.saturating_add(u32::from(bounded));
        }
    }
    println!(rt; "{CASES} cases: {agree} agree, with {matches} matches, {bounds} with a bound")
}

// Prints, for a pattern and texts of each size, how much greater the bound is than the work.
fn print_factors(rt: &HostRuntime, explosion: ExplosivePattern) -> io::Result<()> {
    let pattern = explosion.pattern;
    print!(rt; "{pattern}: the bound is, rounded up,")?;
    for size in SIZES {
        match explosion.quotient_of_bound_and_work(rt.alloc(), size) {
            Ok(quotient_of_bound_and_work) => print!(rt; " {quotient_of_bound_and_work}")?,
            Err(fault) => print!(rt; " {fault:?}")?,
        }
    }
    println!(rt; " times the work")
}

/// Prints the results of the cases, and then those of the patterns with exploding searches.
pub fn print_all_results(rt: &HostRuntime) -> io::Result<()> {
    try_cases(rt)?;
    for row in EXPLOSIONS {
        print_factors(rt, ExplosivePattern::of(row))?;
    }
    Ok(())
}
