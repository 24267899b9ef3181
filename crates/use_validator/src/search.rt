//! Searches with the patterns of a schema.

ghost use Rattle.std.specs.Prelude.{IfOk};
ghost use Rattle.use_validator.specs.Patterns.{IsVerdictOf};

use crate::judge::{Verdict, judge_with_work_if_needed};
use crate::patterns::Patterns;
use anyhow::{Result, bail};

/// The patterns of a schema, and the limit of a search.
#[derive(Clone, Copy)]
pub struct Search<'p> {
    pub patterns: &'p Patterns,
    /// The maximum number of steps of each search, before a search with a work budget.
    pub steps: u64,
}

impl<'p> Search<'p> {
    /// Returns the verdict of a pattern of the schema on a text, from a search with limited steps
    /// or, after it, with a sufficient work budget.
    ///
    /// # Errors
    ///
    /// Returns an error if the schema does not have the pattern, or if an allocation fails.
    pub fn verdict(self, pattern: &str, text: &str) -> Result<Verdict>
        ensures { IfOk result (IsVerdictOf pattern.now text.now self.entry.steps) }
    {
        let Some(re) = self.patterns.get(pattern) else {
            bail!("the schema has no pattern {pattern}");
        };
        Ok(judge_with_work_if_needed(re, text, self.steps)?)
    }
}
