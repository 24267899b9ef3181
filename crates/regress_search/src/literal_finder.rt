//! The finder of a literal. It is built once and used while a text is searched.

ghost use Rattle.memchr.specs.Find.{FindsNeedle};

use memchr::memmem::{self, Finder};
use regress_program::plan::CandidateStarts;
use regress_program::required_prefix_prefilters::RequiredPrefixPrefilter;

/// Up to this length of the text, in code units, no literal is searched for: building the finder
/// would take as long as scanning the text.
pub(crate) const LONG: usize = 1024;

/// A finder of the bytes with which each match begins. It is built once if the text is long.
#[derive(Drop)]
pub struct StartLiteralFinder<'p> {
    finder: Option<Finder<'p>>,
}

impl<'p> StartLiteralFinder<'p> {
    /// Creates the finder for the start condition `start` in a text of `units` code units.
    pub fn new(start: &'p CandidateStarts, units: usize) -> Self {
        if units <= LONG {
            return StartLiteralFinder { finder: None };
        }
        let finder = match known_start_literal(start) {
            Some(row) => Some(Finder::new(row)),
            None => None,
        };
        StartLiteralFinder { finder }
    }

    /// Returns the first index at which the literal `row` occurs. It uses the cached finder if that
    /// finder is one of `row`.
    #[inline(always)]
    pub fn find(&self, row: &[u8], bytes: &[u8]) -> Option<usize>
        ensures { FindsNeedle bytes.now row.now 0 result }
    {
        if let Some(finder) = &self.finder {
            if finder.needle() == row {
                return finder.find(bytes);
            }
        }
        find_literal_without_cached_finder(row, bytes)
    }
}

// Returns the literal that each match has near its start, if there is one.
fn known_start_literal(start: &CandidateStarts) -> Option<&[u8]> {
    let CandidateStarts::Prefix { prefilter, .. } = start else {
        return None;
    };
    let literal = match prefilter {
        RequiredPrefixPrefilter::ByLiteral(known) => &known.literal,
        RequiredPrefixPrefilter::ByFirstUnits(first) => first.otherwise.as_literal()?,
        _ => return None,
    };
    literal.units.get(..literal.len)
}

// Returns the first index at which a literal occurs, without a cached finder.
#[cold]
#[inline(never)]
fn find_literal_without_cached_finder(row: &[u8], bytes: &[u8]) -> Option<usize>
    ensures { FindsNeedle bytes.now row.now 0 result }
{
    memmem::find(bytes, row)
}
