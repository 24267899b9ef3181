//! A reader of the code points of a pattern.

ghost use Rattle.std.specs.Prelude.{◌≡◌, ◌<◌, ◌≤◌, ◌∷◌, ◌↔◌, length, IsTrue, IsSome, false, OnOk, IfOk, IfErr};
ghost use Rattle.std.specs.Option.{ForSome};
ghost use Rattle.regex_meaning.specs.WellFormedTrees.{is_min_at_most_max};
ghost use Rattle.regex_meaning.specs.EscapesNamesQuantifiers.{BeginsQuantifier};
ghost use Rattle.regex_parser.specs.CodePointReaderContracts.{IsUnescapedRead, IsCodePointReadIfAny, first_char_if_any, IsEaten, IsDigitRead, IsNumberRead, IsHexRead, open_brace};
ghost use Rattle.regex_parser.specs.CodePointReaderContracts.{AreQuantifierCountsRead, IsQuantifierMaximumRead, IsOptionalBracesQuantifierRead, IsOptionalQuantifierPrefixRead};
ghost use Rattle.regex_parser.specs.CodePointReaderContracts.{IsQuantifierRead, is_syntax_error};

use crate::diagnosis::Cause;
use crate::parser_error::ParseStopReason;
use regex_pattern_front::ir::Quantifier;

/// A position in a pattern: the code points that are left.
#[derive(Clone, Copy)]
pub(crate) struct PatternReader<'p> {
    pub(crate) rest: &'p [u32],
}

impl PatternReader<'_> {
    /// Returns the number of code points that are left, including the last one that was read.
    pub(crate) fn count_code_points_from_last_read(&self) -> usize {
        self.rest.len().saturating_add(1)
    }

    /// Returns the error for what begins here.
    ///
    /// It is a syntax error, not an allocation failure.
    pub(crate) fn error_here(&self, cause: Cause) -> ParseStopReason
        ensures { IsTrue (is_syntax_error result) }
    {
        ParseStopReason::Refused {
            cause,
            left: self.rest.len(),
        }
    }

    /// Returns the error for what begins with the last code point that was read.
    pub(crate) fn error_at_last_read(&self, cause: Cause) -> ParseStopReason
        ensures { IsTrue (is_syntax_error result) }
    {
        ParseStopReason::Refused {
            cause,
            left: self.count_code_points_from_last_read(),
        }
    }

    /// Returns the next code point without reading it. Returns `None` if it is not a `char` or if
    /// nothing is left.
    pub(crate) fn peek(&self) -> Option<char>
        ensures more { IsSome result → 0 < length self.now.rest.now }
        ensures text { result ≡ first_char_if_any self.now.rest.now }
    {
        char::from_u32(*self.rest.first()?)
    }

    /// Reads the next code point.
    pub(crate) fn next(&mut self) -> Option<u32>
        ensures moves { length self.new.rest.now ≤ length self.old.rest.now }
        ensures read { IsSome result → length self.new.rest.now < length self.old.rest.now }
        ensures more { 0 < length self.old.rest.now → length self.new.rest.now < length self.old.rest.now }
        ensures text { IsCodePointReadIfAny self.old.rest.now result self.new.rest.now }
    {
        let (first, others) = self.rest.split_first()?;
        self.rest = others;
        Some(*first)
    }

    /// Reads the next code point or escape. For an escape, it returns the backslash.
    pub(crate) fn read_next_and_skip_escaped(&mut self) -> Option<u32>
        ensures moves { length self.new.rest.now ≤ length self.old.rest.now }
        ensures read { IsSome result → length self.new.rest.now < length self.old.rest.now }
        ensures text { IsUnescapedRead self.old.rest.now result self.new.rest.now }
    {
        let c = self.next()?;
        if c == '\\' as u32 {
            let _ = self.next();
        }
        Some(c)
    }

    /// Reads the next code point if it is `c`, and returns whether it was.
    pub(crate) fn eat(&mut self, c: char) -> bool
        ensures moves { length self.new.rest.now ≤ length self.old.rest.now }
        ensures read { IsTrue result → length self.new.rest.now < length self.old.rest.now }
        ensures text { IsEaten c self.old.rest.now result self.new.rest.now }
    {
        let Some((first, others)) = self.rest.split_first() else {
            return false;
        };
        if *first != c as u32 {
            return false;
        }
        self.rest = others;
        true
    }

    /// Reads a digit in this base and returns its value.
    pub(crate) fn read_digit_in_base(&mut self, radix: u32) -> Option<u32>
        requires least { 2 ≤ radix }
        requires most { radix ≤ 36 }
        ensures moves { length self.new.rest.now ≤ length self.old.rest.now }
        ensures read { IsSome result → length self.new.rest.now < length self.old.rest.now }
        ensures text { IsDigitRead radix self.old.rest.now result self.new.rest.now }
    {
        let (first, others) = self.rest.split_first()?;
        let digit = char::from_u32(*first)?.to_digit(radix)?;
        self.rest = others;
        Some(digit)
    }

    /// Reads the digits of a number in this base. The value saturates at `usize::MAX`. Returns
    /// `None` if there is no digit.
    pub(crate) fn read_number_in_base(&mut self, radix: u32) -> Option<usize>
        requires least { 2 ≤ radix }
        requires most { radix ≤ 36 }
        ensures moves { length self.new.rest.now ≤ length self.old.rest.now }
        ensures read { IsSome result → length self.new.rest.now < length self.old.rest.now }
        ensures text { IsNumberRead radix usize.MAX self.old.rest.now result self.new.rest.now }
    {
        let mut value = self.read_digit_in_base(radix)? as usize;
        while let Some(digit) = self.read_digit_in_base(radix) {
            value = value
                .saturating_mul(radix as usize)
                .saturating_add(digit as usize);
        }
        Some(value)
    }

    /// Reads `count` hexadecimal digits and returns their value.
    pub(crate) fn read_hex_digits(&mut self, count: u32) -> Option<u32>
        ensures moves { length self.new.rest.now ≤ length self.old.rest.now }
        ensures text { count ≤ 4 → IsHexRead count self.old.rest.now result self.new.rest.now }
    {
        let mut value = 0u32;
        for _ in 0..count {
            value = value
                .saturating_mul(16)
                .saturating_add(self.read_digit_in_base(16)?);
        }
        Some(value)
    }

    /// Reads `{n}`, `{n,}` or `{n,m}` and returns the two counts, or `None` if no such braces begin
    /// here.
    fn read_counts_in_braces(&mut self) -> Option<(usize, Option<usize>)>
        ensures moves { length self.new.rest.now ≤ length self.old.rest.now }
        ensures text { IsOptionalBracesQuantifierRead self.old.rest.now result self.new.rest.now }
    {
        let mut ahead = *self;
        if !ahead.eat('{') {
            return None;
        }
        let counts = ahead.counts()?;
        *self = ahead;
        Some(counts)
    }

    /// Checks whether the last code point that was read, a `{`, begins a quantifier.
    pub(crate) fn last_read_brace_begins_quantifier(&self) -> bool
        ensures { IsTrue result ↔ BeginsQuantifier (open_brace ∷ self.now.rest.now) }
    {
        let mut ahead = *self;
        ahead.counts().is_some()
    }

    // Reads the rest of a quantifier after its `{`.
    fn counts(&mut self) -> Option<(usize, Option<usize>)>
        ensures moves { length self.new.rest.now ≤ length self.old.rest.now }
        ensures text { AreQuantifierCountsRead self.old.rest.now result self.new.rest.now }
    {
        let min = self.read_number_in_base(10)?;
        let max = self.most(min);
        if self.eat('}') {
            Some((min, max))
        } else {
            None
        }
    }

    // Reads the maximum after the minimum. Without a comma it is the minimum. It is `None` if no
    // number follows the comma.
    fn most(&mut self, min: usize) -> Option<usize>
        ensures moves { length self.new.rest.now ≤ length self.old.rest.now }
        ensures text { IsQuantifierMaximumRead min self.old.rest.now result self.new.rest.now }
    {
        if self.eat(',') {
            self.read_number_in_base(10)
        } else {
            Some(min)
        }
    }

    /// Checks whether a quantifier begins here.
    pub(crate) fn quantifier_begins_here(&self) -> bool
        ensures { IsTrue result ↔ BeginsQuantifier self.now.rest.now }
    {
        let mut ahead = *self;
        !matches!(ahead.read_quantifier(), Ok(None))
    }

    // Reads the minimum and maximum of a quantifier, without the question mark that may follow.
    fn quantifier_prefix(&mut self) -> Option<(usize, Option<usize>)>
        ensures moves { length self.new.rest.now ≤ length self.old.rest.now }
        ensures text { IsOptionalQuantifierPrefixRead self.old.rest.now result self.new.rest.now }
    {
        if self.eat('*') {
            Some((0, None))
        } else if self.eat('+') {
            Some((1, None))
        } else if self.eat('?') {
            Some((0, Some(1)))
        } else {
            self.read_counts_in_braces()
        }
    }

    /// Reads a quantifier, if one begins here. Its minimum is at most its maximum.
    pub(crate) fn read_quantifier(&mut self) -> Result<Option<Quantifier>, ParseStopReason>
        ensures moves { length self.new.rest.now ≤ length self.old.rest.now }
        ensures ordered { IfOk result (λ found. ForSome found (λ q. ForSome q.max (λ max. q.min ≤ max))) }
        ensures text { IsQuantifierRead self.old.rest.now result self.new.rest.now }
        ensures syntax { IfErr result (λ e. IsTrue (is_syntax_error e)) }
    {
        let start = *self;
        let Some((min, max)) = self.quantifier_prefix() else {
            return Ok(None);
        };
        if !are_in_order(min, max) {
            return Err(start.error_here(Cause::QuantifierOutOfOrder));
        }
        let greedy = !self.eat('?');
        Ok(Some(Quantifier { min, max, greedy }))
    }
}

// Checks whether the minimum is at most the maximum, if there is a maximum.
fn are_in_order(min: usize, max: Option<usize>) -> bool
    ensures { result ≡ is_min_at_most_max (record { min = min; max = max; greedy = false }) }
{
    match max {
        Some(max) => min <= max,
        None => true,
    }
}
