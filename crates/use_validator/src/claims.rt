//! Keywords that check a value itself, without its members or items.

ghost use Rattle.std.specs.Prelude.{◌≡◌, chars, length};
ghost use Rattle.serde_json.specs.View.{view};
ghost use Rattle.use_validator.specs.Values.{IsOfKind, has_member, size_of};

use crate::keyword::{Measure, Range};
use crate::numbers::{is_in, is_integer};
use crate::schema::{Claim, Kind, Rule};
use serde_json::Value;
use std::alloc::{AllocError, Global};
use std::collections::BTreeMap;

// A keyword's value of this many bytes or more is not shown.
const LONG: usize = 120;

impl Rule<'_> {
    /// Checks whether the claim holds for a value.
    ///
    /// # Errors
    ///
    /// `AllocError` if an allocation fails.
    pub fn holds(&self, alloc: Global, value: &Value) -> Result<bool, AllocError> {
        Ok(match &self.claim {
            Claim::Never => false,
            Claim::IsOfTypes(kinds) => kinds.iter().any(|kind| value_has_kind(*kind, value)),
            Claim::IsOneOf(values) => values.iter().any(|one| one == value),
            Claim::Is(one) => *one == value,
            Claim::AtLeast(measure, least) => {
                size(*measure, value).is_none_or(|size| *least <= size)
            }
            Claim::AtMost(measure, most) => size(*measure, value).is_none_or(|size| size <= *most),
            Claim::HasDistinctItems => return has_distinct_items(alloc, value),
            Claim::Number(range, bound) => {
                let number = value.as_number();
                number.is_none_or(|number| is_in(number, *range, bound))
            }
            Claim::Has(name) => has(value, name, true),
            Claim::HasSecondIfFirst(with, name) => !has(value, with, false)
                || has(value, name, true),
        })
    }

    /// Returns the message for a value for which the claim does not hold.
    ///
    /// # Errors
    ///
    /// `AllocError` if an allocation fails.
    pub fn complaint(&self, alloc: Global) -> Result<String, AllocError> {
        let (before, behind) = words_around_keyword_value(&self.claim);
        let mut text = String::from_str(alloc, before)?;
        match &self.claim {
            Claim::Never | Claim::HasDistinctItems => {}
            Claim::Has(name) | Claim::HasSecondIfFirst(_, name) => text.push_str(name)?,
            _ => self.push_value(alloc, &mut text)?,
        }
        text.push_str(behind)?;
        Ok(text)
    }

    // Appends the keyword's value, unless it is long.
    fn push_value(&self, alloc: Global, text: &mut String) -> Result<(), AllocError> {
        let value = self.value.to_string(alloc)?;
        if value.len() < LONG {
            text.push_str(value.as_str())
        } else {
            text.push_str("what the schema says")
        }
    }
}

// Returns the words before and after the value of a keyword in a message.
fn words_around_keyword_value(claim: &Claim<'_>) -> (&'static str, &'static str) {
    match claim {
        Claim::Never => ("no value is allowed here", ""),
        Claim::IsOfTypes(_) => ("not of type ", ""),
        Claim::IsOneOf(_) => ("not one of ", ""),
        Claim::Is(_) => ("not equal to ", ""),
        Claim::AtLeast(measure, _) => ("fewer than ", unit(*measure)),
        Claim::AtMost(measure, _) => ("more than ", unit(*measure)),
        Claim::HasDistinctItems => ("two items are equal", ""),
        Claim::Number(Range::AtLeast, _) => ("less than ", ""),
        Claim::Number(Range::AtMost, _) => ("more than ", ""),
        Claim::Number(Range::MoreThan, _) => ("not more than ", ""),
        Claim::Number(Range::LessThan, _) => ("not less than ", ""),
        Claim::Number(Range::MultipleOf, _) => ("not a multiple of ", ""),
        Claim::Has(_) | Claim::HasSecondIfFirst(_, _) => ("the member \"", "\" is missing"),
    }
}

fn unit(measure: Measure) -> &'static str {
    match measure {
        Measure::Characters => " characters",
        Measure::Items => " items",
        Measure::Members => " members",
    }
}

// Checks whether a value has a type.
fn value_has_kind(kind: Kind, value: &Value) -> bool
    ensures { IsOfKind kind (view value.now) result }
{
    match kind {
        Kind::Null => value.is_null(),
        Kind::Boolean => value.is_boolean(),
        Kind::Integer => match value.as_number() {
            Some(number) => is_integer(number),
            None => false,
        },
        Kind::Number => value.is_number(),
        Kind::String => value.is_string(),
        Kind::Array => value.is_array(),
        Kind::Object => value.is_object(),
    }
}

// Returns the number of code points of a text.
fn char_count(text: &str) -> u64
    ensures { result ≡ length (chars text.now) }
{
    text.chars().count() as u64
}

// Returns the number of code points, items or members of a value. Returns `None` if it has another
// type.
fn size(measure: Measure, value: &Value) -> Option<u64>
    ensures { result ≡ size_of measure (view value.now) }
{
    match measure {
        Measure::Characters => match value.as_str() {
            Some(text) => Some(char_count(text)),
            None => None,
        },
        Measure::Items => match value.as_array() {
            Some(items) => Some(items.len() as u64),
            None => None,
        },
        Measure::Members => match value.as_object() {
            Some(members) => Some(members.len() as u64),
            None => None,
        },
    }
}

// Checks whether an object has a member. For other values, returns `other`.
fn has(value: &Value, name: &str, other: bool) -> bool
    ensures { result ≡ has_member name.now other (view value.now) }
{
    if value.is_object() {
        value.get(name).is_some()
    } else {
        other
    }
}

// Checks whether all items of an array are different. Items are equal exactly if their texts are,
// because whole numbers are integers.
fn has_distinct_items(alloc: Global, value: &Value) -> Result<bool, AllocError> {
    let Some(items) = value.as_array() else {
        return Ok(true);
    };
    let mut texts = BTreeMap::new(alloc);
    for item in items {
        if texts.insert(item.to_string(alloc)?, ())?.is_some() {
            return Ok(false);
        }
    }
    Ok(true)
}
