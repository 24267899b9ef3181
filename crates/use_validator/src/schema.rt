//! A schema as a list of parts. Each subschema is a part, and says what is required of a value.

use crate::keyword::{Measure, Range};
use crate::patterns::Patterns;
use serde_json::{Number, Value};
use std::collections::BTreeMap;

/// A type of JSON values.
#[derive(Clone, Copy)]
pub enum Kind {
    Null,
    Boolean,
    Integer,
    Number,
    String,
    Array,
    Object,
}

/// What a keyword requires of a value itself.
#[derive(Drop)]
pub enum Claim<'s> {
    /// The schema is `false`.
    Never,
    IsOfTypes(Vec<Kind>),
    IsOneOf(&'s Vec<Value>),
    Is(&'s Value),
    AtLeast(Measure, u64),
    AtMost(Measure, u64),
    HasDistinctItems,
    Number(Range, Number),
    Has(&'s str),
    /// If the value has the first member, it has the second.
    HasSecondIfFirst(&'s str, &'s str),
}

/// A claim, and the keyword that makes it. The name of the schema `false` is empty.
#[derive(Drop)]
pub struct Rule<'s> {
    pub keyword: &'s str,
    pub value: &'s Value,
    pub claim: Claim<'s>,
}

/// What `pattern` or `format` requires of a string: that it matches the pattern.
#[derive(Drop)]
pub struct TextRule<'s> {
    pub keyword: &'s str,
    pub pattern: String,
    /// The name of the format that the pattern represents.
    pub format: Option<&'static str>,
}

/// A keyword that counts the parts, or the items, that hold.
#[derive(Clone, Copy)]
pub enum Counting {
    AnyOf,
    OneOf,
    Not,
    Contains,
}

/// The minimum and the maximum number of what is counted.
#[derive(Clone, Copy)]
pub struct Limits {
    pub least: u64,
    pub most: u64,
}

impl Limits {
    pub fn at_least(least: u64) -> Self {
        let most = u64::MAX;
        Limits { least, most }
    }

    pub fn exactly(count: u64) -> Self {
        Limits {
            least: count,
            most: count,
        }
    }
}

/// What is counted: which values are checked with which parts.
#[derive(Drop)]
pub enum Counted {
    /// The value itself, with each of these parts.
    Parts(Vec<usize>),
    /// Each item of an array, with this part.
    Items(usize),
}

impl Counting {
    pub fn keyword(self) -> &'static str {
        match self {
            Counting::AnyOf => "anyOf",
            Counting::OneOf => "oneOf",
            Counting::Not => "not",
            Counting::Contains => "contains",
        }
    }

    /// Returns the message if too few hold, or too many.
    pub fn complaint(self, too_few: bool) -> &'static str {
        match self {
            Counting::Not => "matches the schema that it must not match",
            Counting::AnyOf | Counting::OneOf if too_few => "matches none of the schemas",
            Counting::AnyOf | Counting::OneOf => "matches more than one of the schemas",
            Counting::Contains if too_few => "too few items match the schema",
            Counting::Contains => "too many items match the schema",
        }
    }
}

/// A requirement that depends on whether other parts hold. A part is identified by its number.
#[derive(Drop)]
pub enum Test {
    /// The number of what holds is within the limits.
    Count {
        by: Counting,
        counted: Counted,
        limits: Limits,
    },
    /// If the first part holds, the second applies, and otherwise the third.
    If {
        test: usize,
        then: Option<usize>,
        otherwise: Option<usize>,
    },
    /// The part holds for each member's name.
    Names(usize),
}

/// A subschema. Other parts are identified by their numbers.
#[derive(Drop)]
pub struct Part<'s> {
    /// Its position in the schema (a JSON Pointer).
    pub place: String,
    pub rules: Vec<Rule<'s>>,
    pub texts: Vec<TextRule<'s>>,
    pub tests: Vec<Test>,
    /// The parts that apply to the same value, from `$ref` and `allOf`.
    pub here: Vec<usize>,
    /// The parts that apply to the same value if it has the member.
    pub with_member: BTreeMap<String, usize>,
    /// The part for each member with a given name.
    pub named: BTreeMap<String, usize>,
    /// The part for each pattern of member names.
    pub by_pattern: BTreeMap<String, usize>,
    /// The part for all other members.
    pub others: Option<usize>,
    /// The parts for the first items, and the part for all items after them.
    pub first: Vec<usize>,
    pub rest: Option<usize>,
}

/// A schema.
#[derive(Drop)]
pub struct Schema<'s> {
    /// The parts. The first one is the whole schema.
    pub parts: Vec<Part<'s>>,
    pub patterns: Patterns,
}
