//! The keywords of JSON Schema, draft 2020-12.

/// What a keyword such as `maxLength` counts.
#[derive(Clone, Copy)]
pub enum Measure {
    /// The code points of a string.
    Characters,
    Items,
    Members,
}

/// How a keyword such as `maximum` bounds a number.
#[derive(Clone, Copy, PartialEq, Eq)]
pub enum Range {
    AtLeast,
    AtMost,
    MoreThan,
    LessThan,
    MultipleOf,
}

/// A keyword that checks a value itself.
#[derive(Clone, Copy)]
pub enum ValueKeyword {
    Type,
    Enum,
    Const,
    AtLeast(Measure),
    AtMost(Measure),
    UniqueItems,
    Required,
    DependentRequired,
    Number(Range),
}

/// A keyword that checks a string by a pattern.
#[derive(Clone, Copy)]
pub enum TextKeyword {
    Pattern,
    Format,
}

/// A keyword that applies other schemas to the same value.
#[derive(Clone, Copy)]
pub enum SameValueKeyword {
    Ref,
    AllOf,
    AnyOf,
    OneOf,
    Not,
    If,
    DependentSchemas,
}

/// A keyword that applies other schemas to the value's items or members.
#[derive(Clone, Copy)]
pub enum ChildKeyword {
    Properties,
    PatternProperties,
    AdditionalProperties,
    PropertyNames,
    PrefixItems,
    Items,
    Contains,
}

/// The keywords, by how they are read.
#[derive(Clone, Copy)]
pub enum Keyword {
    /// It only describes the schema, or is read together with another keyword.
    SaysNothing,
    Dialect,
    Id,
    Definitions,
    Value(ValueKeyword),
    Text(TextKeyword),
    Same(SameValueKeyword),
    Child(ChildKeyword),
}

static KEYWORDS: &[(&str, Keyword)] = &[
    ("$comment", Keyword::SaysNothing),
    ("$schema", Keyword::Dialect),
    ("title", Keyword::SaysNothing),
    ("description", Keyword::SaysNothing),
    ("default", Keyword::SaysNothing),
    ("deprecated", Keyword::SaysNothing),
    ("readOnly", Keyword::SaysNothing),
    ("writeOnly", Keyword::SaysNothing),
    ("examples", Keyword::SaysNothing),
    ("contentEncoding", Keyword::SaysNothing),
    ("contentMediaType", Keyword::SaysNothing),
    ("contentSchema", Keyword::SaysNothing),
    ("then", Keyword::SaysNothing),
    ("else", Keyword::SaysNothing),
    ("minContains", Keyword::SaysNothing),
    ("maxContains", Keyword::SaysNothing),
    ("$id", Keyword::Id),
    ("$defs", Keyword::Definitions),
    ("definitions", Keyword::Definitions),
    ("type", Keyword::Value(ValueKeyword::Type)),
    ("enum", Keyword::Value(ValueKeyword::Enum)),
    ("const", Keyword::Value(ValueKeyword::Const)),
    (
        "minLength",
        Keyword::Value(ValueKeyword::AtLeast(Measure::Characters)),
    ),
    (
        "maxLength",
        Keyword::Value(ValueKeyword::AtMost(Measure::Characters)),
    ),
    (
        "minItems",
        Keyword::Value(ValueKeyword::AtLeast(Measure::Items)),
    ),
    (
        "maxItems",
        Keyword::Value(ValueKeyword::AtMost(Measure::Items)),
    ),
    (
        "minProperties",
        Keyword::Value(ValueKeyword::AtLeast(Measure::Members)),
    ),
    (
        "maxProperties",
        Keyword::Value(ValueKeyword::AtMost(Measure::Members)),
    ),
    ("uniqueItems", Keyword::Value(ValueKeyword::UniqueItems)),
    ("required", Keyword::Value(ValueKeyword::Required)),
    (
        "dependentRequired",
        Keyword::Value(ValueKeyword::DependentRequired),
    ),
    (
        "minimum",
        Keyword::Value(ValueKeyword::Number(Range::AtLeast)),
    ),
    (
        "maximum",
        Keyword::Value(ValueKeyword::Number(Range::AtMost)),
    ),
    (
        "exclusiveMinimum",
        Keyword::Value(ValueKeyword::Number(Range::MoreThan)),
    ),
    (
        "exclusiveMaximum",
        Keyword::Value(ValueKeyword::Number(Range::LessThan)),
    ),
    (
        "multipleOf",
        Keyword::Value(ValueKeyword::Number(Range::MultipleOf)),
    ),
    ("pattern", Keyword::Text(TextKeyword::Pattern)),
    ("format", Keyword::Text(TextKeyword::Format)),
    ("$ref", Keyword::Same(SameValueKeyword::Ref)),
    ("allOf", Keyword::Same(SameValueKeyword::AllOf)),
    ("anyOf", Keyword::Same(SameValueKeyword::AnyOf)),
    ("oneOf", Keyword::Same(SameValueKeyword::OneOf)),
    ("not", Keyword::Same(SameValueKeyword::Not)),
    ("if", Keyword::Same(SameValueKeyword::If)),
    (
        "dependentSchemas",
        Keyword::Same(SameValueKeyword::DependentSchemas),
    ),
    ("properties", Keyword::Child(ChildKeyword::Properties)),
    (
        "patternProperties",
        Keyword::Child(ChildKeyword::PatternProperties),
    ),
    (
        "additionalProperties",
        Keyword::Child(ChildKeyword::AdditionalProperties),
    ),
    ("propertyNames", Keyword::Child(ChildKeyword::PropertyNames)),
    ("prefixItems", Keyword::Child(ChildKeyword::PrefixItems)),
    ("items", Keyword::Child(ChildKeyword::Items)),
    ("contains", Keyword::Child(ChildKeyword::Contains)),
];

impl Keyword {
    /// Returns the keyword with this name. Returns `None` if it is not a keyword.
    pub fn of(name: &str) -> Option<Keyword> {
        for (text, keyword) in KEYWORDS {
            if *text == name {
                return Some(*keyword);
            }
        }
        None
    }
}
