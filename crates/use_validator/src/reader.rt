//! Reads schemas.

use crate::formats::Format;
use crate::keyword::{ChildKeyword, Keyword, Range, SameValueKeyword, TextKeyword, ValueKeyword};
use crate::numbers::is_positive;
use crate::patterns::Patterns;
use crate::pointer::child;
use crate::reference::pointer_in_reference;
use crate::schema::{Claim, Counted, Counting, Kind, Limits, Part, Rule, Schema, Test, TextRule};
use anyhow::{Result, bail};
use serde_json::{Map, Number, Value};
use std::alloc::{AllocError, Global};
use std::collections::BTreeMap;

/// How a schema is read.
#[derive(Clone, Copy)]
pub struct Reading {
    /// Whether `format` is checked. Otherwise it only describes.
    pub assert_format: bool,
    /// Whether unsupported keywords, formats and dialects are ignored. Otherwise they are refused.
    pub ignore_unknown: bool,
}

// A subschema and its position.
#[derive(Drop)]
struct Found<'s> {
    place: String,
    schema: &'s Value,
}

// Reads the subschemas in the order in which they are found.
#[derive(Drop)]
struct Reader<'s> {
    alloc: Global,
    reading: Reading,
    whole: &'s Value,
    found: Vec<Found<'s>>,
    // The number of each part that was found, by its position.
    numbers: BTreeMap<String, usize>,
    patterns: Patterns,
}

// A keyword of the part that is being read.
#[derive(Clone, Copy)]
struct Member<'s> {
    keyword: &'s str,
    value: &'s Value,
    // The schema that has the keyword.
    schema: &'s Value,
}

// Why unsupported things are refused.
const UNKNOWN_KEYWORD: &str = "is not a supported keyword (--ignore-unknown passes over it)";

const UNKNOWN_FORMAT: &str = "is not a supported format (--ignore-unknown passes over it)";

const UNKNOWN_DIALECT: &str = "is not draft 2020-12 (--ignore-unknown passes over it)";

// The value of `$schema` for the supported dialect.
const DIALECT: &str = "https://json-schema.org/draft/2020-12/schema";

static KINDS: &[(&str, Kind)] = &[
    ("null", Kind::Null),
    ("boolean", Kind::Boolean),
    ("integer", Kind::Integer),
    ("number", Kind::Number),
    ("string", Kind::String),
    ("array", Kind::Array),
    ("object", Kind::Object),
];

impl<'s> Schema<'s> {
    /// Reads a schema, with all subschemas that it contains or that a `$ref` leads to. Whole
    /// numbers in the schema have to be integers.
    ///
    /// # Errors
    ///
    /// Returns an error if a keyword is unsupported (unless `reading` ignores this), has an invalid
    /// value, or refers to another document, or if a pattern is refused. The error says where. Also
    /// returns an error if an allocation fails.
    pub fn read(alloc: Global, whole: &'s Value, reading: Reading) -> Result<Self> {
        let mut reader = Reader {
            alloc,
            reading,
            whole,
            found: Vec::new(alloc),
            numbers: BTreeMap::new(alloc),
            patterns: Patterns::none(alloc),
        };
        let mut parts = Vec::new(alloc);
        reader.number(String::new(alloc), whole)?;
        for i in 0..usize::MAX {
            let Some(part) = reader.part(i)? else {
                break;
            };
            parts.push(part)?;
        }
        let Reader { patterns, .. } = reader;
        Ok(Schema { parts, patterns })
    }
}

impl<'s> Part<'s> {
    fn new(alloc: Global, place: String) -> Self {
        Part {
            place,
            rules: Vec::new(alloc),
            texts: Vec::new(alloc),
            tests: Vec::new(alloc),
            here: Vec::new(alloc),
            with_member: BTreeMap::new(alloc),
            named: BTreeMap::new(alloc),
            by_pattern: BTreeMap::new(alloc),
            others: None,
            first: Vec::new(alloc),
            rest: None,
        }
    }

    // Refuses each value, like the schema `false`.
    fn add_claim_refusing_all(&mut self, schema: &'s Value) -> Result<(), AllocError> {
        Ok(
            self.rules.push(Rule {
                keyword: "",
                value: schema,
                claim: Claim::Never,
            })?,
        )
    }

    fn claim(&mut self, member: Member<'s>, claim: Claim<'s>) -> Result<(), AllocError> {
        let keyword = member.keyword;
        let value = member.value;
        Ok(
            self.rules.push(Rule {
                keyword,
                value,
                claim,
            })?,
        )
    }

    fn count(&mut self, by: Counting, counted: Counted, limits: Limits) -> Result<(), AllocError> {
        Ok(
            self.tests.push(Test::Count {
                by,
                counted,
                limits,
            })?,
        )
    }
}

impl<'s> Reader<'s> {
    // Returns the number of the schema at a position.
    fn number(&mut self, place: String, schema: &'s Value) -> Result<usize> {
        if let Some(number) = self.numbers.get(place.as_str()) {
            return Ok(*number);
        }
        if !schema.is_object() && !schema.is_boolean() {
            bail!("the schema's #{place} is neither an object nor a boolean");
        }
        let number = self.found.len();
        self.numbers.insert(place.clone()?, number)?;
        self.found.push(Found { place, schema })?;
        Ok(number)
    }

    // Reads the part with this number. Returns `None` if fewer parts were found.
    fn part(&mut self, number: usize) -> Result<Option<Part<'s>>> {
        let Some(found) = self.found.get(number) else {
            return Ok(None);
        };
        let schema = found.schema;
        let mut part = Part::new(self.alloc, found.place.clone()?);
        if schema.as_bool() == Some(false) {
            part.add_claim_refusing_all(schema)?;
        }
        if let Some(members) = schema.as_object() {
            for (keyword, value) in members {
                let keyword = keyword.as_str();
                let member = Member {
                    keyword,
                    value,
                    schema,
                };
                self.read(&mut part, member)?;
            }
        }
        Ok(Some(part))
    }

    // Reads a keyword.
    fn read(&mut self, part: &mut Part<'s>, member: Member<'s>) -> Result<()> {
        match Keyword::of(member.keyword) {
            Some(Keyword::SaysNothing) => Ok(()),
            Some(Keyword::Dialect) => self.read_dialect(part, member),
            Some(Keyword::Id) => self.read_id(part, member),
            Some(Keyword::Definitions) => {
                self.named(part, member)?;
                Ok(())
            }
            Some(Keyword::Value(word)) => read_value(self.alloc, part, member, word),
            Some(Keyword::Text(word)) => self.read_text(part, member, word),
            Some(Keyword::Same(word)) => self.read_same(part, member, word),
            Some(Keyword::Child(word)) => self.read_child(part, member, word),
            None => self.read_unknown(part, member, UNKNOWN_KEYWORD),
        }
    }

    // Ignores something unsupported, or refuses it.
    fn read_unknown(&self, part: &Part<'s>, member: Member<'s>, why: &str) -> Result<()> {
        if self.reading.ignore_unknown {
            return Ok(());
        }
        refuse(part, member, why)
    }

    // Reads `$schema`, the name of the dialect.
    fn read_dialect(&self, part: &Part<'s>, member: Member<'s>) -> Result<()> {
        let dialect = text(part, member)?;
        if dialect.trim_end_matches('#') == DIALECT {
            return Ok(());
        }
        self.read_unknown(part, member, UNKNOWN_DIALECT)
    }

    // Reads `$id`, the name of the document. It is refused in subschemas, where it would begin
    // another document.
    fn read_id(&self, part: &Part<'s>, member: Member<'s>) -> Result<()> {
        if !part.place.is_empty() {
            return refuse(part, member, "begins a document within the document");
        }
        text(part, member)?;
        Ok(())
    }

    // Reads `pattern` or `format`.
    fn read_text(
        &mut self,
        part: &mut Part<'s>,
        member: Member<'s>,
        word: TextKeyword,
    ) -> Result<()> {
        let name = text(part, member)?;
        let (pattern, format) = match word {
            TextKeyword::Pattern => (String::from_str(self.alloc, name)?, None),
            TextKeyword::Format if !self.reading.assert_format => return Ok(()),
            TextKeyword::Format => match Format::of(name) {
                Some(format) => (format.pattern(self.alloc)?, Some(format.name)),
                None => return self.read_unknown(part, member, UNKNOWN_FORMAT),
            },
        };
        let place = child(self.alloc, part.place.as_str(), member.keyword)?;
        self.patterns
            .compile(self.alloc, place.as_str(), pattern.as_str())?;
        let keyword = member.keyword;
        Ok(
            part.texts.push(TextRule {
                keyword,
                pattern,
                format,
            })?,
        )
    }

    // Reads a keyword that applies other schemas to the same value.
    fn read_same(
        &mut self,
        part: &mut Part<'s>,
        member: Member<'s>,
        word: SameValueKeyword,
    ) -> Result<()> {
        match word {
            SameValueKeyword::Ref => self.read_ref(part, member),
            SameValueKeyword::AllOf => self.read_all_of(part, member),
            SameValueKeyword::AnyOf => self.read_some_of(
                part,
                member,
                Counting::AnyOf,
                Limits::at_least(1),
            ),
            SameValueKeyword::OneOf => self.read_some_of(
                part,
                member,
                Counting::OneOf,
                Limits::exactly(1),
            ),
            SameValueKeyword::Not => self.read_not(part, member),
            SameValueKeyword::If => self.read_if(part, member),
            SameValueKeyword::DependentSchemas => {
                part.with_member = self.named(part, member)?;
                Ok(())
            }
        }
    }

    fn read_ref(&mut self, part: &mut Part<'s>, member: Member<'s>) -> Result<()> {
        let number = self.reference(part, member)?;
        Ok(part.here.push(number)?)
    }

    fn read_all_of(&mut self, part: &mut Part<'s>, member: Member<'s>) -> Result<()> {
        for number in &self.read_schemas(part, member)? {
            part.here.push(*number)?;
        }
        Ok(())
    }

    // Reads `anyOf` or `oneOf`.
    fn read_some_of(
        &mut self,
        part: &mut Part<'s>,
        member: Member<'s>,
        by: Counting,
        limits: Limits,
    ) -> Result<()> {
        let parts = self.read_schemas(part, member)?;
        Ok(part.count(by, Counted::Parts(parts), limits)?)
    }

    fn read_not(&mut self, part: &mut Part<'s>, member: Member<'s>) -> Result<()> {
        let number = self.schema(part, member)?;
        let parts = vec![in self.alloc; number]?;
        Ok(part.count(Counting::Not, Counted::Parts(parts), Limits::exactly(0))?)
    }

    // Reads `if` with its `then` and `else`.
    fn read_if(&mut self, part: &mut Part<'s>, member: Member<'s>) -> Result<()> {
        let test = self.schema(part, member)?;
        let then = self.sibling(part, member, "then")?;
        let otherwise = self.sibling(part, member, "else")?;
        Ok(
            part.tests.push(Test::If {
                test,
                then,
                otherwise,
            })?,
        )
    }

    // Reads a keyword that applies other schemas to items or members.
    fn read_child(
        &mut self,
        part: &mut Part<'s>,
        member: Member<'s>,
        word: ChildKeyword,
    ) -> Result<()> {
        match word {
            ChildKeyword::Properties => part.named = self.named(part, member)?,
            ChildKeyword::PatternProperties => {
                part.by_pattern = self.named(part, member)?;
                self.compile_names(part, member)?;
            }
            ChildKeyword::AdditionalProperties => part.others = Some(self.schema(part, member)?),
            ChildKeyword::PropertyNames => {
                let number = self.schema(part, member)?;
                part.tests.push(Test::Names(number))?;
            }
            ChildKeyword::PrefixItems => part.first = self.read_schemas(part, member)?,
            ChildKeyword::Items => part.rest = Some(self.schema(part, member)?),
            ChildKeyword::Contains => self.read_contains(part, member)?,
        }
        Ok(())
    }

    // Reads `contains` with its `minContains` and `maxContains`.
    fn read_contains(&mut self, part: &mut Part<'s>, member: Member<'s>) -> Result<()> {
        let items = Counted::Items(self.schema(part, member)?);
        let least = member.sibling("minContains");
        let least = least.map_or(Ok(1), |member| size(part, member))?;
        let most = member.sibling("maxContains");
        let most = most.map_or(Ok(u64::MAX), |member| size(part, member))?;
        Ok(part.count(Counting::Contains, items, Limits { least, most })?)
    }

    // Compiles the patterns that are the names of `patternProperties`.
    fn compile_names(&mut self, part: &Part<'s>, member: Member<'s>) -> Result<()> {
        let place = child(self.alloc, part.place.as_str(), member.keyword)?;
        for (pattern, _) in &part.by_pattern {
            let pattern = pattern.as_str();
            let place = child(self.alloc, place.as_str(), pattern)?;
            self.patterns.compile(self.alloc, place.as_str(), pattern)?;
        }
        Ok(())
    }

    // Returns the number of the schema to which a `$ref` leads.
    fn reference(&mut self, part: &Part<'s>, member: Member<'s>) -> Result<usize> {
        let reference = text(part, member)?;
        let own = self.whole.get("$id").and_then(Value::as_str);
        let pointer = match pointer_in_reference(self.alloc, reference, own.unwrap_or("")) {
            Ok(pointer) => pointer,
            Err(why) => bail!("the schema's #{}/$ref: {why}", part.place),
        };
        let whole = self.whole;
        match whole.pointer(pointer.as_str()) {
            Some(schema) => self.number(pointer, schema),
            None => refuse(part, member, "leads nowhere"),
        }
    }

    // Returns the number of the schema that is the keyword's value.
    fn schema(&mut self, part: &Part<'s>, member: Member<'s>) -> Result<usize> {
        let place = child(self.alloc, part.place.as_str(), member.keyword)?;
        self.number(place, member.value)
    }

    // Returns the number of the schema that is the value of another keyword of the same schema.
    // Returns `None` if that keyword is absent.
    fn sibling(
        &mut self,
        part: &Part<'s>,
        member: Member<'s>,
        keyword: &'static str,
    ) -> Result<Option<usize>> {
        match member.sibling(keyword) {
            Some(member) => Ok(Some(self.schema(part, member)?)),
            None => Ok(None),
        }
    }

    // Returns the numbers of the schemas in the keyword's value, a non-empty array.
    fn read_schemas(&mut self, part: &Part<'s>, member: Member<'s>) -> Result<Vec<usize>> {
        let above = child(self.alloc, part.place.as_str(), member.keyword)?;
        let mut numbers = Vec::new(self.alloc);
        let items = array(part, member)?;
        if items.is_empty() {
            return refuse(part, member, "is empty");
        }
        for (i, schema) in items.iter().enumerate() {
            let name = format!(in self.alloc; "{i}")?;
            let place = child(self.alloc, above.as_str(), name.as_str())?;
            numbers.push(self.number(place, schema)?)?;
        }
        Ok(numbers)
    }

    // Returns the numbers of the schemas in the keyword's value, an object, by member name.
    fn named(&mut self, part: &Part<'s>, member: Member<'s>) -> Result<BTreeMap<String, usize>> {
        let above = child(self.alloc, part.place.as_str(), member.keyword)?;
        let mut numbers = BTreeMap::new(self.alloc);
        for (name, schema) in object(part, member)? {
            let place = child(self.alloc, above.as_str(), name.as_str())?;
            let number = self.number(place, schema)?;
            numbers.insert(name.clone()?, number)?;
        }
        Ok(numbers)
    }
}

impl<'s> Member<'s> {
    // Returns another keyword of the same schema. Returns `None` if it is absent.
    fn sibling(self, keyword: &'static str) -> Option<Member<'s>> {
        let schema = self.schema;
        schema.get(keyword).map(|value| Member {
            keyword,
            value,
            schema,
        })
    }
}

// Reads a keyword that checks a value itself.
fn read_value<'s>(
    alloc: Global,
    part: &mut Part<'s>,
    member: Member<'s>,
    word: ValueKeyword,
) -> Result<()> {
    let claim = match word {
        ValueKeyword::Type => Claim::IsOfTypes(kinds(alloc, part, member)?),
        ValueKeyword::Enum => Claim::IsOneOf(array(part, member)?),
        ValueKeyword::Const => Claim::Is(member.value),
        ValueKeyword::AtLeast(measure) => Claim::AtLeast(measure, size(part, member)?),
        ValueKeyword::AtMost(measure) => Claim::AtMost(measure, size(part, member)?),
        ValueKeyword::Number(range) => Claim::Number(range, bound(part, member, range)?),
        ValueKeyword::UniqueItems => match member.value.as_bool() {
            Some(true) => Claim::HasDistinctItems,
            Some(false) => return Ok(()),
            None => return refuse(part, member, "is no boolean"),
        },
        ValueKeyword::Required => return read_required(part, member),
        ValueKeyword::DependentRequired => return read_dependent(part, member),
    };
    Ok(part.claim(member, claim)?)
}

// Reads the names of `required`.
fn read_required<'s>(part: &mut Part<'s>, member: Member<'s>) -> Result<()> {
    for name in array(part, member)? {
        match name.as_str() {
            Some(name) => part.claim(member, Claim::Has(name))?,
            None => return refuse(part, member, "has an item that is no string"),
        }
    }
    Ok(())
}

// Reads the names of `dependentRequired`.
fn read_dependent<'s>(part: &mut Part<'s>, member: Member<'s>) -> Result<()> {
    for (with, names) in object(part, member)? {
        let Some(names) = names.as_array() else {
            return refuse(part, member, "has a member that is no array");
        };
        for name in names {
            match name.as_str() {
                Some(name) => part.claim(member, Claim::HasSecondIfFirst(with.as_str(), name))?,
                None => return refuse(part, member, "has a name that is no string"),
            }
        }
    }
    Ok(())
}

// Returns the types in the value of `type`.
fn kinds<'s>(alloc: Global, part: &Part<'s>, member: Member<'s>) -> Result<Vec<Kind>> {
    let mut kinds = Vec::new(alloc);
    if member.value.is_string() {
        kinds.push(kind(part, member, member.value)?)?;
        return Ok(kinds);
    }
    for name in array(part, member)? {
        kinds.push(kind(part, member, name)?)?;
    }
    Ok(kinds)
}

fn kind(part: &Part<'_>, member: Member<'_>, name: &Value) -> Result<Kind> {
    let name = name.as_str().unwrap_or("");
    match KINDS.iter().find(|(of, _)| *of == name) {
        Some((_, kind)) => Ok(*kind),
        None => refuse(part, member, "is no type"),
    }
}

// Returns the value of a keyword, which has to be an array. The next functions do the same for
// other types.
fn array<'s>(part: &Part<'_>, member: Member<'s>) -> Result<&'s Vec<Value>> {
    match member.value.as_array() {
        Some(items) => Ok(items),
        None => refuse(part, member, "is no array"),
    }
}

fn object<'s>(part: &Part<'_>, member: Member<'s>) -> Result<&'s Map<String, Value>> {
    match member.value.as_object() {
        Some(members) => Ok(members),
        None => refuse(part, member, "is no object"),
    }
}

fn text<'s>(part: &Part<'_>, member: Member<'s>) -> Result<&'s str> {
    match member.value.as_str() {
        Some(text) => Ok(text),
        None => refuse(part, member, "is no string"),
    }
}

fn size(part: &Part<'_>, member: Member<'_>) -> Result<u64> {
    match member.value.as_u64() {
        Some(size) => Ok(size),
        None => refuse(part, member, "is no size"),
    }
}

// Returns the bound of a range. A factor has to be greater than zero.
fn bound(part: &Part<'_>, member: Member<'_>, range: Range) -> Result<Number> {
    match member.value.as_number() {
        Some(bound) if range != Range::MultipleOf || is_positive(bound) => Ok(*bound),
        _ => refuse(part, member, "is no number that it may be"),
    }
}

// Refuses a keyword. The error has its position.
fn refuse<T>(part: &Part<'_>, member: Member<'_>, why: &str) -> Result<T> {
    bail!("the schema's #{}/{} {why}", part.place, member.keyword)
}
