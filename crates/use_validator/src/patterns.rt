//! The patterns of a schema.

ghost use Rattle.std.specs.Prelude.{◌≡◌, IfOk, IfSome, codes, string_bytes};
ghost use Rattle.regex_meaning.specs.FlagLettersAndEscaping.{flags_from_letters};
ghost use Rattle.regress_match.specs.PublicFlagsAsSpecFlags.{spec_flags_of};
ghost use Rattle.use_validator.specs.Patterns.{AreCompiledFromTheirTexts, IsProgramOfAsProposition, IsProgramOf};

use anyhow::{Result, bail};
use regress_match::{Error, Flags, Regex, Syntax};
use std::alloc::Global;
use std::collections::BTreeMap;

/// The language of a schema's patterns.
const SYNTAX: Syntax = Syntax::EcmaScript2018;

/// The compiled patterns of a schema, by their texts.
#[derive(Drop)]
pub struct Patterns {
    compiled: BTreeMap<String, Regex>,
    ghost compiled_from_their_texts: { AreCompiledFromTheirTexts compiled.entries },
}

impl Patterns {
    /// Creates the patterns of a schema that has none.
    pub fn none(alloc: Global) -> Self {
        let compiled = BTreeMap::new(alloc);
        Patterns { compiled }
    }

    /// Returns the compiled pattern with this text. Returns `None` if the schema does not have it.
    pub fn get(&self, pattern: &str) -> Option<&Regex>
        ensures { IfSome result (λ re. IsProgramOfAsProposition pattern.now re.now) }
    {
        self.compiled.get(pattern)
    }

    /// Compiles a pattern at a position of the schema, with the flag `u`.
    ///
    /// # Errors
    ///
    /// Returns an error if the pattern is refused; it says where and why. Also returns an error if
    /// an allocation fails.
    pub fn compile(&mut self, alloc: Global, place: &str, pattern: &str) -> Result<()> {
        if self.compiled.get(pattern).is_some() {
            return Ok(());
        }
        let re = compile(alloc, place, pattern)?;
        self.insert(String::from_str(alloc, pattern)?, re)
    }

    // Adds a compiled pattern.
    fn insert(&mut self, pattern: String, re: Regex) -> Result<()>
        requires { IsProgramOf (string_bytes pattern) re }
    {
        self.compiled.insert(pattern, re)?;
        Ok(())
    }
}

// Compiles a pattern. If it is refused, the error says where and why.
fn compile(alloc: Global, place: &str, pattern: &str) -> Result<Regex>
    ensures { IfOk result (IsProgramOf pattern.now) }
{
    let why = match read(alloc, pattern) {
        Ok(re) => return Ok(re),
        Err(why) => why,
    };
    if let Error::Parse(_) = why {
        if let Some(diagnosis) = Regex::diagnose_with_syntax(alloc, pattern, flags(), SYNTAX)? {
            bail!(
                "the schema's #{place} is refused: {diagnosis}\n{}",
                diagnosis.below_text(pattern)
            );
        }
    }
    bail!("the schema's #{place} is refused: {why}")
}

// Compiles a pattern, and returns the engine's error if it is refused.
fn read(alloc: Global, pattern: &str) -> Result<Regex, Error>
    ensures { IfOk result (IsProgramOf pattern.now) }
{
    Regex::with_syntax(alloc, pattern, flags(), SYNTAX)
}

// Returns the flags of a schema's patterns.
fn flags() -> Flags
    ensures { spec_flags_of result ≡ flags_from_letters (codes "u") }
{
    Flags::from("u")
}
