//! Compiling a pattern into a handle.

ghost use Rattle.std.specs.Prelude.{◌≡◌, None};
ghost use Rattle.std.specs.Result.{result_map_both};
ghost use Rattle.regress_c.specs.Codes.{code_of_result};
ghost use Rattle.regress_c.specs.Compiling.{IsCompileResult, RepliesCompileResult, RepliesCompileResultWithSyntax, given_with_syntax, handle_content_after_compiling};
ghost use Rattle.regress_c.specs.Reading.{syntax_of_number};

use crate::flags::flags_from;
use crate::pattern::Pattern;
use crate::refusal::{DONE, Refusal};
use crate::source::Source;
use crate::syntax::syntax_of;
use regress_match::{Regex, Syntax, nesting};
use std::alloc::Global;

/// The maximum length and nesting depth of a pattern.
#[repr(C)]
#[derive(Clone, Copy)]
pub struct Bounds {
    /// The maximum length in code points.
    pub length: usize,
    /// The maximum number of parentheses that are open at the same time, outside of classes.
    pub nesting: usize,
}

impl Bounds {
    /// Bounds that do not limit patterns.
    pub(crate) const NO_PATTERN_BOUNDS: Bounds = Bounds {
        length: usize::MAX,
        nesting: usize::MAX,
    };
}

/// Compiles a pattern of the language with this number into an empty handle, and returns the code.
pub(crate) fn compile_with_syntax<S: Source>(
    alloc: Global,
    pattern: &mut Pattern,
    source: &S,
    flags: &[u8],
    syntax: u32,
    bounds: Bounds,
) -> u32
    ensures { RepliesCompileResultWithSyntax pattern.old.held (syntax_of_number syntax)
        (λ s. given_with_syntax s (S.is_text source.now) (S.characters source.now) flags.now) bounds
        pattern.new.held result }
{
    match syntax_of(syntax) {
        Some(syntax) => compile(alloc, pattern, source, flags, syntax, bounds),
        None => Refusal::UnknownSyntax.code(),
    }
}

/// Compiles a pattern into an empty handle, and returns the code.
pub(crate) fn compile<S: Source>(
    alloc: Global,
    pattern: &mut Pattern,
    source: &S,
    flags: &[u8],
    syntax: Syntax,
    bounds: Bounds,
) -> u32
    ensures { RepliesCompileResult pattern.old.held
        (given_with_syntax syntax (S.is_text source.now) (S.characters source.now) flags.now) bounds
        pattern.new.held result }
{
    match pattern.take(alloc) {
        Some(held) => {
            pattern.put(held);
            Refusal::Full.code()
        }
        None => fill(pattern, compiled(alloc, source, flags, syntax, bounds)),
    }
}

// Puts a compiled pattern into a handle, which must be empty, and returns the code.
fn fill(pattern: &mut Pattern, made: Result<Box<Regex>, Refusal>) -> u32
    requires { pattern.old.held ≡ None }
    ensures code { result ≡ code_of_result (result_map_both (λ b. b.value) (λ e. e) made) }
    ensures held { pattern.new.held ≡ handle_content_after_compiling None
        (result_map_both (λ b. b.value) (λ e. e) made) }
{
    match made {
        Ok(re) => {
            pattern.put(re);
            DONE
        }
        Err(refusal) => refusal.code(),
    }
}

// Compiles a pattern with the flags of these letters. Refuses a pattern that exceeds the bounds.
fn compiled<S: Source>(
    alloc: Global,
    source: &S,
    flags: &[u8],
    syntax: Syntax,
    bounds: Bounds,
) -> Result<Box<Regex>, Refusal>
    ensures { IsCompileResult (given_with_syntax syntax (S.is_text source.now) (S.characters source.now) flags.now)
        bounds (result_map_both (λ b. b.value) (λ e. e) result) }
{
    let flags = flags_from(flags)?;
    let code_points = source.code_points(alloc)?;
    if code_points.len() > bounds.length {
        return Err(Refusal::TooLong);
    }
    if nesting(&code_points) > bounds.nesting {
        return Err(Refusal::TooDeep);
    }
    match Regex::from_unicode_with_syntax(alloc, &code_points, flags, syntax) {
        Ok(re) => Ok(Box::new(alloc, re)?),
        Err(error) => Err(Refusal::of_error(error)),
    }
}
