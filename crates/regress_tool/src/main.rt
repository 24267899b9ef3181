//! Searches a text for a pattern: `regress-tool [--es2018] PATTERN FLAGS TEXT`.
#![tactic(auto)]

use regress_match::command_line;
use std::alloc::{AllocError, Global};
use std::env;
use std::io::{ErrorKind, Write};
use std::process::ExitCode;

// Returns the arguments after the program's name. An argument that is not UTF-8 is `None`.
fn gather(rt: &HostRuntime, alloc: Global) -> Result<Vec<Option<String>>, AllocError> {
    let mut words = Vec::new(alloc);
    match env::args(rt) {
        Ok(args) => {
            for word in args.skip(1) {
                words.push(Some(word))?;
            }
        }
        Err(e) if e.kind() == ErrorKind::OutOfMemory => return Err(AllocError),
        Err(_) => words.push(None)?,
    }
    Ok(words)
}

fn main(rt: HostRuntime) -> ExitCode {
    let alloc = rt.alloc();
    let mut out = rt.stdout();
    let mut err = rt.stderr();
    match gather(&rt, alloc) {
        Ok(words) => ExitCode::from(command_line::run(alloc, &words, &mut out, &mut err)),
        Err(_) => {
            let _ = writeln!(err, "out of memory");
            ExitCode::from(2)
        }
    }
}
