//! Runs calls of JavaScript's RegExp methods. Each line of standard input describes some, for
//! example `/(?<y>\d{4})/y @3 exec "on 2018"`. For each call, it writes a line of JSON with the
//! result and with `lastIndex` after the call.
#![tactic(auto)]

mod calls;
mod json;
mod script;
mod stop;

use crate::calls::answer;
use crate::stop::Stop;
use anyhow::{Context, Result, bail};
use std::process::ExitCode;
use use_support::{CommandLine, EXIT_STATUS_FAILURE, Given, Program, run};

// The exit status if a pattern or its flags were refused.
const EXIT_STATUS_THROWN: u8 = 1;

const ABOUT: &str = "Answers the calls of RegExp methods on the lines of standard input, in JSON.";

const AFTER: &str =
    r#"A line is /PATTERN/FLAGS, or both as two JSON strings, an optional @NUMBER that sets lastIndex, and calls: exec TEXT,
test TEXT, search TEXT, match TEXT, matchAll TEXT, replace TEXT TEMPLATE, replaceWith TEXT, split TEXT [NUMBER], toString,
source, flags and lastIndex. A text or template is a JSON string. A number is decimal, such as -1 or 1.5e3, or
NaN, Infinity or -Infinity.
For example: /(?<y>\d{4})/y @3 exec "on 2018" lastIndex

If a pattern or its flags are refused, the answer is {"error":"SyntaxError"}. If a line is malformed, the answers of the
calls before the error are followed by {"error":"malformed line: WHY"}. The next lines are answered in both cases.
A blank line has no answer.

The exit status is 0 if each line was answered, 1 if a pattern or flags were refused, and 2 if a line was malformed,
standard input could not be read or an allocation failed."#;

static LINE: CommandLine = CommandLine {
    name: "use_regexp_tool",
    about: ABOUT,
    after: AFTER,
    arguments: &[],
};

// Answers a line, and returns its exit status.
fn answer_line(rt: &HostRuntime, line: &str) -> Result<u8> {
    let mut answers = String::new(rt.alloc());
    let status = match answer(rt.alloc(), &mut answers, line) {
        Ok(()) => 0,
        Err(Stop::SyntaxError) => {
            answers.push_str("{\"error\":\"SyntaxError\"}\n")?;
            EXIT_STATUS_THROWN
        }
        Err(Stop::Malformed(why)) => {
            let why = why.text();
            write!(answers, "{{\"error\":\"malformed line: {why}\"}}\n")?;
            EXIT_STATUS_FAILURE
        }
        Err(Stop::Memory) => bail!("out of memory"),
    };
    print!(rt; "{answers}")?;
    Ok(status)
}

// Answers each line of standard input, and returns the highest exit status of all lines.
fn answer_lines(rt: &HostRuntime) -> Result<u8> {
    let mut status = 0;
    for line in rt.stdin().lines(rt.alloc()) {
        let line = line.context("reading standard input")?;
        status = answer_line(rt, line.as_str())?.max(status);
    }
    Ok(status)
}

struct Tool;

impl Program for Tool {
    fn line() -> &'static CommandLine {
        &LINE
    }

    fn run(rt: &HostRuntime, _: &Given<'_>) -> Result<u8> {
        answer_lines(rt)
    }
}

fn main(rt: HostRuntime) -> ExitCode {
    run::<Tool>(&rt)
}
