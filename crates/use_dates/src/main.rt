//! Prints the byte ranges of the dates in a text.
#![tactic(auto)]

use anyhow::Result;
use regress_match::Regex;

fn main(rt: HostRuntime) -> Result<()> {
    let re = Regex::new(rt.alloc(), r"\d{4}-\d\d-\d\d")?;
    for date in re.find_iter("from 2018-06-27 to 2019-01-15")? {
        let date = date?;
        println!(rt; "{}..{}", date.start(), date.end())?;
    }
    Ok(())
}
