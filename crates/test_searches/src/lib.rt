//! Tests of searches by every call and executor, of matches, of replacements, and of the program.
//! No other crate uses this one.
#![tactic(auto)]

#[cfg(test)]
mod anchored;
#[cfg(test)]
mod backends;
#[cfg(test)]
mod calls;
#[cfg(test)]
mod closures;
#[cfg(test)]
mod constructors;
#[cfg(test)]
mod deep;
#[cfg(test)]
mod errors;
#[cfg(test)]
mod flags;
#[cfg(test)]
mod groups;
#[cfg(test)]
mod lines;
#[cfg(test)]
mod memoization;
#[cfg(test)]
mod padded_texts;
#[cfg(test)]
mod paid_work;
#[cfg(test)]
mod patterns;
#[cfg(test)]
mod profile;
#[cfg(test)]
mod replace;
#[cfg(test)]
mod rows;
#[cfg(test)]
mod search_methods;
#[cfg(test)]
mod searches;
#[cfg(test)]
mod starts;
#[cfg(test)]
mod step_limits;
#[cfg(test)]
mod table;
#[cfg(test)]
mod tests;
#[cfg(test)]
mod tool;
#[cfg(test)]
mod units;
#[cfg(test)]
mod work_limits;
