//! Tests of the inputs by rows: each public call at concrete types, on texts with known answers.
#![tactic(auto)]

#[cfg(test)]
mod answers;
#[cfg(test)]
mod asks;
#[cfg(test)]
mod matches;
#[cfg(test)]
mod positions;
#[cfg(test)]
mod rows;
#[cfg(test)]
mod table;
