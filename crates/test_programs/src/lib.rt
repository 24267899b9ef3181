//! Tests of the compiler by rows: programs and start predicates of trees that are made by hand,
//! names, refusals, and wide and deep patterns.
#![tactic(auto)]

#[cfg(test)]
mod alternation_dispatch;
#[cfg(test)]
mod classes;
#[cfg(test)]
mod deep;
#[cfg(test)]
mod listing;
#[cfg(test)]
mod lookahead_and_exit_tables;
#[cfg(test)]
mod memo_analyses;
#[cfg(test)]
mod memo_tables;
#[cfg(test)]
mod must_iterate_tables;
#[cfg(test)]
mod parts;
#[cfg(test)]
mod plans;
#[cfg(test)]
mod predicates;
#[cfg(test)]
mod rows;
#[cfg(test)]
mod table;
