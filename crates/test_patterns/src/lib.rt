//! Tests of the front end by rows: patterns with their trees, texts that are refused with their
//! diagnoses, and sets.
#![tactic(auto)]

#[cfg(test)]
mod causes;
#[cfg(test)]
mod depths;
#[cfg(test)]
mod diagnoses;
#[cfg(test)]
mod ecmascript_table;
#[cfg(test)]
mod patterns;
#[cfg(test)]
mod printing;
#[cfg(test)]
mod sets;
#[cfg(test)]
mod table;
