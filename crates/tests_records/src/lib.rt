//! Tests of `rr`: records and record sets.
#![tactic(auto)]

#[cfg(test)]
mod records;
#[cfg(test)]
mod refused_memory;
#[cfg(test)]
mod rows;
#[cfg(test)]
mod sets;
