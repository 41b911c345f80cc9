//! Tests of `op`: headers, questions, EDNS, messages, and messages that mean harm.
#![tactic(auto)]

#[cfg(test)]
mod hostile;
#[cfg(test)]
mod messages;
#[cfg(test)]
mod refused_memory;
