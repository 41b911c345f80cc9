//! Tests of `authority`: what a zone has for names and types, what is answered, which bytes
//! are sent, and the messages of zone transfers.
#![tactic(auto)]

#[cfg(test)]
mod answers;
#[cfg(test)]
mod lookups;
#[cfg(test)]
mod responses;
#[cfg(test)]
mod rows;
#[cfg(test)]
mod transfers;
#[cfg(test)]
mod zone;
