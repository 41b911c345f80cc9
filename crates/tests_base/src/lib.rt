//! Tests of `base` and `base_data`: names, the wire, tokens, types and classes, refusals and their texts; data of every
//! kind, its bytes, its order and its texts.
#![tactic(auto)]

#[cfg(test)]
mod answers;
#[cfg(test)]
mod data;
#[cfg(test)]
mod errors;
#[cfg(test)]
mod names;
#[cfg(test)]
mod texts;
#[cfg(test)]
mod tokens;
#[cfg(test)]
mod types;
#[cfg(test)]
mod wire;
