//! Tests of `op_use`, of the refusals of `txt`, and of the callers in `examples`: updates, responses, and zones that
//! updates change.
#![tactic(auto)]

#[cfg(test)]
mod callers;
#[cfg(test)]
mod refused_memory;
#[cfg(test)]
mod refused_zones;
#[cfg(test)]
mod responses;
#[cfg(test)]
mod updates;
#[cfg(test)]
mod zone_faults;
