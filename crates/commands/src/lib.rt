//! What the program does with its words and its input. The program and the tests of `run` stand in `dnsmsg`.
#![tactic(auto)]

mod apply_command;
pub mod command;
mod cut_command;
mod header_command;
mod hex_input;
mod input;
mod limit;
mod read_command;
mod refusal;
pub mod run;
mod zone_command;
