//! `dnsmsg`: DNS messages on the command line.
#![tactic(auto)]

#[cfg(test)]
mod tests;

use commands::run::run;
use std::io;
use std::process::ExitCode;

/// Runs the command that the arguments name, on standard input and output.
fn main(rt: HostRuntime) -> io::Result<ExitCode> {
    let mut words = Vec::new(rt.alloc());
    for word in std::env::args(&rt)?.skip(1) {
        words.push(word)?;
    }
    let status = run(rt.alloc(), &words, &mut rt.stdin(), &mut rt.stdout());
    Ok(ExitCode::from(status))
}
