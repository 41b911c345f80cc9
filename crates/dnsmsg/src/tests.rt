//! Rows of input and output through `run`. The libraries have crates of tests of their own, `tests_base` and so on.
//!
//! Each test is proved, which costs most where a function lets go of several values: so the runs are made in small
//! functions, and a test goes over plain rows.

mod applies;
mod broken_streams;
mod cuts;
mod headers;
mod includes;
mod reads;
mod zones;

use commands::run::run;
use std::alloc::{AllocError, Global};
use std::io::Read;
use std::process::Abort;

/// The words as the program gets them.
fn words_of(alloc: Global, words: &[&str]) -> Result<Vec<String>, AllocError> {
    let mut texts = Vec::new(alloc);
    for word in words {
        texts.push(String::from_str(alloc, word)?)?;
    }
    Ok(texts)
}

/// The status and the output of a run.
fn run_on<R: Read>(
    alloc: Global,
    words: &[&str],
    input: &mut R,
) -> Result<(u8, Vec<u8>), AllocError> {
    let texts = words_of(alloc, words)?;
    let mut output = Vec::new(alloc);
    let status = run(alloc, &texts, input, &mut output);
    Ok((status, output))
}

/// Parts of a text.
type Parts = &'static [&'static str];

/// The words, the parts of the input, the status, and the parts of what is printed.
type Row = (&'static [&'static str], Parts, u8, Parts);

/// What is printed where the words name no command.
const USAGE: Parts = &["usage: dnsmsg COMMAND [WORDS]\n"];

/// Whether a run ends with this status and prints this.
fn is_so(
    alloc: Global,
    words: &[&str],
    input: &str,
    status: u8,
    printed: &str,
) -> Result<bool, AllocError> {
    let (ended, output) = run_on(alloc, words, &mut input.as_bytes())?;
    let is_so = ended == status && output.as_slice() == printed.as_bytes();
    drop(output);
    Ok(is_so)
}

/// A run ends with this status and prints this.
fn gives(
    rt: &(impl Abort + AllocGlobal),
    words: &[&str],
    input: &str,
    status: u8,
    printed: &str,
) -> Result<(), AllocError> {
    assert!(rt;
        is_so(rt.alloc(), words, input, status, printed)?,
        "{input} doesn't give {status} {printed}"
    );
    Ok(())
}

/// The same of an input and a text in parts.
fn parts_give(
    rt: &(impl Abort + AllocGlobal),
    words: &[&str],
    input: &[&str],
    status: u8,
    printed: &[&str],
) -> Result<(), AllocError> {
    let input = input.concat(rt.alloc())?;
    let printed = printed.concat(rt.alloc())?;
    gives(rt, words, &input, status, &printed)
}

/// Each row gives what it says.
fn all_give(rt: &(impl Abort + AllocGlobal), rows: &[Row]) -> Result<(), AllocError> {
    for &(words, input, status, printed) in rows {
        parts_give(rt, words, input, status, printed)?;
    }
    Ok(())
}
