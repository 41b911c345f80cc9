//! Texts that include others: how deep they go, and what stays after an included text.

use super::{Row, all_give};
use commands::run::run;
use std::alloc::{AllocError, Global};

/// Texts with their included texts, and what is printed.
const INCLUDED: &[Row] = &[
    // included texts
    (
        &["zone", "-", "f=$ORIGIN b.\ny 6 A 192.0.2.2\n"],
        &["$ORIGIN a.\n$INCLUDE f\nx 5 A 192.0.2.1\n"],
        0,
        &["$ORIGIN a.\nx.a. 5 IN A 192.0.2.1\ny.b. 6 IN A 192.0.2.2\n"],
    ),
    // and the origin of a name that has memory of its own
    (
        &["zone", "-", "f=$ORIGIN b.\ny 6 A 192.0.2.2\n"],
        &["$ORIGIN a-name-with-memory-of-its-own.\n$INCLUDE f\nx 5 A 192.0.2.1\n"],
        0,
        &[
            "$ORIGIN a-name-with-memory-of-its-own.\nx.a-name-with-memory-of-its-own. 5 IN A 192.0.2.1\ny.b. 6 IN A 192.0.2.2\n",
        ],
    ),
    (&["zone", "a."], &["$INCLUDE g\n"], 1, &["refused 20\n"]),
    (&["zone", "a."], &["$INCLUDE g"], 0, &["$ORIGIN a.\n"]),
    (
        &["zone", "a.", "f="],
        &["$INCLUDE f other.\n"],
        1,
        &["refused 19\n"],
    ),
    (
        &["zone", "a.", "f=$INCLUDE f\n"],
        &["$INCLUDE f\n"],
        1,
        &["refused 19\n"],
    ),
    (
        &["zone", "a.", "f=x 5 A 192.0.2.1", "f=x 6 TXT a=b"],
        &["$INCLUDE f\n"],
        0,
        &["$ORIGIN a.\nx.a. 6 IN TXT \"a=b\"\n"],
    ),
    // includes at the end of a text
    (
        &["zone", "a.", "f=x 5"],
        &["$INCLUDE f\n A 192.0.2.1"],
        0,
        &["$ORIGIN a.\nx.a. 5 IN A 192.0.2.1\n"],
    ),
    (
        &["zone", "a.", "f=$INCLUDE g"],
        &["$INCLUDE f\n"],
        0,
        &["$ORIGIN a.\n"],
    ),
    (
        &["zone", "a.", "f=x 5 A 192.0.2.1"],
        &["$INCLUDE f"],
        0,
        &["$ORIGIN a.\n"],
    ),
    (
        &["zone", "a.", "f=x 5 A 192.0.2.1"],
        &["$INCLUDE f\n"],
        0,
        &["$ORIGIN a.\nx.a. 5 IN A 192.0.2.1\n"],
    ),
    (
        &["zone", "a.", "f=x 5 A 192.0.2.1"],
        &["$INCLUDE f\n$INCLUDE f\n"],
        0,
        &["$ORIGIN a.\nx.a. 5 IN A 192.0.2.1\n"],
    ),
    (&["zone", "a."], &["$INCLUDE\n"], 1, &["refused 17\n"]),
];

/// The same: what stays after an included text, and what is in force within it.
const STAYING: &[Row] = &[
    // the origin stays within an included text; its last owner, class, default and last TTL go on after it
    (
        &["zone", "a.", "f=$ORIGIN b.\ny 6 A 192.0.2.2\n"],
        &["x 5 A 192.0.2.1\n$INCLUDE f\n TXT t\nz A 192.0.2.3\n"],
        0,
        &[
            "$ORIGIN a.\nx.a. 5 IN A 192.0.2.1\nz.a. 6 IN A 192.0.2.3\ny.b. 6 IN A 192.0.2.2\ny.b. 6 IN TXT \"t\"\n",
        ],
    ),
    (
        &["zone", "a.", "f=y 6 CH TXT s\n"],
        &["$INCLUDE f\nz TXT t\n"],
        0,
        &["$ORIGIN a.\ny.a. 6 CH TXT \"s\"\nz.a. 6 CH TXT \"t\"\n"],
    ),
    (
        &["zone", "a.", "f=$TTL 9\n"],
        &["w 5 TXT r\n$INCLUDE f\nx TXT s\ny 7 TXT t\nz TXT u\n"],
        0,
        &[
            "$ORIGIN a.\nw.a. 5 IN TXT \"r\"\nx.a. 9 IN TXT \"s\"\ny.a. 7 IN TXT \"t\"\nz.a. 9 IN TXT \"u\"\n",
        ],
    ),
    (
        &["zone", "a.", "f=w 8\n"],
        &["$TTL 9\n$INCLUDE f\nx TXT s\ny TXT t\n"],
        0,
        &["$ORIGIN a.\nx.a. 8 IN TXT \"s\"\ny.a. 9 IN TXT \"t\"\n"],
    ),
    // what stands before an included text is in force within it
    (
        &["zone", "-", "f= TXT s\ny TXT t\n"],
        &["$ORIGIN a.\nx 5 CH TXT r\n$INCLUDE f\n"],
        0,
        &["$ORIGIN a.\nx.a. 5 CH TXT \"r\"\nx.a. 5 CH TXT \"s\"\ny.a. 5 CH TXT \"t\"\n"],
    ),
    (
        &["zone", "-", "f=$ORIGIN a.\nx 5 TXT r\n"],
        &["$INCLUDE f\n"],
        1,
        &["refused 19\n"],
    ),
];

#[test]
fn rows_of_included_texts(rt: HostRuntime) -> Result<(), AllocError> {
    all_give(&rt, INCLUDED)
}

#[test]
fn rows_of_what_stays_after_an_included_text(rt: HostRuntime) -> Result<(), AllocError> {
    all_give(&rt, STAYING)
}

/// A text of a chain: its name, and what it includes.
fn link(alloc: Global, place: usize) -> Result<String, AllocError> {
    let next = place.saturating_add(1);
    format!(in alloc; "{place}=$INCLUDE {next}\n")
}

/// The last text of a chain.
fn end_of_chain(alloc: Global, place: usize, last: &str) -> Result<String, AllocError> {
    format!(in alloc; "{place}={last}")
}

/// The words of a zone under `a.` with `length` texts, each including the next, and with the last of them.
fn chain(alloc: Global, length: usize, last: &str) -> Result<Vec<String>, AllocError> {
    let mut words = Vec::new(alloc);
    words.push(String::from_str(alloc, "zone")?)?;
    words.push(String::from_str(alloc, "a.")?)?;
    for place in 1..length {
        words.push(link(alloc, place)?)?;
    }
    words.push(end_of_chain(alloc, length, last)?)?;
    Ok(words)
}

/// The status and the output of a text that includes the first text of a chain.
fn run_on_chain(alloc: Global, chain: &[String]) -> (u8, Vec<u8>) {
    let mut output = Vec::new(alloc);
    let status = run(alloc, chain, &mut "$INCLUDE 1\n".as_bytes(), &mut output);
    (status, output)
}

/// Whether a chain of `length` included texts, and a text that includes the first, end with this status and print this.
fn chain_gives(
    alloc: Global,
    length: usize,
    last: &str,
    status: u8,
    printed: &str,
) -> Result<bool, AllocError> {
    let words = chain(alloc, length, last)?;
    let (ended, output) = run_on_chain(alloc, &words);
    drop(words);
    let gives = ended == status && output.as_slice() == printed.as_bytes();
    drop(output);
    Ok(gives)
}

/// What is printed of a chain that ends with an address.
const FOUND: &str = "$ORIGIN a.\nx.a. 5 IN A 192.0.2.1\n";

/// How many texts are included, the last of them, the status, and what is printed. The depth is tested before the text
/// is looked up: what one text less deep is not found isn't looked for there.
const CHAINS: &[(usize, &'static str, u8, &'static str)] = &[
    (1, "x 5 A 192.0.2.1\n", 0, FOUND),
    (255, "x 5 A 192.0.2.1\n", 0, FOUND),
    (256, "x 5 A 192.0.2.1\n", 0, FOUND),
    (257, "x 5 A 192.0.2.1\n", 1, "refused 19\n"),
    (255, "$INCLUDE nope\n", 1, "refused 20\n"),
    (256, "$INCLUDE nope\n", 1, "refused 19\n"),
    (256, "$INCLUDE nope", 0, "$ORIGIN a.\n"),
];

#[test]
fn chains_of_included_texts(rt: HostRuntime) -> Result<(), AllocError> {
    for &(length, last, status, printed) in CHAINS {
        assert!(rt;
            chain_gives(rt.alloc(), length, last, status, printed)?,
            "{length}: {last}"
        );
    }
    Ok(())
}
