use super::{run_on, words_of};
use commands::run::run;
use std::alloc::{AllocError, Global};
use std::io::{self, ErrorKind, Read, Write};

/// The input of a header.
const HEADER: &[u8] = b"0110AA83 88776655 44332211\n";

/// Gives `left` bytes, then fails with an error of this kind.
#[derive(Drop)]
struct BrokenReader {
    left: usize,
    kind: ErrorKind,
}

impl Read for BrokenReader {
    fn read(&mut self, buf: &mut [u8]) -> io::Result<usize> {
        if self.left == 0 || buf.is_empty() {
            return Err(io::Error::from(self.kind));
        }
        self.left -= 1;
        buf[0] = b'0';
        Ok(1)
    }
}

/// Gives a text in pieces, and before each of them is interrupted once.
#[derive(Drop)]
struct InterruptedReader<'a> {
    left: &'a [u8],
    piece: usize,
    is_interrupted: bool,
}

impl Read for InterruptedReader<'_> {
    fn read(&mut self, buf: &mut [u8]) -> io::Result<usize> {
        self.is_interrupted = !self.is_interrupted;
        if self.is_interrupted {
            return Err(io::Error::from(ErrorKind::Interrupted));
        }
        let len = self.piece.min(self.left.len()).min(buf.len());
        buf[..len].copy_from_slice(&self.left[..len]);
        self.left = &self.left[len..];
        Ok(len)
    }
}

/// Whether a run on a text in pieces of this length ends well and prints this.
fn is_read_in_pieces(
    alloc: Global,
    words: &[&str],
    text: &[u8],
    piece: usize,
    printed: &[u8],
) -> Result<bool, AllocError> {
    let mut input = InterruptedReader {
        left: text,
        piece,
        is_interrupted: false,
    };
    let (status, output) = run_on(alloc, words, &mut input)?;
    Ok(status == 0 && output.as_slice() == printed)
}

#[test]
fn an_interrupted_read_is_tried_again(rt: HostRuntime) -> Result<(), AllocError> {
    let printed =
        b"272:RESPONSE:TC,RA:NXDomain:UPDATE\ncounts 34935 26197 17459 8721\n0110aa838877665544332211\n";
    for piece in [1, 5, HEADER.len()] {
        assert!(rt;
            is_read_in_pieces(rt.alloc(), &["header"], HEADER, piece, printed)?,
            "{piece}"
        );
    }
    Ok(())
}

/// A response with the answer `a.` 0 NULL, up to its data, of 50,000 bytes.
const LARGE: &[u8] = b"000780000000000100000000 01610000 0a0001 00000000 c350";

/// As many zero bytes.
const ZEROS: usize = 50_000;

/// That message in hexadecimal, with a line end.
fn large_message(alloc: Global) -> Result<Vec<u8>, AllocError> {
    let mut text = Vec::new(alloc);
    text.extend(LARGE.iter().copied().filter(|byte| *byte != b' '))?;
    text.resize(text.len().saturating_add(2 * ZEROS), b'0')?;
    text.push(b'\n')?;
    Ok(text)
}

/// A message that needs no cut is printed as it was read: 100,051 bytes in more than 3,000 reads, of which every other
/// one is interrupted.
#[test]
fn a_large_input_is_read_to_its_end(rt: HostRuntime) -> Result<(), AllocError> {
    let text = large_message(rt.alloc())?;
    let words = ["cut", "65535"];
    assert!(rt; is_read_in_pieces(rt.alloc(), &words, &text, 64, &text)?);
    Ok(())
}

/// Fails at its first write.
#[derive(Drop)]
struct BrokenWriter;

impl Write for BrokenWriter {
    fn write(&mut self, _buf: &[u8]) -> io::Result<usize> {
        Err(io::Error::from(ErrorKind::BrokenPipe))
    }

    fn flush(&mut self) -> io::Result<()> {
        Ok(())
    }
}

/// The status, and how many bytes are printed, where the reader fails after `left` bytes.
fn run_cut_off(
    alloc: Global,
    words: &[&str],
    left: usize,
    kind: ErrorKind,
) -> Result<(u8, usize), AllocError> {
    let (status, output) = run_on(alloc, words, &mut BrokenReader { left, kind })?;
    Ok((status, output.len()))
}

#[test]
fn a_reader_that_fails_is_status_three(rt: HostRuntime) -> Result<(), AllocError> {
    for &(left, kind) in &[
        (0, ErrorKind::ConnectionReset),
        (5, ErrorKind::ConnectionReset),
        (24, ErrorKind::ConnectionReset),
        (5, ErrorKind::OutOfMemory),
    ] {
        assert!(rt;
            run_cut_off(rt.alloc(), &["header"], left, kind)? == (3, 0),
            "after {left} bytes"
        );
    }
    Ok(())
}

#[test]
fn an_update_is_judged_before_the_input_is_read(rt: HostRuntime) -> Result<(), AllocError> {
    // `refused 24` for what isn't hexadecimal, `refused 4` for what is no whole message.
    for &(update, printed) in &[("0g", 11), ("00", 10)] {
        let words = ["apply", "example.", update];
        let kind = ErrorKind::ConnectionReset;
        assert!(rt;
            run_cut_off(rt.alloc(), &words, 0, kind)? == (1, printed),
            "{update}"
        );
    }
    Ok(())
}

/// The status where the output takes nothing.
fn status_unwritten(alloc: Global, words: &[&str], mut input: &[u8]) -> Result<u8, AllocError> {
    let texts = words_of(alloc, words)?;
    Ok(run(alloc, &texts, &mut input, &mut BrokenWriter))
}

#[test]
fn a_writer_that_fails_is_status_three(rt: HostRuntime) -> Result<(), AllocError> {
    assert!(rt; status_unwritten(rt.alloc(), &["header"], HEADER)? == 3);
    assert!(rt; status_unwritten(rt.alloc(), &["header"], b"0g")? == 3);
    assert!(rt; status_unwritten(rt.alloc(), &["header", "x"], HEADER)? == 3);
    Ok(())
}

/// Counts how many times it is read, and has nothing to give.
#[derive(Drop)]
struct CountingReader {
    calls: u32,
}

impl Read for CountingReader {
    fn read(&mut self, _buf: &mut [u8]) -> io::Result<usize> {
        self.calls = self.calls.saturating_add(1);
        Ok(0)
    }
}

/// The status, and how many times the input was read.
fn count_reads(alloc: Global, words: &[&str]) -> Result<(u8, u32), AllocError> {
    let mut input = CountingReader { calls: 0 };
    let (status, _output) = run_on(alloc, words, &mut input)?;
    Ok((status, input.calls))
}

/// Words that name no command.
const WRONG_WORDS: &[&'static [&'static str]] = &[
    &["header", "x"],
    &[],
    &["cut"],
    &["cut", "65536"],
    &["zones"],
];

#[test]
fn wrong_words_are_judged_before_the_input_is_read(rt: HostRuntime) -> Result<(), AllocError> {
    for (i, &words) in WRONG_WORDS.iter().enumerate() {
        assert!(rt; count_reads(rt.alloc(), words)? == (2, 0), "row {i}");
    }
    assert!(rt; count_reads(rt.alloc(), &["header"])?.1 > 0);
    Ok(())
}

/// Takes `room` bytes, one at a time, then fails.
#[derive(Drop)]
struct NarrowWriter {
    room: usize,
    taken: Vec<u8>,
}

impl Write for NarrowWriter {
    fn write(&mut self, buf: &[u8]) -> io::Result<usize> {
        let [first, ..] = buf else {
            return Ok(0);
        };
        if self.taken.len() >= self.room {
            return Err(io::Error::from(ErrorKind::BrokenPipe));
        }
        self.taken.push(*first)?;
        Ok(1)
    }

    fn flush(&mut self) -> io::Result<()> {
        Ok(())
    }
}

/// The status where the output takes `room` bytes, and whether those begin the line that is wanted.
fn run_until_full(
    alloc: Global,
    words: &[&str],
    mut input: &[u8],
    room: usize,
    wanted: &str,
) -> Result<(u8, bool), AllocError> {
    let texts = words_of(alloc, words)?;
    let taken = Vec::new(alloc);
    let mut output = NarrowWriter { room, taken };
    let status = run(alloc, &texts, &mut input, &mut output);
    let begins = output.taken.len() == room && wanted.as_bytes().starts_with(&output.taken);
    Ok((status, begins))
}

#[test]
fn a_write_that_fails_later_leaves_a_front_of_the_answer(
    rt: HostRuntime,
) -> Result<(), AllocError> {
    let usage = "usage: dnsmsg COMMAND [WORDS]\n";
    for room in 0..11 {
        assert!(rt;
            run_until_full(
                rt.alloc(),
                &["header"],
                HEADER,
                room,
                "272:RESPONSE:TC,RA:NXDomain:UPDATE\n"
            )? == (3, true),
            "{room}"
        );
        assert!(rt;
            run_until_full(rt.alloc(), &["header"], b"0g", room, "refused 24\n")? == (3, true),
            "{room}"
        );
        assert!(rt;
            run_until_full(rt.alloc(), &["header", "x"], HEADER, room, usage)? == (3, true),
            "{room}"
        );
    }
    Ok(())
}
