//! Where zone text is refused: the number, the included text, line and column, and the words.

use crate::zone_check::{FaultFound, fuzsbanel_zone_check};
use tasks::included::Included;

/// Two texts that may be included, `a` twice and `b`, each after its name.
const INCLUDED: &[Included] = &[
    Included {
        name_len: 1,
        text_len: 1,
    },
    Included {
        name_len: 1,
        text_len: 11,
    },
    Included {
        name_len: 1,
        text_len: 8,
    },
];

const BYTES: &[u8] = b"a(b$INCLUDE a\na\nn 6 A 1";

/// A text under the origin `example.`, the answer, where it is refused, and for what.
struct Row {
    text: &'static [u8],
    answer: i64,
    line: usize,
    column: usize,
    name: &'static [u8],
    words: &'static [u8],
}

const ROWS: &[Row] = &[
    Row {
        text: b"n 6 A 192.0.2.1\n",
        answer: 0,
        line: 0,
        column: 0,
        name: b"",
        words: b"",
    },
    Row {
        text: b"$INCLUDE b\n",
        answer: -23,
        line: 2,
        column: 5,
        name: b"a",
        words: b"invalid data for type A",
    },
    Row {
        text: b"\n$INCLUDE c\n",
        answer: -20,
        line: 2,
        column: 10,
        name: b"",
        words: b"no text named c to include",
    },
    Row {
        text: b"n 6 TYPE1 \\# 0\nn TYPE1 \\# 3 000000",
        answer: -23,
        line: 2,
        column: 3,
        name: b"",
        words: b"invalid data for type A",
    },
    Row {
        text: b"n 6 A \xff",
        answer: -24,
        line: 0,
        column: 0,
        name: b"",
        words: b"",
    },
];

#[test]
fn faults_are_told(rt: HostRuntime) {
    for row in ROWS {
        let mut name = [b'-'; 4];
        let mut words = [b'-'; 40];
        let mut found = FaultFound {
            line: 9,
            column: 9,
            name_len: 9,
            words_len: 9,
        };
        let answer = fuzsbanel_zone_check(
            rt.alloc(),
            b"example.",
            row.text,
            INCLUDED,
            BYTES,
            &mut name,
            &mut words,
            &mut found,
        );
        assert!(rt; answer == row.answer && found.line == row.line && found.column == row.column);
        assert!(rt; found.name_len == row.name.len() && found.words_len == row.words.len());
        assert!(rt; name.starts_with(row.name) && words.starts_with(row.words));
        assert!(rt; name.ends_with(b"---") && words.ends_with(b"---"));
    }
}

#[test]
fn what_has_no_room_is_cut(rt: HostRuntime) {
    let mut words = [b'-'; 7];
    let mut found = FaultFound {
        line: 9,
        column: 9,
        name_len: 9,
        words_len: 9,
    };
    let answer = fuzsbanel_zone_check(
        rt.alloc(),
        b"example.",
        b"$INCLUDE b\n",
        INCLUDED,
        BYTES,
        &mut [],
        &mut words,
        &mut found,
    );
    assert!(rt;
        answer == -23 && found.name_len == 1 && found.words_len == 23 && words == *b"invalid"
    );
}
