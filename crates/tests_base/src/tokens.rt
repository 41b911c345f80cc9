//! The tokens of zone text and the texts of TTLs.
//!
//! A row has a text and what comes of it: the tokens with one space after each, and then `end` or `fault`. Items stand
//! in brackets, those of a list in parentheses beside; a blank is `_`, the end of a line `/`.

use base::{Lexer, ParseError, Token, parse_ttl};
use std::alloc::{AllocError, Global};

/// More tokens than any row has.
const ENOUGH: usize = 16;

/// One item, as rows show it.
fn show_item(shown: &mut String, item: &str) -> Result<(), AllocError> {
    shown.push_str("[")?;
    shown.push_str(item)?;
    shown.push_str("]")
}

/// Shows the items of a list after their opening parenthesis.
fn show_list(shown: &mut String, items: &[String]) -> Result<(), AllocError> {
    shown.push_str("(")?;
    for item in items {
        show_item(shown, item)?;
    }
    Ok(())
}

/// Shows a token, and the space after it.
fn show(shown: &mut String, token: &Token) -> Result<(), AllocError> {
    let sign = match token {
        Token::CharData(item) => {
            show_item(shown, item)?;
            " "
        }
        Token::List(items) => {
            show_list(shown, items)?;
            ") "
        }
        Token::Blank => "_ ",
        Token::EOL => "/ ",
        Token::At => "@ ",
        Token::Origin => "$ORIGIN ",
        Token::Include => "$INCLUDE ",
        Token::Ttl => "$TTL ",
    };
    shown.push_str(sign)
}

/// How a lexer ends: at the text's end, or by its fault; empty where a token was read.
fn end_of(read: &Result<Option<Token>, ParseError>) -> &'static str {
    match read {
        Ok(Some(_)) => "",
        Ok(None) => "end",
        Err(ParseError::Lexer) => "fault",
        Err(_) => "neither",
    }
}

/// Shows the tokens that are left. At the text's end, and at a fault, the lexer is asked a second time and answers the
/// same.
fn show_all(shown: &mut String, lexer: &mut Lexer<'_>) -> Result<(), AllocError> {
    for _ in 0..ENOUGH {
        let read = lexer.next_token();
        let ended = end_of(&read);
        let is_shown = match &read {
            Ok(Some(token)) => show(shown, token),
            _ => shown.push_str(ended),
        };
        drop(read);
        is_shown?;
        if !ended.is_empty() {
            let again = lexer.next_token();
            let is_other = end_of(&again) != ended;
            drop(again);
            return shown.push_str(if is_other { " once" } else { "" });
        }
    }
    Ok(())
}

/// Whether these tokens come of a text.
fn gives(alloc: Global, text: &str, expected: &str) -> bool {
    let mut shown = String::new(alloc);
    let mut lexer = Lexer::new(alloc, text);
    let is_shown = show_all(&mut shown, &mut lexer).is_ok();
    drop(lexer);
    let same = is_shown && shown.as_str() == expected;
    drop(shown);
    same
}

/// A text, and its tokens.
type Row = (&'static str, &'static str);

/// Lines and blanks.
const LINES: &[Row] = &[
    ("", "end"),
    ("\n", "/ end"),
    ("\r", "/ end"),
    ("\r\n", "/ end"),
    ("\n\r", "/ / end"),
    ("\r\r\n\n", "/ / / end"),
    (" ", "_ end"),
    ("\t \t", "_ end"),
    ("a", "[a] end"),
    ("a ", "[a] end"),
    (" a", "_ [a] end"),
    ("a\tb", "[a] [b] end"),
    ("a \t b", "[a] [b] end"),
    ("a\n b", "[a] / _ [b] end"),
    ("a\r\n\tb", "[a] / _ [b] end"),
    ("a\n\nb", "[a] / / [b] end"),
    (" \n", "_ / end"),
    ("a \r\nb\r", "[a] / [b] / end"),
];

/// Comments.
const COMMENTS: &[Row] = &[
    (";", "end"),
    ("; a b", "end"),
    ("; a\nb", "/ [b] end"),
    (" ; a\nb", "_ / [b] end"),
    ("a;b\nc", "[a] / [c] end"),
    ("a ; say \"b\nc", "[a] / [c] end"),
    (";(\n", "/ end"),
    ("; \\\nb", "/ [b] end"),
    (";\r\nb", "/ [b] end"),
    ("\";\" b", "[;] [b] end"),
    ("a\\;b c", "[a\\;b] [c] end"),
    ("; é\nb", "/ [b] end"),
];

/// Quoted texts.
const QUOTED: &[Row] = &[
    ("\"\"", "[] end"),
    ("\"a b\"", "[a b] end"),
    ("\"a\nb\"", "[a\nb] end"),
    ("\"a\r\nb\" c", "[a\r\nb] [c] end"),
    ("\"a\\\"b\"", "[a\\\"b] end"),
    ("\"a\\\\\"b", "[a\\\\] [b] end"),
    ("\"a\"\"b\"", "[a] [b] end"),
    ("a\"b\"c", "[a] [b] [c] end"),
    ("\"@\"", "[@] end"),
    ("\"$x\"", "[$x] end"),
    ("\"$TTL\"", "[$TTL] end"),
    ("\"(\"", "[(] end"),
    ("\"a\n\" b", "[a\n] [b] end"),
    ("\"", "fault"),
    ("\"a", "fault"),
    ("\"a\\\"", "fault"),
    ("a \"b\n", "[a] fault"),
];

/// Escapes.
const ESCAPES: &[Row] = &[
    ("a\\ b", "[a\\ b] end"),
    ("\\(a", "[\\(a] end"),
    ("\\@", "[\\@] end"),
    ("\\$x", "[\\$x] end"),
    ("\\\"a", "[\\\"a] end"),
    ("a\\\\ b", "[a\\\\] [b] end"),
    ("a\\000b", "[a\\000b] end"),
    ("a\\\nb", "[a\\\nb] end"),
    ("a\\\r\nb", "[a\\\r] / [b] end"),
    ("\\é", "[\\é] end"),
    ("\\", "fault"),
    ("a\\", "fault"),
    ("(a\\", "fault"),
];

/// Lists.
const LISTS: &[Row] = &[
    ("()", "() end"),
    ("( )", "() end"),
    ("(a b)", "([a][b]) end"),
    ("( a\nb ) c", "([a][b]) [c] end"),
    ("(a ; b )\nc)", "([a][c]) end"),
    ("(a ; b \" (\r\n\"c d\")", "([a][c d]) end"),
    ("(\"\")", "([]) end"),
    ("(@)", "([@]) end"),
    ("a(b)c", "[a] ([b]) [c] end"),
    ("(a)\n b", "([a]) / _ [b] end"),
    ("(a\n) b", "([a]) [b] end"),
    ("(\n)\nb", "() / [b] end"),
    ("(a)(b)", "([a]) ([b]) end"),
    ("(a\\) b)", "([a\\)][b]) end"),
    ("(\"$x\")", "([$x]) end"),
    ("(a$x)", "([a$x]) end"),
];

/// Lists that don't end, or hold what they can't.
const OPEN_LISTS: &[Row] = &[
    ("(", "fault"),
    ("(a", "fault"),
    ("(a;)", "fault"),
    ("(a(b))", "fault"),
    ("(\"a)", "fault"),
    ("($x)", "fault"),
    ("($TTL)", "fault"),
    ("($ORIGIN)", "fault"),
    ("($INCLUDE)", "fault"),
    (")", "fault"),
    ("a)", "[a] fault"),
    ("(a))", "([a]) fault"),
];

/// Items of their own.
const ITEMS: &[Row] = &[
    ("@", "@ end"),
    ("@ A", "@ [A] end"),
    ("@a", "[@a] end"),
    ("a@", "[a@] end"),
    ("@(", "@ fault"),
    ("$ORIGIN a.", "$ORIGIN [a.] end"),
    ("$INCLUDE f", "$INCLUDE [f] end"),
    ("$TTL 5\n", "$TTL [5] / end"),
    ("a $TTL", "[a] $TTL end"),
    (" $ORIGIN", "_ $ORIGIN end"),
    ("$TTL;5", "$TTL end"),
    ("$TTL\"5\"", "$TTL [5] end"),
    ("$ttl 5", "fault"),
    ("$Origin a.", "fault"),
    ("$TTLS", "fault"),
    ("$", "fault"),
    ("$X y", "fault"),
    ("a $", "[a] fault"),
    ("a$", "[a$] end"),
    ("a\u{0}b\u{c}c\u{feff}", "[a\u{0}b\u{c}c\u{feff}] end"),
    ("a\u{2028}b", "[a\u{2028}b] end"),
];

/// What the rows of a table are about.
#[derive(Clone, Copy)]
enum Table {
    Lines,
    Comments,
    Quoted,
    Escapes,
    Lists,
    OpenLists,
    Items,
}

const TABLES: &[Table] = &[
    Table::Lines,
    Table::Comments,
    Table::Quoted,
    Table::Escapes,
    Table::Lists,
    Table::OpenLists,
    Table::Items,
];

/// The rows of a table. Tables stand apart: what one costs to prove grows with the square of its length.
fn rows_of(table: Table) -> &'static [Row] {
    match table {
        Table::Lines => LINES,
        Table::Comments => COMMENTS,
        Table::Quoted => QUOTED,
        Table::Escapes => ESCAPES,
        Table::Lists => LISTS,
        Table::OpenLists => OPEN_LISTS,
        Table::Items => ITEMS,
    }
}

#[test]
fn rows_of_tokens(rt: HostRuntime) {
    for &table in TABLES {
        for &(text, expected) in rows_of(table) {
            assert!(rt; gives(rt.alloc(), text, expected), "{text}");
        }
    }
}

/// Whether a text says this number of seconds, or no TTL.
fn says(text: &str, seconds: Option<u32>) -> bool {
    let read = parse_ttl(text);
    let same = match &read {
        Ok(read) => seconds == Some(*read),
        Err(e) => seconds == None && matches!(e, ParseError::BadTtl),
    };
    drop(read);
    same
}

/// Texts, and how many seconds they say, if they are TTLs.
const TTLS: &[(&'static str, Option<u32>)] = &[
    ("0", Some(0)),
    ("00060", Some(60)),
    ("1h30", Some(3_630)),
    ("1w2d3h4m5s", Some(788_645)),
    ("1W2D3H4M5S", Some(788_645)),
    ("5s4m", Some(245)),
    ("1m1m", Some(120)),
    ("1s", Some(1)),
    ("1d", Some(86_400)),
    ("0000000000000000007", Some(7)),
    ("4294967295", Some(4_294_967_295)),
    ("4294967294s1s", Some(4_294_967_295)),
    ("7101w3d6h28m15s", Some(4_294_967_295)),
    ("7101w3d6h28m15", Some(4_294_967_295)),
    ("0w4294967295", Some(4_294_967_295)),
    ("", None),
    ("m", None),
    ("5x", None),
    ("x", None),
    ("1h m", None),
    ("1hm", None),
    ("-1", None),
    ("+1", None),
    (" 1", None),
    ("1 ", None),
    ("1.5h", None),
    ("4294967296", None),
    ("4294967295s1s", None),
    ("7101w3d6h28m16s", None),
    ("7102w", None),
    ("18446744073709551616", None),
    ("1w4294967295", None),
    ("٣", None),
    ("1\u{212a}", None),
];

#[test]
fn ttl_texts(rt: HostRuntime) {
    for &(text, seconds) in TTLS {
        assert!(rt; says(text, seconds), "{}", text);
    }
}
