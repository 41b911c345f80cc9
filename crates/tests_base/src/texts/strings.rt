//! Texts of character strings.

use super::{NONE, Row};

/// TXT.
pub(super) const STRINGS: &[Row] = &[
    ("a", r#""a""#),
    (",b c", r#""" "b c""#),
    ("v=spf1,-all,;x(y)", r#""v=spf1" "-all" ";x(y)""#),
    (r"\065\066c", r#""ABc""#),
    (r"\0650", r#""A0""#),
    (r"\000\031\127\255", r#""\000\031\127\255""#),
    (r"\032\126", r#"" ~""#),
    (r"\\", r#""\\""#),
    (r"\092", r#""\\""#),
    (r"\a\;\.", r#""a;.""#),
    ("é", r#""\195\169""#),
    (r"\é", r#""\195\169""#),
    ("a\tb\n", r#""a\009b\010""#),
    ("@", r#""@""#),
    ("$TTL", r#""$TTL""#),
    (r"\256", ""),
    (r"\999", ""),
    (r"\25", ""),
    (r"\2", ""),
    (r"\2a5", ""),
    (r"\25a", ""),
    (r"a\", ""),
    (r"a,\3", ""),
    (r"\12\034", ""),
    (NONE, ""),
];

/// A quote in an item is its byte, whether a backslash stands before it or not.
pub(super) const QUOTES: &[Row] = &[
    (r#"a"b"#, r#""a\"b""#),
    (r#"a\"b"#, r#""a\"b""#),
    (r#"""#, r#""\"""#),
    (r#""a""#, r#""\"a\"""#),
    (r"\034", r#""\"""#),
];
