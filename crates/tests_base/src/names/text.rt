//! Names in texts, and names compared.

use super::{has_labels, name};
use base::{LowerName, Name, ParseError, ProtoError, RecordType, RrKey};
use std::alloc::{AllocError, Global};
use std::cmp::Ordering;
use test_tools::forms::{has_text, is_copied};
use test_tools::hashes::hash_alike;

/// Stands for a name that prints as another text than is wanted.
const OTHER: u8 = 255;

/// The number of the refusal of a text; 0 where a name is read that prints as is wanted, or anyhow if nothing is.
fn answer(alloc: Global, text: &str, origin: Option<&Name>, wanted: Option<&str>) -> u8 {
    let found = Name::parse(alloc, text, origin);
    let number = match &found {
        Ok(read) => match wanted {
            Some(printed) if !has_text(alloc, read, printed) => OTHER,
            _ => 0,
        },
        Err(e) => e.number(),
    };
    drop(found);
    number
}

/// The same of a text under an origin, which has to be read too; the empty text is none.
fn answer_under(alloc: Global, origin: &str, text: &str, wanted: Option<&str>) -> u8 {
    if origin.is_empty() {
        return answer(alloc, text, None, wanted);
    }
    let origin = name(alloc, origin);
    let number = match &origin {
        Ok(origin) => answer(alloc, text, Some(origin), wanted),
        Err(_) => OTHER,
    };
    drop(origin);
    number
}

/// Origins, of which the empty text is none, texts under them, and how the names print that are read of these.
const PRINTED: &[(&'static str, &'static str, &'static str)] = &[
    ("", "www.example.com.", "www.example.com."),
    ("", "WWW.Example.com", "WWW.Example.com"),
    ("", ".", "."),
    ("", "a", "a"),
    ("", "a.", "a."),
    ("", r"a\.b.c.", r"a\.b.c."),
    ("", r"\065.", "A."),
    ("", r"\000.", r"\000."),
    ("", r"\255\127\032\033\126", r"\255\127\032!~"),
    ("", r"a\ b.", r"a\032b."),
    ("", r"\@", r"\@"),
    ("", "a@b.", r"a\@b."),
    ("", "@.", r"\@."),
    ("", "a;b.$x.\"y\".(z).", r#"a\;b.\$x.\"y\".\(z\)."#),
    ("", r"a\\b.", r"a\\b."),
    ("", r"\a\-", "a-"),
    ("", "*._sip._tcp.", "*._sip._tcp."),
    ("", r"\092.\046.", r"\\.\.."),
    ("Example.com.", "www", "www.Example.com."),
    ("Example.com.", "a.b", "a.b.Example.com."),
    ("Example.com.", "www.", "www."),
    ("Example.com.", ".", "."),
    ("Example.com.", "@", "Example.com."),
    ("Example.com.", "@.", r"\@."),
    ("Example.com.", r"\@", r"\@.Example.com."),
    (".", "a", "a."),
];

const REFUSED: &[&'static str] = &[
    "", "..", "a..b", ".a", "a..", r"\25", r"\2", r"\256", r"\999", r"\2a5", r"a\", "@", "a b",
    " ", "a\tb", "\u{7F}", "\u{E9}", "\\\u{E9}", r"\1 2",
];

#[test]
fn names_of_texts(rt: HostRuntime) {
    for &(origin, text, printed) in PRINTED {
        assert!(rt;
            answer_under(rt.alloc(), origin, text, Some(printed)) == 0,
            "{text}"
        );
    }
}

#[test]
fn texts_of_no_name(rt: HostRuntime) {
    for &text in REFUSED {
        assert!(rt; answer(rt.alloc(), text, None, None) == 23, "{text}");
    }
}

/// Whether a text is read as a name of these labels, as the root if it is complete.
fn reads_as(alloc: Global, text: &str, is_complete: bool, labels: &[&[u8]]) -> bool {
    let found = name(alloc, text);
    let is_read = match &found {
        Ok(read) => {
            let flags = read.is_fqdn() == is_complete && read.is_root() == is_complete;
            flags && has_labels(read, labels)
        }
        Err(_) => false,
    };
    drop(found);
    is_read
}

#[test]
fn labels_of_texts(rt: HostRuntime) {
    let labels = [b"Ab.\xFF".as_slice(), b"@".as_slice(), b"c".as_slice()];
    let are_read = reads_as(rt.alloc(), r"\065b\.\255.\@.c", false, &labels);
    assert!(rt; are_read && reads_as(rt.alloc(), ".", true, &[]));
}

/// The length of a text in parts, and the number of its refusal under an origin in parts; 0 where it is read.
fn refusal_of_long(alloc: Global, origin: &[&str], parts: &[&str]) -> (usize, u8) {
    let origin: Result<String, AllocError> = origin.concat(alloc);
    let text: Result<String, AllocError> = parts.concat(alloc);
    let said = match (&origin, &text) {
        (Ok(origin), Ok(text)) => (text.len(), answer_under(alloc, origin, text, None)),
        _ => (0, OTHER),
    };
    drop(text);
    drop(origin);
    said
}

/// Labels of 61 to 64 letters.
const L61: &str = "aaaaaaaaaaaaaaaaaaaaaaaaaaaaaaaaaaaaaaaaaaaaaaaaaaaaaaaaaaaaa";

const L62: &str = "aaaaaaaaaaaaaaaaaaaaaaaaaaaaaaaaaaaaaaaaaaaaaaaaaaaaaaaaaaaaaa";

const L63: &str = "aaaaaaaaaaaaaaaaaaaaaaaaaaaaaaaaaaaaaaaaaaaaaaaaaaaaaaaaaaaaaaa";

const L64: &str = "aaaaaaaaaaaaaaaaaaaaaaaaaaaaaaaaaaaaaaaaaaaaaaaaaaaaaaaaaaaaaaaa";

/// The parts of an origin, if there is one, and of a text, how long that is, and the number of its refusal; 0 where it
/// is read.
const LONG: &[(&'static [&'static str], &'static [&'static str], usize, u8)] = &[
    (&[], &[L63, "."], 64, 0),
    (&[], &[L64, "."], 65, 23),
    (&[], &[L63, ".", L63, ".", L63, ".", L61, "."], 254, 0),
    (&[], &[L63, ".", L63, ".", L63, ".", L62, "."], 255, 23),
    (&[], &[L63, ".", L63, ".", L63, ".", L63, "."], 256, 23),
    (&[L63, ".", L63, ".", L63, "."], &[L61], 61, 0),
    (&[L63, ".", L63, ".", L63, "."], &[L62], 62, 23),
    (&["Example.com."], &[], 0, 23),
];

#[test]
fn lengths_of_names(rt: HostRuntime) {
    for &(origin, parts, len, number) in LONG {
        let said = refusal_of_long(rt.alloc(), origin, parts);
        assert!(rt; said == (len, number), "{len}");
    }
}

/// How two names stand to each other.
#[derive(Clone, Copy)]
enum Relation {
    /// They are equal and hash alike.
    Equal,
    Unequal,
    /// The first has this order before the second.
    Ordered(Ordering),
    /// The first is a zone of the second, or isn't.
    Zone(bool),
    /// The second is the first without its first label.
    Base,
    /// The second is the first with an asterisk in the place of its first label.
    Wildcard,
}

/// Whether this name was made, letter case and flag too.
fn is_made(made: Result<Name, ProtoError>, wanted: &Name) -> bool {
    let same = match &made {
        Ok(name) => name.eq_case(wanted),
        Err(_) => false,
    };
    drop(made);
    same
}

/// Whether a copy of the first with an asterisk in the place of its first label is the second.
fn is_wildcard(first: &Name, second: &Name) -> bool {
    match first.clone() {
        Ok(copy) => is_made(copy.into_wildcard(), second),
        Err(_) => false,
    }
}

/// Whether two names stand so to each other.
fn relate(first: &Name, second: &Name, relation: Relation) -> bool {
    match relation {
        Relation::Equal => first == second && hash_alike(first, second),
        Relation::Unequal => first != second,
        Relation::Ordered(wanted) => first.cmp(second) == wanted,
        Relation::Zone(wanted) => first.zone_of(second) == wanted,
        Relation::Base => is_made(first.base_name(), second),
        Relation::Wildcard => is_wildcard(first, second),
    }
}

/// Whether the names of two texts stand so to each other.
fn stand(alloc: Global, one: &str, other: &str, relation: Relation) -> bool {
    let names = (name(alloc, one), name(alloc, other));
    let do_stand = match &names {
        (Ok(first), Ok(second)) => relate(first, second, relation),
        _ => false,
    };
    drop(names);
    do_stand
}

/// Texts of names, and how these stand to each other.
const RELATIONS: &[(&'static str, &'static str, Relation)] = &[
    ("WWW.a.", "www.A.", Relation::Equal),
    ("A.b.", "a.B.", Relation::Ordered(Ordering::Equal)),
    ("a.", "a", Relation::Unequal),
    ("a.", "b.", Relation::Unequal),
    ("a.b.", r"a\.b.", Relation::Unequal),
    ("[.", "{.", Relation::Unequal),
    ("@.", "`.", Relation::Unequal),
    (r"\192.", r"\224.", Relation::Unequal),
    ("a.", "a.a.", Relation::Unequal),
    ("com.", "www.example.COM.", Relation::Zone(true)),
    ("Example.com.", "www.example.COM.", Relation::Zone(true)),
    ("www.example.com.", "www.example.com.", Relation::Zone(true)),
    ("www.example.com.", "com.", Relation::Zone(false)),
    (".", "a.", Relation::Zone(true)),
    (".", ".", Relation::Zone(true)),
    (".", "a", Relation::Zone(true)),
    ("a.", ".", Relation::Zone(false)),
    ("com", "example.com.", Relation::Zone(true)),
    ("com.", "example.com", Relation::Zone(true)),
    ("ple.com.", "example.com.", Relation::Zone(false)),
    ("www.", "www.com.", Relation::Zone(false)),
    ("a.com.", "b.com.", Relation::Zone(false)),
    ("b.com.", r"a\.b.com.", Relation::Zone(false)),
];

/// The same of names that are made of others.
const MADE: &[(&'static str, &'static str, Relation)] = &[
    ("WWW.Example.com.", "Example.com.", Relation::Base),
    ("www.A", "A", Relation::Base),
    ("com.", ".", Relation::Base),
    (".", ".", Relation::Base),
    (
        "a.thirty-letters-and-some-more-of-them.B.",
        "thirty-letters-and-some-more-of-them.B.",
        Relation::Base,
    ),
    ("WWW.Example.com.", "*.Example.com.", Relation::Wildcard),
    ("www", "*", Relation::Wildcard),
    (".", ".", Relation::Wildcard),
    (
        "a.thirty-letters-and-some-more-of-them.B.",
        "*.thirty-letters-and-some-more-of-them.B.",
        Relation::Wildcard,
    ),
];

/// Relative names first; then the example of RFC 4034, 6.1.
const ASCENDING: &[&'static str] = &[
    "a",
    "z.a",
    "b",
    ".",
    "a.",
    "ab.",
    "A.b.",
    "b.b.",
    "example.",
    "a.example.",
    "yljkjljk.a.example.",
    "Z.a.example.",
    "zABC.a.EXAMPLE.",
    "z.example.",
    r"\001.z.example.",
    "*.z.example.",
    r"\200.z.example.",
];

#[test]
fn names_made_of_others(rt: HostRuntime) {
    for &(one, other, relation) in MADE {
        let do_stand = stand(rt.alloc(), one, other, relation);
        assert!(rt; do_stand, "{one} {other}");
    }
}

#[test]
fn names_compared(rt: HostRuntime) {
    for &(one, other, relation) in RELATIONS {
        assert!(rt; stand(rt.alloc(), one, other, relation), "{one} {other}");
    }
}

#[test]
fn names_in_their_order(rt: HostRuntime) {
    for (i, one) in ASCENDING.iter().enumerate() {
        for (j, other) in ASCENDING.iter().enumerate() {
            let order = Relation::Ordered(i.cmp(&j));
            assert!(rt; stand(rt.alloc(), one, other, order), "{one} {other}");
        }
    }
}

/// The lowered name that a text reads as.
fn lower(alloc: Global, text: &str) -> Result<LowerName, ParseError> {
    let read = name(alloc, text)?;
    let lowered = LowerName::new(alloc, &read);
    drop(read);
    match lowered {
        Ok(lowered) => Ok(lowered),
        Err(_) => Err(ParseError::Memory),
    }
}

/// A text of a name, and a type.
type Key = (&'static str, RecordType);

/// The key of a text and a type.
fn key(alloc: Global, (text, record_type): Key) -> Result<RrKey, ParseError> {
    Ok(RrKey::new(lower(alloc, text)?, record_type))
}

/// Whether the keys of two texts and types have this order, and are equal only where that is equality.
fn have_order(alloc: Global, one: Key, other: Key, order: Ordering) -> bool {
    let keys = (key(alloc, one), key(alloc, other));
    let same = match &keys {
        (Ok(first), Ok(second)) => {
            first.cmp(second) == order && (first == second) == (order == Ordering::Equal)
        }
        _ => false,
    };
    drop(keys);
    same
}

/// Keys, and their places in the order: two have the same.
const KEYS: &[(Key, u8)] = &[
    (("z", RecordType::ANY), 0),
    (("A.", RecordType::A), 1),
    (("a.", RecordType::NS), 2),
    (("B.a.", RecordType::A), 3),
    (("b.", RecordType::A), 4),
    (("A.b.", RecordType::MX), 5),
    (("a.B.", RecordType::MX), 5),
];

#[test]
fn keys(rt: HostRuntime) {
    for &(one, i) in KEYS {
        for &(other, j) in KEYS {
            assert!(rt; have_order(rt.alloc(), one, other, i.cmp(&j)), "{i} {j}");
        }
    }
}

/// Names, and the same in lower case; the second has memory of its own.
const LOWERED: &[(&'static str, &'static str)] = &[
    ("WWW.Example.Com", "www.example.com"),
    (
        "A-Name-With-Memory-Of-Its-Own.",
        "a-name-with-memory-of-its-own.",
    ),
];

#[test]
fn lowered_names(rt: HostRuntime) -> Result<(), ParseError> {
    for &(text, wanted) in LOWERED {
        let lowered = lower(rt.alloc(), text)?;
        let is_shown = has_text(rt.alloc(), &lowered, wanted);
        let is_copied = is_copied(lowered);
        assert!(rt; is_shown && is_copied, "{text}");
    }
    Ok(())
}
