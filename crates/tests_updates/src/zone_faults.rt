//! Where zone text is refused: the texts that were opened on the way, line, column, and the reason in words.

use base::{Name, ParseError};
use std::alloc::{AllocError, Global};
use std::collections::BTreeMap;
use std::test::Fail;
use txt::{FaultPlace, Inclusion, Parser, ZoneFault};

/// The texts that may be included.
const INCLUDES: &[(&'static str, &'static str)] = &[
    ("itself", "$INCLUDE itself\n"),
    ("outer", "\n$INCLUDE inner\n"),
    ("inner", "@ 60 A 192.0.2.1\n; a comment\nwww 60 A 192.0.2\n"),
    ("sound", "$ORIGIN b.\n@ 60 A 192.0.2.1\n"),
];

/// A text that is refused under an origin, or under none.
#[derive(Debug)]
struct Refused {
    origin: &'static str,
    text: &'static str,
    /// The texts that were opened on the way, each with the line of its `$INCLUDE`.
    opened: &'static [(&'static str, usize)],
    line: usize,
    column: usize,
    words: &'static str,
}

const REFUSED: &[Refused] = &[
    // A token that has no place, on the first line and further on.
    Refused {
        origin: "a.",
        text: "www 60 CNAME @\n",
        opened: &[],
        line: 1,
        column: 14,
        words: "unexpected token",
    },
    Refused {
        origin: "a.",
        text: "$INCLUDE\n",
        opened: &[],
        line: 1,
        column: 9,
        words: "unexpected token",
    },
    Refused {
        origin: "a.",
        text: "n 60 A (\n192.0.2.1\n) x )\n",
        opened: &[],
        line: 3,
        column: 5,
        words: "the text can't be split into tokens",
    },
    Refused {
        origin: "a.",
        text: "n 60 TXT \"a\nb\" $x\n",
        opened: &[],
        line: 2,
        column: 4,
        words: "the text can't be split into tokens",
    },
    // What an item of a sign is refused for.
    Refused {
        origin: "a.",
        text: "$TTL x\n",
        opened: &[],
        line: 1,
        column: 6,
        words: "invalid TTL",
    },
    Refused {
        origin: "a.",
        text: "\t\n$ORIGIN a..b\n",
        opened: &[],
        line: 2,
        column: 9,
        words: "invalid name",
    },
    Refused {
        origin: "a.",
        text: "$INCLUDE g\n",
        opened: &[],
        line: 1,
        column: 10,
        words: "no text named g to include",
    },
    Refused {
        origin: "a.",
        text: "$INCLUDE itself other.\n",
        opened: &[],
        line: 1,
        column: 17,
        words: "Domain name for $INCLUDE is not supported",
    },
    // An owner, and what stands at the type.
    Refused {
        origin: "a.",
        text: "n 60 A 192.0.2.1\na..b 60 A 192.0.2.1\n",
        opened: &[],
        line: 2,
        column: 1,
        words: "invalid name",
    },
    Refused {
        origin: "",
        text: "$ORIGIN parsed.zone.origin.org.\n faulty-record-type 60 IN A 1.2.3.4\n",
        opened: &[],
        line: 2,
        column: 2,
        words: "unknown record type: FAULTY-RECORD-TYPE",
    },
    Refused {
        origin: "a.",
        text: "; c\r\n\r\nn 60 A 192.0.2.300\r\n",
        opened: &[],
        line: 3,
        column: 6,
        words: "invalid data for type A",
    },
    Refused {
        origin: "a.",
        text: "n A 192.0.2.1\n",
        opened: &[],
        line: 1,
        column: 3,
        words: "record ttl not specified",
    },
    Refused {
        origin: "",
        text: "@ 60 A 192.0.2.1\n",
        opened: &[],
        line: 1,
        column: 6,
        words: "record name not specified",
    },
    Refused {
        origin: "a.",
        text: "@ 5 SOA a b 1 1 1 1 1\n@ SOA a b 2 1 1 1 1\n",
        opened: &[],
        line: 2,
        column: 3,
        words: "SOA is already specified",
    },
    // The end of the text.
    Refused {
        origin: "",
        text: "a. 60 A 192.0.2.1",
        opened: &[],
        line: 1,
        column: 18,
        words: "$ORIGIN was not specified",
    },
    // An included text, and the text after one.
    Refused {
        origin: "a.",
        text: "$INCLUDE outer\nx 60 A 1\n",
        opened: &[("outer", 1), ("inner", 2)],
        line: 3,
        column: 8,
        words: "invalid data for type A",
    },
    Refused {
        origin: "a.",
        text: "$INCLUDE sound\nx 60 A 1\n",
        opened: &[],
        line: 2,
        column: 6,
        words: "invalid data for type A",
    },
];

/// Texts that BIND's `named-checkzone` 9.18 refuses too, under the origin `a.`: the name of the included text that it
/// names, or none, and the line.
const CHECKED: &[(&'static str, &'static str, usize)] = &[
    ("$ORIGIN\n", "", 1),
    ("\t\n$ORIGIN a..b\n", "", 2),
    ("n 60 A 192.0.2.1\n$TTL\n", "", 2),
    ("$INCLUDE\n", "", 1),
    ("n 60 A 192.0.2.1\n\n\n$INCLUDE none\n", "", 4),
    ("$INCLUDE outer\nx 60 A 1\n", "inner", 3),
    ("$INCLUDE sound\nx 60 A 1\n", "", 2),
    ("$ORIGIN b.\n$FOO x\n", "", 2),
    ("n 60 A 192.0.2.1\na..b 60 A 192.0.2.1\n", "", 2),
    ("\n 60 A 192.0.2.1\n", "", 2),
    ("; c\r\n\r\nn A 192.0.2.1\r\n", "", 3),
    ("n 60 A 192.0.2.1\n b\n", "", 2),
    ("\n\nn 60 FAULTY 1\n", "", 3),
    ("; c\r\n\r\nn 60 A 192.0.2.300\r\n", "", 3),
    ("n 60 A 192.0.2.1\n 60 AAAA 1::2::3\n", "", 2),
    ("; (\n; \"\nn 60 MX x m\n", "", 3),
    ("n 60 SRV 1 2 ( x\n. )\n", "", 1),
    ("@ 60 SOA a b (\n1 2 3 4 5 )\n@ 60 NS m m\n", "", 3),
    ("@ 5 SOA a b 1 1 1 1 1\n; c\n@ 5 SOA a b 2 1 1 1 1\n", "", 3),
    ("n 60 A 192.0.2.1\nn 60 A 192.0.2.1 )\n", "", 2),
    ("n 60 TXT \"x\nn 60 A 192.0.2.1\n", "", 1),
    ("@ 60 A 192.0.2.1\n@ 60 A 192.0.2.1\\", "", 2),
];

/// The included texts by their names.
fn includes(alloc: Global) -> Result<BTreeMap<String, String>, AllocError> {
    let mut includes = BTreeMap::new(alloc);
    for &(name, text) in INCLUDES {
        includes.insert(
            String::from_str(alloc, name)?,
            String::from_str(alloc, text)?,
        )?;
    }
    Ok(includes)
}

/// The fault of a row's text, if it has one.
fn fault_of(
    alloc: Global,
    includes: &BTreeMap<String, String>,
    origin: &str,
    text: &str,
) -> Result<Option<ZoneFault>, ParseError> {
    let origin = if origin.is_empty() {
        None
    } else {
        Some(Name::parse(alloc, origin, None)?)
    };
    let parser = Parser::new(alloc, text, includes, origin);
    Ok(parser.parse_or_fault().err())
}

/// Whether these texts were opened on the way.
fn are_opened(found: &[Inclusion], wanted: &[(&str, usize)]) -> bool {
    if found.len() != wanted.len() {
        return false;
    }
    for (inclusion, &(name, line)) in found.iter().zip(wanted) {
        if inclusion.name.as_str() != name || inclusion.line != line {
            return false;
        }
    }
    true
}

/// Whether a fault is where a row says, in its words.
fn is_there(alloc: Global, fault: &ZoneFault, row: &Refused) -> Result<bool, AllocError> {
    let Some(place) = &fault.place else {
        return Ok(false);
    };
    let words = format!(in alloc; "{}", fault.error)?;
    Ok(
        are_opened(&place.inclusions, row.opened)
            && place.line == row.line
            && place.column == row.column
            && words.as_str() == row.words,
    )
}

#[test]
fn faults_stand_where_they_are_made(rt: HostRuntime) -> Result<(), Fail> {
    let includes = includes(rt.alloc())?;
    for row in REFUSED {
        let found = fault_of(rt.alloc(), &includes, row.origin, row.text)?;
        let is_right = match &found {
            Some(fault) => is_there(rt.alloc(), fault, row)?,
            None => false,
        };
        assert!(rt; is_right, "{row:?}");
    }
    Ok(())
}

/// Whether a fault stands on this line, in the included text of this name, or in the text itself.
fn is_on_line(fault: &ZoneFault, name: &str, line: usize) -> bool {
    let Some(place) = &fault.place else {
        return false;
    };
    let found = place
        .inclusions
        .last()
        .map_or("", |inclusion| inclusion.name.as_str());
    found == name && place.line == line
}

#[test]
fn faults_stand_on_the_lines_that_bind_names(rt: HostRuntime) -> Result<(), Fail> {
    let includes = includes(rt.alloc())?;
    for &(text, name, line) in CHECKED {
        let found = fault_of(rt.alloc(), &includes, "a.", text)?;
        let is_right = match &found {
            Some(fault) => is_on_line(fault, name, line),
            None => false,
        };
        assert!(rt; is_right, "{text}");
    }
    Ok(())
}

#[test]
fn texts_that_include_themselves_are_refused_at_the_256th(rt: HostRuntime) -> Result<(), Fail> {
    let includes = includes(rt.alloc())?;
    let found = fault_of(rt.alloc(), &includes, "a.", "\n$INCLUDE itself\n")?;
    let is_right = match &found {
        Some(
            ZoneFault {
                place: Some(place),
                ..
            },
        ) => {
            place.inclusions.len() == 256
                && place.inclusions[0].line == 2
                && place.inclusions[255].line == 1
                && place.line == 1
                && place.column == 10
        }
        _ => false,
    };
    assert!(rt; is_right);
    Ok(())
}

#[test]
fn sound_texts_have_no_fault(rt: HostRuntime) -> Result<(), Fail> {
    let includes = includes(rt.alloc())?;
    let found = fault_of(
        rt.alloc(),
        &includes,
        "a.",
        "@ 60 A 192.0.2.1\n$INCLUDE sound\n",
    )?;
    assert!(rt; found.is_none());
    Ok(())
}
