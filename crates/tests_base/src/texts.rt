//! Data from the items of zone text: what is read is shown again, by the rules of the texts of data, and what is
//! refused answers its number.

mod addresses;
mod fields;
mod strings;

use addresses::{DOTTED, GROUPS, GROUPS_LEFT_OUT};
use base::{Name, ParseError, RecordType};
use base_data::RData;
use fields::{
    MAIL, MAIL_UNDER, NAMES, NAMES_UNDER_A_RELATIVE_ORIGIN, NAMES_UNDER_AN_ORIGIN, SERVICES,
    SERVICES_UNDER, SOAS, SOAS_UNDER,
};
use std::alloc::{AllocError, Global};
use strings::{QUOTES, STRINGS};
use test_tools::forms::has_text;

/// The items of a text, with commas between them, and the text of the data that they name; none where they are refused.
type Row = (&'static str, &'static str);

/// Stands for no items at all.
const NONE: &str = "none";

/// Whether data was read that has this text; or, where that is empty, whether there was a refusal of this number.
fn is_answer(alloc: Global, found: Result<RData, ParseError>, text: &str, number: u8) -> bool {
    let is_answer = match &found {
        Ok(data) => has_text(alloc, data, text),
        Err(e) => text.is_empty() && e.number() == number,
    };
    drop(found);
    is_answer
}

/// The items that stand between commas, each in a text of its own.
fn words_of(alloc: Global, items: &str) -> Result<Vec<String>, AllocError> {
    let mut words = Vec::new(alloc);
    if items != NONE {
        for item in items.split(',') {
            words.push(String::from_str(alloc, item)?)?;
        }
    }
    Ok(words)
}

/// Whether the items of a row give its text or the refusal under an origin.
fn give(
    alloc: Global,
    record_type: RecordType,
    (items, text): (&str, &str),
    origin: Option<&Name>,
    number: u8,
) -> bool {
    let words = words_of(alloc, items);
    let is_given = match &words {
        Ok(words) => {
            let found = RData::from_tokens(alloc, record_type, words.iter(), origin);
            is_answer(alloc, found, text, number)
        }
        Err(_) => false,
    };
    drop(words);
    is_given
}

/// The number of the first row that doesn't give its text or the refusal of this number under an origin, if there is
/// one.
fn first_fault(
    alloc: Global,
    record_type: RecordType,
    origin: Option<&Name>,
    rows: &[Row],
    number: u8,
) -> Option<usize> {
    for (i, &row) in rows.iter().enumerate() {
        if !give(alloc, record_type, row, origin, number) {
            return Some(i);
        }
    }
    None
}

/// The same under the origin of a text, which has to be read too; the empty text is none.
fn first_fault_under(
    alloc: Global,
    record_type: RecordType,
    origin: &str,
    rows: &[Row],
    number: u8,
) -> Option<usize> {
    if origin.is_empty() {
        return first_fault(alloc, record_type, None, rows, number);
    }
    let origin = Name::parse(alloc, origin, None);
    let fault = match &origin {
        Ok(origin) => first_fault(alloc, record_type, Some(origin), rows, number),
        Err(_) => Some(rows.len()),
    };
    drop(origin);
    fault
}

/// Items of the types without a text form.
const NO_TEXTS: &[Row] = &[
    (NONE, ""),
    ("192.0.2.1", ""),
    (r"\#,0", ""),
    ("10,mail.", ""),
];

/// A table of rows.
#[derive(Clone, Copy)]
enum Table {
    Dotted,
    Groups,
    GroupsLeftOut,
    Names,
    NamesUnderAnOrigin,
    NamesUnderARelativeOrigin,
    Mail,
    MailUnder,
    Services,
    ServicesUnder,
    Soas,
    SoasUnder,
    Strings,
    Quotes,
    NoTexts,
}

/// The rows of a table. Tables stand apart: what one costs to prove grows with the square of its length.
fn rows_of(table: Table) -> &'static [Row] {
    match table {
        Table::Dotted => DOTTED,
        Table::Groups => GROUPS,
        Table::GroupsLeftOut => GROUPS_LEFT_OUT,
        Table::Names => NAMES,
        Table::NamesUnderAnOrigin => NAMES_UNDER_AN_ORIGIN,
        Table::NamesUnderARelativeOrigin => NAMES_UNDER_A_RELATIVE_ORIGIN,
        Table::Mail => MAIL,
        Table::MailUnder => MAIL_UNDER,
        Table::Services => SERVICES,
        Table::ServicesUnder => SERVICES_UNDER,
        Table::Soas => SOAS,
        Table::SoasUnder => SOAS_UNDER,
        Table::Strings => STRINGS,
        Table::Quotes => QUOTES,
        Table::NoTexts => NO_TEXTS,
    }
}

/// Types, origins, of which the empty text is none, and tables of rows of them.
const OF_TYPES: &[(RecordType, &'static str, Table)] = &[
    (RecordType::A, "", Table::Dotted),
    (RecordType::AAAA, "", Table::Groups),
    (RecordType::AAAA, "", Table::GroupsLeftOut),
    (RecordType::NS, "", Table::Names),
    (RecordType::CNAME, "", Table::Names),
    (RecordType::PTR, "", Table::Names),
    (RecordType::ANAME, "", Table::Names),
    (RecordType::NS, "sub.example.", Table::NamesUnderAnOrigin),
    (RecordType::CNAME, "sub.example.", Table::NamesUnderAnOrigin),
    (RecordType::PTR, "sub.example.", Table::NamesUnderAnOrigin),
    (RecordType::ANAME, "sub.example.", Table::NamesUnderAnOrigin),
    (RecordType::NS, "sub", Table::NamesUnderARelativeOrigin),
    (RecordType::MX, "", Table::Mail),
    (RecordType::MX, "example.", Table::MailUnder),
    (RecordType::SRV, "", Table::Services),
    (RecordType::SRV, "example.", Table::ServicesUnder),
    (RecordType::SOA, "", Table::Soas),
    (RecordType::SOA, "example.", Table::SoasUnder),
    (RecordType::TXT, "", Table::Strings),
    (RecordType::TXT, "", Table::Quotes),
    // the types without a text form
    (RecordType::ZERO, "", Table::NoTexts),
    (RecordType::NULL, "", Table::NoTexts),
    (RecordType::SIG, "", Table::NoTexts),
    (RecordType::KEY, "", Table::NoTexts),
    (RecordType::OPT, "", Table::NoTexts),
    (RecordType::DS, "", Table::NoTexts),
    (RecordType::RRSIG, "", Table::NoTexts),
    (RecordType::NSEC, "", Table::NoTexts),
    (RecordType::DNSKEY, "", Table::NoTexts),
    (RecordType::NSEC3, "", Table::NoTexts),
    (RecordType::NSEC3PARAM, "", Table::NoTexts),
    (RecordType::CDS, "", Table::NoTexts),
    (RecordType::CDNSKEY, "", Table::NoTexts),
    (RecordType::TSIG, "", Table::NoTexts),
    (RecordType::IXFR, "", Table::NoTexts),
    (RecordType::AXFR, "", Table::NoTexts),
    (RecordType::ANY, "", Table::NoTexts),
    (RecordType::Unknown(11), "", Table::NoTexts),
    (RecordType::Unknown(65_280), "", Table::NoTexts),
];

#[test]
fn items_of_types(rt: HostRuntime) {
    for &(record_type, origin, table) in OF_TYPES {
        let number = match table {
            Table::NoTexts => 22,
            _ => 23,
        };
        let rows = rows_of(table);
        let fault = first_fault_under(rt.alloc(), record_type, origin, rows, number);
        assert!(rt; fault == None, "{record_type} {origin}: row {fault:?}");
    }
}

/// Data of items that are given away.
fn read_of_words(alloc: Global, items: &str) -> Result<RData, ParseError> {
    let words = words_of(alloc, items)?;
    RData::from_tokens(alloc, RecordType::MX, words.into_iter(), None)
}

#[test]
fn items_come_in_each_form(rt: HostRuntime) {
    let alloc = rt.alloc();
    let given = read_of_words(alloc, "10,mail.");
    let are_given = is_answer(alloc, given, "10 mail.", 0);
    let array = RData::from_tokens(alloc, RecordType::MX, ["10", "mail."].into_iter(), None);
    let are_in_array = is_answer(alloc, array, "10 mail.", 0);
    let slice = RData::from_items(alloc, RecordType::MX, &["10", "mail."], None);
    let are_in_slice = is_answer(alloc, slice, "10 mail.", 0);
    assert!(rt; are_given && are_in_array && are_in_slice);
}

/// The text of a string of 255 letters, and of another after it.
const LONGEST: &str =
    "\"aaaaaaaaaaaaaaaaaaaaaaaaaaaaaaaaaaaaaaaaaaaaaaaaaaaaaaaaaaaaaaaaaaaaaaaaaaaaaaaaaaaaa\
    aaaaaaaaaaaaaaaaaaaaaaaaaaaaaaaaaaaaaaaaaaaaaaaaaaaaaaaaaaaaaaaaaaaaaaaaaaaaaaaaaaaaa\
    aaaaaaaaaaaaaaaaaaaaaaaaaaaaaaaaaaaaaaaaaaaaaaaaaaaaaaaaaaaaaaaaaaaaaaaaaaaaaaaaaaaaa\" \"b\"";

/// Letters, how many of them make a string, and whether a TXT of it and another is read, with that text.
const LONG: &[(&'static str, usize, bool)] = &[
    ("a", 255, true),
    (r"\a", 255, true),
    (r"\097", 255, true),
    ("a", 256, false),
    (r"\a", 256, false),
    (r"\097", 256, false),
];

/// Appends `count` copies of a letter, and another item.
fn fill(items: &mut String, letter: &str, count: usize) -> Result<(), AllocError> {
    for _ in 0..count {
        items.push_str(letter)?;
    }
    items.push_str(",b")
}

/// Whether a string of `count` copies of a letter, and another, are read so.
fn is_long(alloc: Global, letter: &str, count: usize, is_read: bool) -> bool {
    let mut items = String::new(alloc);
    let is_filled = fill(&mut items, letter, count).is_ok();
    let text = if is_read { LONGEST } else { "" };
    let is_long = give(alloc, RecordType::TXT, (&items, text), None, 23);
    drop(items);
    is_filled && is_long
}

#[test]
fn the_longest_strings(rt: HostRuntime) {
    assert!(rt; LONGEST.len() == 261);
    for &(letter, count, is_read) in LONG {
        let is_long = is_long(rt.alloc(), letter, count, is_read);
        assert!(rt; is_long, "{count} of {letter}");
    }
}
