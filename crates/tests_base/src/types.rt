use base::{DNSClass, Name, ParseError, RecordType};
use std::alloc::Global;
use std::fmt;
use test_tools::forms::{has_text, is_copied};
use test_tools::hashes::hash_alike;

/// Whether every value stands where the order has it, by each of the three comparisons.
fn ascends<T: Ord>(values: &[T]) -> bool {
    for (i, low) in values.iter().enumerate() {
        for (k, high) in values.iter().enumerate() {
            let order = i.cmp(&k);
            let is_ordered = low.cmp(high) == order && low.partial_cmp(high) == Some(order);
            if !is_ordered || (low == high) != (i == k) {
                return false;
            }
        }
    }
    true
}

/// Whether a type stands for this number, prints as this text, and is read of it if it has a name.
fn is_type(alloc: Global, record_type: RecordType, number: u16, text: &str) -> bool {
    let named = match record_type {
        RecordType::Unknown(_) => None,
        named => Some(named),
    };
    u16::from(record_type) == number
        && RecordType::from(number) == record_type
        && RecordType::from_text(text) == named
        && has_text(alloc, &record_type, text)
}

/// A type, its number and text, and whether it is of DNSSEC.
const TYPES: &[(RecordType, u16, &'static str, bool)] = &[
    (RecordType::ZERO, 0, "ZERO", false),
    (RecordType::A, 1, "A", false),
    (RecordType::NS, 2, "NS", false),
    (RecordType::CNAME, 5, "CNAME", false),
    (RecordType::SOA, 6, "SOA", false),
    (RecordType::NULL, 10, "NULL", false),
    (RecordType::PTR, 12, "PTR", false),
    (RecordType::MX, 15, "MX", false),
    (RecordType::TXT, 16, "TXT", false),
    (RecordType::SIG, 24, "SIG", true),
    (RecordType::KEY, 25, "KEY", true),
    (RecordType::AAAA, 28, "AAAA", false),
    (RecordType::SRV, 33, "SRV", false),
    (RecordType::OPT, 41, "OPT", false),
    (RecordType::DS, 43, "DS", true),
    (RecordType::RRSIG, 46, "RRSIG", true),
    (RecordType::NSEC, 47, "NSEC", true),
    (RecordType::DNSKEY, 48, "DNSKEY", true),
    (RecordType::NSEC3, 50, "NSEC3", true),
    (RecordType::NSEC3PARAM, 51, "NSEC3PARAM", true),
    (RecordType::CDS, 59, "CDS", true),
    (RecordType::CDNSKEY, 60, "CDNSKEY", true),
    (RecordType::TSIG, 250, "TSIG", false),
    (RecordType::IXFR, 251, "IXFR", false),
    (RecordType::AXFR, 252, "AXFR", false),
    (RecordType::ANY, 255, "ANY", false),
    (RecordType::ANAME, 65305, "ANAME", false),
    (RecordType::Unknown(3), 3, "TYPE3", false),
    (RecordType::Unknown(11), 11, "TYPE11", false),
    (RecordType::Unknown(249), 249, "TYPE249", false),
    (RecordType::Unknown(253), 253, "TYPE253", false),
    (RecordType::Unknown(254), 254, "TYPE254", false),
    (RecordType::Unknown(65304), 65304, "TYPE65304", false),
    (RecordType::Unknown(65535), 65535, "TYPE65535", false),
];

const ASCENDING_TYPES: &[RecordType] = &[
    RecordType::ZERO,
    RecordType::Unknown(0),
    RecordType::A,
    RecordType::Unknown(1),
    RecordType::NS,
    RecordType::Unknown(3),
    RecordType::CNAME,
    RecordType::NSEC3PARAM,
    RecordType::CDS,
    RecordType::ANY,
    RecordType::Unknown(255),
    RecordType::ANAME,
    RecordType::Unknown(65305),
    RecordType::Unknown(65535),
];

#[test]
fn record_types(rt: HostRuntime) {
    for &(record_type, number, text, is_dnssec) in TYPES {
        let is_type = is_type(rt.alloc(), record_type, number, text);
        assert!(rt; is_type && record_type.is_dnssec() == is_dnssec, "{text}");
    }
}

#[test]
fn record_types_in_order(rt: HostRuntime) {
    assert!(rt; ascends(ASCENDING_TYPES));
    assert!(rt; is_copied(RecordType::Unknown(7)));
    assert!(rt; RecordType::MX.max(RecordType::TXT) == RecordType::TXT);
    let are_alike = hash_alike(&RecordType::from(28), &RecordType::AAAA);
    assert!(rt; are_alike && !hash_alike(&RecordType::A, &RecordType::Unknown(1)));
}

/// Whether a class stands for this number, prints as this text, and is read of it if it has a name.
fn is_class(alloc: Global, class: DNSClass, number: u16, text: &str) -> bool {
    let named = match class {
        DNSClass::Unknown(_) => None,
        named => Some(named),
    };
    u16::from(class) == number
        && DNSClass::from(number) == class
        && DNSClass::from_text(text) == named
        && has_text(alloc, &class, text)
}

/// A class, its number and text.
const CLASSES: &[(DNSClass, u16, &'static str)] = &[
    (DNSClass::IN, 1, "IN"),
    (DNSClass::CH, 3, "CH"),
    (DNSClass::HS, 4, "HS"),
    (DNSClass::NONE, 254, "NONE"),
    (DNSClass::ANY, 255, "ANY"),
    (DNSClass::Unknown(0), 0, "CLASS0"),
    (DNSClass::Unknown(2), 2, "CLASS2"),
    (DNSClass::Unknown(512), 512, "CLASS512"),
    (DNSClass::Unknown(65535), 65535, "CLASS65535"),
];

/// Texts, and what they are read as: types and classes in capital letters alone, and `*` as any class.
const TEXTS: &[(&'static str, Option<RecordType>, Option<DNSClass>)] = &[
    ("", None, None),
    ("a", None, None),
    ("aaaa", None, None),
    ("Mx", None, None),
    ("A ", None, None),
    (" A", None, None),
    ("AA", None, None),
    ("NSEC4", None, None),
    ("NSEC3PARAMS", None, None),
    ("TYPE1", None, None),
    ("TYPE65305", None, None),
    ("WKS", None, None),
    ("*", None, Some(DNSClass::ANY)),
    ("IN", None, Some(DNSClass::IN)),
    ("1", None, None),
    ("in", None, None),
    ("Any", None, None),
    ("CS", None, None),
    ("OPT", Some(RecordType::OPT), None),
    ("**", None, None),
    ("* ", None, None),
    ("INN", None, None),
    ("CLASS1", None, None),
];

/// What OPT records carry, and the payload that it stands for.
const PAYLOADS: &[(u16, u16)] = &[
    (0, 512),
    (100, 512),
    (511, 512),
    (512, 512),
    (513, 513),
    (600, 600),
    (65535, 65535),
];

const ASCENDING_CLASSES: &[DNSClass] = &[
    DNSClass::Unknown(0),
    DNSClass::IN,
    DNSClass::OPT(1),
    DNSClass::Unknown(1),
    DNSClass::CH,
    DNSClass::HS,
    DNSClass::NONE,
    DNSClass::ANY,
    DNSClass::OPT(255),
    DNSClass::Unknown(255),
    DNSClass::OPT(600),
    DNSClass::Unknown(600),
    DNSClass::OPT(601),
];

#[test]
fn classes(rt: HostRuntime) {
    for &(class, number, text) in CLASSES {
        assert!(rt; is_class(rt.alloc(), class, number, text), "{text}");
    }
}

#[test]
fn texts_of_types_and_classes(rt: HostRuntime) {
    for &(text, record_type, class) in TEXTS {
        let is_type = RecordType::from_text(text) == record_type;
        assert!(rt; is_type && DNSClass::from_text(text) == class, "{text}");
    }
}

#[test]
fn classes_of_payloads(rt: HostRuntime) {
    for &(payload, size) in PAYLOADS {
        let class = DNSClass::for_opt(payload);
        assert!(rt;
            class == DNSClass::OPT(size) && u16::from(class) == size,
            "{payload}"
        );
    }
}

#[test]
fn classes_in_order(rt: HostRuntime) {
    let is_shown = has_text(rt.alloc(), &DNSClass::OPT(1232), "OPT");
    assert!(rt; is_shown && has_text(rt.alloc(), &DNSClass::OPT(512), "OPT"));
    assert!(rt; ascends(ASCENDING_CLASSES));
    assert!(rt; is_copied(DNSClass::OPT(512)));
    let are_alike = hash_alike(&DNSClass::from(1), &DNSClass::IN);
    let are_payloads_alike = hash_alike(&DNSClass::for_opt(100), &DNSClass::OPT(512));
    let is_other = !hash_alike(&DNSClass::OPT(600), &DNSClass::Unknown(600));
    assert!(rt; are_alike && are_payloads_alike && is_other);
}

/// Whether a value has this debug text.
fn is_shown<T: fmt::Debug>(alloc: Global, value: &T, text: &str) -> bool {
    let shown = format!(in alloc; "{value:?}");
    let same = match &shown {
        Ok(shown) => shown.as_str() == text,
        Err(_) => false,
    };
    drop(shown);
    same
}

#[test]
fn debug_texts(rt: HostRuntime) -> Result<(), ParseError> {
    let name = Name::parse(rt.alloc(), "www.Example.com.", None)?;
    let is_name_shown = is_shown(rt.alloc(), &name, "Name(\"www.Example.com.\")");
    drop(name);
    let are_types_shown = is_shown(rt.alloc(), &RecordType::Unknown(7), "Unknown(7)")
        && is_shown(rt.alloc(), &RecordType::MX, "MX");
    let are_classes_shown = is_shown(rt.alloc(), &DNSClass::OPT(512), "OPT(512)")
        && is_shown(rt.alloc(), &DNSClass::Unknown(7), "Unknown(7)")
        && is_shown(rt.alloc(), &DNSClass::IN, "IN");
    assert!(rt; is_name_shown && are_types_shown && are_classes_shown);
    Ok(())
}
