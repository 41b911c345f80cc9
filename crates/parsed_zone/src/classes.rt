//! The class of a zone's sets.

ghost use Rattle.std.specs.List.{list_all};
ghost use Rattle.std.specs.Prelude.{◌≡◌};
ghost use Rattle.base_data.specs.declared.rdata.RData.{RData};
ghost use Rattle.rr.specs.declared.record.Record.{Record as Entry};
ghost use Rattle.parsed_zone.specs.Classes.{are_sets_in, is_in as is_in_class, is_set_in};

use base::{DNSClass, RrKey};
use rr::RecordSet;
use std::collections::BTreeMap;

/// Whether each set and each record is of the class IN.
pub fn are_sets_in(sets: &BTreeMap<RrKey, RecordSet>) -> bool
    ensures { result ≡ are_sets_in sets.now.entries }
{
    for set in sets.values() {
        if !is_set_in(set) {
            return false;
        }
    }
    true
}

/// Whether the set and each of its records are.
fn is_set_in(set: &RecordSet) -> bool
    ensures { result ≡ is_set_in set.now }
{
    is_in(set.dns_class()) && are_records_in(set)
}

/// Whether each record of the set is.
fn are_records_in(set: &RecordSet) -> bool
    ensures { result ≡ list_all (λ (r : Entry RData). is_in_class r.dns_class) set.now.records }
{
    for entry in set.records_without_rrsigs() {
        if !is_in(entry.dns_class) {
            return false;
        }
    }
    true
}

/// Whether the class is IN.
fn is_in(class: DNSClass) -> bool
    ensures { result ≡ is_in_class class }
{
    matches!(class, DNSClass::IN)
}
