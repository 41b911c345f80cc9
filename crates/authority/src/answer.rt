//! What a server answers to a question from a zone (RFC 1034, 4.3.2; RFC 2308; RFC 6604).

ghost use Rattle.authority.specs.Answer.{answer as the_answer, answer_value, end_like as the_end};
ghost use Rattle.authority.specs.Answer.{negative as the_negative, of_data, owns, referring, with_authority};
ghost use Rattle.authority.specs.Found.{IsFound, alias_of, answered};
ghost use Rattle.authority.specs.Lookup.{lookup as the_finding};
ghost use Rattle.authority.specs.ZoneRef.{AreUnderKeys, zone_of};
ghost use Rattle.base.specs.names.NameOrder.{same_name};
ghost use Rattle.op_use.specs.Applying.{zone_of_map};
ghost use Rattle.base_data.specs.declared.rdata.RData.{RData as Data};
ghost use Rattle.rr.specs.declared.record.Record.{Record as Entry};
ghost use Rattle.std.specs.List.{flat_map};
ghost use Rattle.std.specs.Prelude.{IfOk, IsOkUnless, List, [], length, ◌++◌, ◌||◌, ◌∷◌, ◌≡◌, ◌≤◌};

use crate::additionals::additionals;
use crate::found::{Found, lookup};
use crate::records::{add_alias, add_all, add_answered, end_like, negative_records};
use crate::sets::set_at;
use crate::zone_ref::ZoneRef;
use base::{DNSClass, Name, ProtoError, RecordType, RrKey};
use op::ResponseCode;
use rr::{Record, RecordSet};
use std::alloc::Global;
use std::collections::BTreeMap;

/// How many aliases are followed, one after another, from the name that is asked for.
pub const MAX_ALIASES: u8 = 11;

/// What a zone answers to a question: the code, AA and the three sections (RFC 1035, 4.1).
#[derive(Debug, Drop)]
pub struct Answer {
    /// RCODE: that of the last name, where aliases are followed (RFC 6604, 2.1).
    pub response_code: ResponseCode,
    /// AA: the zone has authority over the first name (RFC 1035, 4.1.1). It is clear in a referral that no alias leads
    /// to.
    pub authoritative: bool,
    /// The aliases in their order, and the records of the type.
    pub answers: Vec<Record>,
    /// The SOA where there is no name or no data (RFC 2308, 2), or the name servers of a referral.
    pub authorities: Vec<Record>,
    /// Addresses of the hosts that the other sections name.
    pub additionals: Vec<Record>,
}

/// What a zone answers to the question for a type of a name (RFC 1034, 4.3.2): `sets` are its sets under their keys, as
/// `Parser::parse` and `apply_update` answer them.
///
/// Aliases are followed within the zone, `MAX_ALIASES` at most and none to a name that was asked for before: then the
/// code is ServFail. A record has the name that was asked for as its owner, the class of the zone and the least TTL of
/// its set (RFC 2181, 5.2). Without a name or without data the SOA says for how long, at most its MINIMUM (RFC 2308,
/// 3). Addresses that the zone has of hosts in data of NS, MX and SRV records are added, those below a cut in a
/// referral alone (RFC 9471).
///
/// Takes as many look-ups for each name of the chain, and two for each host, as `lookup` does; never a walk over the
/// zone.
///
/// # Errors
///
/// `Memory` alone, if memory runs out.
pub fn answer_question(
    alloc: Global,
    sets: &BTreeMap<RrKey, RecordSet>,
    origin: &Name,
    class: DNSClass,
    name: &Name,
    record_type: RecordType,
) -> Result<Answer, ProtoError>
    // Each set stands under the key of its owner and type.
    requires { AreUnderKeys sets.now }
    ensures answered { IfOk result (λ a. answer_value a
        ≡ the_answer (zone_of_map origin.now class sets.now) record_type MAX_ALIASES [] name.now) }
    ensures only { IsOkUnless result ProtoError.Memory }
{
    let zone = ZoneRef {
        alloc,
        sets,
        origin,
        class,
    };
    answer_from(&zone, name, record_type)
}

/// What a zone answers to the question for a type of a name.
pub(crate) fn answer_from(
    zone: &ZoneRef<'_>,
    name: &Name,
    record_type: RecordType,
) -> Result<Answer, ProtoError>
    requires { AreUnderKeys zone.now.sets.now }
    ensures answered { IfOk result (λ a. answer_value a
        ≡ the_answer (zone_of zone.now) record_type MAX_ALIASES [] name.now) }
    ensures only { IsOkUnless result ProtoError.Memory }
{
    let mut answers = Vec::new(zone.alloc);
    let (last, found) = follow(zone, name, record_type, &mut answers)?;
    answer_found(zone, record_type, last, found, answers)
}

/// Follows aliases from a name and adds them to the answers: the last name, and what was found for it. That is an alias
/// where it isn't followed.
fn follow<'z>(
    zone: &ZoneRef<'z>,
    name: &'z Name,
    record_type: RecordType,
    answers: &mut Vec<Record>,
) -> Result<(&'z Name, Found<'z>), ProtoError>
    ensures found { IfOk result (λ last. IsFound zone.now.class zone.now.sets.now last.0.now last.1
        (the_finding (zone_of zone.now) record_type last.0.now)) }
    // With no more aliases the answer is the same.
    ensures followed { IfOk result (λ last.
        the_answer (zone_of zone.now) record_type 0 answers.new.items last.0.now
        ≡ the_answer (zone_of zone.now) record_type MAX_ALIASES answers.old.items name.now) }
    ensures only { IsOkUnless result ProtoError.Memory }
{
    let mut room = MAX_ALIASES;
    let mut name = name;
    'names: loop {
        match lookup(zone.alloc, zone.sets, zone.origin, name, record_type)? {
            Found::Alias(set, target) => {
                if room == 0 || is_before(target, name, answers) {
                    return Ok((name, Found::Alias(set, target)));
                }
                add_alias(answers, name, zone.class, set, target)?;
                room -= 1;
                name = target;
            }
            found => return Ok((name, found)),
        }
    }
}

/// Whether a name is the last one, or owns one of these records.
fn is_before(name: &Name, last: &Name, records: &[Record]) -> bool
    ensures { result ≡ (owns name.now records.now || same_name name.now last.now) }
{
    for record in records {
        if *name == record.name {
            return true;
        }
    }
    *name == *last
}

/// The answer of what was found for the last name after aliases, where no more are followed.
fn answer_found(
    zone: &ZoneRef<'_>,
    record_type: RecordType,
    name: &Name,
    found: Found<'_>,
    answers: Vec<Record>,
) -> Result<Answer, ProtoError>
    requires keys { AreUnderKeys zone.now.sets.now }
    requires found { IsFound zone.now.class zone.now.sets.now name.now found
        (the_finding (zone_of zone.now) record_type name.now) }
    ensures answered { IfOk result (λ a. answer_value a
        ≡ the_answer (zone_of zone.now) record_type 0 answers.items name.now) }
    ensures only { IsOkUnless result ProtoError.Memory }
{
    match found {
        Found::Outside => Ok(plain(zone.alloc, ResponseCode::NoError, answers)),
        Found::NoName => negative(zone, ResponseCode::NXDomain, name, answers),
        Found::NoData => negative(zone, ResponseCode::NoError, name, answers),
        Found::Cut(servers) => referral(zone, name, servers, answers),
        Found::Alias(set, target) => unfollowed(zone, name, set, target, answers),
        Found::Data(set) => data(zone, record_type, name, set, answers),
        Found::All(sets) => all_data(zone, record_type, name, sets, answers),
    }
}

/// The answer that ends with an alias that isn't followed.
fn unfollowed(
    zone: &ZoneRef<'_>,
    name: &Name,
    set: &RecordSet,
    target: &Name,
    answers: Vec<Record>,
) -> Result<Answer, ProtoError>
    ensures value { IfOk result (λ a. answer_value a ≡ with_authority ResponseCode.ServFail
        (answers.items ++ alias_of zone.now.class name.now set.now target.now ∷ []) [] []) }
    ensures only { IsOkUnless result ProtoError.Memory }
{
    let mut answers = answers;
    add_alias(&mut answers, name, zone.class, set, target)?;
    Ok(plain(zone.alloc, ResponseCode::ServFail, answers))
}

/// An answer with AA that has nothing but answers. Takes no memory.
pub(crate) fn plain(alloc: Global, response_code: ResponseCode, answers: Vec<Record>) -> Answer
    ensures { answer_value result ≡ with_authority response_code answers.items [] [] }
{
    Answer {
        response_code,
        authoritative: true,
        answers,
        authorities: Vec::new(alloc),
        additionals: Vec::new(alloc),
    }
}

/// The SOA that says for how long there is nothing (RFC 2308, 2 and 3).
fn soa_over(zone: &ZoneRef<'_>, name: &Name) -> Result<Vec<Record>, ProtoError>
    ensures value { IfOk result (λ v. v.items ≡ the_negative (zone_of zone.now) name.now) }
    ensures only { IsOkUnless result ProtoError.Memory }
{
    let Some(set) = set_at(zone.sets, zone.origin, RecordType::SOA)? else {
        return Ok(Vec::new(zone.alloc));
    };
    let owner = end_like(zone.origin, name)?;
    Ok(negative_records(zone.alloc, &owner, zone.class, set)?)
}

/// The answer where there is no name, or no data (RFC 2308, 2).
fn negative(
    zone: &ZoneRef<'_>,
    response_code: ResponseCode,
    name: &Name,
    answers: Vec<Record>,
) -> Result<Answer, ProtoError>
    ensures value { IfOk result (λ a. answer_value a
        ≡ with_authority response_code answers.items (the_negative (zone_of zone.now) name.now) []) }
    ensures only { IsOkUnless result ProtoError.Memory }
{
    let authorities = soa_over(zone, name)?;
    Ok(Answer {
        response_code,
        authoritative: true,
        answers,
        authorities,
        additionals: Vec::new(zone.alloc),
    })
}

/// The name servers of a cut, whose owner is spelled as it was asked.
fn servers_over(
    zone: &ZoneRef<'_>,
    name: &Name,
    servers: &RecordSet,
) -> Result<Vec<Record>, ProtoError>
    ensures value { IfOk result (λ v. v.items
        ≡ answered zone.now.class (the_end servers.now.name name.now) servers.now) }
    ensures only { IsOkUnless result ProtoError.Memory }
{
    let owner = end_like(servers.name(), name)?;
    let mut records = Vec::new(zone.alloc);
    add_answered(&mut records, &owner, zone.class, servers)?;
    Ok(records)
}

/// A referral to the name servers of a cut (RFC 1034, 4.3.2, 3b).
fn referral(
    zone: &ZoneRef<'_>,
    name: &Name,
    servers: &RecordSet,
    answers: Vec<Record>,
) -> Result<Answer, ProtoError>
    ensures value { IfOk result (λ a. answer_value a
        ≡ referring (zone_of zone.now) answers.items
        (answered zone.now.class (the_end servers.now.name name.now) servers.now)) }
    ensures only { IsOkUnless result ProtoError.Memory }
{
    let authorities = servers_over(zone, name, servers)?;
    let additionals = additionals(zone, true, &answers, &authorities)?;
    Ok(Answer {
        response_code: ResponseCode::NoError,
        authoritative: !answers.is_empty(),
        answers,
        authorities,
        additionals,
    })
}

/// The answer of the records of a set.
fn data(
    zone: &ZoneRef<'_>,
    record_type: RecordType,
    name: &Name,
    set: &RecordSet,
    answers: Vec<Record>,
) -> Result<Answer, ProtoError>
    ensures value { IfOk result (λ a. answer_value a
        ≡ of_data (zone_of zone.now) record_type answers.items name.now
        (answered zone.now.class name.now set.now)) }
    ensures only { IsOkUnless result ProtoError.Memory }
{
    let before = answers.len();
    let mut answers = answers;
    add_answered(&mut answers, name, zone.class, set)?;
    answer_with(zone, record_type, name, before, answers)
}

/// The answer of the records of all sets of an owner.
fn all_data(
    zone: &ZoneRef<'_>,
    record_type: RecordType,
    name: &Name,
    sets: Vec<&RecordSet>,
    answers: Vec<Record>,
) -> Result<Answer, ProtoError>
    ensures value { IfOk result (λ a. answer_value a
        ≡ of_data (zone_of zone.now) record_type answers.items name.now
        (flat_map (λ s. answered zone.now.class name.now s.now) sets.entry.items)) }
    ensures only { IsOkUnless result ProtoError.Memory }
{
    let before = answers.len();
    let mut answers = answers;
    add_all(&mut answers, name, zone.class, &sets)?;
    answer_with(zone, record_type, name, before, answers)
}

/// The answer of the records from a place on, which are those of the type that was asked for, or of no data where there
/// are none.
fn answer_with(
    zone: &ZoneRef<'_>,
    record_type: RecordType,
    name: &Name,
    before: usize,
    answers: Vec<Record>,
) -> Result<Answer, ProtoError>
    requires { before ≤ length answers.items }
    ensures value { IfOk result (λ a. (done rs : List (Entry Data)) → answers.items ≡ done ++ rs
        → before ≡ length done
        → answer_value a ≡ of_data (zone_of zone.now) record_type done name.now rs) }
    ensures only { IsOkUnless result ProtoError.Memory }
{
    if answers.len() == before {
        return negative(zone, ResponseCode::NoError, name, answers);
    }
    if record_type == RecordType::ANY {
        return Ok(plain(zone.alloc, ResponseCode::NoError, answers));
    }
    let additionals = additionals(zone, false, &answers[..before], &answers[before..])?;
    Ok(Answer {
        response_code: ResponseCode::NoError,
        authoritative: true,
        answers,
        authorities: Vec::new(zone.alloc),
        additionals,
    })
}
