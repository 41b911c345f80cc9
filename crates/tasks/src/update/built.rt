//! The bytes of the messages that are built of texts.

ghost use Rattle.std.specs.Prelude.{IfOk, Ok};
ghost use Rattle.op.specs.Message.{message_value};
ghost use Rattle.tasks.specs.Asked.{Makes, MakesBy};
ghost use Rattle.tasks.specs.Update.{IsSent, IsUpdate, IsWhole, Means, change_asked, transfer_asked, update_asked};

use crate::refusal::Refusal;
use crate::update::sets::{of_type, owner_in, set_in, soa_in};
use crate::zone::zone_name_of;
use base::{BinDecodable, BinDecoder, DNSClass, Name, RecordType};
use op::{Header, Message};
use op_use::update_message as builders;
use rr::Record;
use std::alloc::Global;

/// What an update asks for, with the texts of the sets or of the owner that it is about.
#[derive(Drop)]
pub enum Change<'a> {
    /// A set is created.
    Create(&'a [u8]),
    /// The records of a set are added, where it must exist or needn't.
    Append(&'a [u8], bool),
    /// The first set is there, and the second takes its place.
    CompareAndSwap(&'a [u8], &'a [u8]),
    /// The data of a set goes.
    DeleteByRdata(&'a [u8]),
    /// The set of an owner and a type goes.
    DeleteRrset(&'a [u8], u16),
    /// All sets of an owner go.
    DeleteAll(&'a [u8]),
}

/// The bytes of the update of the zone of an origin, all of it.
///
/// # Errors
///
/// Those of `zone_name_of`, `set_in` and `owner_in`; 29 for a type that no update here is of; 31 for data with a relative
/// name, and 32 for a message of more than 65,535 bytes.
pub fn update(
    alloc: Global,
    id: u16,
    origin: &[u8],
    change: Change,
    use_edns: bool,
) -> Result<Vec<u8>, Refusal>
    ensures sent { MakesBy (IsSent (update_asked id use_edns origin.now change.entry)) result }
    ensures update { IfOk result (λ bytes. IsUpdate origin.now change.entry bytes.items) }
{
    let zone = zone_name_of(alloc, origin)?;
    let message = message(alloc, id, zone, change, use_edns)?;
    whole_bytes(alloc, &message)
}

/// The update of a zone of this name.
fn message(
    alloc: Global,
    id: u16,
    zone: Name,
    change: Change,
    use_edns: bool,
) -> Result<Message, Refusal>
    ensures made { Makes message_value (change_asked id use_edns change.entry zone) result }
    ensures means { IfOk result (λ m. Means change.entry zone (message_value m)) }
{
    match change {
        Change::Create(set) => {
            let set = set_in(alloc, &zone, set)?;
            Ok(builders::create(alloc, id, set, zone, use_edns)?)
        }
        Change::Append(set, must_exist) => {
            let set = set_in(alloc, &zone, set)?;
            Ok(builders::append(alloc, id, set, zone, must_exist, use_edns)?)
        }
        Change::CompareAndSwap(current, next) => {
            let current = set_in(alloc, &zone, current)?;
            let next = set_in(alloc, &zone, next)?;
            Ok(builders::compare_and_swap(alloc, id, current, next, zone, use_edns)?)
        }
        Change::DeleteByRdata(set) => {
            let set = set_in(alloc, &zone, set)?;
            Ok(builders::delete_by_rdata(alloc, id, set, zone, use_edns)?)
        }
        Change::DeleteRrset(owner, record_type) => {
            let owner = owner_in(alloc, &zone, owner)?;
            let entry = Record::update0(owner, 0, of_type(RecordType::from(record_type))?);
            Ok(builders::delete_rrset(alloc, id, entry, zone, use_edns)?)
        }
        Change::DeleteAll(owner) => {
            let owner = owner_in(alloc, &zone, owner)?;
            Ok(builders::delete_all(alloc, id, owner, zone, DNSClass::IN, use_edns)?)
        }
    }
}

/// The bytes of the question for all of the zone of an origin, or for what changed since the SOA of a text.
///
/// # Errors
///
/// Those of `zone_name_of` and `soa_in`; 31 and 32 as for `update`.
pub fn transfer(alloc: Global, id: u16, origin: &[u8], last_soa: &[u8]) -> Result<Vec<u8>, Refusal>
    ensures { MakesBy (IsSent (transfer_asked id origin.now last_soa.now)) result }
{
    let zone = zone_name_of(alloc, origin)?;
    let last = soa_in(alloc, &zone, last_soa)?;
    whole_bytes(alloc, &builders::zone_transfer(alloc, id, zone, last)?)
}

/// The bytes of a message, if it fits the wire and nothing of it is cut off.
fn whole_bytes(alloc: Global, message: &Message) -> Result<Vec<u8>, Refusal>
    ensures sent { MakesBy (IsSent (Ok (message_value message.now))) result }
    ensures whole { IfOk result (λ bytes. IsWhole (message_value message.now) bytes.items) }
{
    if !message.fits_wire() {
        return Err(Refusal::NOT_ON_WIRE);
    }
    let bytes = message.to_vec()?;
    let header = Header::read(&mut BinDecoder::new(alloc, &bytes))?;
    if header.metadata.truncation {
        return Err(Refusal::TOO_LONG);
    }
    Ok(bytes)
}
