//! Messages as updates of a zone (RFC 2136, 2).

ghost use Rattle.std.specs.Prelude.{◌≡◌, ◌++◌, ◌∷◌, [], IsOkUnless, OnErr, OnOk};
ghost use Rattle.std.specs.Option.{option_copied};
ghost use Rattle.base.specs.writing.Items.{IsCountable};
ghost use Rattle.op.specs.Message.{MessageValue, message_value};
ghost use Rattle.op.specs.Parts.{AddsGiven};

mod builders;

pub use crate::apply::{apply_update, update_in_place};
use base::ProtoError;
use base_data::TSIG;
pub use builders::{
    append, compare_and_swap, create, delete_all, delete_by_rdata, delete_rrset, zone_transfer,
};
use op::{Message, Query};
use rr::Record;
use std::fmt::Debug;

/// A message as an update: its questions name the zone, its answers are the prerequisites, its authorities the updates
/// (RFC 2136, 2).
///
/// Each call that adds is refused for memory alone.
pub trait UpdateMessage: Debug {
    // the message
    ghost message: { Self → MessageValue };

    /// The id (RFC 1035, 4.1.1).
    fn id(&self) -> u16
        ensures { result ≡ (message self.now).metadata.id };

    /// Adds a question after the others, which names a zone (RFC 2136, 2.3). The message stays as it was where this
    /// is refused.
    fn add_zone(&mut self, zone: Query) -> Result<(), ProtoError>
        ensures ok { OnOk result (message self.new
            ≡ record (message self.old) { queries = (message self.old).queries ++ zone ∷ [] }) }
        ensures err { OnErr result (message self.new ≡ message self.old) }
        ensures only { IsOkUnless result ProtoError.Memory };

    /// Adds a prerequisite after the others (RFC 2136, 2.4). The message stays as it was where this is refused.
    fn add_pre_requisite(&mut self, prerequisite: Record) -> Result<(), ProtoError>
        ensures ok { OnOk result (message self.new
            ≡ record (message self.old) {
              answers = (message self.old).answers ++ prerequisite ∷ [];
            }) }
        ensures err { OnErr result (message self.new ≡ message self.old) }
        ensures only { IsOkUnless result ProtoError.Memory };

    /// Adds the prerequisites that the iterator gives, after the others; where this is refused, those stand that came
    /// before the one for which there was no memory.
    fn add_pre_requisites<I: Iterator<Item = Record> + Drop>(
        &mut self,
        prerequisites: I,
    ) -> Result<(), ProtoError>
        // The iterator may be asked for its next item.
        requires can { I.can_next prerequisites }
        // It gives no more items than a `usize` can count.
        requires countable { IsCountable (I.remaining prerequisites) }
        // All items stand after the others, or those before the item for which there was no memory.
        ensures added { AddsGiven I.next_gives prerequisites (message self.old).answers
            (message self.new).answers result }
        // Whatever the answer, all else of the message stays.
        ensures others { message self.new
            ≡ record (message self.old) { answers = (message self.new).answers } }
        ensures only { IsOkUnless result ProtoError.Memory };

    /// Adds an update after the others (RFC 2136, 2.5). The message stays as it was where this is refused.
    fn add_update(&mut self, update: Record) -> Result<(), ProtoError>
        ensures ok { OnOk result (message self.new
            ≡ record (message self.old) {
              authorities = (message self.old).authorities ++ update ∷ [];
            }) }
        ensures err { OnErr result (message self.new ≡ message self.old) }
        ensures only { IsOkUnless result ProtoError.Memory };

    /// Adds the updates that the iterator gives, after the others; where this is refused, those stand that came before
    /// the one for which there was no memory.
    fn add_updates<I: Iterator<Item = Record> + Drop>(
        &mut self,
        updates: I,
    ) -> Result<(), ProtoError>
        // The iterator may be asked for its next item.
        requires can { I.can_next updates }
        // It gives no more items than a `usize` can count.
        requires countable { IsCountable (I.remaining updates) }
        // All items stand after the others, or those before the item for which there was no memory.
        ensures added { AddsGiven I.next_gives updates (message self.old).authorities
            (message self.new).authorities result }
        // Whatever the answer, all else of the message stays.
        ensures others { message self.new
            ≡ record (message self.old) { authorities = (message self.new).authorities } }
        ensures only { IsOkUnless result ProtoError.Memory };

    /// Adds an additional record after the others. The message stays as it was where this is refused.
    fn add_additional(&mut self, additional: Record) -> Result<(), ProtoError>
        ensures ok { OnOk result (message self.new
            ≡ record (message self.old) {
              additionals = (message self.old).additionals ++ additional
                  ∷ [];
            }) }
        ensures err { OnErr result (message self.new ≡ message self.old) }
        ensures only { IsOkUnless result ProtoError.Memory };

    /// The zones: one, in an update that a server takes (RFC 2136, 3.1.1).
    fn zones(&self) -> &[Query]
        ensures { result.now ≡ (message self.now).queries };

    /// The prerequisites (RFC 2136, 2.4).
    fn prerequisites(&self) -> &[Record]
        ensures { result.now ≡ (message self.now).answers };

    /// The updates (RFC 2136, 2.5).
    fn updates(&self) -> &[Record]
        ensures { result.now ≡ (message self.now).authorities };

    /// The additional records.
    fn additionals(&self) -> &[Record]
        ensures { result.now ≡ (message self.now).additionals };

    /// The signature, if there is one (RFC 8945, 5.1).
    fn signature(&self) -> Option<&Record<TSIG>>
        ensures { option_copied result ≡ (message self.now).signature };
}

impl UpdateMessage for Message {
    ghost message = { message_value };

    fn id(&self) -> u16 {
        self.metadata.id
    }

    fn add_zone(&mut self, zone: Query) -> Result<(), ProtoError> {
        self.add_query(zone)
    }

    fn add_pre_requisite(&mut self, prerequisite: Record) -> Result<(), ProtoError> {
        self.add_answer(prerequisite)
    }

    fn add_pre_requisites<I: Iterator<Item = Record> + Drop>(
        &mut self,
        prerequisites: I,
    ) -> Result<(), ProtoError> {
        self.add_answers(prerequisites)
    }

    fn add_update(&mut self, update: Record) -> Result<(), ProtoError> {
        self.add_authority(update)
    }

    fn add_updates<I: Iterator<Item = Record> + Drop>(
        &mut self,
        updates: I,
    ) -> Result<(), ProtoError> {
        self.add_authorities(updates)
    }

    fn add_additional(&mut self, additional: Record) -> Result<(), ProtoError> {
        Message::add_additional(self, additional)
    }

    fn zones(&self) -> &[Query] {
        &self.queries
    }

    fn prerequisites(&self) -> &[Record] {
        &self.answers
    }

    fn updates(&self) -> &[Record] {
        &self.authorities
    }

    fn additionals(&self) -> &[Record] {
        &self.additionals
    }

    fn signature(&self) -> Option<&Record<TSIG>> {
        Message::signature(self)
    }
}
