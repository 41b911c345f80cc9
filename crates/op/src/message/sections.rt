//! The records of all three sections of a message, one after another.

ghost use Rattle.std.specs.Prelude.{◌≡◌, ◌++◌};
ghost use Rattle.std.specs.Iterator.{YieldsFirst, YieldsFirstRef, item_count};
ghost use Rattle.op.specs.Message.{message_value};
ghost use Rattle.op.specs.Parts.{all_records, without_sections};

use crate::message::Message;
use rr::Record;
use std::marker::Model;
use std::{mem, slice, vec};

/// The records of the three sections of a message: answers, authorities, additionals, each section in its order.
///
/// Contracts see the list of those that are left.
#[derive(Drop)]
pub struct AllSections<'a> {
    answers: slice::Iter<'a, Record>,
    authorities: slice::Iter<'a, Record>,
    additionals: slice::Iter<'a, Record>,
}

impl<'a> Model for AllSections<'a> {
    ghost use Rattle.std.specs.Prelude.{List, ◌++◌};
    ghost use Rattle.std.specs.Slice.Iter.{iter_rest};
    ghost use Rattle.rr.specs.declared.record.Record.{Record as Entry};
    ghost use Rattle.base_data.specs.declared.rdata.RData.{RData};

    ghost Value = { List (Entry RData) };

    ghost view = { λ s. iter_rest s.answers
        ++ (iter_rest s.authorities ++ iter_rest s.additionals) };
}

impl<'a> Iterator for AllSections<'a> {
    type Item = &'a Record;

    ghost next_gives = { YieldsFirstRef (λ s. s) };

    ghost remaining = { item_count (λ s. s) };

    /// The next record, of the first section that has one left.
    fn next(&mut self) -> Option<&'a Record> {
        if let Some(record) = self.answers.next() {
            return Some(record);
        }
        if let Some(record) = self.authorities.next() {
            return Some(record);
        }
        self.additionals.next()
    }
}

/// The records of the three sections of a message, taken out of it, in the same order.
///
/// Contracts see the list of those that are left.
#[derive(Drop)]
pub struct TakeAllSections {
    answers: vec::IntoIter<Record>,
    authorities: vec::IntoIter<Record>,
    additionals: vec::IntoIter<Record>,
}

impl Model for TakeAllSections {
    ghost use Rattle.std.specs.Prelude.{List, ◌++◌};
    ghost use Rattle.std.specs.Vec.Iter.{into_iter_items};
    ghost use Rattle.rr.specs.declared.record.Record.{Record as Entry};
    ghost use Rattle.base_data.specs.declared.rdata.RData.{RData};

    ghost Value = { List (Entry RData) };

    ghost view = { λ s. into_iter_items s.answers
        ++ (into_iter_items s.authorities ++ into_iter_items s.additionals) };
}

impl Iterator for TakeAllSections {
    type Item = Record;

    ghost next_gives = { YieldsFirst (λ s. s) };

    ghost remaining = { item_count (λ s. s) };

    /// The next record, of the first section that has one left.
    fn next(&mut self) -> Option<Record> {
        if let Some(record) = self.answers.next() {
            return Some(record);
        }
        if let Some(record) = self.authorities.next() {
            return Some(record);
        }
        self.additionals.next()
    }
}

impl Message {
    /// The records of the three sections, one section after the other. Takes no memory.
    pub fn all_sections(&self) -> AllSections<'_>
        ensures { result ≡ all_records (message_value self.now) }
    {
        AllSections {
            answers: self.answers.iter(),
            authorities: self.authorities.iter(),
            additionals: self.additionals.iter(),
        }
    }

    /// Takes the records out of the three sections, which are empty then. All else stays. Takes no memory.
    pub fn take_all_sections(&mut self) -> TakeAllSections
        ensures taken { result ≡ all_records (message_value self.old) }
        ensures left { message_value self.new ≡ without_sections (message_value self.old) }
    {
        let alloc = *self.queries.allocator();
        TakeAllSections {
            answers: mem::replace(&mut self.answers, Vec::new(alloc)).into_iter(),
            authorities: mem::replace(&mut self.authorities, Vec::new(alloc)).into_iter(),
            additionals: mem::replace(&mut self.additionals, Vec::new(alloc)).into_iter(),
        }
    }
}
