//! Values that several tests write and read.

use base::{DNSClass, Name, ProtoError};
use base_data::{A, EdnsOption, TSIG};
use op::{Edns, Message};
use rr::Record;
use std::alloc::{AllocError, Global};
use std::net::Ipv4Addr;
use std::test::Fail;

/// EDNS with one option, of code 65001 and two bytes.
pub(crate) fn edns_with_option(alloc: Global) -> Result<Edns, ProtoError> {
    let option = EdnsOption::new(65001, vec![in alloc; 1, 2]?);
    let mut edns = Edns::new(alloc);
    match edns.options_mut().insert(option) {
        Ok(()) => Ok(edns),
        Err(e) => {
            drop(edns);
            Err(e)
        }
    }
}

/// A signature of one byte.
pub(crate) fn signature(alloc: Global) -> Result<Box<Record<TSIG>>, AllocError> {
    let rdata = TSIG::new(vec![in alloc; 0xAA]?);
    let mut signature = Record::from_rdata(Name::root(alloc), 0, rdata);
    signature.dns_class = DNSClass::ANY;
    Ok(Box::new(alloc, signature)?)
}

/// `owner` `ttl` A 192.0.2.1.
pub(crate) fn address(alloc: Global, owner: &str, ttl: u32) -> Result<Record, Fail> {
    let owner = Name::parse(alloc, owner, None)?;
    let rdata = A::new(Ipv4Addr::new(192, 0, 2, 1));
    Ok(Record::from_rdata(owner, ttl, rdata).into_record_of_rdata())
}

/// The message, if it was filled. Otherwise it is dropped by name: that is proved sooner.
pub(crate) fn if_filled(message: Message, filled: Result<(), Fail>) -> Result<Message, Fail> {
    match filled {
        Ok(()) => Ok(message),
        Err(e) => {
            drop(message);
            Err(e)
        }
    }
}
