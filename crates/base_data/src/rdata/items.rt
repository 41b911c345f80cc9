//! Reads data from the items of a text (RFC 1035, 5.1).

ghost use Rattle.std.specs.Prelude.{◌≡◌, ◌⊎◌, Err, IfOk, List, map};
ghost use Rattle.std.specs.Iterator.{Drains, IsFinite};
ghost use Rattle.std.specs.Option.{option_copied};
ghost use Rattle.base.specs.texts.TextFaults.{Gives};
ghost use Rattle.base_data.specs.Kinds.{any_of, data_of};

use crate::rdata::fields::ItemFault;
use crate::rdata::{A, AAAA, ANAME, CNAME, MX, NS, PTR, RData, SOA, SRV, TXT};
use crate::record_data::RecordData;
use base::{Name, ParseError, RecordType};
use std::alloc::{AllocError, Global};
use std::convert::AsStr;

/// Data of a kind with a text form.
pub(crate) trait TextData: RecordData {
    ghost use Rattle.std.specs.Prelude.{ℕ, List, Option, map};
    ghost use Rattle.std.specs.Option.{option_copied};
    ghost use Rattle.base.specs.names.Labels.{NameValue};
    ghost use Rattle.base_data.specs.ItemFault.{GivesItems};

    ghost of_items: { List (List ℕ) → Option NameValue → Option Self };

    /// The data that the items of a text name under an origin.
    ///
    /// # Errors
    ///
    /// `Bad` where an item is missing, is one too many or is no such field; `Memory` if memory runs out.
    fn from_items(alloc: Global, items: &[&str], origin: Option<&Name>) -> Result<Self, ItemFault>
        ensures { GivesItems (λ d. d) result
            (of_items (map (λ item. item.now) items.now) (option_copied origin.entry)) };
}

/// The data of a kind that the items name, as that of any record.
fn any_from_items<R: TextData>(
    alloc: Global,
    record_type: RecordType,
    items: &[&str],
    origin: Option<&Name>,
) -> Result<RData, ParseError>
    ensures { Gives (λ d. d) result
        (any_of R.as_rdata record_type
        (R.of_items (map (λ item. item.now) items.now) (option_copied origin.entry))) }
{
    match R::from_items(alloc, items, origin) {
        Ok(rdata) => Ok(rdata.into_rdata()),
        Err(ItemFault::Bad) => Err(ParseError::BadData(record_type)),
        Err(ItemFault::Memory) => Err(ParseError::Memory),
    }
}

/// The text that each item lends.
///
/// # Errors
///
/// If memory runs out.
fn texts_of<S: AsStr>(alloc: Global, items: &[S]) -> Result<Vec<&str>, AllocError>
    ensures { IfOk result (λ texts. map (λ text. text.now) texts.items ≡ map S.text items.now) }
{
    let mut texts = Vec::new(alloc);
    for item in items {
        texts.push(item.as_str())?;
    }
    Ok(texts)
}

impl RData {
    /// The data of a type that the items of a zone's text name, each a text without quotes (RFC 1035, 3.3 and 5.1);
    /// relative names are taken under the origin, and stay relative without one.
    ///
    /// The items of A are dotted decimal; of AAAA an address in groups (RFC 4291, 2.2); of NS, CNAME, PTR and ANAME a
    /// name; of MX a preference and a name; of SOA two names, a decimal serial and four times; of SRV a priority, a
    /// weight, a port and a name (RFC 2782); of TXT one string or more, each of up to 255 bytes. Decimal numbers are
    /// digits alone, below 2 to the 16th, the serial below 2 to the 32nd. Times are below 2 to the 32nd, in seconds or
    /// with units, as `1h30`. In a string a backslash and three decimal digits up to 255 are the byte of that number, a
    /// backslash and another character are that character, and all else, a quote too, is its UTF-8 bytes.
    ///
    /// # Errors
    ///
    /// `UnsupportedRecordType` for a type without a text form; `BadData` where an item is missing, is one too many or
    /// is no such field; `Memory` if memory runs out, at which the items may not all be taken.
    pub fn from_tokens<S: AsStr + Drop, I: Iterator<Item = S>>(
        alloc: Global,
        record_type: RecordType,
        items: I,
        origin: Option<&Name>,
    ) -> Result<RData, ParseError>
        // The iterator may be asked for its next item.
        requires can { I.can_next items }
        requires finite { IsFinite (I.remaining items) }
        ensures { (result ≡ Err ParseError.Memory) ⊎ ((all : List S) × Drains I.next_gives items all
            × Gives (λ d. d) result
            (data_of record_type (map S.text all) (option_copied origin.entry))) }
    {
        let mut held = Vec::new(alloc);
        for item in items {
            held.push(item)?;
        }
        let texts = texts_of(alloc, &held)?;
        RData::from_items(alloc, record_type, &texts, origin)
    }

    /// The data of a type that these items name, as `from_tokens` reads them.
    ///
    /// # Errors
    ///
    /// `UnsupportedRecordType` for a type without a text form; `BadData` where an item is missing, is one too many or
    /// is no such field; `Memory` if memory runs out.
    #[tactic(auto, unfolding(crate::specs::Kinds::data_of))]
    pub fn from_items(
        alloc: Global,
        record_type: RecordType,
        items: &[&str],
        origin: Option<&Name>,
    ) -> Result<RData, ParseError>
        ensures { Gives (λ d. d) result
            (data_of record_type (map (λ item. item.now) items.now) (option_copied origin.entry)) }
    {
        match record_type {
            RecordType::A => any_from_items::<A>(alloc, record_type, items, origin),
            RecordType::AAAA => any_from_items::<AAAA>(alloc, record_type, items, origin),
            RecordType::NS => any_from_items::<NS>(alloc, record_type, items, origin),
            RecordType::CNAME => any_from_items::<CNAME>(alloc, record_type, items, origin),
            RecordType::PTR => any_from_items::<PTR>(alloc, record_type, items, origin),
            RecordType::ANAME => any_from_items::<ANAME>(alloc, record_type, items, origin),
            RecordType::MX => any_from_items::<MX>(alloc, record_type, items, origin),
            RecordType::SOA => any_from_items::<SOA>(alloc, record_type, items, origin),
            RecordType::SRV => any_from_items::<SRV>(alloc, record_type, items, origin),
            RecordType::TXT => any_from_items::<TXT>(alloc, record_type, items, origin),
            _ => Err(ParseError::UnsupportedRecordType(record_type)),
        }
    }
}
