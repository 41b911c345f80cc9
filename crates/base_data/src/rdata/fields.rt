//! Reads the fields of data from the items of a text (RFC 1035, 5.1).

ghost use Rattle.std.specs.Prelude.{◌≡◌, get_or, map};
ghost use Rattle.std.specs.Net.Addr.{ipv4_octets, ipv6_octets};
ghost use Rattle.std.specs.Option.{option_copied};
ghost use Rattle.base.specs.texts.Ttl.{ttl_of};
ghost use Rattle.base_data.specs.Fields.{ipv4_item, ipv6_item, name_item, number_item};
ghost use Rattle.base_data.specs.ItemFault.{GivesItems};
ghost use Rattle.base_data.specs.declared.rdata.fields.ItemFault.TheVariants as faults;
ghost use Rattle.base_data.specs.OneName.{one_name_of};

use base::{Name, ParseError, parse_ttl};
use std::alloc::{AllocError, AllocFailed, Global};
use std::net::{Ipv4Addr, Ipv6Addr};

/// Why items are refused. Of which type the data is, the caller knows.
#[derive(Drop)]
pub(crate) enum ItemFault {
    /// An item is missing, is one too many or is no such field.
    Bad,
    /// Memory ran out.
    Memory,
}

impl From<AllocError> for ItemFault {
    ghost from_gives = { λ _ e. e ≡ faults.Memory };

    /// Running out of memory is `Memory`.
    fn from(_e: AllocError) -> ItemFault {
        ItemFault::Memory
    }
}

impl<T: Drop> From<AllocFailed<T>> for ItemFault {
    ghost from_gives = { λ _ e. e ≡ faults.Memory };

    /// Running out of memory is `Memory`. The value that it was for is dropped.
    fn from(_e: AllocFailed<T>) -> ItemFault {
        ItemFault::Memory
    }
}

/// The first byte of an item; 0 of the empty one.
fn first_byte(item: &str) -> u8
    ensures { result ≡ get_or item.now 0 0 }
{
    match item.as_bytes() {
        [first, ..] => *first,
        [] => 0,
    }
}

/// The number that decimal digits alone say, below 2 to the 16th. Leading zeros are allowed, a sign isn't.
pub(crate) fn u16_item(item: &str) -> Result<u16, ItemFault>
    ensures { GivesItems (λ n. n) result (number_item 16 item.now) }
{
    // `parse` would take a plus.
    if first_byte(item) == b'+' {
        return Err(ItemFault::Bad);
    }
    item.parse::<u16>().ok().ok_or(ItemFault::Bad)
}

/// The number that decimal digits alone say, below 2 to the 32nd. Leading zeros are allowed, a sign isn't.
pub(crate) fn u32_item(item: &str) -> Result<u32, ItemFault>
    ensures { GivesItems (λ n. n) result (number_item 32 item.now) }
{
    // `parse` would take a plus.
    if first_byte(item) == b'+' {
        return Err(ItemFault::Bad);
    }
    item.parse::<u32>().ok().ok_or(ItemFault::Bad)
}

/// The seconds that a text says, as a number or with units (base's `parse_ttl`).
pub(crate) fn ttl_item(item: &str) -> Result<u32, ItemFault>
    ensures { GivesItems (λ n. n) result (ttl_of item.now) }
{
    parse_ttl(item).ok().ok_or(ItemFault::Bad)
}

/// The address that four decimal numbers up to 255 say, with dots between them and without leading zeros.
pub(crate) fn ipv4_item(item: &str) -> Result<Ipv4Addr, ItemFault>
    ensures { GivesItems ipv4_octets result (ipv4_item item.now) }
{
    item.parse::<Ipv4Addr>().ok().ok_or(ItemFault::Bad)
}

/// The address that eight groups of one to four hexadecimal digits say, with colons between them (RFC 4291, 2.2): one
/// `::` stands for one or more groups of zeros, and the last two groups may be dotted decimal.
pub(crate) fn ipv6_item(item: &str) -> Result<Ipv6Addr, ItemFault>
    ensures { GivesItems ipv6_octets result (ipv6_item item.now) }
{
    item.parse::<Ipv6Addr>().ok().ok_or(ItemFault::Bad)
}

/// The name that an item names under an origin.
///
/// # Errors
///
/// `Bad` where the item is no name; `Memory` if memory runs out.
pub(crate) fn name_item(alloc: Global, item: &str, origin: Option<&Name>) -> Result<Name, ItemFault>
    ensures { GivesItems (λ n. n) result (name_item item.now (option_copied origin.entry)) }
{
    match Name::parse(alloc, item, origin) {
        Ok(name) => Ok(name),
        Err(ParseError::BadName) => Err(ItemFault::Bad),
        // `parse` has no refusal but for memory.
        Err(_) => Err(ItemFault::Memory),
    }
}

/// The name that one item alone names under an origin.
///
/// # Errors
///
/// `Bad` where there isn't one item, or it is no name; `Memory` if memory runs out.
pub(crate) fn one_name(
    alloc: Global,
    items: &[&str],
    origin: Option<&Name>,
) -> Result<Name, ItemFault>
    ensures { GivesItems (λ n. n) result
        (one_name_of (λ n. n) (map (λ item. item.now) items.now) (option_copied origin.entry)) }
{
    let [name] = items else {
        return Err(ItemFault::Bad);
    };
    name_item(alloc, name, origin)
}
