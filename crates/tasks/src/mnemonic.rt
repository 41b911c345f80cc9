//! The mnemonics of types, classes and response codes (RFC 1035, 3.2; RFC 6895, 2.3).

ghost use Rattle.std.specs.Prelude.{◌<◌, ◌≡◌, ◌^◌, IfOk, Ok, get_or, option_map};
ghost use Rattle.std.specs.Array.Iter.{array_into_iter_items};
ghost use Rattle.std.specs.String.{string_bytes};
ghost use Rattle.base.specs.DNSClass.{class_of, class_text};
ghost use Rattle.base.specs.RecordType.{type_of, type_text};
ghost use Rattle.base_data.specs.Fields.{number_item};
ghost use Rattle.tasks.specs.Asked.{Makes};
ghost use Rattle.tasks.specs.Mnemonic.{any_class, class_asked, code_asked, code_mnemonic, is_name, named_code, named_codes, numbered_class, raised, type_asked};

use crate::refusal::Refusal;
use crate::zone::characters_of;
use base::{DNSClass, RecordType};
use base_data::parse_type;
use op::ResponseCode;
use std::alloc::Global;
use std::array;

/// The number of the type that a text names in letters of either case, by its mnemonic or by `TYPE` and the number.
///
/// # Errors
///
/// 24 for a text that isn't UTF-8, and 21 for one that names no type.
pub fn type_number(alloc: Global, text: &[u8]) -> Result<usize, Refusal>
    ensures made { Makes (λ n. n) (type_asked text.now) result }
    ensures small { IfOk result (λ n. n < 2 ^ 16) }
{
    let record_type = parse_type(raised(alloc, text)?)?;
    Ok(usize::from(u16::from(record_type)))
}

/// The mnemonic of the type of a number, or `TYPE` and the number (RFC 3597, 5).
///
/// # Errors
///
/// 3 if memory runs out.
pub fn type_text(alloc: Global, number: u16) -> Result<Vec<u8>, Refusal>
    ensures { Makes (λ text. text.items) (Ok (type_text (type_of number))) result }
{
    Ok(RecordType::from(number).to_string(alloc)?.into_bytes())
}

/// The number of the class that a text names in letters of either case, by its mnemonic or by `CLASS` and the number.
///
/// # Errors
///
/// 24 for a text that isn't UTF-8, and 37 for one that names no class.
pub fn class_number(alloc: Global, text: &[u8]) -> Result<usize, Refusal>
    ensures made { Makes (λ n. n) (class_asked text.now) result }
    ensures small { IfOk result (λ n. n < 2 ^ 16) }
{
    let text = raised(alloc, text)?;
    let Some(class) = any_class(text.as_str()) else {
        return Err(Refusal::NO_MNEMONIC);
    };
    Ok(usize::from(u16::from(class)))
}

/// The mnemonic of the class of a number, or `CLASS` and the number (RFC 3597, 5).
///
/// # Errors
///
/// 3 if memory runs out.
pub fn class_text(alloc: Global, number: u16) -> Result<Vec<u8>, Refusal>
    ensures { Makes (λ text. text.items) (Ok (class_text (class_of number))) result }
{
    Ok(DNSClass::from(number).to_string(alloc)?.into_bytes())
}

/// The number of the response code that a text names in letters of either case, or that it is in decimal.
///
/// # Errors
///
/// 24 for a text that isn't UTF-8, and 37 for one that names no response code.
pub fn code_number(text: &[u8]) -> Result<usize, Refusal>
    ensures made { Makes (λ n. n) (code_asked text.now) result }
    ensures small { IfOk result (λ n. n < 2 ^ 16) }
{
    let text = characters_of(text)?;
    if let Some(code) = named_code(text) {
        return Ok(usize::from(u16::from(code)));
    }
    match decimal(text) {
        Some(number) => Ok(usize::from(number)),
        None => Err(Refusal::NO_MNEMONIC),
    }
}

/// The name of the response code of a number, or the number in decimal.
///
/// # Errors
///
/// 3 if memory runs out.
pub fn code_text(alloc: Global, number: u16) -> Result<Vec<u8>, Refusal>
    ensures { Makes (λ text. text.items) (Ok (code_mnemonic number)) result }
{
    let code: ResponseCode = number.into();
    match code.name() {
        Some(name) => Ok(Vec::from_slice(alloc, name.as_bytes())?),
        None => Ok(number.to_string(alloc)?.into_bytes()),
    }
}

/// A text in upper case.
///
/// # Errors
///
/// 24 for a text that isn't UTF-8.
fn raised(alloc: Global, text: &[u8]) -> Result<String, Refusal>
    ensures { Makes string_bytes (raised text.now) result }
{
    let mut raised = String::from_str(alloc, characters_of(text)?)?;
    raised.make_ascii_uppercase();
    Ok(raised)
}

/// The class that a text in upper case names.
fn any_class(text: &str) -> Option<DNSClass>
    ensures { result ≡ any_class text.now }
{
    match DNSClass::from_text(text) {
        Some(class) => Some(class),
        None => numbered_class(text),
    }
}

/// The class that `CLASS` and its number name.
fn numbered_class(text: &str) -> Option<DNSClass>
    ensures { result ≡ numbered_class text.now }
{
    let number = decimal(text.strip_prefix("CLASS")?)?;
    Some(DNSClass::from(number))
}

/// The number that decimal digits alone say, below 2 to the 16th.
fn decimal(text: &str) -> Option<u16>
    ensures { result ≡ number_item 16 text.now }
{
    // `parse` would take a plus.
    if first_byte(text) == b'+' {
        return None;
    }
    text.parse::<u16>().ok()
}

/// The first byte of a text; 0 of the empty one.
fn first_byte(text: &str) -> u8
    ensures { result ≡ get_or text.now 0 0 }
{
    match text.as_bytes() {
        [first, ..] => *first,
        [] => 0,
    }
}

/// The response code of a name.
fn named_code(text: &str) -> Option<ResponseCode>
    ensures { result ≡ named_code text.now }
{
    for code in codes_with_names() {
        if is_name(text, code.name()) {
            return Some(code);
        }
    }
    None
}

/// Whether a text is this name.
fn is_name(text: &str, name: Option<&str>) -> bool
    ensures { result ≡ is_name text.now (option_map (λ name. name.now) name.entry) }
{
    match name {
        Some(name) => name.eq_ignore_ascii_case(text),
        None => false,
    }
}

/// The response codes that have a name (RFC 6895, 2.3).
fn codes_with_names() -> array::IntoIter<ResponseCode, 20>
    ensures { array_into_iter_items result ≡ named_codes }
{
    [
        ResponseCode::NoError,
        ResponseCode::FormErr,
        ResponseCode::ServFail,
        ResponseCode::NXDomain,
        ResponseCode::NotImp,
        ResponseCode::Refused,
        ResponseCode::YXDomain,
        ResponseCode::YXRRSet,
        ResponseCode::NXRRSet,
        ResponseCode::NotAuth,
        ResponseCode::NotZone,
        ResponseCode::BADVERS,
        ResponseCode::BADSIG,
        ResponseCode::BADKEY,
        ResponseCode::BADTIME,
        ResponseCode::BADMODE,
        ResponseCode::BADNAME,
        ResponseCode::BADALG,
        ResponseCode::BADTRUNC,
        ResponseCode::BADCOOKIE,
    ]
    .into_iter()
}
