//! The mnemonics of types, classes and response codes (RFC 1035, 3.2; RFC 6895, 2.3), and the version.

ghost use Rattle.std.specs.Prelude.{◌≡◌, Ok};
ghost use Rattle.base.specs.DNSClass.{class_of, class_text};
ghost use Rattle.base.specs.RecordType.{type_of, type_text};
ghost use Rattle.tasks.specs.Mnemonic.{class_asked, code_asked, code_mnemonic, type_asked};
ghost use Rattle.capi.specs.Answer.{IsAnswered, IsNumbered};

use crate::answer::{give, number};
use std::alloc::Global;
use tasks::mnemonic::{class_number, class_text, code_number, code_text, type_number, type_text};

/// This version, 0.1.0: a thousand for each minor version, and a million for each major one.
pub const VERSION: u32 = 1_000;

/// The version of the library: a thousand for each minor version, and a million for each major one.
#[unsafe(no_mangle)]
pub extern "C" fn fuzsbanel_version() -> u32
    ensures { result ≡ VERSION }
{
    VERSION
}

/// The number of the type that a text names in letters of either case: by its mnemonic (RFC 1035, 3.2.2 and 3.2.3), or
/// by `TYPE` and the number (RFC 3597, 5).
///
/// # Errors
///
/// 24 for a text that isn't UTF-8, and 21 for one that names no type.
#[unsafe(no_mangle)]
pub extern "C" fn fuzsbanel_type_number(alloc: Global, text: &[u8]) -> i64
    ensures { IsNumbered (type_asked text.now) result }
{
    number(type_number(alloc, text))
}

/// Writes the mnemonic of the type of a number into the caller's buffer, or `TYPE` and the number (RFC 3597, 5).
#[unsafe(no_mangle)]
pub extern "C" fn fuzsbanel_type_text(
    alloc: Global,
    record_type: u16,
    out: &mut [u8],
    needed: &mut usize,
) -> i64
    ensures { IsAnswered (Ok (type_text (type_of record_type))) out.old out.new needed.new result }
{
    give(type_text(alloc, record_type), out, needed)
}

/// The number of the class that a text names in letters of either case: by its mnemonic or `*` (RFC 1035, 3.2.4 and
/// 3.2.5), or by `CLASS` and the number (RFC 3597, 5).
///
/// # Errors
///
/// 24 for a text that isn't UTF-8, and 37 for one that names no class.
#[unsafe(no_mangle)]
pub extern "C" fn fuzsbanel_class_number(alloc: Global, text: &[u8]) -> i64
    ensures { IsNumbered (class_asked text.now) result }
{
    number(class_number(alloc, text))
}

/// Writes the mnemonic of the class of a number into the caller's buffer, or `CLASS` and the number (RFC 3597, 5).
#[unsafe(no_mangle)]
pub extern "C" fn fuzsbanel_class_text(
    alloc: Global,
    dns_class: u16,
    out: &mut [u8],
    needed: &mut usize,
) -> i64
    ensures { IsAnswered (Ok (class_text (class_of dns_class))) out.old out.new needed.new result }
{
    give(class_text(alloc, dns_class), out, needed)
}

/// The number of the response code that a text names: by its name in letters of either case (RFC 6895, 2.3), or by the
/// number in decimal.
///
/// # Errors
///
/// 24 for a text that isn't UTF-8, and 37 for one that names no response code.
#[unsafe(no_mangle)]
pub extern "C" fn fuzsbanel_code_number(alloc: Global, text: &[u8]) -> i64
    ensures { IsNumbered (code_asked text.now) result }
{
    number(code_number(text))
}

/// Writes the name of the response code of a number into the caller's buffer, or the number in decimal. 16 is BADSIG,
/// never BADVERS, whose number it is too (RFC 6895, 2.3).
#[unsafe(no_mangle)]
pub extern "C" fn fuzsbanel_code_text(
    alloc: Global,
    code: u16,
    out: &mut [u8],
    needed: &mut usize,
) -> i64
    ensures { IsAnswered (Ok (code_mnemonic code)) out.old out.new needed.new result }
{
    give(code_text(alloc, code), out, needed)
}
