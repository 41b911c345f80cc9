//! Options, found by their codes.

ghost use Rattle.std.specs.Prelude.{◌≤◌, length};

use base::{BinDecoder, DecodeError, ProtoError, RecordType};
use base_data::{EdnsOption, OPT, RData};
use std::alloc::{AllocError, Global};
use test_tools::forms::{equals_its_copy, has_text, is_written_as};

/// Inserts an option of a code and of bytes.
fn insert(options: &mut OPT, code: u16, bytes: &[u8]) -> Result<(), ProtoError>
    requires { length bytes.now ≤ 65535 }
{
    let alloc = options.allocator();
    options.insert(EdnsOption::new(code, Vec::from_slice(alloc, bytes)?))
}

/// Two options, the first in the place of an earlier one of its code.
fn two_options(alloc: Global) -> Result<OPT, ProtoError> {
    let mut options = OPT::new(Vec::new(alloc));
    insert(&mut options, 3, &[0xAA])?;
    insert(&mut options, 10, &[])?;
    insert(&mut options, 3, &[0xBB, 0xCC])?;
    Ok(options)
}

/// Whether an option of a code is found, with these bytes.
fn is_found(options: &OPT, code: u16, bytes: &[u8]) -> bool {
    match options.get(code) {
        Some(option) => option.bytes() == bytes,
        None => false,
    }
}

#[test]
fn two_options_of_three(rt: HostRuntime) -> Result<(), ProtoError> {
    let alloc = rt.alloc();
    let are_copied = equals_its_copy(two_options(alloc));
    let mut options = two_options(alloc)?;
    let wire = [0, 3, 0, 2, 0xBB, 0xCC, 0, 10, 0, 0];
    let are_written = is_written_as(alloc, &options, &wire);
    let are_shown = has_text(alloc, &options, "\\# 10 00030002bbcc000a0000");
    let are_found = is_found(&options, 3, &[0xBB, 0xCC]) && options.get(4).is_none();
    options.remove(3);
    let is_one_left = options.as_ref().len() == 1;
    drop(options);
    assert!(rt; are_copied && are_written && are_shown && are_found && is_one_left);
    Ok(())
}

/// Two options of one code.
const ONE_CODE_TWICE: [u8; 9] = [0, 3, 0, 0, 0, 3, 0, 1, 7];

/// Whether options are written as they stood, and of two of code 3 the first is found, one more takes its place, and
/// both are removed.
fn go_by_the_first(alloc: Global, mut options: OPT) -> bool {
    let stand = is_written_as(alloc, &options, &ONE_CODE_TWICE);
    let found = is_found(&options, 3, &[]);
    let inserted = insert(&mut options, 3, &[9]).is_ok();
    let replaced = is_written_as(alloc, &options, &[0, 3, 0, 1, 9, 0, 3, 0, 1, 7]);
    options.remove(3);
    let removed = options.as_ref().is_empty();
    drop(options);
    stand && found && inserted && replaced && removed
}

/// Whether options were read that do so.
fn read_options_go_by_the_first(alloc: Global, read: Result<RData, DecodeError>) -> bool {
    match read {
        Ok(RData::OPT(options)) => go_by_the_first(alloc, options),
        other => {
            drop(other);
            false
        }
    }
}

#[test]
fn options_of_one_code(rt: HostRuntime) {
    let mut decoder = BinDecoder::new(rt.alloc(), &ONE_CODE_TWICE);
    let read = RData::read(&mut decoder, RecordType::OPT, 9);
    let go_by_the_first = read_options_go_by_the_first(rt.alloc(), read);
    assert!(rt; go_by_the_first);
}
