//! The input of a run.

ghost use Rattle.std.specs.Prelude.{◌≡◌, ◌⊎◌, IfErr, IfOk, IfSome};
ghost use Rattle.base.specs.declared.error.proto_error.ProtoError.TheVariants as protos;
ghost use Rattle.commands.specs.declared.refusal.Failure.TheVariants as failures;
ghost use Rattle.commands.specs.declared.refusal.Refusal.TheVariants as refusals;

use crate::refusal::Failure;
use std::alloc::Global;
use std::io::{ErrorKind, Read};

/// How many bytes are asked for at a time.
const PIECE: usize = 4096;

/// The bytes of the input to its end.
///
/// # Errors
///
/// `Broken` if the input fails, whatever its error is; refused with 3 if memory runs out.
pub fn read_all<R: Read>(alloc: Global, input: &mut R) -> Result<Vec<u8>, Failure>
    ensures all { IfOk result (λ text. IfSome (R.remaining input.old) (λ rest. text.items ≡ rest)) }
    ensures only { IfErr result (λ e. (e ≡ failures.Broken)
        ⊎ (e ≡ failures.Refused (refusals.Proto protos.Memory))) }
{
    let mut text = Vec::new(alloc);
    let mut piece = [0; PIECE];
    for _ in 0..u64::MAX {
        match input.read(&mut piece) {
            Ok(0) => return Ok(text),
            Ok(len) => text.extend_from_slice(&piece[..len])?,
            Err(e) if e.kind() == ErrorKind::Interrupted => {}
            Err(_) => return Err(Failure::Broken),
        }
    }
    Err(Failure::Broken)
}
