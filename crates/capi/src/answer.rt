//! How a call answers its caller.

ghost use Rattle.std.specs.Prelude.{◌≡◌, ◌++◌, ◌<◌, ◌≤◌, ◌^◌, IfOk, drop, length, neg_ℤ, pos};
ghost use Rattle.tasks.specs.Asked.{bytes_made};
ghost use Rattle.capi.specs.Answer.{IsLeft, IsNumber, number_made};

use tasks::refusal::Refusal;

/// What is answered where the caller's buffer has no room.
pub const NO_ROOM: i64 = -100;

/// What is answered where memory ran out.
pub const NO_MEMORY: i64 = -3;

/// Copies what was made into the caller's buffer, if it has room, and says how many bytes that takes.
pub fn give(made: Result<Vec<u8>, Refusal>, out: &mut [u8], needed: &mut usize) -> i64
    ensures { IsLeft (bytes_made made) out.old out.new needed.new result }
{
    match made {
        Ok(bytes) => {
            *needed = bytes.len();
            if bytes.len() > out.len() {
                return NO_ROOM;
            }
            put(&bytes, out);
            length(bytes.len())
        }
        Err(refusal) => {
            *needed = 0;
            refusal_code(refusal)
        }
    }
}

/// A number that was made, or why there is none.
pub fn number(made: Result<usize, Refusal>) -> i64
    requires { IfOk made (λ n. n < 2 ^ 63) }
    ensures { IsNumber (number_made made) result }
{
    match made {
        Ok(n) => length(n),
        Err(refusal) => refusal_code(refusal),
    }
}

/// Puts bytes at the front of a buffer.
pub fn put(bytes: &[u8], out: &mut [u8])
    requires { length bytes.now ≤ length out.old }
    ensures { out.new ≡ bytes.now ++ drop (length bytes.now) out.old }
{
    let front = &mut out[..bytes.len()];
    front.copy_from_slice(bytes);
}

/// A length as it is answered.
fn length(len: usize) -> i64
    requires { len < 2 ^ 63 }
    ensures { result ≡ pos len }
{
    len as i64
}

/// A refusal as it is answered.
pub fn refusal_code(refusal: Refusal) -> i64
    ensures { result ≡ neg_ℤ (pos refusal.number) }
{
    -i64::from(refusal.number)
}
