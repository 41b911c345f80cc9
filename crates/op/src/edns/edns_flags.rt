//! The flags of EDNS.

ghost use Rattle.std.specs.Prelude.{◌≡◌, ◌<◌, ◌^◌, ℕ};
ghost use Rattle.op.specs.EdnsFlags.{flags_number, flags_of_number};

/// The flags field of EDNS (RFC 6891, 6.1.4).
#[derive(Clone, Copy, Debug, Default, PartialEq, Eq)]
pub struct EdnsFlags {
    /// DO: the sender takes DNSSEC records (RFC 3225, 3).
    pub dnssec_ok: bool,
    /// Z: the other 15 bits. A 16th bit is not written.
    pub z: u16,
}

impl From<u16> for EdnsFlags {
    ghost from_gives = { λ number flags. flags ≡ flags_of_number number };

    /// The top bit as DO, and the other bits (RFC 6891, 6.1.4).
    fn from(number: u16) -> EdnsFlags {
        EdnsFlags {
            dnssec_ok: number >= 0x8000,
            z: number & 0x7FFF,
        }
    }
}

impl From<EdnsFlags> for u16 {
    ghost from_gives = { λ flags number. number ≡ flags_number flags };

    /// DO as the top bit, and the low 15 bits of `z` (RFC 6891, 6.1.4).
    fn from(flags: EdnsFlags) -> u16 {
        if flags.dnssec_ok {
            0x8000 | flags.z & 0x7FFF
        } else {
            flags.z & 0x7FFF
        }
    }
}

/// A number that is read as flags is written as the same number (RFC 6891, 6.1.4).
pub fn flags_are_their_number()
    ensures same { (number : ℕ) → number < 2 ^ 16 → flags_number (flags_of_number number) ≡ number }
{}
