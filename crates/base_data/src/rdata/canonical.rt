//! The bytes of the canonical form of data, one by one and without memory (RFC 4034, 6.2).

ghost use Rattle.std.specs.Prelude.{◌≡◌, ◌≤◌, [], ◌++◌, IfOk, length};
ghost use Rattle.std.specs.Iterator.{YieldsFirst, item_count};
ghost use Rattle.base.specs.writing.Wire.{IsMemory};
ghost use Rattle.base_data.specs.Kinds.{canonical_data};
ghost use Rattle.base_data.specs.NameData.{name_octets};
ghost use Rattle.base_data.specs.OPT.{options_wire};
ghost use Rattle.base_data.specs.Opaque.{bytes_cmp};

use crate::rdata::{EdnsOption, RData};
use base::{Name, ProtoError};
use std::alloc::Global;
use std::cmp::Ordering;
use std::marker::Model;

/// The most bytes that the numbers of data take: those of an SOA.
const MOST_DIGITS: usize = 20;

/// The bytes of numbers that are left.
#[derive(Drop)]
struct Digits {
    bytes: [u8; MOST_DIGITS],
    start: usize,
}

impl Model for Digits {
    ghost use Rattle.std.specs.Prelude.{ℕ, List, drop};

    ghost Value = { List ℕ };

    ghost view = { λ d. drop d.start d.bytes };
}

impl Digits {
    /// No bytes.
    fn none() -> Digits
        ensures { result ≡ [] }
    {
        Digits {
            bytes: [0; MOST_DIGITS],
            start: MOST_DIGITS,
        }
    }

    /// These bytes.
    fn of(digits: &[u8]) -> Digits
        requires { length digits.now ≤ 20 }
        ensures { result ≡ digits.now }
    {
        let mut bytes = [0; MOST_DIGITS];
        let start = MOST_DIGITS - digits.len();
        bytes[start..].copy_from_slice(digits);
        Digits { bytes, start }
    }
}

impl Iterator for Digits {
    type Item = u8;

    ghost next_gives = { YieldsFirst (λ bytes. bytes) };

    ghost remaining = { item_count (λ bytes. bytes) };

    fn next(&mut self) -> Option<u8> {
        match self.bytes.get(self.start) {
            Some(byte) => {
                self.start += 1;
                Some(*byte)
            }
            None => None,
        }
    }
}

/// The bytes of a name that are left: its labels, and whether the final zero byte still comes.
#[derive(Drop)]
struct NameOctets<'a> {
    labels: &'a [u8],
    is_open: bool,
}

impl<'a> Model for NameOctets<'a> {
    ghost use Rattle.std.specs.Prelude.{ℕ, List, [], ◌∷◌, ◌++◌, map, if◌then◌else◌};
    ghost use Rattle.std.specs.Char.{to_ascii_lowercase};

    ghost Value = { List ℕ };

    ghost view = { λ n. map to_ascii_lowercase n.labels.now ++ (if n.is_open then 0 ∷ [] else []) };
}

impl<'a> NameOctets<'a> {
    /// No bytes.
    fn none() -> NameOctets<'a>
        ensures { result ≡ [] }
    {
        NameOctets {
            labels: &[],
            is_open: false,
        }
    }

    /// Those of a name.
    fn of(name: &'a Name) -> NameOctets<'a>
        ensures { result ≡ name_octets name.now }
    {
        NameOctets {
            labels: name.as_wire(),
            is_open: true,
        }
    }
}

impl<'a> Iterator for NameOctets<'a> {
    type Item = u8;

    ghost next_gives = { YieldsFirst (λ bytes. bytes) };

    ghost remaining = { item_count (λ bytes. bytes) };

    fn next(&mut self) -> Option<u8> {
        if let [byte, tail @ ..] = self.labels {
            self.labels = tail;
            return Some(byte.to_ascii_lowercase());
        }
        if self.is_open {
            self.is_open = false;
            return Some(0);
        }
        None
    }
}

/// The bytes of data that are left: numbers, two names, numbers, other bytes, options.
#[derive(Drop)]
pub(crate) struct CanonicalOctets<'a> {
    front: Digits,
    first: NameOctets<'a>,
    second: NameOctets<'a>,
    back: Digits,
    rest: &'a [u8],
    options: &'a [EdnsOption],
}

impl<'a> Model for CanonicalOctets<'a> {
    ghost use Rattle.std.specs.Prelude.{ℕ, List, ◌++◌};
    ghost use Rattle.base_data.specs.OPT.{options_wire};

    ghost Value = { List ℕ };

    ghost view = { λ c. c.front
        ++ (c.first ++ (c.second ++ (c.back ++ (c.rest.now ++ options_wire c.options.now)))) };
}

impl<'a> CanonicalOctets<'a> {
    /// Bytes as they are.
    pub(crate) fn of_bytes(bytes: &'a [u8]) -> CanonicalOctets<'a>
        ensures { result ≡ bytes.now }
    {
        CanonicalOctets {
            front: Digits::none(),
            first: NameOctets::none(),
            second: NameOctets::none(),
            back: Digits::none(),
            rest: bytes,
            options: &[],
        }
    }

    /// Numbers, and a name after them.
    pub(crate) fn of_name(digits: &[u8], name: &'a Name) -> CanonicalOctets<'a>
        requires { length digits.now ≤ 20 }
        ensures { result ≡ digits.now ++ name_octets name.now }
    {
        CanonicalOctets {
            front: Digits::of(digits),
            first: NameOctets::of(name),
            second: NameOctets::none(),
            back: Digits::none(),
            rest: &[],
            options: &[],
        }
    }

    /// Two names, and numbers after them.
    pub(crate) fn of_names(first: &'a Name, second: &'a Name, digits: &[u8]) -> CanonicalOctets<'a>
        requires { length digits.now ≤ 20 }
        ensures { result ≡ name_octets first.now ++ name_octets second.now ++ digits.now }
    {
        CanonicalOctets {
            front: Digits::none(),
            first: NameOctets::of(first),
            second: NameOctets::of(second),
            back: Digits::of(digits),
            rest: &[],
            options: &[],
        }
    }

    /// Options.
    pub(crate) fn of_options(options: &'a [EdnsOption]) -> CanonicalOctets<'a>
        ensures { result ≡ options_wire options.now }
    {
        CanonicalOctets {
            front: Digits::none(),
            first: NameOctets::none(),
            second: NameOctets::none(),
            back: Digits::none(),
            rest: &[],
            options,
        }
    }
}

impl<'a> Iterator for CanonicalOctets<'a> {
    type Item = u8;

    ghost next_gives = { YieldsFirst (λ bytes. bytes) };

    ghost remaining = { item_count (λ bytes. bytes) };

    fn next(&mut self) -> Option<u8> {
        if let Some(byte) = self.front.next() {
            return Some(byte);
        }
        if let Some(byte) = self.first.next() {
            return Some(byte);
        }
        if let Some(byte) = self.second.next() {
            return Some(byte);
        }
        if let Some(byte) = self.back.next() {
            return Some(byte);
        }
        if let [byte, tail @ ..] = self.rest {
            self.rest = tail;
            return Some(*byte);
        }
        let [option, others @ ..] = self.options else {
            return None;
        };
        let bytes = option.bytes();
        let [high, low] = option.code().to_be_bytes();
        let [len_high, len_low] = (bytes.len() as u16).to_be_bytes();
        self.front = Digits::of(&[low, len_high, len_low]);
        self.rest = bytes;
        self.options = others;
        Some(high)
    }
}

impl RData {
    /// The bytes of the canonical form, which are the same for equal data: letters of names are in lower case.
    ///
    /// # Errors
    ///
    /// [`ProtoError::Memory`] if memory runs out.
    pub fn to_canonical(&self, alloc: Global) -> Result<Vec<u8>, ProtoError>
        ensures ok { IfOk result (λ bytes. bytes.items ≡ canonical_data self.now) }
        // A refusal is `Memory`.
        ensures memory { IsMemory result }
    {
        let mut bytes = Vec::new(alloc);
        let mut left = self.canonical_octets();
        'octets: while let Some(byte) = left.next() {
            bytes.push(byte)?;
        }
        Ok(bytes)
    }

    /// The order of the canonical forms, by the first byte that differs, what is a beginning before what it begins.
    pub(crate) fn cmp_octets(&self, other: &RData) -> Ordering
        ensures { result ≡ bytes_cmp (canonical_data self.now) (canonical_data other.now) }
    {
        let mut left = self.canonical_octets();
        let mut right = other.canonical_octets();
        'octets: while let Some(byte) = left.next() {
            let Some(other_byte) = right.next() else {
                return Ordering::Greater;
            };
            let order = byte.cmp(&other_byte);
            if order.is_ne() {
                return order;
            }
        }
        match right.next() {
            Some(_) => Ordering::Less,
            None => Ordering::Equal,
        }
    }
}
