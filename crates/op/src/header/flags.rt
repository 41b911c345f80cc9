//! The flags of a header (RFC 1035, 4.1.1; RFC 4035, 3.1.6).

ghost use Rattle.std.specs.Prelude.{Some};
ghost use Rattle.op.specs.Flags.{flags_text, item_text};

use std::fmt;

/// The six flags of a header (RFC 1035, 4.1.1; RFC 4035, 3.1.6).
#[derive(Clone, Copy, Drop, PartialEq, Eq, Hash)]
pub struct Flags {
    /// AA: the answering server has authority over the name asked for.
    pub authoritative: bool,
    /// TC: the message was cut.
    pub truncation: bool,
    /// RD: the server is to ask others where it must.
    pub recursion_desired: bool,
    /// RA: the server asks others where it must.
    pub recursion_available: bool,
    /// AD: the server has checked the signatures of the answer (RFC 4035, 3.1.6).
    pub authentic_data: bool,
    /// CD: the server need not check signatures (RFC 4035, 3.1.6).
    pub checking_disabled: bool,
}

/// The short names of the flags that are set, in the order RD, CD, TC, AA, RA, AD, with commas between them.
impl fmt::Display for Flags {
    ghost output = { λ flags. Some (flags_text flags) };

    fn fmt<W: fmt::Write>(&self, f: &mut fmt::Formatter<W>) -> fmt::Result {
        let after_rd = self.recursion_desired;
        let after_cd = after_rd | self.checking_disabled;
        let after_tc = after_cd | self.truncation;
        let after_aa = after_tc | self.authoritative;
        let after_ra = after_aa | self.recursion_available;
        write!(
            f,
            "{}{}{}{}{}{}",
            Item {
                name: "RD",
                is_set: self.recursion_desired,
                is_after: false
            },
            Item {
                name: "CD",
                is_set: self.checking_disabled,
                is_after: after_rd
            },
            Item {
                name: "TC",
                is_set: self.truncation,
                is_after: after_cd
            },
            Item {
                name: "AA",
                is_set: self.authoritative,
                is_after: after_tc
            },
            Item {
                name: "RA",
                is_set: self.recursion_available,
                is_after: after_aa
            },
            Item {
                name: "AD",
                is_set: self.authentic_data,
                is_after: after_ra
            },
        )
    }
}

/// A flag in a list: its name, if it is set, with a comma in front if it stands after another.
#[derive(Clone, Copy, Drop)]
struct Item {
    name: &'static str,
    is_set: bool,
    is_after: bool,
}

impl fmt::Display for Item {
    ghost output = { λ item. Some (item_text item.is_set item.is_after item.name.now) };

    fn fmt<W: fmt::Write>(&self, f: &mut fmt::Formatter<W>) -> fmt::Result {
        match (self.is_set, self.is_after) {
            (false, _) => Ok(()),
            (true, false) => f.write_str(self.name),
            (true, true) => write!(f, ",{}", self.name),
        }
    }
}
