//! Response codes (RFC 1035, 4.1.1; RFC 6891, 6.1.3).

ghost use Rattle.std.specs.Prelude.{◌≡◌, ◌%◌, Some};
ghost use Rattle.std.specs.Option.{option_map};
ghost use Rattle.op.specs.ResponseCode.{code_number, code_value, code_low, code_high, code_from, code_name, code_text};

use std::fmt;

/// How a request was answered: RCODE (RFC 1035, 4.1.1).
///
/// The header has four bits for it, and an OPT record eight more above them (RFC 6891, 6.1.3). The order is that of the
/// variants here, and two unknown codes are ordered by number.
#[derive(Clone, Copy, Debug, Default, Drop, PartialEq, Eq, PartialOrd, Hash)]
pub enum ResponseCode {
    /// No error (RFC 1035, 4.1.1).
    #[default]
    NoError,
    /// The request could not be read (RFC 1035, 4.1.1).
    FormErr,
    /// The server failed (RFC 1035, 4.1.1).
    ServFail,
    /// The name doesn't exist (RFC 1035, 4.1.1).
    NXDomain,
    /// The server doesn't know this kind of request (RFC 1035, 4.1.1).
    NotImp,
    /// The server's policy refuses the request (RFC 1035, 4.1.1).
    Refused,
    /// A name exists that should not (RFC 2136, 2.2).
    YXDomain,
    /// A record set exists that should not (RFC 2136, 2.2).
    YXRRSet,
    /// A record set that should exist doesn't (RFC 2136, 2.2).
    NXRRSet,
    /// The server has no authority over the zone (RFC 2136, 2.2), or the request none (RFC 8945, 5.2).
    NotAuth,
    /// A name lies outside the zone (RFC 2136, 2.2).
    NotZone,
    /// A version of EDNS that the server doesn't know (RFC 6891, 9). Its number reads as `BADSIG`.
    BADVERS,
    /// A signature that doesn't hold (RFC 8945, 5.2.2).
    BADSIG,
    /// A key that the server doesn't know (RFC 8945, 5.2.1).
    BADKEY,
    /// A signature outside its time (RFC 8945, 5.2.3).
    BADTIME,
    /// A TKEY mode that the server doesn't know (RFC 2930, 2.6).
    BADMODE,
    /// A key name that is in use (RFC 2930, 2.6).
    BADNAME,
    /// An algorithm that the server doesn't know (RFC 2930, 2.6).
    BADALG,
    /// A signature that was cut too short (RFC 8945, 5.2.4).
    BADTRUNC,
    /// A server cookie that is missing or wrong (RFC 7873, 8).
    BADCOOKIE,
    /// Any other number.
    Unknown(u16),
}

impl ResponseCode {
    /// The lowest four bits of the number, which the header holds (RFC 1035, 4.1.1).
    pub fn low(self) -> u8
        ensures { result ≡ code_low self }
    {
        (u16::from(self) & 0x000F) as u8
    }

    /// The eight bits above the lowest four, which an OPT record holds (RFC 6891, 6.1.3).
    ///
    /// Of a number from 4096 on the highest bits are in neither part.
    pub fn high(self) -> u8
        ensures { result ≡ code_high self }
    {
        ((u16::from(self) >> 4) & 0x00FF) as u8
    }

    /// The code of a header alone: that of the lowest four bits (RFC 1035, 4.1.1).
    pub fn from_low(low: u8) -> ResponseCode
        ensures { result ≡ code_value (low % 16) }
    {
        (u16::from(low) & 0x000F).into()
    }

    /// The code of an OPT record's eight high bits and a header's four low ones (RFC 6891, 6.1.3).
    ///
    /// The high half of `low` is ignored.
    pub fn from(high: u8, low: u8) -> ResponseCode
        ensures { result ≡ code_from high low }
    {
        ((u16::from(high) << 4) | (u16::from(low) & 0x000F)).into()
    }

    /// The variant's name, or none for a number without one.
    pub fn name(self) -> Option<&'static str>
        ensures { option_map (λ text. text.now) result ≡ code_name self }
    {
        let name = match self {
            ResponseCode::NoError => "NoError",
            ResponseCode::FormErr => "FormErr",
            ResponseCode::ServFail => "ServFail",
            ResponseCode::NXDomain => "NXDomain",
            ResponseCode::NotImp => "NotImp",
            ResponseCode::Refused => "Refused",
            ResponseCode::YXDomain => "YXDomain",
            ResponseCode::YXRRSet => "YXRRSet",
            ResponseCode::NXRRSet => "NXRRSet",
            ResponseCode::NotAuth => "NotAuth",
            ResponseCode::NotZone => "NotZone",
            ResponseCode::BADVERS => "BADVERS",
            ResponseCode::BADSIG => "BADSIG",
            ResponseCode::BADKEY => "BADKEY",
            ResponseCode::BADTIME => "BADTIME",
            ResponseCode::BADMODE => "BADMODE",
            ResponseCode::BADNAME => "BADNAME",
            ResponseCode::BADALG => "BADALG",
            ResponseCode::BADTRUNC => "BADTRUNC",
            ResponseCode::BADCOOKIE => "BADCOOKIE",
            ResponseCode::Unknown(_) => return None,
        };
        Some(name)
    }

    /// The code in words, which is also what it displays.
    pub fn to_str(self) -> &'static str
        ensures { result.now ≡ code_text self }
    {
        match self {
            ResponseCode::NoError => "No Error",
            ResponseCode::FormErr => "Form Error",
            ResponseCode::ServFail => "Server Failure",
            ResponseCode::NXDomain => "Non-Existent Domain",
            ResponseCode::NotImp => "Not Implemented",
            ResponseCode::Refused => "Query Refused",
            ResponseCode::YXDomain => "Name should not exist",
            ResponseCode::YXRRSet => "RR Set should not exist",
            ResponseCode::NXRRSet => "RR Set does not exist",
            ResponseCode::NotAuth => "Not authorized",
            ResponseCode::NotZone => "Name not in zone",
            ResponseCode::BADVERS => "Bad option versions",
            ResponseCode::BADSIG => "TSIG Failure",
            ResponseCode::BADKEY => "Key not recognized",
            ResponseCode::BADTIME => "Signature out of time window",
            ResponseCode::BADMODE => "Bad TKEY mode",
            ResponseCode::BADNAME => "Duplicate key name",
            ResponseCode::BADALG => "Algorithm not supported",
            ResponseCode::BADTRUNC => "Bad truncation",
            ResponseCode::BADCOOKIE => "Bad server cookie",
            ResponseCode::Unknown(_) => "Unknown response code",
        }
    }
}

/// The code in words.
impl fmt::Display for ResponseCode {
    ghost output = { λ code. Some (code_text code) };

    fn fmt<W: fmt::Write>(&self, f: &mut fmt::Formatter<W>) -> fmt::Result {
        f.write_str(self.to_str())
    }
}

impl From<u16> for ResponseCode {
    ghost from_gives = { λ number code. code ≡ code_value number };

    /// The code of a number: `BADSIG` for 16, never `BADVERS`; `Unknown` for a number without a name (RFC 1035, 4.1.1;
    /// RFC 2136, 2.2; RFC 6895, 2.3).
    fn from(number: u16) -> ResponseCode {
        match number {
            0 => ResponseCode::NoError,
            1 => ResponseCode::FormErr,
            2 => ResponseCode::ServFail,
            3 => ResponseCode::NXDomain,
            4 => ResponseCode::NotImp,
            5 => ResponseCode::Refused,
            6 => ResponseCode::YXDomain,
            7 => ResponseCode::YXRRSet,
            8 => ResponseCode::NXRRSet,
            9 => ResponseCode::NotAuth,
            10 => ResponseCode::NotZone,
            16 => ResponseCode::BADSIG,
            17 => ResponseCode::BADKEY,
            18 => ResponseCode::BADTIME,
            19 => ResponseCode::BADMODE,
            20 => ResponseCode::BADNAME,
            21 => ResponseCode::BADALG,
            22 => ResponseCode::BADTRUNC,
            23 => ResponseCode::BADCOOKIE,
            _ => ResponseCode::Unknown(number),
        }
    }
}

impl From<ResponseCode> for u16 {
    ghost from_gives = { λ code number. number ≡ code_number code };

    /// The number of the code: 16 for both `BADVERS` and `BADSIG` (RFC 1035, 4.1.1; RFC 2136, 2.2; RFC 6895, 2.3).
    fn from(code: ResponseCode) -> u16 {
        match code {
            ResponseCode::NoError => 0,
            ResponseCode::FormErr => 1,
            ResponseCode::ServFail => 2,
            ResponseCode::NXDomain => 3,
            ResponseCode::NotImp => 4,
            ResponseCode::Refused => 5,
            ResponseCode::YXDomain => 6,
            ResponseCode::YXRRSet => 7,
            ResponseCode::NXRRSet => 8,
            ResponseCode::NotAuth => 9,
            ResponseCode::NotZone => 10,
            ResponseCode::BADVERS | ResponseCode::BADSIG => 16,
            ResponseCode::BADKEY => 17,
            ResponseCode::BADTIME => 18,
            ResponseCode::BADMODE => 19,
            ResponseCode::BADNAME => 20,
            ResponseCode::BADALG => 21,
            ResponseCode::BADTRUNC => 22,
            ResponseCode::BADCOOKIE => 23,
            ResponseCode::Unknown(number) => number,
        }
    }
}
