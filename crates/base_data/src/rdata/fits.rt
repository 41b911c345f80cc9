//! What is true of all data, and whether the wire gives data back.

ghost use Rattle.std.specs.Prelude.{◌≡◌, ◌↔◌, IsTrue};
ghost use Rattle.base_data.specs.Kinds.{IsReadable, KeptData, is_carried};

use crate::rdata::RData;
use base::RecordType;

impl RData {
    /// Tells a caller what is true of all data: its numbers have the bits of their types, its names have labels of 1 to
    /// 63 bytes and take 255 at most (RFC 1035, 2.3.4), and each EDNS option has 65,535 at most (RFC 6891, 6.1.2). So
    /// the order of data ties exactly equal data. Goes through the options of an OPT record, and nothing else takes
    /// time.
    pub fn fits(&self)
        ensures { KeptData self.now }
    {
        match self {
            RData::NS(rdata) => {
                rdata.name.as_wire();
            }
            RData::CNAME(rdata) => {
                rdata.name.as_wire();
            }
            RData::PTR(rdata) => {
                rdata.name.as_wire();
            }
            RData::ANAME(rdata) => {
                rdata.name.as_wire();
            }
            RData::MX(rdata) => {
                rdata.preference();
                rdata.exchange.as_wire();
            }
            RData::SOA(rdata) => {
                rdata.mname.as_wire();
                rdata.rname.as_wire();
                rdata.number_octets();
            }
            RData::SRV(rdata) => {
                rdata.target.as_wire();
                rdata.number_octets();
            }
            RData::OPT(rdata) => {
                rdata.fits();
            }
            RData::A(_)
            | RData::AAAA(_)
            | RData::TXT(_)
            | RData::NULL(_)
            | RData::TSIG(_)
            | RData::Update0(_)
            | RData::Unknown { .. } => {}
        }
    }

    /// Whether what is written of the data is read as it was: its names are absolute, data without a byte is `Update0`,
    /// and bytes that are only carried are of a type without a kind of its own (RFC 1035, 3.3; RFC 3597, 3).
    pub fn is_readable(&self) -> bool
        ensures { IsTrue result ↔ IsReadable self.now }
    {
        match self {
            RData::Update0(_) => true,
            RData::A(rdata) => {
                let [_a, _b, _c, _d] = rdata.octets;
                true
            }
            RData::AAAA(rdata) => {
                let [
                    _a,
                    _b,
                    _c,
                    _d,
                    _e,
                    _f,
                    _g,
                    _h,
                    _i,
                    _j,
                    _k,
                    _l,
                    _m,
                    _n,
                    _o,
                    _p,
                ] = rdata.octets;
                true
            }
            RData::TXT(rdata) => {
                rdata.strings();
                true
            }
            RData::TSIG(rdata) => {
                rdata.bytes();
                true
            }
            RData::NS(rdata) => rdata.name.is_fqdn(),
            RData::CNAME(rdata) => rdata.name.is_fqdn(),
            RData::PTR(rdata) => rdata.name.is_fqdn(),
            RData::ANAME(rdata) => rdata.name.is_fqdn(),
            RData::MX(rdata) => rdata.exchange.is_fqdn(),
            RData::SOA(rdata) => rdata.mname.is_fqdn() && rdata.rname.is_fqdn(),
            RData::SRV(rdata) => rdata.target.is_fqdn(),
            RData::NULL(rdata) => !rdata.bytes().is_empty(),
            RData::OPT(rdata) => !rdata.as_ref().is_empty(),
            RData::Unknown { code, rdata } => is_carried(*code) && !rdata.bytes().is_empty(),
        }
    }
}

/// Whether data of the type is only carried: it has no kind of its own, and may have data.
fn is_carried(record_type: RecordType) -> bool
    ensures { result ≡ is_carried record_type }
{
    match record_type {
        RecordType::ZERO
        | RecordType::A
        | RecordType::NS
        | RecordType::CNAME
        | RecordType::SOA
        | RecordType::NULL
        | RecordType::PTR
        | RecordType::MX
        | RecordType::TXT
        | RecordType::AAAA
        | RecordType::SRV
        | RecordType::OPT
        | RecordType::TSIG
        | RecordType::ANAME => false,
        _ => true,
    }
}
