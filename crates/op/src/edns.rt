//! EDNS: what an OPT record says (RFC 6891).

ghost use Rattle.base.specs.declared.limits.TheConstants.{MIN_PAYLOAD};
ghost use Rattle.std.specs.Prelude.{◌≡◌, ◌⊎◌, MatchResult, Some, max};
ghost use Rattle.std.specs.Option.{option_copied};
ghost use Rattle.base_data.specs.OPT.{first_option};
ghost use Rattle.base.specs.DNSClass.{class_number};
ghost use Rattle.base.specs.declared.error.proto_error.ProtoError.TheVariants as refusals;
ghost use Rattle.op.specs.Section.{IsOptData, edns_of, edns_value};
ghost use Rattle.op.specs.Edns.{LendsFlags, LendsOptions, edns_text, new_edns};
ghost use Rattle.std.specs.Borrow.{sem};

mod edns_flags;
mod writing;

use base::limits::MIN_PAYLOAD;
use base::{DNSClass, ProtoError, RecordType};
use base_data::{EdnsOption, OPT, RData};
pub use edns_flags::{EdnsFlags, flags_are_their_number};
use rr::Record;
use std::alloc::{AllocError, Global};
use std::fmt;
pub(crate) use writing::RaisedEdns;

/// The payload size that is asked for by default: what passes most networks unfragmented, in bytes (RFC 6891, 6.2.3 and
/// 6.2.5).
pub const DEFAULT_MAX_PAYLOAD_LEN: u16 = 1232;

/// What the OPT record of a message says (RFC 6891, 6.1.2 and 6.1.3).
#[derive(Debug, Drop, PartialEq, Eq)]
pub struct Edns {
    /// The high 8 bits of the response code.
    pub rcode_high: u8,
    /// The version of EDNS.
    pub version: u8,
    /// DO and the other flags.
    pub flags: EdnsFlags,
    /// The bytes of the largest answer that the sender takes.
    pub max_payload: u16,
    /// The options.
    pub options: OPT,
}

impl Edns {
    /// EDNS of version 0, with a payload of 512 bytes and no options. Takes no memory.
    pub fn new(alloc: Global) -> Edns
        ensures { result ≡ new_edns }
    {
        Edns {
            rcode_high: 0,
            version: 0,
            flags: EdnsFlags::default(),
            max_payload: MIN_PAYLOAD,
            options: OPT::new(Vec::new(alloc)),
        }
    }

    /// The high 8 bits of the response code (RFC 6891, 6.1.3).
    pub fn rcode_high(&self) -> u8
        ensures { result ≡ self.now.rcode_high }
    {
        self.rcode_high
    }

    /// The version of EDNS (RFC 6891, 6.1.3).
    pub fn version(&self) -> u8
        ensures { result ≡ self.now.version }
    {
        self.version
    }

    /// The flags (RFC 6891, 6.1.4).
    pub fn flags(&self) -> &EdnsFlags
        ensures { result.now ≡ self.now.flags }
    {
        &self.flags
    }

    /// The flags, to be changed (RFC 6891, 6.1.4).
    pub fn flags_mut(&mut self) -> &mut EdnsFlags
        // When the borrow of the answer ends, EDNS has the flags as they were left, and all else as
        // before.
        ensures* writes_back { sem 𝓛 (LendsFlags self.entry result) }
        ensures value { result.now ≡ self.old.flags }
    {
        &mut self.flags
    }

    /// The payload size: how many bytes the sender takes in one answer (RFC 6891, 6.2.3).
    pub fn max_payload(&self) -> u16
        ensures { result ≡ self.now.max_payload }
    {
        self.max_payload
    }

    /// The first option of a code, if there is one (RFC 6891, 6.1.2).
    pub fn option(&self, code: u16) -> Option<&EdnsOption>
        ensures { option_copied result ≡ first_option code self.now.options }
    {
        self.options.get(code)
    }

    /// The options, in their order (RFC 6891, 6.1.2).
    pub fn options(&self) -> &OPT
        ensures { result.now ≡ self.now.options }
    {
        &self.options
    }

    /// The options, to be changed (RFC 6891, 6.1.2).
    pub fn options_mut(&mut self) -> &mut OPT
        // When the borrow of the answer ends, EDNS has the options as they were left, and all else
        // as before.
        ensures* writes_back { sem 𝓛 (LendsOptions self.entry result) }
        ensures value { result.now ≡ self.old.options }
    {
        &mut self.options
    }

    /// Sets the high 8 bits of the response code (RFC 6891, 6.1.3). What a message writes there is its own code's.
    pub fn set_rcode_high(&mut self, rcode_high: u8) -> &mut Edns
        // The reference that is answered is `self` itself.
        ensures same { result.ghost_name ≡ self.entry.ghost_name }
        ensures value { result.now ≡ record self.old { rcode_high = rcode_high } }
    {
        self.rcode_high = rcode_high;
        self
    }

    /// Sets the version (RFC 6891, 6.1.3).
    pub fn set_version(&mut self, version: u8) -> &mut Edns
        // The reference that is answered is `self` itself.
        ensures same { result.ghost_name ≡ self.entry.ghost_name }
        ensures value { result.now ≡ record self.old { version = version } }
    {
        self.version = version;
        self
    }

    /// Sets DO (RFC 3225, 3). The other flags stay.
    pub fn set_dnssec_ok(&mut self, dnssec_ok: bool) -> &mut Edns
        // The reference that is answered is `self` itself.
        ensures same { result.ghost_name ≡ self.entry.ghost_name }
        ensures value { result.now
            ≡ record self.old { flags = record self.old.flags { dnssec_ok = dnssec_ok } } }
    {
        self.flags.dnssec_ok = dnssec_ok;
        self
    }

    /// Sets the payload size, of 512 bytes at least (RFC 6891, 6.2.3).
    pub fn set_max_payload(&mut self, max_payload: u16) -> &mut Edns
        // The reference that is answered is `self` itself.
        ensures same { result.ghost_name ≡ self.entry.ghost_name }
        ensures value { result.now ≡ record self.old { max_payload = max MIN_PAYLOAD max_payload } }
    {
        self.max_payload = max_payload.max(MIN_PAYLOAD);
        self
    }
}

impl TryFrom<&Record> for Edns {
    type Error = ProtoError;

    ghost try_from_gives = { λ opt result. MatchResult result
        (λ edns. IsOptData opt.now.rdata × (edns ≡ edns_of opt.now))
        (λ e. ((e ≡ refusals.Memory) × IsOptData opt.now.rdata)
        ⊎ ((e ≡ refusals.NotOpt) × ¬ (IsOptData opt.now.rdata))) };

    /// What an OPT record says (RFC 6891, 6.1.3). Its class number is the payload size, below 512 too.
    ///
    /// # Errors
    ///
    /// `NotOpt` for a record without OPT data and without empty data of type OPT; `Memory` if memory runs out.
    fn try_from(opt: &Record) -> Result<Edns, ProtoError> {
        let options = match &opt.rdata {
            RData::OPT(options) => options.clone()?,
            RData::Update0(RecordType::OPT) => OPT::new(Vec::new(opt.name.allocator())),
            _ => return Err(ProtoError::NotOpt),
        };
        Ok(opt_edns(opt.dns_class, opt.ttl, options))
    }
}

impl Clone for Edns {
    ghost is_clone = { λ a b. b ≡ a };

    /// The same value.
    ///
    /// # Errors
    ///
    /// If memory runs out.
    fn clone(&self) -> Result<Edns, AllocError> {
        Ok(Edns {
            rcode_high: self.rcode_high,
            version: self.version,
            flags: self.flags,
            max_payload: self.max_payload,
            options: self.options.clone()?,
        })
    }
}

/// `version: V dnssec_ok: B z_flags: Z max_payload: P opts: N`.
impl fmt::Display for Edns {
    ghost output = { λ e. Some (edns_text e) };

    fn fmt<W: fmt::Write>(&self, f: &mut fmt::Formatter<W>) -> fmt::Result {
        write!(
            f,
            "version: {} dnssec_ok: {} z_flags: {} max_payload: {} opts: {}",
            self.version,
            self.flags.dnssec_ok,
            self.flags.z,
            self.max_payload,
            self.options.as_ref().len()
        )
    }
}

/// What an OPT record of this class, TTL and data says (RFC 6891, 6.1.3).
pub(crate) fn opt_edns(dns_class: DNSClass, ttl: u32, options: OPT) -> Edns
    ensures { result ≡ edns_value (class_number dns_class) ttl options }
{
    Edns {
        rcode_high: (ttl / 0x100_0000) as u8,
        version: (ttl / 0x1_0000 % 0x100) as u8,
        flags: EdnsFlags::from((ttl % 0x1_0000) as u16),
        max_payload: u16::from(dns_class),
        options,
    }
}
