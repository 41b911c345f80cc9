//! EDNS options.

ghost use Rattle.std.specs.Prelude.{◌≡◌, IsOkUnless, OnOk, OnErr, position, refl, Some, All};
ghost use Rattle.std.specs.Cmp.{partial_equiv_from_equiv};
ghost use Rattle.std.specs.Option.{option_copied};
ghost use Rattle.base.specs.writing.Written.{in_turn};
ghost use Rattle.base_data.specs.OPT.{FitsOption, first_option, has_code, opt_at, option_written, options_len, options_say, options_word, same_options, with_option, without_code};
ghost use Rattle.base_data.specs.Kinds.{opt_in};
ghost use Rattle.base_data.specs.Equality.{same_options-equiv};
ghost use Rattle.base_data.specs.declared.rdata.RData.TheVariants as kinds;

mod display;
mod edns_option;

use crate::rdata::RData;
use crate::rdata::reading::SizedData;
use crate::record_data::RecordData;
use base::{
    BinDecodable, BinDecoder, BinEncodable, BinEncoder, DecodeError, ProtoError, RecordType,
};
pub use edns_option::EdnsOption;
use std::alloc::{AllocError, Global};
use std::marker::Model;

/// The options of an EDNS message, in their order (RFC 6891, 6.1.2). Contracts see the list of them.
#[derive(Debug)]
pub struct OPT {
    options: Vec<EdnsOption>,
}

impl Model for OPT {
    ghost use Rattle.std.specs.Prelude.{List};
    ghost use Rattle.base_data.specs.OPT.{OptionValue};

    ghost Value = { List OptionValue };

    ghost view = { λ o. o.options.items };
}

// By hand, so that a place that drops data is one call to a proof for this kind.
impl Drop for OPT {
    fn drop(self) {
        let OPT { options: _ } = self;
    }
}

impl OPT {
    /// The data of these options.
    pub fn new(options: Vec<EdnsOption>) -> OPT
        ensures { result ≡ options.items }
    {
        OPT { options }
    }

    /// The allocator that the list of options is in.
    pub fn allocator(&self) -> Global {
        *self.options.allocator()
    }

    /// The first option of a code.
    pub fn get(&self, code: u16) -> Option<&EdnsOption>
        ensures { option_copied result ≡ first_option code self.now }
    {
        self.options.iter().find(|option| option.code() == code)
    }

    /// Puts an option in the place of the first of its code, or after all others where none has its code.
    ///
    /// # Errors
    ///
    /// `Memory` alone, if memory runs out; the options stay as they were then.
    pub fn insert(&mut self, option: EdnsOption) -> Result<(), ProtoError>
        ensures ok { OnOk result (self.new ≡ with_option option self.old) }
        ensures err { OnErr result (self.new ≡ self.old) }
        ensures only { IsOkUnless result ProtoError.Memory }
    {
        match self.position_of(option.code()) {
            Some(i) => self.options[i] = option,
            None => self.options.push(option)?,
        }
        Ok(())
    }

    /// Where the first option of a code stands.
    fn position_of(&self, code: u16) -> Option<usize>
        ensures { result ≡ position (has_code code) self.now }
    {
        self.options.iter().position(|option| option.code() == code)
    }

    /// Takes away every option of a code. The others stay in their order.
    pub fn remove(&mut self, code: u16)
        ensures { self.new ≡ without_code code self.old }
    {
        self.options.retain(|option| option.code() != code);
    }

    /// The options in their order.
    pub fn as_ref(&self) -> &[EdnsOption]
        ensures { result.now ≡ self.now }
    {
        &self.options
    }

    /// Tells a caller what is true of all options: a code has two bytes, and so has the number of an option's bytes
    /// (RFC 6891, 6.1.2).
    pub fn fits(&self)
        ensures { All FitsOption self.now }
    {
        'options: for option in self.as_ref() {
            option.code();
            option.bytes();
        }
    }
}

impl SizedData for OPT {
    ghost sized_at = { opt_at };

    /// Reads options as long as they begin within the bytes (RFC 6891, 6.1.2). Options of one code are all kept.
    ///
    /// # Errors
    ///
    /// `InsufficientBytes` where the buffer ends inside one; `Memory` if memory runs out.
    fn read(decoder: &mut BinDecoder<'_>, len: u16) -> Result<OPT, DecodeError> {
        let end = decoder.index() + usize::from(len);
        let mut options = Vec::new(decoder.allocator());
        'options: while decoder.index() < end {
            options.push(EdnsOption::read(decoder)?)?;
        }
        Ok(OPT { options })
    }
}

impl Clone for OPT {
    ghost is_clone = { λ a b. b ≡ a };

    fn clone(&self) -> Result<OPT, AllocError> {
        Ok(OPT {
            options: self.options.clone()?,
        })
    }
}

impl PartialEq for OPT {
    ghost eq = { same_options };

    ghost laws = { partial_equiv_from_equiv same_options-equiv };

    fn eq(&self, other: &OPT) -> bool {
        self.as_ref() == other.as_ref()
    }
}

impl Eq for OPT {
    ghost laws = { same_options-equiv };
}

impl BinEncodable for OPT {
    ghost word = { options_word };

    ghost plain_len = { options_len };

    ghost written = { in_turn option_written };

    ghost fits = { All FitsOption };

    ghost says = { options_say };

    /// Writes each option: its code, the number of its bytes, and its bytes (RFC 6891, 6.1.2).
    ///
    /// # Errors
    ///
    /// `MaxBufferSizeExceeded` where a byte would pass the limit; `Memory` if memory runs out.
    #[tactic(auto, using(base::proofs::writing::LawLemmas::writing))]
    fn emit(&self, encoder: &mut BinEncoder<'_>) -> Result<(), ProtoError> {
        for option in &self.options {
            option.emit(encoder)?;
        }
        Ok(())
    }
}

impl RecordData for OPT {
    ghost as_rdata = { kinds.OPT };

    ghost of_rdata = { opt_in };

    ghost borrows_back = { λ _. refl };

    ghost keeps_word = { λ _ _ _ _. (λ h. h, λ h. h) };

    ghost keeps_len = { λ _. refl };

    ghost keeps_written = { λ _. refl };

    ghost keeps_text = { λ _. refl };

    ghost keeps_equality = { λ _ _. refl };

    fn try_borrow(rdata: &RData) -> Option<&OPT> {
        match rdata {
            RData::OPT(rdata) => Some(rdata),
            _ => None,
        }
    }

    fn into_rdata(self) -> RData {
        RData::OPT(self)
    }

    fn record_type(&self) -> RecordType {
        RecordType::OPT
    }

    fn is_update(&self) -> bool {
        false
    }
}
