//! Laws of data: when it is equal, its order, and what holds of each kind.

ghost use Rattle.base.specs.declared.limits.TheConstants.{MAX_STRING};
ghost use Rattle.std.specs.Prelude.{◌≡◌, ◌≤◌, ◌↔◌, ℕ, List, IsTrue, None, Ok, Some, length, map, true};
ghost use Rattle.std.specs.List.{join_with_byte};
ghost use Rattle.std.specs.Cmp.{IsTotalOrder};
ghost use Rattle.std.specs.Net.Addr.{octets_of};
ghost use Rattle.std.specs.Net.Grammar.{IsColonHex, IsDotted};
ghost use Rattle.base.specs.names.NameOrder.{same_name};
ghost use Rattle.base.specs.declared.record_type.RecordType.TheVariants as types;
ghost use Rattle.base_data.specs.Kinds.{DataWord, HasTextForm, KeptData, data_of, data_text, items_of, kind_rank, shown_item, type_of_data};
ghost use Rattle.base_data.specs.DataOrder.{data_cmp};
ghost use Rattle.base_data.specs.RData.{is_signature_data, signature_in};
ghost use Rattle.base_data.specs.SameData.{same_data};
ghost use Rattle.base_data.specs.StringItems.{IsStringText, string_item};
ghost use Rattle.base_data.specs.declared.rdata.RData.{RData as AnyData};
ghost use Rattle.base_data.specs.declared.rdata.RData.TheVariants as kinds;
ghost use Rattle.base.specs.declared.record_type.RecordType.{RecordType as Kind};
ghost use Rattle.base_data.specs.Fields.{ipv4_item, ipv6_item};
ghost use Rattle.base_data.specs.OPT.{OptionValue};
ghost use Rattle.base_data.specs.declared.rdata.a.A.{A as Ip4};
ghost use Rattle.base_data.specs.declared.rdata.aaaa.AAAA.{AAAA as Ip6};
ghost use Rattle.base_data.specs.declared.rdata.aname.ANAME.{ANAME as Aname};
ghost use Rattle.base_data.specs.declared.rdata.cname.CNAME.{CNAME as Cname};
ghost use Rattle.base_data.specs.declared.rdata.mx.MX.{MX as Mx};
ghost use Rattle.base_data.specs.declared.rdata.ns.NS.{NS as Ns};
ghost use Rattle.base_data.specs.declared.rdata.ptr.PTR.{PTR as Ptr};
ghost use Rattle.base_data.specs.declared.rdata.soa.SOA.{SOA as Soa};
ghost use Rattle.base_data.specs.declared.rdata.srv.SRV.{SRV as Srv};

use crate::rdata::{A, AAAA, ANAME, CNAME, MX, NS, NULL, OPT, PTR, RData, SOA, SRV, TSIG};
use base::RecordType;
use std::cmp::Ordering;

/// Data that is a name is equal exactly where the names are (RFC 4343, 3).
pub fn name_data_is_equal_as_its_name()
    ensures ns { (a b : Ns)
        → IsTrue (⟦<NS as PartialEq>⟧.eq a b) ↔ IsTrue (same_name a.name b.name) }
    ensures cname { (a b : Cname)
        → IsTrue (⟦<CNAME as PartialEq>⟧.eq a b) ↔ IsTrue (same_name a.name b.name) }
    ensures ptr { (a b : Ptr)
        → IsTrue (⟦<PTR as PartialEq>⟧.eq a b) ↔ IsTrue (same_name a.name b.name) }
    ensures aname { (a b : Aname)
        → IsTrue (⟦<ANAME as PartialEq>⟧.eq a b) ↔ IsTrue (same_name a.name b.name) }
{}

/// Data of several fields is equal exactly where the numbers are the same and the names are equal as names are
/// (RFC 4343, 3).
pub fn data_is_equal_field_by_field()
    ensures mx { (a b : Mx)
        → IsTrue (⟦<MX as PartialEq>⟧.eq a b)
        ↔ ((a.preference ≡ b.preference) × IsTrue (same_name a.exchange b.exchange)) }
    ensures soa { (a b : Soa)
        → IsTrue (⟦<SOA as PartialEq>⟧.eq a b)
        ↔ (IsTrue (same_name a.mname b.mname) × IsTrue (same_name a.rname b.rname)
        × (a.serial ≡ b.serial) × (a.refresh ≡ b.refresh) × (a.retry ≡ b.retry)
        × (a.expire ≡ b.expire) × (a.minimum ≡ b.minimum)) }
    ensures srv { (a b : Srv)
        → IsTrue (⟦<SRV as PartialEq>⟧.eq a b)
        ↔ ((a.priority ≡ b.priority) × (a.weight ≡ b.weight) × (a.port ≡ b.port)
        × IsTrue (same_name a.target b.target)) }
{}

/// Data that is bytes is equal exactly where the bytes are the same.
pub fn bytes_are_equal_as_they_are()
    ensures null { (a b : List ℕ) → IsTrue (⟦<NULL as PartialEq>⟧.eq a b) ↔ (a ≡ b) }
    ensures tsig { (a b : List ℕ) → IsTrue (⟦<TSIG as PartialEq>⟧.eq a b) ↔ (a ≡ b) }
{}

/// Addresses and options are equal exactly where they are the same.
pub fn values_are_equal_as_they_are()
    ensures a { (a b : Ip4) → IsTrue (⟦<A as PartialEq>⟧.eq a b) ↔ (a ≡ b) }
    ensures aaaa { (a b : Ip6) → IsTrue (⟦<AAAA as PartialEq>⟧.eq a b) ↔ (a ≡ b) }
    ensures opt { (a b : List OptionValue) → IsTrue (⟦<OPT as PartialEq>⟧.eq a b) ↔ (a ≡ b) }
{}

/// Equal data is of one kind. Data without bytes is equal where its types are, and opaque data where its types and its
/// bytes are; of each other kind it is equal as data of that kind.
pub fn equal_data_has_one_kind()
    ensures kind { (a b : AnyData) → same_data a b ≡ true → kind_rank a ≡ kind_rank b }
    ensures update0 { (s t : Kind)
        → IsTrue (same_data (kinds.Update0 s) (kinds.Update0 t))
        ↔ IsTrue (⟦<RecordType as PartialEq>⟧.eq s t) }
    ensures unknown { (s t : Kind) (a b : List ℕ)
        → IsTrue (same_data (kinds.Unknown s a) (kinds.Unknown t b))
        ↔ (IsTrue (⟦<RecordType as PartialEq>⟧.eq s t) × (a ≡ b)) }
{}

/// Equal data has one type.
pub fn equal_data_has_one_type()
    ensures { (a b : AnyData) → same_data a b ≡ true → type_of_data a ≡ type_of_data b }
{}

/// The order of data is total, and ties exactly equal data, as `RData::fits` says of any data that it has the bits of
/// its types (RFC 4034, 6.2 and 6.3).
pub fn data_order()
    ensures total { IsTotalOrder data_cmp }
    ensures ties { (a b : AnyData) → KeptData a → KeptData b
        → (data_cmp a b ≡ Ordering.Equal) ↔ IsTrue (⟦<RData as PartialEq>⟧.eq a b) }
{}

/// What holds of data of each kind, so that no layer above goes through the kinds. Data that begins inside a buffer
/// ends inside it (RFC 1035, 3.2.1). A transaction signature has the type TSIG, and its data is its bytes (RFC 8945,
/// 4.2).
pub fn data_of_each_kind()
    ensures inside { (d : AnyData) (B : List ℕ) (i e : ℕ) → i ≤ length B → DataWord d B i e
        → e ≤ length B }
    ensures signature_type { (d : AnyData) → IsTrue (is_signature_data d)
        → type_of_data d ≡ types.TSIG }
    ensures signature { (d : AnyData) → IsTrue (is_signature_data d)
        → d ≡ kinds.TSIG (signature_in d) }
{}

/// Addresses as items: four decimal numbers below 256 with dots between them and without leading zeros, and groups of
/// hexadecimal digits with colons between them, of which one `::` stands for the zeros that are left out (RFC 4291,
/// 2.2).
pub fn addresses_are_their_texts()
    ensures ipv4 { (text bytes : List ℕ) → (ipv4_item text ≡ Some bytes) ↔ IsDotted text bytes }
    ensures ipv6 { (text bytes : List ℕ) → (ipv6_item text ≡ Some bytes)
        ↔ ((segments : List ℕ) × IsColonHex text segments × (bytes ≡ octets_of segments)) }
{}

/// The character string of an item is what its pieces say, one after another, of 255 bytes at most: a byte that is no
/// backslash is itself, a quote too; a backslash and a byte that is no digit are that byte; a backslash and three
/// decimal digits up to 255 are the byte of that number (RFC 1035, 5.1).
pub fn strings_are_their_pieces()
    ensures { (text bytes : List ℕ)
        → (string_item text ≡ Some bytes)
        ↔ (IsStringText text bytes × (length bytes ≤ MAX_STRING)) }
{}

/// The text of data of a kind with a text form is its items with one space between each two (RFC 1035, 5.1), strings
/// in quotes. These items, without the quotes, name that data, read without an origin: under one, a relative name
/// becomes another. Left out are data with the relative name without labels, whose text is empty, and the kinds without
/// a text form, which have no items.
pub fn texts_are_read()
    ensures shown { (d : AnyData) (items : List (List ℕ)) → items_of d ≡ Some items
        → data_text d ≡ join_with_byte 32 (map (shown_item d) items) }
    ensures read { (d : AnyData) (items : List (List ℕ)) → items_of d ≡ Some items → HasTextForm d
        → data_of (type_of_data d) items None ≡ Ok d }
{}
