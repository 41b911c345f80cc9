//! What follows of what a zone has for a name.

ghost use Rattle.authority.specs.Agreement.{Agree, above_cuts, inside, less_additionals};
ghost use Rattle.authority.specs.Agreement.{message_less_additionals, with_sets};
ghost use Rattle.authority.specs.Answer.{answer};
ghost use Rattle.authority.specs.Chain.{AreLed, EndsFor};
ghost use Rattle.authority.specs.LetterCase.{answer_lowered, finding_lowered, message_lowered};
ghost use Rattle.authority.specs.Lookup.{Cut, NoName, cut_over, encloser, exists, has_servers, is_ds};
ghost use Rattle.authority.specs.Lookup.{lookup as the_finding, name_with, owner_lowered, wildcard_below};
ghost use Rattle.authority.specs.Once.{HasProperSets, same_record};
ghost use Rattle.authority.specs.Reply.{reply};
ghost use Rattle.authority.specs.Sent.{sent};
ghost use Rattle.authority.specs.Standing.{StandsInZone};
ghost use Rattle.authority.specs.Transfer.{between, zone_records};
ghost use Rattle.authority.specs.ZoneRef.{AreUnderKeys};
ghost use Rattle.base.specs.declared.dns_class.DNSClass.{DNSClass as Class};
ghost use Rattle.base.specs.declared.rr_key.RrKey.{RrKey as Key};
ghost use Rattle.op.specs.Message.{MessageValue};
ghost use Rattle.op.specs.declared.query.Query.{Query as Question};
ghost use Rattle.op.specs.declared.response_code.ResponseCode.{ResponseCode as Code};
ghost use Rattle.op_use.specs.Applying.{IsApplied, IsZoneMap, applied, zone_of_map};
ghost use Rattle.op_use.specs.Server.{Sections};
ghost use Rattle.rr.specs.RecordSet.{IsTidy, SetValue};
ghost use Rattle.std.specs.BTreeMap.{BTreeMap as Tree, IsOrdered, get};
ghost use Rattle.std.specs.FinMap.{FinMap};
ghost use Rattle.authority.specs.declared.sending.Carrier.{Carrier as Means};
ghost use Rattle.base.specs.declared.error.proto_error.ProtoError.{ProtoError as Refusal};
ghost use Rattle.base.specs.RrKey.{key_cmp};
ghost use Rattle.base.specs.names.Labels.{NameValue};
ghost use Rattle.base.specs.names.NameOrder.{same_name};
ghost use Rattle.base.specs.names.Parents.{is_below, is_within};
ghost use Rattle.base.specs.declared.record_type.RecordType.{RecordType as Kind};
ghost use Rattle.op_use.specs.Zone.{Datum, Zone};
ghost use Rattle.std.specs.List.{AllByRecursion, IsDistinct};
ghost use Rattle.std.specs.Prelude.{Bool, Err, List, None, Some, [], false, map, option_map, true, ℕ, ◌+◌, ◌++◌, ◌↔◌, ◌∷◌};
ghost use Rattle.std.specs.Prelude.{◌≡◌, ◌≢◌};

use op_use::apply::laws::built_updates_apply_as_named;

/// Where a zone has no name, nothing stands at the name nor below it, nor at the asterisk below its closest encloser,
/// and no cut is above it (RFC 2308, 2.1; RFC 4592, 3.3.2).
pub fn no_name_is_nothing_there()
    ensures nothing { (z : Zone) (t : Kind) (n : NameValue) → the_finding z t n ≡ NoName
        → exists z n ≡ false }
    ensures no_wildcard { (z : Zone) (t : Kind) (n : NameValue) → the_finding z t n ≡ NoName
        → exists z (wildcard_below (encloser z n)) ≡ false }
    ensures no_cut { (z : Zone) (t : Kind) (n : NameValue) → the_finding z t n ≡ NoName
        → cut_over z t n ≡ None }
{}

/// A referral is to a name below the origin that has name servers. Where such a name is an end of the name that is
/// asked for, whatever type is asked for but DS, the answer is a referral: nothing at a cut or below it is answered as
/// data (RFC 1034, 4.2.1).
pub fn cuts_are_referred()
    ensures below { (z : Zone) (t : Kind) (n m : NameValue) → the_finding z t n ≡ Cut m
        → is_below z.origin m ≡ true }
    ensures servers { (z : Zone) (t : Kind) (n m : NameValue) → the_finding z t n ≡ Cut m
        → has_servers z m ≡ true }
    ensures referred { (z : Zone) (t : Kind) (absolute : Bool) (front labels : List (List ℕ))
        → is_ds t ≡ false → is_within z.origin (name_with absolute (front ++ labels)) ≡ true
        → is_below z.origin (name_with absolute labels) ≡ true
        → has_servers z (name_with absolute labels) ≡ true
        → (m : NameValue) × (the_finding z t (name_with absolute (front ++ labels)) ≡ Cut m) }
{}

/// AA is clear in an answer exactly where it is a referral to which no alias leads (RFC 1035, 4.1.1).
pub fn authority_is_clear_in_referrals_alone()
    ensures { (z : Zone) (t : Kind) (room : ℕ) (n : NameValue)
        → ((answer z t room [] n).authoritative ≡ false)
        ↔ ((m : NameValue) × (the_finding z t n ≡ Cut m)) }
{}

/// Answers are a chain of aliases, each what the zone has for the name to which the one before it leads, and then the
/// records that it has for the last name, or none. Where there is room for so many more aliases, there is one more at
/// most, and no owner of an alias comes twice (RFC 1034, 3.6.2).
pub fn answers_are_led()
    ensures { (z : Zone) (t : Kind) (room : ℕ) (n : NameValue)
        → AreLed z t n (room + 1) [] (answer z t room [] n).answers }
{}

/// The data of each answer stands in a set of the zone that is its owner's or, where nothing stands at the owner or
/// below it, that of the asterisk below its closest encloser (RFC 4592, 3.3.2).
pub fn answers_stand_in_the_zone()
    ensures { (z : Zone) (t : Kind) (room : ℕ) (n : NameValue)
        → AllByRecursion (StandsInZone z) (answer z t room [] n).answers }
{}

/// What is sent always has room, since 512 bytes hold the header and the one question of any reply, so that `respond`
/// is refused for memory alone (RFC 1035, 4.2.1).
pub fn responses_have_room()
    ensures { (z : Zone) (carrier : Means) (received : List ℕ) (e : Refusal)
        → sent z carrier received ≢ Err e }
{}

/// A reply after an update is that from the zone which RFC 2136 makes of the old one, where the map is what
/// `apply_update` answers; and each of its sets stands under its own key, as `reply` and `respond` ask.
pub fn updates_are_answered()
    ensures replies { (origin : NameValue) (class : Class) (s : Sections)
        (old : Tree Key SetValue) (code : Code) (new : Tree Key SetValue) (m : MessageValue)
        → IsApplied origin class s old code new
        → reply (zone_of_map origin class new) m
        ≡ reply (applied (zone_of_map origin class old) s).1 m }
    ensures keys { (origin : NameValue) (class : Class) (s : Sections) (old : Tree Key SetValue)
        (code : Code) (new : Tree Key SetValue)
        → IsApplied origin class s old code new → AreUnderKeys new }
{}

/// The records between the two SOAs of a transfer are those of the zone's sets at the origin or below it but for the
/// SOA, set by set in the order of their keys, each once. Their owners are spelled as those of their sets, which the
/// zone has in lower case (RFC 5936, 2.2).
pub fn transfers_give_the_zone()
    ensures { (origin : NameValue) (class : Class) (sets : Tree Key SetValue)
        → IsOrdered key_cmp sets → AreUnderKeys sets
        → map owner_lowered (between origin class sets)
        ≡ zone_records (zone_of_map origin class sets) }
{}

/// What a zone has for a name is decided by few of its sets: those at the name, or at the one asterisk below its closest
/// encloser; the name servers at its ends below the origin; and which of its ends exist (RFC 1034, 4.3.2; RFC 4592).
pub fn few_sets_decide_on_a_name()
    ensures { (z : Zone) (sets : FinMap key_cmp (List Datum)) (t : Kind) (n : NameValue)
        → Agree z sets n → the_finding z t n ≡ the_finding (with_sets z sets) t n }
{}

/// Sets that stand neither at the origin nor below it change no reply.
pub fn sets_outside_change_nothing()
    ensures found { (z : Zone) (t : Kind) (n : NameValue)
        → the_finding z t n ≡ the_finding (inside z) t n }
    ensures answered { (z : Zone) (t : Kind) (room : ℕ) (n : NameValue)
        → answer z t room [] n ≡ answer (inside z) t room [] n }
    ensures replied { (z : Zone) (m : MessageValue) → reply z m ≡ reply (inside z) m }
{}

/// A name in other letter case has the same records, owners aside (RFC 4343, 3).
pub fn letter_case_changes_no_records()
    ensures found { (z : Zone) (t : Kind) (a b : NameValue) → same_name a b ≡ true
        → finding_lowered (the_finding z t a) ≡ finding_lowered (the_finding z t b) }
    ensures answered { (z : Zone) (t : Kind) (room : ℕ) (a b : NameValue) → same_name a b ≡ true
        → answer_lowered (answer z t room [] a) ≡ answer_lowered (answer z t room [] b) }
    ensures replied { (z : Zone) (m : MessageValue) (q : Question) (n : NameValue)
        → same_name q.name n ≡ true
        → option_map message_lowered (reply z (record m { queries = q ∷ [] }))
        ≡ option_map message_lowered (reply z (record m { queries = record q { name = n } ∷ [] })) }
{}

/// The last name to which aliases lead decides on the code and the authorities: NXDomain and the SOA for no name, the
/// SOA for no data, the name servers of its cut in a referral, and else none. So an SOA is there exactly for no name and
/// no data. Only ServFail is answered before, and has none (RFC 2308, 2.1 and 2.2; RFC 6604).
pub fn the_last_name_decides()
    ensures { (z : Zone) (t : Kind) (room : ℕ) (n : NameValue)
        → (led : AreLed z t n (room + 1) [] (answer z t room [] n).answers)
        × EndsFor z t led.last (answer z t room [] n) }
{}

/// Sets strictly below a cut change nothing but the additional records of a referral, where they are glue, and so
/// nothing of an answer without authorities (RFC 1034, 4.2.1; 4.3.2, 3b).
pub fn sets_below_cuts_are_glue_alone()
    ensures found { (z : Zone) (t : Kind) (n : NameValue)
        → the_finding z t n ≡ the_finding (above_cuts z) t n }
    ensures others { (z : Zone) (t : Kind) (room : ℕ) (n : NameValue)
        → less_additionals (answer z t room [] n)
        ≡ less_additionals (answer (above_cuts z) t room [] n) }
    ensures whole { (z : Zone) (t : Kind) (room : ℕ) (n : NameValue)
        → (answer z t room [] n).authorities ≡ []
        → answer z t room [] n ≡ answer (above_cuts z) t room [] n }
    ensures replied { (z : Zone) (m : MessageValue)
        → option_map message_less_additionals (reply z m)
        ≡ option_map message_less_additionals (reply (above_cuts z) m) }
{}

/// No record stands twice in a reply, be it in two sections, where no set has two equal data, and each data is of
/// its set's type (RFC 2181, 5).
pub fn records_stand_once()
    ensures answered { (z : Zone) (t : Kind) (room : ℕ) (n : NameValue) → HasProperSets z
        → let a = answer z t room [] n in
        IsDistinct same_record (a.answers ++ (a.authorities ++ a.additionals)) }
    ensures replied { (z : Zone) (m r : MessageValue) → HasProperSets z → reply z m ≡ Some r
        → IsDistinct same_record (r.answers ++ (r.authorities ++ r.additionals)) }
{}

/// The sets of a zone are such as `records_stand_once` asks where each is tidy, as those of `Parser::parse` are, and
/// what `set_records` leaves need not be; and an update keeps them so.
pub fn sets_stay_proper()
    ensures tidy { (origin : NameValue) (class : Class) (sets : Tree Key SetValue) → IsZoneMap class sets
        → ((k : Key) (s : SetValue) → get key_cmp sets k ≡ Some s → IsTidy s)
        → HasProperSets (zone_of_map origin class sets) }
    ensures updated { (origin : NameValue) (class : Class) (s : Sections)
        (old : Tree Key SetValue) (code : Code) (new : Tree Key SetValue)
        → IsApplied origin class s old code new → HasProperSets (zone_of_map origin class old)
        → HasProperSets (zone_of_map origin class new) }
{
    built_updates_apply_as_named();
}
