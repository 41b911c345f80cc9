//! Laws of record sets.

ghost use Rattle.rr.specs.SerialOrder.{GrowsByAdding, NotBothGreater, NotGreaterThanItself, UndefinedHalfway};
ghost use Rattle.rr.specs.SetLaws.{AddKeepsTidy, EmptyIsTidy, FalseKeeps, InsertKeepsTidy, LastServerStays, OneIsTidy, RemoveKeepsTidy, SerialRises, SerialStays, SOAStays, TrueHolds};

/// Sets are tidy from the first on: no equal data comes in, and all records have the set's type (RFC 2181, 5).
pub fn sets_are_tidy()
    ensures empty { EmptyIsTidy }
    ensures one { OneIsTidy }
    ensures insert { InsertKeepsTidy }
    ensures add { AddKeepsTidy }
    ensures remove { RemoveKeepsTidy }
{}

/// What the answer of `insert` says of every set: where it is false nothing changed, and where it is true the set
/// holds an equal record of the new TTL.
pub fn inserts_answer_for_the_set()
    ensures unchanged { FalseKeeps }
    ensures held { TrueHolds }
{}

/// What a tidy set keeps: its last name server stays, and so does an SOA (RFC 2136, 3.4.2.4).
pub fn tidy_sets_keep_their_records()
    ensures last_server { LastServerStays }
    ensures soa { SOAStays }
{}

/// How serials compare (RFC 1982, 3.2): none is greater than itself, of two one at most is, and of two different ones
/// neither exactly where half of all serials lies between them. Adding less than half of them makes one greater.
pub fn serials_are_compared()
    ensures itself { NotGreaterThanItself }
    ensures one_way { NotBothGreater }
    ensures undefined { UndefinedHalfway }
    ensures grows { GrowsByAdding }
{}

/// An SOA gives way to one of a greater serial alone, which then stands alone, and else stays (RFC 2136, 3.4.2.2).
pub fn serials_rise()
    ensures rises { SerialRises }
    ensures stays { SerialStays }
{}
