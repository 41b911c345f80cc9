//! What the updates of the builders make of a map of record sets.

ghost use Rattle.op_use.specs.AppliedMeaning.{AppendApplies, CreateApplies, DeleteDataApplies, DeleteNameApplies, DeleteSetApplies, SwapApplies};
ghost use Rattle.op_use.specs.AppliedMeaning.{MapsAreZones, RecordsHoldTheData};

/// Of each builder, and of every map whose zone meets the builder's premises: what `apply_update` makes of the message
/// that `Message::from_vec` reads from uncut bytes of the builder's message is the named change with NoError, or the
/// map's zone with the code of the prerequisite that fails. A map to which updates may be applied is a zone of those
/// premises.
pub fn built_updates_apply_as_named()
    ensures zones { MapsAreZones }
    ensures create { CreateApplies }
    ensures append { AppendApplies }
    ensures compare_and_swap { SwapApplies }
    ensures delete_by_rdata { DeleteDataApplies }
    ensures delete_rrset { DeleteSetApplies }
    ensures delete_all { DeleteNameApplies }
{}

/// What `records_applied` says of spelling agrees with what a server makes of the zone: where the records under a key
/// have its data before an update, those that the update leaves have the data there then.
pub fn records_follow_the_zone()
    ensures { RecordsHoldTheData }
{}
