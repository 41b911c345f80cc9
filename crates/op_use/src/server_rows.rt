//! Rows of what a server makes of updates (RFC 2136, 3).

ghost use Rattle.op_use.specs.ServerRows.{AddRows, BuilderRows, DeleteRecordRows, DeleteSetRows, OrderRows, PrerequisiteRows, PrescanRows, ZoneSectionRows};

/// What a server answers to updates, row by row: the code of each test that can fail (RFC 2136, 3.1, 3.2.5 and
/// 3.4.1.3), which of two says it, and the zone after updates of each kind (3.4.2).
pub fn server_answers_by_rfc_2136()
    ensures zone_section { ZoneSectionRows }
    ensures prerequisites { PrerequisiteRows }
    ensures prescan { PrescanRows }
    ensures order { OrderRows }
    ensures added { AddRows }
    ensures deleted_sets { DeleteSetRows }
    ensures deleted_records { DeleteRecordRows }
    ensures built { BuilderRows }
{}
