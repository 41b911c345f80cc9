//! Laws of calls of two crates that don't see each other.

ghost use Rattle.parsed_zone.specs.ParsedZone.{ParsedSetsAreTidy, ParsedZonesMayBeUpdated};

/// Of sets as `Parser::parse` answers them (its clause `kept`), where each is of one class: they are such as
/// `apply_update` asks for with that class. So a parsed zone may be updated, and by `apply_update` the zone that comes
/// of it, again and again.
pub fn parsed_zones_may_be_updated()
    ensures { ParsedZonesMayBeUpdated }
{}

/// Each set is tidy of those that `Parser::parse` answers (its clause `kept`): its records have its type, no two of
/// them have equal data. So they are such as the law `sets_stay_proper` of `authority` asks, by which no record stands
/// twice in a reply, after updates too.
pub fn parsed_sets_are_tidy()
    ensures { ParsedSetsAreTidy }
{}
