//! What is found for a name and a type in a zone that has each thing that a lookup meets.

use crate::rows::{Call, first_wrong};
use crate::zone::ZONE;
use std::test::Fail;

/// Names of the zone, others, and aliases.
const NAMES: &str = "\
@ SOA => Data example. 1
@ A => NoData
@ DS => NoData
@ NS => Data example. 2
WwW A => Data www.example. 2
www AAAA => NoData
nothing A => NoName
nothing SOA => NoName
x.www A => NoName
alias A => Alias alias.example. www.example.
alias CNAME => Data alias.example. 1
alias2 A => Alias alias2.example. ALIAS.example.
out A => Alias out.example. www.elsewhere.
www ANY => All 2
alias ANY => All 1
elsewhere. A => Outside
. A => Outside
";

/// Wildcards and empty non-terminals (RFC 4592).
const WILDCARDS: &str = "\
any.wild A => Data *.wild.example. 1
a.b.wild MX => Data *.wild.example. 1
any.wild AAAA => NoData
*.wild A => Data *.wild.example. 1
x.*.wild A => NoName
host.wild MX => NoData
x.host.wild A => NoName
ent.wild A => NoData
x.ent.wild A => NoName
x.cwild A => Alias *.cwild.example. www.example.
x.cwild CNAME => Data *.cwild.example. 1
x.star TXT => NoData
b.ent A => NoData
ent ANY => All 0
x.b.ent A => NoName
";

/// Cuts: the highest counts, but for DS (RFC 4035, 3.1.4.1).
const CUTS: &str = "\
child NS => Cut child.example. 3
child TXT => Cut child.example. 3
child ANY => Cut child.example. 3
www.child A => Cut child.example. 3
no.child A => Cut child.example. 3
ns.child DS => Cut child.example. 3
x.grand.child A => Cut child.example. 3
grand.child DS => Cut child.example. 3
child DS => NoData
signed DS => Data signed.example. 1
signed A => Cut signed.example. 1
kin A => Cut kin.example. 1
";

#[test]
fn sets_are_found(rt: HostRuntime) -> Result<(), Fail> {
    for rows in [NAMES, WILDCARDS, CUTS] {
        let wrong = first_wrong(rt.alloc(), ZONE, Call::Lookup, rows)?;
        assert_eq!(rt; wrong, None);
    }
    Ok(())
}
