//! The zones that are asked.

ghost use Rattle.authority.specs.ZoneRef.{AreUnderKeys};
ghost use Rattle.std.specs.Prelude.{IfOk};

use base::{Name, RrKey};
use rr::RecordSet;
use std::alloc::Global;
use std::collections::BTreeMap;
use std::test::Fail;
use txt::Parser;

/// Each thing that an answer meets: wildcards, empty non-terminals, aliases, loops of them, cuts above cuts, a cut with
/// DS, glue.
pub(crate) const ZONE: &str = "$ORIGIN example.
$TTL 3600
@ 7200 SOA ns1 admin 7 7200 3600 1209600 300
@ NS ns1
@ NS ns.elsewhere.
@ MX 10 mail
@ MX 20 mail.elsewhere.
ns1 A 192.0.2.1
ns1 AAAA 2001:db8::1
mail A 192.0.2.2
www A 192.0.2.3
www A 192.0.2.4
www TXT \"www\"
alias CNAME www
alias2 CNAME ALIAS
out CNAME www.elsewhere.
gone CNAME nothing
loop CNAME loop2
loop2 CNAME loop
self CNAME self
*.wild A 192.0.2.10
*.wild MX 10 mail
host.wild A 192.0.2.11
deep.ent.wild TXT \"deep\"
*.cwild CNAME www
*.gwild CNAME nothing
*.lwild CNAME x.lwild
sub.*.star TXT \"below\"
a.b.ent A 192.0.2.12
child NS ns.child
child NS ns.other
child NS ns.elsewhere.
child TXT \"beside a cut\"
ns.child A 192.0.2.20
ns.child AAAA 2001:db8::20
www.child A 192.0.2.21
*.child A 192.0.2.22
grand.child NS ns.grand.child
ns.grand.child A 192.0.2.23
other NS ns.other
ns.other A 192.0.2.24
kin NS ns1
signed NS ns.elsewhere.
signed TYPE43 \\# 4 12340801
tochild CNAME www.child
tonx CNAME x.host.wild
toent CNAME b.ent
towild CNAME any.wild
mxbelow MX 10 ns.child
mxwild MX 10 any.wild
mxalias MX 10 alias
_sip._tcp SRV 0 0 5060 mail
ttls 200 A 192.0.2.31
ttls 100 A 192.0.2.32
c1 CNAME c2
c2 CNAME c3
c3 CNAME c4
c4 CNAME c5
c5 CNAME c6
c6 CNAME c7
c7 CNAME c8
c8 CNAME c9
c9 CNAME c10
c10 CNAME c11
c11 CNAME c12
c12 CNAME www
";

/// Sets that 512 bytes don't hold.
pub(crate) const WIDE: &str = "$ORIGIN example.
$TTL 3600
@ SOA ns1 admin 7 7200 3600 1209600 300
large TXT ( \"aaaaaaaaaaaaaaaaaaaaaaaaaaaaaaaaaaaaaaaaaaaaaaaaaaaaaaaaaaaaaaaaaaaaaaaaaaaaaaaaaaaaa\"
 \"aaaaaaaaaaaaaaaaaaaaaaaaaaaaaaaaaaaaaaaaaaaaaaaaaaaaaaaaaaaaaaaaaaaaaaaaaaaaaaaaaaaaa\"
 \"aaaaaaaaaaaaaaaaaaaaaaaaaaaaaaaaaaaaaaaaaaaaaaaaaaaaaaaaaaaaaaaaaaaaaaaaaaaaaaaaaaaaa\" )
large TXT ( \"bbbbbbbbbbbbbbbbbbbbbbbbbbbbbbbbbbbbbbbbbbbbbbbbbbbbbbbbbbbbbbbbbbbbbbbbbbbbbbbbbbbbb\"
 \"bbbbbbbbbbbbbbbbbbbbbbbbbbbbbbbbbbbbbbbbbbbbbbbbbbbbbbbbbbbbbbbbbbbbbbbbbbbbbbbbbbbbb\"
 \"bbbbbbbbbbbbbbbbbbbbbbbbbbbbbbbbbbbbbbbbbbbbbbbbbbbbbbbbbbbbbbbbbbbbbbbbbbbbbbbbbbbbb\" )
large TXT ( \"ccccccccccccccccccccccccccccccccccccccccccccccccccccccccccccccccccccccccccccccccccccc\"
 \"ccccccccccccccccccccccccccccccccccccccccccccccccccccccccccccccccccccccccccccccccccccc\"
 \"ccccccccccccccccccccccccccccccccccccccccccccccccccccccccccccccccccccccccccccccccccccc\" )
mail MX 10 hhhhhhhhhhhhhhhhhhhhhhhhhhhhhhhhhhhhhhhhhhhhhhhhhhhhhhhhhhhhh-1
hhhhhhhhhhhhhhhhhhhhhhhhhhhhhhhhhhhhhhhhhhhhhhhhhhhhhhhhhhhhh-1 A 192.0.2.1
hhhhhhhhhhhhhhhhhhhhhhhhhhhhhhhhhhhhhhhhhhhhhhhhhhhhhhhhhhhhh-1 AAAA 2001:db8::1
mail MX 20 hhhhhhhhhhhhhhhhhhhhhhhhhhhhhhhhhhhhhhhhhhhhhhhhhhhhhhhhhhhhh-2
hhhhhhhhhhhhhhhhhhhhhhhhhhhhhhhhhhhhhhhhhhhhhhhhhhhhhhhhhhhhh-2 A 192.0.2.2
hhhhhhhhhhhhhhhhhhhhhhhhhhhhhhhhhhhhhhhhhhhhhhhhhhhhhhhhhhhhh-2 AAAA 2001:db8::2
mail MX 30 hhhhhhhhhhhhhhhhhhhhhhhhhhhhhhhhhhhhhhhhhhhhhhhhhhhhhhhhhhhhh-3
hhhhhhhhhhhhhhhhhhhhhhhhhhhhhhhhhhhhhhhhhhhhhhhhhhhhhhhhhhhhh-3 A 192.0.2.3
hhhhhhhhhhhhhhhhhhhhhhhhhhhhhhhhhhhhhhhhhhhhhhhhhhhhhhhhhhhhh-3 AAAA 2001:db8::3
mail MX 40 hhhhhhhhhhhhhhhhhhhhhhhhhhhhhhhhhhhhhhhhhhhhhhhhhhhhhhhhhhhhh-4
hhhhhhhhhhhhhhhhhhhhhhhhhhhhhhhhhhhhhhhhhhhhhhhhhhhhhhhhhhhhh-4 A 192.0.2.4
hhhhhhhhhhhhhhhhhhhhhhhhhhhhhhhhhhhhhhhhhhhhhhhhhhhhhhhhhhhhh-4 AAAA 2001:db8::4
mail MX 50 hhhhhhhhhhhhhhhhhhhhhhhhhhhhhhhhhhhhhhhhhhhhhhhhhhhhhhhhhhhhh-5
hhhhhhhhhhhhhhhhhhhhhhhhhhhhhhhhhhhhhhhhhhhhhhhhhhhhhhhhhhhhh-5 A 192.0.2.5
hhhhhhhhhhhhhhhhhhhhhhhhhhhhhhhhhhhhhhhhhhhhhhhhhhhhhhhhhhhhh-5 AAAA 2001:db8::5
";

/// An origin of 38 bytes: it and the names below it take memory of their own.
pub(crate) const LONG_ORIGIN: &str = "a-name-with-memory-of-its-own.example.";

/// What an answer meets, with such names alone.
pub(crate) const LONG: &str = "$ORIGIN a-name-with-memory-of-its-own.example.
$TTL 3600
@ 7200 SOA ns1 admin 7 7200 3600 1209600 300
@ NS ns1
@ NS ns.child
@ MX 10 mail
ns1 A 192.0.2.1
ns1 AAAA 2001:db8::1
mail A 192.0.2.2
mail AAAA 2001:db8::2
www A 192.0.2.3
www A 192.0.2.4
www TXT \"www\"
alias CNAME between
between CNAME www
gone CNAME x.nothing
loop CNAME loop
*.wild A 192.0.2.10
*.wild SRV 0 0 5060 mail
*.cwild CNAME www
child NS ns.child
ns.child A 192.0.2.20
ns.child AAAA 2001:db8::20
tochild CNAME www.child
";

/// The origin and the sets of a zone's text.
pub(crate) fn parsed(alloc: Global, text: &str) -> Result<(Name, BTreeMap<RrKey, RecordSet>), Fail>
    ensures { IfOk result (λ r. AreUnderKeys r.1) }
{
    let includes = BTreeMap::new(alloc);
    let zone = Parser::new(alloc, text, &includes, None).parse_generic()?;
    Ok(zone)
}
