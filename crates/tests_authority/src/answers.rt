//! What is answered to questions (RFC 1034, 4.3.2).

use crate::rows::{Call, first_wrong};
use crate::zone::{LONG, ZONE};
use std::test::Fail;

/// Names of the zone and others.
const NAMES: &str = "\
@ SOA => No Error AA | example. 7200 SOA; | |
@ A => No Error AA | | example. 300 SOA; |
@ DS => No Error AA | | example. 300 SOA; |
@ NS => No Error AA | example. 3600 NS; example. 3600 NS; | | ns1.example. 3600 A; ns1.example. 3600 AAAA;
@ MX => No Error AA | example. 3600 MX; example. 3600 MX; | | mail.example. 3600 A;
WwW A => No Error AA | WwW.example. 3600 A; WwW.example. 3600 A; | |
www AAAA => No Error AA | | example. 300 SOA; |
nothing A => Non-Existent Domain AA | | example. 300 SOA; |
nothing SOA => Non-Existent Domain AA | | example. 300 SOA; |
x.www A => Non-Existent Domain AA | | example. 300 SOA; |
nothing.EXAMPLE. A => Non-Existent Domain AA | | EXAMPLE. 300 SOA; |
_sip._tcp SRV => No Error AA | _sip._tcp.example. 3600 SRV; | | mail.example. 3600 A;
ttls A => No Error AA | ttls.example. 100 A; ttls.example. 100 A; | |
www ANY => No Error AA | www.example. 3600 A; www.example. 3600 A; www.example. 3600 TXT; | |
";

/// Aliases (RFC 1034, 3.6.2; RFC 6604, 2.1).
const ALIASES: &str = "\
alias A => No Error AA | alias.example. 3600 CNAME; www.example. 3600 A; www.example. 3600 A; | |
alias CNAME => No Error AA | alias.example. 3600 CNAME; | |
alias AAAA => No Error AA | alias.example. 3600 CNAME; | example. 300 SOA; |
alias ANY => No Error AA | alias.example. 3600 CNAME; | |
alias2 A => No Error AA | alias2.example. 3600 CNAME; ALIAS.example. 3600 CNAME; www.example. 3600 A; www.example. 3600 A; | |
out A => No Error AA | out.example. 3600 CNAME; | |
gone A => Non-Existent Domain AA | gone.example. 3600 CNAME; | example. 300 SOA; |
loop A => Server Failure AA | loop.example. 3600 CNAME; loop2.example. 3600 CNAME; | |
self A => Server Failure AA | self.example. 3600 CNAME; | |
y.lwild A => Server Failure AA | y.lwild.example. 3600 CNAME; x.lwild.example. 3600 CNAME; | |
tochild A => No Error AA | tochild.example. 3600 CNAME; | child.example. 3600 NS; child.example. 3600 NS; child.example. 3600 NS; | ns.child.example. 3600 A; ns.child.example. 3600 AAAA; ns.other.example. 3600 A;
tonx A => Non-Existent Domain AA | tonx.example. 3600 CNAME; | example. 300 SOA; |
toent A => No Error AA | toent.example. 3600 CNAME; | example. 300 SOA; |
towild MX => No Error AA | towild.example. 3600 CNAME; any.wild.example. 3600 MX; | | mail.example. 3600 A;
";

/// Wildcards and empty non-terminals (RFC 4592).
const WILDCARDS: &str = "\
any.wild A => No Error AA | any.wild.example. 3600 A; | |
a.b.wild MX => No Error AA | a.b.wild.example. 3600 MX; | | mail.example. 3600 A;
any.wild AAAA => No Error AA | | example. 300 SOA; |
*.wild A => No Error AA | *.wild.example. 3600 A; | |
x.*.wild A => Non-Existent Domain AA | | example. 300 SOA; |
host.wild MX => No Error AA | | example. 300 SOA; |
x.host.wild A => Non-Existent Domain AA | | example. 300 SOA; |
ent.wild A => No Error AA | | example. 300 SOA; |
x.ent.wild A => Non-Existent Domain AA | | example. 300 SOA; |
x.cwild A => No Error AA | x.cwild.example. 3600 CNAME; www.example. 3600 A; www.example. 3600 A; | |
x.cwild CNAME => No Error AA | x.cwild.example. 3600 CNAME; | |
x.gwild A => Non-Existent Domain AA | x.gwild.example. 3600 CNAME; | example. 300 SOA; |
x.star TXT => No Error AA | | example. 300 SOA; |
b.ent A => No Error AA | | example. 300 SOA; |
x.b.ent A => Non-Existent Domain AA | | example. 300 SOA; |
";

/// Referrals, and hosts at cuts, wildcards and aliases.
const CUTS: &str = "\
child NS => No Error | | child.example. 3600 NS; child.example. 3600 NS; child.example. 3600 NS; | ns.child.example. 3600 A; ns.child.example. 3600 AAAA; ns.other.example. 3600 A;
child TXT => No Error | | child.example. 3600 NS; child.example. 3600 NS; child.example. 3600 NS; | ns.child.example. 3600 A; ns.child.example. 3600 AAAA; ns.other.example. 3600 A;
child ANY => No Error | | child.example. 3600 NS; child.example. 3600 NS; child.example. 3600 NS; | ns.child.example. 3600 A; ns.child.example. 3600 AAAA; ns.other.example. 3600 A;
www.child A => No Error | | child.example. 3600 NS; child.example. 3600 NS; child.example. 3600 NS; | ns.child.example. 3600 A; ns.child.example. 3600 AAAA; ns.other.example. 3600 A;
ns.child A => No Error | | child.example. 3600 NS; child.example. 3600 NS; child.example. 3600 NS; | ns.child.example. 3600 A; ns.child.example. 3600 AAAA; ns.other.example. 3600 A;
ns.child DS => No Error | | child.example. 3600 NS; child.example. 3600 NS; child.example. 3600 NS; | ns.child.example. 3600 A; ns.child.example. 3600 AAAA; ns.other.example. 3600 A;
x.grand.child A => No Error | | child.example. 3600 NS; child.example. 3600 NS; child.example. 3600 NS; | ns.child.example. 3600 A; ns.child.example. 3600 AAAA; ns.other.example. 3600 A;
child DS => No Error AA | | example. 300 SOA; |
signed DS => No Error AA | signed.example. 3600 DS; | |
signed A => No Error | | signed.example. 3600 NS; |
x.KIN A => No Error | | KIN.example. 3600 NS; | ns1.example. 3600 A; ns1.example. 3600 AAAA;
mxbelow MX => No Error AA | mxbelow.example. 3600 MX; | |
mxwild MX => No Error AA | mxwild.example. 3600 MX; | | any.wild.example. 3600 A;
mxalias MX => No Error AA | mxalias.example. 3600 MX; | |
";

/// Names that take memory of their own: of the zone and others, aliases, wildcards and referrals.
const LONG_NAMES: &str = "\
@ SOA => No Error AA | a-name-with-memory-of-its-own.example. 7200 SOA; | |
@ NS => No Error AA | a-name-with-memory-of-its-own.example. 3600 NS; a-name-with-memory-of-its-own.example. 3600 NS; | | ns1.a-name-with-memory-of-its-own.example. 3600 A; ns1.a-name-with-memory-of-its-own.example. 3600 AAAA;
@ MX => No Error AA | a-name-with-memory-of-its-own.example. 3600 MX; | | mail.a-name-with-memory-of-its-own.example. 3600 A; mail.a-name-with-memory-of-its-own.example. 3600 AAAA;
WwW A => No Error AA | WwW.a-name-with-memory-of-its-own.example. 3600 A; WwW.a-name-with-memory-of-its-own.example. 3600 A; | |
www ANY => No Error AA | www.a-name-with-memory-of-its-own.example. 3600 A; www.a-name-with-memory-of-its-own.example. 3600 A; www.a-name-with-memory-of-its-own.example. 3600 TXT; | |
www AAAA => No Error AA | | a-name-with-memory-of-its-own.example. 300 SOA; |
wild ANY => No Error AA | | a-name-with-memory-of-its-own.example. 300 SOA; |
x.nothing A => Non-Existent Domain AA | | a-name-with-memory-of-its-own.example. 300 SOA; |
alias A => No Error AA | alias.a-name-with-memory-of-its-own.example. 3600 CNAME; between.a-name-with-memory-of-its-own.example. 3600 CNAME; \
    www.a-name-with-memory-of-its-own.example. 3600 A; www.a-name-with-memory-of-its-own.example. 3600 A; | |
alias ANY => No Error AA | alias.a-name-with-memory-of-its-own.example. 3600 CNAME; | |
gone A => Non-Existent Domain AA | gone.a-name-with-memory-of-its-own.example. 3600 CNAME; | a-name-with-memory-of-its-own.example. 300 SOA; |
loop A => Server Failure AA | loop.a-name-with-memory-of-its-own.example. 3600 CNAME; | |
x.any.wild A => No Error AA | x.any.wild.a-name-with-memory-of-its-own.example. 3600 A; | |
x.wild SRV => No Error AA | x.wild.a-name-with-memory-of-its-own.example. 3600 SRV; | | mail.a-name-with-memory-of-its-own.example. 3600 A; mail.a-name-with-memory-of-its-own.example. 3600 AAAA;
x.wild ANY => No Error AA | x.wild.a-name-with-memory-of-its-own.example. 3600 A; x.wild.a-name-with-memory-of-its-own.example. 3600 SRV; | |
x.wild AAAA => No Error AA | | a-name-with-memory-of-its-own.example. 300 SOA; |
x.cwild A => No Error AA | x.cwild.a-name-with-memory-of-its-own.example. 3600 CNAME; www.a-name-with-memory-of-its-own.example. 3600 A; www.a-name-with-memory-of-its-own.example. 3600 A; | |
child A => No Error | | child.a-name-with-memory-of-its-own.example. 3600 NS; | ns.child.a-name-with-memory-of-its-own.example. 3600 A; ns.child.a-name-with-memory-of-its-own.example. 3600 AAAA;
x.www.child A => No Error | | child.a-name-with-memory-of-its-own.example. 3600 NS; | ns.child.a-name-with-memory-of-its-own.example. 3600 A; ns.child.a-name-with-memory-of-its-own.example. 3600 AAAA;
child DS => No Error AA | | a-name-with-memory-of-its-own.example. 300 SOA; |
tochild A => No Error AA | tochild.a-name-with-memory-of-its-own.example. 3600 CNAME; \
    | child.a-name-with-memory-of-its-own.example. 3600 NS; | ns.child.a-name-with-memory-of-its-own.example. 3600 A; ns.child.a-name-with-memory-of-its-own.example. 3600 AAAA;
";

/// All of them, and the zones that are asked.
const TABLES: &[(&str, &str)] = &[
    (ZONE, NAMES),
    (ZONE, ALIASES),
    (ZONE, WILDCARDS),
    (ZONE, CUTS),
    (LONG, LONG_NAMES),
];

#[test]
fn questions_are_answered(rt: HostRuntime) -> Result<(), Fail> {
    for &(zone, rows) in TABLES {
        let wrong = first_wrong(rt.alloc(), zone, Call::Answer, rows)?;
        assert_eq!(rt; wrong, None);
    }
    Ok(())
}
