use crate::{Ancestors, common_encloser, next_closer, wildcard_of};
use dname::{Name, NameFault};
use std::test::Fail;

// A name that a zone lacks, and the owner and the next owner of the NSEC that covers it.
#[derive(Drop)]
struct Case {
    name: &'static [u8],
    owner: &'static [u8],
    next: &'static [u8],
    encloser: &'static [u8],
    next_closer: &'static [u8],
    wildcard: &'static [u8],
}

const APEX: &[u8] = b"\x07example\x00";

// The first six are the names of RFC 4592, section 3.3.1, in the zone of section 2.2.1; the last three those of
// RFC 4035, appendix B.2, and of RFC 5155, appendices B.1 and B.4, in the zone of RFC 4035, appendix A.
const CASES: [Case; 10] = [
    Case {
        name: b"\x05host3\x07example\x00",
        owner: b"\x04_ssh\x04_tcp\x05host2\x07example\x00",
        next: b"\x06subdel\x07example\x00",
        encloser: b"\x07example\x00",
        next_closer: b"\x05host3\x07example\x00",
        wildcard: b"\x01*\x07example\x00",
    },
    Case {
        name: b"\x07_telnet\x04_tcp\x05host1\x07example\x00",
        owner: b"\x04_ssh\x04_tcp\x05host1\x07example\x00",
        next: b"\x04_ssh\x04_tcp\x05host2\x07example\x00",
        encloser: b"\x04_tcp\x05host1\x07example\x00",
        next_closer: b"\x07_telnet\x04_tcp\x05host1\x07example\x00",
        wildcard: b"\x01*\x04_tcp\x05host1\x07example\x00",
    },
    Case {
        name: b"\x04_dns\x04_udp\x05host2\x07example\x00",
        owner: b"\x04_ssh\x04_tcp\x05host2\x07example\x00",
        next: b"\x06subdel\x07example\x00",
        encloser: b"\x05host2\x07example\x00",
        next_closer: b"\x04_udp\x05host2\x07example\x00",
        wildcard: b"\x01*\x05host2\x07example\x00",
    },
    Case {
        name: b"\x07_telnet\x04_tcp\x05host3\x07example\x00",
        owner: b"\x04_ssh\x04_tcp\x05host2\x07example\x00",
        next: b"\x06subdel\x07example\x00",
        encloser: b"\x07example\x00",
        next_closer: b"\x05host3\x07example\x00",
        wildcard: b"\x01*\x07example\x00",
    },
    Case {
        name: b"\x05_chat\x04_udp\x05host3\x07example\x00",
        owner: b"\x04_ssh\x04_tcp\x05host2\x07example\x00",
        next: b"\x06subdel\x07example\x00",
        encloser: b"\x07example\x00",
        next_closer: b"\x05host3\x07example\x00",
        wildcard: b"\x01*\x07example\x00",
    },
    // An asterisk label in the encloser is a label like any other.
    Case {
        name: b"\x06foobar\x01*\x07example\x00",
        owner: b"\x01*\x07example\x00",
        next: b"\x03sub\x01*\x07example\x00",
        encloser: b"\x01*\x07example\x00",
        next_closer: b"\x06foobar\x01*\x07example\x00",
        wildcard: b"\x01*\x01*\x07example\x00",
    },
    // In the same zone the next owner alone shows that this encloser, an empty non-terminal, exists.
    Case {
        name: b"\x04_dns\x04_tcp\x05host2\x07example\x00",
        owner: b"\x04_ssh\x04_tcp\x05host1\x07example\x00",
        next: b"\x04_ssh\x04_tcp\x05host2\x07example\x00",
        encloser: b"\x04_tcp\x05host2\x07example\x00",
        next_closer: b"\x04_dns\x04_tcp\x05host2\x07example\x00",
        wildcard: b"\x01*\x04_tcp\x05host2\x07example\x00",
    },
    Case {
        name: b"\x02ml\x07example\x00",
        owner: b"\x01b\x07example\x00",
        next: b"\x03ns1\x07example\x00",
        encloser: b"\x07example\x00",
        next_closer: b"\x02ml\x07example\x00",
        wildcard: b"\x01*\x07example\x00",
    },
    Case {
        name: b"\x01a\x01c\x01x\x01w\x07example\x00",
        owner: b"\x01x\x01w\x07example\x00",
        next: b"\x01x\x01y\x01w\x07example\x00",
        encloser: b"\x01x\x01w\x07example\x00",
        next_closer: b"\x01c\x01x\x01w\x07example\x00",
        wildcard: b"\x01*\x01x\x01w\x07example\x00",
    },
    Case {
        name: b"\x01a\x01z\x01w\x07example\x00",
        owner: b"\x01x\x01y\x01w\x07example\x00",
        next: b"\x02xx\x07example\x00",
        encloser: b"\x01w\x07example\x00",
        next_closer: b"\x01z\x01w\x07example\x00",
        wildcard: b"\x01*\x01w\x07example\x00",
    },
];

fn name(wire: &[u8]) -> Result<Name, NameFault> {
    let (name, _) = Name::read(wire)?;
    Ok(name)
}

#[test]
fn enclosers_are_those_of_the_rfcs(rt: HostRuntime) -> Result<(), Fail> {
    for case in CASES.iter() {
        let (missing, owner, next) = (name(case.name)?, name(case.owner)?, name(case.next)?);
        let encloser = common_encloser(&missing, &owner.lent(), &next.lent());
        assert_eq!(rt; encloser, name(case.encloser)?);
        assert_eq!(rt; wildcard_of(&encloser), Some(name(case.wildcard)?));
        assert!(rt; missing.is_under(&encloser) && missing != encloser);
        assert_eq!(rt; next_closer(&missing, &encloser), name(case.next_closer)?);
    }
    Ok(())
}

// As a search by hashes goes: the encloser is met, and the name before it is the next closer name.
#[test]
fn the_next_closer_name_is_the_one_before(rt: HostRuntime) -> Result<(), Fail> {
    let apex = name(APEX)?;
    for case in CASES.iter() {
        let (missing, encloser) = (name(case.name)?, name(case.encloser)?);
        assert!(rt; missing.is_under(&apex));
        let mut before = missing.copy();
        let mut met = false;
        for above in Ancestors::of(&missing, &apex) {
            if above == encloser {
                assert_eq!(rt; before, name(case.next_closer)?);
                met = true;
            }
            before = above;
        }
        assert!(rt; met);
        assert_eq!(rt; before, apex);
    }
    Ok(())
}
