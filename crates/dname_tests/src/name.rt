use dname::{Name, NameFault};
use std::alloc::{AllocError, Global};
use std::cmp::Ordering;
use std::test::Fail;

// The example of RFC 4034, section 6.1, in its order, with the case that the RFC gives the letters; and the first octet of
// each name's digest below the first name, of which all others are zero.
const IN_ORDER: [(&[u8], u8); 9] = [
    // The apex, which has no label below itself.
    (b"\x07example\x00", 0),
    (b"\x01a\x07example\x00", b'a'),
    // Below `a`, so before `z`.
    (b"\x08yljkjljk\x01a\x07example\x00", b'a'),
    // A capital is the small letter.
    (b"\x01Z\x01a\x07example\x00", b'a'),
    (b"\x04zABC\x01a\x07EXAMPLE\x00", b'a'),
    (b"\x01z\x07example\x00", b'z'),
    // An octet before the digits, the asterisk, and an octet after the letters.
    (b"\x01\x01\x01z\x07example\x00", b'z'),
    (b"\x01*\x01z\x07example\x00", b'z'),
    (b"\x01\xc8\x01z\x07example\x00", b'z'),
];

fn name(wire: &[u8]) -> Result<Name, NameFault> {
    let (name, _) = Name::read(wire)?;
    Ok(name)
}

// Whether the name is under the apex, and the octets of its digest below it.
fn below(apex: &[u8], wire: &[u8]) -> Result<(bool, [u8; 8]), NameFault> {
    let (apex, name) = (name(apex)?, name(wire)?);
    if name.is_under(&apex) {
        Ok((true, name.digest_below(&apex).to_be_bytes()))
    } else {
        Ok((false, [0; 8]))
    }
}

// How the first name compares with the second, and whether they are equal.
fn compared(first: &[u8], second: &[u8]) -> Result<(Ordering, bool), NameFault> {
    let (name, other) = (name(first)?, name(second)?);
    Ok((name.cmp(&other), name == other))
}

// The first name that isn't below the first of all by its digest, and what was found in its place.
fn below_otherwise(rows: &[(&[u8], u8)]) -> Result<Option<(usize, bool, [u8; 8])>, NameFault> {
    for (i, (wire, digest)) in rows.iter().enumerate() {
        let (is_below, octets) = below(IN_ORDER[0].0, wire)?;
        if !is_below || octets != [*digest, 0, 0, 0, 0, 0, 0, 0] {
            return Ok(Some((i, is_below, octets)));
        }
    }
    Ok(None)
}

// The first two names that compare otherwise than their places in the table, and how.
fn ordered_otherwise(
    rows: &[(&[u8], u8)],
) -> Result<Option<(usize, usize, Ordering, bool)>, NameFault> {
    for (i, (wire, _)) in rows.iter().enumerate() {
        for (j, (another, _)) in rows.iter().enumerate() {
            let (order, is_same) = compared(wire, another)?;
            if order != i.cmp(&j) || is_same != (i == j) {
                return Ok(Some((i, j, order, is_same)));
            }
        }
    }
    Ok(None)
}

#[test]
fn canonical_order_is_that_of_the_rfc(rt: HostRuntime) -> Result<(), Fail> {
    let wrong = below_otherwise(&IN_ORDER)?;
    assert!(rt; wrong.is_none(), "{wrong:?}");
    let wrong = ordered_otherwise(&IN_ORDER)?;
    assert!(rt; wrong.is_none(), "{wrong:?}");
    Ok(())
}

// Octets that begin with no name, and the fault.
const FAULTS: [(&[u8], NameFault); 9] = [
    // Cut short at each place.
    (b"", NameFault::Short),
    (b"\x01", NameFault::Short),
    (b"\x01a", NameFault::Short),
    (b"\x01a\x02b", NameFault::Short),
    (b"\x01a\x02bc", NameFault::Short),
    // A pointer, first and after a label.
    (b"\xc0\x00", NameFault::Pointer),
    (b"\x01a\xc0\x0c\x00", NameFault::Pointer),
    // The least and the greatest length octet that no label has.
    (b"\x40", NameFault::LabelTooLong),
    (b"\x01a\xbf\x00", NameFault::LabelTooLong),
];

// The first row whose octets don't have its fault, and what they have.
fn read_otherwise(rows: &[(&[u8], NameFault)]) -> Option<(usize, Option<NameFault>)> {
    for (i, (octets, fault)) in rows.iter().enumerate() {
        let found = Name::read(octets).err();
        if found != Some(*fault) {
            return Some((i, found));
        }
    }
    None
}

#[test]
fn each_fault_is_told_where_it_stands(rt: HostRuntime) {
    let wrong = read_otherwise(&FAULTS);
    assert!(rt; wrong.is_none(), "{wrong:?}");
}

// The sizes of four labels, the octets of the name with them, none where they are too many, and whether it has a wildcard.
const SIZES: [([usize; 4], Option<usize>, bool); 5] = [
    ([63, 63, 63, 59], Some(253), true),
    ([63, 63, 63, 60], Some(254), false),
    ([63, 63, 63, 61], Some(255), false),
    ([63, 63, 63, 62], None, false),
    ([63, 63, 63, 63], None, false),
];

// Labels of capitals of so many octets, and the root.
fn wire_form(alloc: Global, sizes: &[usize; 4]) -> Result<Vec<u8>, AllocError> {
    let mut wire = Vec::new(alloc);
    for size in sizes {
        wire.push((*size % 64) as u8)?;
        for _ in 0..*size {
            wire.push(b'A')?;
        }
    }
    wire.push(0)?;
    Ok(wire)
}

// The octets that are taken, and whether the name has a wildcard and a child of one letter, where it has four labels
// and its capitals are lowered.
fn taken(wire: &[u8]) -> Result<Option<(usize, bool, bool)>, NameFault> {
    let (name, taken) = Name::read(wire)?;
    if name.labels() == 4 && name.wire().get(1) == Some(&b'a') {
        Ok(Some((taken, name.star().is_some(), name.child(b"x").is_some())))
    } else {
        Ok(None)
    }
}

#[test]
fn a_name_has_at_most_255_octets(rt: HostRuntime) -> Result<(), Fail> {
    for (sizes, octets, has_wildcard) in SIZES {
        let found = taken(&wire_form(rt.alloc(), &sizes)?);
        let wanted = match octets {
            Some(size) => Ok(Some((size, has_wildcard, has_wildcard))),
            None => Err(NameFault::NameTooLong),
        };
        assert!(rt; found == wanted, "{sizes:?}: {found:?}");
    }
    Ok(())
}

#[test]
fn that_a_name_is_too_long_comes_before_that_it_is_short(rt: HostRuntime) -> Result<(), Fail> {
    let mut wire = wire_form(rt.alloc(), &[63, 63, 63, 62])?;
    wire.truncate(200);
    let found = Name::read(&wire).err();
    assert!(rt; found == Some(NameFault::NameTooLong), "{found:?}");
    Ok(())
}

const HOST: &[u8] = b"\x01x\x07Example\x03ORG\x00";

const STAR: &[u8] = b"\x01*\x07example\x03org\x00";

const APEX: &[u8] = b"\x07example\x03org\x00";

const OTHER: &[u8] = b"\x08xexample\x03org\x00";

const ORG: &[u8] = b"\x03org\x00";

const ROOT: &[u8] = b"\x00";

// Two names, whether the first is under the second, and their longest common ancestor.
const ABOVE: [(&[u8], &[u8], bool, &[u8]); 10] = [
    (HOST, APEX, true, APEX),
    (APEX, HOST, false, APEX),
    // Each name is under itself and under the root.
    (APEX, APEX, true, APEX),
    (APEX, ROOT, true, ROOT),
    (ROOT, APEX, false, ROOT),
    (ROOT, ROOT, true, ROOT),
    // Labels are compared, not octets.
    (OTHER, APEX, false, ORG),
    (HOST, OTHER, false, ORG),
    // Names of one parent; a wildcard is a name as each other.
    (STAR, HOST, false, APEX),
    (STAR, APEX, true, APEX),
];

// Whether the first name is under the second, whether that is their longest common ancestor, and whether they are equal.
fn standing(first: &[u8], second: &[u8], common: &[u8]) -> Result<(bool, bool, bool), NameFault> {
    let (name, other) = (name(first)?, name(second)?);
    let has_common = name.common(&other).wire() == common;
    Ok((name.is_under(&other), has_common, name.copy() == other))
}

// The first row of which two names stand otherwise, and how.
fn standing_otherwise(
    rows: &[(&[u8], &[u8], bool, &[u8])],
) -> Result<Option<(usize, (bool, bool, bool))>, NameFault> {
    for (i, (first, second, under, common)) in rows.iter().enumerate() {
        let found = standing(first, second, common)?;
        if found != (*under, true, first == second) {
            return Ok(Some((i, found)));
        }
    }
    Ok(None)
}

#[test]
fn names_stand_above_one_another(rt: HostRuntime) -> Result<(), Fail> {
    let wrong = standing_otherwise(&ABOVE)?;
    assert!(rt; wrong.is_none(), "{wrong:?}");
    Ok(())
}

// A name, how many labels it has and has as an owner, and its parent.
const PARTS: [(&[u8], usize, usize, Option<&[u8]>); 4] = [
    (HOST, 3, 3, Some(APEX)),
    // A leading asterisk label isn't counted in an owner.
    (STAR, 3, 2, Some(APEX)),
    (ORG, 1, 1, Some(ROOT)),
    (ROOT, 0, 0, None),
];

// How many labels the name has, and has as an owner, and whether that is its parent, and the name of its last labels but one.
fn parts(wire: &[u8], parent: Option<&[u8]>) -> Result<(usize, usize, bool), NameFault> {
    let name = name(wire)?;
    let labels = name.labels();
    let has_parent = match (name.parent(), parent) {
        (Some(found), Some(parent)) => {
            found.wire() == parent && labels > 0 && name.last(labels - 1).wire() == parent
        }
        (None, None) => true,
        _ => false,
    };
    Ok((labels, name.owner_labels(), has_parent))
}

// The first row whose name has other parts, and which.
fn parted_otherwise(
    rows: &[(&[u8], usize, usize, Option<&[u8]>)],
) -> Result<Option<(usize, (usize, usize, bool))>, NameFault> {
    for (i, (wire, labels, owner_labels, parent)) in rows.iter().enumerate() {
        let found = parts(wire, *parent)?;
        if found != (*labels, *owner_labels, true) {
            return Ok(Some((i, found)));
        }
    }
    Ok(None)
}

#[test]
fn names_have_labels_and_parents(rt: HostRuntime) -> Result<(), Fail> {
    let wrong = parted_otherwise(&PARTS)?;
    assert!(rt; wrong.is_none(), "{wrong:?}");
    Ok(())
}

#[test]
fn names_have_wildcards_and_children(rt: HostRuntime) -> Result<(), Fail> {
    let apex = name(APEX)?;
    assert!(rt; apex.star().is_some_and(|star| star.wire() == STAR));
    assert!(rt; apex.child(b"X").is_some_and(|child| child.is_under(&apex)));
    Ok(())
}
