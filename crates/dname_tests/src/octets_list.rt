use dname::{Octets, OctetsList};
use std::test::Fail;

// Whether the list has those two items, as octets.
fn has(list: &OctetsList, first: &[u8], second: &[u8]) -> bool {
    list.len() == 2 && list.get(0).as_slice() == first && list.get(1).as_slice() == second
}

#[test]
fn keeps_its_items_in_order(rt: HostRuntime) -> Result<(), Fail> {
    let alloc = rt.alloc();
    let mut list = OctetsList::empty(alloc);
    assert!(rt; list.is_empty());
    list.push(Octets::of(alloc, b"one")?)?;
    list.push(Octets::of(alloc, b"")?)?;
    let copy = list.copy(alloc)?;
    assert!(rt; has(&list, b"one", b""), "{list:?}");
    assert!(rt; has(&copy, b"one", b""), "{copy:?}");
    Ok(())
}
