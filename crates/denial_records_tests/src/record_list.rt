use crate::made::{nsec, nsec3, set};
use denial_records::{Batch, KeptNsec, KeptNsec3, KeptSet, Record, RecordList};
use std::alloc::Global;
use std::test::Fail;

fn records(alloc: Global) -> Result<[Record; 3], Fail> {
    Ok([
        Record::Set(KeptSet::of(alloc, &set(alloc)?)?),
        Record::Nsec(KeptNsec::of(alloc, &nsec(alloc)?)?),
        Record::Nsec3(KeptNsec3::of(alloc, &nsec3(alloc)?)?),
    ])
}

// A batch of copies of a set, an NSEC and an NSEC3.
fn batch(alloc: Global) -> Result<Batch, Fail> {
    let mut batch = Batch {
        now: 1045762000,
        records: RecordList::empty(alloc),
    };
    for record in records(alloc)? {
        batch.records.push(record.copy(alloc)?)?;
    }
    Ok(batch)
}

fn life_and_signatures(record: &Record) -> (u32, usize) {
    match record {
        Record::Set(set) => (set.life(), set.signatures().count()),
        Record::Nsec(nsec) => (nsec.life(), nsec.signatures().count()),
        Record::Nsec3(nsec3) => (nsec3.life(), nsec3.signatures().count()),
    }
}

// The first record that tells another life, or count of signatures.
fn told_otherwise(records: &RecordList) -> Option<(usize, (u32, usize))> {
    for i in 0..records.len() {
        let found = life_and_signatures(records.get(i));
        if found != (3600, 2) {
            return Some((i, found));
        }
    }
    None
}

#[test]
fn records_are_copied_and_listed(rt: HostRuntime) -> Result<(), Fail> {
    let alloc = rt.alloc();
    assert!(rt; RecordList::empty(alloc).is_empty());
    let batch = batch(alloc)?;
    assert!(rt; batch.records.len() == 3);
    let wrong = told_otherwise(&batch.records);
    assert!(rt; wrong.is_none(), "{wrong:?}");
    let shared = batch.records.share(0)?;
    let found = life_and_signatures(&shared);
    assert!(rt; found == (3600, 2), "{found:?}");
    Ok(())
}
