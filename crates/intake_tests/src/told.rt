//! What `batch_of` gives, as text.
use denial_records::Record;
use dname::Name;
use intake::{Taken, batch_of};
use std::alloc::{AllocError, Global};

// The name as text.
fn text_of(name: &Name, out: &mut String) -> Result<(), AllocError> {
    let mut rest = name.wire();
    for _ in 0..name.labels() {
        let Some((size, behind)) = rest.split_first() else {
            break;
        };
        let size = usize::from(*size);
        if size > behind.len() {
            break;
        }
        let (label, others) = behind.split_at(size);
        for octet in label {
            out.push(char::from(*octet))?;
        }
        out.push_str(".")?;
        rest = others;
    }
    Ok(())
}

// Owner, type, life, number of data and number of signatures.
fn tell(
    out: &mut String,
    owner: &Name,
    rtype: u16,
    life: u32,
    items: usize,
    signatures: usize,
) -> Result<(), AllocError> {
    text_of(owner, out)?;
    write!(out, " {rtype} {life} {items} {signatures}, ")
}

fn tell_record(out: &mut String, record: &Record) -> Result<(), AllocError> {
    match record {
        Record::Set(set) => tell(
            out,
            &set.owner().name(),
            set.rtype(),
            set.life(),
            set.items().count(),
            set.signatures().count(),
        ),
        Record::Nsec(nsec) => {
            let signatures = nsec.signatures().count();
            tell(out, &nsec.owner().name(), 47, nsec.life(), 1, signatures)?;
            text_of(&nsec.next().name(), out)?;
            out.push_str(" next, ")
        }
        Record::Nsec3(nsec3) => {
            let signatures = nsec3.signatures().count();
            tell(out, &nsec3.zone().name(), 50, nsec3.life(), 1, signatures)?;
            let (iterations, opt_out) = (nsec3.iterations(), nsec3.opt_out());
            write!(out, "{iterations} iterations, opt-out {opt_out}, ")
        }
    }
}

// What the octets give: each record, and the number of groups skipped; or the fault.
pub(crate) fn told(alloc: Global, octets: &[u8], now: u32) -> Result<String, AllocError> {
    let mut out = String::new(alloc);
    let Taken { batch, skipped } = match batch_of(alloc, octets, now) {
        Ok(taken) => taken,
        Err(fault) => {
            write!(out, "{fault}")?;
            return Ok(out);
        }
    };
    for i in 0..batch.records.len() {
        tell_record(&mut out, batch.records.get(i))?;
    }
    write!(out, "{skipped} skipped")?;
    Ok(out)
}
