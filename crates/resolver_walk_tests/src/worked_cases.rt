//! Replies with every octet.

use crate::records::{A, ADDRESS, CNAME, DNAME, question, replied, set, store_of};
use denial_records::RecordList;
use reply_core::ReplyBuffer;
use resolver::Rule;
use std::test::Fail;

// An alias and the address that it leads to: 84 octets, TTL 3590.
const BY_ALIAS: &[u8] = b"\x12\x34\x81\x80\x00\x01\x00\x02\x00\x00\x00\x00\
\x01a\x07example\x00\x00\x01\x00\x01\
\x01a\x07example\x00\x00\x05\x00\x01\x00\x00\x0e\x06\x00\x0b\x01b\x07example\x00\
\x01b\x07example\x00\x00\x01\x00\x01\x00\x00\x0e\x06\x00\x04\xc0\x00\x02\x01";

// A DNAME, the CNAME that it makes, and the address that this leads to: 136 octets, TTL 3590.
const BY_DNAME: &[u8] = b"\x12\x34\x81\x80\x00\x01\x00\x03\x00\x00\x00\x00\
\x01x\x03old\x07example\x00\x00\x01\x00\x01\
\x03old\x07example\x00\x00\x27\x00\x01\x00\x00\x0e\x06\x00\x0d\x03new\x07example\x00\
\x01x\x03old\x07example\x00\x00\x05\x00\x01\x00\x00\x0e\x06\x00\x0f\x01x\x03new\x07example\x00\
\x01x\x03new\x07example\x00\x00\x01\x00\x01\x00\x00\x0e\x06\x00\x04\xc0\x00\x02\x01";

// A DNAME by which two links go, which stands once, with the alias between them and both CNAMEs that it makes: TTL 3590.
const BY_DNAME_TWICE: &[u8] = b"\x12\x34\x81\x80\x00\x01\x00\x05\x00\x00\x00\x00\
\x01x\x03old\x07example\x00\x00\x01\x00\x01\
\x03old\x07example\x00\x00\x27\x00\x01\x00\x00\x0e\x06\x00\x0d\x03new\x07example\x00\
\x01x\x03old\x07example\x00\x00\x05\x00\x01\x00\x00\x0e\x06\x00\x0f\x01x\x03new\x07example\x00\
\x01x\x03new\x07example\x00\x00\x05\x00\x01\x00\x00\x0e\x06\x00\x0f\x01y\x03old\x07example\x00\
\x01y\x03old\x07example\x00\x00\x05\x00\x01\x00\x00\x0e\x06\x00\x0f\x01y\x03new\x07example\x00\
\x01y\x03new\x07example\x00\x00\x01\x00\x01\x00\x00\x0e\x06\x00\x04\xc0\x00\x02\x01";

#[test]
fn an_alias_leads_to_an_address(rt: HostRuntime) -> Result<(), Fail> {
    let alloc = rt.alloc();
    let mut records = RecordList::empty(alloc);
    records.push(set(
        alloc,
        b"\x01a\x07example\x00",
        CNAME,
        b"\x01b\x07example\x00",
    )?)?;
    records.push(set(alloc, b"\x01b\x07example\x00", A, ADDRESS)?)?;
    let store = store_of(alloc, records)?;
    let question = question(b"\x01a\x07example\x00", A, None)?;
    let mut out = ReplyBuffer::new();
    let _origin = replied(&store, Rule::Aliases, &question, &mut out);
    assert_eq!(rt; out.as_slice(), BY_ALIAS);
    Ok(())
}

#[test]
fn a_dname_leads_to_an_address(rt: HostRuntime) -> Result<(), Fail> {
    let alloc = rt.alloc();
    let mut records = RecordList::empty(alloc);
    records.push(set(
        alloc,
        b"\x03old\x07example\x00",
        DNAME,
        b"\x03new\x07example\x00",
    )?)?;
    records.push(set(alloc, b"\x01x\x03new\x07example\x00", A, ADDRESS)?)?;
    let store = store_of(alloc, records)?;
    let question = question(b"\x01x\x03old\x07example\x00", A, None)?;
    let mut out = ReplyBuffer::new();
    let _origin = replied(&store, Rule::Redirection, &question, &mut out);
    assert_eq!(rt; out.as_slice(), BY_DNAME);
    Ok(())
}

#[test]
fn a_dname_of_two_links_stands_once(rt: HostRuntime) -> Result<(), Fail> {
    let alloc = rt.alloc();
    let mut records = RecordList::empty(alloc);
    let x = b"\x01x\x03new\x07example\x00".as_slice();
    let y = b"\x01y\x03new\x07example\x00".as_slice();
    let old = b"\x03old\x07example\x00".as_slice();
    records.push(set(alloc, old, DNAME, b"\x03new\x07example\x00")?)?;
    records.push(set(alloc, x, CNAME, b"\x01y\x03old\x07example\x00")?)?;
    records.push(set(alloc, y, A, ADDRESS)?)?;
    let store = store_of(alloc, records)?;
    let question = question(b"\x01x\x03old\x07example\x00", A, None)?;
    let mut out = ReplyBuffer::new();
    let _origin = replied(&store, Rule::Both, &question, &mut out);
    assert!(rt; out.as_slice() == BY_DNAME_TWICE);
    Ok(())
}
