use crate::made::question;
use dnswire::Edns;
use reply_core::{ReplyBuffer, write_ask};
use std::test::Fail;

const ASKED: &[u8] = b"\x03wWw\x07Example\0\0\x10\0\x01";

const ROOT_ASKED: &[u8] = b"\0\0\x02\0\x01";

// The question, CD, the size of the client's OPT (without DO), the ID, and what is written.
type Case = (&'static [u8], bool, Option<u16>, u16, &'static [u8]);

fn is_asked(case: &Case, out: &mut ReplyBuffer) -> Result<bool, Fail> {
    let (asked, cd, size, id, wanted) = *case;
    let edns = match size {
        Some(size) => Some(Edns {
            size,
            dnssec: false,
        }),
        None => None,
    };
    let mut question = question(asked, edns)?;
    question.rd = false;
    question.cd = cd;
    write_ask(&question, id, out);
    Ok(out.as_slice() == wanted)
}

// The first case of which something else is written.
fn first_wrong(cases: &[Case]) -> Result<Option<usize>, Fail> {
    let mut out = ReplyBuffer::new();
    for (i, case) in cases.iter().enumerate() {
        if !is_asked(case, &mut out)? {
            return Ok(Some(i));
        }
    }
    Ok(None)
}

// The octets are those that dnspython 2.3 writes of such queries.
#[test]
fn the_query_has_rd_ad_and_do_of_its_own(rt: HostRuntime) -> Result<(), Fail> {
    let cases: [Case; 3] = [
        (
            ASKED,
            false,
            None,
            0xbeef,
            b"\xbe\xef\x01\x20\0\x01\0\0\0\0\0\x01\x03wWw\x07Example\0\0\x10\0\x01\0\0\x29\x04\xd0\0\0\x80\0\0\0",
        ),
        // CD as the client asked
        (
            ASKED,
            true,
            Some(4096),
            0x0100,
            b"\x01\0\x01\x30\0\x01\0\0\0\0\0\x01\x03wWw\x07Example\0\0\x10\0\x01\0\0\x29\x04\xd0\0\0\x80\0\0\0",
        ),
        (
            ROOT_ASKED,
            true,
            None,
            0xffff,
            b"\xff\xff\x01\x30\0\x01\0\0\0\0\0\x01\0\0\x02\0\x01\0\0\x29\x04\xd0\0\0\x80\0\0\0",
        ),
    ];
    let wrong = first_wrong(&cases)?;
    assert!(rt; wrong.is_none(), "{wrong:?}");
    Ok(())
}
