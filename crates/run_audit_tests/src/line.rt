use run_audit::{Clause, Finding, finding_line};
use std::alloc::{AllocError, Global};
use std::test::Fail;

const LINES: [(Finding, &str); 9] = [
    (Finding::Yes { replies: 1 }, "yes 1\n"),
    (Finding::Yes { replies: 4375 }, "yes 4375\n"),
    (
        Finding::Unfit {
            clause: Clause::Frames,
        },
        "no unfit 1\n",
    ),
    (
        Finding::Unfit {
            clause: Clause::Versions,
        },
        "no unfit 2\n",
    ),
    (
        Finding::Unfit {
            clause: Clause::Outcomes,
        },
        "no unfit 3\n",
    ),
    (
        Finding::Unfit {
            clause: Clause::Order,
        },
        "no unfit 4\n",
    ),
    (Finding::Record { at: 1, used: 0 }, "no record 1 0\n"),
    (Finding::Record { at: 14, used: 3 }, "no record 14 3\n"),
    (
        Finding::Clash { at: 4_294_967_295 },
        "no clash 4294967295\n",
    ),
];

fn wrong_line(alloc: Global) -> Result<Option<usize>, AllocError> {
    for at in 0..LINES.len() {
        let (finding, line) = LINES[at];
        let text = finding_line(alloc, finding)?;
        if text.as_str() != line {
            return Ok(Some(at));
        }
    }
    Ok(None)
}

#[test]
fn lines_are_as_the_rows_have_them(rt: HostRuntime) -> Result<(), Fail> {
    let wrong = wrong_line(rt.alloc())?;
    assert!(rt; wrong.is_none(), "{wrong:?}");
    Ok(())
}
