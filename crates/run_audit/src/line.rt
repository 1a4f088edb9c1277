ghost use Rattle.std.specs.Prelude.{◌≡◌, IfOk, string_bytes};
ghost use Rattle.run_audit.specs.Line.{finding_line};

use crate::Finding;
use dname::OutOfMemory;
use std::alloc::Global;

/// The line that is printed for a finding, ended by a line feed.
pub fn finding_line(alloc: Global, finding: Finding) -> Result<String, OutOfMemory>
    ensures { IfOk result (λ text. string_bytes text ≡ finding_line finding) }
{
    let mut text = String::new(alloc);
    match finding {
        Finding::Yes { replies } => writeln!(text, "yes {replies}")?,
        Finding::Unfit { clause } => writeln!(text, "no unfit {}", clause.number())?,
        Finding::Record { at, used } => writeln!(text, "no record {at} {used}")?,
        Finding::Clash { at } => writeln!(text, "no clash {at}")?,
    }
    Ok(text)
}
