ghost use Rattle.std.specs.Prelude.{◌≤◌, List, ℕ, IfOk, IfErr};
ghost use Rattle.dname.specs.Read.{IsFaultAt, StopsAt, Spells, HasLabelAt};

use crate::NameFault;
use crate::wire::MAX_WIRE;

/// The octets that the name at the front takes, the root's among them.
pub(crate) fn wire_size(octets: &[u8]) -> Result<usize, NameFault>
    ensures read { IfOk result
        (λ taken. (name : List (List ℕ)) × Spells octets.now name taken) }
    ensures refused { IfErr result (StopsAt octets.now) }
{
    let mut before = 0;
    loop {
        match label_size(&octets[before..], before) {
            Ok(0) => return Ok(before + 1),
            Ok(size) => before += 1 + size,
            Err(fault) => return Err(fault),
        }
    }
}

// The size of the label at the front, after labels of so many octets; 0 is the root.
fn label_size(octets: &[u8], before: usize) -> Result<usize, NameFault>
    requires { before ≤ 254 }
    ensures read { IfOk result (HasLabelAt before octets.now) }
    ensures refused { IfErr result (λ fault. IsFaultAt fault before octets.now) }
{
    let Some((first, rest)) = octets.split_first() else {
        return Err(NameFault::Short);
    };
    let size = usize::from(*first);
    if size >= 192 {
        return Err(NameFault::Pointer);
    }
    if size >= 64 {
        return Err(NameFault::LabelTooLong);
    }
    if size > 0 && before + 1 + size >= MAX_WIRE {
        return Err(NameFault::NameTooLong);
    }
    if rest.len() < size {
        return Err(NameFault::Short);
    }
    Ok(size)
}
