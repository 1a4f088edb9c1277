ghost use Rattle.std.specs.Prelude.{◌≡◌, ◌<◌, ℕ, List, ◌++◌, length, IfSome, IsNone};
ghost use Rattle.dname.specs.Name.{Label};
ghost use Rattle.zone_meaning.specs.Zone.{ZoneRecord};
ghost use Rattle.zone_meaning.specs.ZoneTable.{zone_record};
ghost use Rattle.audit_source.specs.Pieces.{HasNumber, HasCounted, HasName, HasHead, HasEntry, HasRun};

use dname::{Name, name_in, octets_from, u16_at, u32_at};

/// The most records that a zone of a source has.
pub const MOST_RECORDS: u32 = 65_536;

/// The apex of the zone and the number of its records, and the octets after them.
pub(crate) fn first_head(octets: &[u8]) -> Option<(Name, u32, &[u8])>
    ensures some { IfSome result (λ read. HasHead octets.now read.0 read.1 read.2.now) }
    ensures none { IsNone result → (apex : List Label) (count : ℕ) (rest : List ℕ)
        → HasHead octets.now apex count rest → ⊥ }
{
    let (apex, rest) = first_name(octets)?;
    let (count, rest) = first_u32(rest)?;
    if count > MOST_RECORDS {
        return None;
    }
    Some((apex, count, rest))
}

/// The owner name, the type and the data of a record, and the octets after them.
pub(crate) fn first_entry(octets: &[u8]) -> Option<(Name, u16, &[u8], &[u8])>
    ensures some { IfSome result (λ read.
        HasEntry octets.now (zone_record read.0 read.1 read.2.now) read.3.now) }
    ensures none { IsNone result → (r : ZoneRecord) (rest : List ℕ)
        → HasEntry octets.now r rest → ⊥ }
{
    let (owner, rest) = first_name(octets)?;
    let (rtype, rest) = first_u16(rest)?;
    let (data, rest) = first_short(rest)?;
    Some((owner, rtype, data, rest))
}

/// The input and the output of a run, and the octets after them.
pub(crate) fn first_run(octets: &[u8]) -> Option<(&[u8], &[u8], &[u8])>
    ensures some { IfSome result (λ read.
        HasRun octets.now read.0.now read.1.now read.2.now) }
    ensures none { IsNone result → (input output rest : List ℕ)
        → HasRun octets.now input output rest → ⊥ }
{
    let (input, rest) = first_long(octets)?;
    let (output, rest) = first_long(rest)?;
    Some((input, output, rest))
}

// A name whose wire form stands after its length.
fn first_name(octets: &[u8]) -> Option<(Name, &[u8])>
    ensures some { IfSome result (λ read. HasName octets.now read.0 read.1.now) }
    ensures none { IsNone result → (name : List Label) (rest : List ℕ)
        → HasName octets.now name rest → ⊥ }
{
    let (form, rest) = first_short(octets)?;
    let name = name_in(form)?;
    Some((name, rest))
}

// Octets after their number in two octets.
fn first_short(octets: &[u8]) -> Option<(&[u8], &[u8])>
    ensures some { IfSome result (λ read. HasCounted 2 octets.now read.0.now read.1.now) }
    ensures none { IsNone result → (piece rest : List ℕ)
        → HasCounted 2 octets.now piece rest → ⊥ }
{
    let (size, rest) = first_u16(octets)?;
    front_of(rest, usize::from(size))
}

// Octets after their number in four octets.
fn first_long(octets: &[u8]) -> Option<(&[u8], &[u8])>
    ensures some { IfSome result (λ read. HasCounted 4 octets.now read.0.now read.1.now) }
    ensures none { IsNone result → (piece rest : List ℕ)
        → HasCounted 4 octets.now piece rest → ⊥ }
{
    let (size, rest) = first_u32(octets)?;
    front_of(rest, size as usize)
}

fn first_u16(octets: &[u8]) -> Option<(u16, &[u8])>
    ensures some { IfSome result (λ read. HasNumber 2 octets.now read.0 read.1.now) }
    ensures none { IsNone result → length octets.now < 2 }
{
    if octets.len() < 2 {
        return None;
    }
    Some((u16_at(octets, 0), octets_from(octets, 2)))
}

fn first_u32(octets: &[u8]) -> Option<(u32, &[u8])>
    ensures some { IfSome result (λ read. HasNumber 4 octets.now read.0 read.1.now) }
    ensures none { IsNone result → length octets.now < 4 }
{
    if octets.len() < 4 {
        return None;
    }
    Some((u32_at(octets, 0), octets_from(octets, 4)))
}

// So many octets, and those after them.
fn front_of(octets: &[u8], size: usize) -> Option<(&[u8], &[u8])>
    ensures parts { IfSome result (λ parts. octets.now ≡ parts.0.now ++ parts.1.now) }
    ensures size { IfSome result (λ parts. length parts.0.now ≡ size) }
    ensures none { IsNone result → length octets.now < size }
{
    if octets.len() < size {
        return None;
    }
    Some(octets.split_at(size))
}
