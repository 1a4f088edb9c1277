ghost use Rattle.std.specs.Prelude.{◌≡◌, ◌≤◌, ℕ, List, length, get_or, IfOk, Ok, Err};
ghost use Rattle.dnswire.specs.MessageName.{NameAt};
ghost use Rattle.dnswire.specs.RrHead.{HasNoName};
ghost use Rattle.dnswire.specs.Runs.{AreSizes, HasSize, HasNoRoom};
ghost use Rattle.dnswire.specs.declared.name_skip.NotPassed.{NotPassed};

use crate::label_run::run_at;
use dname::MAX_WIRE;

/// Why names aren't passed over.
#[derive(Clone, Copy, Debug, PartialEq, Eq)]
pub(crate) enum NotPassed {
    /// What stands there can't be read.
    Faulty,
    /// A name is dear to read, and there is no room to remember what stands where its pointers go.
    Dear,
}

/// How much of a name may be read behind its first pointer where nothing is remembered: its octets, and each pointer like
/// so many of them.
const MOST_STEPS: usize = 128;

const POINTER_STEPS: usize = 16;

/// The offset after the name at the offset. The sizes of what stands where pointers go are kept by their offsets, so that
/// none is followed twice; with no room for any a name may be too dear.
pub(crate) fn skip_name(message: &[u8], at: usize, sizes: &mut [u8]) -> Result<usize, NotPassed>
    requires { AreSizes message.now sizes.old }
    ensures read { IfOk result
        (λ end. (name : List (List ℕ)) × NameAt message.now at name end) }
    ensures within { IfOk result (λ end. end ≤ length message.now) }
    ensures faulty { result ≡ Err NotPassed.Faulty → HasNoName message.now at }
    ensures dear { result ≡ Err NotPassed.Dear → length sizes.old ≡ 0 }
    ensures sizes { AreSizes message.now sizes.new }
    ensures room { length sizes.new ≡ length sizes.old }
{
    let Some(run) = run_at(message, at, MAX_WIRE) else {
        return Err(NotPassed::Faulty);
    };
    let Some(next) = run.next else {
        return Ok(at + run.size + 1);
    };
    pass_rest(message, next, MAX_WIRE - run.size, sizes)?;
    Ok(at + run.size + 2)
}

// Whether what is read from the offset on has no more octets than these.
fn pass_rest(message: &[u8], at: usize, room: usize, sizes: &mut [u8]) -> Result<(), NotPassed>
    requires room { room ≤ 255 }
    requires sizes { AreSizes message.now sizes.old }
    ensures read { result ≡ Ok tt → (size : ℕ) × HasSize message.now at size
        × (size ≤ room) }
    ensures faulty { result ≡ Err NotPassed.Faulty → HasNoRoom message.now at room }
    ensures dear { result ≡ Err NotPassed.Dear → length sizes.old ≡ 0 }
    ensures sizes { AreSizes message.now sizes.new }
    ensures room { length sizes.new ≡ length sizes.old }
{
    let rest = rest_at(message, at, room, sizes)?;
    remember(message, at, rest, sizes);
    Ok(())
}

// What is read from an offset on.
#[derive(Clone, Copy, Debug)]
struct NameRest {
    size: usize,
    // Where the last run begins whose size wasn't remembered.
    last_run: usize,
}

fn rest_at(message: &[u8], at: usize, room: usize, sizes: &[u8]) -> Result<NameRest, NotPassed>
    requires room { room ≤ 255 }
    requires sizes { AreSizes message.now sizes.now }
    ensures read { IfOk result (λ rest. HasSize message.now at rest.size × (rest.size ≤ room)) }
    ensures faulty { result ≡ Err NotPassed.Faulty → HasNoRoom message.now at room }
    ensures dear { result ≡ Err NotPassed.Dear → length sizes.now ≡ 0 }
{
    let mut start = at;
    let mut last_run = at;
    let mut size = 0;
    let mut steps = 0;
    loop {
        let known = known_size(sizes, start);
        if known > room - size {
            return Err(NotPassed::Faulty);
        }
        if known > 0 {
            size += known;
            return Ok(NameRest { size, last_run });
        }
        last_run = start;
        let Some(run) = run_at(message, start, room - size) else {
            return Err(NotPassed::Faulty);
        };
        size += run.size;
        let Some(next) = run.next else {
            size += 1;
            return Ok(NameRest { size, last_run });
        };
        start = next;
        if sizes.is_empty() {
            steps += POINTER_STEPS + run.size;
            if steps > MOST_STEPS {
                return Err(NotPassed::Dear);
            }
        }
    }
}

/// The size that is remembered for the offset; 0 is none.
pub(crate) fn known_size(sizes: &[u8], at: usize) -> usize
    ensures { result ≡ get_or sizes.now at 0 }
{
    match sizes.get(at) {
        Some(size) => usize::from(*size),
        None => 0,
    }
}

// Keeps the sizes of what is read from the offset on and of what its pointers lead to.
fn remember(message: &[u8], at: usize, rest: NameRest, sizes: &mut [u8])
    requires size { HasSize message.now at rest.size }
    requires small { rest.size ≤ 255 }
    requires sizes { AreSizes message.now sizes.old }
    ensures sizes { AreSizes message.now sizes.new }
    ensures room { length sizes.new ≡ length sizes.old }
{
    let mut start = at;
    let mut size = rest.size;
    while start < sizes.len() {
        sizes[start] = size as u8;
        if start == rest.last_run {
            return;
        }
        let Some(run) = run_at(message, start, size) else {
            return;
        };
        let Some(next) = run.next else {
            return;
        };
        start = next;
        size -= run.size;
    }
}
