ghost use Rattle.std.specs.Prelude.{◌≡◌, ◌+◌, ◌<◌, IfSome, IfNone, IsTrue, false, drop, length};
ghost use Rattle.std.specs.Option.{unwrap_or};
ghost use Rattle.dnswire.specs.LabelsLeft.{first_of, AreNoneLeft, IsNextLabel, IsFollowed};
ghost use Rattle.dnswire.specs.MessageName.{BeginsWithLabel, BeginsWithPointer};
ghost use Rattle.dnswire.specs.NameLabels.{BeginsWithPiece, HasNoPiece, IsStep};

use dname::{MAX_WIRE, octets_from};
use std::marker::Model;

/// So many offsets can a pointer go to (RFC 1035, section 4.1.4).
pub(crate) const POINTED_OFFSETS: usize = 0x4000;

/// The labels of a name in a message that are still to come, the leftmost first. Pointers are followed (RFC 1035, section
/// 4.1.4).
#[derive(Drop)]
pub(crate) struct NameLabels<'a> {
    message: &'a [u8],
    // The offset of the run of labels, and that of its next piece.
    start: usize,
    at: usize,
    // The offset after the name, once a pointer was followed.
    end: Option<usize>,
    // The octets of the labels that came, and of their length octets.
    size: usize,
}

/// What comes next: a label, or the end of the name, with the offset after it.
#[derive(Drop)]
pub(crate) enum NameStep<'a> {
    Label(&'a [u8]),
    End(usize),
}

/// A piece of a name: its end, a label, or a pointer to an offset.
#[derive(Drop)]
pub(crate) enum Piece<'a> {
    End,
    Label(&'a [u8]),
    Pointer(usize),
}

impl<'a> Model for NameLabels<'a> {
    ghost use Rattle.dnswire.specs.LabelsLeft.{LabelsLeft};
    ghost use Rattle.std.specs.Prelude.{◌≤◌};

    ghost Value = { LabelsLeft };

    ghost view = { λ l. record {
      message = l.message.now;
      start = l.start;
      at = l.at;
      ended = l.end;
      size = l.size;
    } };

    ghost invariant = { λ l. l.size ≤ 254 };
}

impl<'a> NameLabels<'a> {
    /// The labels of the name at the offset.
    pub(crate) fn of(message: &'a [u8], at: usize) -> NameLabels<'a>
        ensures { result ≡ first_of message.now at }
    {
        NameLabels {
            message,
            start: at,
            at,
            end: None,
            size: 0,
        }
    }

    /// Takes the next label off; none where no name stands there.
    pub(crate) fn next(&mut self) -> Option<NameStep<'a>>
        ensures { IsStep self.old result self.new }
    {
        loop {
            match piece_at(self.message, self.at) {
                Some(Piece::End) => return Some(NameStep::End(self.end())),
                Some(Piece::Label(label)) if self.take(label) => {
                    return Some(NameStep::Label(label));
                }
                Some(Piece::Pointer(offset)) if self.follow(offset) => {}
                _ => return None,
            }
        }
    }

    // The offset after the name, where its end is at hand.
    fn end(&self) -> usize
        requires { self.now.at < length self.now.message }
        ensures { result ≡ unwrap_or self.now.ended (self.now.at + 1) }
    {
        self.end.unwrap_or(self.at + 1)
    }

    // Whether the label at hand, which is taken, fits a name with those that came.
    fn take(&mut self, label: &[u8]) -> bool
        requires { BeginsWithLabel (drop self.old.at self.old.message) label.now }
        ensures yes { IsTrue result → IsNextLabel self.old label.now self.new }
        ensures no { result ≡ false → AreNoneLeft self.old }
    {
        if self.size + 1 + label.len() >= MAX_WIRE {
            return false;
        }
        self.at += 1 + label.len();
        self.size += 1 + label.len();
        true
    }

    // Whether the pointer at hand, which is followed, goes to before its run of labels.
    fn follow(&mut self, offset: usize) -> bool
        requires { BeginsWithPointer (drop self.old.at self.old.message) offset }
        ensures yes { IsTrue result → IsFollowed self.old offset self.new }
        ensures no { result ≡ false → AreNoneLeft self.old }
    {
        if offset >= self.start {
            return false;
        }
        self.end = Some(self.end.unwrap_or(self.at + 2));
        self.start = offset;
        self.at = offset;
        true
    }
}

/// The piece at the offset.
pub(crate) fn piece_at(message: &[u8], at: usize) -> Option<Piece<'_>>
    ensures read { IfSome result (BeginsWithPiece (drop at message.now)) }
    ensures none { IfNone result (HasNoPiece (drop at message.now)) }
{
    if at > message.len() {
        return None;
    }
    piece_of(octets_from(message, at))
}

// The piece at the front.
fn piece_of(octets: &[u8]) -> Option<Piece<'_>>
    ensures read { IfSome result (BeginsWithPiece octets.now) }
    ensures none { IfNone result (HasNoPiece octets.now) }
{
    let Some((first, rest)) = octets.split_first() else {
        return None;
    };
    let size = usize::from(*first);
    if size == 0 {
        return Some(Piece::End);
    }
    if size >= 192 {
        return match rest.first() {
            Some(second) => Some(Piece::Pointer((size - 192) * 256 + usize::from(*second))),
            None => None,
        };
    }
    if size <= 63 && size <= rest.len() {
        return Some(Piece::Label(rest.split_at(size).0));
    }
    None
}
