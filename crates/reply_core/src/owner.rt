ghost use Rattle.std.specs.Prelude.{◌≡◌, ◌∷◌, length};
ghost use Rattle.dname.specs.Name.{wire_of};
ghost use Rattle.reply_core.specs.Draft.{put};

use crate::draft::Draft;
use dname::LentName;

/// The owner name of records.
#[derive(Debug, Drop)]
pub(crate) enum Owner<'a> {
    Name(LentName<'a>),
    /// The text of a hash in front of its zone (RFC 5155, section 3), which may have more octets than a name.
    Hashed([u8; 32], LentName<'a>),
}

impl Owner<'_> {
    ghost use Rattle.reply_core.specs.Owner.{labels_of};

    /// Its wire form, uncompressed.
    pub(crate) fn put<const N: usize>(&self, draft: &mut Draft<N>)
        ensures { draft.new ≡ put draft.old (wire_of (labels_of self.now)) }
    {
        match self {
            Owner::Name(name) => draft.put(name.wire()),
            Owner::Hashed(text, zone) => {
                draft.put(&label_of(text));
                draft.put(zone.wire());
            }
        }
    }
}

// The label that is a hash's text, after its length.
fn label_of(text: &[u8; 32]) -> [u8; 33]
    ensures { result ≡ length text.now ∷ text.now }
{
    let mut label = [32; 33];
    label[1..].copy_from_slice(text);
    label
}
