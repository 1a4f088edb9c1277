ghost use Rattle.std.specs.Prelude.{◌≡◌, IsTrue};
ghost use Rattle.cache_meaning.specs.Zones.{IsInArc};
ghost use Rattle.cache_meaning.specs.Evidence.{nsec_covers};
ghost use Rattle.cache_meaning.specs.NsecSteps.{source_of};

use crate::covering::Covering;
use cache_meaning::wildcard_below;
use dname::Name;
use encloser::common_encloser;

/// The source of synthesis of a name that the record covers: the wildcard below the closest encloser (RFC 4592, section 3.3.1).
pub(crate) fn source_of(covering: Covering<'_>, name: &Name) -> Name
    requires inside { IsInArc name.now covering.nsec.now }
    requires covered { IsTrue (nsec_covers covering.nsec.now name.now) }
    ensures { result ≡ source_of covering.entry.nsec.now name.now }
{
    wildcard_below(
        name,
        &common_encloser(name, &covering.nsec.owner(), &covering.nsec.next()),
    )
}
