ghost use Rattle.std.specs.Prelude.{◌≡◌, ◌≢◌, ◌∷◌};
ghost use Rattle.dname.specs.Name.{IsUnder, asterisk};

use dname::Name;
use encloser::wildcard_of;

/// The wildcard below a name above the given one: it always has room.
pub fn wildcard_below(name: &Name, encloser: &Name) -> Name
    requires above { IsUnder name.now encloser.now }
    requires apart { name.now ≢ encloser.now }
    ensures { result ≡ asterisk ∷ encloser.now }
{
    prove!(name.wire().len() <= 255);
    wildcard_of(encloser).unwrap()
}
