ghost use Rattle.std.specs.Prelude.{◌≡◌};
ghost use Rattle.zone_maker.specs.Made.{kind_at};
ghost use Rattle.zone_maker.specs.NameKinds.{kind_of};

/// What a name of a made zone is.
#[derive(Clone, Copy, Debug, PartialEq, Eq)]
pub(crate) enum NameKind {
    /// It has an address.
    Host,
    /// It has no record, and a host is below it.
    Above,
    /// It is a zone cut.
    Cut,
    /// It has no record, and a wildcard is below it.
    Wild,
}

/// What name number i is.
pub(crate) fn kind_at(i: u32) -> NameKind
    ensures { kind_of result ≡ kind_at i }
{
    match i % 4 {
        0 => NameKind::Host,
        1 => NameKind::Above,
        2 => NameKind::Cut,
        _ => NameKind::Wild,
    }
}
