ghost use Rattle.std.specs.Prelude.{◌≡◌};
ghost use Rattle.dnswire.specs.Data.{layout_of};

use dname::types::{
    AFSDB_TYPE, CNAME_TYPE, DNAME_TYPE, KX_TYPE, MB_TYPE, MD_TYPE, MF_TYPE, MG_TYPE, MINFO_TYPE,
    MR_TYPE, MX_TYPE, NAPTR_TYPE, NS_TYPE, NSEC_TYPE, NXT_TYPE, PTR_TYPE, PX_TYPE, RP_TYPE,
    RRSIG_TYPE, RT_TYPE, SIG_TYPE, SOA_TYPE, SRV_TYPE,
};

/// A field of a record's data.
#[derive(Clone, Copy, Debug, PartialEq, Eq)]
pub(crate) enum Field {
    /// So many octets of numbers.
    Numbers(usize),
    /// A name in a message.
    Name,
    /// A length octet and so many octets (RFC 1035, section 3.3).
    CharacterString,
    /// Whatever remains.
    Rest,
}

/// The layout of a type's data. Data of a type that has no names in it is taken as it is.
pub(crate) fn layout_of(rtype: u16) -> &'static [Field]
    ensures { result.now ≡ layout_of rtype }
{
    match rtype {
        NS_TYPE
        | MD_TYPE
        | MF_TYPE
        | CNAME_TYPE
        | MB_TYPE
        | MG_TYPE
        | MR_TYPE
        | PTR_TYPE
        | DNAME_TYPE => &[Field::Name],
        SOA_TYPE => &[Field::Name, Field::Name, Field::Numbers(20)],
        MINFO_TYPE | RP_TYPE => &[Field::Name, Field::Name],
        MX_TYPE | AFSDB_TYPE | RT_TYPE | KX_TYPE => &[Field::Numbers(2), Field::Name],
        SIG_TYPE | RRSIG_TYPE => &[Field::Numbers(18), Field::Name, Field::Rest],
        PX_TYPE => &[Field::Numbers(2), Field::Name, Field::Name],
        NXT_TYPE | NSEC_TYPE => &[Field::Name, Field::Rest],
        SRV_TYPE => &[Field::Numbers(6), Field::Name],
        NAPTR_TYPE => &[
            Field::Numbers(4),
            Field::CharacterString,
            Field::CharacterString,
            Field::CharacterString,
            Field::Name,
        ],
        _ => &[Field::Rest],
    }
}
