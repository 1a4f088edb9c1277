ghost use Rattle.std.specs.Prelude.{◌≡◌, ◌↔◌, IsTrue};
ghost use Rattle.intake.specs.Stored.{is_kept_type, is_single_type, is_apex_type, is_denial_type, is_own_type, limit_of, signed_name, IsInside};
ghost use Rattle.intake.specs.SignedGroup.{Passes, HasLabels, life_in};

use crate::agreed::Agreed;
use dname::types::{
    AFSDB_TYPE, CNAME_TYPE, DNAME_TYPE, DS_TYPE, IN_CLASS, KX_TYPE, MB_TYPE, MD_TYPE, MF_TYPE,
    MG_TYPE, MINFO_TYPE, MR_TYPE, NAPTR_TYPE, NS_TYPE, NSEC_TYPE, NSEC3_TYPE, NXT_TYPE, OPT_TYPE,
    PX_TYPE, RP_TYPE, RRSIG_TYPE, RT_TYPE, SIG_TYPE, SOA_TYPE,
};
use dname::{BoxedName, Name};

/// Three hours, in seconds (RFC 8198, section 5.4).
const DENIAL_LIMIT: u32 = 10_800;

/// A day, in seconds.
const SET_LIMIT: u32 = 86_400;

/// A group that has signatures, without its data.
#[derive(Drop)]
pub(crate) struct SignedGroup {
    pub(crate) class: u16,
    pub(crate) rtype: u16,
    pub(crate) owner: BoxedName,
    /// The least TTL, in seconds.
    pub(crate) ttl: u32,
    /// The number of its records, equal data counted once.
    pub(crate) count: usize,
    pub(crate) agreed: Agreed,
}

impl SignedGroup {
    /// Whether it is kept, whatever its data.
    pub(crate) fn passes(&self) -> bool
        ensures { IsTrue result ↔ Passes self.now }
    {
        self.class == IN_CLASS
            && is_kept_type(self.rtype)
            && self.is_inside()
            && self.has_labels()
            && (!is_single_type(self.rtype) || self.count == 1)
            && self.life() > 0
    }

    // Whether it may stand at its owner in the signer's zone.
    fn is_inside(&self) -> bool
        ensures { IsTrue result ↔ IsInside self.now.rtype self.now.owner self.now.agreed.signer }
    {
        let (owner, zone) = (self.owner.name(), &self.agreed.signer);
        if is_apex_type(self.rtype) {
            *owner == *zone
        } else if self.rtype == DS_TYPE {
            owner.is_under(zone) && *owner != *zone
        } else {
            owner.is_under(zone)
        }
    }

    // Whether the labels of the signed name are in bounds.
    fn has_labels(&self) -> bool
        ensures { IsTrue result ↔ HasLabels self.now }
    {
        let labels = usize::from(self.agreed.labels);
        let most = self.owner.name().owner_labels();
        labels <= most
            && self.agreed.signer.labels() <= labels
            && (!is_own_type(self.rtype) || labels == most)
    }

    /// The name that was signed.
    pub(crate) fn signed_name(&self) -> Name
        ensures { result ≡ signed_name self.now.owner self.now.agreed.labels }
    {
        let labels = usize::from(self.agreed.labels);
        let owner = self.owner.name();
        if labels < owner.owner_labels() {
            prove!(owner.wire().len() <= 255);
            owner.last(labels).star().unwrap()
        } else {
            owner.copy()
        }
    }

    /// How long it may be used, in seconds.
    pub(crate) fn life(&self) -> u32
        ensures { result ≡ life_in self.now }
    {
        limit_of(self.rtype)
            .min(self.ttl)
            .min(self.agreed.original_ttl)
            .min(self.agreed.left)
    }
}

fn is_kept_type(rtype: u16) -> bool
    ensures { result ≡ is_kept_type rtype }
{
    match rtype {
        0 | OPT_TYPE | RRSIG_TYPE | 128..=255 => false,
        MD_TYPE
        | MF_TYPE
        | MB_TYPE
        | MG_TYPE
        | MR_TYPE
        | MINFO_TYPE
        | RP_TYPE
        | AFSDB_TYPE
        | RT_TYPE
        | SIG_TYPE
        | PX_TYPE
        | NXT_TYPE
        | NAPTR_TYPE
        | KX_TYPE => false,
        _ => true,
    }
}

fn is_single_type(rtype: u16) -> bool
    ensures { result ≡ is_single_type rtype }
{
    matches!(
        rtype,
        SOA_TYPE | CNAME_TYPE | DNAME_TYPE | NSEC_TYPE | NSEC3_TYPE
    )
}

fn is_apex_type(rtype: u16) -> bool
    ensures { result ≡ is_apex_type rtype }
{
    matches!(rtype, SOA_TYPE | NS_TYPE)
}

fn is_denial_type(rtype: u16) -> bool
    ensures { result ≡ is_denial_type rtype }
{
    matches!(rtype, NSEC_TYPE | NSEC3_TYPE)
}

fn is_own_type(rtype: u16) -> bool
    ensures { result ≡ is_own_type rtype }
{
    matches!(rtype, NSEC_TYPE | NSEC3_TYPE | DS_TYPE | SOA_TYPE | NS_TYPE)
}

// The longest life of a group of that type, in seconds.
fn limit_of(rtype: u16) -> u32
    ensures { result ≡ limit_of rtype }
{
    if is_denial_type(rtype) {
        DENIAL_LIMIT
    } else {
        SET_LIMIT
    }
}
