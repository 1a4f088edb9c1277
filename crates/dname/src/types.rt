//! The numbers of types and classes (RFC 1035, section 3.2, and the IANA registry of DNS parameters).

pub const A_TYPE: u16 = 1;

pub const NS_TYPE: u16 = 2;

pub const MD_TYPE: u16 = 3;

pub const MF_TYPE: u16 = 4;

pub const CNAME_TYPE: u16 = 5;

pub const SOA_TYPE: u16 = 6;

pub const MB_TYPE: u16 = 7;

pub const MG_TYPE: u16 = 8;

pub const MR_TYPE: u16 = 9;

pub const PTR_TYPE: u16 = 12;

pub const MINFO_TYPE: u16 = 14;

pub const MX_TYPE: u16 = 15;

pub const TXT_TYPE: u16 = 16;

pub const RP_TYPE: u16 = 17;

pub const AFSDB_TYPE: u16 = 18;

pub const RT_TYPE: u16 = 21;

pub const SIG_TYPE: u16 = 24;

pub const PX_TYPE: u16 = 26;

pub const AAAA_TYPE: u16 = 28;

pub const NXT_TYPE: u16 = 30;

pub const SRV_TYPE: u16 = 33;

pub const NAPTR_TYPE: u16 = 35;

pub const KX_TYPE: u16 = 36;

pub const DNAME_TYPE: u16 = 39;

pub const OPT_TYPE: u16 = 41;

pub const DS_TYPE: u16 = 43;

pub const RRSIG_TYPE: u16 = 46;

pub const NSEC_TYPE: u16 = 47;

pub const DNSKEY_TYPE: u16 = 48;

pub const NSEC3_TYPE: u16 = 50;

pub const NSEC3PARAM_TYPE: u16 = 51;

pub const ANY_TYPE: u16 = 255;

/// The class of the Internet.
pub const IN_CLASS: u16 = 1;
