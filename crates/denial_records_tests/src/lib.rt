//! The tests of `denial_records`, which cite its public calls alone.
#![tactic(auto)]

#[cfg(test)]
mod kept;
#[cfg(test)]
mod made;
#[cfg(test)]
mod nsec3_parts;
#[cfg(test)]
mod nsec_parts;
#[cfg(test)]
mod record_list;
#[cfg(test)]
mod rrsig;
#[cfg(test)]
mod time_left;
#[cfg(test)]
mod type_set;
