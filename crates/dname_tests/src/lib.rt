//! The tests of `dname`, which cite its public calls alone.
#![tactic(auto)]

#[cfg(test)]
mod arc;
#[cfg(test)]
mod name;
#[cfg(test)]
mod name_data;
#[cfg(test)]
mod octets_list;
#[cfg(test)]
mod pack;
#[cfg(test)]
mod slices;
