//! Tests of what `resolver` answers by walks.
#![tactic(auto)]

#[cfg(test)]
mod hostile;
#[cfg(test)]
mod origins;
#[cfg(test)]
mod records;
#[cfg(test)]
mod sizes;
#[cfg(test)]
mod worked_cases;
