//! Tests of `page_list`.
#![tactic(auto)]

#[cfg(test)]
mod numbers;
#[cfg(test)]
mod pages;
#[cfg(test)]
mod plain;
#[cfg(test)]
mod searches;
