//! Names that are the resolver's own.
ghost use Rattle.std.specs.Prelude.{◌≡◌, [], ◌∷◌, ◌++◌, map, IfOk, OnOk};
ghost use Rattle.std.specs.List.{filter_map};
ghost use Rattle.std.specs.Option.{option_to_list};
ghost use Rattle.dname.specs.NameData.{name_in};
ghost use Rattle.dname.specs.Tests.{is_under};
ghost use Rattle.forwarding.specs.Passed.{AreNamesOf, is_above_passed, is_passed};
ghost use Rattle.forwarding.specs.declared.own_names.TheConstants.{OWN_NAMES};

use crate::name_ends::NameEnds;
use crate::own_names::OWN_NAMES;
use dname::{LentName, Name, OutOfMemory, name_in};
use std::alloc::Global;
use std::marker::Model;

/// The names that are passed, seen as their list.
#[derive(Drop)]
pub struct PassedNames {
    names: Vec<Name>,
    ends: NameEnds,
}

impl Model for PassedNames {
    ghost use Rattle.std.specs.Prelude.{List, ℕ};
    ghost use Rattle.forwarding.specs.Ends.{AreMarksOf};

    ghost Value = { List (List (List ℕ)) };

    ghost view = { λ p. p.names.items };

    ghost invariant = { λ p. AreMarksOf p.ends.marks p.names.items };
}

impl PassedNames {
    /// No name.
    #[tactic(auto, using(crate::proofs::NameEndLemmas::marks_of_none))]
    pub fn none(alloc: Global) -> PassedNames
        ensures { result ≡ [] }
    {
        PassedNames {
            names: Vec::new(alloc),
            ends: NameEnds::none(),
        }
    }

    /// The names that resolvers answer themselves: without them a neighbour's denial in the zone above would take them away.
    pub fn own(alloc: Global) -> Result<PassedNames, OutOfMemory>
        ensures { IfOk result (AreNamesOf (map (λ wire. wire.now) OWN_NAMES)) }
    {
        let mut passed = PassedNames::none(alloc);
        passed.pass_all(&OWN_NAMES)?;
        Ok(passed)
    }

    // The names that the octets are.
    fn pass_all(&mut self, wires: &[&[u8]]) -> Result<(), OutOfMemory>
        ensures { OnOk result
            (self.new ≡ self.old ++ filter_map (λ wire. name_in wire.now) wires.now) }
    {
        for i in 0..wires.len() {
            self.pass_read(wires[i])?;
        }
        Ok(())
    }

    // The name that the octets are, if they are one.
    fn pass_read(&mut self, octets: &[u8]) -> Result<(), OutOfMemory>
        ensures { OnOk result (self.new ≡ self.old ++ option_to_list (name_in octets.now)) }
    {
        match name_in(octets) {
            Some(name) => self.pass(name),
            None => Ok(()),
        }
    }

    /// One name more.
    #[tactic(auto, using(crate::proofs::NameEndLemmas::marks_wider, crate::proofs::NameEndLemmas::marks_push))]
    pub fn pass(&mut self, name: Name) -> Result<(), OutOfMemory>
        ensures { OnOk result (self.new ≡ self.old ++ name ∷ []) }
    {
        self.ends.add(&name);
        self.names.push(name)?;
        Ok(())
    }

    /// Whether the name is at or below one of them.
    pub fn has(&self, name: &LentName<'_>) -> bool
        ensures { result ≡ is_passed self.now name.now }
    {
        if !self.ends.has(name) {
            return false;
        }
        for i in 0..self.names.len() {
            if is_at_or_below(name, &self.names[i]) {
                return true;
            }
        }
        false
    }

    /// Whether one of them is at or below the name.
    pub fn has_below(&self, name: &LentName<'_>) -> bool
        ensures { result ≡ is_above_passed self.now name.now }
    {
        for i in 0..self.names.len() {
            if is_at_or_above(name, &self.names[i]) {
                return true;
            }
        }
        false
    }
}

fn is_at_or_below(name: &LentName<'_>, top: &Name) -> bool
    ensures { result ≡ is_under name.now top.now }
{
    name.is_under(&top.lent())
}

fn is_at_or_above(name: &LentName<'_>, below: &Name) -> bool
    ensures { result ≡ is_under below.now name.now }
{
    below.lent().is_under(name)
}
