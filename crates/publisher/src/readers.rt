//! Readers of the tables in force.

ghost use Rattle.std.specs.Prelude.{◌≡◌, ◌⊎◌, ◌-◌, true, length, Some, IfOk, slice_get};
ghost use Rattle.std.specs.Arc.{arc_value};
ghost use mathlib.Core.List.{IsPrefix};
ghost use Rattle.compiler.specs.Plan.{plan_of, target_of};
ghost use Rattle.left_right.specs.Sides.{view};
ghost use Rattle.publisher.specs.Generations.{commands_of};
ghost use Rattle.publisher.specs.History.{generations_in, is_in_force};

use crate::blanks::Imprint;
use crate::faults::{Lost, TablesFault};
use crate::fronts::Front;
use crate::looks::{route_of, tables_of, version_of};
use crate::showing::Place;
use crate::tellings::Told;
use compiler::{Routed, Tables};
use core::mem::replace_with;
use gk_terms::{Dialled, Version};
use std::alloc::Global;
use std::marker::Model;
use std::sync::Arc;

/// Reads the tables in force, and waits for nobody. A contract sees the list of generations up to
/// the one that it read last, which never gets shorter, and the longest list that it was told of.
/// Letting it go frees its place.
#[derive(Drop)]
pub struct Reader<J: Imprint> {
    place: Place<J>,
    told: Front<J>,
}

impl<J: Imprint> Model for Reader<J> {
    ghost use Rattle.std.specs.Prelude.{◌≡◌, true};
    ghost use Rattle.left_right.specs.Sides.{view as seen_at};
    ghost use Rattle.publisher.specs.Generations.{Known};
    ghost use Rattle.publisher.specs.History.{generations_in, is_in_force};

    ghost Value = { Known };

    ghost view = { λ r. record { list = seen_at r.place.place; told = generations_in r.told } };

    ghost invariant = { λ r. is_in_force r.told ≡ true };
}

impl<J: Imprint> Reader<J> {
    /// A reader at this place, which has read nothing and was told of the entries of this
    /// beginning, whose last draft is in force. Were the last one a refused draft, it would be lost
    /// until the next publication.
    pub(crate) fn new(place: Place<J>, told: Front<J>) -> Reader<J>
        requires { is_in_force told ≡ true }
        ensures list { result.list ≡ view place.place }
        ensures told { result.told ≡ generations_in told }
    {
        Reader { place, told }
    }

    /// The version in force and its tables, which stay as they are for as long as they are held.
    /// It takes no memory. `Lost` if the reader isn't let in, `TooManyOwners` if the tables have as
    /// many owners as can be counted.
    pub fn read(&mut self) -> Result<(Version, Arc<Tables, Global>), TablesFault>
        ensures grows { IsPrefix self.old.list self.new.list }
        ensures told { IfOk result (λ _. IsPrefix self.old.told self.new.list) }
        ensures version { IfOk result (λ read. read.0 ≡ length self.new.list) }
        ensures tables { IfOk result (λ read.
            slice_get self.new.list (read.0 - 1) ≡ Some (arc_value read.1).commands) }
        ensures same { self.new.told ≡ self.old.told }
    {
        replace_with(&mut self.place, &self.told, tables_of)
    }

    /// The version in force, 1 to 4,294,967,295. It takes no memory. `Lost` if the reader isn't let
    /// in.
    pub fn version(&mut self) -> Result<Version, Lost>
        ensures grows { IsPrefix self.old.list self.new.list }
        ensures told { IfOk result (λ _. IsPrefix self.old.told self.new.list) }
        ensures version { IfOk result (λ version. version ≡ length self.new.list) }
        ensures same { self.new.told ≡ self.old.told }
    {
        replace_with(&mut self.place, &self.told, version_of)
    }

    /// Where a call to these digits is to go by the tables in force, with their version. It takes
    /// no memory. `Lost` if the reader isn't let in.
    pub fn route(&mut self, digits: &Dialled) -> Result<Routed, Lost>
        ensures grows { IsPrefix self.old.list self.new.list }
        ensures told { IfOk result (λ _. IsPrefix self.old.told self.new.list) }
        ensures version { IfOk result (λ routed. routed.version ≡ length self.new.list) }
        ensures dialled { IfOk result (λ routed. routed.dialled ≡ digits.now) }
        ensures plan { IfOk result (λ routed.
            let commands = commands_of self.new.list routed.version in
            target_of commands routed.plan ≡ Some (plan_of commands digits.now)) }
        ensures same { self.new.told ≡ self.old.told }
    {
        replace_with(&mut self.place, (&self.told, digits), route_of)
    }

    /// Takes in what its publisher told: the longer of this and what it was told before is kept,
    /// and the other is a beginning of it. From then on it reads the last of those publications or
    /// a later one. It takes no memory.
    #[tactic(auto, using(crate::proofs::Prefixes::prefix_self))]
    pub fn learn(&mut self, told: Told<J>)
        ensures same { self.new.list ≡ self.old.list }
        ensures kept { IsPrefix self.old.told self.new.told }
        ensures told { IsPrefix told self.new.told }
        ensures longer { (self.new.told ≡ self.old.told) ⊎ (self.new.told ≡ told) }
    {
        let other = told.into_front();
        if self.told.is_shorter(&other) {
            self.told = other;
        }
    }
}
