//! The admissions of a snapshot.

ghost use Rattle.std.specs.Prelude.{◌≡◌, ◌+◌, if◌then◌else◌, ◌↔◌, true, Some, ◌<◌, ◌≤◌, ◌^◌, ◌++◌, ◌∷◌, [], IsSome, length, slice_get, OnOk, option_map, option_and_then};
ghost use Rattle.std.specs.List.{cons_option};
ghost use Rattle.std.specs.Option.{option_copied};
ghost use Rattle.rulings.specs.Lent.{route_meant};
ghost use Rattle.call_rows.specs.KeptAdmission.{admission_meant, is_short};

use crate::held::{HeldAdmission, WholeAdmission};
use crate::kept_admission::KeptAdmission;
use crate::rows::NumberedAdmission;
use gk_terms::{Dialled, Name};
use rulings::LentRoute;
use std::alloc::{AllocError, Global};
use std::marker::Model;

/// Admissions in order. A contract sees them, how many of them stand whole, and for how many
/// further ones there is room.
///
/// `kept` has each of them, in few bytes if its names are short, and else as a place in `aside`.
#[derive(Drop)]
pub struct AdmissionList {
    kept: Vec<HeldAdmission>,
    aside: Vec<WholeAdmission>,
}

impl Model for AdmissionList {
    ghost use Rattle.std.specs.Prelude.{◌-◌, min, vec_len, vec_capacity};
    ghost use Rattle.call_rows.specs.AdmissionList.{AdmissionListParts};
    ghost use Rattle.call_rows.specs.KeptAdmission.{AreHeld, admissions_told};

    ghost Value = { AdmissionListParts };

    ghost view = { λ l. record {
      items = admissions_told l.kept.items l.aside.items;
      whole = vec_len l.aside;
      room = min (vec_capacity l.kept - vec_len l.kept) (vec_capacity l.aside - vec_len l.aside);
    } };

    ghost invariant = { λ l. AreHeld l.kept.items l.aside.items
        (admissions_told l.kept.items l.aside.items) };
}

impl AdmissionList {
    /// No admissions. Takes no memory.
    pub fn new(alloc: Global) -> AdmissionList
        ensures items { result.items ≡ [] }
        ensures whole { result.whole ≡ 0 }
    {
        AdmissionList {
            kept: Vec::new(alloc),
            aside: Vec::new(alloc),
        }
    }

    /// How many admissions there are.
    pub fn len(&self) -> usize
        ensures { result ≡ length self.now.items }
    {
        self.kept.len()
    }

    /// The admission at this place, from 0.
    pub fn get(&self, place: usize) -> Option<NumberedAdmission>
        ensures { result ≡ slice_get self.now.items place }
    {
        match kept_at(&self.kept, place) {
            Some(held) => held.kept().admission(&self.aside),
            None => None,
        }
    }

    /// The number of the call of the admission at this place, from 0.
    pub fn call(&self, place: usize) -> Option<u32>
        ensures { result ≡ option_map (λ a. a.asked.call) (slice_get self.now.items place) }
    {
        match kept_at(&self.kept, place) {
            Some(held) => held.kept().call(&self.aside),
            None => None,
        }
    }

    /// The zone of the endpoint that asked for the admission at this place, from 0.
    pub fn zone(&self, place: usize) -> Option<Name>
        ensures { result ≡ option_map (λ a. a.asked.zone) (slice_get self.now.items place) }
    {
        match kept_at(&self.kept, place) {
            Some(held) => held.kept().zone(&self.aside),
            None => None,
        }
    }

    /// What was dialled for the admission at this place, from 0; none of an answer.
    pub fn digits(&self, place: usize) -> Option<Dialled>
        ensures { result ≡ option_and_then (λ a. a.asked.digits) (slice_get self.now.items place) }
    {
        match kept_at(&self.kept, place) {
            Some(held) => held.kept().digits(&self.aside),
            None => None,
        }
    }

    /// Whether the digits of the admission at this place, from 0, led to this route.
    pub fn has_route(&self, place: usize, route: &LentRoute<'_>) -> bool
        ensures { (result ≡ true)
            ↔ (option_map (λ a. a.asked.route) (slice_get self.now.items place)
            ≡ Some (route_meant route.now)) }
    {
        match kept_at(&self.kept, place) {
            Some(held) => held.kept().has_route(&self.aside, route),
            None => false,
        }
    }

    /// Makes room for one more. If memory runs out the admissions stay as they are.
    pub fn reserve(&mut self) -> Result<(), AllocError>
        ensures items { self.new.items ≡ self.old.items }
        ensures whole { self.new.whole ≡ self.old.whole }
        ensures ok { OnOk result (1 ≤ self.new.room) }
    {
        self.kept.reserve(1)?;
        self.aside.reserve(1)?;
        Ok(())
    }

    /// Puts an admission at the end, in room that was reserved; whole, if a name in it is long.
    /// Takes no memory.
    pub fn push(&mut self, admission: &NumberedAdmission)
        requires room { 1 ≤ self.old.room }
        requires few { length self.old.items < 2 ^ 32 }
        ensures items { self.new.items ≡ self.old.items ++ admission.now ∷ [] }
        ensures whole { self.new.whole
            ≡ self.old.whole + (if is_short admission.now then 0 else 1) }
    {
        match KeptAdmission::of(admission) {
            Some(kept) => self.push_short(&kept),
            None => self.push_aside(admission),
        }
    }

    /// Puts one in few bytes.
    fn push_short(&mut self, kept: &KeptAdmission)
        requires room { 1 ≤ self.old.room }
        requires meant { IsSome (admission_meant [] kept.now) }
        ensures items { self.new.items
            ≡ self.old.items ++ cons_option (admission_meant [] kept.now) [] }
        ensures whole { self.new.whole ≡ self.old.whole }
    {
        self.kept.push_reserved(HeldAdmission::of(kept));
    }

    /// Puts one whole.
    fn push_aside(&mut self, admission: &NumberedAdmission)
        requires room { 1 ≤ self.old.room }
        requires few { length self.old.items < 2 ^ 32 }
        ensures items { self.new.items ≡ self.old.items ++ admission.now ∷ [] }
        ensures whole { self.new.whole ≡ self.old.whole + 1 }
    {
        let place = self.aside.len() as u32;
        self.aside.push_reserved(WholeAdmission::of(admission));
        self.kept
            .push_reserved(HeldAdmission::of(&KeptAdmission::Aside { place }));
    }
}

/// The admission in few bytes at this place, from 0.
fn kept_at(kept: &[HeldAdmission], place: usize) -> Option<&HeldAdmission>
    ensures { option_copied result ≡ slice_get kept.now place }
{
    kept.get(place)
}
