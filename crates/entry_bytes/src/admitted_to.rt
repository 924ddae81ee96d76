//! Where an admitted call leads, as it is read without its texts being tried: what is known to be
//! an entry has texts that are right.

ghost use Rattle.std.specs.Prelude.{◌≡◌, IsSome, Some};
ghost use Rattle.entry_bytes.specs.Brief.{admitted_meant};
ghost use Rattle.entry_bytes.specs.VerdictBytes.{admitted_in};

use crate::codes::destination_kind_of;
use field_bytes::{Fields, NameText};
use gk_terms::Address;
use rulings::DestinationKind;

/// Where an admitted call leads, and from which zone. The names stand in the entry.
#[derive(Drop)]
pub struct AdmittedTo<'a> {
    /// The zone of the caller.
    pub zone: NameText<'a>,
    /// What kind of destination it leads to.
    pub kind: DestinationKind,
    /// The name of the destination.
    pub name: NameText<'a>,
    /// The address of the destination.
    pub address: Address,
}

impl<'a> AdmittedTo<'a> {
    #[tactic(auto, using(crate::proofs::AdmittedToLemmas::zone_there, crate::proofs::AdmittedToLemmas::code_there, crate::proofs::AdmittedToLemmas::kind_there, crate::proofs::AdmittedToLemmas::name_there, crate::proofs::AdmittedToLemmas::address_there))]
    /// What the entry of an admission that was granted tells after its kind.
    pub fn read(fields: &mut Fields<'a>) -> AdmittedTo<'a>
        requires { IsSome (admitted_in fields.old) }
        ensures { admitted_in fields.old ≡ Some (admitted_meant result, fields.new) }
    {
        let zone = fields.known_name();
        let Some(code) = fields.byte() else {
            unreachable!();
        };
        let Some(kind) = destination_kind_of(code) else {
            unreachable!();
        };
        let name = fields.known_name();
        let Some(address) = fields.address() else {
            unreachable!();
        };
        AdmittedTo {
            zone,
            kind,
            name,
            address,
        }
    }
}
