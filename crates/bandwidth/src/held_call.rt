//! An open call in a place of its own.

ghost use Rattle.std.specs.Prelude.{◌≡◌, IfOk};

use crate::open_call::OpenCall;
use gk_terms::Units;
use std::alloc::{AllocError, Global};
use std::marker::Model;

/// An open call in a place of its own, so that a map of calls moves an address and never a call.
/// A contract sees the call.
#[derive(Drop)]
pub struct HeldCall {
    call: Box<OpenCall>,
}

impl Model for HeldCall {
    ghost use Rattle.bandwidth.specs.declared.open_call.OpenCall.{OpenCall};

    ghost Value = { OpenCall };

    ghost view = { λ h. h.call.value };
}

impl HeldCall {
    /// A copy of the call. `AllocError` comes only if memory runs out.
    pub fn new(alloc: Global, call: &OpenCall) -> Result<HeldCall, AllocError>
        ensures { IfOk result (λ held. held ≡ call.now) }
    {
        let call = Box::new(alloc, *call)?;
        Ok(HeldCall { call })
    }

    /// The call.
    pub fn call(&self) -> &OpenCall
        ensures { result.now ≡ self.now }
    {
        &self.call
    }

    /// Gives the call another bandwidth.
    pub fn set_units(&mut self, units: Units)
        ensures { self.new ≡ record self.old { units = units } }
    {
        self.call.units = units;
    }
}
