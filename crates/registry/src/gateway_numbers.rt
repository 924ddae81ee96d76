//! The numbers of gateways, in order.

ghost use Rattle.std.specs.Prelude.{◌≡◌, [], true, false, IfOk, OnOk, OnErr, MatchOption};
ghost use Rattle.registry.specs.Served.{HasNoneFrom, IsLeastFrom, PutsNumber, has_gateway_number, lists_none};

use crate::endpoint_number::EndpointNumber;
use std::alloc::{AllocError, Global};
use std::collections::BTreeSet;
use std::marker::Model;

/// The numbers of gateways, each once and in order. A contract sees the list.
#[derive(Drop)]
pub struct GatewayNumbers {
    numbers: BTreeSet<EndpointNumber>,
}

impl Model for GatewayNumbers {
    ghost use Rattle.std.specs.Prelude.{ℕ, List};

    ghost Value = { List ℕ };

    ghost view = { λ n. n.numbers.keys };
}

impl GatewayNumbers {
    /// This one number. `AllocError` comes only if memory runs out.
    pub fn of(number: u32, alloc: Global) -> Result<GatewayNumbers, AllocError>
        ensures { IfOk result (λ numbers. PutsNumber [] numbers number true) }
    {
        let mut numbers = GatewayNumbers {
            numbers: BTreeSet::new(alloc),
        };
        numbers.add(number)?;
        Ok(numbers)
    }

    /// The least number from this one on.
    pub fn next_from(&self, from: u32) -> Option<u32>
        ensures { MatchOption result (HasNoneFrom (has_gateway_number self.now) from)
            (IsLeastFrom (has_gateway_number self.now) from) }
    {
        let from = EndpointNumber { number: from };
        let next = self.numbers.range(from..).next()?;
        Some(next.number)
    }

    /// Whether there is no number.
    pub fn is_empty(&self) -> bool
        ensures { result ≡ lists_none self.now }
    {
        self.numbers.is_empty()
    }

    /// Adds a number. If memory runs out nothing has changed.
    pub fn add(&mut self, number: u32) -> Result<(), AllocError>
        ensures ok { OnOk result (PutsNumber self.old self.new number true) }
        ensures err { OnErr result (self.new ≡ self.old) }
    {
        match self.numbers.insert(EndpointNumber { number }) {
            Ok(_) => Ok(()),
            Err(_) => Err(AllocError),
        }
    }

    /// Takes out a number, if it is there.
    pub fn take_out(&mut self, number: u32)
        ensures { PutsNumber self.old self.new number false }
    {
        let _ = self.numbers.remove(&EndpointNumber { number });
    }
}
