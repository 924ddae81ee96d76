//! The number of an endpoint, as the key of a map.

ghost use Rattle.std.specs.Prelude.{◌≡◌, ◌≤◌, nat_eq, refl};
ghost use Rattle.std.specs.Cmp.Rules.{comparing};
ghost use Rattle.std.specs.Cmp.{partial_order_from_own_ties};
ghost use Rattle.std.specs.Ordering.{nat_cmp, as_partial_cmp};
ghost use Rattle.std.proofs.Common.{rules};

use std::cmp::Ordering;
use std::marker::Model;

/// The number of an endpoint, as the key of a map. A contract sees the number. A map goes over the
/// keys of a node for as long as the number that it looks for is greater, so the order asks for
/// that first, and for the rest in a call of its own: the compiler then jumps at each key, where it
/// would else compute the order as a value and look at that.
#[derive(Clone, Copy)]
pub struct EndpointNumber {
    pub number: u32,
}

impl Model for EndpointNumber {
    ghost use Rattle.std.specs.Prelude.{ℕ};

    ghost Value = { ℕ };

    ghost view = { λ n. n.number };

    ghost inverse = { λ number. record { number = number } };
}

impl PartialEq for EndpointNumber {
    ghost eq = { nat_eq };

    ghost laws = { Prim.search (comparing, rules) };

    fn eq(&self, other: &Self) -> bool {
        self.number == other.number
    }
}

impl Eq for EndpointNumber {
    ghost laws = { Prim.search (comparing, rules) };
}

impl PartialOrd for EndpointNumber {
    ghost partial_cmp = { as_partial_cmp nat_cmp };

    ghost laws = { partial_order_from_own_ties (Prim.search (comparing, rules))
        (Prim.search (comparing, rules)) };

    fn partial_cmp(&self, other: &Self) -> Option<Ordering> {
        Some(self.cmp(other))
    }
}

impl Ord for EndpointNumber {
    ghost cmp = { nat_cmp };

    ghost total = { Prim.search (comparing, rules) };

    ghost matches_partial_cmp = { λ x y. refl };

    ghost matches_eq = { Prim.search (comparing, rules) };

    fn cmp(&self, other: &Self) -> Ordering {
        if self.number > other.number {
            Ordering::Greater
        } else {
            equal_or_less(self.number, other.number)
        }
    }
}

/// How a number that is no greater than another stands to it.
#[inline(never)]
fn equal_or_less(number: u32, other: u32) -> Ordering
    requires { number ≤ other }
    ensures { result ≡ nat_cmp number other }
{
    if number == other {
        Ordering::Equal
    } else {
        Ordering::Less
    }
}
