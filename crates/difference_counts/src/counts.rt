//! How many dialled digits sets have.

ghost use Rattle.std.specs.Prelude.{◌≡◌, ◌<◌, ◌^◌, slice_get, sum};

use std::marker::Model;

/// How many dialled digits each set of a difference has: a number for each place, 0 to
/// 37,289,660,931,454,747,757,856,918,508,500,060, which is how many texts of 1 to 32 of `0` to
/// `9`, `#` and `*` there are.
#[derive(Drop)]
pub struct Counts {
    numbers: Vec<u128>,
}

impl Model for Counts {
    ghost use Rattle.std.specs.Prelude.{ℕ, List, ◌<◌, ◌^◌, sum};

    ghost Value = { List ℕ };

    ghost view = { λ c. c.numbers.items };

    ghost invariant = { λ c. sum c.numbers.items < 2 ^ 127 };
}

impl Counts {
    /// These numbers.
    pub(crate) fn new(numbers: Vec<u128>) -> Counts
        requires { sum numbers.items < 2 ^ 127 }
        ensures { result ≡ numbers.items }
    {
        Counts { numbers }
    }

    /// How many dialled digits the set at a place has. None if there is no such place.
    pub fn get(&self, place: usize) -> Option<u128>
        ensures { result ≡ slice_get self.now place }
    {
        self.numbers.get(place).copied()
    }

    /// How many all sets together have.
    pub fn total(&self) -> u128
        ensures { result ≡ sum self.now }
    {
        self.numbers.iter().sum()
    }
}
