//! A change of one call, as it counts in a running sum.

ghost use Rattle.std.specs.Prelude.{◌≡◌, ◌<◌, ◌^◌};
ghost use Rattle.bandwidth.specs.Sums.{MayCount, MaySum, count_after, once, sum_after, units_if_open};

use gk_terms::Units;

/// A change of one call: the bandwidth that it has before and after, or nothing while it is not
/// open.
#[derive(Clone, Copy)]
pub struct Step {
    pub before: Option<Units>,
    pub after: Option<Units>,
}

impl Step {
    /// How many calls there are after the step.
    pub fn count_after(&self, count: usize) -> usize
        requires { MayCount self.now count }
        ensures { result ≡ count_after self.now count }
    {
        count - once(self.before) + once(self.after)
    }

    /// The sum of their bandwidth after the step.
    pub fn sum_after(&self, sum: u64) -> u64
        requires { MaySum self.now sum }
        ensures { result ≡ sum_after self.now sum }
    {
        sum - units_if_open(self.before) + units_if_open(self.after)
    }
}

/// A call counts once while it is open.
fn once(units: Option<Units>) -> usize
    ensures { result ≡ once units }
{
    match units {
        Some(_) => 1,
        None => 0,
    }
}

/// The bandwidth of a call while it is open.
fn units_if_open(units: Option<Units>) -> u64
    ensures value { result ≡ units_if_open units }
    ensures small { result < 2 ^ 32 }
{
    match units {
        Some(units) => u64::from(units.value()),
        None => 0,
    }
}
