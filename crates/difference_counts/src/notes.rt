//! Numbers grow.

ghost use Rattle.std.specs.Prelude.{◌+◌, ◌*◌, ◌^◌, ◌<◌, ◌≤◌, sum};
ghost use Rattle.difference_counts.specs.Numbers.{one_if};
ghost use Rattle.difference_counts.specs.Places.{is_just};
ghost use Rattle.difference_counts.specs.Walk.{GrewBy};

/// Adds so many to the number at a place, if there is one.
pub(crate) fn note(numbers: &mut [u128], place: Option<usize>, count: u128)
    requires { sum numbers.old + count < 2 ^ 127 }
    ensures grew { GrewBy numbers.old numbers.new (λ at. count * one_if (is_just at place)) }
    ensures bounded { sum numbers.new ≤ sum numbers.old + count }
{
    let Some(place) = place else {
        return;
    };
    if place < numbers.len() {
        numbers[place] += count;
    }
}
