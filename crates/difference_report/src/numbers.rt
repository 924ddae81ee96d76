//! How many digits the sets of a report have.

ghost use Rattle.std.specs.Prelude.{◌≡◌, IfSome, slice_get};
ghost use Rattle.difference_counts.specs.Counted.{number_in, numbers_in};

use compiler::Tables;
use difference_counts::Counts;
use plan_difference::Sets;

/// How many digits the set at a place has.
pub(crate) fn number_at(
    _old: &Tables,
    _new: &Tables,
    _listed: &Sets,
    counts: &Counts,
    place: usize,
) -> u128
    requires { counts.now ≡ numbers_in _old.now.commands _new.now.commands _listed.now }
    ensures { IfSome (slice_get _listed.now place) (λ entry.
        result ≡ number_in _old.now.commands _new.now.commands entry.0) }
{
    counts.get(place).unwrap_or(0)
}
