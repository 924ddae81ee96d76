//! How many digits the sets that have changed have together.

ghost use Rattle.std.specs.Prelude.{◌≡◌, IfSome, slice_get, sum};
ghost use Rattle.plan_difference.specs.Entries.{AreChanged};
ghost use Rattle.difference_counts.specs.Counted.{numbers_in};
ghost use Rattle.difference_report.specs.Totals.{number_if};

use crate::numbers::number_at;
use compiler::Tables;
use difference_counts::Counts;
use plan_difference::Sets;

/// How many digits those of these sets that have changed have together.
pub(crate) fn total_of(
    old: &Tables,
    new: &Tables,
    sets: &Sets,
    counts: &Counts,
    changed: &Sets,
) -> u128
    requires counts { counts.now ≡ numbers_in old.now.commands new.now.commands sets.now }
    requires part { AreChanged old.now.commands new.now.commands sets.now changed.now }
    ensures { result ≡ sum (numbers_in old.now.commands new.now.commands changed.now) }
{
    // So it is known that all numbers together fit.
    let _all = counts.total();
    let mut total = 0;
    for place in 0..sets.len() {
        total += number_if(old, new, sets, counts, changed, place);
    }
    total
}

/// How many digits the set at a place has, if it has changed; else none.
fn number_if(
    old: &Tables,
    new: &Tables,
    sets: &Sets,
    counts: &Counts,
    changed: &Sets,
    place: usize,
) -> u128
    requires counts { counts.now ≡ numbers_in old.now.commands new.now.commands sets.now }
    ensures { IfSome (slice_get sets.now place) (λ entry. result
        ≡ number_if old.now.commands new.now.commands changed.now entry) }
{
    match sets.get(place) {
        Some((set, _)) if changed.has(set) => number_at(old, new, sets, counts, place),
        _ => 0,
    }
}
