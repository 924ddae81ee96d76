//! One zone picked from several: the first local one, else the remote one of least cost, of these
//! the one of greatest priority, and of these the first. This project's profile.

ghost use Rattle.std.specs.Prelude.{◌≡◌, ◌≤◌, length, Some};
ghost use Rattle.gk_terms.specs.declared.limits.TheConstants.{MOST_ZONES};
ghost use Rattle.compiler.specs.Pick.{is_preferred, is_option_preferred};
ghost use Rattle.compiler.specs.TablesIndex.{better_in, best_after};

use crate::plans::ZoneNo;
use crate::zone_table::{kind_at, number_of};
use gk_commands::{KeptName, ZoneKind};
use gk_terms::Name;
use indexmap::IndexMap;

/// The better of the best zone so far and one more, which is taken only if it is preferred.
pub(crate) fn better(zones: &IndexMap<Name, ZoneKind>, best: Option<ZoneNo>, next: ZoneNo) -> ZoneNo
    ensures { Some result ≡ better_in zones.now.entries best next }
{
    match best {
        Some(best) if !is_option_preferred(kind_at(zones, next), kind_at(zones, best)) => best,
        _ => next,
    }
}

/// The best of some names, after the best zone so far.
pub(crate) fn best_after(
    zones: &IndexMap<Name, ZoneKind>,
    best: Option<ZoneNo>,
    names: &[KeptName],
) -> Option<ZoneNo>
    requires { length zones.now.entries ≤ MOST_ZONES }
    ensures { result ≡ best_after zones.now.entries best names.now }
{
    let mut best = best;
    for name in names {
        best = Some(better(zones, best, number_of(zones, name)));
    }
    best
}

/// Whether a zone is taken before another, whatever their order; one that is not declared is not.
fn is_option_preferred(kind: Option<ZoneKind>, other: Option<ZoneKind>) -> bool
    ensures { result ≡ is_option_preferred kind other }
{
    match (kind, other) {
        (None, _) => false,
        (Some(_), None) => true,
        (Some(kind), Some(other)) => is_preferred(kind, other),
    }
}

/// Whether a zone is taken before another, whatever their order.
fn is_preferred(kind: ZoneKind, other: ZoneKind) -> bool
    ensures { result ≡ is_preferred kind other }
{
    match (kind, other) {
        (_, ZoneKind::Local) => false,
        (ZoneKind::Local, ZoneKind::Remote { .. }) => true,
        (
            ZoneKind::Remote { cost, priority, .. },
            ZoneKind::Remote {
                cost: other_cost,
                priority: other_priority,
                ..
            },
        ) => cost < other_cost || (cost == other_cost && other_priority < priority),
    }
}
