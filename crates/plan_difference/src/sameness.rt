//! Whether two configurations plan digits alike.

ghost use Rattle.std.specs.Prelude.{◌≡◌, ◌↔◌, List, IfSome, IsSome, Some, true};
ghost use Rattle.std.specs.List.{list_all};
ghost use Rattle.std.specs.Map.{keys_of};
ghost use Rattle.std.specs.Option.{option_copied};
ghost use Rattle.gk_commands.specs.declared.commands.Command.{Command};
ghost use Rattle.compiler.specs.Plan.{target_of, row_meant};
ghost use Rattle.compiler.specs.Priority.{entries_of};
ghost use Rattle.plan_difference.specs.Difference.{Same, SamePlan, SamePriorities, Tells};
ghost use Rattle.plan_difference.specs.Sameness.{row_in, has_same_priority};
ghost use Rattle.plan_difference.specs.Destination.{row_of_target};

use crate::destinations::{Destination, destination_of};
use compiler::{Plan, RowNo, Tables};
use gk_terms::{Address, Dialled, Name, TechPrefix};
use indexmap::IndexMap;

/// Whether both configurations plan the digits alike: to a remote zone of the same name and
/// address; to a local zone of the same name, with the same technology prefix and the same priority
/// of each gateway; to the caller's zone with the same technology prefix; or nowhere. By the
/// configurations alone: what gateways give when they register is not in a plan.
pub(crate) fn is_same_plan(old: &Tables, new: &Tables, digits: &Dialled) -> bool
    ensures { Tells result (SamePlan old.now.commands new.now.commands digits.now) }
{
    is_same(old, &old.plan(digits), new, &new.plan(digits))
}

/// Whether two plans, each of its tables, are the same. A gateway that one of them does not name
/// has priority 5 in it, so that to name it with 5 makes no difference.
pub fn is_same(old: &Tables, plan: &Plan, new: &Tables, other: &Plan) -> bool
    requires old { IsSome (target_of old.now.commands plan.now) }
    requires new { IsSome (target_of new.now.commands other.now) }
    ensures { IfSome (target_of old.now.commands plan.now) (λ target.
        IfSome (target_of new.now.commands other.now) (λ other_target.
        Tells result (Same old.now.commands target new.now.commands other_target))) }
{
    if !is_same_destination(&destination_of(old, plan), &destination_of(new, other)) {
        return false;
    }
    are_same_priorities(old, &row_of(plan), new, &row_of(other))
}

/// Whether two destinations are the same.
fn is_same_destination(destination: &Destination, other: &Destination) -> bool
    ensures { (result ≡ true) ↔ (destination.now ≡ other.now) }
{
    if !is_same_zone(&destination.zone, &other.zone) {
        return false;
    }
    if !is_same_address(&destination.address, &other.address) {
        return false;
    }
    if !is_same_technology(&destination.technology, &other.technology) {
        return false;
    }
    is_same_refusal(destination.refused, other.refused)
}

/// Whether two zones, if there are any, are the same.
fn is_same_zone(zone: &Option<Name>, other: &Option<Name>) -> bool
    ensures { (result ≡ true) ↔ (zone.now ≡ other.now) }
{
    *zone == *other
}

/// Whether two addresses, if there are any, are the same.
fn is_same_address(address: &Option<Address>, other: &Option<Address>) -> bool
    ensures { (result ≡ true) ↔ (address.now ≡ other.now) }
{
    *address == *other
}

/// Whether two technology prefixes, if there are any, are the same.
pub(crate) fn is_same_technology(
    technology: &Option<TechPrefix>,
    other: &Option<TechPrefix>,
) -> bool
    ensures { (result ≡ true) ↔ (technology.now ≡ other.now) }
{
    *technology == *other
}

/// Whether both are refused, or neither.
fn is_same_refusal(refused: bool, other: bool) -> bool
    ensures { (result ≡ true) ↔ (refused ≡ other) }
{
    refused == other
}

/// The row whose gateways a plan asks.
fn row_of(plan: &Plan) -> Option<RowNo>
    ensures { (commands : List Command) → IfSome (target_of commands plan.now) (λ target.
        row_meant commands result ≡ Some (row_of_target target)) }
{
    match plan {
        Plan::Local { row, .. } => *row,
        _ => None,
    }
}

/// Whether each gateway has the same priority for two rows, each of its tables.
fn are_same_priorities(
    old: &Tables,
    row: &Option<RowNo>,
    new: &Tables,
    other: &Option<RowNo>,
) -> bool
    requires old { IsSome (row_meant old.now.commands row.now) }
    requires new { IsSome (row_meant new.now.commands other.now) }
    ensures { Tells result (SamePriorities
        old.now.commands (row_in old.now.commands row.now)
        new.now.commands (row_in new.now.commands other.now)) }
{
    if !agree_on(old.gateways(*row), old, row, new, other) {
        return false;
    }
    agree_on(new.gateways(*other), old, row, new, other)
}

/// Whether these gateways have the same priority for two rows, each of its tables; so if there are
/// none.
fn agree_on(
    gateways: Option<&IndexMap<Name, u8>>,
    old: &Tables,
    row: &Option<RowNo>,
    new: &Tables,
    other: &Option<RowNo>,
) -> bool
    requires old { IsSome (row_meant old.now.commands row.now) }
    requires new { IsSome (row_meant new.now.commands other.now) }
    ensures { result ≡ list_all (has_same_priority
        old.now.commands (row_in old.now.commands row.now)
        new.now.commands (row_in new.now.commands other.now))
        (keys_of (entries_of (option_copied gateways.entry))) }
{
    match gateways {
        Some(gateways) => agree_on_all(gateways, old, row, new, other),
        None => true,
    }
}

/// The same of gateways that are named.
fn agree_on_all(
    gateways: &IndexMap<Name, u8>,
    old: &Tables,
    row: &Option<RowNo>,
    new: &Tables,
    other: &Option<RowNo>,
) -> bool
    requires old { IsSome (row_meant old.now.commands row.now) }
    requires new { IsSome (row_meant new.now.commands other.now) }
    ensures { result ≡ list_all (has_same_priority
        old.now.commands (row_in old.now.commands row.now)
        new.now.commands (row_in new.now.commands other.now)) (keys_of gateways.now.entries) }
{
    gateways
        .keys()
        .all(|gateway| has_same_priority(old, row, new, other, gateway))
}

/// Whether a gateway has the same priority for two rows, each of its tables.
fn has_same_priority(
    old: &Tables,
    row: &Option<RowNo>,
    new: &Tables,
    other: &Option<RowNo>,
    gateway: &Name,
) -> bool
    requires old { IsSome (row_meant old.now.commands row.now) }
    requires new { IsSome (row_meant new.now.commands other.now) }
    ensures { result ≡ has_same_priority
        old.now.commands (row_in old.now.commands row.now)
        new.now.commands (row_in new.now.commands other.now) gateway.now }
{
    old.priority(*row, gateway) == new.priority(*other, gateway)
}
