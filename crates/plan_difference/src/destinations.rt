//! Where a plan leads, in words that two configurations have in common.

ghost use Rattle.std.specs.Prelude.{◌≡◌, ◌<◌, IfSome, IsSome, Some, length, false};
ghost use Rattle.gk_commands.specs.Zones.{zones_of};
ghost use Rattle.compiler.specs.Plan.{target_of};
ghost use Rattle.compiler.specs.Zones.{view_at};
ghost use Rattle.plan_difference.specs.Destination.{destination_of};

use compiler::{Plan, Tables, ZoneNo};
use gk_terms::{Address, Name, TechPrefix};

/// Where a configuration plans digits to, as far as it is a place that another configuration may
/// name too. Gateways and their priorities are not in it.
#[derive(Clone, Copy, Debug, PartialEq, Eq)]
pub struct Destination {
    /// The target zone; none if it is the caller's own, or nowhere.
    pub zone: Option<Name>,
    /// The RAS address of its gatekeeper, if it is a zone of another one.
    pub address: Option<Address>,
    /// The technology prefix that is looked for in a local zone or in the caller's.
    pub technology: Option<TechPrefix>,
    /// Whether the digits are refused, since no zone prefix matches them.
    pub refused: bool,
}

/// The destination of a plan of these tables.
pub fn destination_of(tables: &Tables, plan: &Plan) -> Destination
    requires { IsSome (target_of tables.now.commands plan.now) }
    ensures { IfSome (target_of tables.now.commands plan.now)
        (λ target. result ≡ destination_of target) }
{
    match plan {
        Plan::Remote(zone) => in_zone(tables, *zone, None),
        Plan::Local {
            zone,
            technology,
            ..
        } => in_zone(tables, *zone, *technology),
        Plan::Caller { technology } => Destination {
            zone: None,
            address: None,
            technology: *technology,
            refused: false,
        },
        Plan::UnknownPrefix => Destination {
            zone: None,
            address: None,
            technology: None,
            refused: true,
        },
    }
}

/// The destination in the zone of a number.
fn in_zone(tables: &Tables, zone: ZoneNo, technology: Option<TechPrefix>) -> Destination
    requires { zone < length (zones_of tables.now.commands) }
    ensures { IfSome (view_at tables.now.commands zone) (λ view. result ≡ record {
      zone = Some view.name;
      address = view.address;
      technology = technology;
      refused = false;
    }) }
{
    let view = tables.zone(zone);
    Destination {
        zone: Some(view.name),
        address: view.address,
        technology,
        refused: false,
    }
}
