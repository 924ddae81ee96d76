//! The zones that a call touches, and which of their sums would be above their limits.

ghost use Rattle.std.specs.Prelude.{◌≡◌, ◌&&◌, option_map, if◌then◌else◌};
ghost use Rattle.std.specs.Option.{option_copied};
ghost use Rattle.gk_commands.specs.declared.commands.LimitKind.TheVariants.{Total, Interzone};
ghost use Rattle.bandwidth.specs.declared.over.Over.TheVariants as overs;
ghost use Rattle.bandwidth.specs.Calls.{call_of, without_call};
ghost use Rattle.bandwidth.specs.Fits.{is_above};
ghost use Rattle.bandwidth.specs.Trying.{AreTried, IsTried, over_named, over_tried, part_found, sum_beside};
ghost use Rattle.bandwidth.specs.Use.{is_interzone, touches};

use crate::open_call::OpenCall;
use crate::open_calls::OpenCalls;
use compiler::Tables;
use gk_commands::LimitKind;
use gk_terms::Name;

/// A zone, and which of its sums would be above their limits.
#[derive(Clone, Copy)]
pub(crate) struct TriedZone<'a> {
    /// The name of the zone.
    pub name: &'a Name,
    /// Whether the bandwidth of the call would be above the limit of one call.
    pub session: bool,
    /// Whether the total would be above its limit.
    pub total: bool,
    /// Whether the interzone sum would be above its limit, if the call were between two zones.
    pub interzone: bool,
}

impl<'a> TriedZone<'a> {
    /// The name of the zone, if its sum of this kind would be above its limit.
    fn over(&self, kind: LimitKind) -> Option<&'a Name>
        ensures { option_map (λ zone. overs.Zone kind zone.now) result ≡ over_named kind self.now }
    {
        let is_over = match kind {
            LimitKind::Session => self.session,
            LimitKind::Total => self.total,
            LimitKind::Interzone => self.interzone,
        };
        if is_over { Some(self.name) } else { None }
    }
}

/// The zones that a call touches, the source first.
#[derive(Clone, Copy)]
pub(crate) struct TriedZones<'a> {
    pub first: TriedZone<'a>,
    pub second: Option<TriedZone<'a>>,
}

impl<'a> TriedZones<'a> {
    /// The name of the first zone whose sum of this kind would be above its limit.
    pub fn over(&self, kind: LimitKind) -> Option<&'a Name>
        ensures { option_map (λ zone. overs.Zone kind zone.now) result ≡ over_tried kind self.now }
    {
        if let Some(zone) = self.first.over(kind) {
            return Some(zone);
        }
        match &self.second {
            Some(second) => second.over(kind),
            None => None,
        }
    }
}

/// Sums of a zone, or what one call counts in them, in units of 100 bit/s.
#[derive(Clone, Copy)]
struct ZoneSums {
    total: u64,
    interzone: u64,
}

impl OpenCalls {
    /// The zones that the call touches, each with the call in the place of the one that is held.
    pub(crate) fn tried_zones<'a>(
        &self,
        tables: &Tables,
        call: &'a OpenCall,
        held: Option<&OpenCall>,
    ) -> TriedZones<'a>
        requires held { option_copied held ≡ call_of self.now.calls call.now.number }
        ensures { AreTried tables.now.commands
            (without_call self.now.calls call.now.number) call.now result }
    {
        let zones = call.zones_touched();
        TriedZones {
            first: self.tried(tables, zones.first, call, held),
            second: match zones.second {
                Some(second) => Some(self.tried(tables, second, call, held)),
                None => None,
            },
        }
    }

    /// The same for one zone. What is used of it is looked up only if a limit asks for it.
    fn tried<'a>(
        &self,
        tables: &Tables,
        zone: &'a Name,
        call: &OpenCall,
        held: Option<&OpenCall>,
    ) -> TriedZone<'a>
        requires held { option_copied held ≡ call_of self.now.calls call.now.number }
        ensures name { result.name.now ≡ zone.now }
        ensures tried { IsTried tables.now.commands
            (without_call self.now.calls call.now.number) call.now result }
    {
        let limits = tables.limits(zone);
        let session = is_above(u64::from(call.units.value()), limits.session);
        if limits.total.is_none() && limits.interzone.is_none() {
            return TriedZone {
                name: zone,
                session,
                total: false,
                interzone: false,
            };
        }
        let sums = self.sums_beside(zone, call, held);
        TriedZone {
            name: zone,
            session,
            total: is_above(sums.total, limits.total),
            interzone: is_above(sums.interzone, limits.interzone),
        }
    }

    /// The sums of the zone with the call in the place of the one that is held.
    fn sums_beside(&self, zone: &Name, call: &OpenCall, held: Option<&OpenCall>) -> ZoneSums
        requires held { option_copied held ≡ call_of self.now.calls call.now.number }
        ensures total { result.total
            ≡ sum_beside Total (without_call self.now.calls call.now.number) call.now zone.now }
        ensures interzone { result.interzone
            ≡ sum_beside Interzone (without_call self.now.calls call.now.number) call.now zone.now }
    {
        // So it is known that the calls are in order.
        let _count = self.len();
        let units = u64::from(call.units.value());
        let used = self.used(zone);
        let parts = parts_held(held, zone);
        ZoneSums {
            total: used.total - parts.total + units,
            interzone: used.interzone - parts.interzone + units,
        }
    }
}

/// Whether the sum is above the limit, if there is one.
pub(crate) fn is_above(sum: u64, limit: Option<u64>) -> bool
    ensures { result ≡ is_above sum limit }
{
    match limit {
        Some(limit) => limit < sum,
        None => false,
    }
}

/// What the call that is held counts in the sums of the zone.
fn parts_held(held: Option<&OpenCall>, zone: &Name) -> ZoneSums
    ensures total { result.total ≡ part_found (touches zone.now) (option_copied held.entry) }
    ensures interzone { result.interzone
        ≡ part_found (λ call. touches zone.now call && is_interzone call)
        (option_copied held.entry) }
{
    match held {
        Some(held) => parts_of(held, zone),
        None => ZoneSums {
            total: 0,
            interzone: 0,
        },
    }
}

/// What a call counts in the sums of the zone.
fn parts_of(call: &OpenCall, zone: &Name) -> ZoneSums
    ensures total { result.total ≡ (if touches zone.now call.now then call.now.units else 0) }
    ensures interzone { result.interzone
        ≡ (if touches zone.now call.now && is_interzone call.now then call.now.units else 0) }
{
    let units = if call.touches(zone) {
        u64::from(call.units.value())
    } else {
        0
    };
    ZoneSums {
        total: units,
        interzone: if call.is_interzone() { units } else { 0 },
    }
}
