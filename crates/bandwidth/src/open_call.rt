//! A call that is open, and the zones that it touches.

ghost use Rattle.std.specs.Prelude.{◌≡◌, false, IfSome, bytes_eq};
ghost use Rattle.bandwidth.specs.Use.{zones_touched, is_interzone, touches};
ghost use Rattle.bandwidth.specs.Sums.{zones_in};

use gk_terms::{Name, Units};

/// A call that was admitted, or answered if it comes from another gatekeeper, and not yet released.
/// The numbers stand before the names, so that a request that changes or closes a call usually
/// finds them and the owner in one cache line.
#[derive(Clone, Copy, Debug, PartialEq, Eq)]
pub struct OpenCall {
    /// The number by which the call's requests name it, 1 to 4294967295. No two open calls share
    /// it.
    pub number: u32,
    /// The bandwidth of the call, in units of 100 bit/s, 0 to 4294967295.
    pub units: Units,
    /// Whether it is a call to or from another gatekeeper: its target zone was a remote one when it
    /// was admitted, or it has no source.
    pub remote: bool,
    /// The ID of the endpoint that was admitted, or that answers a call from another gatekeeper.
    pub owner: Name,
    /// The zone of that endpoint, the caller's; nothing for a call that comes from a zone of another
    /// gatekeeper.
    pub source: Option<Name>,
    /// The zone to which the call was routed, or that of the endpoint that answers it.
    pub target: Name,
    /// The ID of the gateway or terminal to which the call was admitted, if it was to one.
    pub answerer: Option<Name>,
}

/// The zones that a call touches, the source first, each once.
#[derive(Clone, Copy)]
pub struct ZonesTouched<'a> {
    pub first: &'a Name,
    pub second: Option<&'a Name>,
}

impl OpenCall {
    /// The zones that the call touches, the source first, each once.
    pub fn zones_touched(&self) -> ZonesTouched<'_>
        ensures zones { zones_touched self.now ≡ zones_in result }
        ensures once { IfSome result.second (λ second.
            bytes_eq result.first.now second.now ≡ false) }
    {
        match &self.source {
            Some(source) => ZonesTouched {
                first: source,
                second: if *source == self.target {
                    None
                } else {
                    Some(&self.target)
                },
            },
            None => ZonesTouched {
                first: &self.target,
                second: None,
            },
        }
    }

    /// Whether the call is between two zones.
    pub fn is_interzone(&self) -> bool
        ensures { result ≡ is_interzone self.now }
    {
        match &self.source {
            Some(source) => *source != self.target,
            None => true,
        }
    }

    /// Whether the call touches the zone.
    pub fn touches(&self, zone: &Name) -> bool
        ensures { result ≡ touches zone.now self.now }
    {
        let zones = self.zones_touched();
        match zones.second {
            Some(second) => *zone == *zones.first || *zone == *second,
            None => *zone == *zones.first,
        }
    }
}
