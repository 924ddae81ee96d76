//! What a configuration says of a zone.

ghost use Rattle.std.specs.Prelude.{◌≡◌};
ghost use Rattle.gk_commands.specs.Zones.{is_local_kind};

use gk_terms::Address;

/// A zone: controlled here, or of another gatekeeper. From Cisco's `zone local` and `zone remote`.
#[derive(Clone, Copy, Debug, PartialEq, Eq)]
pub enum ZoneKind {
    /// Controlled here.
    Local,
    /// Of another gatekeeper. Of several remote zones for one pattern or technology prefix, none of
    /// which is local, the one of least cost is taken, and of equal cost the one of greater
    /// priority.
    Remote {
        /// The RAS address of that gatekeeper.
        address: Address,
        /// 1 to 100; 50 if the line does not say.
        cost: u8,
        /// 1 to 100; 50 if the line does not say.
        priority: u8,
    },
}

impl ZoneKind {
    /// Whether the zone is controlled here.
    pub fn is_local(&self) -> bool
        ensures { result ≡ is_local_kind self.now }
    {
        matches!(self, ZoneKind::Local)
    }
}
