//! Whether a call fits the limits in force. From Cisco's `bandwidth` command; the order in which
//! the sums are tried is this project's profile.

ghost use Rattle.std.specs.Prelude.{◌≡◌, ◌<◌, ◌+◌, ◌^◌, None, false, option_map, if◌then◌else◌};
ghost use Rattle.std.specs.Option.{option_copied};
ghost use Rattle.std.specs.Result.{result_err};
ghost use Rattle.gk_commands.specs.declared.commands.LimitKind.TheVariants.{Interzone};
ghost use Rattle.bandwidth.specs.declared.over.Over.TheVariants as overs;
ghost use Rattle.bandwidth.specs.Calls.{call_of, is_open, without_call};
ghost use Rattle.bandwidth.specs.Fits.{is_no_raise, over_of, tries_of};
ghost use Rattle.bandwidth.specs.Trying.{first_over, over_remotely, over_tried, part_found};
ghost use Rattle.bandwidth.specs.Use.{is_interzone, remote_of};

use crate::open_call::OpenCall;
use crate::open_calls::OpenCalls;
use crate::over::Over;
use crate::tried_zones::{TriedZones, is_above};
use compiler::Tables;
use gk_commands::LimitKind;
use gk_terms::Name;

impl OpenCalls {
    /// Whether the call fits the limits in force beside the open calls, or which sum would be the
    /// first above its limit. An open call of its number is not counted beside it, and asking for
    /// no more than that call has always fits. The sums are tried in this order: the bandwidth of
    /// the call, the total, and if the call is between two zones the interzone sum, each for the
    /// zones that the call touches, the source first; then the sum of all calls marked remote, if
    /// the call is marked as one of them. A sum that is equal to its limit fits. Takes no memory,
    /// and reads no call but the open one of that number.
    pub fn fits(&self, tables: &Tables, call: &OpenCall) -> Result<(), Over>
        ensures { result_err result ≡ over_of tables.now.commands self.now.calls call.now }
    {
        self.fits_counted(tables, call).0
    }

    /// The same, with how often an open call was looked up for it: once.
    pub fn fits_counted(&self, tables: &Tables, call: &OpenCall) -> (Result<(), Over>, u32)
        ensures fits { result_err result.0
            ≡ over_of tables.now.commands self.now.calls call.now }
        ensures reads { result.1 ≡ 1 }
    {
        let mut reads = 0;
        let held = self.read(call.number, &mut reads);
        (self.fits_beside(tables, call, held), reads)
    }

    /// The same for a caller that has looked up the open call of its number, if there is one. Reads
    /// no other.
    #[tactic(auto, unfolding(crate::specs::Fits::over_of))]
    pub fn fits_beside(
        &self,
        tables: &Tables,
        call: &OpenCall,
        held: Option<&OpenCall>,
    ) -> Result<(), Over>
        requires held { option_copied held ≡ call_of self.now.calls call.now.number }
        ensures { result_err result ≡ over_of tables.now.commands self.now.calls call.now }
    {
        if is_no_raise(held, call) {
            return Ok(());
        }
        match self.over(tables, call, held) {
            Some(over) => Err(over),
            None => Ok(()),
        }
    }

    /// The same for a call whose number no open call has; `is_open` tests that. Reads no call.
    #[tactic(auto, using(crate::proofs::CallLemmas::none_if_closed))]
    pub fn fits_new(&self, tables: &Tables, call: &OpenCall) -> Result<(), Over>
        requires fresh { is_open self.now.calls call.now.number ≡ false }
        ensures { result_err result ≡ over_of tables.now.commands self.now.calls call.now }
    {
        self.fits_beside(tables, call, None)
    }

    /// The open call of this number, counted as read. No other function reads one for a request to
    /// be tried.
    fn read(&self, number: u32, reads: &mut u32) -> Option<&OpenCall>
        requires { reads.old + 1 < 2 ^ 32 }
        ensures call { option_copied result ≡ call_of self.now.calls number }
        ensures reads { reads.new ≡ reads.old + 1 }
    {
        *reads += 1;
        self.get(number)
    }

    /// The first sum that would be above its limit with the call in the place of the one that is
    /// held.
    #[tactic(auto, using(crate::proofs::FitLemmas::in_turn))]
    fn over(&self, tables: &Tables, call: &OpenCall, held: Option<&OpenCall>) -> Option<Over>
        requires held { option_copied held ≡ call_of self.now.calls call.now.number }
        ensures { result ≡ first_over (tries_of tables.now.commands
            (without_call self.now.calls call.now.number) call.now) }
    {
        let zones = self.tried_zones(tables, call, held);
        if let Some(zone) = zones.over(LimitKind::Session) {
            return Some(Over::of(LimitKind::Session, zone));
        }
        if let Some(zone) = zones.over(LimitKind::Total) {
            return Some(Over::of(LimitKind::Total, zone));
        }
        if let Some(zone) = over_interzone(call, &zones) {
            return Some(Over::of(LimitKind::Interzone, zone));
        }
        self.over_remotely(tables, call, held)
    }

    /// The same of the sum of all calls marked as remote, if the call is one of them.
    fn over_remotely(
        &self,
        tables: &Tables,
        call: &OpenCall,
        held: Option<&OpenCall>,
    ) -> Option<Over>
        requires held { option_copied held ≡ call_of self.now.calls call.now.number }
        ensures { result ≡ over_remotely tables.now.commands
            (without_call self.now.calls call.now.number) call.now }
    {
        if call.remote {
            if is_above(self.remote_beside(call, held), tables.remote_limit()) {
                Some(Over::Remote)
            } else {
                None
            }
        } else {
            None
        }
    }

    /// The sum of all calls marked as remote with the call in the place of the one that is held.
    fn remote_beside(&self, call: &OpenCall, held: Option<&OpenCall>) -> u64
        requires held { option_copied held ≡ call_of self.now.calls call.now.number }
        ensures { result
            ≡ remote_of (without_call self.now.calls call.now.number) + call.now.units }
    {
        // So it is known that the calls are in order.
        let _count = self.len();
        self.remote() - part_in_remote(held) + u64::from(call.units.value())
    }
}

/// Whether the call asks for no more than the one that is held has.
fn is_no_raise(held: Option<&OpenCall>, call: &OpenCall) -> bool
    ensures { result ≡ is_no_raise (option_copied held.entry) call.now.units }
{
    match held {
        Some(held) => call.units.value() <= held.units.value(),
        None => false,
    }
}

/// The name of the first zone whose interzone sum would be above its limit, if the call is between
/// two zones.
fn over_interzone<'a>(call: &OpenCall, zones: &TriedZones<'a>) -> Option<&'a Name>
    ensures { option_map (λ zone. overs.Zone Interzone zone.now) result
        ≡ (if is_interzone call.now then over_tried Interzone zones.now else None) }
{
    if call.is_interzone() {
        zones.over(LimitKind::Interzone)
    } else {
        None
    }
}

/// What the call that is held counts in the sum of all calls marked as remote.
fn part_in_remote(held: Option<&OpenCall>) -> u64
    ensures { result ≡ part_found (λ call. call.remote) (option_copied held.entry) }
{
    match held {
        Some(held) => {
            if held.remote {
                u64::from(held.units.value())
            } else {
                0
            }
        }
        None => 0,
    }
}
