//! What an event lacks by a count: of endpoints, of calls, of reloads, or of the entries of the
//! record.

ghost use Rattle.std.specs.Prelude.{◌≡◌};
ghost use Rattle.rulings.specs.State as States;
ghost use Rattle.rulings.specs.Events.{event_meant};
ghost use Rattle.rulings.specs.Lent.{ruling_meant};
ghost use Rattle.rulings.specs.Step as Spec;

use crate::events::LentEvent;
use crate::lacks::Lack;
use crate::lent_rulings::LentRuling;
use crate::machine::Machine;
use crate::rulings::Effect;
use registry::Endpoint;

impl Effect {
    /// The free places of the record that are needed: to open a call, one more than for other
    /// entries, for the entry of its release, which then needs none.
    pub fn places_needed(&self) -> usize
        ensures { result ≡ Spec.places_needed self.now }
    {
        match self {
            Effect::Open(_) => 2,
            Effect::Nothing
            | Effect::Put { .. }
            | Effect::Remove { .. }
            | Effect::Resize { .. }
            | Effect::PutInForce => 1,
            Effect::Close { .. } => 0,
        }
    }
}

impl Machine {
    /// What an event on which this was ruled lacks, memory aside. The limit of endpoints, if a new
    /// one would be registered and there are as many; that of calls, if one would be opened and as
    /// many are open; that of reloads, if the configuration would be replaced once more than it
    /// allows. Else places of the record, if fewer are free than the entry needs: two if a call
    /// would be opened, and one for another verdict. A release lacks nothing.
    pub fn lack(&self, event: &LentEvent<'_>, ruling: &LentRuling<'_>) -> Option<Lack>
        ensures { result
            ≡ Spec.lack_of (States.bare self.now) (event_meant event.now)
            (ruling_meant ruling.now) }
    {
        match event {
            LentEvent::Register(endpoint) => {
                self.lack_if(self.are_endpoints_full(endpoint, ruling), ruling)
            }
            LentEvent::Admit { .. } | LentEvent::Incoming { .. } => {
                self.lack_if(self.are_calls_full(ruling), ruling)
            }
            LentEvent::Unregister { .. } | LentEvent::Change { .. } => self.lack_if(false, ruling),
            LentEvent::Release { .. } => None,
            LentEvent::Reload(_) => self.reload_lack(ruling),
        }
    }

    /// What a reload on which this was ruled lacks, as `lack` says it.
    pub fn reload_lack(&self, ruling: &LentRuling<'_>) -> Option<Lack>
        ensures { result ≡ Spec.lack_if (Spec.are_reloads_spent (States.bare self.now))
            (Spec.lacks_places (States.bare self.now) (ruling_meant ruling.now).effect) }
    {
        self.lack_if(self.are_reloads_spent(), ruling)
    }

    /// What is lacking, by whether a limit is met.
    fn lack_if(&self, at_limit: bool, ruling: &LentRuling<'_>) -> Option<Lack>
        ensures { result ≡ Spec.lack_if at_limit
            (Spec.lacks_places (States.bare self.now) (ruling_meant ruling.now).effect) }
    {
        if at_limit {
            return Some(Lack::Limit);
        }
        if self.lacks_places(ruling) {
            return Some(Lack::Record);
        }
        None
    }

    /// Whether a new endpoint would be registered, and there are as many as the limit allows.
    fn are_endpoints_full(&self, endpoint: &Endpoint, ruling: &LentRuling<'_>) -> bool
        ensures { result ≡ Spec.are_endpoints_full (States.bare self.now) endpoint.now
            (ruling_meant ruling.now).verdict }
    {
        ruling.is_granted()
            && self.limits().endpoints as usize <= self.registry().len()
            && !self.registry().is_registered(endpoint.id())
    }

    /// Whether a call would be opened, and as many are open as the limit allows.
    fn are_calls_full(&self, ruling: &LentRuling<'_>) -> bool
        ensures { result
            ≡ Spec.are_calls_full (States.bare self.now) (ruling_meant ruling.now).effect }
    {
        ruling.opens_call() && self.limits().calls as usize <= self.calls().len()
    }

    /// Whether the configuration was replaced as often as the limit allows.
    fn are_reloads_spent(&self) -> bool
        ensures { result ≡ Spec.are_reloads_spent (States.bare self.now) }
    {
        self.limits().reloads < self.version().value()
    }

    /// Whether the record lacks the free places that the entry needs.
    fn lacks_places(&self, ruling: &LentRuling<'_>) -> bool
        ensures { result
            ≡ Spec.lacks_places (States.bare self.now) (ruling_meant ruling.now).effect }
    {
        self.free_places() < ruling.places_needed()
    }

    /// The places of the record that are neither taken by an entry nor kept by an open call for the
    /// entry of its release.
    fn free_places(&self) -> usize
        ensures { result ≡ States.free_places (States.bare self.now) }
    {
        (self.limits().records as usize)
            .saturating_sub(self.records() as usize)
            .saturating_sub(self.calls().len())
    }
}
