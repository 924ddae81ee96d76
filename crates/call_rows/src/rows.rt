//! Rows: what an entry of a record says of a call.

ghost use Rattle.std.specs.Prelude.{◌≡◌, ◌↔◌, None, IfSome, true, false};
ghost use Rattle.call_rows.specs.Rows.{asked_answer, asked_call, is_row, is_of_a_call, leads_somewhere, leads_to_an_endpoint, said_by};

use gk_terms::{Dialled, Name, Units};
use rulings::{Destination, Route};
use std::marker::Model;

/// An admission that was routed: it was granted, or refused for its route or for a limit.
#[derive(Clone, Copy, Debug, PartialEq, Eq)]
pub struct AdmittedCall {
    /// The number of the call.
    pub call: u32,
    /// The zone of the caller.
    pub zone: Name,
    /// What was dialled.
    pub digits: Dialled,
    /// The bandwidth that was asked, in units of 100 bit/s.
    pub units: Units,
    /// Whether it was granted. A granted one has a destination as its route.
    pub granted: bool,
    /// Where the digits led.
    pub route: Route,
}

/// The answer of an endpoint to a call from the zone of another gatekeeper: it was granted, or
/// refused for a limit.
#[derive(Clone, Copy, Debug, PartialEq, Eq)]
pub struct AnsweredCall {
    /// The number of the call.
    pub call: u32,
    /// The zone of the endpoint that answers.
    pub zone: Name,
    /// The bandwidth that was asked, in units of 100 bit/s.
    pub units: Units,
    /// Whether it was granted.
    pub granted: bool,
    /// The endpoint itself, which is a gateway or a terminal.
    pub route: Route,
}

/// What an admission asked, be it for a call that was dialled or for the answer to one.
#[derive(Clone, Copy, Debug, PartialEq, Eq)]
pub struct AskedCall {
    /// The number of the call.
    pub call: u32,
    /// The zone of the endpoint that asked.
    pub zone: Name,
    /// What was dialled; none if it was the answer to a call, which dials nothing.
    pub digits: Option<Dialled>,
    /// The bandwidth that was asked, in units of 100 bit/s.
    pub units: Units,
    /// Whether it was granted. A granted one has a destination as its route.
    pub granted: bool,
    /// Where the digits led; of an answer the endpoint itself.
    pub route: Route,
}

impl AdmittedCall {
    /// The same, as what an admission of either kind asked.
    pub fn asked(&self) -> AskedCall
        ensures asked { result ≡ asked_call self.now }
        ensures said { said_by result ≡ CallEvent.Admitted self.now }
    {
        AskedCall {
            call: self.call,
            zone: self.zone,
            digits: Some(self.digits),
            units: self.units,
            granted: self.granted,
            route: self.route,
        }
    }
}

impl AnsweredCall {
    /// The same, as what an admission of either kind asked.
    pub fn asked(&self) -> AskedCall
        ensures asked { result ≡ asked_answer self.now }
        ensures said { said_by result ≡ CallEvent.Answered self.now }
    {
        AskedCall {
            call: self.call,
            zone: self.zone,
            digits: None,
            units: self.units,
            granted: self.granted,
            route: self.route,
        }
    }
}

impl AskedCall {
    /// The event of a row that says it.
    pub fn event(&self) -> CallEvent
        ensures { result ≡ said_by self.now }
    {
        match self.digits {
            Some(digits) => CallEvent::Admitted(AdmittedCall {
                call: self.call,
                zone: self.zone,
                digits,
                units: self.units,
                granted: self.granted,
                route: self.route,
            }),
            None => CallEvent::Answered(AnsweredCall {
                call: self.call,
                zone: self.zone,
                units: self.units,
                granted: self.granted,
                route: self.route,
            }),
        }
    }
}

/// An admission among the rows of a record, with the number of its entry: of a call that was
/// dialled, or of the answer to one.
#[derive(Clone, Copy, Debug, PartialEq, Eq)]
pub struct NumberedAdmission {
    /// The number of the entry, from 1 on.
    pub number: u32,
    /// What was asked, and what came of it.
    pub asked: AskedCall,
}

/// What a row says.
#[derive(Clone, Copy, Debug, PartialEq, Eq)]
pub enum CallEvent {
    /// An admission was routed.
    Admitted(AdmittedCall),
    /// A call from the zone of another gatekeeper was answered.
    Answered(AnsweredCall),
    /// The bandwidth of a call was changed, to this many units of 100 bit/s.
    Changed { call: u32, units: Units },
    /// A call was released.
    Released { call: u32 },
}

impl CallEvent {
    /// Whether a row may say it: its call has a number from 1 on, and a destination if it was
    /// granted; an answer has the endpoint that gave it.
    fn is_of_a_call(&self) -> bool
        ensures { result ≡ is_of_a_call self.now }
    {
        match self {
            CallEvent::Admitted(call) => {
                call.call != 0 && (!call.granted || leads_somewhere(&call.route))
            }
            CallEvent::Answered(call) => call.call != 0 && leads_to_an_endpoint(&call.route),
            CallEvent::Changed { call, .. } => *call != 0,
            CallEvent::Released { call } => *call != 0,
        }
    }
}

/// Whether a route leads to a destination.
fn leads_somewhere(route: &Route) -> bool
    ensures { result ≡ leads_somewhere route.now }
{
    matches!(route, Route::To(_))
}

/// Whether a route leads to a gateway or a terminal.
fn leads_to_an_endpoint(route: &Route) -> bool
    ensures { result ≡ leads_to_an_endpoint route.now }
{
    matches!(
        route,
        Route::To(Destination::Gateway { .. }) | Route::To(Destination::Terminal { .. })
    )
}

/// The number of an entry in its record, and what it says of a call. A number is at least 1, and so
/// is that of a call; a granted admission has a destination, and an answer has an endpoint as its
/// route. A contract sees both parts.
#[derive(Clone, Copy, Debug, PartialEq, Eq)]
pub struct CallRow {
    number: u32,
    event: CallEvent,
}

impl Model for CallRow {
    ghost use Rattle.std.specs.Prelude.{◌≡◌, true};
    ghost use Rattle.call_rows.specs.Rows.{RowParts, is_row};

    ghost Value = { RowParts };

    ghost view = { λ r. record { number = r.number; event = r.event } };

    ghost invariant = { λ r. is_row (record { number = r.number; event = r.event }) ≡ true };

    ghost inverse = { λ row. record { number = row.number; event = row.event } };
}

impl CallRow {
    /// The row of this number; none if there is no such row: if a number is 0, a granted admission
    /// has no destination, or the route of an answer is neither a gateway nor a terminal.
    pub fn new(number: u32, event: CallEvent) -> Option<CallRow>
        ensures some { IfSome result (λ row. row ≡ record { number = number; event = event }) }
        ensures none { (result ≡ None)
            ↔ (is_row (record { number = number; event = event }) ≡ false) }
    {
        if number == 0 || !event.is_of_a_call() {
            return None;
        }
        Some(CallRow { number, event })
    }

    /// The number of the entry, from 1 on.
    pub fn number(&self) -> u32
        ensures value { result ≡ self.now.number }
        ensures sound { is_row self.now ≡ true }
    {
        self.number
    }

    /// What it says.
    pub fn event(&self) -> &CallEvent
        ensures { result.now ≡ self.now.event }
    {
        &self.event
    }
}
