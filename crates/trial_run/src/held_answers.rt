//! The candidate's answer as a report keeps it.

use crate::held_routes::HeldRoute;

/// The candidate's answer, beside the recorded route: the same is not kept twice.
#[derive(Drop)]
pub(crate) enum HeldAnswer {
    AsRecorded,
    Led(HeldRoute),
    CallerNotRegistered,
}
