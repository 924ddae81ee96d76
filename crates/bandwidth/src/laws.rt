//! Laws of the definitions.

ghost use Rattle.bandwidth.specs.FitLaws.{OpeningStaysWithin, RaiseStaysWithin, RaiseWasWithin, RefusalNamesASum};

/// What fits stays within: after a call that fits is opened, or gets more bandwidth with which it
/// fits, no sum in which it counts is above its limit. Before it got more bandwidth none was
/// either.
pub fn what_fits_stays_within()
    ensures opening { OpeningStaysWithin }
    ensures raise { RaiseStaysWithin }
    ensures before { RaiseWasWithin }
{}

/// What does not fit is above a limit: the sum that is named is one in which the call counts, and
/// with the call beside the others it would be above its limit. The call asks for more than the
/// open call of its number has, if there is one.
pub fn what_is_refused_is_above()
    ensures { RefusalNamesASum }
{}
