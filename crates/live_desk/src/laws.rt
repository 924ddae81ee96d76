//! The law of receipts.

ghost use Rattle.live_desk.specs.Seats.{AreAllAccounted};

#[tactic(auto, using(crate::proofs::Counts::all_accounted))]
/// Receipts of different numbers, as many as the record has entries, each of which stands in it,
/// are one of each entry.
pub fn receipts_account_for_all()
    ensures { AreAllAccounted }
{}
