//! Open calls, as a machine opens, changes and closes them.

ghost use Rattle.std.specs.Prelude.{◌≡◌, nat_le, true, false, length, OnOk, OnErr};
ghost use Rattle.bandwidth.specs.Calls.{call_of, is_open, with_call, with_changed, without_call};
ghost use Rattle.rulings.specs.Founded.{is_owned};

use bandwidth::{OpenCall, OpenCalls};
use gk_terms::{Name, Units};
use std::alloc::AllocError;

#[tactic(auto, using(crate::proofs::CallingLemmas::has_room))]
/// Opens a call whose number is not that of an open call, and for which there is room. If memory
/// runs out, nothing changes.
pub fn open_in(calls: &mut OpenCalls, call: &OpenCall) -> Result<(), AllocError>
    requires closed { is_open calls.old.calls call.now.number ≡ false }
    requires room { nat_le calls.old.most (length calls.old.calls) ≡ false }
    ensures ok { OnOk result (calls.new
        ≡ record calls.old { calls = with_call calls.old.calls call.now }) }
    ensures err { OnErr result (calls.new ≡ calls.old) }
{
    calls.open_fresh(call)
}

#[tactic(auto, using(crate::proofs::CallingLemmas::owner_is_not_refused))]
/// Gives a call of this owner another bandwidth.
pub fn resize_in(calls: &mut OpenCalls, call: u32, id: &Name, units: Units)
    requires { is_owned id.now (call_of calls.old.calls call) ≡ true }
    ensures { calls.new
        ≡ record calls.old { calls = with_changed calls.old.calls call units } }
{
    let _ = calls.change(call, id, units);
}

/// Closes a call.
pub fn close_in(calls: &mut OpenCalls, call: u32)
    ensures { calls.new ≡ record calls.old { calls = without_call calls.old.calls call } }
{
    calls.take_out(call);
}
