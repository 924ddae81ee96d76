//! How many bytes the refusal of a bandwidth change takes, and the sum above its limit.

ghost use Rattle.std.specs.Prelude.{◌≡◌, ◌≤◌, length};
ghost use Rattle.entry_bytes.specs.Refusals.{change_refusal_bytes, over_bytes};

use bandwidth::Over;
use field_bytes::size_of_name;
use rulings::ChangeRefusal;

/// Those of a sum that would be above its limit.
pub(crate) fn size_of_over(over: &Over) -> usize
    ensures value { result ≡ length (over_bytes over.now) }
    ensures most { result ≤ 130 }
{
    match over {
        Over::Zone { zone, .. } => 1 + size_of_name(zone),
        Over::Remote => 1,
    }
}

/// Those of the refusal of a bandwidth change.
pub fn size_of_change_refusal(refusal: &ChangeRefusal) -> usize
    ensures value { result ≡ length (change_refusal_bytes refusal.now) }
    ensures most { result ≤ 131 }
{
    match refusal {
        ChangeRefusal::OverLimit(over) => 1 + size_of_over(over),
        ChangeRefusal::NoCall
        | ChangeRefusal::NotYours
        | ChangeRefusal::RecordFull
        | ChangeRefusal::NoMemory => 1,
    }
}
