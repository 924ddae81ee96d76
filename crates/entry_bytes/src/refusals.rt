//! How the refusal of a bandwidth change, and the sum that would be above its limit, are added to a
//! vector of bytes, in room that it has.

ghost use Rattle.std.specs.Prelude.{[], ◌∷◌};
ghost use Rattle.field_bytes.specs.Adding.{Adds, HasRoom};
ghost use Rattle.entry_bytes.specs.Refusals.{IsChangeRefusal, IsOver, change_refusal_bytes, over_bytes};

use crate::codes::limit_kind_code;
use bandwidth::Over;
use field_bytes::{add_byte, add_name};
use rulings::ChangeRefusal;

/// Adds a sum that would be above its limit.
pub(crate) fn add_over(bytes: &mut Vec<u8>, over: &Over)
    requires { HasRoom bytes.old (over_bytes over.now) }
    ensures added { Adds bytes.old (over_bytes over.now) bytes.new }
    ensures over { IsOver over.now }
{
    match over {
        Over::Zone { kind, zone } => {
            add_byte(bytes, limit_kind_code(*kind));
            add_name(bytes, zone);
        }
        Over::Remote => add_byte(bytes, 0),
    }
}

/// Adds the refusal of a bandwidth change.
pub fn add_change_refusal(bytes: &mut Vec<u8>, refusal: &ChangeRefusal)
    requires { HasRoom bytes.old (change_refusal_bytes refusal.now) }
    ensures added { Adds bytes.old (change_refusal_bytes refusal.now) bytes.new }
    ensures refusal { IsChangeRefusal refusal.now }
{
    match refusal {
        ChangeRefusal::NoCall => add_byte(bytes, 0),
        ChangeRefusal::NotYours => add_byte(bytes, 1),
        ChangeRefusal::RecordFull => add_byte(bytes, 2),
        ChangeRefusal::NoMemory => add_byte(bytes, 3),
        ChangeRefusal::OverLimit(over) => {
            add_byte(bytes, 4);
            add_over(bytes, over);
        }
    }
}
