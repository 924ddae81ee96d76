//! How the refusal of a bandwidth change is read, and the sum that would be above its limit.

ghost use Rattle.field_bytes.specs.Fields.{Gives};
ghost use Rattle.entry_bytes.specs.Refusals.{change_over_in, change_refusal_in, over_in, zone_over_in};

use crate::codes::limit_kind_of;
use bandwidth::Over;
use field_bytes::Fields;
use rulings::ChangeRefusal;

/// The sum that would be above its limit.
pub(crate) fn read_over(fields: &mut Fields<'_>) -> Option<Over>
    ensures { Gives (over_in fields.old) result fields.new }
{
    match fields.byte()? {
        0 => Some(Over::Remote),
        code => read_zone_over(fields, code),
    }
}

/// The same of a zone, by the code of its kind.
fn read_zone_over(fields: &mut Fields<'_>, code: u8) -> Option<Over>
    ensures { Gives (zone_over_in code fields.old) result fields.new }
{
    let kind = limit_kind_of(code)?;
    let zone = fields.name()?.name();
    Some(Over::Zone { kind, zone })
}

/// Why a bandwidth change is refused.
pub fn read_change_refusal(fields: &mut Fields<'_>) -> Option<ChangeRefusal>
    ensures { Gives (change_refusal_in fields.old) result fields.new }
{
    match fields.byte()? {
        0 => Some(ChangeRefusal::NoCall),
        1 => Some(ChangeRefusal::NotYours),
        2 => Some(ChangeRefusal::RecordFull),
        3 => Some(ChangeRefusal::NoMemory),
        4 => read_change_over(fields),
        _ => None,
    }
}

/// That a sum of the call would be above its limit.
fn read_change_over(fields: &mut Fields<'_>) -> Option<ChangeRefusal>
    ensures { Gives (change_over_in fields.old) result fields.new }
{
    let over = read_over(fields)?;
    Some(ChangeRefusal::OverLimit(over))
}
