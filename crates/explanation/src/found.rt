//! The technology prefix of the digits.

ghost use Rattle.std.specs.Prelude.{◌≡◌};
ghost use Rattle.compiler.specs.Technology.{found_length, technology_among};
ghost use Rattle.registry.specs.Learned.{learned_prefixes};

use compiler::Tables;
use gk_terms::{Dialled, TechPrefix};
use registry::Registry;

/// The longest technology prefix with which the digits begin, of those that are declared and of
/// those that are learned.
pub(crate) fn technology(
    tables: &Tables,
    registry: &Registry,
    digits: &Dialled,
) -> Option<TechPrefix>
    ensures { result ≡ technology_among
        (learned_prefixes tables.now.commands registry.now.endpoints) tables.now.commands
        digits.now }
{
    let declared = tables.declared(digits);
    let Some(longer) = registry.learned(tables, digits, length_of(&declared)) else {
        return declared;
    };
    Some(longer)
}

/// How many characters a prefix has; 0 if there is none.
fn length_of(prefix: &Option<TechPrefix>) -> usize
    ensures { result ≡ found_length prefix.now }
{
    match prefix {
        Some(prefix) => prefix.as_bytes().len(),
        None => 0,
    }
}
