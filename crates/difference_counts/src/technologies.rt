//! Technology prefixes that are found.

ghost use Rattle.std.specs.Prelude.{◌≡◌};
ghost use Rattle.compiler.specs.Technology.{found_length};
ghost use Rattle.plan_difference.specs.Sets.{hops_off, is_joint, same_technology};

use compiler::Tables;
use gk_terms::TechPrefix;

/// Whether digits with this technology prefix hop off.
pub(crate) fn hops_off(tables: &Tables, technology: &Option<TechPrefix>) -> bool
    ensures { result ≡ hops_off tables.now.commands technology.now }
{
    match technology {
        Some(prefix) => tables.hopoff(prefix).is_some(),
        None => false,
    }
}

/// How many characters a technology prefix has that was found: 0 if none was.
pub(crate) fn found_length(technology: &Option<TechPrefix>) -> usize
    ensures { result ≡ found_length technology.now }
{
    match technology {
        Some(prefix) => prefix.as_bytes().len(),
        None => 0,
    }
}

/// Whether two configurations have found the same technology prefix, or none, and digits with it
/// hop off in neither.
pub(crate) fn is_joint(
    old: &Tables,
    new: &Tables,
    old_technology: &Option<TechPrefix>,
    new_technology: &Option<TechPrefix>,
) -> bool
    ensures { result ≡ is_joint old.now.commands new.now.commands
        old_technology.now new_technology.now }
{
    is_same_technology(old_technology, new_technology)
        && !hops_off(old, old_technology)
        && !hops_off(new, new_technology)
}

/// Whether both are the same technology prefix, or both are none.
pub(crate) fn is_same_technology(
    technology: &Option<TechPrefix>,
    other: &Option<TechPrefix>,
) -> bool
    ensures { result ≡ same_technology technology.now other.now }
{
    match technology {
        Some(prefix) => match other {
            Some(other) => prefix.as_bytes() == other.as_bytes(),
            None => false,
        },
        None => other.is_none(),
    }
}
