//! The names of the zones of a candidate.

ghost use Rattle.std.specs.Prelude.{◌≡◌, IfOk};
ghost use Rattle.std.specs.Map.{keys_of};
ghost use Rattle.gk_commands.specs.Zones.{zones_of};

use gk_commands::Command;
use short_texts::KeptName;
use std::alloc::{AllocError, Global};

/// The names of the zones that commands declare, in line order.
pub(crate) fn zone_names(alloc: Global, commands: &[Command]) -> Result<Vec<KeptName>, AllocError>
    ensures { IfOk result (λ names. names.items ≡ keys_of (zones_of commands.now)) }
{
    let mut names = Vec::new(alloc);
    for command in commands {
        if let Some(zone) = command.zone() {
            names.push(KeptName::of(alloc, &zone.0)?)?;
        }
    }
    Ok(names)
}
