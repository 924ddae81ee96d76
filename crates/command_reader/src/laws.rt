//! A theorem on what every accepted configuration is. It is the contract of a function that does
//! nothing.

ghost use Rattle.gk_commands.specs.Accepted.{AcceptedAreWellFormed};

/// In an accepted configuration no two zones have one name, at most 1,024 zones are declared, one
/// of them is local, each zone that a command names is declared, and each number is in its range:
/// ports 1 to 65,535, cost and priority of a remote zone 1 to 100, the priority of gateways 0 to
/// 10, and limits 1 to 10,000,000 kbit/s, or 1 to 5,000 for one call.
pub fn accepted_commands_are_well_formed()
    ensures { AcceptedAreWellFormed }
{}
