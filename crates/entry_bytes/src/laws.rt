//! Laws of the definitions.

ghost use Rattle.entry_bytes.specs.Laws.{CodesReadBack, OversReadBack, ChangeRefusalsReadBack, EndpointsReadBack, EntriesReadBack, RulingsAgree};

/// The bytes of a part of an entry are read as what was added, whatever follows them; those of an
/// endpoint if nothing follows them.
pub fn parts_read_back()
    ensures codes { CodesReadBack }
    ensures overs { OversReadBack }
    ensures changes { ChangeRefusalsReadBack }
    ensures endpoints { EndpointsReadBack }
{}

/// The bytes of an entry are read as the entry, if the ruling agrees with the event, as each does
/// that is ruled on it.
pub fn entries_read_back()
    ensures entries { EntriesReadBack }
    ensures rulings { RulingsAgree }
{}
