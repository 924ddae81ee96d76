//! Laws of the definitions.

ghost use Rattle.field_bytes.specs.Laws.{NumbersReadBack, NamesReadBack, DialledDigitsReadBack, AddressesReadBack};

/// The bytes of a field are read as what was added, whatever follows them.
pub fn fields_read_back()
    ensures numbers { NumbersReadBack }
    ensures names { NamesReadBack }
    ensures dialled { DialledDigitsReadBack }
    ensures addresses { AddressesReadBack }
{}
