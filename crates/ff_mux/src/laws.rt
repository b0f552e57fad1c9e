//! Laws of what is written. Each is a function that does nothing: its clauses hold of all values.
ghost use Rattle.ff_mux.specs.laws.FlacLaws.{InfoIsFields};

/// The bits of STREAMINFO are the fields that the standard lists, each in its width (RFC 9639, section 8.2).
pub fn stream_info_is_its_fields()
    ensures { InfoIsFields }
{}
