//! Which identifiers a set may have (RFC 7011 3.3.2).
ghost use Rattle.std.specs.Prelude.{◌≡◌};
ghost use Rattle.ipfix_writer.specs.Grammar.{is_set_id as is_set_number};

/// Whether a set may have this identifier: 2 for templates, 3 for options templates, from 256 on for
/// data.
pub fn is_set_id(id: u16) -> bool
    ensures { result ≡ is_set_number id }
{
    id == 2 || id == 3 || id >= 256
}
