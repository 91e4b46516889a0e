// The names of ports, kernels and streams.
ghost use Rattle.std.specs.Prelude.{◌≡◌};
ghost use Rattle.std.specs.List.{list_all};
ghost use Rattle.maxj_tokens.specs.Tokens.{is_name_byte};
ghost use Rattle.kernel_calls.specs.Laws.{is_port_name};

use text_scan::{ByteClass, is_letter, split_front};

/// Whether the bytes are a letter and then letters, digits and `_`.
pub fn is_port_name(name: &[u8]) -> bool
    ensures { result ≡ is_port_name name.now }
{
    match name.split_first() {
        Some((first, rest)) => is_letter(*first) && are_name_bytes(rest),
        None => false,
    }
}

// Whether all of the bytes may stand in a name.
fn are_name_bytes(bytes: &[u8]) -> bool
    ensures { result ≡ list_all is_name_byte bytes.now }
{
    split_front(bytes, ByteClass::Word).rest.is_empty()
}
