// A name up to its first `$`.
ghost use Rattle.std.specs.Prelude.{◌≡◌};
ghost use Rattle.top_ports.specs.Roles.{cut, cut_view};

/// A name up to its first `$`, and what follows that.
#[derive(Clone, Copy)]
pub struct Cut<'a> {
    pub head: &'a [u8],
    pub rest: Option<&'a [u8]>,
}

/// Cuts a name at its first `$`.
pub fn cut_name(name: &[u8]) -> Cut<'_>
    ensures { cut_view result ≡ cut name.now }
{
    for (place, byte) in name.iter().enumerate() {
        if *byte == b'$' {
            return Cut {
                head: &name[..place],
                rest: Some(&name[place + 1..]),
            };
        }
    }
    Cut {
        head: name,
        rest: None,
    }
}
