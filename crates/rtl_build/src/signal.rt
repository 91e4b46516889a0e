// Nets with their widths.
ghost use Rattle.std.specs.Prelude.{◌≡◌};

use rtl_ir::NetId;

/// A net of a module, by its number, and its width in bits.
#[derive(Clone, Copy, PartialEq, Eq)]
pub struct Signal {
    net: u32,
    pub width: u8,
}

impl Signal {
    /// The net with this number, of this width in bits.
    pub fn new(net: NetId, width: u8) -> Self
        ensures { result ≡ record { net = net; width = width } }
    {
        Signal {
            net: net.index() as u32,
            width,
        }
    }

    /// The number of the net.
    pub fn net(self) -> NetId
        ensures { result ≡ self.net }
    {
        NetId::new(self.net)
    }
}
