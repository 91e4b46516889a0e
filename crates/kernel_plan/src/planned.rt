// What a plan is.
use kernel_layout::Layout;

/// The layout of a kernel's module, and the bits that the FIFOs of its schedule hold, at most 2^28.
#[derive(Debug, Drop)]
pub struct Plan {
    pub bits: u64,
    pub layout: Layout,
}
