// The signals that the modules of the tests begin with.
use rtl_build::Signal;

// What delays follow: bits for the advances and the reset edges, a word of 8 bits and one of 16.
#[derive(Clone, Copy)]
pub(crate) struct Inputs {
    pub(crate) run: Signal,
    pub(crate) reset: Signal,
    pub(crate) narrow: Signal,
    pub(crate) wide: Signal,
}

// What each control has beside the ports of its kernel and the position.
#[derive(Clone, Copy)]
pub(crate) struct Frame {
    pub(crate) reset: Signal,
    pub(crate) ticks: Signal,
    pub(crate) hold: Signal,
    pub(crate) ended: Signal,
}
