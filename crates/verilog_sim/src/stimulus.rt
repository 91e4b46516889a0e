// The values that a call gives to the outer inputs of a design.
ghost use Rattle.std.specs.Prelude.{◌≡◌, false, slice_index_or};
ghost use Rattle.rtl_ir.specs.Value.{bit};

use crate::Offer;

/// What a call gives. Past the end of a list nothing is offered, accepted or held.
#[derive(Drop)]
pub(crate) struct Stimulus<'a> {
    pub(crate) reset: bool,
    pub(crate) steady: &'a [u128],
    pub(crate) offers: &'a [Offer],
    pub(crate) accepts: &'a [bool],
    pub(crate) holds: &'a [bool],
}

pub(crate) fn bit_at(tests: &[bool], k: usize) -> u128
    ensures { result ≡ bit (slice_index_or tests.now k false) }
{
    bit_of(k < tests.len() && tests[k])
}

pub(crate) fn bit_of(test: bool) -> u128
    ensures { result ≡ bit test }
{
    if test { 1 } else { 0 }
}
