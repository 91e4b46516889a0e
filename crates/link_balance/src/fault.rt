// The first fault of a link.
ghost use Rattle.std.specs.Prelude.{◌≡◌};
ghost use Rattle.project_streams.specs.declared.side.Side.TheVariants.{Dry, Full};
ghost use Rattle.link_balance.specs.Ports.{port_of, IsEvenBut};

use crate::PortRun;
use crate::shortage::first_short;
use project_streams::Side;

/// A link that is dry in a tick of its consumer, or full in one of its producer.
#[derive(Clone, Copy, Debug, PartialEq, Eq)]
pub struct LinkFault {
    pub side: Side,
    pub tick: u64,
}

/// Where a link of this depth between these ports is first dry or full in the run in which nothing
/// waits, by edge, then dry before full; `None` where it never is.
pub fn first_fault(producer: &PortRun, consumer: &PortRun, depth: u32) -> Option<LinkFault>
    ensures { IsEvenBut (port_of producer.now) (port_of consumer.now) depth result }
{
    let dry = first_short(consumer, producer, 0);
    let full = first_short(producer, consumer, depth);
    match (dry, full) {
        (None, None) => None,
        (Some(tick), None) => Some(dry_in(tick)),
        (None, Some(tick)) => Some(full_in(tick)),
        (Some(read), Some(written)) if consumer.begin + read <= producer.begin + written => {
            Some(dry_in(read))
        }
        (Some(_), Some(written)) => Some(full_in(written)),
    }
}

fn dry_in(tick: u64) -> LinkFault
    ensures side { result.side ≡ Dry }
    ensures tick { result.tick ≡ tick }
{
    LinkFault {
        side: Side::Dry,
        tick,
    }
}

fn full_in(tick: u64) -> LinkFault
    ensures side { result.side ≡ Full }
    ensures tick { result.tick ≡ tick }
{
    LinkFault {
        side: Side::Full,
        tick,
    }
}
