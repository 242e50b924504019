// Unbinding the queues that a new configuration takes away.
//
// Rests on mask, masks, rules, product, layout and drivers.
#![tactic(auto)]

ghost use Rattle.std.specs.Prelude.{◌≡◌};
ghost use Rattle.rules.specs.State.{apqn, queues};
ghost use Rattle.layout.specs.Layout.{unbind_one, unbind};
ghost use Rattle.unbind.specs.Gone.{gone, with_domain, unbind_row};

use layout::Drivers;
use mask::{Apid, Apqi, Apqn, Mask};
use product::Product;
use rules::Driver;

// Unbinds the queues that were configured and are not any more.
pub fn unbind(drivers: &mut Drivers, was: Product, is: Product)
    ensures { drivers.new ≡ unbind drivers.old (gone was is) queues }
{
    for adapter in 0..=255u8 {
        unbind_row(drivers, was, is, Apid(adapter));
    }
}

// Those of one adapter. An adapter of which no queue goes is passed over.
fn unbind_row(drivers: &mut Drivers, was: Product, is: Product, adapter: Apid)
    ensures { drivers.new ≡ unbind_row drivers.old (gone was is) adapter.0 256 }
{
    let gone = masks::minus(was.row(adapter), is.row(adapter));
    if masks::any(gone) {
        unbind_domains(drivers, adapter, gone);
    }
}

// Unbinds the queues of an adapter and of some domains.
fn unbind_domains(drivers: &mut Drivers, adapter: Apid, domains: Mask)
    ensures { drivers.new ≡ unbind_row drivers.old (with_domain domains) adapter.0 256 }
{
    for n in 0..256usize {
        let queue = Apqn {
            adapter,
            domain: Apqi(n as u8),
        };
        unbind_one(drivers, domains, queue);
    }
}

// Unbinds one queue, if its domain is among them.
#[tactic(auto, unfolding(layout::specs::Layout::byte_of))]
fn unbind_one(drivers: &mut Drivers, domains: Mask, queue: Apqn)
    ensures { drivers.new ≡ unbind_one drivers.old (with_domain domains) (apqn queue.adapter queue.domain) }
{
    if domains.has(queue.domain) {
        drivers::put_driver(drivers, queue, Driver::Unbound);
    }
}
