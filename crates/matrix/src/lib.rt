// The matrices of the device at a slot: what is assigned, and what its guest gets.
//
// Rests on mask, masks, rules, layout, record, drivers and controls.
#![tactic(auto)]

ghost use Rattle.std.specs.Prelude.{◌≡◌, not, ◌&&◌};
ghost use Rattle.mask.specs.Bits.{bits};
ghost use Rattle.layout.specs.Lent.{state, devices};
ghost use Rattle.matrix.specs.Row.{missing, held_back, held_at};
ghost use Rattle.matrix.specs.HasMasks.{HasMasks};

use layout::{Drivers, Words};
use mask::{Apid, Apqi, Apqn, Mask};
use rules::{Driver, Kind, Masks, Matrix};

// A matrix of the device at a slot: nothing past the last slot.
pub fn masks_at(words: &Words, drivers: &Drivers, slot: usize, matrix: Matrix) -> Masks
    ensures { HasMasks matrix (state words.entry drivers.entry) (devices words.entry slot) result }
{
    let adapters = record::numbers(words, slot, Kind::Adapter);
    let domains = record::numbers(words, slot, Kind::Domain);
    match matrix {
        Matrix::Assigned => Masks {
            adapters,
            domains,
            controls: record::numbers(words, slot, Kind::Control),
        },
        Matrix::Guest => {
            let there = masks::and(adapters, record::configured_adapters(words));
            let kept = masks::and(domains, record::configured_domains(words));
            Masks {
                adapters: passed_adapters(drivers, there, kept),
                domains: kept,
                controls: controls::guest_controls(words, slot),
            }
        }
    }
}

// The adapters of which every queue of the domains is bound to passthrough.
fn passed_adapters(drivers: &Drivers, adapters: Mask, domains: Mask) -> Mask
    ensures { bits result ≡ (λ j. bits adapters j && not (held_back drivers.now (bits domains) j)) }
{
    let mut m = adapters;
    for adapter in 0..=255u8 {
        m = kept_adapter(drivers, Apid(adapter), m, domains);
    }
    m
}

// A mask with an adapter dropped, if it is there and one of its queues is not passed through.
fn kept_adapter(drivers: &Drivers, adapter: Apid, mask: Mask, domains: Mask) -> Mask
    ensures { bits result ≡ (λ j. bits mask j && not (held_at adapter.0 drivers.now (bits domains) j)) }
{
    if mask.has(adapter) && !row_passed(drivers, adapter, domains) {
        mask.without(adapter)
    } else {
        mask
    }
}

// Whether every queue of an adapter and these domains is bound to passthrough. Only the drivers of these domains are read.
fn row_passed(drivers: &Drivers, adapter: Apid, domains: Mask) -> bool
    ensures { result ≡ not (held_back drivers.now (bits domains) adapter.0) }
{
    for n in 0..256usize {
        let queue = Apqn {
            adapter,
            domain: Apqi(n as u8),
        };
        if missing(drivers, domains, queue) {
            return false;
        }
    }
    true
}

// Whether a domain is there, and its queue is not bound to passthrough.
fn missing(drivers: &Drivers, domains: Mask, queue: Apqn) -> bool
    ensures { result ≡ missing drivers.now (bits domains) queue.adapter.0 queue.domain.0 }
{
    domains.has(queue.domain) && drivers::driver(drivers, queue) != Driver::Passthrough
}
