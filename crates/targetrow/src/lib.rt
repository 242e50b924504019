// The targets of an adapter's queues, found at once, for whoever goes through all queues: an adapter is asked about once, not 256 times.
//
// Rests on mask, masks, rules, product, products, layout and record.
#![tactic(auto)]

ghost use Rattle.std.specs.Prelude.{◌≡◌};
ghost use Rattle.layout.specs.Lent.{host, config};
ghost use Rattle.targetrow.specs.TargetRows.{row_target, TargetsOf};

use layout::Words;
use mask::{Apid, Apqi, Mask};
use rules::{Driver, LOWEST_PASSED_TYPE};

// The domains of those queues whose target is the host, and of those whose target is passthrough.
#[derive(Clone, Copy)]
pub struct TargetRow {
    host: Mask,
    passthrough: Mask,
}

impl TargetRow {
    // The targets of the queues of an adapter.
    pub fn of(words: &Words, adapter: Apid) -> TargetRow
        ensures { TargetsOf (host words.entry) (config words.entry) adapter.0 result }
    {
        let configured = products::configured(words).row(adapter);
        let reserved = products::reserved(words).row(adapter);
        let host = masks::and(configured, reserved);
        let passthrough = if record::hardware_type(words, adapter) < LOWEST_PASSED_TYPE {
            Mask::empty()
        } else {
            masks::minus(configured, reserved)
        };
        TargetRow { host, passthrough }
    }

    // The target of the queue with a domain.
    pub fn target(self, domain: Apqi) -> Driver
        ensures { result ≡ row_target self domain.0 }
    {
        if self.host.has(domain) {
            Driver::Host
        } else if self.passthrough.has(domain) {
            Driver::Passthrough
        } else {
            Driver::Unbound
        }
    }
}
