// The products that a record holds: the queues that the host reserves, those that are configured, those that a device has.
//
// Rests on mask, rules, product, layout and record.
#![tactic(auto)]

ghost use Rattle.layout.specs.Lent.{host, config, devices};
ghost use Rattle.products.specs.Products.{ReservedProduct, ConfiguredProduct, AssignedProduct};

use layout::Words;
use product::Product;
use rules::Kind;

// The queues that are reserved for the host.
pub fn reserved(words: &Words) -> Product
    ensures { ReservedProduct (host words.entry) result }
{
    Product {
        adapters: record::apmask(words),
        domains: record::aqmask(words),
    }
}

// The queues that are configured.
pub fn configured(words: &Words) -> Product
    ensures { ConfiguredProduct (config words.entry) result }
{
    Product {
        adapters: record::configured_adapters(words),
        domains: record::configured_domains(words),
    }
}

// The queues of the device at a slot, open or not: none where there is no device.
pub fn assigned(words: &Words, slot: usize) -> Product
    ensures { AssignedProduct (devices words.entry slot) result }
{
    if record::present(words, slot) {
        Product {
            adapters: record::numbers(words, slot, Kind::Adapter),
            domains: record::numbers(words, slot, Kind::Domain),
        }
    } else {
        Product::empty()
    }
}
