// The partition's configuration: setting it, and unbinding the queues that it takes away.
//
// Rests on errno, mask, limits, rules, product, products, layout, record, store and unbind.
#![tactic(auto)]

ghost use Rattle.std.specs.Prelude.{◌≡◌};
ghost use Rattle.rules.specs.Commands.{beyond_limits};
ghost use Rattle.layout.specs.Lent.{limits};
ghost use Rattle.configure.specs.Configured.{Configures};

use errno::Errno;
use layout::{Drivers, Words};
use product::Product;
use rules::{Answer, Configuration};

// Replaces the configuration. A queue that is no longer configured is unbound at once.
pub fn configure(words: &mut Words, drivers: &mut Drivers, configuration: Configuration) -> Answer
    ensures { Configures configuration words.entry words.exit drivers.entry drivers.exit result }
{
    if beyond(words, configuration) {
        return Err(Errno::Enodev);
    }
    layout::hold_words(words);
    layout::hold_drivers(drivers);
    let is = Product {
        adapters: configuration.adapters,
        domains: configuration.domains,
    };
    unbind::unbind(drivers, products::configured(words), is);
    store::put_configuration(words, configuration);
    Ok(())
}

// Whether a bit of a configuration's masks is above its limit.
fn beyond(words: &Words, configuration: Configuration) -> bool
    ensures { result ≡ beyond_limits (limits words.entry) configuration }
{
    let limit = record::max_domain(words);
    limits::exceeds(configuration.adapters, record::max_adapter(words))
        || limits::exceeds(configuration.domains, limit)
        || limits::exceeds(configuration.controls, limit)
}
