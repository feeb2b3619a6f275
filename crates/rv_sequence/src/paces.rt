//! The clock that a pace takes.

ghost use Rattle.std.specs.Prelude.{◌≡◌};
ghost use Rattle.rv_types.specs.Instances.{taken};
ghost use Rattle.rv_types.specs.declared.typed.Clock.TheVariants.{Base};

use rv_types::{Clock, Pace};

/// The clock of a pace: what is free takes the base clock.
pub fn clock_of(pace: Pace) -> Clock
    ensures { result ≡ taken Base pace }
{
    match pace {
        Pace::At(clock) => clock,
        Pace::Free | Pace::Mute | Pace::Differ => Clock::Base,
    }
}
