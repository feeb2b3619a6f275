//! What one instant gives.

ghost use Rattle.std.specs.Prelude.{◌≡◌};
ghost use Rattle.rv_step.specs.declared.stepped.StepFault.TheVariants.{Memory as NoMemory};

use rv_base::{Many, Memory, Place, Value};
use rv_flat::State;

/// One instant: the state after it, what each flow has in the order of the system, none where it is absent, whether the
/// observer is true, and the least place of an assertion that is false.
#[derive(Debug, Drop)]
pub struct Stepped {
    pub next: State,
    pub values: Many<Option<Value>>,
    pub observer: bool,
    pub broken: Option<Place>,
}

/// Why an instant is not given.
#[derive(Debug, Drop)]
pub enum StepFault {
    /// The least place of a flow or memory whose integer is below -2^63 or above 2^63 - 1.
    Outgrown(Place),
    /// There was no memory.
    Memory,
}

impl From<Memory> for StepFault {
    ghost from_gives = { λ _ e. e ≡ NoMemory };

    fn from(_: Memory) -> Self {
        StepFault::Memory
    }
}
