//! Where flows, memories and ticks stand in a flat system.

use rv_base::Many;
use rv_instances::Callees;

/// The numbers of flows, ticks and memories in a flat system.
#[derive(Drop)]
pub struct Numbering {
    /// For each flow of all instances, by its number in the layout, its number in the order of evaluation.
    pub flows: Many<u32>,
    /// For each flow of all instances, by its number in the layout, the number of the tick of its clock; 0 where it has none.
    pub ticks: Many<u32>,
    /// The number of a memory, by the number of its instance and its site there.
    pub memories: Callees,
}
