//! What an expression is read over.

use rv_base::Many;
use rv_diagram::Ref;
use rv_flat::Flat;

/// The references of what an instant finds: of the ticks, and of the bits of the memories and of the inputs.
#[derive(Debug, Drop)]
pub struct Tables {
    pub ticks: Many<Ref>,
    pub kept: Many<Many<Ref>>,
    pub given: Many<Many<Ref>>,
}

/// The references of the flows that have been read, in their order: whether each is there and true, and the bits that it has
/// where it is there.
#[derive(Debug, Drop)]
pub struct FlowRefs {
    pub on: Many<Ref>,
    pub bits: Many<Many<Ref>>,
}

/// The flat system of an expression, what an instant finds, and the flows before it.
#[derive(Clone, Copy)]
pub struct Around<'a> {
    pub flat: &'a Flat,
    pub tables: &'a Tables,
    pub read: &'a FlowRefs,
}
