//! Which instances a program has, where their flows lie, and what gives each flow its value.
//!
//! It promises that, for a program of which all instances are known (`IsExpanded`), `flows_in` lists the flows of all instances
//! in the order of their places, `layout_of` says by numbers where the flows, the base clock and the callees of each instance
//! are, and `givers_of` what gives each flow its value, each flow by one giver. An accepted source (`Source`) keeps that its
//! parts fit (`Fits` of specs/Fitting.antt): facts alone, by whatever rule it was accepted. It stands on `rv_types`, and both
//! the rule of causality and the builder of flat systems stand on it. Begin with expanded.rt, then layout.rt and givers.rt.
#![tactic(auto)]

mod answer;
mod callees;
mod codes;
mod equal;
mod expanded;
mod flows;
mod givers;
mod laws;
mod layout;
mod reader;
mod source;
mod timed;

pub use answer::{Instance, Order};
pub use callees::Callees;
pub use codes::{bits_of, labels_in};
pub use equal::all_equal;
pub use expanded::Expanded;
pub use flows::{Flow, flows_in, places_of};
pub use givers::{BodyOf, Giver, OutputOf, givers_of};
pub use laws::{flow_places, instance_numbers, known_clocks, numbered_instances, one_giver};
pub use layout::{Laid, Layout, layout_of, number_of_clock};
pub use reader::Reader;
pub use source::Source;
pub use timed::{ClockedCall, ClockedDelay, ClockedOperator, Timed, timed_of};
