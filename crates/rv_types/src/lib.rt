//! The rules of names, types and clocks of a Lustre program, and its first fault.
//!
//! It promises that `settle` answers the types, clocks and constants exactly where every rule is kept, and else the first fault. The
//! rules are recursions over the tree (specs/Names.antt, Kinds.antt, Clocks.antt), and share nothing with the tables of the code.
//! The definitions of instances, needs, variables and memories stand here too, since runs and the rule of causality share them. It
//! stands on `rv_tree`. Begin with settling.rt, then specs/Settled.antt.
#![tactic(auto)]

mod chains;
mod clocks;
mod constants;
mod delayed;
mod fault;
mod first;
mod groups;
mod heads;
mod kinds;
mod laws;
mod names;
mod observer;
mod pace_steps;
mod pacing;
mod reading;
mod reading_clocks;
mod reading_values;
mod rules;
mod settling;
mod sides;
mod space;
mod spaces;
mod timing;
mod told_paces;
mod typed;
mod types;
mod typing;
mod uses;
mod values;
mod view;
mod weighing;
mod wide_constants;

pub use delayed::delay_kinds;
pub use fault::{NameFault, Pace};
pub use heads::given_by;
pub use laws::{
    chains_end, one_fault, one_settlement, settled_or_refused, sited_programs, well_formed_programs,
};
pub use pace_steps::{
    called_pace, choice_pace, delayed_pace, joined_pace, kept_pace, operator_pace,
    told_choice_pace, told_joined_pace, told_operator_pace,
};
pub use reading::{NodeTables, ProgramTables, flow_site, head_kind, node_tables, program_tables};
pub use reading_clocks::{NodeClocks, node_clocks, program_clocks};
pub use reading_values::{
    NamedValues, Trues, constant_binary, constant_flag, constant_if, constant_minus,
    constant_named, constant_not, constant_number, constant_size, named_values,
};
pub use settling::settle;
pub use typed::{Clock, Kind, Typed};
pub use weighing::Weighed;
pub use wide_constants::{lesser_of, wide_constant};
