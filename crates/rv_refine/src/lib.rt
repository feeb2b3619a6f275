//! Certificates whose locations are the parts of a partition of the control states, each with rows of its own, for systems that no row claim proves.
//!
//! How it is built, from the bottom. What is the same throughout a search is a frame (frames.rt, specs/Frames.antt): left sides (directions.rt), thresholds (thresholds.rt),
//! the rows of the tests, and the sets of the partition (parts.rt), of which the first one has the initial control states. For each part a limit for each left
//! side is known, or none. A part that has changed is visited: its rows are premises, and each limit of a part that a step leads into rises to what they show,
//! by pairs of them, which needs no valuation, and else by any multipliers at one valuation after another (rising.rt, bounding.rt), until no part has changed.
//! What any number of steps of a part to itself shows raises limits at once (turning.rt); left sides that no step changes are found from what steps add to the
//! memories (gains.rt, hull.rt).
//! Then entries and needed rows are sought (covering.rt, refining.rt).
#![tactic(auto)]

mod bounding;
mod covering;
mod directions;
mod frames;
mod gains;
mod hull;
mod parts;
mod refining;
mod rising;
mod thresholds;
mod turning;

pub use refining::refined;
