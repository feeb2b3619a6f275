//! Loops that are taken any number of times at once (Schrammel and Jeannet 2011): rows that hold after the first turn, and rows that hold after
//! every turn, where each turn adds constants to memories or resets them to constants.
//!
//! It promises that `first` has the updated points of the entry, that `around` has these and all that later turns lead to, and that each list
//! comes with multipliers that prove it, as a loop of a certificate asks for them; that, where no row was dropped, `around` is exactly the cone
//! of `first` and the tests along the direction of the turns, and `first` exactly the updated points where nothing is reset; and under which
//! sizes no row is dropped. No command calls this crate yet.
//!
//! The cone has a closed form, since one variable alone is eliminated, the number of turns over the scale: the rows that do not gain along the
//! direction, and for each row that gains and each that loses the sum of multiples of both that does neither (specs/Pairs.antt; laws.rt shows
//! that it is the cone). So each row of `around` is a row of `first` or a sum of two rows, and its proof is one weight or two: nothing is
//! searched for. A row with a memory that is reset is not moved but dropped; both bounds of the memory's constant are in `first` instead.
//!
//! turns.rt reads the updates; first.rt makes the rows of the first turn and around.rt those around, by level.rt, rows.rt, weights.rt and
//! proved.rt; kept.rt proves that they stay. It stands on `rv_poly` for points and images, on `rv_seek` for the ranges of multipliers, on
//! `rv_rows` for rows, and on `rv_proofs` for cases and cones. Begin with loops.rt, then specs/Loops.antt and specs/Pairs.antt.
#![tactic(auto)]

mod around;
mod first;
mod kept;
mod laws;
mod level;
mod loops;
mod proved;
mod rows;
mod turns;
mod weights;

pub use laws::{cone_by_pairs, loops_are_exact, loops_are_promised, rows_are_shown, small_loops};
pub use loops::{LoopSets, accelerate};
