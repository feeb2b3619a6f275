//! What a turn of a loop is to prove.

use rv_base::Many;
use rv_proofs::Location;
use rv_rows::Row;

/// A list of rows that a turn of a loop is to prove: when they are to hold, and from which rows.
#[derive(Clone, Copy)]
pub struct Duty<'c> {
    /// The rows.
    pub rows: &'c Many<Row>,
    /// When they are to hold.
    pub when: &'static str,
    /// The rows that are given.
    pub given: &'c Many<Row>,
    /// Further rows that are given.
    pub more: Option<&'c Many<Row>>,
}

/// What a turn of the loop of a location is to prove, in the order of its multipliers.
fn duties(location: &Location) -> [Duty<'_>; 4] {
    [
        Duty {
            rows: &location.first,
            when: "after the first turn of the loop",
            given: &location.entry,
            more: None,
        },
        Duty {
            rows: &location.around,
            when: "where the first turn of the loop has been",
            given: &location.first,
            more: None,
        },
        Duty {
            rows: &location.around,
            when: "after each further turn of the loop",
            given: &location.around,
            more: Some(&location.state),
        },
        Duty {
            rows: &location.state,
            when: "after each further turn of the loop",
            given: &location.around,
            more: Some(&location.state),
        },
    ]
}

/// The list of what a turn of the loop of a location is to prove in which the row with this number stands, counted through all lists, and its
/// number there.
pub fn duty_of(location: &Location, number: usize) -> Option<(Duty<'_>, usize)> {
    let mut left = number;
    for duty in duties(location) {
        let count = duty.rows.len();
        if left < count {
            return Some((duty, left));
        }
        left = left.saturating_sub(count);
    }
    None
}
