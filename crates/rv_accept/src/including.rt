//! Whether `entry`, and with a loop `first`, proves each row of `state`.

ghost use Rattle.std.specs.Prelude.{◌≡◌, [], MatchOption};
ghost use Rattle.rv_proofs.specs.Systems.{System};
ghost use Rattle.rv_proofs.specs.Counts.{HasLoop, HasLocationCounts};
ghost use Rattle.rv_proofs.specs.Ranges.{IsLocationInRange};
ghost use Rattle.rv_proofs.specs.declared.certificate.Certificate.{Certificate};
ghost use Rattle.rv_proofs.specs.Accepted.{IsIncluded};
ghost use Rattle.rv_accept.specs.Passing.{IsFirstNotIncluded};

use rv_proofs::{Location, first_unproved};

/// The first row of `state` that is not proved: from `entry`, and after these in a location with a loop from `first`.
pub fn first_not_included(location: &Location) -> Option<u32>
    requires range { (s : System) × (c : Certificate) × IsLocationInRange s c location.now × HasLocationCounts c location.now }
    requires free { ¬ HasLoop location.now → (location.now.first ≡ []) × (location.now.around ≡ []) }
    ensures { MatchOption result (IsIncluded location.now) (λ n. IsFirstNotIncluded location.now n) }
{
    if let Some(row) = first_unproved(&location.entry, &location.state, &location.by_entry) {
        return Some(row as u32);
    }
    if !location.has_loop() {
        return None;
    }
    match first_unproved(&location.first, &location.state, &location.by_first) {
        Some(row) => Some((location.state.len() + row) as u32),
        None => None,
    }
}
