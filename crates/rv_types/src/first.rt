//! The first of several faults.

ghost use Rattle.std.specs.Prelude.{◌≡◌, ◌<◌, ◌^◌, ◌++◌, List};
ghost use Rattle.rv_types.specs.declared.fault.NameFault.{NameFault};
ghost use Rattle.rv_types.specs.Earliest.{rank, sooner, first};

use crate::fault::NameFault;

/// Offset and number as one key.
fn rank_of(fault: NameFault) -> u64
    ensures value { result ≡ rank fault }
    ensures small { result < 2 ^ 37 }
{
    match fault {
        NameFault::NoNode => 4,
        NameFault::UnknownName(at) => at as u64 * 16 + 5,
        NameFault::DefinedTwice(at) => at as u64 * 16 + 6,
        NameFault::Undefined(at) => at as u64 * 16 + 7,
        NameFault::TypeClash(at) => at as u64 * 16 + 8,
        NameFault::Nonlinear(at) => at as u64 * 16 + 9,
        NameFault::ClockClash(at) => at as u64 * 16 + 10,
        NameFault::NotObserver(at) => at as u64 * 16 + 11,
        NameFault::Memory => 0,
    }
}

/// The fault that comes first of two.
#[tactic(auto, using(crate::proofs::Joined::first_append))]
pub fn sooner_of(one: Option<NameFault>, other: Option<NameFault>) -> Option<NameFault>
    ensures value { result ≡ sooner one other }
    ensures joined { (xs ys : List NameFault) → one ≡ first xs → other ≡ first ys → result ≡ first (xs ++ ys) }
{
    match one {
        None => other,
        Some(f) => match other {
            None => Some(f),
            Some(g) => {
                if rank_of(f) <= rank_of(g) {
                    Some(f)
                } else {
                    Some(g)
                }
            }
        },
    }
}
