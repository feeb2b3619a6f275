//! Reading multipliers.

ghost use Rattle.std.specs.Prelude.{◌≡◌, ◌+◌, ◌*◌, ◌<◌, ◌≤◌, ◌^◌, ◌&&◌, true, false, pos, nat_le, nat_lt, MatchOption, codes};
ghost use Rattle.rv_invfile.specs.Ahead.{here, ReadsFields};
ghost use Rattle.rv_invfile.specs.Forms.{field};
ghost use Rattle.rv_invfile.specs.Parts.{times};
ghost use Rattle.rv_invfile.specs.Readers.{Reads, run};
ghost use Rattle.rv_invfile.specs.Texts.{natural};
ghost use Rattle.rv_invariant.specs.Groups.{is_grouped, upto};
ghost use Rattle.rv_invariant.specs.Judging.{ReadsGroup, ReadsGroups};
ghost use Rattle.rv_invariant.specs.Pieces as pieces;
ghost use Rattle.rv_invariant.specs.Pieces.{is_below, is_pair_field, least_at, weight_at};

use crate::groups::expect_groups;
use crate::numbers::below;
use rv_base::Many;
use rv_invfile::{Fault, FileFault, Records, natural_in};
use rv_rows::{Multipliers, Weight};
use std::alloc::Global;

/// The premise that a text writes, from `least` on.
fn premise_in(text: &[u8], index: usize, premises: u64, least: u64) -> Option<u32>
    ensures { MatchOption result ((nat_lt index 256 && (is_below premises text.now && nat_le least (natural text.now))) ≡ false)
        (λ n. ((nat_lt index 256 && (is_below premises text.now && nat_le least (natural text.now))) ≡ true) × (n ≡ natural text.now)) }
{
    if index >= 256 {
        return None;
    }
    match below(text, premises) {
        Some(premise) => {
            if u64::from(premise) < least {
                None
            } else {
                Some(premise)
            }
        }
        None => None,
    }
}

/// The pair with this number, whose premise is not below `least`.
fn read_weight(
    records: &Records<'_>,
    index: usize,
    premises: u64,
    least: u64,
) -> Result<Weight, Fault>
    requires few { index ≤ 67108865 }
    requires least { least ≡ least_at (here records.now) index }
    ensures { ReadsGroup 2 (is_pair_field premises) records.now index (weight_at (here records.now) index) result }
{
    let place = 2 + 2 * index;
    let number = records.number();
    let Some(premise) = premise_in(records.field(place), index, premises, least) else {
        return Err(Fault::BadNumber(number, place as u32));
    };
    let Some(weight) = natural_in(records.field(place + 1), 1, 1 << 41) else {
        return Err(Fault::BadNumber(number, place as u32 + 1));
    };
    let by = i128::from(weight);
    Ok(Weight { premise, by })
}

/// All pairs of the record that stands here, in a list with as much room as it takes, since there are many lists of one pair. Beyond
/// 256 pairs the record is at fault.
fn read_weights(
    alloc: Global,
    records: &Records<'_>,
    premises: u64,
    count: usize,
) -> Result<Many<Weight>, FileFault>
    requires { count ≤ 67108865 }
    ensures { ReadsGroups 2 (is_pair_field premises) records.now count (upto weight_at (here records.now) count) result }
{
    let room = if count < 256 { count } else { 256 };
    let mut weights = Many::from_vec(Vec::with_capacity(alloc, room)?);
    let mut least: u64 = 0;
    for index in 0..count {
        let weight = read_weight(records, index, premises, least)?;
        least = u64::from(weight.premise) + 1;
        weights.push(weight)?;
    }
    Ok(weights)
}

/// The multipliers of the record that stands here, or the first field that is wrong.
fn read_pairs(
    alloc: Global,
    records: &Records<'_>,
    greatest: u64,
    premises: u64,
) -> Result<Multipliers, FileFault>
    requires { is_grouped (codes "by") 2 (here records.now) ≡ true }
    ensures { ReadsFields records.now (pieces.by_form greatest premises) (pieces.multipliers_of (here records.now)) result }
{
    let fields = records.len();
    let Some(factor) = natural_in(records.field(1), 1, greatest) else {
        return Err(FileFault::BadNumber(records.number(), 1));
    };
    let weights = read_weights(alloc, records, premises, (fields - 2) / 2)?;
    Ok(multipliers_of(factor, weights))
}

/// The multipliers with this divisor.
fn multipliers_of(factor: u64, weights: Many<Weight>) -> Multipliers
    ensures { result ≡ record { divisor = pos factor; weights = weights } }
{
    let divisor = i128::from(factor);
    Multipliers { divisor, weights }
}

/// The multipliers of a proof from so many premises, with a divisor of at most `greatest`.
pub fn read_proof(
    alloc: Global,
    records: &mut Records<'_>,
    greatest: u64,
    premises: u64,
) -> Result<Multipliers, FileFault>
    ensures { Reads (λ m. m) (run (pieces.a_proof greatest premises) records.old) result records.new }
{
    expect_groups(records, b"by", 2)?;
    let multipliers = read_pairs(alloc, records, greatest, premises)?;
    records.advance()?;
    Ok(multipliers)
}

/// So many proofs, in a list with as much room as they take.
pub fn read_proofs(
    alloc: Global,
    records: &mut Records<'_>,
    premises: u64,
    count: u64,
) -> Result<Many<Multipliers>, FileFault>
    ensures { Reads (λ ms. ms) (run (times count (pieces.a_proof (2 ^ 30) premises)) records.old) result records.new }
{
    let room = if count < 1024 { count as usize } else { 1024 };
    let mut proofs = Many::from_vec(Vec::with_capacity(alloc, room)?);
    for done in 0..count {
        proofs.push(read_proof(alloc, records, 1 << 30, premises)?)?;
    }
    Ok(proofs)
}
