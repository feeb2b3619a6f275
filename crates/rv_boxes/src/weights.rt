ghost use Rattle.std.specs.Prelude.{◌<◌, ◌≤◌, length, take, drop, All, IfOk};
ghost use Rattle.rv_boxes.specs.Weighing.{Rises, IsInserted};

use rv_base::{Many, Memory};
use rv_rows::Weight;
use std::alloc::Global;

/// The first place whose weight stands on this premise or a later one, or the end.
fn place_of(weights: &Many<Weight>, premise: u32) -> usize
    requires { Rises weights.now }
    ensures inside { result ≤ length weights.now }
    ensures before { All (λ u. u.premise < premise) (take result weights.now) }
    ensures after { All (λ u. premise ≤ u.premise) (drop result weights.now) }
{
    for place in 0..weights.len() {
        if weights.at(place).premise >= premise {
            return place;
        }
    }
    weights.len()
}

/// The weights with one more, at its place in the order of the premises.
pub fn with_weight(
    alloc: Global,
    weights: &Many<Weight>,
    weight: Weight,
) -> Result<Many<Weight>, Memory>
    requires { Rises weights.now }
    ensures { IfOk result (IsInserted weights.now weight) }
{
    let place = place_of(weights, weight.premise);
    let mut list = Vec::from_slice(alloc, weights.as_slice())?;
    list.insert(place, weight)?;
    Ok(Many::from_vec(list))
}
