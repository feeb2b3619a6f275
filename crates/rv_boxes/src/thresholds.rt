ghost use Rattle.std.specs.Prelude.{ℤ, ◌<ℤ◌, ◌≤ℤ◌, List, [], ◌∷◌, ◌++◌, MatchBool};
ghost use Rattle.rv_boxes.specs.Orders.{IsLeastAbove};

use rv_base::Many;

/// Whether one number is below another.
fn is_below(a: i128, b: i128) -> bool
    ensures { MatchBool result (a <ℤ b) (b ≤ℤ a) }
{
    a < b
}

/// The lesser of the best threshold so far and the given one, where that holds the value.
fn with_threshold(best: Option<i128>, value: i128, threshold: i128) -> Option<i128>
    ensures { (before : List ℤ) → IsLeastAbove before value best → IsLeastAbove (before ++ threshold ∷ []) value result }
{
    if is_below(threshold, value) {
        return best;
    }
    match best {
        Some(old) => {
            if is_below(threshold, old) {
                Some(threshold)
            } else {
                Some(old)
            }
        }
        None => Some(threshold),
    }
}

/// The least threshold that holds the value from above; none where the value is past all of them.
pub fn least_above(thresholds: &Many<i128>, value: i128) -> Option<i128>
    ensures { IsLeastAbove thresholds.now value result }
{
    let mut best: Option<i128> = None;
    for place in 0..thresholds.len() {
        best = with_threshold(best, value, *thresholds.at(place));
    }
    best
}
