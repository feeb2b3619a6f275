//! Queens on a board of which none attacks another.

ghost use Rattle.std.specs.Prelude.{◌≡◌, ◌+◌, ◌*◌, ◌<◌, ◌≤◌, length, IfOk, OnOk};
ghost use Rattle.rv_diagram.specs.Nodes.{IsRef};

use rv_diagram::{Ref, Store, StoreFault};

/// Whether queens on two different places attack each other.
fn attacks(i: u32, j: u32, k: u32, l: u32) -> bool
    requires i { i < 8 }
    requires j { j < 8 }
    requires k { k < 8 }
    requires l { l < 8 }
{
    if i == k && j == l {
        return false;
    }
    i == k || j == l || i + j == k + l || i + l == k + j
}

/// What was so far, where no queen of row k attacks a queen at row i and column j.
fn row_free(s: &mut Store, n: u32, i: u32, j: u32, k: u32, so_far: Ref) -> Result<Ref, StoreFault>
    requires variables { 64 ≤ s.old.variables }
    requires n { n ≤ 8 }
    requires i { i < 8 }
    requires j { j < 8 }
    requires k { k < 8 }
    requires so_far { IsRef s.old.nodes so_far }
    ensures found { IfOk result (λ r. IsRef s.new.nodes r) }
    ensures longer { OnOk result (length s.old.nodes ≤ length s.new.nodes) }
    ensures variables { OnOk result (s.new.variables ≡ s.old.variables) }
{
    let mut free = so_far;
    for l in 0..n {
        if attacks(i, j, k, l) {
            let queen = s.variable(8 * k + l)?;
            let none = s.not(queen)?;
            free = s.and(none, free)?;
        }
    }
    Ok(free)
}

/// Where there is a queen at row i and column j, no other attacks it.
fn place_free(s: &mut Store, n: u32, i: u32, j: u32) -> Result<Ref, StoreFault>
    requires variables { 64 ≤ s.old.variables }
    requires n { n ≤ 8 }
    requires i { i < 8 }
    requires j { j < 8 }
    ensures found { IfOk result (λ r. IsRef s.new.nodes r) }
    ensures longer { OnOk result (length s.old.nodes ≤ length s.new.nodes) }
    ensures variables { OnOk result (s.new.variables ≡ s.old.variables) }
{
    let mut free = s.constant(true);
    for k in 0..n {
        free = row_free(s, n, i, j, k, free)?;
    }
    let queen = s.variable(8 * i + j)?;
    s.ite(queen, free, 1)
}

/// Whether row i has a queen.
fn row_taken(s: &mut Store, n: u32, i: u32) -> Result<Ref, StoreFault>
    requires variables { 64 ≤ s.old.variables }
    requires n { n ≤ 8 }
    requires i { i < 8 }
    ensures found { IfOk result (λ r. IsRef s.new.nodes r) }
    ensures longer { OnOk result (length s.old.nodes ≤ length s.new.nodes) }
    ensures variables { OnOk result (s.new.variables ≡ s.old.variables) }
{
    let mut taken = s.constant(false);
    for j in 0..n {
        let queen = s.variable(8 * i + j)?;
        taken = s.or(queen, taken)?;
    }
    Ok(taken)
}

/// What was so far, where row i has a queen and none of its queens is attacked.
fn row(s: &mut Store, n: u32, i: u32, so_far: Ref) -> Result<Ref, StoreFault>
    requires variables { 64 ≤ s.old.variables }
    requires n { n ≤ 8 }
    requires i { i < 8 }
    requires so_far { IsRef s.old.nodes so_far }
    ensures found { IfOk result (λ r. IsRef s.new.nodes r) }
    ensures longer { OnOk result (length s.old.nodes ≤ length s.new.nodes) }
    ensures variables { OnOk result (s.new.variables ≡ s.old.variables) }
{
    let taken = row_taken(s, n, i)?;
    let mut board = s.and(taken, so_far)?;
    for j in 0..n {
        let free = place_free(s, n, i, j)?;
        board = s.and(free, board)?;
    }
    Ok(board)
}

/// Whether n queens stand on a board of n rows and columns and none attacks another. The place at row i
/// and column j is variable 8 i + j.
pub fn queens(s: &mut Store, n: u32) -> Result<Ref, StoreFault>
    requires variables { 64 ≤ s.old.variables }
    requires n { n ≤ 8 }
    ensures { IfOk result (λ r. IsRef s.new.nodes r) }
{
    let mut board = s.constant(true);
    for i in 0..n {
        board = row(s, n, i, board)?;
    }
    Ok(board)
}
