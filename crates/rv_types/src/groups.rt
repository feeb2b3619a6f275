//! Groups of flows, which share one written type and one clock: what these mean is looked up once for each group.

ghost use Rattle.std.specs.Prelude.{◌≡◌, ◌+◌, ◌<◌, ℕ, length, true};
ghost use Rattle.rv_tree.specs.Groups.{kind_at, clock_at};

use rv_tree::Decls;

fn is_one_group(decls: &Decls, one: usize, other: usize) -> bool
    requires one { one < length decls.now }
    requires other { other < length decls.now }
    ensures kind { result ≡ true → kind_at decls.now one ≡ kind_at decls.now other }
    ensures clock { result ≡ true → clock_at decls.now one ≡ clock_at decls.now other }
{
    decls.first_of_group(one) == decls.first_of_group(other)
}

/// Whether a flow stands in the group of the flow before it.
pub fn goes_on(decls: &Decls, index: usize) -> bool
    requires { index < length decls.now }
    ensures later { result ≡ true → 0 < index }
    ensures kind { result ≡ true → (k : ℕ) → k + 1 ≡ index → kind_at decls.now k ≡ kind_at decls.now index }
    ensures clock { result ≡ true → (k : ℕ) → k + 1 ≡ index → clock_at decls.now k ≡ clock_at decls.now index }
{
    index > 0 && is_one_group(decls, index - 1, index)
}
