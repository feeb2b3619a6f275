//! How many labels a type has, and how many bits its values take.

ghost use Rattle.std.specs.Prelude.{◌≡◌, ◌≤◌, ℕ};
ghost use Rattle.rv_tree.specs.Bounded.{most};
ghost use Rattle.rv_types.specs.Values.{label_count, labels_at as labels_of_type};
ghost use Rattle.rv_types.specs.Variables.{bits_for as least_bits};
ghost use Rattle.rv_instances.specs.Bits.{bits_of as bits_of_type};

use rv_tree::{TypeBody, TypeDecl};
use rv_types::Kind;

/// The bits of a control memory or input of a type; integers have none.
pub fn bits_of(types: &[TypeDecl], kind: Kind) -> u32
    requires few { (k : ℕ) → labels_of_type types.now k ≤ most }
    ensures value { result ≡ bits_of_type types.now kind }
    ensures small { result ≤ most }
{
    match kind {
        Kind::Bool => 1,
        Kind::Int => 0,
        Kind::Labels(number) => bits_for(labels_at(types, number)),
    }
}

/// The number of labels of the enumeration with a number.
#[tactic(auto, using(crate::proofs::LabelCodes::labels_here, crate::proofs::LabelCodes::labels_past))]
fn labels_at(types: &[TypeDecl], number: u32) -> u64
    ensures { result ≡ labels_of_type types.now number }
{
    let at = number as usize;
    if at < types.len() {
        labels_in(&types[at])
    } else {
        0
    }
}

/// The number of labels of a type, 0 where it is an alias.
pub fn labels_in(declared: &TypeDecl) -> u64
    ensures { result ≡ label_count declared.now }
{
    match &declared.body {
        TypeBody::Labels(labels) => labels.len() as u64,
        TypeBody::Alias(_) => 0,
    }
}

/// The least number of bits with which so many codes can be told apart.
#[tactic(auto, using(crate::proofs::LabelCodes::enough_bits, crate::proofs::LabelCodes::one_bit_more, crate::proofs::LabelCodes::twice_codes))]
fn bits_for(count: u64) -> u32
    requires { count ≤ most }
    ensures value { result ≡ least_bits count }
    ensures small { result ≤ most }
{
    let mut bits = 0;
    let mut codes = 1;
    while codes < count {
        codes *= 2;
        bits += 1;
    }
    bits
}
