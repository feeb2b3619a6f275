//! Diagram variables by their names, and the bits of memories and inputs.

ghost use Rattle.std.specs.Prelude.{◌≡◌, ◌<◌, ◌≤◌, ◌^◌, ◌&&◌, false, length, map, nat_lt, IfOk, IsErrOf, IsTrue, MatchOption};
ghost use Rattle.rv_tree.specs.Places.{is_same as is_same_place};
ghost use Rattle.rv_types.specs.Variables.{bits_for};
ghost use Rattle.rv_diagram.specs.Nodes.{Valuation};
ghost use Rattle.rv_agreement.specs.Agreement.{bit_count};
ghost use Rattle.rv_flat.specs.Lists.{side_of, variable_of};
ghost use Rattle.rv_flat.specs.Facts.{all_few};
ghost use Rattle.rv_control.specs.Named.{same_side, same_variable, truth_at};
ghost use Rattle.rv_symbolic.specs.Growing.{Makes};
ghost use Rattle.rv_bits.specs.Bits.{Spells};
ghost use Rattle.rv_bits.specs.Names.{variable_named, owned};

use rv_base::{Many, Place, Text};
use rv_diagram::{Ref, Store, StoreFault};
use rv_flat::{Bit, Side};
use rv_types::Kind;
use std::alloc::Global;

/// The name of a diagram variable that is no next copy.
#[derive(Clone, Copy)]
pub enum Named<'a> {
    MainTick,
    Tick(&'a Place),
    Kept(&'a Place, u32),
    Input(usize, u32),
    Test(&'a Place, Side),
}

/// What bits belong to: the memory at a place, or an input by its number.
#[derive(Clone, Copy)]
pub enum Owner<'a> {
    Memory(&'a Place),
    Input(usize),
}

/// Whether two places are the same.
pub fn is_place(own: &Place, place: &Place) -> bool
    ensures { result ≡ is_same_place own.now.sites place.now.sites }
{
    own.sites == place.sites
}

/// Whether two sides are the same.
fn is_side(own: Side, side: Side) -> bool
    ensures { result ≡ same_side (side_of own) (side_of side) }
{
    match own {
        Side::AtMost => matches!(side, Side::AtMost),
        Side::AtLeast => matches!(side, Side::AtLeast),
    }
}

/// Whether a variable has this name.
pub fn is_named(variable: &Bit, name: &Named) -> bool
    ensures { result ≡ same_variable (variable_of variable.now) (variable_named name.now) }
{
    match variable {
        Bit::MainTick => matches!(name, Named::MainTick),
        Bit::Tick(own) => match name {
            Named::Tick(place) => is_place(own, place),
            _ => false,
        },
        Bit::Kept(own, own_number) => match name {
            Named::Kept(place, number) => is_place(own, place) && *own_number == *number,
            _ => false,
        },
        Bit::Next => false,
        Bit::Input(own, own_number) => match name {
            Named::Input(input, number) => *own as usize == *input && *own_number == *number,
            _ => false,
        },
        Bit::Test(own, own_side) => match name {
            Named::Test(place, side) => is_place(own, place) && is_side(*own_side, *side),
            _ => false,
        },
    }
}

/// The number of the first variable with a name.
fn number_of(variables: &[Bit], name: &Named) -> Option<u32>
    requires { length variables.now ≤ 4096 }
    ensures { MatchOption result
        ((v : Valuation) → truth_at (map variable_of variables.now) v (variable_named name.now) ≡ false)
        (λ n. (n < length variables.now) × ((v : Valuation) → truth_at (map variable_of variables.now) v (variable_named name.now) ≡ v n)) }
{
    for (number, variable) in variables.iter().enumerate() {
        if is_named(variable, name) {
            return Some(number as u32);
        }
    }
    None
}

/// The reference of the first variable with a name, or the constant false where there is none.
pub fn truth(store: &mut Store, variables: &[Bit], name: &Named) -> Result<Ref, StoreFault>
    requires few { length variables.now ≤ 4096 }
    requires variables { length variables.now ≤ store.old.variables }
    ensures ok { IfOk result (Makes store.old store.new (λ v. truth_at (map variable_of variables.now) v (variable_named name.now))) }
    ensures roomy { IsErrOf result StoreFault.Nodes → store.old.limit < 2 ^ (2 ^ store.old.variables) }
{
    match number_of(variables, name) {
        Some(number) => store.variable(number),
        None => Ok(store.constant(false)),
    }
}

/// The name of a bit.
fn bit_name<'a>(owner: &Owner<'a>, number: u32) -> Named<'a>
    ensures { variable_named result ≡ owned owner.now number }
{
    match owner {
        Owner::Memory(place) => Named::Kept(place, number),
        Owner::Input(input) => Named::Input(*input, number),
    }
}

/// The references of the first bits of a memory or input.
pub fn owned_bits(
    alloc: Global,
    store: &mut Store,
    variables: &[Bit],
    owner: &Owner,
    count: u32,
) -> Result<Many<Ref>, StoreFault>
    requires few { length variables.now ≤ 4096 }
    requires variables { length variables.now ≤ store.old.variables }
    ensures ok { IfOk result (Spells store.old store.new (λ b v. nat_lt b count && truth_at (map variable_of variables.now) v (owned owner.now b))) }
    ensures size { IfOk result (λ refs. length refs ≡ count) }
    ensures roomy { IsErrOf result StoreFault.Nodes → store.old.limit < 2 ^ (2 ^ store.old.variables) }
{
    let mut refs = Many::new(alloc);
    for number in 0..count {
        refs.push(truth(store, variables, &bit_name(owner, number))?)?;
    }
    Ok(refs)
}

/// The least number of bits with which so many labels can be told apart.
fn label_bits(labels: usize) -> u32
    requires { labels ≤ 256 }
    ensures { result ≡ bits_for labels }
{
    let mut bits = 0;
    let mut codes = 1;
    while codes < labels {
        codes *= 2;
        bits += 1;
    }
    bits
}

/// How many bits a value of a type has; integers have none.
pub fn bits_of_kind(labels: &Many<Many<Text>>, kind: Kind) -> u32
    requires { IsTrue (all_few 256 labels.now) }
    ensures { result ≡ bit_count (map (λ ls. length ls) labels.now) kind }
{
    match kind {
        Kind::Bool => 1,
        Kind::Int => 0,
        Kind::Labels(number) => match labels.get(number as usize) {
            Some(labels) => label_bits(labels.len()),
            None => 0,
        },
    }
}
