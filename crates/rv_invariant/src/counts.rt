//! The numbers of a flat system by which the ranges of its certificates go.

ghost use Rattle.std.specs.Prelude.{◌≡◌, count_by};
ghost use Rattle.rv_types.specs.Variables.{is_integer};
ghost use Rattle.rv_invariant.specs.Shapes as shapes;

use rv_flat::{Bit, Flat, FlatMemory};
use rv_types::Kind;

/// How many state bits, diagram variables, integer memories and order tests a system has.
#[derive(Clone, Copy)]
pub struct Shape {
    pub states: u32,
    pub variables: u32,
    pub memories: u32,
    pub tests: u32,
}

/// Whether a variable is a next copy.
fn is_next(variable: &Bit) -> bool
    ensures { result ≡ shapes.is_next variable.now }
{
    match variable {
        Bit::Next => true,
        _ => false,
    }
}

/// Whether a variable is an order test.
fn is_test(variable: &Bit) -> bool
    ensures { result ≡ shapes.is_test variable.now }
{
    match variable {
        Bit::Test(_, _) => true,
        _ => false,
    }
}

/// Whether a memory is an integer.
fn is_whole(memory: &FlatMemory) -> bool
    ensures { result ≡ is_integer memory.now.kind }
{
    match memory.kind {
        Kind::Int => true,
        _ => false,
    }
}

/// How many of the variables are next copies, each of a state bit.
fn count_states(variables: &[Bit]) -> usize
    ensures { result ≡ count_by shapes.is_next variables.now }
{
    let mut count = 0;
    for variable in variables {
        if is_next(variable) {
            count += 1;
        }
    }
    count
}

/// How many of the variables are order tests.
fn count_tests(variables: &[Bit]) -> usize
    ensures { result ≡ count_by shapes.is_test variables.now }
{
    let mut count = 0;
    for variable in variables {
        if is_test(variable) {
            count += 1;
        }
    }
    count
}

/// How many of the memories are integers.
fn count_memories(memories: &[FlatMemory]) -> usize
    ensures { result ≡ count_by (λ m. is_integer m.kind) memories.now }
{
    let mut count = 0;
    for memory in memories {
        if is_whole(memory) {
            count += 1;
        }
    }
    count
}

/// The numbers of a flat system.
pub fn shape_of(flat: &Flat) -> Shape
    ensures { result ≡ shapes.shape flat.now }
{
    let states = count_states(flat.variables.as_slice());
    let variables = flat.variables.len();
    let memories = count_memories(flat.memories.as_slice());
    let tests = count_tests(flat.variables.as_slice());
    Shape {
        states: states as u32,
        variables: variables as u32,
        memories: memories as u32,
        tests: tests as u32,
    }
}
