//! The types and values of constants, from the first to the last.

ghost use Rattle.std.specs.Prelude.{◌≡◌, ◌≤◌, ◌++◌, [], ◌∷◌, reverse, nat_abs, IfOk};
ghost use Rattle.rv_tree.specs.Tree.{constant_tree, program_tree, tree_of};
ghost use Rattle.rv_types.specs.Constants.{whole_in, value_of};
ghost use Rattle.rv_types.specs.ConstantTables.{AreTablesOf, as_declared_by, declared_clash, constant_types_by};
ghost use Rattle.rv_types.specs.Earliest.{first, sooner};
ghost use Rattle.rv_types.specs.Scopes.{constant_scope, constant_kinds_of, constant_values, constant_types};
ghost use Rattle.rv_types.specs.Tables.{entry_in, scope_of, value_in};
ghost use Rattle.rv_types.specs.Types.{kind_of};
ghost use Rattle.rv_base.specs.Limits.{too_heavy};
ghost use Rattle.rv_types.specs.ValueTables.{known_in, AreSmall};

use crate::fault::NameFault;
use crate::first::sooner_of;
use crate::kinds::written;
use crate::rules::{clash_of, is_same};
use crate::space::Space;
use crate::typed::Kind;
use crate::typing::judge;
use crate::values::{Known, evaluate};
use crate::view::{Label, Values, View};
use rv_base::{Many, Memory, Value};
use rv_tree::{ConstDecl, Program, TypeName};
use std::alloc::Global;

/// The tables of what a program declares.
#[derive(Drop)]
pub struct Globals<'a> {
    pub types: &'a Space,
    pub type_kinds: &'a [Kind],
    pub constants: &'a Space,
    pub labels: &'a Space,
    pub places: &'a [Label],
}

/// What is known of constants: their types, where they have one, their values, and the first fault in them.
#[derive(Debug, Drop)]
pub struct Constants {
    pub kinds: Many<Option<Kind>>,
    pub values: Many<Value>,
    pub fault: Option<NameFault>,
}

/// What is known of one constant.
#[derive(Clone, Copy, Debug)]
struct Constant {
    kind: Option<Kind>,
    value: Value,
    fault: Option<NameFault>,
}

impl Constants {
    /// Of no constant.
    fn new(alloc: Global) -> Constants
        ensures kinds { result.kinds ≡ [] }
        ensures values { result.values ≡ [] }
        ensures fault { result.fault ≡ first [] }
    {
        Constants {
            kinds: Many::new(alloc),
            values: Many::new(alloc),
            fault: None,
        }
    }

    /// Of one more.
    fn add(&mut self, one: Constant) -> Result<(), Memory>
        ensures kinds { IfOk result (λ done. self.new.kinds ≡ self.old.kinds ++ one.kind ∷ []) }
        ensures values { IfOk result (λ done. self.new.values ≡ self.old.values ++ one.value ∷ []) }
        ensures fault { IfOk result (λ done. self.new.fault ≡ sooner self.old.fault one.fault) }
    {
        self.kinds.push(one.kind)?;
        self.values.push(one.value)?;
        self.fault = sooner_of(self.fault, one.fault);
        Ok(())
    }
}

fn as_declared(globals: &Globals, declared: &Option<TypeName>, kind: Option<Kind>) -> Option<Kind>
    ensures { result ≡ as_declared_by (entry_in globals.now.types.now globals.now.type_kinds.now) declared.now kind }
{
    match declared {
        None => kind,
        Some(t) => match kind {
            None => None,
            Some(k) => {
                if is_same(k, written(globals.types, globals.type_kinds, t)) {
                    Some(k)
                } else {
                    None
                }
            }
        },
    }
}

fn declared_fault(
    globals: &Globals,
    at: u32,
    declared: &Option<TypeName>,
    kind: Option<Kind>,
) -> Option<NameFault>
    ensures { result ≡ first (declared_clash (entry_in globals.now.types.now globals.now.type_kinds.now) at declared.now kind) }
{
    match declared {
        None => None,
        Some(t) => clash_of(at, written(globals.types, globals.type_kinds, t), kind),
    }
}

/// The type of a constant, and the first fault of types in it, by the tables of its body.
fn typed(globals: &Globals, view: &View, c: &ConstDecl) -> (Option<Kind>, Option<NameFault>)
    ensures kind { result.0 ≡ as_declared_by (entry_in globals.now.types.now globals.now.type_kinds.now) c.now.kind
        (kind_of (scope_of view.now) (tree_of c.now.body)) }
    ensures fault { result.1 ≡ first (constant_types_by (entry_in globals.now.types.now globals.now.type_kinds.now) (scope_of view.now) (constant_tree c.now)) }
{
    let body = judge(view, &c.body);
    let kind = body.kind();
    let clash = declared_fault(globals, c.body.at, &c.kind, kind);
    (
        as_declared(globals, &c.kind, kind),
        sooner_of(body.fault, clash),
    )
}

/// One constant, of what is known of those before it.
fn constant_after(globals: &Globals, none: &Space, before: &Constants, c: &ConstDecl) -> Constant
    requires none { none.now ≡ [] }
    requires small { AreSmall (known_in globals.now.constants.now before.now.values globals.now.labels.now globals.now.places.now) }
    ensures kind { result.kind ≡ as_declared_by (entry_in globals.now.types.now globals.now.type_kinds.now) c.now.kind
        (kind_of (constant_scope (value_in globals.now.constants.now before.now.kinds globals.now.labels.now globals.now.places.now)) (tree_of c.now.body)) }
    ensures value { result.value ≡ value_of (known_in globals.now.constants.now before.now.values globals.now.labels.now globals.now.places.now)
        (tree_of c.now.body) }
    ensures bound { nat_abs (whole_in result.value) ≤ too_heavy }
    ensures fault { result.fault ≡ first (constant_types_by (entry_in globals.now.types.now globals.now.type_kinds.now)
        (constant_scope (value_in globals.now.constants.now before.now.kinds globals.now.labels.now globals.now.places.now)) (constant_tree c.now)) }
{
    let view = View {
        flows: none,
        flow_kinds: &[],
        values: Values {
            constants: globals.constants,
            kinds: before.kinds.as_slice(),
            labels: globals.labels,
            places: globals.places,
        },
        nodes: none,
        signatures: &[],
        moves: false,
    };
    let (kind, fault) = typed(globals, &view, c);
    let known = Known {
        constants: globals.constants,
        values: before.values.as_slice(),
        labels: globals.labels,
        places: globals.places,
    };
    let value = evaluate(&known, &c.body).value;
    Constant { kind, value, fault }
}

/// The types and values of all constants, and the first fault of types in them.
pub fn constants_of(alloc: Global, globals: &Globals, p: &Program) -> Result<Constants, Memory>
    requires { AreTablesOf (program_tree p.now) globals.now.types.now globals.now.type_kinds.now globals.now.constants.now globals.now.labels.now
        globals.now.places.now }
    ensures kinds { IfOk result (λ c. c.kinds ≡ constant_kinds_of (program_tree p.now) (reverse (program_tree p.now).constants)) }
    ensures values { IfOk result (λ c. c.values ≡ constant_values (program_tree p.now)) }
    ensures fault { IfOk result (λ c. c.fault ≡ first (constant_types (program_tree p.now) (reverse (program_tree p.now).constants))) }
{
    let none = Space::new(alloc);
    let mut found = Constants::new(alloc);
    let constants = p.constants.as_slice();
    for c in constants {
        let one = constant_after(globals, &none, &found, c);
        found.add(one)?;
    }
    Ok(found)
}
