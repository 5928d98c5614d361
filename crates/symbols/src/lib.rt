//! What symbols stand for, and the conditions of edges. Types, definitions and laws are those of the crate `net`.
#![tactic(auto)]

ghost use Rattle.std.specs.Prelude.{◌≡◌};
ghost use Rattle.net.specs.State.{condition_of};
ghost use Rattle.net.specs.Symbols.{is_variable};
ghost use Rattle.net.specs.Tables.{vertex_of};

use net::{Condition, Symbol};

// The condition of an edge of a form whose symbol has a value: forms 0 and 3 close at 1, forms 1 and 2 at 0.
pub fn condition_of(form: u8, value: u8) -> Condition
    ensures { result ≡ condition_of form value }
{
    match form {
        0 => if value == 1 {
            Condition::NClosed
        } else {
            Condition::Open
        },
        1 => if value == 0 {
            Condition::PClosed
        } else {
            Condition::Open
        },
        2 => if value == 0 {
            Condition::NClosed
        } else {
            Condition::Open
        },
        3 => if value == 1 {
            Condition::PClosed
        } else {
            Condition::Open
        },
        _ => Condition::Open,
    }
}

// The vertex that a symbol stands for, or 0, which is no vertex: no Option, since a table has an entry for 0 too and is read there without a branch.
pub fn vertex_of(symbol: Symbol) -> u8
    ensures { result ≡ vertex_of symbol }
{
    match symbol {
        Symbol::Constant(_) => 0,
        Symbol::Letter(_) => 0,
        Symbol::Vertex(v) => v,
        Symbol::Unknown => 0,
    }
}

// Does the value of a symbol depend on the state?
pub fn is_variable(symbol: Symbol) -> bool
    ensures { result ≡ is_variable symbol }
{
    match symbol {
        Symbol::Constant(_) => false,
        Symbol::Letter(_) => true,
        Symbol::Vertex(_) => true,
        Symbol::Unknown => false,
    }
}
