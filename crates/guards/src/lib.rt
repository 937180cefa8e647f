// The guards of a table's chain: assume that a rule matches, or that it does not.
#![tactic(auto)]

ghost use Rattle.std.specs.Prelude.{◌≡◌, ◌≤◌, ◌<◌};
ghost use Rattle.model.specs.Blocks.{R, key_count, table_of};
ghost use Rattle.model.specs.Nodes.{number_of};
ghost use Rattle.model.specs.Passive.{Passive, renamed_test, matching};
ghost use Rattle.model.specs.Emit.{emit_test, emit};
ghost use Rattle.pieces.specs.Pieces.{Behind};
ghost use Rattle.guards.specs.Guards.{masked, OverConstant, KeyBehind, guard_test};

use bits::Op;
use blocks::{Program, word_in};
use model::{Comparison, Connective, Kind};
use pieces::{node_behind, of_kind};

// Behind a piece whose last node is the one before `at`: a constant, and a node of the kind over both.
fn over_constant(kind: Kind, number: u32, width: u32, at: u32, nodes: &mut [u32]) -> u32
    requires { 1 ≤ at }
    ensures { OverConstant (number_of kind) number width at nodes.old nodes.new result }
{
    let constant = node_behind(0, at, of_kind(Kind::Constant, number, width, 0), nodes);
    node_behind(0, constant, of_kind(kind, at - 1, constant - 1, 0), nodes)
}

// A variable's bits under the mask equal the value: variable, mask, and, value, equal.
fn masked_behind(
    variable: u32,
    width: u32,
    mask: u32,
    value: u32,
    at: u32,
    nodes: &mut [u32],
) -> u32
    ensures behind { Behind (emit_test (masked variable width mask value)) 0 at nodes.old nodes.new result }
    ensures lower_bound { 1 ≤ result }
{
    let read = node_behind(0, at, of_kind(Kind::Field, variable, 0, 0), nodes);
    let under = over_constant(Kind::Binary(Op::And), mask, width, read, nodes);
    over_constant(Kind::Compare(Comparison::Equal), value, width, under, nodes)
}

// Key j of rule i: its test, and that what stood before holds and this.
#[tactic(auto, using(crate::proofs::Guards::table_there, crate::proofs::Guards::key_low, crate::proofs::Guards::field_there))]
fn key_behind(p: &Program, current: &[u32], i: usize, j: usize, at: u32, nodes: &mut [u32]) -> u32
    requires i_bound { i < R p.now.rules }
    requires j_bound { j < key_count p.now.pipeline (table_of p.now.rules i) }
    requires some { 1 ≤ at }
    ensures { KeyBehind p.now.pipeline p.now.rules current.now i j at nodes.old nodes.new result }
{
    let table = p.rules.table_of(i) as usize;
    let field = p.pipeline.key(table, j);
    let width = p.pipeline.width(field as usize);
    let mask = p.rules.mask(i, j);
    let value = p.rules.value(i, j);
    let own = masked_behind(word_in(current, field), width, mask, value, at, nodes);
    node_behind(
        0,
        own,
        of_kind(Kind::Connect(Connective::And), at - 1, own - 1, 0),
        nodes,
    )
}

// m, that rule i matches: truth 1, and then each key.
#[tactic(auto, using(crate::proofs::Guards::table_there))]
fn match_behind(p: &Program, current: &[u32], i: usize, at: u32, nodes: &mut [u32]) -> u32
    requires i_bound { i < R p.now.rules }
    ensures behind { Behind (emit_test (renamed_test current.now (matching p.now.pipeline p.now.rules i))) 0 at nodes.old nodes.new result }
    ensures lower_bound { 1 ≤ result }
{
    let table = p.rules.table_of(i) as usize;
    let count = p.pipeline.key_count(table) as usize;
    let mut to = node_behind(0, at, of_kind(Kind::Truth, 1, 0, 0), nodes);
    for j in 0..count {
        to = key_behind(p, current, i, j, to, nodes);
    }
    to
}

// Assume m, or not m, which is emitted afresh. (Two functions would be no plainer: what calls this says once what it does with either.)
pub fn guard_behind(
    p: &Program,
    current: &[u32],
    i: usize,
    negated: bool,
    at: u32,
    nodes: &mut [u32],
) -> u32
    requires i_bound { i < R p.now.rules }
    ensures behind { Behind (emit (Passive.assume (renamed_test current.now (guard_test p.now.pipeline p.now.rules i negated)))) 0 at nodes.old nodes.new result }
    ensures lower_bound { 1 ≤ result }
{
    let m = match_behind(p, current, i, at, nodes);
    if negated {
        let other = node_behind(0, m, of_kind(Kind::Not, m - 1, 0, 0), nodes);
        return node_behind(0, other, of_kind(Kind::Assume, other - 1, 0, 0), nodes);
    }
    node_behind(0, m, of_kind(Kind::Assume, m - 1, 0, 0), nodes)
}
