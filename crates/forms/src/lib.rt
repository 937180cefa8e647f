// The passive form of a statement, behind the nodes that stand in the area. Node numbers go on from one piece to the next; above the limit
// nothing more is emitted, and the number says so. The two areas are lent apart, and not as a struct: parts of the nodes alone are lent on.
#![tactic(auto)]

ghost use Rattle.std.specs.Prelude.{◌≡◌, List, [], ◌∷◌, ℕ, Some, ◌-◌, ◌≤◌, ◌<◌, take};
ghost use Rattle.model.specs.Blocks.{F, N, T, R, widths as field_widths, node};
ghost use Rattle.model.specs.Nodes.{number_of};
ghost use Rattle.model.specs.Trees.{Stmt, as_value, as_test, tree};
ghost use Rattle.model.specs.Passive as passive;
ghost use Rattle.model.specs.Passive.{Passive, Origin, form, new_where_differs, no_apply, chain_form};
ghost use Rattle.model.specs.Emit.{form_limit};
ghost use Rattle.actions.specs.Scopes.{IsStatement};
ghost use Rattle.tables.specs.Next.{rest_of};
ghost use Rattle.pieces.specs.Pieces.{Behind, emit_tree};
ghost use Rattle.pieces.specs.Sound.{IsValue, IsTest, Expression};
ghost use Rattle.variables.specs.Variables.{vars};
ghost use Rattle.forms.specs.Writes.{Writes, Tests, JoinedBehind, form_of, OfTable, sequence_form, choice_form, guard_form, rule_form, rest_form};

use actions::{Scope, action_of};
use blocks::Program;
use guards::guard_behind;
use model::{Comparison, Kind, Role};
use pieces::{LIMIT, child_behind, node_behind, of_kind, start};
use tables::next;
use variables::{Made, Vars, join};

// Where the right side of a choice begins: behind the left one, from the variables before the choice, numbering on.
fn beside(before: Vars, left: Made) -> Made
    ensures at_value { result.at ≡ left.at }
    ensures vars_value { result.vars ≡ vars before.current left.vars.next }
{
    let mut vars = before;
    vars.next = left.vars.next;
    Made { at: left.at, vars }
}

// The value or the test at node n.
#[tactic(auto, using(crate::proofs::Steps::of_program))]
fn tree_behind(p: &Program, given: &[u32; 2], n: u32, from: Made, nodes: &mut [u32]) -> u32
    requires n_bound { n < N p.now.pipeline }
    requires expression { Expression (tree p.now.pipeline given.now n) }
    ensures behind { Behind (emit_tree (take (F p.now.pipeline) from.vars.current) (tree p.now.pipeline given.now n)) 0 from.at nodes.old nodes.new result }
    ensures lower_bound { 1 ≤ result }
{
    let vars = from.vars;
    let current = vars.fields(&p.pipeline);
    child_behind(
        &p.pipeline,
        given,
        current,
        Role::Child,
        n,
        0,
        from.at,
        nodes,
    )
}

// Skip.
fn skip_at(from: Made, nodes: &mut [u32]) -> Made
    ensures { (p widths : List ℕ) → Writes p (λ s. form Passive.skip s) from nodes.old nodes.new widths widths result }
{
    Made {
        at: node_behind(0, from.at, of_kind(Kind::Skip, 0, 0, 0), nodes),
        vars: from.vars,
    }
}

// Assume and assert: the test, then the node.
fn tested_at(
    p: &Program,
    given: &[u32; 2],
    kind: Kind,
    t: u32,
    from: Made,
    nodes: &mut [u32],
) -> Made
    requires t_bound { t < N p.now.pipeline }
    requires test { IsTest (tree p.now.pipeline given.now t) }
    ensures { (widths : List ℕ) → Tests p.now.pipeline (number_of kind) (as_test (tree p.now.pipeline given.now t)) from nodes.old nodes.new widths result }
{
    let x = tree_behind(p, given, t, from, nodes);
    Made {
        at: node_behind(0, x, of_kind(kind, x - 1, 0, 0), nodes),
        vars: from.vars,
    }
}

// Assign: the value, then a new variable's node, equal, assume.
#[tactic(auto, using(crate::proofs::Steps::of_program))]
fn assign_at(
    p: &Program,
    given: &[u32; 2],
    f: usize,
    value: u32,
    from: Made,
    nodes: &mut [u32],
    widths: &mut [u32],
) -> Made
    requires f_bound { f < F p.now.pipeline }
    requires value_bound { value < N p.now.pipeline }
    requires value { IsValue (tree p.now.pipeline given.now value) }
    requires room { from.at ≤ form_limit }
    ensures { Writes p.now.pipeline (passive.passify (field_widths p.now.pipeline) new_where_differs no_apply (Stmt.assign f (as_value (tree p.now.pipeline given.now value))))
        from nodes.old nodes.new widths.old widths.new result }
{
    let vars = from.vars;
    let x = tree_behind(p, given, value, from, nodes);
    let y = node_behind(0, x, of_kind(Kind::Field, vars.next, 0, 0), nodes);
    let equal = of_kind(Kind::Compare(Comparison::Equal), x - 1, y - 1, 0);
    let z = node_behind(0, y, equal, nodes);
    Made {
        at: node_behind(0, z, of_kind(Kind::Assume, z - 1, 0, 0), nodes),
        vars: vars.fresh(&p.pipeline, f, widths),
    }
}

// Havoc: a new variable, and a skip.
#[tactic(auto, using(crate::proofs::Steps::of_program))]
fn havoc_at(p: &Program, f: usize, from: Made, nodes: &mut [u32], widths: &mut [u32]) -> Made
    requires f_bound { f < F p.now.pipeline }
    requires room { from.at ≤ form_limit }
    ensures { Writes p.now.pipeline (passive.passify (field_widths p.now.pipeline) new_where_differs no_apply (Stmt.havoc f))
        from nodes.old nodes.new widths.old widths.new result }
{
    let vars = from.vars;
    Made {
        at: node_behind(0, from.at, of_kind(Kind::Skip, 0, 0, 0), nodes),
        vars: vars.fresh(&p.pipeline, f, widths),
    }
}

// Both sides of a choice are joined.
#[tactic(auto, using(crate::proofs::Steps::of_program))]
fn join_behind(
    p: &Program,
    before: Vars,
    left: Made,
    right: Made,
    nodes: &mut [u32],
    widths: &mut [u32],
) -> Made
    requires left_some { 1 ≤ left.at }
    requires right_some { 1 ≤ right.at }
    ensures onward { right.at ≤ result.at }
    ensures joined_behind { JoinedBehind p.now.pipeline before left right nodes.old nodes.new widths.old widths.new result }
{
    let s = start(0, right.at, nodes.len());
    join(
        &p.pipeline,
        before,
        left.at,
        left.vars,
        right,
        &mut nodes[s..],
        widths,
    )
}

// A sequence over two parts, of which the left ends before the number `left` and the right was made last.
fn pair_behind(left: u32, right: Made, nodes: &mut [u32]) -> Made
    requires left_some { 1 ≤ left }
    requires right_some { 1 ≤ right.at }
    ensures behind { Behind (λ _. node 37 (left - 1) (right.at - 1) 0 ∷ []) 0 right.at nodes.old nodes.new result.at }
    ensures vars_value { result.vars ≡ right.vars }
{
    let pair = of_kind(Kind::Sequence, left - 1, right.at - 1, 0);
    Made {
        at: node_behind(0, right.at, pair, nodes),
        vars: right.vars,
    }
}

// Assume that rule i matches, or that it doesn't.
#[tactic(auto, using(crate::proofs::Steps::of_program))]
fn guard_at(p: &Program, i: usize, negated: bool, from: Made, nodes: &mut [u32]) -> Made
    requires i_bound { i < R p.now.rules }
    ensures { (widths : List ℕ) → Writes p.now.pipeline (guard_form p.now.pipeline p.now.rules i negated) from
        nodes.old nodes.new widths widths result }
{
    let vars = from.vars;
    let current = vars.fields(&p.pipeline);
    Made {
        at: guard_behind(p, current, i, negated, from.at, nodes),
        vars,
    }
}

// The statement at node n.
#[cycle(statements)]
pub fn statement_at(
    p: &Program,
    scope: Scope,
    n: usize,
    from: Made,
    nodes: &mut [u32],
    widths: &mut [u32],
) -> Made
    requires statement { IsStatement p.now.pipeline p.now.rules scope n }
    ensures { Writes p.now.pipeline (form_of p.now.pipeline p.now.rules scope n) from
        nodes.old nodes.new widths.old widths.new result }
{
    // (As `pieces::put_node`. Field by field, since a copy of the whole would call C's `memmove`.)
    if LIMIT < from.at {
        return Made {
            at: from.at,
            vars: from.vars,
        };
    }
    let read = p.pipeline.node(n);
    let a = read.a as usize;
    let b = read.b as usize;
    let given = scope.given();
    match nodes::kind_in(read.kind) {
        Kind::Assign => assign_at(p, &given, a, read.b, from, nodes, widths),
        Kind::Havoc => havoc_at(p, a, from, nodes, widths),
        Kind::Assume => tested_at(p, &given, Kind::Assume, read.a, from, nodes),
        Kind::Assert => tested_at(p, &given, Kind::Assert, read.a, from, nodes),
        Kind::Sequence => sequence_at(p, scope, a, b, from, nodes, widths),
        Kind::Choice => choice_at(p, scope, a, b, from, nodes, widths),
        Kind::Apply => chain_at(p, a, next(&p.rules, a, None), from, nodes, widths),
        _ => skip_at(from, nodes),
    }
}

// Left, right, and the sequence over both.
#[cycle(statements)]
fn sequence_at(
    p: &Program,
    scope: Scope,
    a: usize,
    b: usize,
    from: Made,
    nodes: &mut [u32],
    widths: &mut [u32],
) -> Made
    requires first { IsStatement p.now.pipeline p.now.rules scope a }
    requires second { IsStatement p.now.pipeline p.now.rules scope b }
    ensures { Writes p.now.pipeline (sequence_form (form_of p.now.pipeline p.now.rules scope a) (form_of p.now.pipeline p.now.rules scope b)) from
        nodes.old nodes.new widths.old widths.new result }
{
    let left = statement_at(p, scope, a, from, nodes, widths);
    let right = statement_at(p, scope, b, left, nodes, widths);
    pair_behind(left.at, right, nodes)
}

// Left, then right from the variables before the choice, and both joined.
#[cycle(statements)]
fn choice_at(
    p: &Program,
    scope: Scope,
    a: usize,
    b: usize,
    from: Made,
    nodes: &mut [u32],
    widths: &mut [u32],
) -> Made
    requires first { IsStatement p.now.pipeline p.now.rules scope a }
    requires second { IsStatement p.now.pipeline p.now.rules scope b }
    ensures { Writes p.now.pipeline (choice_form p.now.pipeline Origin.of_pipeline (form_of p.now.pipeline p.now.rules scope a) (form_of p.now.pipeline p.now.rules scope b)) from
        nodes.old nodes.new widths.old widths.new result }
{
    let left = statement_at(p, scope, a, from, nodes, widths);
    let right = statement_at(p, scope, b, beside(from.vars, left), nodes, widths);
    join_behind(p, from.vars, left, right, nodes, widths)
}

// A table's chain from a rule on: a choice of that rule or the rest, and the default at its end.
#[cycle(statements)]
fn chain_at(
    p: &Program,
    t: usize,
    hit: Option<usize>,
    from: Made,
    nodes: &mut [u32],
    widths: &mut [u32],
) -> Made
    requires t_bound { t < T p.now.pipeline }
    requires of_table { OfTable p.now.rules t hit }
    ensures { Writes p.now.pipeline (chain_form p.now.pipeline p.now.rules new_where_differs t (rest_of p.now.rules t hit)) from
        nodes.old nodes.new widths.old widths.new result }
{
    match hit {
        Some(i) => {
            let left = rule_at(p, t, i, from, nodes, widths);
            let right = rest_at(p, t, i, beside(from.vars, left), nodes, widths);
            join_behind(p, from.vars, left, right, nodes, widths)
        }
        None => {
            let action = action_of(p, t, None);
            statement_at(p, action.scope, action.body, from, nodes, widths)
        }
    }
}

// Assume m, then the rule's body.
#[cycle(statements)]
fn rule_at(
    p: &Program,
    t: usize,
    i: usize,
    from: Made,
    nodes: &mut [u32],
    widths: &mut [u32],
) -> Made
    requires t_bound { t < T p.now.pipeline }
    requires i_bound { i < R p.now.rules }
    ensures { Writes p.now.pipeline (rule_form p.now.pipeline p.now.rules t i) from
        nodes.old nodes.new widths.old widths.new result }
{
    let action = action_of(p, t, Some(i));
    let guard = guard_at(p, i, false, from, nodes);
    let body = statement_at(p, action.scope, action.body, guard, nodes, widths);
    pair_behind(guard.at, body, nodes)
}

// Assume not m, then the rest.
#[cycle(statements)]
fn rest_at(
    p: &Program,
    t: usize,
    i: usize,
    from: Made,
    nodes: &mut [u32],
    widths: &mut [u32],
) -> Made
    requires t_bound { t < T p.now.pipeline }
    requires of_table { OfTable p.now.rules t (Some i) }
    ensures { Writes p.now.pipeline (rest_form p.now.pipeline p.now.rules t i) from
        nodes.old nodes.new widths.old widths.new result }
{
    let guard = guard_at(p, i, true, from, nodes);
    let rest = chain_at(p, t, next(&p.rules, t, Some(i)), guard, nodes, widths);
    pair_behind(guard.at, rest, nodes)
}
