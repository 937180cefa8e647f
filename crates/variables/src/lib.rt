// The variables of a passive form: a new one for a field, and how those of the two sides of a choice are joined. Only `joined` knows the
// rule of a join. A variable's width is written where the area has room for it.
#![tactic(auto)]

ghost use Rattle.std.specs.Prelude.{◌≡◌, List, [], ◌∷◌, ℕ, ◌+◌, ◌-◌, ◌≤◌, ◌<◌, length, take, get_or, set};
ghost use Rattle.model.specs.Blocks.{F, widths as field_widths};
ghost use Rattle.model.specs.Passive as passive;
ghost use Rattle.model.specs.Passive.{new_where_differs, equations};
ghost use Rattle.model.specs.Emit.{form_limit};
ghost use Rattle.pieces.specs.Pieces.{Emitted};
ghost use Rattle.variables.specs.Variables.{Holds};
ghost use Rattle.variables.specs.Joined.{Joins};
ghost use Rattle.variables.specs.Sides.{field_vars, Sized, Numbered, JoinsVars, Ties, equation_nodes, choice_nodes};

mod place;

use blocks::Pipeline;
use model::{Comparison, Kind, Node};
use pieces::{LIMIT, of_kind, put_node, put_nodes, start};
pub use place::Made;

// The current variable of each field, in the first F words, and the next new one. (An array, since memory is fixed; F is the pipeline's.)
#[derive(Clone, Copy)]
pub struct Vars {
    pub current: [u32; 32],
    pub next: u32,
}

// That the fields are few stands in six contracts: callers have a `Program`, and a type for this alone would be made anew at each call, no plainer.
impl Vars {
    // The variables of the fields.
    pub fn fields(&self, p: &Pipeline) -> &[u32]
        requires few_fields { F p.now ≤ 32 }
        ensures value { result.now ≡ field_vars p.now self.now }
        ensures one_each { length result.now ≡ F p.now }
    {
        let count = p.field_count();
        &self.current[..count]
    }

    // A new variable for field f.
    pub fn fresh(self, p: &Pipeline, f: usize, widths: &mut [u32]) -> Vars
        requires few_fields { F p.now ≤ 32 }
        requires f_bound { f < F p.now }
        requires next_bound { self.next ≤ 10000000 }
        ensures next_value { result.next ≡ self.next + 1 }
        ensures holds { (lent : List ℕ) (s : passive.Vars) → Holds p.now lent widths.old self s
            → Holds p.now lent widths.new result (passive.fresh s f (get_or (field_widths p.now) f 0)) }
    {
        let mut current = self.current;
        let new = self.next;
        put_width(new, p.width(f), widths);
        current[f] = new;
        Vars {
            current,
            next: new + 1,
        }
    }
}

// The number of the node behind a side's equations, and that of the side's own node.
#[derive(Clone, Copy)]
struct Tied {
    at: u32,
    side: u32,
}

// The width of a variable, where there is room for it. (`get_mut` promises nothing of a slice that is written through it: the proof of
// `if let Some(w) = widths.get_mut(i)` didn't close.)
fn put_width(variable: u32, width: u32, widths: &mut [u32])
    ensures { widths.new ≡ set widths.old variable width }
{
    let i = variable as usize;
    if i < widths.len() {
        widths[i] = width;
    }
}

// Document 01's rule: a field whose current variable differs gets a new one.
fn joined(before: u32, left: u32, right: u32, new: u32) -> u32
    ensures { result ≡ new_where_differs before left right new }
{
    if left == right { left } else { new }
}

// The next new variable behind a joined one.
fn numbered(joined: u32, new: u32, width: u32, widths: &mut [u32]) -> u32
    requires { new ≤ 20000000 }
    ensures { Numbered joined new width widths.old widths.new result }
{
    if joined == new {
        put_width(new, width, widths);
        return new + 1;
    }
    new
}

// The fields' variables after a choice, from those before it, after its left side and after its right side.
fn join_fields(
    ws: &[u32],
    before: &[u32],
    left: &[u32],
    right: &[u32],
    new: u32,
    widths: &mut [u32],
) -> Vars
    requires sized { Sized ws.now before.now left.now right.now }
    requires bound { new ≤ 10000000 }
    ensures { JoinsVars new_where_differs ws.now before.now left.now right.now new
        widths.old widths.new result }
{
    let mut current = [0u32; 32];
    let mut next = new;
    for i in 0..ws.len() {
        let z = joined(before[i], left[i], right[i], next);
        current[i] = z;
        next = numbered(z, next, ws[i], widths);
    }
    Vars { current, next }
}

// The same of the variables that are kept by value.
fn join_vars(p: &Pipeline, before: Vars, left: Vars, right: Vars, widths: &mut [u32]) -> Vars
    requires few_fields { F p.now ≤ 32 }
    requires next_bound { right.next ≤ 10000000 }
    ensures { JoinsVars new_where_differs (field_widths p.now) (field_vars p.now before) (field_vars p.now left)
        (field_vars p.now right) right.next widths.old widths.new result }
{
    let b = before.fields(p);
    let l = left.fields(p);
    let r = right.fields(p);
    join_fields(p.widths(), b, l, r, right.next, widths)
}

// An equation of a side's variable and the joined one: both, equal, assume, and a sequence over the side so far.
fn equation(at: u32, side: u32, own: u32, joined: u32) -> [Node; 5]
    requires { at ≤ form_limit }
    ensures { result ≡ equation_nodes own joined side at }
{
    [
        of_kind(Kind::Field, own, 0, 0),
        of_kind(Kind::Field, joined, 0, 0),
        of_kind(Kind::Compare(Comparison::Equal), at, at + 1, 0),
        of_kind(Kind::Assume, at + 2, 0, 0),
        of_kind(Kind::Sequence, side, at + 3, 0),
    ]
}

// The equation of one field on one side, where its joined variable is not the side's own.
fn put_equation(at: u32, side: u32, own: u32, joined: u32, nodes: &mut [u32]) -> Tied
    ensures { Ties (equations (own ∷ []) (joined ∷ [])) side at nodes.old nodes.new result }
{
    if own == joined {
        return Tied { at, side };
    }
    // (As `pieces::put_node`.)
    if LIMIT < at {
        return Tied { at, side };
    }
    let five = equation(at, side, own, joined);
    Tied {
        at: put_nodes(at, &five, nodes),
        side: at + 4,
    }
}

// One side's equations, fields ascending.
fn put_side(at: u32, node: u32, own: &[u32], joined: &[u32], nodes: &mut [u32]) -> Tied
    requires { length own.now ≡ length joined.now }
    ensures { Ties (equations own.now joined.now) node at nodes.old nodes.new result }
{
    let mut tied = Tied { at, side: node };
    for i in 0..own.len() {
        let s = start(at, tied.at, nodes.len());
        tied = put_equation(tied.at, tied.side, own[i], joined[i], &mut nodes[s..]);
    }
    tied
}

// The equations of both sides, whose nodes are given, and the choice.
fn put_choice(
    at: u32,
    left: u32,
    right: u32,
    lefts: &[u32],
    rights: &[u32],
    joined: &[u32],
    nodes: &mut [u32],
) -> u32
    requires lefts_one_each { length lefts.now ≡ length joined.now }
    requires rights_one_each { length rights.now ≡ length joined.now }
    ensures { Emitted (choice_nodes lefts.now rights.now joined.now left right at) at
        nodes.old nodes.new result }
{
    let x = put_side(at, left, lefts, joined, nodes);
    let s = start(at, x.at, nodes.len());
    let y = put_side(x.at, right, rights, joined, &mut nodes[s..]);
    let e = start(at, y.at, nodes.len());
    put_node(
        y.at,
        of_kind(Kind::Choice, x.side, y.side, 0),
        &mut nodes[e..],
    )
}

// The same of the sides as they were made, behind the right one.
fn put_join(
    p: &Pipeline,
    left: u32,
    left_vars: Vars,
    right: Made,
    joined: Vars,
    nodes: &mut [u32],
) -> u32
    requires few_fields { F p.now ≤ 32 }
    requires left_some { 1 ≤ left }
    requires right_some { 1 ≤ right.at }
    ensures { Emitted (choice_nodes (field_vars p.now left_vars) (field_vars p.now right.vars)
        (field_vars p.now joined) (left - 1) (right.at - 1) right.at) right.at nodes.old nodes.new result }
{
    let right_vars = right.vars;
    let lefts = left_vars.fields(p);
    let rights = right_vars.fields(p);
    put_choice(
        right.at,
        left - 1,
        right.at - 1,
        lefts,
        rights,
        joined.fields(p),
        nodes,
    )
}

// What stands behind both sides of a choice: the equations of each, and the choice. Nothing, where the right side went beyond the limit.
// The left side is not a `Made`: nothing is asked of how many variables it has. That both sides have ended behind a node is a clause, and no
// field of `Made`: a form begins at 0.
pub fn join(
    p: &Pipeline,
    before: Vars,
    left: u32,
    left_vars: Vars,
    right: Made,
    nodes: &mut [u32],
    widths: &mut [u32],
) -> Made
    requires few_fields { F p.now ≤ 32 }
    requires left_some { 1 ≤ left }
    requires right_some { 1 ≤ right.at }
    ensures onward { right.at ≤ result.at }
    ensures joins { (lent : List ℕ) (b l r : passive.Vars) → field_vars p.now before ≡ b.current
        → field_vars p.now left_vars ≡ l.current → Holds p.now lent widths.old right.vars r
        → Joins p.now lent b l r left right.at nodes.old nodes.new widths.new result }
{
    // (As `pieces::put_node`.)
    if LIMIT < right.at {
        return right;
    }
    let vars = join_vars(p, before, left_vars, right.vars, widths);
    Made {
        at: put_join(p, left, left_vars, right, vars, nodes),
        vars,
    }
}
