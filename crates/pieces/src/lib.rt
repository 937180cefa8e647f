// The pieces of a passive form. Each is written at the start of the area that it is lent, and answers the number of the node behind it: the
// part of the area behind a piece is lent to the writer of the next one. A node is written only where there is room for it, so that on an
// empty area the same calls only count. A piece's first number and its area are two parameters, and no struct: the area is lent on in parts, and
// the numbers go on where it does not.
#![tactic(auto)]

ghost use Rattle.std.specs.Prelude.{◌≡◌, List, [], ◌∷◌, ◌≤◌, ◌<◌, length};
ghost use Rattle.model.specs.Blocks.{N, node, words};
ghost use Rattle.model.specs.Nodes.{kinds, kind_in, number_of};
ghost use Rattle.model.specs.Trees.{tree};
ghost use Rattle.model.specs.Calls.{over};
ghost use Rattle.model.specs.declared.Node.{Node};
ghost use Rattle.model.specs.declared.Role.{Role};
ghost use Rattle.pieces.specs.Pieces.{Emitted, Behind, Start, emit_tree, child_nodes, word_of, shown, placed};
ghost use Rattle.pieces.specs.Sound.{Sound, Expression, ChildThere};

use bits::Op;
use blocks::{Pipeline, word_in};
use model::{Comparison, Connective, Kind, Node, Role, Roles};

// A form above so many nodes is too large.
pub const LIMIT: u32 = 65536;

// The number that a kind has in a node. (A function and no `From`, since the type is another crate's, and no `as`, since some kinds hold an
// operation.)
pub fn number(kind: Kind) -> u32
    ensures { result ≡ number_of kind }
{
    match kind {
        Kind::Unknown => 0,
        Kind::Constant => 1,
        Kind::Field => 2,
        Kind::Parameter => 3,
        Kind::Binary(Op::Sum) => 4,
        Kind::Binary(Op::Difference) => 5,
        Kind::Binary(Op::And) => 6,
        Kind::Binary(Op::Or) => 7,
        Kind::Binary(Op::Xor) => 8,
        Kind::Complement => 9,
        Kind::Slice => 10,
        Kind::Join => 11,
        Kind::Select => 12,
        Kind::Truth => 16,
        Kind::Compare(Comparison::Equal) => 17,
        Kind::Compare(Comparison::Less) => 18,
        Kind::Not => 19,
        Kind::Connect(Connective::And) => 20,
        Kind::Connect(Connective::Or) => 21,
        Kind::Skip => 32,
        Kind::Assign => 33,
        Kind::Havoc => 34,
        Kind::Assume => 35,
        Kind::Assert => 36,
        Kind::Sequence => 37,
        Kind::Choice => 38,
        Kind::Apply => 39,
    }
}

pub fn of_kind(kind: Kind, a: u32, b: u32, c: u32) -> Node
    ensures { result ≡ node (number_of kind) a b c }
{
    Node {
        kind: number(kind),
        a,
        b,
        c,
    }
}

// Words, where there is room for them. (`get_mut` promises nothing of a slice that is written through it: the proof didn't close.)
pub fn put_room(ws: &[u32], out: &mut [u32])
    ensures { length ws.now ≤ length out.old → out.new ≡ over ws.now out.old }
{
    if ws.len() <= out.len() {
        areas::put(ws, out);
    }
}

// A node, which has the number `at`. Above the limit nothing is written, and the number goes no further. (A number, and no
// `Option`: `Emitted` says of each piece that the number behind it is above the limit where the piece goes beyond it.)
pub fn put_node(at: u32, n: Node, out: &mut [u32]) -> u32
    ensures { Emitted (n ∷ []) at out.old out.new result }
{
    if LIMIT < at {
        return at;
    }
    let words = [n.kind, n.a, n.b, n.c];
    put_room(&words, out);
    at + 1
}

// Where an area of `count` words goes on behind the nodes from `at` up to `to`.
pub fn start(at: u32, to: u32, count: usize) -> usize
    requires { at ≤ to }
    ensures { Start at to count result }
{
    (blocks::NODE * (to - at) as usize).min(count)
}

// A node behind what stands in the area, which holds the nodes from the number `from` on.
pub fn node_behind(from: u32, at: u32, n: Node, out: &mut [u32]) -> u32
    requires { from ≤ at }
    ensures behind { Behind (λ _. n ∷ []) from at out.old out.new result }
    ensures lower_bound { 1 ≤ result }
{
    let s = start(from, at, out.len());
    put_node(at, n, &mut out[s..])
}

// Nodes one behind the other, where there is room for all of them.
fn write_nodes(nodes: &[Node], out: &mut [u32])
    ensures { length (words nodes.now) ≤ length out.old → out.new ≡ over (words nodes.now) out.old }
{
    if nodes.len() <= out.len() / blocks::NODE {
        for i in 0..nodes.len() {
            let n = nodes[i];
            areas::put(&[n.kind, n.a, n.b, n.c], &mut out[blocks::NODE * i..]);
        }
    }
}

// Nodes one behind the other, of which the first has the number `at`. The limit and the room are looked at once for all of them, since a join
// has many such lists.
pub fn put_nodes(at: u32, nodes: &[Node], out: &mut [u32]) -> u32
    ensures { Emitted nodes.now at out.old out.new result }
{
    if LIMIT < at {
        return at;
    }
    write_nodes(nodes, out);
    at + nodes.len().min(LIMIT as usize + 1) as u32
}

// A node of the pipeline as the passive form has it: a field by its current variable, a parameter as a constant.
fn shown(kind: Kind, n: Node, given: &[u32; 2], current: &[u32]) -> Node
    requires { kind ≡ kind_in kinds n.kind }
    ensures { result ≡ shown current.now given.now n }
{
    match kind {
        Kind::Field => of_kind(Kind::Field, word_in(current, n.a), 0, 0),
        Kind::Parameter => of_kind(Kind::Constant, word_in(given, n.a), n.b, 0),
        _ => n,
    }
}

// A word of the new node, where `to` is the number behind that child.
fn word_of(role: Role, x: u32, to: u32) -> u32
    requires { role ≡ Role.Child → 1 ≤ to }
    ensures { result ≡ word_of role x to }
{
    match role {
        Role::Child => to - 1,
        Role::Number => x,
        Role::Unused => 0,
    }
}

// The node's words behind its children.
fn placed(roles: Roles, n: Node, a: u32, b: u32, c: u32) -> Node
    requires le_a { roles.a ≡ Role.Child → 1 ≤ a }
    requires le_b { roles.b ≡ Role.Child → 1 ≤ b }
    requires le_c { roles.c ≡ Role.Child → 1 ≤ c }
    ensures { result ≡ placed roles n a b c }
{
    Node {
        kind: n.kind,
        a: word_of(roles.a, n.a, a),
        b: word_of(roles.b, n.b, b),
        c: word_of(roles.c, n.c, c),
    }
}

// The value or the test at node n, over the current variables: the pieces of its children in order, and then its own node. (`given` and
// `current` are two references that `forms` has apart: a struct of both would be made anew at each call, and no clause would be shorter.)
#[cycle(child_behind_tree_at)]
fn tree_at(
    p: &Pipeline,
    given: &[u32; 2],
    current: &[u32],
    n: usize,
    at: u32,
    out: &mut [u32],
) -> u32
    requires sound { Sound p.now }
    requires n_bound { n < N p.now }
    requires expression { Expression (tree p.now given.now n) }
    ensures { Emitted (emit_tree current.now (tree p.now given.now n) at) at out.old out.new result }
{
    // (As `put_node`.)
    if LIMIT < at {
        return at;
    }
    let read = p.node(n);
    let kind = nodes::kind_in(read.kind);
    let roles = nodes::roles(kind);
    let a = child_behind(p, given, current, roles.a, read.a, at, at, out);
    let b = child_behind(p, given, current, roles.b, read.b, at, a, out);
    let c = child_behind(p, given, current, roles.c, read.c, at, b, out);
    let own = placed(roles, shown(kind, read, given, current), a, b, c);
    node_behind(at, c, own, out)
}

// The piece of a word that is a child, behind what stands in the area. The part of the area that is still free is lent to it.
#[cycle(child_behind_tree_at)]
pub fn child_behind(
    p: &Pipeline,
    given: &[u32; 2],
    current: &[u32],
    role: Role,
    x: u32,
    from: u32,
    at: u32,
    out: &mut [u32],
) -> u32
    requires sound { Sound p.now }
    requires onward { from ≤ at }
    requires child_there { ChildThere (N p.now) (tree p.now given.now) role x }
    ensures behind { Behind (child_nodes current.now (tree p.now given.now) role x) from at out.old out.new result }
    ensures lower_bound { role ≡ Role.Child → 1 ≤ result }
{
    match role {
        Role::Child => {
            let s = start(from, at, out.len());
            tree_at(p, given, current, x as usize, at, &mut out[s..])
        }
        _ => at,
    }
}
