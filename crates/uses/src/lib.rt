// Check's refusals 8 and 9, in time linear in the block: the first node that is not used exactly once, and the first parameter or apply in
// the wrong place.
#![tactic(auto)]

ghost use Rattle.std.specs.Prelude.{◌≡◌, List, [], ◌∷◌, ℕ, Option, Some, None, ◌≤◌, ◌<◌};
ghost use Rattle.model.specs.Lists.{each, joined};
ghost use Rattle.model.specs.Blocks.{N, A as actions, body, pipeline_node};
ghost use Rattle.model.specs.Nodes.{child_in, children};
ghost use Rattle.model.specs.Refusals.{under_each, placed_well};
ghost use Rattle.uses.specs.Counts.{there, all_there, Adds, first_miscounted};
ghost use Rattle.uses.specs.Owners.{UsedOnce, Gives, Owned, has_parameter, first_misplaced};

use blocks::Pipeline;
use model::{Kind, Node, Role};

fn child(role: Role, x: u32) -> Option<u32>
    ensures { there result ≡ child_in role x }
{
    match role {
        Role::Child => Some(x),
        Role::Number | Role::Unused => None,
    }
}

// Those of a node's words that are children.
fn children(n: Node) -> [Option<u32>; 3]
    ensures { all_there result ≡ children n }
{
    let w = nodes::roles(nodes::kind_in(n.kind));
    [child(w.a, n.a), child(w.b, n.b), child(w.c, n.c)]
}

// One more use of node x. What is used twice stays at 2.
#[tactic(auto, using(crate::proofs::Counts::adds_raised, crate::proofs::Counts::adds_full, crate::proofs::Counts::adds_past))]
fn count(counts: &mut [u8; 1024], x: u32)
    ensures { Adds (x ∷ []) counts.old counts.new }
{
    let at = x as usize;
    if at < 1024 && counts[at] < 2 {
        counts[at] += 1;
    }
}

fn count_node(counts: &mut [u8; 1024], n: Node)
    ensures { Adds (children n) counts.old counts.new }
{
    let words = children(n);
    for child in &words {
        if let Some(x) = child {
            count(counts, *x);
        }
    }
}

fn count_children(p: &Pipeline, counts: &mut [u8; 1024])
    ensures { Adds (joined (λ i. children (pipeline_node p.now i)) (N p.now)) counts.old counts.new }
{
    for i in 0..p.node_count() {
        count_node(counts, p.node(i));
    }
}

fn count_bodies(p: &Pipeline, counts: &mut [u8; 1024])
    ensures { Adds (each (body p.now) (actions p.now)) counts.old counts.new }
{
    for k in 0..p.action_count() {
        count(counts, p.body(k));
    }
}

// 8: the first node that is not used exactly once, if there is one.
pub fn first_miscounted(p: &Pipeline) -> Option<usize>
    requires { N p.now ≤ 1024 }
    ensures { result ≡ first_miscounted p.now }
{
    // 1,024 places, since memory is fixed and Check lends none.
    let mut counts = [0u8; 1024];
    count_children(p, &mut counts);
    count_bodies(p, &mut counts);
    let root = p.root();
    count(&mut counts, root);
    places::first_not(|i| counts[i] == 1, p.node_count())
}

// Node x belongs to an owner: to an action, or to none.
#[tactic(auto, using(crate::proofs::Owners::gives_one))]
fn own(owners: &mut [Option<u8>; 1024], x: u32, owner: Option<u8>)
    ensures { Gives (x ∷ []) owner owners.old owners.new }
{
    let at = x as usize;
    if at < 1024 {
        owners[at] = owner;
    }
}

// The walk of `count_node`. One for both is no plainer: it would be a trait with the laws that `Adds` and `Gives` share, longer than the walk.
fn own_node(owners: &mut [Option<u8>; 1024], n: Node, owner: Option<u8>)
    ensures { Gives (children n) owner owners.old owners.new }
{
    let words = children(n);
    for child in &words {
        if let Some(x) = child {
            own(owners, *x, owner);
        }
    }
}

// A pipeline each of whose nodes is used once, so that it belongs to one action or to none.
#[derive(Drop)]
struct Tree<'a> {
    pipeline: &'a Pipeline<'a>,
    ghost nodes: { N pipeline.now ≤ 1024 },
    ghost actions: { actions pipeline.now ≤ 64 },
    ghost used_once: { UsedOnce pipeline.now },
}

impl<'a> Tree<'a> {
    fn own_bodies(&self, owners: &mut [Option<u8>; 1024])
        requires { Owned self.now.pipeline.now 0 (N self.now.pipeline.now) owners.old }
        ensures { Owned self.now.pipeline.now (actions self.now.pipeline.now) (N self.now.pipeline.now) owners.new }
    {
        let p = self.pipeline;
        for k in 0..p.action_count() {
            own(owners, p.body(k), Some(k as u8));
        }
    }

    // Children stand before their parents: from the last node down, each node's owner is known before it is handed down.
    fn own_children(&self, owners: &mut [Option<u8>; 1024])
        requires { Owned self.now.pipeline.now (actions self.now.pipeline.now) (N self.now.pipeline.now) owners.old }
        ensures { Owned self.now.pipeline.now (actions self.now.pipeline.now) 0 owners.new }
    {
        let p = self.pipeline;
        for i in (0..p.node_count()).rev() {
            let owner = owners[i];
            own_node(owners, p.node(i), owner);
        }
    }

    // Whether an owner is an action, and one that has parameter a with width b.
    fn has_parameter(&self, owner: Option<u8>, a: u32, b: u32) -> bool
        requires { (k : ℕ) → owner ≡ Some k → k < actions self.now.pipeline.now }
        ensures { result ≡ has_parameter self.now.pipeline.now owner a b }
    {
        let p = self.pipeline;
        match owner {
            None => false,
            Some(action) => {
                let k = action as usize;
                a < p.parameter_count(k) && b == p.parameter_width(k, a as usize)
            }
        }
    }

    fn placed_well(&self, owners: &[Option<u8>; 1024], i: usize) -> bool
        requires owned { Owned self.now.pipeline.now (actions self.now.pipeline.now) 0 owners.now }
        requires i_bound { i < N self.now.pipeline.now }
        ensures { result ≡ placed_well self.now.pipeline.now (under_each self.now.pipeline.now) i }
    {
        let n = self.pipeline.node(i);
        let owner = owners[i];
        match nodes::kind_in(n.kind) {
            Kind::Parameter => self.has_parameter(owner, n.a, n.b),
            Kind::Apply => owner.is_none(),
            _ => true,
        }
    }
}

// 9: the first parameter or apply in the wrong place, if there is one.
pub fn first_misplaced(p: &Pipeline) -> Option<usize>
    requires nodes { N p.now ≤ 1024 }
    requires actions { actions p.now ≤ 64 }
    requires used_once { UsedOnce p.now }
    ensures { result ≡ first_misplaced p.now }
{
    let tree = Tree { pipeline: p };
    // As above.
    let mut owners = [None; 1024];
    tree.own_bodies(&mut owners);
    tree.own_children(&mut owners);
    places::first_not(|i| tree.placed_well(&owners, i), p.node_count())
}
