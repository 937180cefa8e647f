// What an applied table runs: the action of a rule or of the default, with its data.
#![tactic(auto)]

ghost use Rattle.std.specs.Prelude.{◌≡◌, ℕ, Some, ◌+◌, ◌≤◌, ◌<◌, length};
ghost use Rattle.model.specs.Lists.{word};
ghost use Rattle.model.specs.Blocks.{A as actions, T, R, call_at};
ghost use Rattle.model.specs.Tables.{call_of};
ghost use Rattle.actions.specs.Scopes.{given_in, Calls};

use blocks::{Pipeline, Program};

// Where a statement stands: in the program, or inside an action's body; with the data that stand for its parameters.
#[derive(Clone, Copy)]
pub enum Scope {
    Program([u32; 2]),
    Body([u32; 2]),
}

impl Scope {
    // The data that stand for the parameters. The program has no parameters: any data would do.
    pub fn given(&self) -> [u32; 2]
        ensures { result ≡ given_in self.now }
    {
        match *self {
            Scope::Program(given) | Scope::Body(given) => given,
        }
    }
}

#[derive(Clone, Copy)]
pub struct Action {
    pub body: usize,
    pub scope: Scope,
}

// The action that is called by the three words at a place.
fn action_at(p: &Pipeline, ws: &[u32], at: usize) -> Action
    requires at_in_bounds { at + 3 ≤ length ws.now }
    requires at_bound { word ws.now at < actions p.now }
    ensures { Calls p.now result (call_at ws.now at) }
{
    Action {
        body: p.body(ws[at] as usize) as usize,
        scope: Scope::Body([ws[at + 1], ws[at + 2]]),
    }
}

// The action of a rule of table t, or of its default.
#[tactic(auto, using(crate::proofs::Actions::rule_there, crate::proofs::Actions::default_there))]
pub fn action_of(p: &Program, t: usize, hit: Option<usize>) -> Action
    requires t_bound { t < T p.now.pipeline }
    requires there { (i : ℕ) → hit ≡ Some i → i < R p.now.rules }
    ensures { Calls p.now.pipeline result (call_of p.now.pipeline p.now.rules t hit) }
{
    let pipeline = &p.pipeline;
    let rules = &p.rules;
    match hit {
        Some(i) => action_at(pipeline, rules.words(), rules.call_place(i)),
        None => action_at(pipeline, pipeline.words(), pipeline.default_place(t)),
    }
}
