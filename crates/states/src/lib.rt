// Where a run stands, by value, and what the statements without children make of it.
#![tactic(auto)]

ghost use Rattle.std.specs.Prelude.{◌≡◌, List, ℕ, Ok, ◌+◌, ◌≤◌, ◌<◌, ◌^◌, set, if◌then◌else◌};
ghost use Rattle.model.specs.Blocks.{F, N, T, widths};
ghost use Rattle.model.specs.Trees.{Stmt, as_value, as_test, tree, truth_of, bits_in};
ghost use Rattle.model.specs.Tables.{hit, call_of};
ghost use Rattle.model.specs.Good.{GoodTest, Good, Within};
ghost use Rattle.model.specs.Runs.{run, no_apply};
ghost use Rattle.actions.specs.Scopes.{Calls};
ghost use Rattle.states.specs.States.{packet_in, state_in, outcome_by, Stands, EndsAs, Answers, Next, side_at, held, end_of, ends_by};

use actions::{Action, action_of};
use blocks::{Pipeline, Program};
use model::Refusal;

// Where a run stands: the packet in the first F words (of an array, since memory is fixed), and how many entries were used. It holds no
// pipeline that its packet fits, since a state that is carried by value would bring the pipeline's lifetime into every clause about it:
// `Stands` says that the two fit.
#[derive(Clone, Copy)]
pub struct State {
    pub packet: [u32; 32],
    pub used: usize,
}

// How a run ends: blocked and failed at a node. (Not `model::Ran`, which has the entries used beside: here the state has them.)
#[derive(Clone, Copy)]
pub enum Ending {
    Passed,
    Blocked(usize),
    Failed(usize),
}

#[derive(Clone, Copy)]
pub struct End {
    pub state: State,
    pub how: Ending,
}

impl State {
    // The packet's values. (That the fields are few is a clause, as in `variables::Vars`.)
    pub fn values(&self, p: &Pipeline) -> &[u32]
        requires { F p.now ≤ 32 }
        ensures { result.now ≡ packet_in p.now self.now }
    {
        let count = p.field_count();
        &self.packet[..count]
    }
}

// The state with field f set to x.
fn stored(s: State, f: usize, x: u32) -> State
    requires { f < 32 }
    ensures { result ≡ held (set s.packet f x) s.used }
{
    let mut packet = s.packet;
    packet[f] = x;
    State { packet, ..s }
}

// The state with one more entry used.
pub fn taken(s: State) -> State
    requires { s.used + 1 < 2 ^ 64 }
    ensures { result ≡ held s.packet (s.used + 1) }
{
    State {
        used: s.used + 1,
        ..s
    }
}

// The run goes on.
fn passed(state: State) -> End
    ensures { result ≡ end_of state Ending.Passed }
{
    End {
        state,
        how: Ending::Passed,
    }
}

// Field f takes the value of node v.
#[tactic(auto, using(crate::proofs::Leaves::assigns_value, crate::proofs::Leaves::assigns_place))]
pub fn assign(p: &Pipeline, given: &[u32; 2], s: State, f: usize, v: usize) -> End
    requires stands { Stands p.now s }
    requires v_bound { v < N p.now }
    requires good { Good (widths p.now) 0 (Stmt.assign f (as_value (tree p.now given.now v))) }
    ensures { (choices : List ℕ) → EndsAs p.now choices result
        (run (widths p.now) no_apply (Stmt.assign f (as_value (tree p.now given.now v))) (state_in p.now choices s)) }
{
    let x = values::bits_at(p, given, s.values(p), v);
    passed(stored(s, f, x.number))
}

// The run goes on where the test of node t holds, and else ends so, or is refused.
pub fn tested(
    p: &Pipeline,
    given: &[u32; 2],
    s: State,
    t: usize,
    otherwise: Result<Ending, Refusal>,
) -> Result<End, Refusal>
    requires stands { Stands p.now s }
    requires t_bound { t < N p.now }
    requires good_test { GoodTest (widths p.now) (as_test (tree p.now given.now t)) }
    ensures value { result ≡ ends_by s (if truth_of (bits_in (widths p.now) (packet_in p.now s)) (as_test (tree p.now given.now t)) then Ok Ending.Passed else otherwise) }
    ensures within { Within (widths p.now) (packet_in p.now s) }
{
    if values::truth_at(p, given, s.values(p), t) {
        return Ok(passed(s));
    }
    match otherwise {
        Ok(how) => Ok(End { state: s, how }),
        Err(why) => Err(why),
    }
}

// The next entry, where the list has one.
fn next_entry(choices: &[u32], used: usize) -> Result<u32, Refusal>
    ensures { Next choices.now used result }
{
    choices.get(used).copied().ok_or(Refusal::Short(used))
}

// Field f takes the next entry, where that fits.
#[tactic(auto, using(crate::proofs::Leaves::width_narrow, crate::proofs::Leaves::havoc_short, crate::proofs::Leaves::havoc_wrong))]
pub fn havoc(p: &Pipeline, choices: &[u32], s: State, f: usize) -> Result<End, Refusal>
    requires stands { Stands p.now s }
    requires f_bound { f < F p.now }
    ensures { Answers p.now choices.now result
        (run (widths p.now) no_apply (Stmt.havoc f) (state_in p.now choices.now s)) }
{
    let entry = next_entry(choices, s.used)?;
    if bits::fits(p.width(f), entry) {
        Ok(passed(taken(stored(s, f, entry))))
    } else {
        Err(Refusal::Entry(s.used))
    }
}

// The side of a choice that the next entry takes.
#[tactic(auto, unfolding(crate::specs::States::side_at))]
pub fn next_side(choices: &[u32], used: usize, a: usize, b: usize) -> Result<usize, Refusal>
    ensures { result ≡ side_at choices.now used a b }
{
    match next_entry(choices, used)? {
        0 => Ok(a),
        1 => Ok(b),
        _ => Err(Refusal::Entry(used)),
    }
}

// The action of the rule of table t that hits, or of its default. The table is looked up once, before anything of it runs.
#[tactic(auto, using(crate::proofs::Actions::hit_there))]
pub fn applied(p: &Program, s: State, t: usize) -> Action
    requires stands { Stands p.now.pipeline s }
    requires t_bound { t < T p.now.pipeline }
    ensures { Calls p.now.pipeline result (call_of p.now.pipeline p.now.rules t (hit p.now.pipeline p.now.rules (packet_in p.now.pipeline s) t)) }
{
    let pipeline = &p.pipeline;
    let hit = tables::hit(pipeline, &p.rules, s.values(pipeline), t);
    action_of(p, t, hit)
}
