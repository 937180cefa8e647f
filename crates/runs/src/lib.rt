// The run of a pipeline that Check accepts. It calls itself on child nodes and carries its state by value, so that nothing is written before
// it has ended.
#![tactic(auto)]

ghost use Rattle.std.specs.Prelude.{◌≡◌, List, ℕ, ◌≤◌, length};
ghost use Rattle.model.specs.Blocks.{F};
ghost use Rattle.model.specs.Good.{Within};
ghost use Rattle.model.specs.Runs.{packet_widths, start, pipeline_run};
ghost use Rattle.states.specs.States.{state_in, Answers};
ghost use Rattle.runs.specs.Runnable.{Runnable, run_of};

use actions::Scope;
use blocks::Program;
use model::{Kind, Refusal};
use states::{End, Ending, State, applied, assign, havoc, next_side, taken, tested};

// The run of the statement at node n.
#[tactic(auto, using(crate::proofs::Steps::steps))]
fn run_at(p: &Program, choices: &[u32], scope: Scope, s: State, n: usize) -> Result<End, Refusal>
    requires { Runnable p.now.pipeline p.now.rules scope s n }
    ensures { Answers p.now.pipeline choices.now result
        (run_of p.now.pipeline p.now.rules scope n (state_in p.now.pipeline choices.now s)) }
{
    let pipeline = &p.pipeline;
    let given = scope.given();
    let node = pipeline.node(n);
    let a = node.a as usize;
    let b = node.b as usize;
    match nodes::kind_in(node.kind) {
        Kind::Assign => Ok(assign(pipeline, &given, s, a, b)),
        Kind::Havoc => havoc(pipeline, choices, s, a),
        Kind::Assume => tested(pipeline, &given, s, a, Ok(Ending::Blocked(n))),
        Kind::Assert => tested(pipeline, &given, s, a, Ok(Ending::Failed(n))),
        Kind::Sequence => {
            let e = run_at(p, choices, scope, s, a)?;
            match e.how {
                Ending::Passed => run_at(p, choices, scope, e.state, b),
                _ => Ok(e),
            }
        }
        Kind::Choice => {
            let side = next_side(choices, s.used, a, b)?;
            run_at(p, choices, scope, taken(s), side)
        }
        Kind::Apply => {
            let action = applied(p, s, a);
            run_at(p, choices, action.scope, s, action.body)
        }
        _ => Ok(End {
            state: s,
            how: Ending::Passed,
        }),
    }
}

// The state that a run starts from.
fn start(packet: &[u32]) -> State
    requires { length packet.now ≤ 32 }
    ensures { (p choices : List ℕ) → length packet.now ≡ F p → state_in p choices result ≡ start p packet.now choices }
{
    let mut words = [0; 32];
    areas::put(packet, &mut words);
    State {
        packet: words,
        used: 0,
    }
}

// The run of the pipeline.
#[tactic(auto, using(crate::proofs::Whole::packet_few, crate::proofs::Whole::runs_whole))]
pub fn run_whole(p: &Program, packet: &[u32], choices: &[u32]) -> Result<End, Refusal>
    requires { Within (packet_widths p.now.pipeline) packet.now }
    ensures { Answers p.now.pipeline choices.now result (pipeline_run p.now.pipeline p.now.rules packet.now choices.now) }
{
    let root = p.pipeline.root() as usize;
    run_at(p, choices, Scope::Program([0; 2]), start(packet), root)
}
