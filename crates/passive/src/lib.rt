// Passify: the passive form of a pipeline that Check accepts. The same calls count, on areas without room, and write.
#![tactic(auto)]

ghost use Rattle.std.specs.Prelude.{◌≡◌, ◌≤◌, ◌<◌, take};
ghost use Rattle.model.specs.Lists.{each};
ghost use Rattle.model.specs.Blocks.{F};
ghost use Rattle.model.specs.Emit.{passive_form};
ghost use Rattle.model.specs.Calls.{Passifies};
ghost use Rattle.passive.specs.Formed.{Counts, Leaves};

use actions::Scope;
use blocks::{NODE, Program};
use checker::accept;
use forms::statement_at;
use model::{Form, Refusal};
use pieces::{LIMIT, put_room};
use variables::{Made, Vars};

// Each field's variable is the field's own number: variables 0 to F-1 are the packet.
fn packet_variables(p: &Program) -> Vars
    ensures current_value { take (F p.now.pipeline) result.current ≡ each (λ i. i) (F p.now.pipeline) }
    ensures next_value { result.next ≡ F p.now.pipeline }
{
    let mut current = [0; 32];
    for i in 0..32 {
        current[i] = i as u32;
    }
    Vars {
        current,
        next: p.pipeline.field_count() as u32,
    }
}

// The whole form. Where it has room it is written; in any case it is counted.
fn form_in(p: &Program, nodes: &mut [u32], widths: &mut [u32]) -> Made
    ensures counts { Counts (passive_form p.now.pipeline p.now.rules) result }
    ensures leaves { Leaves (passive_form p.now.pipeline p.now.rules) nodes.old nodes.new widths.old widths.new }
{
    put_room(p.pipeline.widths(), widths);
    let root = p.pipeline.root() as usize;
    let first = Made {
        at: 0,
        vars: packet_variables(p),
    };
    statement_at(p, Scope::Program([0; 2]), root, first, nodes, widths)
}

// 12, and then the form. The need is known before anything is written: on areas without room nothing is.
fn passify_checked(p: &Program, nodes: &mut [u32], widths: &mut [u32]) -> Result<Form, Refusal>
    ensures { Passifies p.now.pipeline p.now.rules nodes.old widths.old result nodes.new widths.new }
{
    let need = form_in(p, &mut [], &mut []);
    // (A number, as `Emitted` says it: see `pieces::put_node`.)
    if LIMIT < need.at {
        return Err(Refusal::Room(0));
    }
    let count = need.at as usize;
    if nodes.len() < NODE * count {
        return Err(Refusal::Room(NODE * count));
    }
    let variables = need.vars.next as usize;
    if widths.len() < variables {
        return Err(Refusal::Room(variables));
    }
    form_in(p, nodes, widths);
    Ok(Form {
        nodes: count,
        variables,
    })
}

pub fn passify(
    pipeline: &[u32],
    rules: &[u32],
    nodes: &mut [u32],
    widths: &mut [u32],
) -> Result<Form, Refusal>
    ensures { Passifies pipeline.now rules.now nodes.old widths.old result nodes.new widths.new }
{
    let program = accept(pipeline, rules)?;
    passify_checked(&program, nodes, widths)
}
