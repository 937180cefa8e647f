// Lookup, Run and Confirm: a pipeline, accepted with its rules, on one packet.
#![tactic(auto)]

ghost use Rattle.std.specs.Prelude.{◌≡◌, List, [], ltb, ℕ, MatchResult, Ok, ◌+◌, ◌≤◌, length, if◌then◌else◌};
ghost use Rattle.model.specs.Lists.{part};
ghost use Rattle.model.specs.Blocks.{F, T};
ghost use Rattle.model.specs.Tables.{hit, part_of};
ghost use Rattle.model.specs.Good.{Within};
ghost use Rattle.model.specs.Runs.{packet_widths, start_packet};
ghost use Rattle.model.specs.Answers.{done, after, told, yes_or_no, checked, refusal_of};
ghost use Rattle.model.specs.Refusals.{judge, packet_rows};
ghost use Rattle.model.specs.Calls.{over, start_rows, lookup, words_into, LooksUp, ended, Tells, Runs, fails_whole, Confirms};
ghost use Rattle.states.specs.States.{packet_in, state_in, outcome_by};
ghost use Rattle.runner.specs.Parts.{Inside};
ghost use Rattle.runner.specs.Started.{Started};

use blocks::Program;
use model::{Part, Ran, Refusal};
use runs::run_whole;
use states::{End, Ending};

// 11: the packet has as many values as there are fields, each within its width.
#[tactic(auto, using(crate::proofs::Started::narrow, crate::proofs::Started::length_refuses))]
fn check_packet(p: &Program, packet: &[u32]) -> Result<(), Refusal>
    ensures { checked result ≡ told (λ _. []) (judge (packet_rows p.now.pipeline packet.now)) }
{
    let widths = p.pipeline.widths();
    if packet.len() != widths.len() {
        return Err(Refusal::Packet(packet.len()));
    }
    match values::first_wide(widths, packet) {
        Some(i) => Err(Refusal::Packet(i)),
        None => Ok(()),
    }
}

// 2 to 11: what Lookup, Run and Confirm begin with. The packet is looked at only where the pipeline's own check has answered well.
#[tactic(auto, using(crate::proofs::Started::packet_refuses))]
fn check_start<'a>(
    pipeline: &'a [u32],
    rules: &'a [u32],
    packet: &[u32],
) -> Result<Program<'a>, Refusal>
    ensures { MatchResult result
        (Started pipeline.now rules.now packet.now)
        (λ why. refusal_of why ≡ told (λ _. []) (judge (start_rows pipeline.now rules.now packet.now))) }
{
    let p = checker::accept(pipeline, rules)?;
    check_packet(&p, packet)?;
    Ok(p)
}

// Where the three words stand that Lookup answers. (Each call has the slices of document 01, as they are lent, and no struct of them.)
#[tactic(auto, using(crate::proofs::Answered::lookup_found))]
pub fn lookup_part(pipeline: &[u32], rules: &[u32], packet: &[u32], table: u32) -> Part
    ensures value { result ≡ lookup pipeline.now rules.now packet.now table }
    ensures inside { Inside pipeline.now rules.now result }
{
    match check_start(pipeline, rules, packet) {
        Ok(p) => lookup_started(&p, packet, table as usize),
        Err(_) => Part::Empty,
    }
}

// The table's number is looked at last.
#[tactic(auto, using(tables::proofs::Fitting::fitting, states::proofs::Actions::hit_there, crate::proofs::Started::limits))]
fn lookup_started(p: &Program, packet: &[u32], t: usize) -> Part
    requires { Within (packet_widths p.now.pipeline) packet.now }
    ensures value { result ≡ (if ltb t (T p.now.pipeline) then part_of p.now.pipeline p.now.rules t (hit p.now.pipeline p.now.rules (start_packet p.now.pipeline packet.now) t) else Part.Empty) }
    ensures inside { Inside p.now.pipeline p.now.rules result }
{
    let pipeline = &p.pipeline;
    let rules = &p.rules;
    if pipeline.table_count() <= t {
        return Part::Empty;
    }
    match tables::hit(pipeline, rules, packet, t) {
        Some(i) => Part::Rules(rules.call_place(i)),
        None => Part::Pipeline(pipeline.default_place(t)),
    }
}

// The three words at a place: an action and its data.
fn three(ws: &[u32], at: usize) -> &[u32]
    requires { at + 3 ≤ length ws.now }
    ensures words { result.now ≡ part ws.now at 3 }
    ensures begins { result.ref_ptr ≡ words_into ws.entry at }
{
    let end = at + 3;
    &ws[at..end]
}

pub fn lookup<'a>(pipeline: &'a [u32], rules: &'a [u32], packet: &[u32], table: u32) -> &'a [u32]
    ensures { LooksUp pipeline.entry rules.entry packet.now table result }
{
    match lookup_part(pipeline, rules, packet, table) {
        Part::Rules(at) => three(rules, at),
        Part::Pipeline(at) => three(pipeline, at),
        Part::Empty => &pipeline[..0],
    }
}

// What Run answers, by how the run has ended; the packet is left in the end area.
#[tactic(auto, using(crate::proofs::Started::limits))]
fn finish(p: &Program, e: End, end: &mut [u32]) -> Ran
    requires { F p.now.pipeline ≤ length end.old }
    ensures { (choices : List ℕ) → Tells (ended (outcome_by e.how (state_in p.now.pipeline choices e.state))) end.old (Ok result) end.new }
{
    let state = e.state;
    let used = state.used;
    areas::put(state.values(&p.pipeline), end);
    match e.how {
        Ending::Passed => Ran::Passed { used },
        Ending::Blocked(node) => Ran::Blocked { node, used },
        Ending::Failed(node) => Ran::Failed { node, used },
    }
}

// The room, 12, is looked at before the run.
pub fn run(
    pipeline: &[u32],
    rules: &[u32],
    packet: &[u32],
    choices: &[u32],
    end: &mut [u32],
) -> Result<Ran, Refusal>
    ensures { Runs pipeline.now rules.now packet.now choices.now end.old result end.new }
{
    let p = check_start(pipeline, rules, packet)?;
    let count = p.pipeline.field_count();
    if end.len() < count {
        return Err(Refusal::Room(count));
    }
    let e = run_whole(&p, packet, choices)?;
    Ok(finish(&p, e, end))
}

// A counterexample: the run has failed, and no entry is left over.
fn fails_whole(e: End, count: usize) -> bool
    ensures { (p choices : List ℕ) → length choices ≡ count
        → done result ≡ after (ended (outcome_by e.how (state_in p choices e.state))) (λ x. done (fails_whole choices x)) }
{
    match e.how {
        Ending::Failed(_) => e.state.used == count,
        _ => false,
    }
}

#[tactic(auto, using(crate::proofs::Answered::confirm_refuses, crate::proofs::Answered::confirm_refused, crate::proofs::Answered::confirm_tells))]
pub fn confirm(
    pipeline: &[u32],
    rules: &[u32],
    packet: &[u32],
    choices: &[u32],
) -> Result<bool, Refusal>
    ensures { Confirms pipeline.now rules.now packet.now choices.now result }
{
    let p = check_start(pipeline, rules, packet)?;
    let ending = run_whole(&p, packet, choices)?;
    Ok(fails_whole(ending, choices.len()))
}
