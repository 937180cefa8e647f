// The calls of document 01 for C, and for every language that can call C. No call asks anything of its arguments, which are those of the page.
#![tactic(auto)]

ghost use Rattle.std.specs.Prelude.{◌≡◌, [], length};
ghost use Rattle.model.specs.Answers.{told, yes_or_no, looked_up};
ghost use Rattle.model.specs.Blocks.{words};
ghost use Rattle.model.specs.Calls.{load, block_lengths, check, lookup, run, end_values, end_packet, confirm, passify, form_sizes, written};
ghost use Rattle.returns.specs.Returns.{Returns};

#[unsafe(no_mangle)]
pub extern "C" fn mz_load(
    file: &[u8],
    pipeline: &mut [u32],
    rules: &mut [u32],
    first: &mut u64,
    second: &mut u64,
    third: &mut u64,
) -> u64
    ensures returns { Returns (told block_lengths (load file.now (length pipeline.old) (length rules.old))) result
        first.new second.new third.new }
    ensures pipeline_after { pipeline.new ≡ written (load file.now (length pipeline.old) (length rules.old)) (λ b. b.pipeline) pipeline.old }
    ensures rules_after { rules.new ≡ written (load file.now (length pipeline.old) (length rules.old)) (λ b. b.rules) rules.old }
{
    let answer = records::load(file, pipeline, rules);
    returns::answer(answer, first, second, third)
}

#[unsafe(no_mangle)]
pub extern "C" fn mz_check(
    pipeline: &[u32],
    rules: &[u32],
    first: &mut u64,
    second: &mut u64,
    third: &mut u64,
) -> u64
    ensures { Returns (told (λ _. []) (check pipeline.now rules.now)) result first.new second.new third.new }
{
    let answer = checker::check(pipeline, rules);
    returns::answer(answer, first, second, third)
}

// Lookup, by the place of its part.
#[unsafe(no_mangle)]
pub extern "C" fn mz_lookup(
    pipeline: &[u32],
    rules: &[u32],
    packet: &[u32],
    table: u32,
    first: &mut u64,
    second: &mut u64,
    third: &mut u64,
) -> u64
    ensures { Returns (looked_up (lookup pipeline.now rules.now packet.now table)) result first.new second.new third.new }
{
    let part = runner::lookup_part(pipeline, rules, packet, table);
    returns::answer(Ok(part), first, second, third)
}

#[unsafe(no_mangle)]
pub extern "C" fn mz_run(
    pipeline: &[u32],
    rules: &[u32],
    packet: &[u32],
    choices: &[u32],
    end: &mut [u32],
    first: &mut u64,
    second: &mut u64,
    third: &mut u64,
) -> u64
    ensures returns { Returns (told end_values (run pipeline.now rules.now packet.now choices.now (length end.old))) result
        first.new second.new third.new }
    ensures end_after { end.new ≡ written (run pipeline.now rules.now packet.now choices.now (length end.old)) end_packet end.old }
{
    let answer = runner::run(pipeline, rules, packet, choices, end);
    returns::answer(answer, first, second, third)
}

#[unsafe(no_mangle)]
pub extern "C" fn mz_confirm(
    pipeline: &[u32],
    rules: &[u32],
    packet: &[u32],
    choices: &[u32],
    first: &mut u64,
    second: &mut u64,
    third: &mut u64,
) -> u64
    ensures { Returns (told yes_or_no (confirm pipeline.now rules.now packet.now choices.now)) result first.new second.new third.new }
{
    let answer = runner::confirm(pipeline, rules, packet, choices);
    returns::answer(answer, first, second, third)
}

#[unsafe(no_mangle)]
pub extern "C" fn mz_passify(
    pipeline: &[u32],
    rules: &[u32],
    nodes: &mut [u32],
    widths: &mut [u32],
    first: &mut u64,
    second: &mut u64,
    third: &mut u64,
) -> u64
    ensures returns { Returns (told form_sizes (passify pipeline.now rules.now (length nodes.old) (length widths.old))) result
        first.new second.new third.new }
    ensures nodes_after { nodes.new ≡ written (passify pipeline.now rules.now (length nodes.old) (length widths.old)) (λ w. words w.nodes) nodes.old }
    ensures widths_after { widths.new ≡ written (passify pipeline.now rules.now (length nodes.old) (length widths.old)) (λ w. w.widths) widths.old }
{
    let answer = passive::passify(pipeline, rules, nodes, widths);
    returns::answer(answer, first, second, third)
}
