// Load: the record file. The records of a group stand one after the other, and the groups in their order, so a file is a run of each group
// and the root. What does not go on a run ends it, and what begins no later one is the file's first fault.
#![tactic(auto)]

ghost use Rattle.std.specs.Prelude.{◌≡◌, ◌+◌, ◌*◌, ◌≤◌, length, ltb, if◌then◌else◌};
ghost use Rattle.model.specs.Blocks.{size};
ghost use Rattle.model.specs.Files.{mark, bytes, file_limit};
ghost use Rattle.model.specs.Calls.{over, Loads};
ghost use Rattle.records.specs.Runs.{stands, Reads, Scanned, words, Ends, Whole, Few, words_at, counts, pipeline_in, pipeline_words, onto};

use model::{Blocks, Group, Refusal};

// A file is at most so many bytes.
const LIMIT: usize = 40000;

const MARK_BYTES: usize = 2;

const WORD_BYTES: usize = 4;

// The table of marks.
fn mark(g: Group) -> [u8; 2]
    ensures { result ≡ mark g }
{
    match g {
        Group::Field => *b"FD",
        Group::Node => *b"ND",
        Group::Action => *b"AC",
        Group::Table => *b"TB",
        Group::Rule => *b"RL",
        Group::Root => *b"RT",
    }
}

// How many words a record has.
fn size(g: Group) -> usize
    ensures { result ≡ size g }
{
    match g {
        Group::Field => blocks::FIELD,
        Group::Node => blocks::NODE,
        Group::Action => blocks::ACTION,
        Group::Table => blocks::TABLE,
        Group::Rule => blocks::RULE,
        Group::Root => 1,
    }
}

// How many bytes.
fn bytes(g: Group) -> usize
    ensures { result ≡ bytes g }
{
    MARK_BYTES + WORD_BYTES * size(g)
}

// A record of the group stands at a place, with all its bytes.
#[tactic(auto, unfolding(crate::specs::Runs::stands))]
fn stands(file: &[u8], g: Group, at: usize) -> bool
    requires { at ≤ length file.now }
    ensures { result ≡ stands file.now g at }
{
    file.len() - at >= bytes(g) && file[at..].starts_with(&mark(g))
}

// The records of a group that stand one after the other: where the first begins, how many there are, where the last ends. (Places, and no part
// of the file: a group says how they are read.)
#[derive(Clone, Copy)]
pub struct Run {
    pub at: usize,
    pub count: usize,
    pub end: usize,
}

fn read(file: &[u8], g: Group, at: usize) -> Run
    requires { at ≤ length file.now }
    ensures { Reads file.now g at result }
{
    let step = bytes(g);
    let first = mark(g);
    let count = file[at..]
        .chunks_exact(step)
        .take_while(|record| record.starts_with(&first))
        .count();
    Run {
        at,
        count,
        end: at + step * count,
    }
}

// The run of each group before the root.
#[derive(Clone, Copy)]
pub struct Runs {
    pub fields: Run,
    pub nodes: Run,
    pub actions: Run,
    pub tables: Run,
    pub rules: Run,
}

fn scan(file: &[u8]) -> Runs
    ensures { Scanned file.now result }
{
    let fields = read(file, Group::Field, 0);
    let nodes = read(file, Group::Node, fields.end);
    let actions = read(file, Group::Action, nodes.end);
    let tables = read(file, Group::Table, actions.end);
    let rules = read(file, Group::Rule, tables.end);
    Runs {
        fields,
        nodes,
        actions,
        tables,
        rules,
    }
}

// The refusal of a fault. A file that is too long has a fault at the limit; the first is given.
fn fault(at: usize) -> Refusal
    ensures { result ≡ Refusal.File (if ltb file_limit at then file_limit else at) }
{
    Refusal::File(at.min(LIMIT))
}

// Behind the runs stands the root, which ends the file, or the first fault.
fn end_of(file: &[u8], s: Runs) -> Result<(), Refusal>
    requires { Scanned file.now s }
    ensures { Ends file.now s result }
{
    let root = s.rules.end;
    if !stands(file, Group::Root, root) {
        return Err(fault(root));
    }
    let end = root + bytes(Group::Root);
    if end != file.len() {
        return Err(fault(end));
    }
    if LIMIT < end {
        return Err(Refusal::File(LIMIT));
    }
    Ok(())
}

// Copies the words that stand at a place of the file.
#[tactic(auto, unfolding(model::specs::Lists::each))]
fn copy_words(file: &[u8], at: usize, words: &mut [u32])
    requires { at + 4 * length words.old ≤ length file.now }
    ensures { words.new ≡ words_at file.now at (length words.old) }
{
    for (i, word) in words.iter_mut().enumerate() {
        *word = octets::word(file, at + WORD_BYTES * i);
    }
}

// Copies the words of a run, and gives the place behind them.
fn copy_run(file: &[u8], g: Group, run: Run, area: &mut [u32], to: usize) -> usize
    requires run_in_bounds { run.at + bytes g * run.count ≤ length file.now }
    requires area_has_room { to + size g * run.count ≤ length area.old }
    ensures value { result ≡ to + size g * run.count }
    ensures area_after { area.new ≡ onto to (words file.now g run) area.old }
{
    let step = bytes(g);
    let each = size(g);
    for i in 0..run.count {
        let place = to + each * i;
        copy_words(
            file,
            run.at + step * i + MARK_BYTES,
            &mut area[place..place + each],
        );
    }
    to + each * run.count
}

// F, N, A and T.
fn counts(s: Runs) -> [u32; 4]
    requires { Few s }
    ensures { result ≡ counts s }
{
    [
        s.fields.count as u32,
        s.nodes.count as u32,
        s.actions.count as u32,
        s.tables.count as u32,
    ]
}

// How many words a run has.
fn run_words(g: Group, run: Run) -> usize
    requires { run.count ≤ file_limit }
    ensures { result ≡ size g * run.count }
{
    size(g) * run.count
}

// How many words the pipeline block has.
fn pipeline_words(s: Runs) -> usize
    requires { Few s }
    ensures { result ≡ pipeline_words s }
{
    let fields = run_words(Group::Field, s.fields);
    let nodes = run_words(Group::Node, s.nodes);
    let actions = run_words(Group::Action, s.actions);
    let tables = run_words(Group::Table, s.tables);
    blocks::HEAD + fields + nodes + actions + tables
}

// Writes the pipeline block: each run behind the one before it, at the place that this one gave.
#[tactic(auto, using(crate::proofs::Contents::inside, crate::proofs::Contents::few))]
fn write_pipeline(file: &[u8], s: Runs, pipeline: &mut [u32])
    requires whole { Whole file.now s }
    requires area_has_room { pipeline_words s ≤ length pipeline.old }
    ensures { pipeline.new ≡ over (pipeline_in file.now s) pipeline.old }
{
    let head = counts(s);
    areas::put(&head, pipeline);
    let at = s.rules.end;
    let root = Run {
        at,
        count: 1,
        end: at + bytes(Group::Root),
    };
    let fields = copy_run(file, Group::Root, root, pipeline, blocks::ROOT);
    let nodes = copy_run(file, Group::Field, s.fields, pipeline, fields);
    let actions = copy_run(file, Group::Node, s.nodes, pipeline, nodes);
    let tables = copy_run(file, Group::Action, s.actions, pipeline, actions);
    copy_run(file, Group::Table, s.tables, pipeline, tables);
}

// 12, and then the two blocks.
#[tactic(auto, using(crate::proofs::Contents::inside, crate::proofs::Contents::few))]
fn load_whole(
    file: &[u8],
    s: Runs,
    pipeline: &mut [u32],
    rules: &mut [u32],
) -> Result<Blocks, Refusal>
    requires { Whole file.now s }
    ensures { Loads file.now pipeline.old rules.old result pipeline.new rules.new }
{
    let words = pipeline_words(s);
    if pipeline.len() < words {
        return Err(Refusal::Room(words));
    }
    let rule_words = run_words(Group::Rule, s.rules);
    if rules.len() < rule_words {
        return Err(Refusal::Room(rule_words));
    }
    write_pipeline(file, s, pipeline);
    copy_run(file, Group::Rule, s.rules, rules, 0);
    Ok(Blocks {
        pipeline: words,
        rules: rule_words,
    })
}

pub fn load(file: &[u8], pipeline: &mut [u32], rules: &mut [u32]) -> Result<Blocks, Refusal>
    ensures { Loads file.now pipeline.old rules.old result pipeline.new rules.new }
{
    let s = scan(file);
    end_of(file, s)?;
    load_whole(file, s, pipeline, rules)
}
