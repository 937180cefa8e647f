// Check: a pipeline block and its rule block are accepted, or refused with the first number of 2 to 10 that applies, and its place.
#![tactic(auto)]

ghost use Rattle.std.specs.Prelude.{◌≡◌, ◌&&◌, ℕ, ◌+◌, ◌≤◌, ◌<◌, ltb, leb, length, take, Some, IfOk, OnOk};
ghost use Rattle.bits.specs.Width.{fits};
ghost use Rattle.model.specs.Lists.{within, every};
ghost use Rattle.model.specs.Blocks.{F, N, A as actions, T, R, call_at, parameter_count, parameter_width, key_count, key, table_of};
ghost use Rattle.model.specs.Nodes.{is_width, is_statement};
ghost use Rattle.model.specs.declared.Refusal.{Refusal};
ghost use Rattle.model.specs.Answers.{refused, refusal_of};
ghost use Rattle.model.specs.Refusals.{Row, use_row, place_row, uses, under_each, counts_well, pipeline_sorts, sort_at, well_or_zero, used_or_zero, action_well, call_well, table_well, pair_well, rule_well, field_row, node_row, action_row, table_row, root_row, rule_row};
ghost use Rattle.uses.specs.Owners.{UsedOnce};
ghost use Rattle.model.specs.Calls.{Checks};
ghost use Rattle.checker.specs.Rows.{Passes, first_in, Judges, Judged, count_row, later_rows, outcome};

use blocks::{Pipeline, Program, Rules};
use model::{Refusal, Stage};
use nodes::{Code, Setting};

fn within(low: u32, high: u32, n: u32) -> bool
    ensures { result ≡ within low high n }
{
    (low..=high).contains(&n)
}

// The limits of the counts.
fn limits_well(p: &[u32]) -> bool
    requires { 5 ≤ length p.now }
    ensures { result ≡ (within 1 32 (F p.now) && within 1 1024 (N p.now) && leb (actions p.now) 64 && leb (T p.now) 32) }
{
    within(1, 32, p[0]) & within(1, 1024, p[1]) & (p[2] <= 64) & (p[3] <= 32)
}

fn counts_well(p: &[u32], r: &[u32]) -> bool
    ensures { result ≡ counts_well p.now r.now }
{
    if p.len() < blocks::HEAD {
        return false;
    }
    limits_well(p)
        & (p.len() == blocks::length(p))
        & (r.len() % blocks::RULE == 0)
        & (r.len() / blocks::RULE <= 256)
}

// A row's refusal at the place that was found, if there is one.
fn refused_at<Refuse: FnOnce(usize) -> Refusal>(
    found: Option<usize>,
    refuse: Refuse,
) -> Result<(), Refusal>
    requires { (i : ℕ) → found ≡ Some i → Refuse.pre refuse i }
    ensures { (row : Row) → found ≡ first_in row → ((i : ℕ) (x : Refusal) → Refuse.post refuse i x → refusal_of x ≡ refused row.number (row.place i))
        → Judges row result }
{
    match found {
        None => Ok(()),
        Some(i) => Err(refuse(i)),
    }
}

// A pipeline whose counts are within their limits: it is whole, and the local arrays hold what they count.
#[derive(Drop)]
struct Limited<'a> {
    pipeline: Pipeline<'a>,
    ghost nodes: { N pipeline ≤ 1024 },
    ghost actions: { actions pipeline ≤ 64 },
}

// 2
fn check_counts<'a>(pipeline: &'a [u32], rules: &[u32]) -> Result<Limited<'a>, Refusal>
    ensures judged { Judges (count_row pipeline.now rules.now) (outcome result) }
    ensures block { IfOk result (λ l. l.pipeline ≡ pipeline.now) }
{
    if counts_well(pipeline, rules) {
        Ok(Limited {
            pipeline: Pipeline::new(pipeline),
        })
    } else {
        Err(Refusal::Counts)
    }
}

// 3
fn check_fields(p: &Pipeline) -> Result<(), Refusal>
    ensures { Judges (field_row p.now) result }
{
    let found = places::first_not(|i| nodes::is_width(p.width(i)), p.field_count());
    refused_at(found, Refusal::Width)
}

// 4; the sorts of the nodes stand in `codes`.
fn check_nodes(l: &Limited, codes: &mut [Code; 1024]) -> Result<(), Refusal>
    requires { Passes (field_row l.now.pipeline) }
    ensures judged { Judges (node_row l.now.pipeline (pipeline_sorts l.now.pipeline)) result }
    ensures sorted { OnOk result (take (N l.now.pipeline) codes.new ≡ pipeline_sorts l.now.pipeline) }
{
    let p = &l.pipeline;
    let setting = Setting {
        stage: Stage::Pipeline,
        widths: p.widths(),
        tables: p.table_count(),
    };
    let nodes = &p.words()[p.node_place(0)..p.node_place(p.node_count())];
    refused_at(setting.first_malformed(nodes, codes), Refusal::Node)
}

// A number that is used keeps its rule, and another is 0.
fn used_or_zero(j: usize, used: u32, well: bool, number: u32) -> bool
    ensures { result ≡ well_or_zero used j well number }
{
    if j < used as usize { well } else { number == 0 }
}

fn parameter_well(p: &Pipeline, i: usize, j: usize) -> bool
    requires i_bound { i < actions p.now }
    requires j_bound { j < 2 }
    ensures { result ≡ well_or_zero (parameter_count p.now i) j (is_width (parameter_width p.now i j)) (parameter_width p.now i j) }
{
    let width = p.parameter_width(i, j);
    used_or_zero(j, p.parameter_count(i), nodes::is_width(width), width)
}

// A pipeline with the sorts of its nodes.
#[derive(Drop)]
struct Sorted<'a, 'c> {
    pipeline: &'a Pipeline<'a>,
    codes: &'c [Code],
    ghost coded: { codes.now ≡ pipeline_sorts pipeline.now },
}

impl<'a, 'c> Sorted<'a, 'c> {
    // Whether node x is a statement.
    fn statement_at(&self, x: u32) -> bool
        ensures { result ≡ is_statement (sort_at (pipeline_sorts self.now.pipeline.now) x) }
    {
        nodes::sort_in(self.codes, x).is_statement()
    }

    fn action_well(&self, i: usize) -> bool
        requires i_bound { i < actions self.now.pipeline.now }
        ensures { result ≡ action_well self.now.pipeline.now (pipeline_sorts self.now.pipeline.now) i }
    {
        let p = self.pipeline;
        self.statement_at(p.body(i))
            & (p.parameter_count(i) <= 2)
            & places::every(|j| parameter_well(p, i, j), 2)
    }

    // 5
    fn check_actions(&self) -> Result<(), Refusal>
        ensures { Judges (action_row self.now.pipeline.now (pipeline_sorts self.now.pipeline.now)) result }
    {
        let found = places::first_not(|i| self.action_well(i), self.pipeline.action_count());
        refused_at(found, Refusal::Action)
    }

    // 7
    fn check_root(&self) -> Result<(), Refusal>
        ensures { Judges (root_row self.now.pipeline.now (pipeline_sorts self.now.pipeline.now)) result }
    {
        if self.statement_at(self.pipeline.root()) {
            Ok(())
        } else {
            Err(Refusal::Root)
        }
    }
}

// A pipeline whose actions are well: the data of a call can be tested.
#[derive(Drop)]
struct Callable<'a> {
    pipeline: &'a Pipeline<'a>,
    ghost actions: { Passes (action_row pipeline.now (pipeline_sorts pipeline.now)) },
}

impl<'a> Callable<'a> {
    fn datum_well(&self, action: usize, j: usize, x: u32) -> bool
        requires action_bound { action < actions self.now.pipeline.now }
        requires j_bound { j < 2 }
        ensures { result ≡ well_or_zero (parameter_count self.now.pipeline.now action) j (fits (parameter_width self.now.pipeline.now action j) x) x }
    {
        let p = self.pipeline;
        let width = p.parameter_width(action, j);
        used_or_zero(j, p.parameter_count(action), bits::fits(width, x), x)
    }

    // The three words at a place are an action and data that fit it.
    fn call_well(&self, ws: &[u32], at: usize) -> bool
        requires at_bound { at + 3 ≤ length ws.now }
        ensures { result ≡ call_well self.now.pipeline.now (call_at ws.now at) }
    {
        let action = ws[at] as usize;
        if action < self.pipeline.action_count() {
            places::every(|j| self.datum_well(action, j, ws[at + 1 + j]), 2)
        } else {
            false
        }
    }

    fn table_well(&self, i: usize) -> bool
        requires i_bound { i < T self.now.pipeline.now }
        ensures { result ≡ table_well self.now.pipeline.now i }
    {
        let p = self.pipeline;
        (p.key_count(i) <= 4) & keys_well(p, i) & self.call_well(p.words(), p.default_place(i))
    }

    // 6
    fn check_tables(&self) -> Result<(), Refusal>
        ensures { Judges (table_row self.now.pipeline.now) result }
    {
        let found = places::first_not(|i| self.table_well(i), self.pipeline.table_count());
        refused_at(found, Refusal::Table)
    }
}

fn key_well(p: &Pipeline, i: usize, j: usize) -> bool
    requires i_bound { i < T p.now }
    requires j_bound { j < 4 }
    ensures { result ≡ well_or_zero (key_count p.now i) j (ltb (key p.now i j) (F p.now)) (key p.now i j) }
{
    let key = p.key(i, j);
    used_or_zero(j, p.key_count(i), (key as usize) < p.field_count(), key)
}

fn keys_well(p: &Pipeline, i: usize) -> bool
    requires i_bound { i < T p.now }
    ensures { result ≡ used_or_zero 4 (key_count p.now i) (λ j. ltb (key p.now i j) (F p.now)) (key p.now i) }
{
    places::every(|j| key_well(p, i, j), 4)
}

// A pipeline whose fields, actions and tables are well: a rule can be tested.
#[derive(Drop)]
struct Tabled<'a> {
    calls: Callable<'a>,
    ghost fields: { Passes (field_row calls.pipeline.now) },
    ghost tables: { Passes (table_row calls.pipeline.now) },
}

impl<'a> Tabled<'a> {
    // Pair j of rule i, whose table is t.
    fn pair_well(&self, r: &Rules, i: usize, t: usize, j: usize) -> bool
        requires i_bound { i < R r.now }
        requires own_table { t ≡ table_of r.now i }
        requires t_bound { t < T self.now.calls.pipeline.now }
        requires j_bound { j < 4 }
        ensures { result ≡ pair_well self.now.calls.pipeline.now r.now i j }
    {
        let p = self.calls.pipeline;
        let value = r.value(i, j);
        let mask = r.mask(i, j);
        if j < p.key_count(t) as usize {
            let width = p.width(p.key(t, j) as usize);
            bits::fits(width, mask) & bits::under(mask, value, value)
        } else {
            (value == 0) & (mask == 0)
        }
    }

    fn rule_well(&self, r: &Rules, i: usize) -> bool
        requires i_bound { i < R r.now }
        ensures { result ≡ rule_well self.now.calls.pipeline.now r.now i }
    {
        let t = r.table_of(i) as usize;
        if t < self.calls.pipeline.table_count() {
            let pairs = places::every(|j| self.pair_well(r, i, t, j), 4);
            pairs & self.calls.call_well(r.words(), r.call_place(i))
        } else {
            false
        }
    }

    // 10
    fn check_rules(&self, r: &Rules) -> Result<(), Refusal>
        ensures { Judges (rule_row self.now.calls.pipeline.now r.now) result }
    {
        let found = places::first_not(|i| self.rule_well(r, i), r.count());
        refused_at(found, Refusal::Rule)
    }
}

// 8
fn check_uses(l: &Limited) -> Result<(), Refusal>
    ensures { Judges (use_row l.now.pipeline (uses l.now.pipeline)) result }
{
    let p = &l.pipeline;
    refused_at(uses::first_miscounted(p), Refusal::Use)
}

// 9
fn check_places(l: &Limited) -> Result<(), Refusal>
    requires { UsedOnce l.now.pipeline }
    ensures { Judges (place_row l.now.pipeline (under_each l.now.pipeline)) result }
{
    let p = &l.pipeline;
    refused_at(uses::first_misplaced(p), Refusal::Misplaced)
}

// 3 to 10
#[tactic(auto, using(crate::proofs::Judged::judged), unfolding(crate::specs::Rows::later_rows, model::specs::Refusals::check_rows))]
fn check_later(l: &Limited, r: &Rules) -> Result<(), Refusal>
    ensures { Judged (later_rows l.now.pipeline r.now) result }
{
    let p = &l.pipeline;
    check_fields(p)?;
    // 1,024 places, since memory is fixed and Check lends none.
    let mut codes = [Code::malformed(); 1024];
    check_nodes(l, &mut codes)?;
    let sorted = Sorted {
        pipeline: p,
        codes: &codes[..p.node_count()],
    };
    sorted.check_actions()?;
    let calls = Callable { pipeline: p };
    calls.check_tables()?;
    sorted.check_root()?;
    check_uses(l)?;
    check_places(l)?;
    let tables = Tabled { calls };
    tables.check_rules(r)
}

// The two blocks, or the refusal of the first row that applies.
#[tactic(auto, using(crate::proofs::Judged::whole))]
pub fn accept<'a>(pipeline: &'a [u32], rules: &'a [u32]) -> Result<Program<'a>, Refusal>
    ensures answers { Checks pipeline.now rules.now (outcome result) }
    ensures blocks { IfOk result (λ a. (a.pipeline ≡ pipeline.now) × (a.rules ≡ rules.now)) }
{
    let limited = check_counts(pipeline, rules)?;
    let r = Rules::new(rules);
    check_later(&limited, &r)?;
    Ok(Program {
        pipeline: limited.pipeline,
        rules: r,
    })
}

pub fn check(pipeline: &[u32], rules: &[u32]) -> Result<(), Refusal>
    ensures { Checks pipeline.now rules.now result }
{
    accept(pipeline, rules)?;
    Ok(())
}
