// The records of a pipeline block and of a rule block, read in place. Counts and places are usize; a word is as the block has it.
#![tactic(auto)]

ghost use Rattle.std.specs.Prelude.{List, ℕ, ◌≡◌, ◌+◌, ◌≤◌, ◌<◌, length};
ghost use Rattle.model.specs.Lists.{word};
ghost use Rattle.model.specs.Blocks.{F, N, A as actions, T, R, root, pipeline_length, width, widths, node_place, action_place, table_place, rule_place, node_at, pipeline_node, body, parameter_count, parameter_width, key_count, key, default_place, table_of, value, mask, call_place};
ghost use Rattle.model.specs.Demands.{Accepted};
ghost use Rattle.blocks.specs.Whole.{Whole};

use model::Node;
use std::marker::Model;

// Where the root stands in a pipeline block, how many words stand before its first record, and how many a record has.
pub const ROOT: usize = 4;

pub const HEAD: usize = 5;

pub const FIELD: usize = 1;

pub const NODE: usize = 4;

pub const ACTION: usize = 4;

pub const TABLE: usize = 8;

pub const RULE: usize = 12;

// The length that the counts ask for.
pub fn length(p: &[u32]) -> usize
    requires { 5 ≤ length p.now }
    ensures { result ≡ pipeline_length p.now }
{
    let fields = FIELD * p[0] as usize;
    let nodes = NODE * p[1] as usize;
    let actions = ACTION * p[2] as usize;
    let tables = TABLE * p[3] as usize;
    HEAD + fields + nodes + actions + tables
}

// The word at a place, and 0 where there is none.
pub fn word_in(ws: &[u32], i: u32) -> u32
    ensures { result ≡ word ws.now i }
{
    ws.get(i as usize).copied().unwrap_or(0)
}

// The node whose words stand at a place.
pub fn node_at(ws: &[u32], at: usize) -> Node
    requires { at + 4 ≤ length ws.now }
    ensures { result ≡ node_at ws.now at }
{
    Node {
        kind: ws[at],
        a: ws[at + 1],
        b: ws[at + 2],
        c: ws[at + 3],
    }
}

// A pipeline block that is as long as its counts ask for: every record is there. A clause sees its words. (A reader for each word that the page
// names, though some differ in a place alone.)
#[derive(Drop)]
pub struct Pipeline<'a> {
    words: &'a [u32],
}

impl<'a> Model for Pipeline<'a> {
    ghost Value = { List ℕ };

    ghost view = { λ p. p.words.now };

    ghost invariant = { λ p. Whole p.words.now };
}

impl<'a> Pipeline<'a> {
    pub fn new(words: &'a [u32]) -> Pipeline<'a>
        requires { Whole words.now }
        ensures { result ≡ words.now }
    {
        Pipeline { words }
    }

    pub fn words(&self) -> &'a [u32]
        ensures value { result.now ≡ self.now }
        ensures whole { Whole self.now }
    {
        &self.words[..]
    }

    pub fn field_count(&self) -> usize
        ensures { result ≡ F self.now }
    {
        self.words[0] as usize
    }

    pub fn node_count(&self) -> usize
        ensures { result ≡ N self.now }
    {
        self.words[1] as usize
    }

    pub fn action_count(&self) -> usize
        ensures { result ≡ actions self.now }
    {
        self.words[2] as usize
    }

    pub fn table_count(&self) -> usize
        ensures { result ≡ T self.now }
    {
        self.words[3] as usize
    }

    pub fn root(&self) -> u32
        ensures { result ≡ root self.now }
    {
        self.words[ROOT]
    }

    pub fn width(&self, i: usize) -> u32
        requires i_bound { i < F self.now }
        ensures { result ≡ width self.now i }
    {
        let ws = self.words;
        ws[HEAD + FIELD * i]
    }

    // The fields' widths, one after the other.
    pub fn widths(&self) -> &'a [u32]
        ensures { result.now ≡ widths self.now }
    {
        let ws = self.words;
        let end = HEAD + FIELD * self.field_count();
        &ws[HEAD..end]
    }

    pub fn node_place(&self, i: usize) -> usize
        requires i_bound { i ≤ N self.now }
        ensures { result ≡ node_place self.now i }
    {
        let ws = self.words;
        HEAD + FIELD * ws[0] as usize + NODE * i
    }

    pub fn node(&self, i: usize) -> Node
        requires i_bound { i < N self.now }
        ensures { result ≡ pipeline_node self.now i }
    {
        node_at(self.words, self.node_place(i))
    }

    pub fn action_place(&self, i: usize) -> usize
        requires i_bound { i ≤ actions self.now }
        ensures { result ≡ action_place self.now i }
    {
        let ws = self.words;
        self.node_place(ws[1] as usize) + ACTION * i
    }

    pub fn body(&self, i: usize) -> u32
        requires i_bound { i < actions self.now }
        ensures { result ≡ body self.now i }
    {
        let ws = self.words;
        ws[self.action_place(i)]
    }

    pub fn parameter_count(&self, i: usize) -> u32
        requires i_bound { i < actions self.now }
        ensures { result ≡ parameter_count self.now i }
    {
        let ws = self.words;
        ws[self.action_place(i) + 1]
    }

    pub fn parameter_width(&self, i: usize, j: usize) -> u32
        requires i_bound { i < actions self.now }
        requires j_bound { j < 2 }
        ensures { result ≡ parameter_width self.now i j }
    {
        let ws = self.words;
        ws[self.action_place(i) + 2 + j]
    }

    pub fn table_place(&self, i: usize) -> usize
        requires i_bound { i ≤ T self.now }
        ensures { result ≡ table_place self.now i }
    {
        let ws = self.words;
        self.action_place(ws[2] as usize) + TABLE * i
    }

    pub fn key_count(&self, i: usize) -> u32
        requires i_bound { i < T self.now }
        ensures { result ≡ key_count self.now i }
    {
        let ws = self.words;
        ws[self.table_place(i)]
    }

    pub fn key(&self, i: usize, j: usize) -> u32
        requires i_bound { i < T self.now }
        requires j_bound { j < 4 }
        ensures { result ≡ key self.now i j }
    {
        let ws = self.words;
        ws[self.table_place(i) + 1 + j]
    }

    // Where the call of a table's default stands.
    pub fn default_place(&self, i: usize) -> usize
        requires i_bound { i < T self.now }
        ensures { result ≡ default_place self.now i }
    {
        let ws = self.words;
        self.action_place(ws[2] as usize) + TABLE * i + 5
    }
}

// A rule block. A clause sees its words.
#[derive(Drop)]
pub struct Rules<'a> {
    records: &'a [u32],
}

impl<'a> Model for Rules<'a> {
    ghost Value = { List ℕ };

    ghost view = { λ r. r.records.now };
}

impl<'a> Rules<'a> {
    pub fn new(words: &'a [u32]) -> Rules<'a>
        ensures { result ≡ words.now }
    {
        Rules { records: words }
    }

    pub fn words(&self) -> &'a [u32]
        ensures { result.now ≡ self.now }
    {
        &self.records[..]
    }

    pub fn count(&self) -> usize
        ensures { result ≡ R self.now }
    {
        self.records.len() / RULE
    }

    pub fn place(&self, i: usize) -> usize
        requires i_bound { i < R self.now }
        ensures { result ≡ rule_place self.now i }
    {
        prove!(i < self.records.len());
        RULE * i
    }

    pub fn table_of(&self, i: usize) -> u32
        requires i_bound { i < R self.now }
        ensures { result ≡ table_of self.now i }
    {
        let ws = self.records;
        ws[RULE * i]
    }

    pub fn value(&self, i: usize, j: usize) -> u32
        requires i_bound { i < R self.now }
        requires j_bound { j < 4 }
        ensures { result ≡ value self.now i j }
    {
        let ws = self.records;
        ws[RULE * i + 1 + 2 * j]
    }

    pub fn mask(&self, i: usize, j: usize) -> u32
        requires i_bound { i < R self.now }
        requires j_bound { j < 4 }
        ensures { result ≡ mask self.now i j }
    {
        let ws = self.records;
        ws[RULE * i + 2 + 2 * j]
    }

    // Where a rule's call stands.
    pub fn call_place(&self, i: usize) -> usize
        requires i_bound { i < R self.now }
        ensures { result ≡ call_place self.now i }
    {
        prove!(i < self.records.len());
        RULE * i + 9
    }
}

// A pipeline and its rules that Check accepts.
#[derive(Drop)]
pub struct Program<'a> {
    pub pipeline: Pipeline<'a>,
    pub rules: Rules<'a>,
    pub ghost accepted: { Accepted pipeline rules },
}
