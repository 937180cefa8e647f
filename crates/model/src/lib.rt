// The types that the contracts speak of. What each means is said in specs/, in document 01's words and order.
#![tactic(auto)]

use bits::Op;

// The groups of records, in the order of the record file.
#[derive(Clone, Copy)]
pub enum Group {
    Field,
    Node,
    Action,
    Table,
    Rule,
    Root,
}

// A node: its kind's number and its words.
#[derive(Clone, Copy)]
pub struct Node {
    pub kind: u32,
    pub a: u32,
    pub b: u32,
    pub c: u32,
}

#[derive(Clone, Copy)]
pub enum Comparison {
    Equal,
    Less,
}

#[derive(Clone, Copy)]
pub enum Connective {
    And,
    Or,
}

// A node's kind. Those that keep one rule share one case.
#[derive(Clone, Copy)]
pub enum Kind {
    Constant,
    Field,
    Parameter,
    Binary(Op),
    Complement,
    Slice,
    Join,
    Select,
    Truth,
    Compare(Comparison),
    Not,
    Connect(Connective),
    Skip,
    Assign,
    Havoc,
    Assume,
    Assert,
    Sequence,
    Choice,
    Apply,
    Unknown,
}

// What a word of a node is.
#[derive(Clone, Copy)]
pub enum Role {
    Child,
    Number,
    Unused,
}

#[derive(Clone, Copy)]
pub struct Roles {
    pub a: Role,
    pub b: Role,
    pub c: Role,
}

// Where a list of nodes stands.
#[derive(Clone, Copy)]
pub enum Stage {
    Pipeline,
    Passive,
    Condition,
}

// What a node is; a value with its width.
#[derive(Clone, Copy)]
pub enum Sort {
    Malformed,
    Value(u32),
    Test,
    Statement,
}

// Bits: a width and a number.
#[derive(Clone, Copy)]
pub struct Bits {
    pub width: u32,
    pub number: u32,
}

// Where Lookup's three words stand, by the place of the first in its block. Three cases, since C is told a number for each.
#[derive(Clone, Copy)]
pub enum Part {
    Rules(usize),
    Pipeline(usize),
    Empty,
}

// A refusal, with its place: the rows of document 01's table.
#[derive(Clone, Copy)]
pub enum Refusal {
    File(usize),
    Counts,
    Width(usize),
    Node(usize),
    Action(usize),
    Table(usize),
    Root,
    Use(usize),
    Misplaced(usize),
    Rule(usize),
    Packet(usize),
    Room(usize),
    Variables(usize),
    Short(usize),
    Entry(usize),
    True,
    Condition(usize),
    Form(usize),
}

// What Load answers: the two blocks' lengths.
#[derive(Clone, Copy)]
pub struct Blocks {
    pub pipeline: usize,
    pub rules: usize,
}

// What Run answers: how the run ends, at which node, and how many entries it used.
#[derive(Clone, Copy)]
pub enum Ran {
    Passed { used: usize },
    Blocked { node: usize, used: usize },
    Failed { node: usize, used: usize },
}

// What Passify answers: n and V.
#[derive(Clone, Copy)]
pub struct Form {
    pub nodes: usize,
    pub variables: usize,
}
