// Nodes, wherever they stand, in a pipeline, a passive form or a condition: the kind of a number, what its words are, the sort of a node
// from the sorts of its children, and the first node of a list that is malformed.
#![tactic(auto)]

ghost use Rattle.std.specs.Prelude.{◌≡◌, ◌&&◌, List, ℕ, ◌+◌, ◌*◌, ◌-◌, ◌≤◌, ltb, leb, length, get_or, if◌then◌else◌};
ghost use Rattle.bits.specs.Width.{fits};
ghost use Rattle.model.specs.Lists.{word, or_count};
ghost use Rattle.model.specs.Condition.{node_count};
ghost use Rattle.model.specs.Nodes.{kinds, kind_in, pipeline_only, allowed, kind_of, are, roles, zero_in, unused_zero, width_of, is_test, is_statement, is_formed, is_width, is_value, alike, only, sort_by, sort_of};
ghost use Rattle.nodes.specs.Codes.{sort_from, Coded, node_sorts, first_malformed};

use bits::Op;
use blocks::word_in;
use model::{Comparison, Connective, Kind, Node, Role, Roles, Sort, Stage};
use std::marker::Model;

// The kind with a number, if one has it. A function and no `From`, since the type is another crate's.
#[tactic(auto, unfolding(model::specs::Nodes::kind_in))]
pub fn kind_in(number: u32) -> Kind
    ensures { result ≡ kind_in kinds number }
{
    match number {
        1 => Kind::Constant,
        2 => Kind::Field,
        3 => Kind::Parameter,
        4 => Kind::Binary(Op::Sum),
        5 => Kind::Binary(Op::Difference),
        6 => Kind::Binary(Op::And),
        7 => Kind::Binary(Op::Or),
        8 => Kind::Binary(Op::Xor),
        9 => Kind::Complement,
        10 => Kind::Slice,
        11 => Kind::Join,
        12 => Kind::Select,
        16 => Kind::Truth,
        17 => Kind::Compare(Comparison::Equal),
        18 => Kind::Compare(Comparison::Less),
        19 => Kind::Not,
        20 => Kind::Connect(Connective::And),
        21 => Kind::Connect(Connective::Or),
        32 => Kind::Skip,
        33 => Kind::Assign,
        34 => Kind::Havoc,
        35 => Kind::Assume,
        36 => Kind::Assert,
        37 => Kind::Sequence,
        38 => Kind::Choice,
        39 => Kind::Apply,
        _ => Kind::Unknown,
    }
}

// By number, as the definition says it: a stage is asked before there is a kind.
#[tactic(auto, unfolding(model::specs::Lists::times))]
fn pipeline_only(number: u32) -> bool
    ensures { result ≡ pipeline_only number }
{
    matches!(number, 3 | 33 | 34 | 39)
}

fn allowed(stage: Stage, number: u32) -> bool
    ensures { result ≡ allowed stage number }
{
    match stage {
        Stage::Pipeline => true,
        Stage::Passive => !pipeline_only(number),
        // By number too: statements have numbers from 32 on.
        Stage::Condition => !pipeline_only(number) & (number < 32),
    }
}

// The kind that a number has at a stage.
pub fn kind_of(stage: Stage, number: u32) -> Kind
    ensures { result ≡ kind_of stage number }
{
    if allowed(stage, number) {
        kind_in(number)
    } else {
        Kind::Unknown
    }
}

// Shorter than the literal, which stands in eight arms.
fn are(a: Role, b: Role, c: Role) -> Roles
    ensures { result ≡ are a b c }
{
    Roles { a, b, c }
}

// What the words of a kind are.
pub fn roles(kind: Kind) -> Roles
    ensures { result ≡ roles kind }
{
    match kind {
        Kind::Constant | Kind::Parameter => are(Role::Number, Role::Number, Role::Unused),
        Kind::Field | Kind::Truth | Kind::Havoc | Kind::Apply => are(
            Role::Number,
            Role::Unused,
            Role::Unused,
        ),
        Kind::Slice => are(Role::Child, Role::Number, Role::Number),
        Kind::Select => are(Role::Child, Role::Child, Role::Child),
        Kind::Complement | Kind::Not | Kind::Assume | Kind::Assert => are(
            Role::Child,
            Role::Unused,
            Role::Unused,
        ),
        Kind::Binary(_)
        | Kind::Join
        | Kind::Compare(_)
        | Kind::Connect(_)
        | Kind::Sequence
        | Kind::Choice => are(Role::Child, Role::Child, Role::Unused),
        Kind::Assign => are(Role::Number, Role::Child, Role::Unused),
        Kind::Skip | Kind::Unknown => are(Role::Unused, Role::Unused, Role::Unused),
    }
}

fn zero_in(role: Role, x: u32) -> bool
    ensures { result ≡ zero_in role x }
{
    match role {
        Role::Child | Role::Number => true,
        Role::Unused => x == 0,
    }
}

fn unused_zero(kind: Kind, n: Node) -> bool
    ensures { result ≡ unused_zero kind n }
{
    let w = roles(kind);
    zero_in(w.a, n.a) & zero_in(w.b, n.b) & zero_in(w.c, n.c)
}

// A node's sort, as the byte that stands for it (`sort_from`). A clause sees the sort. The sorts so far are an area of bytes, since memory is
// fixed: 65,536 of them at most; and the byte is what is asked and made, since to decode and to encode it at each node would make a long
// chain slow, where each node waits for the one before.
#[derive(Clone, Copy)]
pub struct Code {
    byte: u8,
}

impl Model for Code {
    ghost use Rattle.std.specs.Prelude.{◌≤◌};
    ghost use Rattle.model.specs.declared.Sort.{Sort};

    ghost Value = { Sort };

    ghost use Rattle.nodes.specs.Codes.{sort_from, byte_of, byte_back};

    ghost view = { λ c. sort_from c.byte };

    // A byte's own range, and no more: every byte is a code.
    ghost invariant = { λ c. c.byte ≤ 255 };

    ghost inverse = { λ s. record { byte = byte_of s } };

    ghost inverse_ok = { λ c h i. record { byte = byte_back c.byte i } };
}

impl Code {
    pub fn from_byte(byte: u8) -> Code
        ensures { result ≡ sort_from byte }
    {
        Code { byte }
    }

    pub fn byte(self) -> u8
        ensures { sort_from result ≡ self }
    {
        self.byte
    }

    // The sorts without a width. Functions, since of a constant a proof would see the byte in place of the sort.
    #[tactic(auto, using(crate::proofs::Bytes::malformed_byte))]
    pub fn malformed() -> Code
        ensures { result ≡ Sort.Malformed }
    {
        Code { byte: 0 }
    }

    #[tactic(auto, using(crate::proofs::Bytes::test_byte))]
    fn test() -> Code
        ensures { result ≡ Sort.Test }
    {
        Code { byte: 1 }
    }

    #[tactic(auto, using(crate::proofs::Bytes::statement_byte))]
    fn statement() -> Code
        ensures { result ≡ Sort.Statement }
    {
        Code { byte: 2 }
    }

    #[tactic(auto, using(crate::proofs::Bytes::byte_value))]
    fn value(width: u32) -> Code
        requires { width ≤ 252 }
        ensures { result ≡ Sort.Value width }
    {
        Code {
            byte: (width + 3) as u8,
        }
    }

    #[tactic(auto, using(crate::proofs::Bytes::byte_width))]
    pub fn width(self) -> u32
        ensures value { result ≡ width_of self }
        ensures bound { result ≤ 252 }
    {
        let byte = self.byte;
        if 3 <= byte { byte as u32 - 3 } else { 0 }
    }

    #[tactic(auto, using(crate::proofs::Bytes::byte_test))]
    pub fn is_test(self) -> bool
        ensures { result ≡ is_test self }
    {
        self.byte == 1
    }

    #[tactic(auto, using(crate::proofs::Bytes::byte_statement))]
    pub fn is_statement(self) -> bool
        ensures { result ≡ is_statement self }
    {
        self.byte == 2
    }

    #[tactic(auto, using(crate::proofs::Bytes::byte_formed))]
    pub fn is_formed(self) -> bool
        ensures { result ≡ is_formed self }
    {
        self.byte != 0
    }

    fn is_value(self) -> bool
        ensures { result ≡ is_value self }
    {
        0 < self.width()
    }

    fn alike(self, other: Code) -> bool
        ensures { result ≡ alike self other }
    {
        self.is_value() & (self.width() == other.width())
    }
}

pub fn is_width(w: u32) -> bool
    ensures { result ≡ is_width w }
{
    (1..=32).contains(&w)
}

fn only(good: bool, sort: Code) -> Code
    ensures { result ≡ only good sort }
{
    if good { sort } else { Code::malformed() }
}

fn constant_sort(value: u32, width: u32) -> Code
    ensures { result ≡ only (is_width width && fits width value) (Sort.Value width) }
{
    if is_width(width) {
        only(bits::fits(width, value), Code::value(width))
    } else {
        Code::malformed()
    }
}

fn parameter_sort(width: u32) -> Code
    ensures { result ≡ only (is_width width) (Sort.Value width) }
{
    if is_width(width) {
        Code::value(width)
    } else {
        Code::malformed()
    }
}

fn slice_sort(operand: Code, high: u32, low: u32) -> Code
    ensures { result ≡ only (ltb high (width_of operand) && leb low high) (Sort.Value (high - low + 1)) }
{
    if high < operand.width() && low <= high {
        Code::value(high - low + 1)
    } else {
        Code::malformed()
    }
}

fn join_sort(above: Code, below: Code) -> Code
    ensures { result ≡ only (is_value above && is_value below && leb (width_of above + width_of below) 32) (Sort.Value (width_of above + width_of below)) }
{
    let total = above.width() + below.width();
    if total <= 32 {
        only(above.is_value() & below.is_value(), Code::value(total))
    } else {
        Code::malformed()
    }
}

// The sorts of a node's three words, each as if it were a child.
#[derive(Clone, Copy)]
pub struct Three {
    pub a: Code,
    pub b: Code,
    pub c: Code,
}

// What a list of nodes is read by: where it stands, the widths of the fields (of the variables), and how many tables there are.
#[derive(Drop)]
pub struct Setting<'a> {
    pub stage: Stage,
    pub widths: &'a [u32],
    pub tables: usize,
    pub ghost narrow: { (x : ℕ) → word widths.now x ≤ 32 },
}

impl<'a> Setting<'a> {
    fn has_field(&self, i: u32) -> bool
        ensures { result ≡ ltb i (length self.now.widths.now) }
    {
        (i as usize) < self.widths.len()
    }

    fn has_table(&self, i: u32) -> bool
        ensures { result ≡ ltb i self.now.tables }
    {
        (i as usize) < self.tables
    }

    // The sort of what a field holds.
    fn field_sort(&self, i: u32) -> Code
        ensures { result ≡ Sort.Value (word self.now.widths.now i) }
    {
        Code::value(word_in(self.widths, i))
    }

    // The sort of a node of a kind.
    fn sort_by(&self, kind: Kind, n: Node, s: Three) -> Code
        ensures { (sort : ℕ → Sort) → s.a ≡ sort n.a → s.b ≡ sort n.b → s.c ≡ sort n.c
            → result ≡ sort_by self.now.widths.now self.now.tables sort kind n.a n.b n.c }
    {
        let a = s.a;
        let b = s.b;
        let c = s.c;
        match kind {
            Kind::Constant => constant_sort(n.a, n.b),
            Kind::Field => only(self.has_field(n.a), self.field_sort(n.a)),
            Kind::Parameter => parameter_sort(n.b),
            Kind::Binary(_) => only(a.alike(b), a),
            Kind::Complement => only(a.is_value(), a),
            Kind::Slice => slice_sort(a, n.b, n.c),
            Kind::Join => join_sort(a, b),
            Kind::Select => only(a.is_test() & b.alike(c), b),
            Kind::Truth => only(n.a <= 1, Code::test()),
            Kind::Compare(_) => only(a.alike(b), Code::test()),
            Kind::Not => only(a.is_test(), Code::test()),
            Kind::Connect(_) => only(a.is_test() & b.is_test(), Code::test()),
            Kind::Skip => Code::statement(),
            Kind::Assign => only(
                self.has_field(n.a) & b.alike(self.field_sort(n.a)),
                Code::statement(),
            ),
            Kind::Havoc => only(self.has_field(n.a), Code::statement()),
            Kind::Assume | Kind::Assert => only(a.is_test(), Code::statement()),
            Kind::Sequence | Kind::Choice => only(
                a.is_statement() & b.is_statement(),
                Code::statement(),
            ),
            Kind::Apply => only(self.has_table(n.a), Code::statement()),
            Kind::Unknown => Code::malformed(),
        }
    }

    // The sort of a node, from the sorts of its children: Check, Condition and Evaluate call this.
    pub fn sort_of(&self, n: Node, s: Three) -> Code
        ensures { (before : List Sort) → s.a ≡ get_or before n.a Sort.Malformed → s.b ≡ get_or before n.b Sort.Malformed
            → s.c ≡ get_or before n.c Sort.Malformed → result ≡ sort_of self.now.stage self.now.widths.now self.now.tables before n }
    {
        let kind = kind_of(self.stage, n.kind);
        only(unused_zero(kind, n), self.sort_by(kind, n, s))
    }

    // The first node that is malformed, if there is one; the sorts of those before it stand in `codes`.
    pub fn first_malformed(&self, nodes: &[u32], codes: &mut [Code]) -> Option<usize>
        requires room { node_count nodes.now ≤ length codes.old }
        ensures value { result ≡ first_malformed self.now.stage self.now.widths.now self.now.tables nodes.now }
        ensures coded { Coded codes.new (node_sorts self.now.stage self.now.widths.now self.now.tables nodes.now) (or_count (node_count nodes.now) result) }
    {
        for i in 0..nodes.len() / blocks::NODE {
            let n = blocks::node_at(nodes, blocks::NODE * i);
            let before = &codes[..i];
            let s = Three {
                a: sort_in(before, n.a),
                b: sort_in(before, n.b),
                c: sort_in(before, n.c),
            };
            let sort = self.sort_of(n, s);
            if !sort.is_formed() {
                return Some(i);
            }
            codes[i] = sort;
        }
        None
    }
}

// The sort of node x, if it is one of those whose sorts are given.
pub fn sort_in(codes: &[Code], x: u32) -> Code
    ensures { result ≡ get_or codes.now x Sort.Malformed }
{
    codes.get(x as usize).copied().unwrap_or(Code::malformed())
}
