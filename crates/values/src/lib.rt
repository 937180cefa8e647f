// Bits of a width; the evaluators of values and of tests, which read a pipeline block's nodes in place; the first number that is too wide.
#![tactic(auto)]

ghost use Rattle.std.specs.Prelude.{◌≡◌, ℕ, ◌+◌, ◌^◌, ◌≤◌, ◌<◌, length};
ghost use Rattle.bits.specs.Width.{fits};
ghost use Rattle.model.specs.Lists.{word, first_not};
ghost use Rattle.model.specs.Blocks.{N, widths};
ghost use Rattle.model.specs.Trees.{as_value, as_test, tree, of_width, binary_bits, complement_bits, slice_bits, join_bits, compare_bits, connected, bits_of, truth_of, bits_in};
ghost use Rattle.model.specs.Good.{GoodValue, GoodTest};
ghost use Rattle.values.specs.Ready.{Ready};

use bits::Op;
use blocks::{Pipeline, word_in};
use model::{Bits, Comparison, Connective, Kind};

// (The literal says it too; it is public, and the definition's name.)
pub fn of_width(width: u32, number: u32) -> Bits
    ensures { result ≡ of_width width number }
{
    Bits { width, number }
}

pub fn binary_bits(op: Op, x: Bits, y: Bits) -> Bits
    requires width_bound { x.width ≤ 32 }
    requires number_bound { y.number < 2 ^ x.width }
    ensures { result ≡ binary_bits op x y }
{
    of_width(x.width, bits::binary(op, x.width, x.number, y.number))
}

pub fn complement_bits(x: Bits) -> Bits
    requires width_bound { x.width ≤ 32 }
    requires number_bound { x.number < 2 ^ x.width }
    ensures { result ≡ complement_bits x }
{
    of_width(x.width, bits::complement(x.width, x.number))
}

pub fn slice_bits(x: Bits, high: u32, low: u32) -> Bits
    requires low_le_high { low ≤ high }
    requires high_bound { high < 32 }
    ensures { result ≡ slice_bits x high low }
{
    of_width(high - low + 1, bits::slice(high, low, x.number))
}

pub fn join_bits(x: Bits, y: Bits) -> Bits
    requires width_bound { x.width + y.width ≤ 32 }
    requires number_bound { x.number < 2 ^ x.width }
    requires y_bound { y.number < 2 ^ y.width }
    ensures { result ≡ join_bits x y }
{
    of_width(x.width + y.width, bits::join(y.width, x.number, y.number))
}

pub fn compare_bits(o: Comparison, x: Bits, y: Bits) -> bool
    ensures { result ≡ compare_bits o x y }
{
    match o {
        Comparison::Equal => x.number == y.number,
        Comparison::Less => bits::less(x.number, y.number),
    }
}

pub fn connected(o: Connective, x: bool, y: bool) -> bool
    ensures { result ≡ connected o x y }
{
    match o {
        Connective::And => x & y,
        Connective::Or => x | y,
    }
}

// `Ready` stands in three contracts, and the three references go together: a struct of them would make each clause say `r.now.p.now` and
// `r.now.given.now`, so it is no plainer.
fn field_bits(p: &Pipeline, packet: &[u32], i: u32) -> Bits
    requires ready { Ready p.now packet.now }
    requires i_in_bounds { i < length (widths p.now) }
    ensures { result ≡ bits_in (widths p.now) packet.now i }
{
    let at = i as usize;
    of_width(p.width(at), packet[at])
}

// The bits of the value at node n. What is no value is no bits.
#[cycle(bits_at_truth_at)]
pub fn bits_at(p: &Pipeline, given: &[u32; 2], packet: &[u32], n: usize) -> Bits
    requires ready { Ready p.now packet.now }
    requires n_bound { n < N p.now }
    requires good_value { GoodValue (widths p.now) (as_value (tree p.now given.now n)) }
    ensures { result ≡ bits_of (bits_in (widths p.now) packet.now) (as_value (tree p.now given.now n)) }
{
    let node = p.node(n);
    let a = node.a as usize;
    let b = node.b as usize;
    let c = node.c as usize;
    match nodes::kind_in(node.kind) {
        Kind::Constant => of_width(node.b, node.a),
        Kind::Field => field_bits(p, packet, node.a),
        Kind::Parameter => of_width(node.b, word_in(given, node.a)),
        Kind::Binary(op) => {
            let x = bits_at(p, given, packet, a);
            let y = bits_at(p, given, packet, b);
            binary_bits(op, x, y)
        }
        Kind::Complement => complement_bits(bits_at(p, given, packet, a)),
        Kind::Slice => slice_bits(bits_at(p, given, packet, a), node.b, node.c),
        Kind::Join => {
            let x = bits_at(p, given, packet, a);
            let y = bits_at(p, given, packet, b);
            join_bits(x, y)
        }
        Kind::Select => {
            if truth_at(p, given, packet, a) {
                bits_at(p, given, packet, b)
            } else {
                bits_at(p, given, packet, c)
            }
        }
        _ => of_width(0, 0),
    }
}

// Whether the test at node n holds. What is no test does not.
#[cycle(bits_at_truth_at)]
pub fn truth_at(p: &Pipeline, given: &[u32; 2], packet: &[u32], n: usize) -> bool
    requires ready { Ready p.now packet.now }
    requires n_bound { n < N p.now }
    requires good_test { GoodTest (widths p.now) (as_test (tree p.now given.now n)) }
    ensures { result ≡ truth_of (bits_in (widths p.now) packet.now) (as_test (tree p.now given.now n)) }
{
    let node = p.node(n);
    let a = node.a as usize;
    let b = node.b as usize;
    match nodes::kind_in(node.kind) {
        Kind::Truth => node.a == 1,
        Kind::Compare(o) => {
            let x = bits_at(p, given, packet, a);
            let y = bits_at(p, given, packet, b);
            compare_bits(o, x, y)
        }
        Kind::Not => !truth_at(p, given, packet, a),
        Kind::Connect(o) => {
            let x = truth_at(p, given, packet, a);
            let y = truth_at(p, given, packet, b);
            connected(o, x, y)
        }
        _ => false,
    }
}

// The first value of a packet or of a valuation that doesn't fit its width.
pub fn first_wide(widths: &[u32], numbers: &[u32]) -> Option<usize>
    requires one_each { length numbers.now ≡ length widths.now }
    requires narrow { (i : ℕ) → word widths.now i ≤ 32 }
    ensures { result ≡ first_not (λ i. fits (word widths.now i) (word numbers.now i)) (length widths.now) }
{
    places::first_not(|i| bits::fits(widths[i], numbers[i]), widths.len())
}
