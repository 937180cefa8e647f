// Arithmetic at a width of 1 to 32 bits, on u32. Sums and shifts go through u64, where a value of 33 bits has room. That a width is at most 32
// is a clause, and no type: callers have widths as words.
#![tactic(auto)]

ghost use Rattle.std.specs.Prelude.{◌≡◌, ◌-◌, ◌%◌, ◌^◌, ◌<◌, ◌≤◌};
ghost use Rattle.std.specs.Int.Bits.{bit_and, bit_or, bit_xor};
ghost use Rattle.bits.specs.Width.{fits, sum, difference, binary, complement, slice, join, less, under};

// The operations on two values of one width.
#[derive(Clone, Copy)]
pub enum Op {
    Sum,
    Difference,
    And,
    Or,
    Xor,
}

// The bounds are said here once, so that no caller has to prove them.
fn power(width: u32) -> u64
    requires { width ≤ 32 }
    ensures value { result ≡ 2 ^ width }
    ensures lower_bound { 1 ≤ result }
    ensures upper_bound { result ≤ 2 ^ 32 }
{
    1u64 << width
}

fn ones(width: u32) -> u64
    requires { width ≤ 32 }
    ensures value { result ≡ 2 ^ width - 1 }
    ensures upper_bound { result < 2 ^ 32 }
{
    power(width) - 1
}

// The remainder by a mask, since a division would be slow.
fn lowest(width: u32, x: u64) -> u32
    requires { width ≤ 32 }
    ensures { result ≡ x % 2 ^ width }
{
    (x & ones(width)) as u32
}

pub fn fits(width: u32, x: u32) -> bool
    requires { width ≤ 32 }
    ensures { result ≡ fits width x }
{
    (x as u64) < power(width)
}

pub fn sum(width: u32, x: u32, y: u32) -> u32
    requires { width ≤ 32 }
    ensures { result ≡ sum width x y }
{
    lowest(width, x as u64 + y as u64)
}

pub fn difference(width: u32, x: u32, y: u32) -> u32
    requires width_bound { width ≤ 32 }
    requires y_bound { y < 2 ^ width }
    ensures { result ≡ difference width x y }
{
    lowest(width, x as u64 + (power(width) - y as u64))
}

pub fn and(x: u32, y: u32) -> u32
    ensures { result ≡ bit_and x y }
{
    x & y
}

pub fn or(x: u32, y: u32) -> u32
    ensures { result ≡ bit_or x y }
{
    x | y
}

pub fn xor(x: u32, y: u32) -> u32
    ensures { result ≡ bit_xor x y }
{
    x ^ y
}

pub fn binary(op: Op, width: u32, x: u32, y: u32) -> u32
    requires width_bound { width ≤ 32 }
    requires y_bound { y < 2 ^ width }
    ensures { result ≡ binary op width x y }
{
    match op {
        Op::Sum => sum(width, x, y),
        Op::Difference => difference(width, x, y),
        Op::And => and(x, y),
        Op::Or => or(x, y),
        Op::Xor => xor(x, y),
    }
}

pub fn complement(width: u32, x: u32) -> u32
    requires width_bound { width ≤ 32 }
    requires x_bound { x < 2 ^ width }
    ensures { result ≡ complement width x }
{
    (ones(width) - x as u64) as u32
}

pub fn slice(high: u32, low: u32, x: u32) -> u32
    requires low_le_high { low ≤ high }
    requires high_bound { high < 32 }
    ensures { result ≡ slice high low x }
{
    lowest(high - low + 1, (x as u64) >> low)
}

pub fn join(width: u32, x: u32, y: u32) -> u32
    requires width_bound { width ≤ 32 }
    requires y_bound { join width x y < 2 ^ 32 }
    ensures { result ≡ join width x y }
{
    (((x as u64) << width) + y as u64) as u32
}

pub fn less(x: u32, y: u32) -> bool
    ensures { result ≡ less x y }
{
    x < y
}

pub fn under(mask: u32, value: u32, x: u32) -> bool
    ensures { result ≡ under mask value x }
{
    (x & mask) == value
}
