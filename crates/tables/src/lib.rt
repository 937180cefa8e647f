// Which rule of a table hits a packet. Only `tried_before`, `first_after` and `settled` know the order in which rules are tried.
#![tactic(auto)]

ghost use Rattle.std.specs.Prelude.{◌≡◌, true, false, ℕ, Bool, Option, Some, ◌<◌, ◌≤◌, length};
ghost use Rattle.model.specs.Lists.{or_count};
ghost use Rattle.model.specs.Blocks.{T, R, key};
ghost use Rattle.model.specs.Tables.{matches, tried_before, tried, first_that, hit};
ghost use Rattle.tables.specs.Fitting.{Fitting};
ghost use Rattle.tables.specs.Next.{comes_after, next_after};
ghost use Rattle.tables.specs.Scan.{key_matches, Settled, precedes};

use blocks::{Pipeline, Rules};

// Key j of rule i, whose table is t.
fn key_matches(p: &Pipeline, r: &Rules, packet: &[u32], i: usize, t: usize, j: usize) -> bool
    requires i_bound { i < R r.now }
    requires t_bound { t < T p.now }
    requires j_bound { j < 4 }
    requires field_there { key p.now t j < length packet.now }
    ensures { result ≡ key_matches p.now r.now packet.now i t j }
{
    let field = p.key(t, j) as usize;
    let mask = r.mask(i, j);
    let value = r.value(i, j);
    bits::under(mask, value, packet[field])
}

#[tactic(auto, unfolding(model::specs::Tables::matches))]
pub fn matches(p: &Pipeline, r: &Rules, packet: &[u32], i: usize) -> bool
    requires fitting { Fitting p.now r.now packet.now }
    requires i_bound { i < R r.now }
    ensures { result ≡ matches p.now r.now packet.now i }
{
    let t = r.table_of(i) as usize;
    let count = p.key_count(t) as usize;
    places::every(|j| key_matches(p, r, packet, i, t, j), count)
}

// Block order.
fn tried_before(r: &Rules, i: usize, j: usize) -> bool
    requires i_bound { i < R r.now }
    requires j_bound { j < R r.now }
    ensures { result ≡ tried_before r.now i j }
{
    i < j
}

// Where a scan for what comes after a rule may begin: no rule below does. An order that says less can answer 0.
fn first_after(r: &Rules, after: Option<usize>) -> usize
    ensures none_before { (j : ℕ) → j < result → comes_after r.now (or_count (R r.now) after) j ≡ false }
    ensures upper_bound { result ≤ R r.now }
{
    match after {
        Some(i) if i < r.count() => i + 1,
        _ => 0,
    }
}

// Where a scan may end: the best is a rule, and none behind it is tried before it. An order that says less can answer false.
fn settled(r: &Rules, best: Option<usize>) -> bool
    requires { (j : ℕ) → best ≡ Some j → j < R r.now }
    ensures { result ≡ true → Settled r.now best }
{
    best.is_some()
}

// Every rule is tried before the default is taken.
fn precedes(r: &Rules, i: usize, best: Option<usize>) -> bool
    requires i_bound { i < R r.now }
    requires best_bound { (j : ℕ) → best ≡ Some j → j < R r.now }
    ensures { result ≡ precedes (tried_before r.now) i best }
{
    match best {
        Some(j) => tried_before(r, i, j),
        None => true,
    }
}

// Of the rules of table t from a start on, the first tried that is a candidate; else the default. The tests stand in the order of their
// cost: no rule is asked for that is tried after the best.
fn first_tried<F: Fn(usize) -> bool>(
    r: &Rules,
    t: usize,
    start: usize,
    candidate: F,
) -> Option<usize>
    requires start_bound { start ≤ R r.now }
    requires callable { (i : ℕ) → i < R r.now → F.pre candidate i }
    ensures { (b : ℕ → Bool) → ((i : ℕ) (x : Bool) → i < R r.now → F.post candidate i x → x ≡ b i)
        → ((i : ℕ) → i < start → b i ≡ false) → result ≡ first_that b (tried r.now t) }
{
    let mut best = None;
    for i in start..r.count() {
        if settled(r, best) {
            return best;
        }
        if r.table_of(i) as usize == t && precedes(r, i, best) && candidate(i) {
            best = Some(i);
        }
    }
    best
}

pub fn hit(p: &Pipeline, r: &Rules, packet: &[u32], t: usize) -> Option<usize>
    requires { Fitting p.now r.now packet.now }
    ensures { result ≡ hit p.now r.now packet.now t }
{
    first_tried(r, t, 0, |i| matches(p, r, packet, i))
}

// Behind none, or behind a number that no rule has, every rule comes.
fn comes_after(r: &Rules, after: Option<usize>, i: usize) -> bool
    requires { i < R r.now }
    ensures { result ≡ comes_after r.now (or_count (R r.now) after) i }
{
    match after {
        Some(j) if j < r.count() => tried_before(r, j, i),
        _ => true,
    }
}

// The rule of table t that is tried after a rule, or behind none, the first one; else the default.
pub fn next(r: &Rules, t: usize, after: Option<usize>) -> Option<usize>
    ensures { result ≡ next_after r.now t (or_count (R r.now) after) }
{
    first_tried(r, t, first_after(r, after), |i| comes_after(r, after, i))
}
