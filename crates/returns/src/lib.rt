// What a call for C returns: 0 or a refusal's number, and in three numbers that the caller lends the values of a success or the place of a
// refusal.
#![tactic(auto)]

ghost use Rattle.std.specs.Prelude.{◌≡◌, ℕ, List, [], ◌∷◌};
ghost use Rattle.model.specs.Lists.{word};
ghost use Rattle.model.specs.Answers.{lengths, nothing, part_place, ending, yes_or_no, sizes, answered};
ghost use Rattle.returns.specs.Returns.{Returns};

use model::{Blocks, Form, Part, Ran, Refusal};

// What a call gives, which C is told as at most three values; one that has fewer gives 0 for the others.
pub trait Told {
    ghost values: { Self → List ℕ };

    fn numbers(self) -> [u64; 3]
        ensures { result ≡ word (values self) 0 ∷ word (values self) 1 ∷ word (values self) 2 ∷ [] };
}

// Load: both blocks' lengths.
impl Told for Blocks {
    ghost values = { lengths };

    fn numbers(self) -> [u64; 3] {
        [self.pipeline as u64, self.rules as u64, 0]
    }
}

// Check: no value.
impl Told for () {
    ghost values = { nothing };

    fn numbers(self) -> [u64; 3] {
        [0, 0, 0]
    }
}

// Lookup: which block the part stands in, and its place there.
impl Told for Part {
    ghost values = { part_place };

    fn numbers(self) -> [u64; 3] {
        match self {
            Part::Empty => [0, 0, 0],
            Part::Rules(at) => [1, at as u64, 0],
            Part::Pipeline(at) => [2, at as u64, 0],
        }
    }
}

// Run: how it ended, the node, the entries used.
impl Told for Ran {
    ghost values = { ending };

    fn numbers(self) -> [u64; 3] {
        match self {
            Ran::Passed { used } => [0, 0, used as u64],
            Ran::Blocked { node, used } => [1, node as u64, used as u64],
            Ran::Failed { node, used } => [2, node as u64, used as u64],
        }
    }
}

// Confirm: 1 for yes.
impl Told for bool {
    ghost values = { yes_or_no };

    fn numbers(self) -> [u64; 3] {
        [u64::from(self), 0, 0]
    }
}

// Passify: n and V.
impl Told for Form {
    ghost values = { sizes };

    fn numbers(self) -> [u64; 3] {
        [self.nodes as u64, self.variables as u64, 0]
    }
}

// (Three numbers, as the calls for C lend them.)
pub fn answer<T: Told>(
    answer: Result<T, Refusal>,
    first: &mut u64,
    second: &mut u64,
    third: &mut u64,
) -> u64
    ensures { Returns (answered T.values answer) result first.new second.new third.new }
{
    let (number, values) = match answer {
        Ok(given) => (0, given.numbers()),
        Err(why) => (refusals::number(why), [refusals::place(why), 0, 0]),
    };
    [*first, *second, *third] = values;
    number
}
