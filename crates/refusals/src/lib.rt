// The number of a refusal in document 01's table, and its place. C is told these numbers, so they stand here as the table has them: `as` gives
// an enum's numbers only where no case has a place.
#![tactic(auto)]

ghost use Rattle.std.specs.Prelude.{◌≡◌, [], ◌∷◌};
ghost use Rattle.model.specs.Answers.{refusal_of, number_in, values_in};

use model::Refusal;

pub fn number(r: Refusal) -> u64
    ensures { result ≡ number_in (refusal_of r) }
{
    match r {
        Refusal::File(_) => 1,
        Refusal::Counts => 2,
        Refusal::Width(_) => 3,
        Refusal::Node(_) => 4,
        Refusal::Action(_) => 5,
        Refusal::Table(_) => 6,
        Refusal::Root => 7,
        Refusal::Use(_) => 8,
        Refusal::Misplaced(_) => 9,
        Refusal::Rule(_) => 10,
        Refusal::Packet(_) => 11,
        Refusal::Room(_) => 12,
        Refusal::Variables(_) => 13,
        Refusal::Short(_) => 14,
        Refusal::Entry(_) => 15,
        Refusal::True => 16,
        Refusal::Condition(_) => 17,
        Refusal::Form(_) => 18,
    }
}

// Its place. C is told 0 where it names none.
pub fn place(r: Refusal) -> u64
    ensures { values_in (refusal_of r) ≡ result ∷ [] }
{
    match r {
        Refusal::Counts | Refusal::Root | Refusal::True => 0,
        Refusal::File(at)
        | Refusal::Width(at)
        | Refusal::Node(at)
        | Refusal::Action(at)
        | Refusal::Table(at)
        | Refusal::Use(at)
        | Refusal::Misplaced(at)
        | Refusal::Rule(at)
        | Refusal::Packet(at)
        | Refusal::Room(at)
        | Refusal::Variables(at)
        | Refusal::Short(at)
        | Refusal::Entry(at)
        | Refusal::Condition(at)
        | Refusal::Form(at) => at as u64,
    }
}
