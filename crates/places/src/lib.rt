// A test of each place below a count: the first at which it fails, and whether it holds at all of them. Where many ask for the answer of
// one test, whatever the test is, the loop stands here once.
#![tactic(auto)]

ghost use Rattle.std.specs.Prelude.{◌≡◌, ℕ, Bool, ◌<◌};
ghost use Rattle.model.specs.Lists.{first_not, every};

pub fn first_not<F: Fn(usize) -> bool>(test: F, count: usize) -> Option<usize>
    requires { (i : ℕ) → i < count → F.pre test i }
    ensures { (b : ℕ → Bool) → ((i : ℕ) (r : Bool) → i < count → F.post test i r → r ≡ b i) → result ≡ first_not b count }
{
    for i in 0..count {
        if !test(i) {
            return Some(i);
        }
    }
    None
}

pub fn every<F: Fn(usize) -> bool>(test: F, count: usize) -> bool
    requires { (i : ℕ) → i < count → F.pre test i }
    ensures { (b : ℕ → Bool) → ((i : ℕ) (r : Bool) → i < count → F.post test i r → r ≡ b i) → result ≡ every b count }
{
    first_not(test, count).is_none()
}
