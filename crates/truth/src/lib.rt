// Kleene's three-valued logic K3.
#![tactic(auto)]

pub mod verdict;

ghost use Rattle.std.specs.Prelude.{◌≡◌};
ghost use Rattle.model.specs.Truth.{truth, NOT, ◌AND◌, ◌OR◌};
ghost use Rattle.truth.specs.Truths.{truth_of};

#[derive(Clone, Copy, PartialEq, Eq)]
pub enum Truth {
    False,
    Undef,
    True,
}

// The truth of a test.
pub fn tested(test: bool) -> Truth
    ensures { truth_of result ≡ truth test }
{
    if test { Truth::True } else { Truth::False }
}

pub fn not(a: Truth) -> Truth
    ensures { truth_of result ≡ NOT (truth_of a) }
{
    match a {
        Truth::False => Truth::True,
        Truth::Undef => Truth::Undef,
        Truth::True => Truth::False,
    }
}

pub fn and(a: Truth, b: Truth) -> Truth
    ensures { truth_of result ≡ (truth_of a AND truth_of b) }
{
    match a {
        Truth::False => Truth::False,
        Truth::Undef => match b {
            Truth::False => Truth::False,
            Truth::Undef => Truth::Undef,
            Truth::True => Truth::Undef,
        },
        Truth::True => b,
    }
}

pub fn or(a: Truth, b: Truth) -> Truth
    ensures { truth_of result ≡ (truth_of a OR truth_of b) }
{
    match a {
        Truth::False => b,
        Truth::Undef => match b {
            Truth::False => Truth::Undef,
            Truth::Undef => Truth::Undef,
            Truth::True => Truth::True,
        },
        Truth::True => Truth::True,
    }
}
