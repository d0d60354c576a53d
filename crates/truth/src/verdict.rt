// Verdicts: what a part of a policy comes to, with the cause of an UNDEF found beside the value.
ghost use Rattle.std.specs.Prelude.{◌≡◌, ◌≤◌, false};
ghost use Rattle.model.specs.Truth as model;
ghost use Rattle.model.specs.Truth.{is_undef};
ghost use Rattle.model.specs.Causes.{built};
ghost use Rattle.truth.specs.Truths.{truth_of};
ghost use Rattle.truth.specs.Verdicts.{verdict, verdict_of, both, either, signed, flag_number, truth_number, verdict_number, OfNumber};

use crate::Truth;

// A value, and whether it is UNDEF for lack of values.
#[derive(Clone, Copy, PartialEq, Eq)]
pub struct Verdict {
    pub value: Truth,
    pub absent: bool,
}

// A value that lacks nothing.
pub fn plain(value: Truth) -> Verdict
    ensures { verdict_of result ≡ verdict (truth_of value) false }
{
    Verdict {
        value,
        absent: false,
    }
}

pub fn is_undef(value: Truth) -> bool
    ensures { result ≡ is_undef (truth_of value) }
{
    value == Truth::Undef
}

// "An UNDEF built by AND, OR or NOT is absent if one of its UNDEF operands is": a and b say it of the operands. Nothing is asked where the value is no
// UNDEF.
fn built(value: Truth, a: bool, b: bool) -> bool
    ensures { result ≡ built (truth_of value) a b }
{
    is_undef(value) && (a || b)
}

pub fn and(v: Verdict, w: Verdict) -> Verdict
    ensures { verdict_of result ≡ both (verdict_of v) (verdict_of w) }
{
    let value = crate::and(v.value, w.value);
    Verdict {
        value,
        absent: built(value, v.absent, w.absent),
    }
}

pub fn or(v: Verdict, w: Verdict) -> Verdict
    ensures { verdict_of result ≡ either (verdict_of v) (verdict_of w) }
{
    let value = crate::or(v.value, w.value);
    Verdict {
        value,
        absent: built(value, v.absent, w.absent),
    }
}

// The same behind NOT, if one stands there.
pub fn signed(negated: bool, v: Verdict) -> Verdict
    ensures { verdict_of result ≡ signed negated (verdict_of v) }
{
    if !negated {
        return v;
    }
    Verdict {
        value: crate::not(v.value),
        ..v
    }
}

pub fn flag_number(flag: bool) -> u64
    ensures { (result ≡ flag_number flag) × (result ≤ 1) }
{
    u64::from(flag)
}

fn truth_of(n: u64) -> Truth
    ensures { (t : model.Truth) → n ≡ truth_number t → truth_of result ≡ t }
{
    match n {
        0 => Truth::False,
        1 => Truth::Undef,
        _ => Truth::True,
    }
}

// A verdict in three bits.
pub fn number_of(v: Verdict) -> u64
    ensures { (result ≡ verdict_number (verdict_of v)) × (result ≤ 7) }
{
    v.value as u64 + 4 * u64::from(v.absent)
}

pub fn of_number(n: u64) -> Verdict
    ensures { OfNumber n result }
{
    Verdict {
        value: truth_of(n % 4),
        absent: n / 4 == 1,
    }
}
