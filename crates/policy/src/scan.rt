// Judges a policy by one loop, in which a counter stands for the open parentheses: whether it is well formed, and its counts. So a policy whose
// parentheses are too deep, or do not match, is refused before the readers that call each other begin.
ghost use Rattle.std.specs.Prelude.{◌≡◌, ◌||◌, ltb};
ghost use Rattle.codes.specs.Enums.{number_in};
ghost use Rattle.policy.specs.declared.scan.Stand.TheVariants.{Behind};
ghost use Rattle.policy.specs.Judgements.{Refuses};
ghost use Rattle.policy.specs.Scans.{Scans, Turns, OpenWithin, OpenBefore, goes, with_leaf, stand_by};

use crate::Head;
use codes::{AND, END, OR, RPAREN, Refusal};

// How far the loop has come: the place of the next token, the parentheses that are open there, and the counts of what was read: terms (17 for more
// than 16), the depth of parentheses and the atoms of the largest set (9 for more than 8).
#[derive(Clone, Copy)]
pub struct Reached {
    at: usize,
    unclosed: usize,
    terms: u8,
    depth: u8,
    largest: u8,
}

// What stands there: a term is expected, or one stands behind; the end of a whole policy; or what no policy has there.
#[derive(Clone, Copy)]
pub enum Stand {
    Before(Reached),
    Behind(Reached),
    Whole(Reached),
    Failed,
}

// One term more, without parentheses, that ends before `next`: it stands as deep as parentheses are open.
fn counted(x: Reached, next: usize, set: u8) -> Reached
    ensures { result ≡ with_leaf x next set }
{
    Reached {
        at: next,
        terms: x.terms.min(16) + 1,
        depth: x.depth.max(x.unclosed.min(9) as u8),
        largest: x.largest.max(set),
        ..x
    }
}

// Behind the head of a term.
fn behind_head(x: Reached, h: Option<Head>) -> Stand
    requires { OpenBefore x h }
    ensures { result ≡ stand_by x h }
{
    match h {
        Some(Head::Leaf(next, set)) => Stand::Behind(counted(x, next, set)),
        Some(Head::Open(inner)) => Stand::Before(Reached {
            at: inner,
            unclosed: x.unclosed + 1,
            ..x
        }),
        None => Stand::Failed,
    }
}

// Behind a term: AND or OR and the next one, the end of a parenthesis, or the end of all.
fn behind_term(code: &[u8], x: Reached) -> Stand
    requires { OpenWithin (Behind x) }
    ensures { Turns code.now (Behind x) result }
{
    match crate::kind_at(code, x.at) {
        AND | OR => Stand::Before(Reached { at: x.at + 1, ..x }),
        RPAREN if x.unclosed != 0 => Stand::Behind(Reached {
            at: x.at + 1,
            unclosed: x.unclosed - 1,
            ..x
        }),
        END if x.unclosed == 0 => Stand::Whole(x),
        _ => Stand::Failed,
    }
}

// One turn of the loop, by what stands at the place.
fn turn(code: &[u8], s: Stand) -> Stand
    requires { OpenWithin s }
    ensures { Turns code.now s result }
{
    match s {
        Stand::Before(x) => behind_head(x, crate::term_head(code, x.at)),
        Stand::Behind(x) => behind_term(code, x),
        Stand::Whole(_) | Stand::Failed => s,
    }
}

fn is_going(s: Stand) -> bool
    ensures { result ≡ goes s }
{
    matches!(s, Stand::Before(_) | Stand::Behind(_))
}

// Whether the code holds a policy, and its counts: where the loop ends.
pub fn scan(code: &[u8]) -> Stand
    ensures { Scans code.now result }
{
    let mut s = Stand::Before(Reached {
        at: 0,
        unclosed: 0,
        terms: 0,
        depth: 0,
        largest: 0,
    });
    while is_going(s) {
        s = turn(code, s);
    }
    s
}

// 7: "more than 16 terms, depth over 8 or a set over 8".
fn is_large(x: Reached) -> bool
    ensures { result ≡ (ltb 16 x.terms || ltb 8 x.depth || ltb 8 x.largest) }
{
    16 < x.terms || 8 < x.depth || 8 < x.largest
}

// What is refused of a policy by where the loop ends, in this order: 6 malformed, 7 over the limits, 8 a name that is not declared.
pub fn refusal(s: Stand, unknown: bool) -> Result<(), Refusal>
    ensures { Refuses s unknown (number_in result) }
{
    match s {
        Stand::Whole(x) if is_large(x) => Err(Refusal::OverLimits),
        Stand::Whole(_) if unknown => Err(Refusal::Undeclared),
        Stand::Whole(_) => Ok(()),
        Stand::Before(_) | Stand::Behind(_) | Stand::Failed => Err(Refusal::Malformed),
    }
}
