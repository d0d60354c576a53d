// Reads a policy from its rule code: a loop judges it, then the readers of the grammar read what was accepted.
#![tactic(auto)]

mod scan;

ghost use Rattle.std.specs.Prelude.{◌≡◌, ◌&&◌, ◌+◌, ◌*◌, ◌<◌, ◌≤◌, leb, length, get_or};
ghost use Rattle.codes.specs.Enums.{number_in};
ghost use Rattle.policy.specs.Starts.{term_start};
ghost use Rattle.policy.specs.Readers.{Policies, Conjunctions, Terms, Heads, Closes};
ghost use Rattle.policy.specs.Readers.{operand_of, Vars, SetVars, ItemsFrom, ConstantEnds, Alone, SecondVars, VarHeads, NoVarHeads};
ghost use Rattle.policy.specs.Judgements.{Judges};

use codes::{
    AND, AT_LEAST, COMMA, END, EQUAL, FALSE, INT, LBRACE, LPAREN, NAME, NOT, OR, RBRACE, RPAREN,
    Refusal, STR, TRUE,
};
use values::Operand;

// How a term begins, after NOT or not: one without parentheses, where it ends and the atoms of its largest set (9 for more than 8); or a
// parenthesis, and where its policy begins.
#[derive(Clone, Copy)]
enum Head {
    Leaf(usize, u8),
    Open(usize),
}

// What a var stands for: constants of a type, from a place up to another, or the attribute of a number.
#[derive(Clone, Copy)]
pub enum Meant {
    Constants(u8, usize, usize),
    Attribute(usize),
}

impl Meant {
    // The operand of the values that it stands for, by the rows of the attributes.
    pub fn operand(self, attributes: &[u64]) -> Operand
        requires { length attributes.now ≡ 256 }
        ensures { result ≡ operand_of attributes.now self }
    {
        match self {
            Meant::Constants(ty, start, end) => values::constant(ty, start, end),
            Meant::Attribute(number) => values::attribute(attributes, number),
        }
    }
}

// A constant, a set or an attribute: what it stands for, its atoms as written (9 for more than 8, 0 of an attribute), and where it ends.
#[derive(Clone, Copy)]
pub struct Var {
    pub meant: Meant,
    pub atoms: u8,
    pub next: usize,
}

// The constants of a set: how many (9 for more than 8), and where the brace is that ends them.
#[derive(Clone, Copy)]
struct Constants {
    atoms: u8,
    end: usize,
}

// The byte at a place of the code, the kind of a token where one begins there; END behind the last byte.
pub fn kind_at(code: &[u8], at: usize) -> u8
    ensures { result ≡ get_or code.now at 0 }
{
    code.get(at).copied().unwrap_or(END)
}

// The end of a parenthesis, at the place behind its policy.
fn close(code: &[u8], at: usize) -> Option<usize>
    ensures { Closes code.now at result }
{
    if kind_at(code, at) != RPAREN {
        return None;
    }
    Some(at + 1)
}

fn is_operator(kind: u8) -> bool
    ensures { result ≡ (leb 16 kind && leb kind 23) }
{
    matches!(kind, EQUAL..=AT_LEAST)
}

// The place behind the constant of that kind at a place: an int has four bytes, a str its length and as many.
fn constant_end(code: &[u8], kind: u8, at: usize) -> usize
    requires { at < length code.now }
    ensures { ConstantEnds code.now kind at result }
{
    if kind != STR {
        return at + 5;
    }
    at + 2 + usize::from(kind_at(code, at + 1))
}

// The constants of one kind, parted by commas up to the brace that ends their set.
fn items(code: &[u8], kind: u8, first: usize) -> Option<Constants>
    ensures { ItemsFrom code.now kind first result }
{
    let mut at = first;
    let mut atoms: u8 = 0;
    // A constant is as long as its kind and its length tell, so that no iterator over bytes fits.
    while at < code.len() {
        if code[at] != kind {
            return None;
        }
        let end = constant_end(code, kind, at);
        atoms = atoms.min(8) + 1;
        match kind_at(code, end) {
            RBRACE => return Some(Constants { atoms, end }),
            COMMA => at = end + 1,
            _ => return None,
        }
    }
    None
}

// A set, behind its first brace.
fn set_var(code: &[u8], at: usize) -> Option<Var>
    ensures { SetVars code.now at result }
{
    let kind = kind_at(code, at);
    match kind {
        INT..=STR => {
            let constants = items(code, kind, at)?;
            Some(Var {
                meant: Meant::Constants(kind, at, constants.end),
                atoms: constants.atoms,
                next: constants.end + 1,
            })
        }
        _ => None,
    }
}

// A constant, a set or an attribute, by the kind of its first token.
pub fn var_at(code: &[u8], at: usize) -> Option<Var>
    ensures { Vars code.now at result }
{
    let kind = kind_at(code, at);
    match kind {
        INT..=STR => {
            let end = constant_end(code, kind, at);
            Some(Var {
                meant: Meant::Constants(kind, at, end),
                atoms: 1,
                next: end,
            })
        }
        NAME => {
            let number = usize::from(kind_at(code, at + 1));
            Some(Var {
                meant: Meant::Attribute(number),
                atoms: 0,
                next: at + 2,
            })
        }
        LBRACE => set_var(code, at + 1),
        _ => None,
    }
}

// An attribute without an operator behind it is a term; constants are none.
fn alone(v: Var) -> Option<Head>
    ensures { Alone v result }
{
    if v.atoms != 0 {
        return None;
    }
    Some(Head::Leaf(v.next, 0))
}

// TRUE, FALSE, UNDEF or a parenthesis, by the kind of its first token.
fn simple_head(code: &[u8], at: usize) -> Option<Head>
    ensures { NoVarHeads code.now at result }
{
    match kind_at(code, at) {
        LPAREN => Some(Head::Open(at + 1)),
        FALSE..=TRUE => Some(Head::Leaf(at + 1, 0)),
        _ => None,
    }
}

// The var behind the operator of a comparison, if there is an operator; no comparison stands after NOT.
pub fn second_var(code: &[u8], negated: bool, at: usize) -> Option<Var>
    ensures { SecondVars code.now negated at result }
{
    if negated || !is_operator(kind_at(code, at)) {
        return None;
    }
    var_at(code, at + 1)
}

// What begins with a var: a comparison where an operator and a var follow, else the var alone.
fn var_head(code: &[u8], negated: bool, v: Var) -> Option<Head>
    ensures { VarHeads code.now negated v result }
{
    match second_var(code, negated, v.next) {
        Some(w) => Some(Head::Leaf(w.next, v.atoms.max(w.atoms))),
        None => alone(v),
    }
}

// How a term begins, after NOT or not: with a var, or as a simple term. NOT bars a comparison, and else says nothing of where a term ends.
fn term_head(code: &[u8], at: usize) -> Option<Head>
    ensures { Heads term_start code.now at result }
{
    let negated = kind_at(code, at) == NOT;
    let first = at + usize::from(negated);
    match var_at(code, first) {
        Some(v) => var_head(code, negated, v),
        None => simple_head(code, first),
    }
}

// A policy: conjunctions joined by OR. It and a conjunction are two functions, and not one that is handed its parts: the parts call a policy again.
#[cycle(conjunction_policy_term)]
fn policy(code: &[u8], at: usize) -> Option<usize>
    ensures { Policies code.now at result }
{
    let next = conjunction(code, at)?;
    if kind_at(code, next) != OR {
        return Some(next);
    }
    policy(code, next + 1)
}

// A conjunction: terms joined by AND.
#[cycle(conjunction_policy_term)]
fn conjunction(code: &[u8], at: usize) -> Option<usize>
    ensures { Conjunctions code.now at result }
{
    let next = term(code, at)?;
    if kind_at(code, next) != AND {
        return Some(next);
    }
    conjunction(code, next + 1)
}

// A term: one without parentheses, or a policy in them.
#[cycle(conjunction_policy_term)]
fn term(code: &[u8], at: usize) -> Option<usize>
    ensures { Terms code.now at result }
{
    match term_head(code, at)? {
        Head::Leaf(next, _) => Some(next),
        Head::Open(inner) => {
            let next = policy(code, inner)?;
            close(code, next)
        }
    }
}

// What a policy alone is refused for; its code is written. The readers, which follow the grammar, call each other as deep as parentheses stand, so a
// loop judges the policy first, and they read only what it accepts, at most 8 deep.
pub fn judge(s: &[u8], attributes: &[u64], code: &mut [u8]) -> Result<(), Refusal>
    requires { (length attributes.now ≡ 256) × (3 * length s.now + 3 ≤ length code.old) }
    ensures { Judges s.now attributes.now code.old code.new (number_in result) }
{
    let Ok(encoded) = tokens::encode(s, attributes, code) else {
        return Err(Refusal::Malformed);
    };
    scan::refusal(scan::scan(code), encoded.unknown)?;
    match policy(code, 0) {
        Some(next) if kind_at(code, next) == END => Ok(()),
        _ => Err(Refusal::Malformed),
    }
}
