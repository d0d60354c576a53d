// A line's bytes taken apart: its key, and the fields of each form. Nothing here knows what is declared.
#![tactic(auto)]

ghost use Rattle.std.specs.Prelude.{◌≡◌, MatchOption};
ghost use Rattle.std.proofs.Math.Option.{none, some};
ghost use Rattle.model.specs.Bytes.{newline, cut};
ghost use Rattle.model.specs.Names.{read_name};
ghost use Rattle.text.specs.Parts.{FirstAt};
ghost use Rattle.codes.specs.Enums.{told_by};
ghost use Rattle.text.specs.Packing.{packed_of};
ghost use Rattle.fields.specs.Forms.{AttrTold, PairTold, TwoTold, ValueTold, RuleTold};
ghost use Rattle.fields.specs.Frames.{FrameTold, Signed};

use codes::{AtomType, Key, Source};
use text::{Packed, Value};

const LINE_BYTES: usize = 255;

// The key of a line, and the places between which its fields stand.
#[derive(Clone, Copy)]
pub struct Framed {
    pub key: Key,
    pub start: usize,
    pub end: usize,
}

// The sign of an edit.
#[derive(Clone, Copy, PartialEq, Eq)]
pub enum Sign {
    Plus,
    Minus,
}

// The fields of each form, where they are well formed.
#[derive(Clone, Copy)]
pub struct AttrFields {
    pub source: Source,
    pub ty: AtomType,
    pub name: Packed,
}

#[derive(Clone, Copy)]
pub struct PairFields {
    pub source: Source,
    pub name: Packed,
    pub atom: Value,
}

#[derive(Clone, Copy)]
pub struct TwoFields {
    pub lower: Packed,
    pub upper: Packed,
}

#[derive(Clone, Copy)]
pub struct ValueFields {
    pub holder: Packed,
    pub name: Packed,
    pub atom: Value,
}

// The operation's name, and where the policy starts.
#[derive(Clone, Copy)]
pub struct RuleFields {
    pub operation: Packed,
    pub start: usize,
}

// A line is given with its byte 10, which stands first at `end`, or nowhere.
pub fn frame_at(line: &[u8], end: Option<usize>) -> Option<Framed>
    requires { FirstAt newline line.now end }
    ensures { FrameTold line.now result }
{
    let end = end?;
    if end + 1 < line.len() || LINE_BYTES < end {
        return None;
    }
    let (key, _) = cut(&line[..end], b'=')?;
    Some(Framed {
        key: text::key_of(key)?,
        start: key.len() + 1,
        end,
    })
}

// The same, where the place of byte 10 is not known.
pub fn frame(line: &[u8]) -> Option<Framed>
    ensures { FrameTold line.now result }
{
    frame_at(line, text::index_of(line, b'\n'))
}

pub fn sign_of(edit: &[u8]) -> Option<Sign>
    ensures { Signed edit.now result }
{
    match edit.first()? {
        b'+' => Some(Sign::Plus),
        b'-' => Some(Sign::Minus),
        _ => None,
    }
}

// What stands before the first byte b, and what stands behind it.
#[inline]
fn cut(s: &[u8], b: u8) -> Option<(&[u8], &[u8])>
    ensures { MatchOption result (cut b s.now ≡ none) (λ p. cut b s.now ≡ some (p.0.now, p.1.now)) }
{
    let i = text::index_of(s, b)?;
    Some((&s[..i], &s[i + 1..]))
}

pub fn name_field(f: &[u8]) -> Option<Packed>
    ensures { result ≡ told_by packed_of (read_name f.now) }
{
    if text::is_name(f) {
        Some(text::pack(f))
    } else {
        None
    }
}

// SRC,NAME,TYPE
#[tactic(auto, using(crate::proofs::Forms::attr_told))]
pub fn attr_fields(f: &[u8]) -> Option<AttrFields>
    ensures { AttrTold f.now result }
{
    let (source, rest) = cut(f, b',')?;
    let (name, ty) = cut(rest, b',')?;
    Some(AttrFields {
        source: text::source_of(source)?,
        name: name_field(name)?,
        ty: text::type_of(ty)?,
    })
}

// SRC.NAME,ATOM
#[tactic(auto, using(crate::proofs::Forms::pair_told))]
pub fn pair_fields(f: &[u8]) -> Option<PairFields>
    ensures { PairTold f.now result }
{
    let (attribute, atom) = cut(f, b',')?;
    let (source, name) = cut(attribute, b'.')?;
    Some(PairFields {
        source: text::source_of(source)?,
        name: name_field(name)?,
        atom: text::atom_of(atom)?,
    })
}

// CHILD,PARENT and PARTY,GROUP
#[tactic(auto, using(crate::proofs::Forms::two_told))]
pub fn two_fields(f: &[u8]) -> Option<TwoFields>
    ensures { TwoTold f.now result }
{
    let (lower, upper) = cut(f, b',')?;
    Some(TwoFields {
        lower: name_field(lower)?,
        upper: name_field(upper)?,
    })
}

// HOLDER,NAME,ATOM
#[tactic(auto, using(crate::proofs::Forms::value_told))]
pub fn value_fields(f: &[u8]) -> Option<ValueFields>
    ensures { ValueTold f.now result }
{
    let (holder, rest) = cut(f, b',')?;
    let (name, atom) = cut(rest, b',')?;
    Some(ValueFields {
        holder: name_field(holder)?,
        name: name_field(name)?,
        atom: text::atom_of(atom)?,
    })
}

// OP,POLICY: the policy is read elsewhere.
#[tactic(auto, using(crate::proofs::Forms::rule_told))]
pub fn rule_fields(f: &[u8]) -> Option<RuleFields>
    ensures { RuleTold f.now result }
{
    let (operation, _) = cut(f, b',')?;
    Some(RuleFields {
        operation: name_field(operation)?,
        start: operation.len() + 1,
    })
}
