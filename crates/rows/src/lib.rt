// The rows that rules are read with: the declared attributes and pairs as words.
#![tactic(auto)]

ghost use Rattle.std.specs.Prelude.{◌≡◌, ◌<◌, length};
ghost use Rattle.rows.specs.Rows.{row_named, Numbered};

use text::Packed;

// How many rows of attributes there are.
pub const ATTRIBUTES: usize = 32;

// Whether a row of attributes has that source and name.
#[tactic(auto, unfolding(crate::specs::Rows::row_named))]
fn is_named(attributes: &[u64], i: usize, source: u8, name: Packed) -> bool
    requires { (length attributes.now ≡ 256) × (i < 32) }
    ensures { result ≡ row_named attributes.now source name.low name.high i }
{
    let at = 8 * i;
    attributes[at] == u64::from(source) && text::is_packed_at(attributes, at + 2, name)
}

// The number of the attribute of that source and name.
pub fn attribute_number(attributes: &[u64], source: u8, name: Packed) -> Option<usize>
    requires { length attributes.now ≡ 256 }
    ensures { Numbered attributes.now source name result }
{
    (0..ATTRIBUTES).find(|i| is_named(attributes, *i, source, name))
}
