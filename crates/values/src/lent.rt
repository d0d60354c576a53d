// What is lent to everything that reads values.
ghost use Rattle.std.specs.Prelude.{◌≡◌, length};

// Rule code, the rows of pairs, the session's words and the entries of the block.
#[derive(Clone, Copy)]
pub struct Lent<'a> {
    pub code: &'a [u8],
    pub pairs: &'a [u64],
    pub session: &'a [u64; 128],
    pub entries: &'a [u8],
    pub ghost whole: { length pairs.now ≡ 1024 },
}
