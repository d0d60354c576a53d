// The input: its lines, the file, and the commands behind it.
ghost use Rattle.std.specs.Prelude.{◌≡◌};
ghost use Rattle.std.specs.Iterator.{item_count};
ghost use Rattle.model.specs.Bytes.{lines_of};
ghost use Rattle.model.specs.Gate.{bare, is_end};
ghost use Rattle.office.specs.Input.{LineLength, GivesLine, Split};

// The lines of what is left of an input, each with its byte 10.
#[derive(Clone, Copy)]
pub struct Lines<'a> {
    pub rest: &'a [u8],
}

impl<'a> Iterator for Lines<'a> {
    type Item = &'a [u8];

    ghost next_gives = { GivesLine };

    ghost remaining = { item_count (λ s. lines_of s.rest.now) };

    fn next(&mut self) -> Option<&'a [u8]> {
        if self.rest.is_empty() {
            return None;
        }
        let (line, rest) = self.rest.split_at(line_length(self.rest));
        self.rest = rest;
        Some(line)
    }
}

// An input's file, and its commands.
#[derive(Clone, Copy)]
pub struct Input<'a> {
    pub file: &'a [u8],
    pub commands: Lines<'a>,
}

// The length of the first line, with its byte 10.
pub fn line_length(s: &[u8]) -> usize
    ensures { LineLength s.now result }
{
    match text::index_of(s, b'\n') {
        Some(i) => i + 1,
        None => s.len(),
    }
}

// A line without its byte 10.
pub fn bare(line: &[u8]) -> &[u8]
    ensures { result.now ≡ bare line.now }
{
    match text::index_of(line, b'\n') {
        Some(i) if i + 1 == line.len() => &line[..i],
        _ => line,
    }
}

pub fn is_end(line: &[u8]) -> bool
    ensures { result ≡ is_end line.now }
{
    bare(line) == b"end=".as_slice()
}

pub fn split(input: &[u8]) -> Input<'_>
    ensures { Split input.now result }
{
    let mut commands = Lines { rest: input };
    let mut file = 0;
    while let Some(line) = commands.next() {
        if is_end(line) {
            return Input {
                file: &input[..file],
                commands,
            };
        }
        file += line.len();
    }
    Input {
        file: input,
        commands,
    }
}
