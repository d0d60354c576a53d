// One command: an edit, or a request with its block in hex.
ghost use Rattle.std.specs.Prelude.{◌*◌, ◌≤◌, length};
ghost use Rattle.office.specs.Command.{CommandTold};

// A request has its block.
#[derive(Clone, Copy)]
pub enum Command<'a> {
    Edit,
    Request(&'a [u8]),
}

// Reads a line, and the block of a request into a buffer. A line that is neither, bad hex among them, is no command.
pub fn read<'a>(line: &[u8], buffer: &'a mut [u8]) -> Option<Command<'a>>
    requires { length line.now ≤ 2 * length buffer.old }
    ensures { CommandTold line.now result }
{
    if fields::sign_of(line).is_some() {
        return Some(Command::Edit);
    }
    let hex = crate::input::bare(line).strip_prefix(b"try=")?;
    let length = text::unhex(hex, buffer).ok()?;
    Some(Command::Request(&buffer[..length]))
}
