// The office program: reads its input from standard input, and writes the output. A failing read or write is told on standard error, with status 1.
#![tactic(auto)]

ghost use Rattle.std.specs.Prelude.{◌≡◌, ◌+◌, ◌*◌, ◌≤◌, length, take, IfOk};
ghost use Rattle.model.specs.Gate.{gate};
ghost use Rattle.printing.specs.Printing.{answer_bytes};

use std::io;
use std::io::{Read, Write};
use std::process::ExitCode;

// One byte more than an input may have.
const READ: usize = 65537;

// The room that the output of so many bytes may need.
const WRITTEN: usize = 2621520;

fn input_buffer() -> [u8; READ]
    ensures { 65537 ≡ length result }
{
    [0; READ]
}

fn output_buffer() -> [u8; WRITTEN] {
    [0; WRITTEN]
}

// The output of an input, and its length in the words that lending a part of the buffer asks for.
fn written(input: &[u8], out: &mut [u8]) -> usize
    requires { answer_bytes + answer_bytes * length input.now ≤ length out.old }
    ensures prefix_len { (result ≤ length out.new) × (result ≡ length (take result out.new)) }
    ensures out_after { take result out.new ≡ gate input.now }
{
    office::run(input, out)
}

// Reads until the buffer is full or the input ends, and answers how many bytes it has then. A read gives at least one byte, or the input has ended.
fn read_full<R: Read>(from: &mut R, buffer: &mut [u8]) -> io::Result<usize>
    ensures { IfOk result (λ n. n ≤ length buffer.new) }
{
    let mut at = 0;
    for _ in 0..buffer.len() {
        let n = from.read(&mut buffer[at..])?;
        if n == 0 {
            break;
        }
        at += n;
    }
    Ok(at)
}

// Tells what went wrong and why, where standard error can be written.
fn failed(rt: &HostRuntime, what: &str, why: io::Error) -> ExitCode {
    match eprintln!(rt; "gate: {what}: {why}") {
        Ok(()) | Err(_) => ExitCode::FAILURE,
    }
}

fn main(rt: HostRuntime) -> ExitCode {
    let mut input = input_buffer();
    let n = match read_full(&mut rt.reader(), &mut input) {
        Ok(n) => n,
        Err(e) => return failed(&rt, "standard input cannot be read", e),
    };
    let mut out = output_buffer();
    let length = written(&input[..n], &mut out);
    match rt.stdout().write_all(&out[..length]) {
        Ok(()) => ExitCode::SUCCESS,
        Err(e) => failed(&rt, "standard output cannot be written", e),
    }
}
