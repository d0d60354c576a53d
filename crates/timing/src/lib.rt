// What the timing program calls. A truth value is a number: 0 FALSE, 1 UNDEF, 2 TRUE.
#![tactic(auto)]

use codes::Refusal;
use session::Activation;

// A policy's bytes become a program, rule code and rows: 6, 7 or 8 where it is refused, 0 where it is not.
#[unsafe(no_mangle)]
pub extern "C" fn zhul_time_load(
    policy: &[u8],
    attributes: &[u64; 256],
    code: &mut [u8; 768],
    rows: &mut [u8; 256],
) -> u8 {
    if 255 < policy.len() {
        return Refusal::Malformed as u8;
    }
    if let Err(refusal) = policy::judge(policy, attributes, code) {
        return refusal as u8;
    }
    compile::compile(code, attributes, rows);
    0
}

// Tells refusal 17, and opens a session of the first `count` attributes.
#[unsafe(no_mangle)]
pub extern "C" fn zhul_time_open(
    attributes: &[u64; 256],
    table: &[u64; 1024],
    user: usize,
    object: usize,
    mask: u32,
    count: usize,
    session: &mut [u64; 128],
) -> bool {
    let activation = Activation {
        attributes,
        table,
        user,
        object,
        mask,
    };
    if 32 < count || activation.unheld() {
        return true;
    }
    activation.open(count, session);
    false
}

// Runs a program on an opened session.
#[unsafe(no_mangle)]
pub extern "C" fn zhul_time_run(
    code: &[u8; 768],
    rows: &[u8; 256],
    pairs: &[u64; 1024],
    session: &[u64; 128],
    entries: &[u8],
) -> u8 {
    program::run(code, rows, pairs, session, entries).value as u8
}
