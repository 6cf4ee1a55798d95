//! The byte at which a line stops being JSON.
ghost use Rattle.std.specs.Prelude.{◌≡◌, ◌≤◌, length, IfOk};
ghost use Rattle.clip_cause.specs.Wrong.{refusal_of};
ghost use Rattle.clip_protocol.specs.declared.refusal.Refusal.TheVariants.{Json};

use crate::wrong::Wrong;
use clip_words::NoMemory;
use serde_json::Value;
use std::alloc::Global;

/// Whether `serde_json` reads a value from the bytes, or might do so with more bytes behind them.
fn may_go_on(alloc: Global, bytes: &[u8]) -> Result<bool, NoMemory> {
    match Value::from_slice(alloc, bytes) {
        Ok(_) => Ok(true),
        Err(error) => {
            if error.is_memory() {
                Err(NoMemory)
            } else {
                Ok(error.is_eof())
            }
        }
    }
}

/// How many of the bytes may go on as JSON, where all of them may not.
fn good_bytes(alloc: Global, bytes: &[u8]) -> Result<usize, NoMemory>
    ensures { IfOk result (λ good. good ≤ length bytes.now) }
{
    let mut good = 0;
    let mut bad = bytes.len();
    'halving: while bad - good > 1 {
        let middle = good + (bad - good) / 2;
        if may_go_on(alloc, &bytes[..middle])? {
            good = middle;
        } else {
            bad = middle;
        }
    }
    Ok(good)
}

/// The byte at which bytes that are no JSON value go wrong, and how: those before it begin one, and with it they don't.
/// Of half of a surrogate pair it is the byte behind the string that has it. `NoMemory` where an allocation failed. Its
/// cost is that of reading the bytes some 20 times at most.
pub fn json_fault(alloc: Global, line: &[u8]) -> Result<(usize, Wrong), NoMemory>
    ensures byte { IfOk result (λ found. found.0 ≤ length line.now) }
    ensures refusal { IfOk result (λ found. refusal_of found.1 ≡ Json) }
{
    let (text, wrong) = match std::str::from_utf8(line) {
        Ok(_) => (line, Wrong::NotJson),
        Err(error) => (&line[..error.valid_up_to()], Wrong::NotUtf8),
    };
    if may_go_on(alloc, text)? {
        Ok((text.len(), wrong))
    } else {
        Ok((good_bytes(alloc, text)?, Wrong::NotJson))
    }
}
