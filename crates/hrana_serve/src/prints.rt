// What an event's outs are printed as.
ghost use Rattle.std.specs.Prelude.{◌≡◌, ◌++◌, IfOk, OnOk};
ghost use Rattle.hrana_serve.specs.Printed.{print_line, print_answer, print_out, print_outs};

use crate::lines::next_line;
use hrana_value::NoMemory;
use http_wire::{HttpAnswer, Out, Outs};
use std::alloc::Global;

/// Adds a line: the head, and where there is more of it a space and the rest.
fn put_line(printed: &mut Vec<u8>, head: &[u8], rest: &[u8]) -> Result<(), NoMemory>
    ensures { OnOk result (printed.new.items ≡ printed.old.items ++ print_line head.now rest.now) }
{
    printed.extend_from_slice(head)?;
    if !rest.is_empty() {
        printed.push(b' ')?;
        printed.extend_from_slice(rest)?;
    }
    printed.push(b'\n')?;
    Ok(())
}

fn print_answer(alloc: Global, conn: u32, answer: &HttpAnswer) -> Result<Vec<u8>, NoMemory>
    ensures { IfOk result (λ bytes. bytes.items ≡ print_answer conn answer.now.status answer.now.body) }
{
    let head = format!(in alloc; "< {} {}", conn, answer.status)?;
    let mut printed = Vec::new(alloc);
    let mut left = Some(answer.body.as_slice());
    while let Some(bytes) = left {
        let (line, after) = next_line(bytes);
        left = after;
        put_line(&mut printed, head.as_bytes(), line)?;
    }
    Ok(printed)
}

fn print_out(alloc: Global, conn: u32, out: &Out) -> Result<Vec<u8>, NoMemory>
    ensures { IfOk result (λ bytes. bytes.items ≡ print_out conn out.now) }
{
    match out {
        Out::Message(text) => {
            let line = format!(in alloc; "< {} {}\n", conn, text.as_str())?;
            Ok(line.into_bytes())
        }
        Out::Answer(answer) => print_answer(alloc, conn, answer),
    }
}

/// The bytes that an event's outs are printed as.
pub fn print_outs(alloc: Global, outs: &Outs) -> Result<Vec<u8>, NoMemory>
    ensures { IfOk result (λ bytes. bytes.items ≡ print_outs outs.now) }
{
    let mut printed = match &outs.out {
        Some(out) => print_out(alloc, outs.conn, out)?,
        None => Vec::new(alloc),
    };
    if let Some(code) = outs.close {
        let line = format!(in alloc; "x {} {}\n", outs.conn, code)?;
        printed.extend_from_slice(line.as_bytes())?;
    }
    Ok(printed)
}
