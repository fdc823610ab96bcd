//! What is told of a table when it closes.
ghost use Rattle.std.specs.Prelude.{◌≡◌, ◌++◌, IfOk, OnOk, decimal};
ghost use Rattle.authd.specs.Report.{report_line};

use auth_grammar::{Octets, OutOfMemory};
use itoa::Buffer;
use nonce_table::Closed;
use std::alloc::Global;

/// Adds words and a number.
fn push_count(line: &mut Octets, words: &[u8], count: u128) -> Result<(), OutOfMemory>
    ensures { OnOk result (line.new ≡ line.old ++ words.now ++ decimal count) }
{
    let mut buffer = Buffer::new();
    line.extend(words)?;
    line.extend(buffer.format(count).as_bytes())
}

/// The line that tells the totals of a table: `calls N issued N admitted N repeated N`.
pub fn report_line(alloc: Global, closed: &Closed) -> Result<Octets, OutOfMemory>
    ensures { IfOk result (λ line. line ≡ report_line closed.now) }
{
    let mut line = Octets::new(alloc);
    push_count(&mut line, b"calls ", closed.calls)?;
    push_count(&mut line, b" issued ", closed.issued)?;
    push_count(&mut line, b" admitted ", closed.admitted)?;
    push_count(&mut line, b" repeated ", closed.repeated)?;
    line.push(b'\n')?;
    Ok(line)
}
