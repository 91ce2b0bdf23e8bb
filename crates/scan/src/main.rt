// Reads a text from standard input and writes what `scan` prints for it. A text longer than 512 bytes is known by its byte 513.
#![tactic(auto)]

ghost use Rattle.std.specs.Prelude.{◌≤◌, ℕ, List, IfSome, OnOk, length};
ghost use Rattle.std.specs.Io.KnownBytes.{Appends, Consumes};
ghost use Rattle.rules.specs.Scan.{scan_output};

use std::io;
use std::io::{Read, Write};

// Reads a text and writes what `scan` prints for it. No more of the input is taken, also where reading or writing fails.
fn scan_input<R: Read, W: Write>(input: &mut R, output: &mut W) -> io::Result<()>
    ensures printed { OnOk result (IfSome (R.remaining input.old) (λ text. Appends (W.contents output.old) (W.contents output.new) (scan_output text))) }
    ensures taken { (front : List ℕ) × (length front ≤ 513) × Consumes (R.remaining input.old) (R.remaining input.new) front }
{
    let mut text: [u8; 513] = [0; 513];
    let n = replay::input::read_full(input, &mut text)?;
    let mut out: [u8; 65_536] = [0; 65_536];
    let size = scanning::scan(&text[..n], &mut out);
    output.write_all(&out[..size])
}

fn main(rt: HostRuntime) -> io::Result<()> {
    scan_input(&mut rt.reader(), &mut io::writer(&rt))
}
