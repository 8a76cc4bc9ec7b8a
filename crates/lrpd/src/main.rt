// The program (RULES 11). What it prints for a text is `print`'s contract; `main` reads the text, of which one byte over the limit is enough to
// refuse it, and writes what was printed.
#![tactic(auto)]

ghost use Rattle.std.specs.Prelude.{◌≡◌, ◌≤◌, length, take};
ghost use Rattle.std.specs.Io.KnownBytes.{Consumes};
ghost use Rattle.syntax.specs.Text.{read};
ghost use Rattle.lrpd.specs.Output.{lent_for, printed_over, printed, Prints};

use answers::{Refusal, Sizes};
use preparing::Source;
use std::io::{Read, Write};

// The words that are lent: as many as 128 cells and 8 processors need.
const WORKSPACE: usize = 13568;

// How many cells are lent.
fn lent(answer: Result<Sizes, Refusal>) -> usize
    ensures { result ≡ lent_for answer }
{
    match answer {
        Ok(s) => s.cells.min(128) as usize,
        Err(_) => 0,
    }
}

// Load and Run over the cells as lent, then the report with the names of the text. Where Load or the reader refuses, Run refuses alike.
fn print_over(text: &[u8], cells: &mut [i32], out: &mut [u8; 2236]) -> usize
    requires { (length out.old ≡ 2236) × (length cells.old ≤ 128) }
    ensures { Prints (printed_over (read text.now) cells.old) out.new result }
{
    let _ = checking::load(text, cells);
    let mut workspace: [u32; WORKSPACE] = [0; WORKSPACE];
    let answer = running::run(text, cells, &mut workspace, b"");
    let mut source = Source::new();
    let _ = source.read(text);
    printing::report(out, answer, &source.table, cells)
}

fn print(text: &[u8], out: &mut [u8; 2236]) -> usize
    requires { length out.old ≡ 2236 }
    ensures { Prints (printed (read text.now)) out.new result }
{
    let n = lent(checking::check(text));
    let mut cells: [i32; 128] = [0; 128];
    print_over(text, &mut cells[..n], out)
}

// Reads until the buffer is full, the input ends or a read fails, and returns how many bytes it then holds.
fn read_full<R: Read>(input: &mut R, buffer: &mut [u8]) -> usize
    ensures within { result ≤ length buffer.new }
    ensures bytes { Consumes (R.remaining input.old) (R.remaining input.new) (take result buffer.new) }
{
    let mut done = 0;
    while done < buffer.len() {
        match input.read(&mut buffer[done..]) {
            Ok(0) | Err(_) => break,
            Ok(n) => done += n,
        }
    }
    done
}

fn main(rt: HostRuntime) {
    let mut text: [u8; 2049] = [0; 2049];
    let n = read_full(&mut rt.stdin(), &mut text);
    let mut out: [u8; 2236] = [0; 2236];
    let r = print(&text[..n], &mut out);
    let _ = rt.stdout().write_all(&out[..r]);
}
