// What the program prints (RULES 11), byte for byte, into a lent buffer. 2,236 bytes hold every report: the comment line has at most 44, each of
// 16 data lines at most 41 besides its values, each of 128 values at most 12 with its comma.
#![tactic(auto)]

ghost use Rattle.std.specs.Prelude.{◌≡◌, List, [], ◌∷◌, ◌+◌, ◌*◌, ◌≤◌, ◌<◌, length};
ghost use Rattle.names.specs.Table.{name_at, Tabled, first_at, size_at, name_words};
ghost use Rattle.syntax.specs.Known.{Entry};
ghost use Rattle.printing.specs.Printed.{digits, signed, counted, refusal, comment, values, data_lines};
ghost use Rattle.writing.specs.Written.{Writes};
ghost use Rattle.printing.specs.Written.{Named, Holds, value_at, line_at, Completes, Reports};

use answers::{Failure, Ran};
use names::Table;
use writing::{put, put_bytes};

// ---- numbers

// The last k digits of n.
fn put_digits(out: &mut [u8; 2236], at: usize, n: u32, k: usize) -> usize
    requires { at + k ≤ 2236 }
    ensures { Writes out.old at (digits k n) out.new result }
{
    if k == 0 {
        return at;
    }
    if n < 10 {
        return put(out, at, b'0' + n as u8);
    }
    let p = put_digits(out, at, n / 10, k - 1);
    put(out, p, b'0' + (n % 10) as u8)
}

fn put_signed(out: &mut [u8; 2236], at: usize, v: i32) -> usize
    requires { at + 11 ≤ 2236 }
    ensures { Writes out.old at (signed v) out.new result }
{
    if 0 <= v {
        return put_digits(out, at, v.unsigned_abs(), 10);
    }
    let p = put(out, at, b'-');
    put_digits(out, p, v.unsigned_abs(), 10)
}

// ---- the comment line

// A word and both write counts.
#[tactic(auto, using(crate::proofs::Writing::digits_few))]
fn put_counts(out: &mut [u8; 2236], word: &[u8], pairs: u32, cells: u32) -> usize
    requires { length word.now ≤ 9 }
    ensures { Writes out.old 0 (counted word.now pairs cells) out.new result }
{
    let a = put_bytes(out, 0, word);
    let b = put_digits(out, a, pairs, 10);
    let c = put(out, b, b' ');
    let d = put_digits(out, c, cells, 10);
    put(out, d, b'\n')
}

#[tactic(auto, using(crate::proofs::Writing::digits_few, crate::proofs::Writing::signed_few))]
fn put_refusal(out: &mut [u8; 2236], number: u32, line: u32, v: i32) -> usize
    ensures { Writes out.old 0 (refusal number line v) out.new result }
{
    let a = put_bytes(out, 0, b"! refused ");
    let b = put_digits(out, a, number, 10);
    let c = put(out, b, b' ');
    let d = put_digits(out, c, line, 10);
    let e = put(out, d, b' ');
    let f = put_signed(out, e, v);
    put(out, f, b'\n')
}

fn put_comment(out: &mut [u8; 2236], answer: Result<Ran, Failure>) -> usize
    ensures { Writes out.old 0 (comment answer) out.new result }
{
    match answer {
        Ok(ran) => match ran {
            Ran::Passed(c) => put_counts(out, b"! passed ", c.pairs, c.cells),
            Ran::Rerun(c) => put_counts(out, b"! rerun ", c.pairs, c.cells),
        },
        Err(failure) => match failure {
            Failure::Faulted(f) => put_refusal(out, f.number, f.line, f.v),
            Failure::Refused(r) => put_refusal(out, r.number, r.line, 0),
        },
    }
}

// ---- data lines

// The name of entry i.
fn put_name(out: &mut [u8; 2236], at: usize, table: &Table, i: usize) -> usize
    requires { (at + name_words ≤ 2236) × Named table.now i }
    ensures { Writes out.old at (name_at table.now i) out.new result }
{
    let n = names::length_of(table, i);
    for k in 0..n {
        out[at + k] = names::byte_of(table, i, k);
    }
    at + n
}

// The value of a number in its line, with a comma before it unless it is the first.
fn put_value(out: &mut [u8; 2236], at: usize, k: usize, v: i32) -> usize
    requires { at + 12 ≤ 2236 }
    ensures { Writes out.old at (value_at k v) out.new result }
{
    if k == 0 {
        return put_signed(out, at, v);
    }
    let p = put(out, at, b',');
    put_signed(out, p, v)
}

fn put_values(out: &mut [u8; 2236], at: usize, vs: &[i32]) -> usize
    requires { at + 12 * length vs.now ≤ 2236 }
    ensures { Writes out.old at (values vs.now) out.new result }
{
    let mut p = at;
    for (k, v) in vs.iter().enumerate() {
        p = put_value(out, p, k, *v);
    }
    p
}

// The data line of entry i.
fn put_data(out: &mut [u8; 2236], at: usize, table: &Table, i: usize, cells: &[i32]) -> usize
    requires { Named table.now i × (first_at table.now i + size_at table.now i ≤ length cells.now) × (at + 41 + 12 * size_at table.now i ≤ 2236) }
    ensures { Writes out.old at (line_at table.now cells.now i) out.new result }
{
    let first = names::first_of(table, i);
    let stop = names::end_of(table, i);
    let a = put_bytes(out, at, b"data ");
    let b = put_name(out, a, table, i);
    let c = put_bytes(out, b, b" /");
    let d = put_values(out, c, &cells[first..stop]);
    put_bytes(out, d, b"/\n")
}

fn put_data_lines(out: &mut [u8; 2236], at: usize, table: &Table, cells: &[i32]) -> usize
    requires { (at ≤ 44) × ((t : List Entry) × Holds table.now cells.now t) }
    ensures { (t : List Entry) → Tabled table.now t → Writes out.old at (data_lines t cells.now) out.new result }
{
    let n = names::count(table);
    let mut p = at;
    for i in 0..n {
        p = put_data(out, p, table, i, cells);
    }
    p
}

// ---- all of it

// The report of an answer over the names and the cells; how many bytes it has.
pub fn report(
    out: &mut [u8; 2236],
    answer: Result<Ran, Failure>,
    table: &Table,
    cells: &[i32],
) -> usize
    requires { (length out.old ≡ 2236) × (Completes answer → (t : List Entry) × Holds table.now cells.now t) }
    ensures { Reports answer table.now cells.now out.old out.new result }
{
    let at = put_comment(out, answer);
    match answer {
        Ok(_) => put_data_lines(out, at, table, cells),
        Err(_) => at,
    }
}
