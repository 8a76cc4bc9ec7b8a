// A text that was read, and a text made ready for a run: what the reader found, its code, and the classes of its cells.
#![tactic(auto)]

ghost use Rattle.std.specs.Prelude.{◌≡◌, length, IfOk, IfErr};
ghost use Rattle.syntax.specs.Text.{read as read_text};
ghost use Rattle.code.specs.Compile.{code_words};
ghost use Rattle.reader.specs.Judged.{Fresh};
ghost use Rattle.preparing.specs.Prepared.{Accepts, Refuses, Prepared, Readies, RefusesRun};

use answers::Refusal;
use fitting::check_lent;
use lines::Progress;
use names::Table;
use rules::Class;
use trial::Setting;

// ---- a text that was read

// What the reader found of a whole text, or its first bad line. All zero before.
fn read(
    text: &[u8],
    table: &mut Table,
    initial: &mut [i32],
    code: &mut [u32],
) -> Result<Progress, Refusal>
    requires { Fresh table.old initial.old code.old }
    ensures accepted { IfOk result (λ p. Accepts (read_text text.now) p table.new initial.new code.new) }
    ensures refused { IfErr result (Refuses (read_text text.now)) }
{
    match reader::read(text, table, initial, code) {
        Ok(p) => Ok(p),
        Err(bad) => Err(Refusal {
            number: bad.flaw.number(),
            line: bad.line,
        }),
    }
}

// The names of a text, the cells from its data, and its code.
#[derive(Drop)]
pub struct Source {
    pub table: Table,
    pub initial: [i32; 4096],
    pub code: [u32; code::WORDS],
}

impl Source {
    // Of no text yet.
    pub fn new() -> Source
        ensures { Fresh result.table result.initial result.code }
    {
        Source {
            table: [0; names::WORDS],
            initial: [0; 4096],
            code: [0; code::WORDS],
        }
    }

    // What the reader found of this text, or its first bad line. Free: after a refusal all of it; else the table's words that stand for no name, and the code
    // past its end.
    pub fn read(&mut self, text: &[u8]) -> Result<Progress, Refusal>
        requires { Fresh self.old.table self.old.initial self.old.code }
        ensures accepted { IfOk result (λ p. Accepts (read_text text.now) p self.new.table self.new.initial self.new.code) }
        ensures refused { IfErr result (Refuses (read_text text.now)) }
    {
        read(text, &mut self.table, &mut self.initial, &mut self.code)
    }
}

// ---- a text made ready for a run

// What is ready: N, the setting, and where the code ends.
#[derive(Clone, Copy)]
pub struct Ready {
    pub cells: u32,
    pub setting: Setting,
    pub end: usize,
}

// Reads a text, and makes its code and the classes of its cells ready. Free: after a refusal both slices; else the code past its end, and the classes past N.
pub fn prepare(text: &[u8], code: &mut [u32], classes: &mut [Class]) -> Result<Ready, Refusal>
    requires { (length code.old ≡ code_words) × (length classes.old ≡ 4096) }
    ensures ready { IfOk result (λ r. Prepared (read_text text.now) r code.new classes.new) }
    ensures refused { IfErr result (Refuses (read_text text.now)) }
{
    let mut table = [0; names::WORDS];
    let mut initial = [0; 4096];
    let p = read(text, &mut table, &mut initial, code)?;
    setup::classes(&table, p.cells as usize, classes);
    Ok(Ready {
        cells: p.cells,
        setting: Setting {
            processors: p.processors,
            grouping: p.grouping,
            iterations: p.count as u32,
            from: p.from,
        },
        end: 2 * p.place,
    })
}

// The same for a run over so many cells and words and this schedule, where they can be taken for it.
pub fn prepare_run(
    text: &[u8],
    cells: usize,
    words: usize,
    schedule: &[u8],
    code: &mut [u32],
    classes: &mut [Class],
) -> Result<Ready, Refusal>
    requires { (length code.old ≡ code_words) × (length classes.old ≡ 4096) }
    ensures ready { IfOk result (λ r. Readies (read_text text.now) cells words schedule.now r code.new classes.new) }
    ensures refused { IfErr result (RefusesRun (read_text text.now) cells words schedule.now) }
{
    let r = prepare(text, code, classes)?;
    check_lent(r.cells, r.setting.processors, cells, words, schedule)?;
    Ok(r)
}
