// What the two programs print, made in a lent buffer. docs/RULES.md, "What the programs print". The rules stand in specs/.
#![tactic(auto)]

mod lines;
mod page;

ghost use Rattle.lines.specs.Says.{VerdictSays, TranslateWrites};

use page::Page;

// What verdict prints for the bytes of a table: its text stands at the start of the output, and the answer is its length. The longest run has 8,192
// states; each takes at most 21 bytes. The buffers are the program's, which uses no heap, so the length comes back beside the output.
#[tactic(auto, using(crate::proofs::Laws::row_fits, crate::proofs::Laws::run_fits))]
pub fn verdict(
    table: &[u8],
    work: &mut [u32; 16384],
    report: &mut [u32; 8192],
    out: &mut [u8; 196608],
) -> usize
    ensures { VerdictSays table.now work.old report.old out.old result work.new report.new out.new }
{
    let answer = search::search(table, work, report);
    let mut page = Page { out, end: 0 };
    match quote::quote(table) {
        Ok(quoted) => {
            lines::sheet_lines(&mut page, quoted.sheet);
            lines::answer_lines(&mut page, answer, report);
        }
        Err(why) => lines::refused_line(&mut page, why),
    }
    page.end
}

// What translate writes for the bytes of a table: the translated table, or the `refused` line. It stands at the start of the output, and the answer
// is its length, as above.
pub fn translate(table: &[u8], out: &mut [u8; 65536]) -> usize
    ensures { TranslateWrites table.now out.old result out.new }
{
    match translation::translate(table, out) {
        Ok(size) => size,
        Err(why) => {
            let mut page = Page { out, end: 0 };
            lines::refused_line(&mut page, why);
            page.end
        }
    }
}
