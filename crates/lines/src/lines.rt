// The lines of verdict, and the `refused` line. Each function writes on after what the page has.
ghost use Rattle.std.specs.Prelude.{◌+◌, ◌≤◌, ◌≡◌, length};
ghost use Rattle.lines.specs.Puts.{Adds};
ghost use Rattle.lines.specs.Says.{RowFits, RunFits};
ghost use Rattle.lines.specs.Text.{board_line, sheet_lines, refused_line, answer_lines};

use super::page::Page;
use quote::Sheet;
use search::Lasso;
use table::Refusal;

// `board` and its letter, or `none`.
fn board_line(page: &mut Page, board: Option<usize>)
    requires row_fits { RowFits board }
    requires in_bounds { page.old.end + 11 ≤ length page.old.out.now }
    ensures adds { Adds (board_line board) page.old page.new }
    ensures upper_bound { page.new.end ≤ page.old.end + 11 }
{
    page.text(b"board ");
    match board {
        // A row is below 8; `TryFrom` would have an arm that is never reached.
        Some(row) => page.text(&[b'A' + row as u8, b'\n']),
        None => page.text(b"none\n"),
    }
}

// `size`, `board` and `members`.
pub(crate) fn sheet_lines(page: &mut Page, sheet: Sheet)
    requires row_fits { RowFits sheet.board }
    requires members_len { length sheet.members ≡ 4 }
    requires in_bounds { page.old.end + 175 ≤ length page.old.out.now }
    ensures adds { Adds (sheet_lines sheet) page.old page.new }
    ensures upper_bound { page.new.end ≤ page.old.end + 175 }
{
    page.line(b"size", &[sheet.slots, sheet.edges, sheet.bytes], &[]);
    board_line(page, sheet.board);
    page.line(b"members", &sheet.members, &[]);
}

// `refused`, number and place. (std has no `From<u32>` for usize.)
pub(crate) fn refused_line(page: &mut Page, why: Refusal)
    requires { page.old.end + 50 ≤ length page.old.out.now }
    ensures { Adds (refused_line why) page.old page.new }
{
    page.line(b"refused", &[why.number() as usize, why.place()], &[]);
}

// `lasso` and `run`, or `holds`, or `refused`.
pub(crate) fn answer_lines(
    page: &mut Page,
    answer: Result<Option<Lasso>, Refusal>,
    report: &[u32; 8192],
)
    requires run_fits { RunFits answer report.now }
    requires in_bounds { page.old.end + 172084 ≤ length page.old.out.now }
    ensures { Adds (answer_lines answer report.now) page.old page.new }
{
    match answer {
        Ok(Some(lasso)) => {
            page.line(b"lasso", &[lasso.k, lasso.l], &[]);
            page.line(b"run", &[], &report[..lasso.k + 1]);
        }
        Ok(None) => page.text(b"holds\n"),
        Err(why) => refused_line(page, why),
    }
}
