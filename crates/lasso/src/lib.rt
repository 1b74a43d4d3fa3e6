// The C interface: the five jobs on numbers and slices. Nothing here decides anything. Each function calls the job of its name and spells the answer
// out: it returns 0, or the number of the refusal, and fills the words of the answer, the first of which is the refusal's place. What the words are
// stands in specs/Words.antt, and for C in bindings/lasso.h.
#![tactic(auto)]

ghost use Rattle.std.specs.Prelude.{◌≡◌, ◌<◌, [], ◌∷◌};
ghost use Rattle.lasso.specs.Words.{number_told, words_told, open_row, quote_row, found_row, step_row};
ghost use Rattle.lasso.specs.Says.{OpenSaid, QuoteSaid, SearchSaid, TranslateSaid, StepSaid};

use recorder::Record;
use table::Refusal;

// Fills the words of the answer: those of the job's value, or the refusal's place and then zeros. Returns 0 or the refusal's number.
fn tell<const N: usize>(said: Result<[usize; N], Refusal>, answer: &mut [usize; N]) -> u32
    requires { 0 < N }
    ensures number { result ≡ number_told said.entry }
    ensures words { answer.new ≡ words_told N (λ words. words) said.entry }
{
    match said {
        Ok(words) => {
            *answer = words;
            0
        }
        Err(why) => {
            answer.fill(0);
            answer[0] = why.place();
            why.number()
        }
    }
}

// Opens the table.
#[unsafe(no_mangle)]
pub extern "C" fn lasso_open(table: &[u8], answer: &mut [usize; 4]) -> u32
    ensures { OpenSaid table.now result answer.new }
{
    let opened = opening::open(table);
    let said = opened.map(
        |t|
            ensures { result ≡ open_row t }
        { [0, t.states, t.edges, t.sets] },
    );
    tell(said, answer)
}

// Prices the table.
#[unsafe(no_mangle)]
pub extern "C" fn lasso_quote(table: &[u8], answer: &mut [usize; 9]) -> u32
    ensures { QuoteSaid table.now result answer.new }
{
    let quoted = quote::quote(table);
    let said = quoted.map(
        |q|
            ensures { result ≡ quote_row q }
        {
            let s = q.sheet;
            let m = s.members;
            [
                0,
                s.slots,
                s.edges,
                s.bytes,
                s.board.unwrap_or(8),
                m[0],
                m[1],
                m[2],
                m[3],
            ]
        },
    );
    tell(said, answer)
}

// Searches the table for its least lasso.
#[unsafe(no_mangle)]
pub extern "C" fn lasso_search(
    table: &[u8],
    work: &mut [u32],
    report: &mut [u32],
    answer: &mut [usize; 4],
) -> u32
    ensures { SearchSaid table.now work.old report.old result answer.new work.new report.new }
{
    let searched = search::search(table, work, report);
    let said = searched.map(
        |found|
            ensures { result ≡ found_row found }
        {
            match found {
                Some(lasso) => [0, 1, lasso.k, lasso.l],
                None => [0, 0, 0, 0],
            }
        },
    );
    tell(said, answer)
}

// Translates the table into the output.
#[unsafe(no_mangle)]
pub extern "C" fn lasso_translate(table: &[u8], out: &mut [u8], answer: &mut [usize; 2]) -> u32
    ensures { TranslateSaid table.now out.old result answer.new out.new }
{
    let translated = translation::translate(table, out);
    let said = translated.map(
        |size|
            ensures { result ≡ 0 ∷ size ∷ [] }
        { [0, size] },
    );
    tell(said, answer)
}

// Moves the record of s, t, live and v along the edge to `next`, with a save wish.
#[unsafe(no_mangle)]
pub extern "C" fn lasso_step(
    table: &[u8],
    s: usize,
    t: usize,
    live: bool,
    v: usize,
    next: usize,
    wish: bool,
    answer: &mut [usize; 5],
) -> u32
    ensures { StepSaid table.now (record { s = s; t = t; live = live; v = v }) next wish result answer.new }
{
    let stepped = stepping::step(table, Record { s, t, live, v }, next, wish);
    let said = stepped.map(
        |r|
            ensures { result ≡ step_row r }
        { [0, r.s, r.t, usize::from(r.live), r.v] },
    );
    tell(said, answer)
}
