// How the bytes of a case are made. docs/RULES.md, "The table file".
ghost use Rattle.std.specs.Prelude.{◌<◌};

use samples::A;

// Room for the largest table, which takes 4,448 bytes, and for more.
const ROOM: usize = 4608;

// What a case's bytes are.
#[derive(Clone, Copy)]
pub(crate) enum Made<'a> {
    Bytes(&'a [u8]),
    // That many bytes of table a. Past the table are zeros.
    First(usize),
    // Table a with changes.
    With(&'a [Change]),
    // The table of a drawing and of m sets.
    Drawn(&'a str, u16),
    // A good table of n states, e edges and m sets, or it would be if these were allowed. They have no names here: a row of data reads best with the
    // numbers alone.
    Counted(u16, u16, u16),
}

// A change of table a: a number of the header, a row start, a target or the marks of a state.
#[derive(Clone, Copy)]
pub(crate) enum Change {
    Kind(usize),
    States(usize),
    Edges(usize),
    Sets(usize),
    RowStarts(usize),
    Targets(usize),
    Marks(usize),
    Row(u8, usize),
    Target(u8, usize),
    Mark(u8, u8),
}

// A buffer and a length, as these programs use no heap. The first `len` bytes are the file.
#[derive(Drop)]
pub(crate) struct File {
    bytes: [u8; ROOM],
    len: usize,
}

impl File {
    fn of(bytes: &[u8]) -> File {
        let mut file = File {
            bytes: [0; ROOM],
            len: 0,
        };
        file.put_bytes(bytes);
        file
    }

    // The header of a table, without the places of its targets and its marks.
    fn with_header(n: usize, e: usize, m: usize) -> File {
        let mut file = File::of(&[]);
        for x in [1, n, e, m, 28, 0, 0] {
            file.put(x);
        }
        file
    }

    pub(crate) fn bytes(&self) -> &[u8] {
        &self.bytes[..self.len.min(ROOM)]
    }

    // These bytes at index `at`, where there is room.
    fn set_bytes(&mut self, at: usize, bytes: &[u8]) {
        let end = at.saturating_add(bytes.len());
        if let Some(part) = self.bytes.get_mut(at..end) {
            part.copy_from_slice(bytes);
        }
    }

    // A number of 32 bits, little-endian.
    fn set(&mut self, at: usize, x: usize) {
        self.set_bytes(at, &x.to_le_bytes()[..4]);
    }

    // These bytes after the file's own, which grows by them.
    fn put_bytes(&mut self, bytes: &[u8]) {
        self.set_bytes(self.len, bytes);
        self.len = self.len.saturating_add(bytes.len());
    }

    fn put(&mut self, x: usize) {
        self.put_bytes(&x.to_le_bytes()[..4]);
    }

    // The places of row starts, targets and marks are those of table a.
    fn change(&mut self, change: Change) {
        match change {
            Change::Kind(x) => self.set(0, x),
            Change::States(x) => self.set(4, x),
            Change::Edges(x) => self.set(8, x),
            Change::Sets(x) => self.set(12, x),
            Change::RowStarts(x) => self.set(16, x),
            Change::Targets(x) => self.set(20, x),
            Change::Marks(x) => self.set(24, x),
            Change::Row(s, x) => self.set(28 + 4 * usize::from(s), x),
            Change::Target(i, x) => self.set(48 + 4 * usize::from(i), x),
            Change::Mark(s, x) => self.set_bytes(80 + usize::from(s), &[x]),
        }
    }
}

// The marks that a letter stands for.
fn mark_of(letter: u8) -> u8 {
    match letter {
        b's' => 1,
        b'g' => 2,
        b'a'..=b'd' => 4 << (letter - b'a'),
        _ => 0,
    }
}

fn digits(drawing: &str) -> usize {
    drawing.bytes().filter(|c| c.is_ascii_digit()).count()
}

// A table from a drawing in text, as "s01 12 23 g03". A word a state: its marks as letters, s start, g goal, a to d for sets 0 to 3; then its targets
// as digits. A word may have no digits, and then that row is empty.
fn drawn(drawing: &str, m: u16) -> File {
    let n = drawing.split(' ').count();
    let mut file = File::with_header(n, digits(drawing), usize::from(m));
    let mut next = 0usize;
    file.put(next);
    for word in drawing.split(' ') {
        next = next.saturating_add(digits(word));
        file.put(next);
    }
    let targets = file.len;
    file.change(Change::Targets(targets));
    for c in drawing.bytes().filter(|c| c.is_ascii_digit()) {
        file.put(usize::from(c % 16));
    }
    let marks = file.len;
    file.change(Change::Marks(marks));
    for word in drawing.split(' ') {
        file.put_bytes(&[word.bytes().fold(0, |marks, c| marks | mark_of(c))]);
    }
    file
}

// How many targets state s has of e that are spread over n states.
fn share(n: u16, e: u16, s: u16) -> usize
    requires { s < n }
{
    usize::from(e / n) + usize::from(s < e % n)
}

// A good table of any counts. Its edges are spread over the states as evenly as can be, the first states taking one more; a row's targets are
// 0, 1, 2 and so on; state 0 is the start, and each state s after it is in the sets below both s and m.
fn counted(n: u16, e: u16, m: u16) -> File {
    let mut file = File::with_header(usize::from(n), usize::from(e), usize::from(m));
    let mut next = 0usize;
    file.put(next);
    for s in 0..n {
        next = next.saturating_add(share(n, e, s));
        file.put(next);
    }
    let targets = file.len;
    file.change(Change::Targets(targets));
    for s in 0..n {
        for target in 0..share(n, e, s) {
            file.put(target);
        }
    }
    let marks = file.len;
    file.change(Change::Marks(marks));
    for s in 0..n {
        // The four sets' bits, but not those from the lower of s and m on.
        let sets = 60 & !(60 << s.min(m).min(4));
        file.put_bytes(&[if s == 0 { 1 } else { sets }]);
    }
    file
}

impl Made<'_> {
    pub(crate) fn file(self) -> File {
        match self {
            Made::Bytes(bytes) => File::of(bytes),
            Made::First(len) => File {
                len,
                ..File::of(&A)
            },
            Made::With(changes) => {
                let mut file = File::of(&A);
                for change in changes {
                    file.change(*change);
                }
                file
            }
            Made::Drawn(drawing, m) => drawn(drawing, m),
            Made::Counted(n, e, m) => counted(n, e, m),
        }
    }
}
