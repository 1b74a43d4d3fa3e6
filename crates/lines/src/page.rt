// Writing text into a lent buffer, from its start on. Not by `fmt::Write`: there each write may fail for want of room, and the text is promised only
// where it did not, but verdict and translate can't fail.
ghost use Rattle.std.specs.Prelude.{◌+◌, ◌*◌, ◌≤◌, ◌∷◌, ◌++◌, length};
ghost use Rattle.lines.specs.Puts.{Adds};
ghost use Rattle.lines.specs.Text.{decimal_of, line_of};

// What is written stands before `end`. Each function asks for the room of its own lines: how much is left no invariant of the page could say.
#[derive(Drop)]
pub(crate) struct Page<'a> {
    pub(crate) out: &'a mut [u8],
    pub(crate) end: usize,
}

impl Page<'_> {
    // Writes the text.
    pub(crate) fn text(&mut self, text: &[u8])
        requires { self.old.end + length text.now ≤ length self.old.out.now }
        ensures { Adds text.now self.old self.new }
    {
        let to = self.end + text.len();
        self.out[self.end..to].copy_from_slice(text);
        self.end = to;
    }

    // Writes a space and the number in decimal.
    fn number(&mut self, n: usize)
        requires { self.old.end + 21 ≤ length self.old.out.now }
        ensures adds { Adds (32 ∷ decimal_of n) self.old self.new }
        ensures upper_bound { self.new.end ≤ self.old.end + 21 }
    {
        let mut digits = [0u8; 20];
        // std has no `From<usize>` for u64.
        let k = io::decimal(n as u64, &mut digits);
        self.text(b" ");
        self.text(&digits[..k]);
    }

    // Writes a line: the word, and after a space each of the few numbers and each state. (std has no `From<u32>` for usize.)
    pub(crate) fn line(&mut self, word: &[u8], few: &[usize], states: &[u32])
        requires { self.old.end + length word.now + 21 * (length few.now + length states.now) + 1 ≤ length self.old.out.now }
        ensures adds { Adds (line_of word.now (few.now ++ states.now)) self.old self.new }
        ensures upper_bound { self.new.end ≤ self.old.end + length word.now + 21 * (length few.now + length states.now) + 1 }
    {
        self.text(word);
        for n in few {
            self.number(*n);
        }
        for s in states {
            self.number(*s as usize);
        }
        self.text(b"\n");
    }
}
