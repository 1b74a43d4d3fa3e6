// What a lent buffer has before a call, and how much of it stays. docs/RULES.md, "Buffers".
ghost use Rattle.std.specs.Prelude.{◌≡◌, ◌+◌, ◌%◌, ◌^◌, length};
ghost use Rattle.cases.specs.Patterned.{patterned, kept_from};

// A word of a buffer.
pub trait Word: Copy + PartialEq {
    // The sum, which wraps.
    ghost plus: { Self → Self → Self };

    fn plus(self, step: Self) -> Self
        ensures { result ≡ plus self step };
}

impl Word for u8 {
    ghost plus = { λ x step. (x + step) % 2 ^ 8 };

    fn plus(self, step: u8) -> u8 {
        self.wrapping_add(step)
    }
}

impl Word for u32 {
    ghost plus = { λ x step. (x + step) % 2 ^ 32 };

    fn plus(self, step: u32) -> u32 {
        self.wrapping_add(step)
    }
}

// The first word, and how much each later one is above the one before it.
#[derive(Clone, Copy)]
pub struct Pattern<T> {
    pub first: T,
    pub step: T,
}

impl<T: Word> Pattern<T> {
    // Word i is first + i times step, which wraps.
    #[tactic(auto, using(crate::proofs::Steps::words_more, crate::proofs::Steps::words_end))]
    pub fn fill(self, words: &mut [T])
        ensures { words.new ≡ patterned T.plus self.first self.step (length words.old) }
    {
        let Pattern { first, step } = self;
        let mut x = first;
        for word in words {
            *word = x;
            x = x.plus(step);
        }
    }

    // How many of the words from index `from` on are as the pattern has them.
    #[tactic(auto, using(crate::proofs::Steps::kept_one, crate::proofs::Steps::kept_none, crate::proofs::Steps::kept_end))]
    pub fn kept(self, words: &[T], from: usize) -> usize
        ensures { result ≡ kept_from T.eq (patterned T.plus self.first self.step (length words.now)) words.now from }
    {
        let Pattern { first, step } = self;
        let mut kept = 0;
        let mut x = first;
        for (i, word) in words.iter().enumerate() {
            if x == *word && i >= from {
                kept += 1;
            }
            x = x.plus(step);
        }
        kept
    }
}
