// Numbers that are written into lent buffers, and read from them. docs/RULES.md, "The table file" and "Buffers".
#![tactic(auto)]

ghost use Rattle.std.specs.Prelude.{◌≡◌, [], ◌∷◌, ◌+◌, ◌≤◌, ◌<◌, length, get_or};
ghost use Rattle.table.specs.Layout.{little_endian};
ghost use Rattle.writing.specs.Placed.{placed};
ghost use Rattle.writing.specs.Cleared.{cleared};

// Writes x at index `at` of the bytes: its four low bytes, the lowest first, which are all of it below 2^32.
pub fn put(part: &mut [u8], at: usize, x: usize)
    requires { at + 4 ≤ length part.old }
    ensures { part.new ≡ placed at (little_endian (x ∷ [])) part.old }
{
    // The remainder is below 2^32; `TryFrom` would have an arm that is never reached.
    part[at..at + 4].copy_from_slice(&((x % 4294967296) as u32).to_le_bytes());
}

// Sets the first k words to 0. Not by `fill`: the wrong program that sets every other word could then only be written as a loop for which there is no
// invariant, and its refusal would show nothing.
pub fn clear(words: &mut [u32], k: usize)
    requires { k ≤ length words.old }
    ensures { words.new ≡ cleared k words.old }
{
    for i in 0..k {
        words[i] = 0;
    }
}

// The word at index i. (std has no `From<u32>` for usize.)
pub fn at(words: &[u32], i: usize) -> usize
    requires { i < length words.now }
    ensures { result ≡ get_or words.now i 0 }
{
    words[i] as usize
}
