// A case: one line with its name and how many bytes are lent; `written` and how many, or `refused` number place; then what the output has.
use cases::{Numbers, Pattern, Refused};
use std::io;

// What the output has before a translation.
pub(crate) const BEFORE: Pattern<u8> = Pattern {
    first: 101,
    step: 7,
};

// A name, a table and the length of the output.
pub(crate) type Case<'a> = (&'a str, &'a [u8], usize);

// What a line ends with: how many bytes past the written ones are as before; that, and two sums; or all the bytes.
// A caller passes it down, as all three are printed after the translation, which is called in one place.
#[derive(Clone, Copy)]
pub(crate) enum End {
    Kept,
    Sums,
    Whole,
}

// The sum of all bytes, and the sum of the sums up to each byte, which goes by their order too.
fn sums(out: &[u8]) -> (u64, u64) {
    out.iter().fold((0, 0), |(sum, both), x| {
        let sum = u64::from(*x).wrapping_add(sum);
        (sum, sum.wrapping_add(both))
    })
}

// Translates into this output, which had BEFORE at first, and prints the line.
pub(crate) fn line(
    rt: &impl Print,
    name: &str,
    table: &[u8],
    out: &mut [u8],
    end: End,
) -> io::Result<()> {
    print!(rt; "{name}, {} bytes: ", out.len())?;
    let written = match translation::translate(table, out) {
        Ok(n) => {
            print!(rt; "written {n}")?;
            n
        }
        Err(why) => {
            print!(rt; "{}", Refused(why))?;
            0
        }
    };
    let kept = BEFORE.kept(out, written);
    match end {
        End::Kept => println!(rt; ", kept {kept}"),
        End::Sums => {
            let (sum, both) = sums(out);
            println!(rt; ", kept {kept}, sums {sum} {both}")
        }
        End::Whole => println!(rt; ",{}", Numbers(out)),
    }
}

// The line of a case, in the first n bytes of the room, which is that long, with BEFORE in them.
pub(crate) fn line_of(
    rt: &impl Print,
    (name, table, n): Case,
    room: &mut [u8],
    end: End,
) -> io::Result<()> {
    if let Some(out) = room.get_mut(..n) {
        BEFORE.fill(out);
        line(rt, name, table, out, end)?;
    }
    Ok(())
}
