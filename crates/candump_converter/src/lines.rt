//! The lines of an input, one behind the other, in fixed memory.
ghost use Rattle.std.specs.Prelude.{◌≡◌, ◌<◌, IfOk, length};
ghost use Rattle.std.specs.Iterator.{at_most};
ghost use Rattle.pieces.specs.Pieces.{GivesNext};
ghost use Rattle.candump_converter.specs.Lines.{longest, known_lines, lines_left, bytes_read, TakesPart, TakesLine};

use arrayvec::ArrayVec;
use std::io::{self, BufRead, ErrorKind, Read};

/// The longest line that a log may have: the most of each of its parts, with what stands between them, and LF.
pub(crate) const LONGEST: usize = 57;

/// A line with its LF. One that is longer comes in parts, of which the first has none, as the last of a file may have none.
pub(crate) type Line = ArrayVec<u8, LONGEST>;

/// The lines of an input, in order.
// Beside `Records` of pieces, whose items are records: a common iterator would be handed the function that takes an item, and its type.
#[derive(Drop)]
pub(crate) struct Lines<R> {
    input: R,
    turns: u64,
}

impl<R: Read> Lines<R> {
    pub(crate) fn of(input: R) -> Lines<R>
        ensures { lines_left R.remaining result ≡ known_lines (R.remaining input) }
    {
        Lines {
            input,
            turns: u64::MAX,
        }
    }
}

impl<R: BufRead + Drop> Iterator for Lines<R> {
    type Item = io::Result<Line>;

    ghost next_gives = { λ s r t. GivesNext (lines_left R.remaining s) (bytes_read r) (lines_left R.remaining t) };

    ghost remaining = { λ s. at_most s.turns };

    fn next(&mut self) -> Option<io::Result<Line>> {
        if self.turns == 0 {
            return None;
        }
        self.turns -= 1;
        if self.turns == 0 {
            return Some(Err(io::Error::from(ErrorKind::TimedOut)));
        }
        match next_line(&mut self.input) {
            Ok(line) if line.is_empty() => None,
            Ok(line) => Some(Ok(line)),
            Err(error) => Some(Err(error)),
        }
    }
}

/// Takes what stands up to the next LF, with it, as far as there is room.
fn next_line<R: BufRead>(input: &mut R) -> io::Result<Line>
    ensures { IfOk result (λ line. TakesLine (R.remaining input.old) line.items (R.remaining input.new)) }
{
    let mut line = Line::new();
    // It ends at LF, at the end or where the room does; `read_until` behind a limit promises nothing of what is left of the reader.
    while !line.is_full() {
        if take_part(input, &mut line)? {
            return Ok(line);
        }
    }
    Ok(line)
}

/// Takes what the input shows of the line, and says whether the line ends there: at LF, or where nothing is shown any more.
fn take_part<R: BufRead>(input: &mut R, line: &mut Line) -> io::Result<bool>
    requires { length line.old.items < longest }
    ensures { IfOk result (λ ends. TakesPart (R.remaining input.old) line.old.items ends line.new.items (R.remaining input.new)) }
{
    let shown = input.fill_buf()?;
    let room = line.remaining_capacity().min(shown.len());
    let (count, ends) = match memchr::memchr(b'\n', &shown[..room]) {
        Some(at) => (at + 1, true),
        None => (room, room == 0),
    };
    // No more is taken than there is room for.
    let _fits = line.try_extend_from_slice(&shown[..count]);
    input.consume(count);
    Ok(ends)
}
