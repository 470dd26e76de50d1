//! The records of an input, one behind the other, from any reader: of sixteen bytes by an iterator, of any size one by one.
#![tactic(auto)]

ghost use Rattle.std.specs.Prelude.{◌≡◌, ◌<◌, ◌≤◌, Some, length, take, IfOk};
ghost use Rattle.std.specs.Io.KnownBytes.{Consumes, IsAtEnd};
ghost use Rattle.std.specs.Iterator.{at_most};
ghost use Rattle.pieces.specs.Pieces.{record_size, known_pieces, pieces_left, GivesNext, TakesPiece, is_whole, bytes_of};

use std::io::{self, ErrorKind, Read};

/// So many bytes are a record of the iterator's.
pub const SIZE: usize = 16;

/// What stands next in an input: a whole record, or the front of one that the end cuts off.
#[derive(Clone, Copy, Debug, PartialEq, Eq)]
pub enum Piece<const N: usize> {
    Whole([u8; N]),
    Short,
}

impl<const N: usize> Piece<N> {
    /// Its bytes; of a short one none are kept.
    pub fn bytes(&self) -> &[u8]
        ensures { result.now ≡ bytes_of self.now }
    {
        match self {
            Piece::Whole(bytes) => bytes,
            Piece::Short => &[],
        }
    }
}

/// The pieces of an input, of sixteen bytes each, in order. It holds one record at a time, and ends behind the first error.
// Of sixteen bytes and not of any N: an iterator owes a bound on its item's size (`size_hint`), which no N has; tried, it did not prove.
#[derive(Drop)]
pub struct Records<R> {
    input: R,
    turns: u64,
}

impl<R: Read> Records<R> {
    pub fn of(input: R) -> Records<R>
        ensures { pieces_left R.remaining result ≡ known_pieces record_size (R.remaining input) }
    {
        Records {
            input,
            turns: u64::MAX,
        }
    }
}

impl<R: Read + Drop> Iterator for Records<R> {
    type Item = io::Result<Piece<SIZE>>;

    ghost next_gives = { λ s r t. GivesNext (pieces_left R.remaining s) r (pieces_left R.remaining t) };

    ghost remaining = { λ s. at_most s.turns };

    fn next(&mut self) -> Option<io::Result<Piece<SIZE>>> {
        if self.turns == 0 {
            return None;
        }
        self.turns -= 1;
        if self.turns == 0 {
            return Some(Err(io::Error::from(ErrorKind::TimedOut)));
        }
        let piece = next_piece(&mut self.input);
        if !is_whole(&piece) {
            self.turns = 0;
        }
        piece
    }
}

fn is_whole<const N: usize>(piece: &Option<io::Result<Piece<N>>>) -> bool
    ensures { result ≡ is_whole piece.now }
{
    matches!(piece, Some(Ok(Piece::Whole(_))))
}

/// Takes the next record off an input, or its cut end. It may read again behind the end or an error: who goes on is to stop there.
pub fn next_piece<R: Read, const N: usize>(input: &mut R) -> Option<io::Result<Piece<N>>>
    ensures { TakesPiece N (R.remaining input.old) result (R.remaining input.new) }
{
    let mut bytes = [0; N];
    match fill(input, &mut bytes) {
        Ok(0) => None,
        Ok(count) if count == N => Some(Ok(Piece::Whole(bytes))),
        Ok(_) => Some(Ok(Piece::Short)),
        Err(error) => Some(Err(error)),
    }
}

/// As much as there is room for, and less only at the end of the input.
fn fill<R: Read>(input: &mut R, room: &mut [u8]) -> io::Result<usize>
    ensures within { IfOk result (λ n. n ≤ length room.new) }
    ensures bytes { IfOk result (λ n. Consumes (R.remaining input.old) (R.remaining input.new) (take n room.new)) }
    ensures end { IfOk result (λ n. n < length room.new → IsAtEnd (R.remaining input.new)) }
{
    let mut done = 0;
    // How far it goes is known only when a read has answered, and `read_exact` does not say how much of a cut end came.
    while done < room.len() {
        let n = input.read(&mut room[done..])?;
        if n == 0 {
            break;
        }
        done += n;
    }
    Ok(done)
}
