//! What a request of so many bytes asks for.
ghost use Rattle.std.specs.Prelude.{◌+◌, ◌≤◌};

use candump::Log;
use records::record::unused;

pub(crate) const SIZE: usize = 128;

const READ: u8 = 1;

const WRITE: u8 = 2;

/// What the calls are lent begins here.
const LINE: usize = 32;

const NAME: usize = 24;

const RECORD: usize = 48;

const MOST_LINE: usize = 96;

/// Of a name, and of a record.
const MOST_PART: usize = 24;

/// A line to be read behind those of a log, or a record to be written at a time.
// What was parsed or is lent: nothing compares or prints it, so it derives no equality.
pub(crate) enum Request<'a> {
    Read {
        log: Option<Log>,
        line: &'a [u8],
    },
    Write {
        time: u64,
        name: &'a [u8],
        record: &'a [u8],
    },
}

/// A number of eight bytes, high byte first.
fn number(bytes: &[u8; SIZE], at: usize) -> u64
    requires { at + 8 ≤ 128 }
{
    let mut number = [0; 8];
    number.copy_from_slice(&bytes[at..at + 8]);
    u64::from_be_bytes(number)
}

/// Byte 1 is the line's length, byte 2 whether there was a line before it.
fn read(bytes: &[u8; SIZE]) -> Option<Request<'_>> {
    let length = usize::from(bytes[1]);
    if length > MOST_LINE || bytes[2] > 1 {
        return None;
    }
    let end = LINE + length;
    if !unused(bytes, 3, 8) || !unused(bytes, 24, LINE) || !unused(bytes, end, SIZE) {
        return None;
    }
    let log = Log {
        first: number(bytes, 8),
        last: number(bytes, 16),
    };
    Some(Request::Read {
        log: (bytes[2] == 1).then_some(log),
        line: &bytes[LINE..end],
    })
}

/// Bytes 1 and 2 are the lengths of the name and of the record.
fn write(bytes: &[u8; SIZE]) -> Option<Request<'_>> {
    let name_length = usize::from(bytes[1]);
    let record_length = usize::from(bytes[2]);
    if name_length > MOST_PART || record_length > MOST_PART {
        return None;
    }
    let name_end = NAME + name_length;
    let end = RECORD + record_length;
    if !unused(bytes, 3, 8) || !unused(bytes, 16, NAME) {
        return None;
    }
    if !unused(bytes, name_end, RECORD) || !unused(bytes, end, SIZE) {
        return None;
    }
    Some(Request::Write {
        time: number(bytes, 8),
        name: &bytes[NAME..name_end],
        record: &bytes[RECORD..end],
    })
}

impl Request<'_> {
    /// None where a byte that the call has no use for is not zero, or a number is too large.
    pub(crate) fn of(bytes: &[u8; SIZE]) -> Option<Request<'_>> {
        match bytes[0] {
            READ => read(bytes),
            WRITE => write(bytes),
            _ => None,
        }
    }
}
