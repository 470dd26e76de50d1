//! A request of 64 bytes: the call in byte 0, and in byte 1 how many bytes it is lent. Numbers go high byte first, and bytes without a use
//! are zero.
use journal::Entry;
use records::record::unused;

/// So many bytes are a request.
pub(crate) const SIZE: usize = 64;

/// A call is lent so many bytes at most.
pub(crate) const MOST: usize = 48;

/// The bytes that a read or a check is lent begin here.
const BYTES: usize = 16;

/// The bytes behind an entry.
const BEHIND: usize = 20;

/// A call of the journal, on anything.
// What was parsed or is lent: nothing compares or prints it, so it derives no equality.
#[derive(Clone, Copy)]
pub(crate) enum Request<'a> {
    /// With so many bytes of room.
    Write { entry: Entry, room: usize },
    Read(&'a [u8]),
    Check(&'a [u8]),
}

impl<'a> Request<'a> {
    /// None of a bad request.
    pub(crate) fn read(bytes: &'a [u8; SIZE]) -> Option<Request<'a>> {
        let count = usize::from(bytes[1]);
        if count > MOST {
            return None;
        }
        let end = BYTES + count;
        let lends_alone = unused(bytes, 2, BYTES) && unused(bytes, end, SIZE);
        match bytes[0] {
            1 if unused(bytes, BEHIND, SIZE) => Some(Request::Write {
                entry: entry_in(bytes),
                room: count,
            }),
            2 if lends_alone => Some(Request::Read(&bytes[BYTES..end])),
            3 if lends_alone => Some(Request::Check(&bytes[BYTES..end])),
            _ => None,
        }
    }
}

fn entry_in(bytes: &[u8; SIZE]) -> Entry {
    let &[
        _,
        _,
        kind,
        code,
        b0,
        b1,
        b2,
        b3,
        l0,
        l1,
        l2,
        l3,
        t0,
        t1,
        t2,
        t3,
        t4,
        t5,
        t6,
        t7,
        ..
    ] = bytes;
    Entry {
        kind,
        berth: u32::from_be_bytes([b0, b1, b2, b3]),
        code,
        length: u32::from_be_bytes([l0, l1, l2, l3]),
        tick: u64::from_be_bytes([t0, t1, t2, t3, t4, t5, t6, t7]),
    }
}
