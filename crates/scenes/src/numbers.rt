//! The numbers in a record, high byte first.
ghost use Rattle.std.specs.Prelude.{◌<◌};

use pieces::SIZE;

/// In two bytes from a place on.
pub(crate) fn two(record: &[u8; SIZE], at: usize) -> u16
    requires { at < 15 }
{
    u16::from_be_bytes([record[at], record[at + 1]])
}

/// In four bytes from a place on.
pub(crate) fn four(record: &[u8; SIZE], at: usize) -> u32
    requires { at < 13 }
{
    u32::from_be_bytes([record[at], record[at + 1], record[at + 2], record[at + 3]])
}
