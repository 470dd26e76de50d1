//! The message of a send record.
ghost use Rattle.std.specs.Prelude.{◌≡◌, length};
ghost use Rattle.records.specs.Records.{rising_from};

/// Fills the message with bytes that rise by one from the first on, and wrap at 256.
pub fn rise(message: &mut [u8], first: u8)
    ensures { message.new ≡ rising_from first (length message.old) }
{
    let mut next = first;
    for byte in message.iter_mut() {
        *byte = next;
        next = next.wrapping_add(1);
    }
}
