//! Bytes in upper-case hex.
ghost use Rattle.std.specs.Prelude.{Some};
ghost use Rattle.text.specs.Building.{hex_text};

use std::fmt;

/// Two digits for each byte.
#[derive(Clone, Copy)]
pub struct Hex<'a>(pub &'a [u8]);

impl fmt::Display for Hex<'_> {
    ghost output = { λ hex. Some (hex_text hex.0.now) };

    #[tactic(auto, using(crate::proofs::Digits::hex_push), unfolding(crate::specs::Building::hex_text))]
    fn fmt<W: fmt::Write>(&self, f: &mut fmt::Formatter<W>) -> fmt::Result {
        for byte in self.0 {
            let byte = *byte;
            write!(f, "{byte:02X}")?;
        }
        Ok(())
    }
}
