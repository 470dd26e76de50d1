//! Entries' records, written, read and checked.
ghost use Rattle.std.specs.Prelude.{◌≡◌, true, false, MatchOption};
ghost use Rattle.journal.specs.Records.{within, record_of, entry_in, accepts, write_paper, read_paper, check_paper, writes, written, reads, checks};

use crate::{Entry, FirstBad, JournalError, RECORD};

impl Entry {
    /// Its record.
    // Casts widen, or are proved to fit: `try_from` would add an error that cannot come.
    #[tactic(auto, using(crate::proofs::Records::within_fits, crate::proofs::Widths::bytes_of_two, crate::proofs::Widths::bytes_of_eight), unfolding(crate::specs::Records::record_of))]
    fn record(self) -> [u8; RECORD]
        requires { within self ≡ true }
        ensures { result ≡ record_of self }
    {
        let mut record = [0; RECORD];
        record[0] = self.kind;
        record[1] = self.berth as u8;
        record[2] = self.code;
        record[4..6].copy_from_slice(&(self.length as u16).to_be_bytes());
        record[8..].copy_from_slice(&self.tick.to_be_bytes());
        record
    }
}

/// Writes an entry's record to the front of `out`.
#[tactic(auto, unfolding(crate::specs::Records::write_paper, crate::specs::Records::writes, crate::specs::Records::written, crate::specs::Records::write_refusal, rules::specs::Tests::first_unmet))]
pub fn write(entry: Entry, out: &mut [u8]) -> Result<(), JournalError>
    ensures result_value { write_paper result ≡ writes entry out.old }
    ensures out_after { out.new ≡ written entry out.old }
{
    let front = out.first_chunk_mut::<RECORD>().ok_or(JournalError::NoRoom)?;
    if !entry.within() {
        return Err(JournalError::Outside);
    }
    *front = entry.record();
    Ok(())
}

/// The entry in the first sixteen bytes, where they are there and those that a record has no use for are zero.
#[tactic(auto, using(crate::proofs::Reading::entry_here, crate::proofs::Reading::accepts_here), unfolding(crate::specs::Records::accepts))]
fn entry_in(bytes: &[u8]) -> Option<Entry>
    ensures { MatchOption result (accepts bytes.now ≡ false) (λ entry. (entry ≡ entry_in bytes.now) × (accepts bytes.now ≡ within entry)) }
{
    let &[kind, berth, code, 0, high, low, 0, 0, ref rest @ ..] = bytes else {
        return None;
    };
    let tick = rest.first_chunk::<8>()?;
    Some(Entry {
        kind,
        berth: u32::from(berth),
        code,
        length: u32::from(u16::from_be_bytes([high, low])),
        tick: u64::from_be_bytes(*tick),
    })
}

/// Reads the entry of the first sixteen bytes.
#[tactic(auto, unfolding(crate::specs::Records::read_paper, crate::specs::Records::reads))]
pub fn read(bytes: &[u8]) -> Result<Entry, JournalError>
    ensures { read_paper result ≡ reads bytes.now }
{
    entry_in(bytes)
        .filter(|entry| entry.within())
        .ok_or(JournalError::Outside)
}

/// Whether all records of a file are good, and how many there are. A last part under sixteen bytes counts as one, and is bad.
#[tactic(auto, unfolding(crate::specs::Records::checks))]
pub fn check(file: &[u8]) -> Result<usize, FirstBad>
    ensures { check_paper result ≡ checks file.now }
{
    let mut good = 0;
    for record in file.chunks(RECORD) {
        if read(record).is_err() {
            return Err(FirstBad(good + 1));
        }
        good += 1;
    }
    Ok(good)
}
