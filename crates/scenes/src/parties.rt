//! Whose message each report of a send side is: behind an answer's words.
use rules::{Code, Codes, Heard, Party, Refusal, Report, Turn, Word};
use std::fmt;

/// The party by the berth, where there is one.
#[derive(Clone, Copy)]
pub(crate) struct Parties([Option<Party>; 10]);

impl Parties {
    fn none() -> Parties {
        Parties([None; 10])
    }

    fn of_one(berth: usize, party: Party) -> Parties {
        let mut parties = Parties::none();
        if let Some(place) = parties.0.get_mut(berth) {
            *place = Some(party);
        }
        parties
    }

    pub(crate) fn of_frame(answer: Result<Heard, Refusal>) -> Parties {
        match answer {
            Ok(
                Heard {
                    berth,
                    word: Word::Failed(code, party),
                    ..
                },
            ) if code != Code::WrongSn => Parties::of_one(usize::from(berth), party),
            _ => Parties::none(),
        }
    }

    pub(crate) fn of_tick(answer: Result<[Codes; 10], Refusal>) -> Parties {
        match answer {
            Ok(codes) => Parties(codes.map(|here| here.send.map(|report| report.party))),
            Err(_) => Parties::none(),
        }
    }

    /// The identifier's last digit is the berth.
    // Casts widen, or are proved to fit: `try_from` would add an error that cannot come.
    pub(crate) fn of_turn(answer: Result<Turn, Refusal>) -> Parties {
        match answer {
            Ok(
                Turn::HandedOver {
                    identifier,
                    report: Some(Report { party, .. }),
                    ..
                },
            ) => Parties::of_one((identifier % 16) as usize, party),
            _ => Parties::none(),
        }
    }
}

impl fmt::Display for Parties {
    fn fmt<W: fmt::Write>(&self, f: &mut fmt::Formatter<W>) -> fmt::Result {
        let mut head = " party";
        for (berth, party) in self.0.iter().enumerate() {
            if let Some(party) = party {
                write!(f, "{head} {berth}:{}", party.0)?;
                head = "";
            }
        }
        Ok(())
    }
}
