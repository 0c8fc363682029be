// How many of the checks' answers stand how to the stored ones.
ghost use Rattle.std.specs.Prelude.{◌≡◌, ◌+◌, length, count_by};
ghost use Rattle.verdicts.specs.Verdicts.{both_accept, both_refuse, differs, refused_with};

use crate::verdict::Verdict;

#[derive(Clone, Copy, Debug, PartialEq, Eq)]
pub struct Totals {
    pub accepted: usize,
    pub refused: usize,
    pub differing: usize,
}

// How many requests both accept, how many both refuse, and on how many they differ.
pub fn totals_of(verdicts: &[Verdict]) -> Totals
    ensures accepted { result.accepted ≡ count_by both_accept verdicts.now }
    ensures refused { result.refused ≡ count_by both_refuse verdicts.now }
    ensures differing { result.differing ≡ count_by differs verdicts.now }
    ensures all { result.accepted + result.refused + result.differing ≡ length verdicts.now }
{
    // one walk for the three counts; with a chain for each it was not proved that they add up to all
    let mut totals = Totals {
        accepted: 0,
        refused: 0,
        differing: 0,
    };
    for verdict in verdicts {
        match verdict {
            Verdict::BothAccept => totals.accepted += 1,
            Verdict::BothRefuse(_) => totals.refused += 1,
            Verdict::OnlyChecksAccept | Verdict::OnlyChecksRefuse(_) => totals.differing += 1,
        }
    }
    totals
}

// How many requests the checks refuse with this number.
pub fn refused_with(verdicts: &[Verdict], number: u32) -> usize
    ensures { result ≡ count_by (refused_with number) verdicts.now }
{
    verdicts
        .iter()
        .filter(|verdict| matches!(
            verdict,
            Verdict::BothRefuse(n) | Verdict::OnlyChecksRefuse(n) if *n == number
        ))
        .count()
}
