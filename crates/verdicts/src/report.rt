// What is printed of a run: lines whose answers differ, and the counts.
ghost use Rattle.std.specs.Prelude.{◌≡◌, ◌+◌, ◌&&◌, count_by, if◌then◌else◌, nat_lt, IfOk, OnErr};
ghost use Rattle.verdicts.specs.Verdicts.{differs};

use crate::tally::{refused_with, totals_of};
use crate::verdict::Verdict;
use std::io;

// The file of answers, where a program runs.
pub const ANSWERS: &str = "webgpu-dawn.txt";

// Of the answers that differ, at most so many are printed.
const MOST_SHOWN: usize = 20;

// The numbers of the refusals of textures, and those of views, lie from the first to the last of their kind.
const FIRST_REFUSAL: u32 = 3;

pub const LAST_TEXTURE_REFUSAL: u32 = 27;

pub const LAST_VIEW_REFUSAL: u32 = 48;

// How many lines whose answers differ were printed.
#[derive(Clone, Copy, Debug, PartialEq, Eq)]
pub struct Differences {
    pub shown: usize,
}

impl Differences {
    pub fn new() -> Self
        ensures { result.shown ≡ 0 }
    {
        Differences { shown: 0 }
    }

    // Prints the line where its verdict tells of a difference, as long as not too many were printed.
    pub fn print(
        &mut self,
        rt: &impl Print,
        number: usize,
        text: &str,
        verdict: Verdict,
    ) -> io::Result<()>
        ensures ok { IfOk result (λ _. self.new.shown ≡ (if differs verdict && nat_lt self.old.shown 20 then self.old.shown + 1 else self.old.shown)) }
        ensures err { OnErr result (self.new.shown ≡ self.old.shown) }
    {
        if verdict.is_difference() && self.shown < MOST_SHOWN {
            println!(rt; "line {number} differs: {text}")?;
            self.shown += 1;
        }
        Ok(())
    }
}

// Prints how many verdicts there are of each kind, and answers how many tell of a difference. The kind of requests is named where
// a program has more than one; no number beyond the last refusal is looked for. Each line is printed as a whole.
pub fn print_tally(
    rt: &impl Print,
    kind: Option<&str>,
    last_refusal: u32,
    verdicts: &[Verdict],
) -> io::Result<usize>
    ensures { IfOk result (λ differing. differing ≡ count_by differs verdicts.now) }
{
    let totals = totals_of(verdicts);
    let accepted = totals.accepted;
    let refused = totals.refused;
    match kind {
        Some(kind) => {
            println!(rt; "{kind} requests: {accepted} accepted by both, {refused} refused by both")?
        }
        None => println!(rt; "{accepted} accepted by both, {refused} refused by both")?,
    }
    for number in FIRST_REFUSAL..=last_refusal {
        let count = refused_with(verdicts, number);
        if count > 0 {
            println!(rt; "refusal {number}: {count}")?;
        }
    }
    let compared = verdicts.len();
    let agreeing = accepted + refused;
    let differing = totals.differing;
    match kind {
        Some(kind) => {
            println!(rt;
                "{compared} {kind} answers compared, {agreeing} agree, {differing} differ"
            )?
        }
        None => println!(rt; "{compared} answers compared, {agreeing} agree, {differing} differ")?,
    }
    Ok(differing)
}
