// Compares the checks of texture requests with the stored answers of a WebGPU implementation.
#![tactic(auto)]

use answers::line::{Line, LineError, TextureAnswer};
use answers::parse::parse_line;
use std::fs;
use thiserror::Error;
use types::capabilities::Capabilities;
use verdicts::judge::judge_texture;
use verdicts::report::{ANSWERS, Differences, LAST_TEXTURE_REFUSAL, print_tally};
use verdicts::verdict::Verdict;

#[derive(Debug, Drop, Error)]
enum ReplayError {
    #[error("line {line} is malformed: {error:?}")]
    Malformed { line: usize, error: LineError },
    #[error("the file has no answer")]
    NoAnswers,
    #[error("{0} answers differ")]
    Differing(usize),
}

fn main(rt: HostRuntime) -> anyhow::Result<()> {
    run(&rt)
}

fn run(rt: &HostRuntime) -> anyhow::Result<()> {
    let text = fs::read_to_string(rt, ANSWERS)?;
    let verdicts = replay(rt, text.as_str())?;
    if verdicts.is_empty() {
        return Err(ReplayError::NoAnswers.into());
    }
    let differing = print_tally(rt, None, LAST_TEXTURE_REFUSAL, verdicts.as_slice())?;
    if differing > 0 {
        return Err(ReplayError::Differing(differing).into());
    }
    Ok(())
}

// The verdicts on the answers in the text, in their order. `view_replay` has a loop of its own, since there a view needs the texture
// before it, and each kind of answer has its own verdicts.
fn replay(rt: &HostRuntime, text: &str) -> anyhow::Result<Vec<Verdict>> {
    let heap = rt.alloc();
    let mut device = Capabilities::DEFAULT;
    let mut verdicts = Vec::new(heap);
    let mut differences = Differences::new();
    for (index, text) in text.lines().enumerate() {
        let number = index + 1;
        let line = parse_line::<TextureAnswer>(heap, text).map_err(
            |error| ReplayError::Malformed {
                line: number,
                error,
            },
        )?;
        match line {
            Line::Comment => {}
            Line::Features(features) => device.features = features,
            Line::Answer(answer) => {
                let verdict = judge_texture(&device, &answer).verdict;
                differences.print(rt, number, text, verdict)?;
                verdicts.push(verdict)?;
            }
        }
    }
    Ok(verdicts)
}
