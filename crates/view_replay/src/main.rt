// Compares the checks of texture and view requests with the stored answers of a WebGPU implementation.
#![tactic(auto)]

use answers::line::{AnyAnswer, Line, LineError};
use answers::parse::parse_line;
use std::fs;
use thiserror::Error;
use types::capabilities::Capabilities;
use verdicts::judge::{judge_texture, judge_view};
use verdicts::report::{
    ANSWERS, Differences, LAST_TEXTURE_REFUSAL, LAST_VIEW_REFUSAL, print_tally,
};
use verdicts::verdict::Verdict;

// The errors of `replay` say less: it has one kind of answer.
#[derive(Debug, Drop, Error)]
enum ReplayError {
    #[error("line {line} is malformed: {error:?}")]
    Malformed { line: usize, error: LineError },
    #[error("line {line} views no texture")]
    NoTexture { line: usize },
    #[error("the file lacks answers")]
    NoAnswers,
    #[error("{textures} answers on textures and {views} on views differ")]
    Differing { textures: usize, views: usize },
}

// The verdicts on the answers of a file, in their order.
#[derive(Drop)]
struct Verdicts {
    textures: Vec<Verdict>,
    views: Vec<Verdict>,
}

fn main(rt: HostRuntime) -> anyhow::Result<()> {
    run(&rt)
}

// As in `replay`, for two kinds of answer.
fn run(rt: &HostRuntime) -> anyhow::Result<()> {
    let text = fs::read_to_string(rt, ANSWERS)?;
    let verdicts = replay(rt, text.as_str())?;
    if verdicts.textures.is_empty() || verdicts.views.is_empty() {
        return Err(ReplayError::NoAnswers.into());
    }
    let textures = print_tally(
        rt,
        Some("texture"),
        LAST_TEXTURE_REFUSAL,
        verdicts.textures.as_slice(),
    )?;
    let views = print_tally(
        rt,
        Some("view"),
        LAST_VIEW_REFUSAL,
        verdicts.views.as_slice(),
    )?;
    if textures > 0 || views > 0 {
        return Err(ReplayError::Differing { textures, views }.into());
    }
    Ok(())
}

// The loop of `replay`, with the texture that a view needs and verdicts for each kind of answer.
fn replay(rt: &HostRuntime, text: &str) -> anyhow::Result<Verdicts> {
    let heap = rt.alloc();
    let mut device = Capabilities::DEFAULT;
    // the one that was last made
    let mut texture = None;
    let mut verdicts = Verdicts {
        textures: Vec::new(heap),
        views: Vec::new(heap),
    };
    let mut differences = Differences::new();
    for (index, text) in text.lines().enumerate() {
        let number = index + 1;
        let line = parse_line(heap, text).map_err(|error| ReplayError::Malformed {
            line: number,
            error,
        })?;
        let verdict = match line {
            Line::Comment => continue,
            Line::Features(features) => {
                device.features = features;
                continue;
            }
            Line::Answer(AnyAnswer::Texture(answer)) => {
                let judged = judge_texture(&device, &answer);
                if answer.accepted {
                    texture = judged.texture;
                }
                verdicts.textures.push(judged.verdict)?;
                judged.verdict
            }
            Line::Answer(AnyAnswer::View(answer)) => {
                let viewed = texture.ok_or(ReplayError::NoTexture { line: number })?;
                let verdict = judge_view(&device, &viewed, &answer);
                verdicts.views.push(verdict)?;
                verdict
            }
        };
        differences.print(rt, number, text, verdict)?;
    }
    Ok(verdicts)
}
