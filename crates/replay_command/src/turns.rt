//! The lines of turns below an image.
ghost use Rattle.std.specs.Prelude.{◌≡◌, ◌<◌, ◌+◌, ◌^◌, length, Ok};
ghost use Rattle.rv32_image.specs.ImageText.{pieces};
ghost use Rattle.rv32_image.specs.Cutting.{pieces_after};
ghost use Rattle.trace_text.specs.Reading.{Answers};
ghost use Rattle.replay_command.specs.Turns as spec;

use rv32_image::{NumberedLines, cut, is_remark, number_in};
use std::alloc::Global;
use trace_text::{TraceFault, TraceFaultKind};

/// The schedule that the lines of turns say, for so many cores.
///
/// The fault is the first one in line order: `Line` where a line is no remark, and not `turns` with numbers of cores that are
/// there. `NoMemory`, on line 0, ends the reading where memory was refused.
pub fn read_turns(
    alloc: Global,
    cores: u32,
    mut lines: NumberedLines,
) -> Result<Vec<u32>, TraceFault>
    requires { lines.number + length (pieces_after 10 lines.rest) < 2 ^ 32 }
    ensures { Answers (λ schedule. schedule.items) result (spec.lines_read cores lines.entry.number (pieces_after 10 lines.entry.rest)) }
{
    let mut schedule = Vec::new(alloc);
    while let Some((number, line)) = lines.next() {
        push_line(&mut schedule, cores, number as u32, line)?;
    }
    Ok(schedule)
}

/// Adds the turns of a line; a remark has none.
#[tactic(auto, unfolding(crate::specs::Turns::line_read))]
fn push_line(
    schedule: &mut Vec<u32>,
    cores: u32,
    number: u32,
    line: &[u8],
) -> Result<(), TraceFault>
    ensures { Answers (λ _. schedule.new.items) result (spec.joined (Ok schedule.old.items) (spec.line_read cores number line.now)) }
{
    if is_remark(line) {
        return Ok(());
    }
    if !line.starts_with(b"turns ") {
        return Err(TraceFault {
            line: number,
            kind: TraceFaultKind::Line,
        });
    }
    push_words(schedule, cores, number, &line[6..])
}

/// Adds a turn for each word.
fn push_words(
    schedule: &mut Vec<u32>,
    cores: u32,
    number: u32,
    words: &[u8],
) -> Result<(), TraceFault>
    ensures { Answers (λ _. schedule.new.items) result (spec.joined (Ok schedule.old.items) (spec.words_read cores number (pieces 32 words.now))) }
{
    let mut rest = Some(words);
    while let Some(text) = rest {
        let (word, next) = cut(text, b' ');
        push_word(schedule, cores, number, word)?;
        rest = next;
    }
    Ok(())
}

/// Adds the turn of a word.
fn push_word(
    schedule: &mut Vec<u32>,
    cores: u32,
    number: u32,
    word: &[u8],
) -> Result<(), TraceFault>
    ensures { Answers (λ _. schedule.new.items) result (spec.joined (Ok schedule.old.items) (spec.word_read cores number word.now)) }
{
    let Some(core) = core_in(cores, word) else {
        return Err(TraceFault {
            line: number,
            kind: TraceFaultKind::Line,
        });
    };
    schedule.push(core).map_err(|_| TraceFault {
        line: 0,
        kind: TraceFaultKind::NoMemory,
    })
}

/// The number of a core that is there.
#[tactic(auto, unfolding(crate::specs::Turns::core_in))]
fn core_in(cores: u32, word: &[u8]) -> Option<u32>
    ensures { result ≡ spec.core_in cores word.now }
{
    match number_in(word) {
        Ok(core) if core < u64::from(cores) => Some(core as u32),
        _ => None,
    }
}
