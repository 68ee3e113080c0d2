// What a line of a case says.
use crate::lines::Line;
use crate::steps::{Answer, Call, Question, Step};
use anyhow::anyhow;
use date_check::Dates;

pub(crate) fn read_dates(line: Line) -> anyhow::Result<Dates> {
    Ok(Dates {
        release: u32::try_from(line.field(0)?)?,
        response: u32::try_from(line.field(1)?)?,
    })
}

pub(crate) fn read_step(line: Line) -> anyhow::Result<Step> {
    Ok(Step {
        line: line.number,
        question: read_question(line)?,
        answer: read_answer(line)?,
    })
}

fn read_question(line: Line) -> anyhow::Result<Question> {
    let question = match line.letter() {
        b'V' => Question::Check,
        b'B' => Question::Post {
            bank: line.field(0)? as usize,
            source: line.field(1)? as usize,
            picks: line.field(2)? == 1,
        },
        b'S' => Question::SetUp,
        _ => Question::Run(read_call(line)?),
    };
    Ok(question)
}

fn read_call(line: Line) -> anyhow::Result<Call> {
    let call = match line.letter() {
        b'Q' => Call::Ask {
            place: line.field(0)? as usize,
            bank: line.field(1)? as usize,
        },
        b'Y' => Call::Cycles(line.field(0)?),
        b'W' => Call::Now,
        b'P' => Call::Place(line.field(0)? as usize),
        b'K' => Call::Task(line.field(0)? as usize),
        _ => return Err(anyhow!("a line of a case has an unknown letter")),
    };
    Ok(call)
}

// A post before the set-up is never refused.
fn read_answer(line: Line) -> anyhow::Result<Answer> {
    let answer = match line.letter() {
        b'B' => Answer::Done(0),
        b'Q' => Answer::Done(line.field(2)?),
        b'Y' => Answer::Done(line.field(1)?),
        b'W' => Answer::Now {
            time: line.field(0)?,
            kind: line.field(1)?,
            row: line.field(2)?,
        },
        b'P' | b'K' => Answer::State(line.field(1)?),
        _ => Answer::Verdict {
            number: line.field(0)?,
            row: line.field(1)?,
        },
    };
    Ok(answer)
}
