//! What all runners do: lines in, lines with answers out.
use crate::answered::{Answer, AnsweredLine, is_note};
use crate::case_line::CaseLine;
use std::alloc::Global;
use std::io;

/// What answers the lines of a runner, one behind another.
pub trait Answers<R> {
    /// What a line answers that is no note, where it is a case.
    fn answer(&mut self, rt: &R, line: &mut CaseLine<'_>) -> Answer;
}

/// Prints each line of the input again, with its answer.
pub fn answer_lines<R: Input + Print, B: Answers<R>>(
    rt: &R,
    alloc: Global,
    bench: &mut B,
) -> io::Result<()> {
    for line in rt.lines(alloc) {
        let line = line?;
        let text = line.as_str();
        let answer = answered(rt, bench, text);
        let told = AnsweredLine {
            line: text,
            answer: &answer,
        };
        println!(rt; "{told}")?;
    }
    Ok(())
}

fn answered<R, B: Answers<R>>(rt: &R, bench: &mut B, text: &str) -> Answer {
    if is_note(text) {
        return Ok(None);
    }
    let mut line = CaseLine::new(text);
    let answer = bench.answer(rt, &mut line);
    line.checked(answer)
}
