//! Cases of the commands, in lines, over files, outputs and links in memory. `command NAME` begins the cases of a command, `play`, `keys`,
//! `relay`, `lanes` or `json`; the lines behind it say what the command is given, and one of them runs it. Each line is printed again,
//! and behind the one that runs the command what it writes and how it ends.
#![tactic(auto)]

mod cases;
mod failing;
mod given;
mod injected;
mod json;
mod keys;
mod lanes;
mod playing;
mod relay;
mod shown;

use case_lines::AnsweredLine;
use cases::Cases;
use std::io;

fn main(rt: HostRuntime) -> io::Result<()> {
    let mut cases = Cases::new(rt.alloc());
    for line in rt.lines(rt.alloc()) {
        let line = line?;
        let text = line.as_str();
        let answer = cases.answered(&rt, text);
        let told = AnsweredLine {
            line: text,
            answer: &answer,
        };
        println!(&rt; "{told}")?;
    }
    Ok(())
}
