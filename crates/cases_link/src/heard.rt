//! What was received, in order.
use std::alloc::{AllocError, Global};
use std::fmt::{self, Display, Formatter, Write};

/// What was received, and how often in a row.
#[derive(Drop)]
struct Run {
    text: String,
    times: u64,
}

#[derive(Drop)]
pub struct Heard {
    alloc: Global,
    runs: Vec<Run>,
}

impl Heard {
    pub fn new(alloc: Global) -> Heard {
        Heard {
            alloc,
            runs: Vec::new(alloc),
        }
    }

    /// One more text.
    pub fn add(&mut self, text: &str) -> Result<(), AllocError> {
        let count = self.runs.len();
        if count > 0 {
            let last = &mut self.runs[count - 1];
            if last.text.as_str() == text {
                last.times = last.times.saturating_add(1);
                return Ok(());
            }
        }
        let text = String::from_str(self.alloc, text)?;
        self.runs.push(Run { text, times: 1 })?;
        Ok(())
    }

    /// A datagram of so many bytes, over the room.
    pub fn long(&mut self, bytes: u32) -> Result<(), AllocError> {
        let text = format!(in self.alloc; "long({bytes})")?;
        self.add(&text)
    }
}

impl Display for Heard {
    fn fmt<W: Write>(&self, f: &mut Formatter<W>) -> fmt::Result {
        for run in &self.runs {
            if run.times == 1 {
                write!(f, " {}", run.text)?;
            } else {
                write!(f, " {}*{}", run.text, run.times)?;
            }
        }
        Ok(())
    }
}
