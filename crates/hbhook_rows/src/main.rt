//! Runs the worked rows of data/ through the program's lines, tells of each that fails, and counts
//! them.
//!
//! In a file of rows a line that begins with `#` is a comment, and an empty line ends a row. A row
//! is a run: its lines, each behind `> `, what they print, and behind `! ` the status and the
//! message of a run that ends in a fault.
#![tactic(auto)]

use hbhook_lines::run_lines;
use std::alloc::{AllocError, Global};
use std::{fs, io};

/// The files of rows.
const FILES: [&str; 16] = [
    "arabic.rows",
    "hangul.rows",
    "hebrew.rows",
    "hooks.rows",
    "indic.rows",
    "indic_final.rows",
    "indic_initial.rows",
    "khmer.rows",
    "lengths.rows",
    "lines.rows",
    "long.rows",
    "myanmar.rows",
    "stretch.rows",
    "text.rows",
    "thai.rows",
    "universal.rows",
];

/// A row: the line of the file that it begins on, the lines of the run, what they print, and how
/// the run ends.
#[derive(Drop)]
struct Row {
    begins_on: usize,
    lines: String,
    output: String,
    fault: String,
    status: u8,
}

impl Row {
    // A row with nothing in it.
    fn new(alloc: Global, begins_on: usize) -> Self {
        Row {
            begins_on,
            lines: String::new(alloc),
            output: String::new(alloc),
            fault: String::new(alloc),
            status: 0,
        }
    }

    // Takes in a line of the file.
    fn add(&mut self, line: &str) -> Result<(), AllocError> {
        if let Some(line) = line.strip_prefix('>') {
            return push_line(&mut self.lines, line.strip_prefix(' ').unwrap_or(line));
        }
        match line.strip_prefix("! ") {
            Some(end) => {
                let (status, message) = end.split_once(' ').unwrap_or((end, ""));
                self.status = status.parse().unwrap_or(u8::MAX);
                push_line(&mut self.fault, message)
            }
            None => push_line(&mut self.output, line),
        }
    }

    // Whether the run prints, reports and returns what the row says.
    fn holds(&self, alloc: Global) -> bool {
        let mut written = Vec::new(alloc);
        let mut told = Vec::new(alloc);
        let status = run_lines(alloc, self.lines.as_bytes(), &mut written, &mut told);
        written.as_slice() == self.output.as_bytes()
            && told.as_slice() == self.fault.as_bytes()
            && status == self.status
    }
}

// Adds a line to a text.
fn push_line(text: &mut String, line: &str) -> Result<(), AllocError> {
    text.push_str(line)?;
    text.push('\n')
}

// The rows of a file.
fn rows_of(alloc: Global, text: &str) -> Result<Vec<Row>, AllocError> {
    let mut rows = Vec::new(alloc);
    let mut ended = true;
    for (i, line) in text
        .lines()
        .enumerate()
        .filter(|(_, line)| !line.starts_with('#'))
    {
        if ended && !line.is_empty() {
            rows.push(Row::new(alloc, i + 1))?;
        }
        ended = line.is_empty();
        if let Some(row) = rows.last_mut().filter(|_| !ended) {
            row.add(line)?;
        }
    }
    Ok(rows)
}

fn main(rt: HostRuntime) -> io::Result<()> {
    for file in FILES {
        let text = fs::read_to_string(&rt, file)?;
        let rows = rows_of(rt.alloc(), &text)?;
        for row in rows.iter().filter(|row| !row.holds(rt.alloc())) {
            println!(rt; "{file}, line {}: fails", row.begins_on)?;
        }
        println!(rt; "{file}: {} rows", rows.len())?;
    }
    Ok(())
}
