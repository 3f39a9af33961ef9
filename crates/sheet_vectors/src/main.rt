// Checks the sheets of standard input, which compare/sheets.py made from document 01: for each its length (four bytes, the
// lowest first), the answer that it must get, and its bytes. Prints how many got each answer, and the first difference.
#![tactic(auto)]

use console::{next_bytes, read_full};
use std::alloc::Global;
use std::io::{BufRead, BufReader, Write};
use std::{fmt, io};

// No sheet has as many bytes.
const LONGEST: usize = 65536;

// A sheet, and the answer that it must get.
#[derive(Drop)]
struct Case {
    sheet: Vec<u8>,
    expected: u8,
}

// What comes next in the input. After a sheet that is cut short or too long it is not known where the next one starts.
#[derive(Drop)]
enum Next {
    Case(Case),
    Cut,
    End,
}

fn next_case(input: &mut impl BufRead, alloc: Global) -> io::Result<Next> {
    if input.fill_buf()?.is_empty() {
        return Ok(Next::End);
    }
    let Some(head) = next_bytes::<_, 5>(input)? else {
        return Ok(Next::Cut);
    };
    let [a, b, c, d, expected] = head;
    let length = u32::from_le_bytes([a, b, c, d]) as usize;
    if LONGEST < length {
        return Ok(Next::Cut);
    }
    let mut sheet = vec![in alloc; 0u8; length]?;
    if read_full(input, sheet.as_mut_slice())? < length {
        return Ok(Next::Cut);
    }
    Ok(Next::Case(Case { sheet, expected }))
}

// A sheet that got another answer than it must, and its place. Answers are numbers throughout, as the file has them: one is only compared with another,
// counted and printed.
#[derive(Clone, Copy)]
struct Difference {
    at: u64,
    expected: u8,
    answered: u8,
}

// The sheets so far by their answers, those that got another answer than they must, and the first of those.
#[derive(Drop)]
struct Run {
    sheets: u64,
    counts: [u64; 8],
    differences: u64,
    first: Option<Difference>,
}

impl Run {
    fn differs(&mut self, expected: u8, answered: u8) {
        self.differences = self.differences.saturating_add(1);
        if self.first.is_none() {
            self.first = Some(Difference {
                at: self.sheets,
                expected,
                answered,
            });
        }
    }

    // One more sheet.
    fn count(&mut self, expected: u8, answered: u8) {
        if let Some(n) = self.counts.get_mut(usize::from(answered)) {
            *n = n.saturating_add(1);
        }
        if expected != answered {
            self.differs(expected, answered);
        }
        self.sheets = self.sheets.saturating_add(1);
    }

    // The input is cut short: then there is a difference at the last.
    fn cut_short(&mut self) {
        let first = self.first.unwrap_or(Difference {
            at: self.sheets,
            expected: 0,
            answered: 0,
        });
        self.differences = self.differences.saturating_add(1);
        self.first = Some(Difference {
            at: self.sheets,
            ..first
        });
    }

    // The turns are more than any input has.
    fn go(&mut self, input: &mut impl BufRead, alloc: Global) -> io::Result<()> {
        for _ in 0..u64::MAX {
            match next_case(input, alloc)? {
                Next::Case(case) => {
                    self.count(
                        case.expected,
                        refusal::answer(player::needs(case.sheet.as_slice())),
                    );
                }
                Next::Cut => {
                    self.cut_short();
                    return Ok(());
                }
                Next::End => return Ok(()),
            }
        }
        Ok(())
    }
}

impl fmt::Display for Run {
    fn fmt<W: fmt::Write>(&self, f: &mut fmt::Formatter<W>) -> fmt::Result {
        writeln!(f, "sheets {}", self.sheets)?;
        for (answer, n) in self.counts.iter().enumerate() {
            if answer == 0 {
                writeln!(f, "accepted {n}")?;
            } else {
                writeln!(f, "refused {answer}: {n}")?;
            }
        }
        writeln!(f, "differences {}", self.differences)?;
        if let Some(first) = self.first {
            writeln!(f, "the first at sheet {}", first.at)?;
            writeln!(f, "it must get {}", first.expected)?;
            writeln!(f, "and got {}", first.answered)?;
        }
        Ok(())
    }
}

fn main(rt: HostRuntime) -> io::Result<()> {
    let mut run = Run {
        sheets: 0,
        counts: [0; 8],
        differences: 0,
        first: None,
    };
    run.go(&mut BufReader::new(rt.alloc(), rt.stdin())?, rt.alloc())?;
    write!(rt.stdout(), "{run}")
}
