// An answer file, as compare/README.md describes it: sections of one function's cases each. A program asks an `AnswerFile` for one section after
// another, each with a closure that does what the section's function does. What the closure answers is held to what is on file, and a line is printed.
// Nothing here is undefined on any input: what does not come whole ends the comparison. A read or a write that fails is an `Err`.
#![tactic(auto)]

ghost use Rattle.std.specs.Prelude.{◌≡◌, ◌+◌, ◌*◌, ◌^◌, ◌%◌, ◌≤◌, ◌<◌, ℕ, max, [], ◌∷◌, map, true, Some, None, IfOk, IfSome, IsSome};
ghost use Rattle.std.specs.Io.KnownBytes.{IsAtEnd};
ghost use Rattle.std.specs.Float.Ieee as Ieee;
ghost use Rattle.std.specs.Float.{binary32, binary64};
ghost use Rattle.std.specs.Int.{from_bool};
ghost use Rattle.vectors.specs.Words.{width_of, Answered, answer_at};

use console::{next_bytes, read_full, say_hex};
use std::io;
use std::io::{Read, Write};

// How many bytes a word has.
#[derive(Clone, Copy)]
pub enum Width {
    Four,
    Eight,
}

impl From<u8> for Width {
    ghost from_gives = { λ n r. r ≡ width_of n };

    #[tactic(auto, unfolding(crate::specs::Words::width_of))]
    fn from(bytes: u8) -> Width {
        match bytes {
            4 => Width::Four,
            _ => Width::Eight,
        }
    }
}

// How a function's cases are written: how many operands, at most 20, and then how many answers there are, each a word. A header that says otherwise
// only makes for differences.
#[derive(Clone, Copy)]
pub struct Shape {
    pub operands: u8,
    pub answers: u8,
    pub width: Width,
}

// The words of a case. One that the case lacks is 0.
pub type Operands = [u64; 20];

// What a function answers to a case, and how many words that are.
#[derive(Clone, Copy)]
pub struct Answers {
    pub words: [u64; 20],
    pub count: usize,
}

impl Answers {
    // The answer of this number. A header may say that a case has more answers than the function gives: the last one stands for those too.
    #[tactic(auto, unfolding(crate::specs::Words::answer_at))]
    pub fn at(&self, index: u8) -> u64
        ensures { result ≡ answer_at self.now.words self.now.count index }
    {
        let last = self.count.saturating_sub(1);
        let place = usize::from(index).min(last);
        self.words.get(place).copied().unwrap_or(0)
    }
}

impl From<u64> for Answers {
    ghost from_gives = { λ word r. Answered r.words r.count (word ∷ []) };

    fn from(word: u64) -> Answers {
        Answers::from([word])
    }
}

impl From<bool> for Answers {
    ghost from_gives = { λ x r. Answered r.words r.count (from_bool x ∷ []) };

    fn from(x: bool) -> Answers {
        Answers::from([u64::from(x)])
    }
}

impl From<f32> for Answers {
    ghost from_gives = { λ x r. Answered r.words r.count (Ieee.to_bits binary32 x ∷ []) };

    fn from(x: f32) -> Answers {
        Answers::from([of_single(x)])
    }
}

impl From<f64> for Answers {
    ghost from_gives = { λ x r. Answered r.words r.count (Ieee.to_bits binary64 x ∷ []) };

    fn from(x: f64) -> Answers {
        Answers::from([std::num::f64_to_bits_with_nan(x)])
    }
}

impl<const N: usize> From<[u64; N]> for Answers {
    ghost from_gives = { λ xs r. Answered r.words r.count xs };

    fn from(xs: [u64; N]) -> Answers {
        let mut words = [0; 20];
        let given = N.min(20);
        words[..given].copy_from_slice(&xs[..given]);
        Answers {
            words,
            count: given,
        }
    }
}

impl<const N: usize> From<[f32; N]> for Answers {
    ghost from_gives = { λ xs r. Answered r.words r.count (map (Ieee.to_bits binary32) xs) };

    fn from(xs: [f32; N]) -> Answers {
        let mut words = [0; 20];
        // Not a `zip`: what a loop writes through an adapter of `iter_mut` gets no proof.
        for (i, x) in xs[..N.min(20)].iter().enumerate() {
            words[i] = of_single(*x);
        }
        Answers {
            words,
            count: N.min(20),
        }
    }
}

// An answer that differs: how many come before it in the case, the words of the case, and what was got.
#[derive(Clone, Copy)]
pub struct Difference {
    pub index: u8,
    pub operands: Operands,
    pub expected: u64,
    pub got: u64,
}

// The answers so far and those of them that differ; then the first of these.
#[derive(Clone, Copy)]
pub struct Tally {
    pub answers: u64,
    pub differ: u64,
    pub first: Option<Difference>,
}

impl Tally {
    pub const NONE: Tally = Tally {
        answers: 0,
        differ: 0,
        first: None,
    };

    // The tally with one answer more, which is on file as `expected`.
    pub fn count(&mut self, index: u8, operands: Operands, expected: u64, got: u64)
        requires { (self.old.answers + 1 < 2 ^ 64) × (self.old.differ ≤ self.old.answers) }
        ensures answers_value { (self.new.answers ≡ self.old.answers + 1) × (self.new.differ ≤ self.new.answers) }
        ensures equal { got ≡ expected → self.new.differ ≡ self.old.differ }
        ensures unlike { (got ≡ expected → ⊥) → self.new.differ ≡ self.old.differ + 1 }
    {
        self.answers += 1;
        if got == expected {
            return;
        }
        self.differ += 1;
        if self.first.is_none() {
            self.first = Some(Difference {
                index,
                operands,
                expected,
                got,
            });
        }
    }
}

// ---- what is read

fn next_word(input: &mut impl Read, shape: Shape) -> io::Result<Option<u64>> {
    match shape.width {
        Width::Four => Ok(next_bytes(input)?.map(|b| u64::from(u32::from_le_bytes(b)))),
        Width::Eight => Ok(next_bytes(input)?.map(u64::from_le_bytes)),
    }
}

fn next_operands(input: &mut impl Read, shape: Shape) -> io::Result<Option<Operands>> {
    let mut words = [0; 20];
    for word in words.iter_mut().take(usize::from(shape.operands)) {
        let Some(next) = next_word(input, shape)? else {
            return Ok(None);
        };
        *word = next;
    }
    Ok(Some(words))
}

// The next header, if it is that of the section of this number: how many cases follow, and their shape.
fn next_head(input: &mut impl Read, section: u8) -> io::Result<Option<(u32, Shape)>> {
    let Some(head) = next_bytes::<_, 8>(input)? else {
        return Ok(None);
    };
    let [number, operands, answers, width, a, b, c, d] = head;
    let shape = Shape {
        operands,
        answers,
        width: Width::from(width),
    };
    let cases = u32::from_le_bytes([a, b, c, d]);
    Ok((number == section).then_some((cases, shape)))
}

// ---- what is printed: to the writer, piece by piece, since a `Display` would need a type for what is only printed here

// The name in the header, a field of 16 bytes that is filled up with blanks.
fn say_next_name(input: &mut impl Read, output: &mut impl Write) -> io::Result<()> {
    let mut name = [b' '; 16];
    read_full(input, &mut name)?;
    output.write_all(&name)
}

// The bits of a word, in as many digits as its width holds.
fn say_bits(output: &mut impl Write, bits: u64, shape: Shape) -> io::Result<()> {
    match shape.width {
        Width::Four => say_hex(output, bits, 8),
        Width::Eight => say_hex(output, bits, 16),
    }
}

// What stands on a function's line after its name.
fn say_tally(output: &mut impl Write, t: Tally, cases: u32, shape: Shape) -> io::Result<()> {
    write!(output, " {cases} cases, {} differences", t.differ)?;
    if let Some(d) = t.first {
        write!(output, "; the first at")?;
        for word in d.operands.iter().take(usize::from(shape.operands)) {
            write!(output, " ")?;
            say_bits(output, *word, shape)?;
        }
        write!(output, " is ")?;
        say_bits(output, d.got, shape)?;
        write!(output, ", expected ")?;
        say_bits(output, d.expected, shape)?;
        write!(output, ", answer {}", d.index)?;
    }
    writeln!(output)
}

// ---- the comparison

// The tally after the next case, which has at least one answer. `None` where the case does not come whole.
fn after_case<A: Into<Answers>, F: Fn(Operands) -> A>(
    input: &mut impl Read,
    shape: Shape,
    tally: Tally,
    answer: &F,
) -> io::Result<Option<Tally>>
    requires room { (tally.answers + 256 < 2 ^ 64) × (tally.differ ≤ tally.answers) }
    requires callable { F.IsAlwaysCallable answer.now }
    ensures { IfOk result (λ o. IfSome o (λ t. (t.answers ≡ tally.answers + max shape.answers 1) × (t.differ ≤ t.answers))) }
{
    let Some(operands) = next_operands(input, shape)? else {
        return Ok(None);
    };
    let answers: Answers = answer(operands).into();
    let mut after = tally;
    for index in 0..shape.answers.max(1) {
        let Some(expected) = next_word(input, shape)? else {
            return Ok(None);
        };
        after.count(index, operands, expected, answers.at(index));
    }
    Ok(Some(after))
}

// The tally of a section's cases, of which there must be one: `None` where they do not come whole.
pub fn tally_of<A: Into<Answers>, F: Fn(Operands) -> A>(
    input: &mut impl Read,
    cases: u32,
    shape: Shape,
    answer: &F,
) -> io::Result<Option<Tally>>
    requires { F.IsAlwaysCallable answer.now }
    ensures { IfOk result (λ o. IfSome o (λ t. (t.answers ≡ cases * max shape.answers 1) × (t.differ ≤ t.answers))) }
{
    if cases == 0 {
        // The first case is looked for all the same: where its reading fails, that is what ends the run.
        next_operands(input, shape)?;
        return Ok(None);
    }
    let mut tally = Tally::NONE;
    for _ in 0..cases {
        let Some(after) = after_case(input, shape, tally, answer)? else {
            return Ok(None);
        };
        tally = after;
    }
    Ok(Some(tally))
}

// A file that is read section by section, and where a line is printed for each.
#[derive(Drop)]
pub struct AnswerFile<R, W> {
    pub input: R,
    pub output: W,
    // The number of the next section. There is none after a section that did not come whole.
    pub next: Option<u8>,
}

impl<R: Read, W: Write> AnswerFile<R, W> {
    pub fn new(input: R, output: W) -> AnswerFile<R, W>
        ensures { (result.input ≡ input) × (result.output ≡ output) × (result.next ≡ Some 0) }
    {
        AnswerFile {
            input,
            output,
            next: Some(0),
        }
    }

    // Holds a closure, which is given a case's words, to the answers of the next section. After one that did not come whole no more is read.
    pub fn section<A: Into<Answers>, F: Fn(Operands) -> A>(&mut self, answer: F) -> io::Result<()>
        requires { F.IsAlwaysCallable answer }
        ensures order { IfOk result (λ _. IfSome self.new.next (λ k. (j : ℕ) × (self.old.next ≡ Some j) × (k ≡ j + 1))) }
        ensures ended { self.old.next ≡ None → self.new.input ≡ self.old.input }
    {
        let Some(number) = self.next else {
            return Ok(());
        };
        self.next = None;
        let Some((cases, shape)) = next_head(&mut self.input, number)? else {
            return writeln!(self.output, "section {number} is not in the input");
        };
        say_next_name(&mut self.input, &mut self.output)?;
        let Some(tally) = tally_of(&mut self.input, cases, shape, &answer)? else {
            return writeln!(self.output, " is cut short");
        };
        say_tally(&mut self.output, tally, cases, shape)?;
        self.next = number.checked_add(1);
        Ok(())
    }

    // Prints the rest, and returns whether the file is the sections that were asked for and no more.
    pub fn end(&mut self) -> io::Result<bool>
        ensures { IfOk result (λ whole. whole ≡ true → IsSome self.old.next × IsAtEnd (R.remaining self.new.input)) }
    {
        if self.next.is_none() {
            self.output.flush()?;
            return Ok(false);
        }
        let more = next_bytes::<_, 1>(&mut self.input)?.is_some();
        if more {
            writeln!(self.output, "the input goes on after the last section")?;
        }
        self.output.flush()?;
        Ok(!more)
    }
}

// ---- the words of a case: the bits of a float, or a number

// The low half of a word. The mask leaves what a u32 holds, so that `as` is proved to lose nothing: no `From` makes a u32 of a
// u64, and `try_from` would give a `Result` whose error cannot be.
pub fn low(word: u64) -> u32
    ensures { result ≡ word % 4294967296 }
{
    (word & 0xffff_ffff) as u32
}

pub fn single(word: u64) -> f32
    ensures { result ≡ Ieee.of_bits binary32 (word % 4294967296) }
{
    float::from_bits(low(word))
}

pub fn of_single(x: f32) -> u64
    ensures { result ≡ Ieee.to_bits binary32 x }
{
    u64::from(float::to_bits(x))
}

pub fn double(word: u64) -> f64
    ensures { result ≡ Ieee.of_bits binary64 word }
{
    std::num::f64_from_bits_with_nan(word)
}
