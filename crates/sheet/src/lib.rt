// The patch sheet: a header of 24 bytes, then records of 40 bytes. A record is read by its number.
#![tactic(auto)]

pub mod kinds;

ghost use Rattle.std.specs.Prelude.{◌≡◌, ◌+◌, ◌*◌, ◌≤◌, ◌<◌, length};
ghost use Rattle.sheet.specs.Bytes.{u16_at, u32_at, u64_at};
ghost use Rattle.sheet.specs.Record.{count_of, rate_of, length_of, path_of, kind_of, option_of, first_of, next_of, bits_of, number_of, seed_of, record_at};
ghost use Rattle.sheet.specs.Numbers.{Numbered, val_number};
ghost use Rattle.sheet.specs.Value.{adsr_in, value_as, value_of};

use kinds::{Entry, Kind, Val};
use std::marker::Model;

// Two, four and eight bytes as a number, the lowest first; by a place, since a part of the slice would be cut for one read.
pub fn half(s: &[u8], at: usize) -> u16
    requires { at + 2 ≤ length s.now }
    ensures { result ≡ u16_at s.now at }
{
    u16::from_le_bytes([s[at], s[at + 1]])
}

fn word(s: &[u8], at: usize) -> u32
    requires { at + 4 ≤ length s.now }
    ensures { result ≡ u32_at s.now at }
{
    u32::from_le_bytes([s[at], s[at + 1], s[at + 2], s[at + 3]])
}

pub fn double(s: &[u8], at: usize) -> u64
    requires { at + 8 ≤ length s.now }
    ensures { result ≡ u64_at s.now at }
{
    u64::from_le_bytes([
        s[at],
        s[at + 1],
        s[at + 2],
        s[at + 3],
        s[at + 4],
        s[at + 5],
        s[at + 6],
        s[at + 7],
    ])
}

// ---- the header, which has no type of its own as a record has: who has the sheet reads one number of it, and a header made for that would be
// opened at once

pub fn count(sheet: &[u8]) -> usize
    requires { 24 ≤ length sheet.now }
    ensures { (result ≡ count_of sheet.now) × (result < 65536) }
{
    usize::from(half(sheet, 0))
}

pub fn rate(sheet: &[u8]) -> u32
    requires { 24 ≤ length sheet.now }
    ensures { result ≡ rate_of sheet.now }
{
    word(sheet, 4)
}

// The length n of the sound, in samples.
pub fn length(sheet: &[u8]) -> u64
    requires { 24 ≤ length sheet.now }
    ensures { result ≡ length_of sheet.now }
{
    double(sheet, 8)
}

pub fn path(sheet: &[u8]) -> u64
    requires { 24 ≤ length sheet.now }
    ensures { result ≡ path_of sheet.now }
{
    double(sheet, 16)
}

// ---- the numbers of a value, in one of six cases

// Arp carries the record of its first step.
#[derive(Clone, Copy)]
pub enum Value {
    Const(f32),
    Slide(dsl::Slide),
    Lfo(dsl::Lfo),
    Arp { rate: f32, first: usize },
    EnvMod(dsl::EnvMod),
    Rand(dsl::Rand),
}

// ---- a record

// A record of a sheet. A clause sees its bytes from the first on, of which there are forty at least.
#[derive(Drop)]
pub struct Record<'a> {
    bytes: &'a [u8],
}

impl<'a> Model for Record<'a> {
    ghost use Rattle.std.specs.Prelude.{List, ℕ, ◌≤◌, length};

    ghost Value = { List ℕ };

    ghost view = { λ r. r.bytes.now };

    ghost invariant = { λ r. 40 ≤ length r.bytes.now };
}

impl<'a> Record<'a> {
    pub fn new(bytes: &'a [u8]) -> Record<'a>
        requires { 40 ≤ length bytes.now }
        ensures { result ≡ bytes.now }
    {
        Record { bytes }
    }

    // Record i of a sheet.
    pub fn at(sheet: &'a [u8], i: usize) -> Record<'a>
        requires { 24 + 40 * (i + 1) ≤ length sheet.now }
        ensures { result ≡ record_at sheet.now i }
    {
        Record::new(&sheet[24 + 40 * i..])
    }

    pub fn bytes(&self) -> &'a [u8]
        ensures { (result.now ≡ self.now) × (40 ≤ length self.now) }
    {
        self.bytes
    }

    // The entry of its kind, none where its number is no kind's.
    pub fn entry(&self) -> Option<Entry>
        ensures { Numbered (kind_of self.now) result }
    {
        Entry::numbered(self.bytes[0])
    }

    // The sheet's own number: which enum it is one of depends on the kind, and `From<u8>` of that enum makes it.
    pub fn option(&self) -> u8
        ensures { result ≡ option_of self.now }
    {
        self.bytes[1]
    }

    // The record that opens its chain; 0 for none, as the sheet has it (`layout::Links`). It and the next are two functions by their names: one of a place
    // would have each caller say 2 or 4. That both fit in two bytes is said, since `usize::from` does not hand it on.
    pub fn first(&self) -> usize
        ensures { (result ≡ first_of self.now) × (result < 65536) }
    {
        usize::from(half(self.bytes, 2))
    }

    // The record after it in its chain, 0 for none too.
    pub fn next(&self) -> usize
        ensures { (result ≡ next_of self.now) × (result < 65536) }
    {
        usize::from(half(self.bytes, 4))
    }

    // Number k by its bits, and as a float: every NaN pattern is NaN.
    pub fn bits(&self, k: usize) -> u32
        requires { k < 8 }
        ensures { result ≡ bits_of self.now k }
    {
        word(self.bytes, 8 + 4 * k)
    }

    pub fn number(&self, k: usize) -> f32
        requires { k < 8 }
        ensures { result ≡ number_of self.now k }
    {
        float::from_bits(self.bits(k))
    }

    // Rand's seed: the 8 bytes after its rate.
    pub fn seed(&self) -> u64
        ensures { result ≡ seed_of self.now }
    {
        double(self.bytes, 20)
    }

    // An envelope is the first five numbers of its record.
    pub fn adsr(&self) -> dsl::Adsr
        ensures { result ≡ adsr_in self.now }
    {
        dsl::Adsr {
            a: self.number(0),
            d: self.number(1),
            s: self.number(2),
            r: self.number(3),
            punch: self.number(4),
        }
    }

    // A value's numbers, by its kind.
    #[tactic(auto, unfolding(crate::specs::Value::value_as, crate::specs::Numbers::val_number))]
    pub fn value(&self, val: Val) -> Value
        ensures { result ≡ value_as (val_number val) self.now }
    {
        match val {
            Val::Const => Value::Const(self.number(0)),
            Val::Slide => Value::Slide(dsl::Slide {
                from: self.number(0),
                to: self.number(1),
                secs: self.number(2),
                curve: dsl::Curve::from(self.option()),
            }),
            Val::Lfo => Value::Lfo(dsl::Lfo {
                shape: dsl::Shape::from(self.option()),
                rate: self.number(0),
                depth: self.number(1),
                center: self.number(2),
            }),
            Val::Arp => Value::Arp {
                rate: self.number(0),
                first: self.first(),
            },
            Val::EnvMod => Value::EnvMod(dsl::EnvMod {
                env: self.adsr(),
                from: self.number(5),
                to: self.number(6),
            }),
            Val::Rand => Value::Rand(dsl::Rand {
                from: self.number(0),
                to: self.number(1),
                rate: self.number(2),
            }),
        }
    }

    // The same by the record's own kind. One whose kind is no value's, or no kind's, is read as a Const, so that this asks nothing of a record.
    pub fn read_value(&self) -> Value
        ensures { result ≡ value_of self.now }
    {
        let Some(e) = self.entry() else {
            return self.value(Val::Const);
        };
        match e.kind {
            Kind::Val(val) => self.value(val),
            _ => self.value(Val::Const),
        }
    }
}
