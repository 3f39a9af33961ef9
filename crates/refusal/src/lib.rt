// Why a call of the player is refused. The number that a caller in C gets is the place of the reason in the order of checks.
#![tactic(auto)]

ghost use Rattle.std.specs.Prelude.{◌≡◌, ◌≤◌};
ghost use Rattle.refusal.specs.Refusal.{number_of, answer_of};

use std::fmt;

#[derive(Clone, Copy, Debug, PartialEq, Eq)]
pub enum Refusal {
    Length = 1,
    Header,
    Record,
    Link,
    Linked,
    Chain,
    Depth,
    Memory,
    State,
    Position,
}

impl Refusal {
    pub fn number(self) -> u8
        ensures number { result ≡ number_of self }
        ensures bound { (1 ≤ result) × (result ≤ 10) }
    {
        self as u8
    }
}

impl fmt::Display for Refusal {
    fn fmt<W: fmt::Write>(&self, f: &mut fmt::Formatter<W>) -> fmt::Result {
        let reason = match self {
            Refusal::Length => "the length is not 24 bytes and 40 for each of 1 to 256 records",
            Refusal::Header => {
                "the sample rate is outside 8000 to 192000, or header bytes 2 and 3 are not zero"
            }
            Refusal::Record => {
                "a record has an unknown kind, an option its kind lacks, or a byte set that its kind does not use"
            }
            Refusal::Link => {
                "a link leads neither to a later record nor to none, or record 0 has a next"
            }
            Refusal::Linked => "a record other than 0 is linked by no link or by more than one",
            Refusal::Chain => {
                "a chain has the wrong kinds or the wrong number of records, or record 0 is not a node"
            }
            Refusal::Depth => "nodes nest deeper than 16",
            Refusal::Memory =>
                "the cells, the registers or the scratch lent are fewer than the voice needs",
            Refusal::State => "the position, a ring place or a Rand phase is out of range",
            Refusal::Position => "too few positions are left",
        };
        f.write_str(reason)
    }
}

// The answer of a call by its number: 0 where it was accepted.
pub fn answer<T: Drop>(outcome: Result<T, Refusal>) -> u8
    ensures { result ≡ answer_of outcome }
{
    match outcome {
        Ok(_) => 0,
        Err(refusal) => refusal.number(),
    }
}
