// The kinds of records as enums, one inside another: what plays a kind in a way of its own matches on its own enum alone.
ghost use Rattle.std.specs.Prelude.{◌≡◌};
ghost use Rattle.sheet.specs.Kinds.{row_of, is_node, is_processor};
ghost use Rattle.sheet.specs.Checks.{allows, counts};
ghost use Rattle.sheet.specs.Numbers.{kind_number, Numbered, chain_of};

// What makes samples of nothing.
#[derive(Clone, Copy, PartialEq, Eq)]
pub enum Src {
    Sine,
    Square,
    Sawtooth,
    Triangle,
    Fm,
    Super,
    Impact,
    Env,
    Noise,
    Dust,
}

// What joins the samples of any number of nodes.
#[derive(Clone, Copy, PartialEq, Eq)]
pub enum Fold {
    Mix,
    Mul,
}

// The filters of the cookbook.
#[derive(Clone, Copy, PartialEq, Eq)]
pub enum Biquad {
    Lowpass,
    Highpass,
    Bandpass,
    Notch,
    Peak,
    Lowshelf,
    Highshelf,
}

// What changes the samples that it is given, the filters apart.
#[derive(Clone, Copy, PartialEq, Eq)]
pub enum Proc {
    Gain,
    Delay,
    Reverb,
    Modal,
    Drive,
    Tremolo,
    Chorus,
    Compress,
}

// What moves a number of a node.
#[derive(Clone, Copy, PartialEq, Eq)]
pub enum Val {
    Const,
    Slide,
    Lfo,
    Arp,
    EnvMod,
    Rand,
}

#[derive(Clone, Copy, PartialEq, Eq)]
pub enum Kind {
    Src(Src),
    Fold(Fold),
    Chain,
    Biquad(Biquad),
    Proc(Proc),
    Val(Val),
    Mode,
    Step,
}

// What the chain of a record is made of.
#[derive(Clone, Copy, PartialEq, Eq)]
pub enum Chain {
    Empty,
    Values(u8),
    Nodes,
    Modes,
    Steps,
}

// What check 3 asks of a kind: how many options it has, and how many of its eight numbers it uses.
#[derive(Clone, Copy)]
pub struct Entry {
    pub kind: Kind,
    pub options: u8,
    pub numbers: u8,
}

macro_rules! entry {
    ($kind:expr, $options:literal, $numbers:literal) => {
        Some(Entry {
            kind: $kind,
            options: $options,
            numbers: $numbers,
        })
    };
}

// By the number that a kind has in a sheet, none where it is no kind's. Methods of the kind that match on it would take 24 instructions
// more a record, and each fill reads all.
static KINDS: [Option<Entry>; 53] = [
    None,
    entry!(Kind::Src(Src::Sine), 1, 0),
    entry!(Kind::Src(Src::Square), 1, 0),
    entry!(Kind::Src(Src::Sawtooth), 1, 0),
    entry!(Kind::Src(Src::Triangle), 1, 0),
    entry!(Kind::Src(Src::Fm), 1, 1),
    entry!(Kind::Src(Src::Super), 2, 2),
    entry!(Kind::Src(Src::Impact), 1, 2),
    entry!(Kind::Src(Src::Env), 1, 5),
    entry!(Kind::Src(Src::Noise), 3, 0),
    entry!(Kind::Src(Src::Dust), 1, 2),
    entry!(Kind::Fold(Fold::Mix), 1, 0),
    entry!(Kind::Fold(Fold::Mul), 1, 0),
    entry!(Kind::Chain, 1, 0),
    None,
    None,
    None,
    None,
    None,
    None,
    None,
    entry!(Kind::Proc(Proc::Gain), 1, 0),
    entry!(Kind::Biquad(Biquad::Lowpass), 1, 1),
    entry!(Kind::Biquad(Biquad::Highpass), 1, 1),
    entry!(Kind::Biquad(Biquad::Bandpass), 1, 1),
    entry!(Kind::Biquad(Biquad::Notch), 1, 1),
    entry!(Kind::Biquad(Biquad::Peak), 1, 2),
    entry!(Kind::Biquad(Biquad::Lowshelf), 1, 1),
    entry!(Kind::Biquad(Biquad::Highshelf), 1, 1),
    entry!(Kind::Proc(Proc::Delay), 1, 2),
    entry!(Kind::Proc(Proc::Reverb), 1, 2),
    entry!(Kind::Proc(Proc::Modal), 1, 1),
    entry!(Kind::Proc(Proc::Drive), 6, 0),
    entry!(Kind::Proc(Proc::Tremolo), 1, 2),
    entry!(Kind::Proc(Proc::Chorus), 1, 3),
    entry!(Kind::Proc(Proc::Compress), 1, 5),
    None,
    None,
    None,
    None,
    None,
    entry!(Kind::Val(Val::Const), 1, 1),
    entry!(Kind::Val(Val::Slide), 2, 3),
    entry!(Kind::Val(Val::Lfo), 4, 3),
    entry!(Kind::Val(Val::Arp), 1, 1),
    entry!(Kind::Val(Val::EnvMod), 1, 7),
    entry!(Kind::Val(Val::Rand), 1, 5),
    None,
    None,
    None,
    None,
    entry!(Kind::Mode, 1, 3),
    entry!(Kind::Step, 1, 1),
];

impl Entry {
    // The entry of a number of the sheet; many numbers are no kind's. As a `TryFrom` it would need an error that says no more than none.
    pub fn numbered(k: u8) -> Option<Entry>
        ensures { Numbered k result }
    {
        let i = usize::from(k);
        if i < KINDS.len() { KINDS[i] } else { None }
    }
}

impl Kind {
    #[tactic(auto, unfolding(crate::specs::Numbers::src_number, crate::specs::Numbers::fold_number, crate::specs::Numbers::biquad_number, crate::specs::Numbers::proc_number, crate::specs::Numbers::val_number, crate::specs::Numbers::kind_number, crate::specs::Kinds::lookup, crate::specs::Numbers::chain_of))]
    pub fn chain(self) -> Chain
        ensures { chain_of result ≡ (row_of (kind_number self)).chain }
    {
        match self {
            Kind::Src(Src::Square | Src::Fm) => Chain::Values(2),
            Kind::Src(Src::Impact | Src::Env | Src::Noise | Src::Dust) => Chain::Empty,
            Kind::Src(_) | Kind::Biquad(_) => Chain::Values(1),
            Kind::Fold(_) | Kind::Chain => Chain::Nodes,
            Kind::Proc(Proc::Gain | Proc::Drive) => Chain::Values(1),
            Kind::Proc(Proc::Modal) => Chain::Modes,
            Kind::Val(Val::Arp) => Chain::Steps,
            _ => Chain::Empty,
        }
    }

    #[tactic(auto, unfolding(crate::specs::Numbers::src_number, crate::specs::Numbers::fold_number, crate::specs::Numbers::biquad_number, crate::specs::Numbers::proc_number, crate::specs::Numbers::val_number, crate::specs::Numbers::kind_number))]
    pub fn is_processor(self) -> bool
        ensures { result ≡ is_processor (kind_number self) }
    {
        matches!(self, Kind::Biquad(_) | Kind::Proc(_))
    }

    #[tactic(auto, unfolding(crate::specs::Numbers::src_number, crate::specs::Numbers::fold_number, crate::specs::Numbers::biquad_number, crate::specs::Numbers::proc_number, crate::specs::Numbers::val_number, crate::specs::Numbers::kind_number))]
    pub fn is_node(self) -> bool
        ensures { result ≡ is_node (kind_number self) }
    {
        !matches!(self, Kind::Val(_) | Kind::Mode | Kind::Step)
    }
}

impl Chain {
    // Whether a record of the kind may stand in it.
    #[tactic(auto, unfolding(crate::specs::Checks::allows, crate::specs::Numbers::chain_of, crate::specs::Numbers::src_number, crate::specs::Numbers::fold_number, crate::specs::Numbers::biquad_number, crate::specs::Numbers::proc_number, crate::specs::Numbers::val_number, crate::specs::Numbers::kind_number))]
    pub fn allows(self, kind: Kind) -> bool
        ensures { result ≡ allows (chain_of self) (kind_number kind) }
    {
        match self {
            Chain::Empty => false,
            Chain::Values(_) => matches!(kind, Kind::Val(_)),
            Chain::Nodes => kind.is_node(),
            Chain::Modes => kind == Kind::Mode,
            Chain::Steps => kind == Kind::Step,
        }
    }

    // Whether it may have n records, where each may stand in it.
    #[tactic(auto, unfolding(crate::specs::Checks::counts, crate::specs::Numbers::chain_of))]
    pub fn counts(self, n: usize) -> bool
        ensures { result ≡ counts (chain_of self) n }
    {
        match self {
            Chain::Values(m) => n == usize::from(m),
            _ => true,
        }
    }
}
