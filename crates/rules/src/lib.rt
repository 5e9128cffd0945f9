// The kinds of number of the report, a cell, the switch's numbers and why a call is refused. The rules themselves stand in specs/.
#![tactic(auto)]

ghost use Rattle.std.specs.Prelude.{◌≡◌, ◌<◌, Err};
ghost use Rattle.rules.specs.Answers.{number_of};
ghost use Rattle.rules.specs.Calls.{restarted, raised};
ghost use Rattle.rules.specs.Cells.{is_free, is_waiting, is_ready, is_ready_for, older};

// The largest numbers; `most_ports` and the others of specs/Cells.antt are the same for contracts.
pub const MOST_PORTS: u32 = 16;

pub const MOST_SPEEDUP: u32 = 8;

pub const MOST_RECORDS: usize = 1_024;

// How many words a record has, an arrival and an exhaled entry: `width`, `arrival_width` and `exhaled_width` of specs/.
pub const RECORD_WORDS: usize = 5;

pub const ARRIVAL_WORDS: usize = 2;

pub const EXHALED_WORDS: usize = 4;

// The length of a list with a place for each port.
pub const PORT_COUNT: usize = MOST_PORTS as usize;

// The places of a record: free, waiting (input unit) and ready (output unit). A word that was lent may be any other number, and the table is unfit then.
pub const FREE: u32 = 0;

pub const WAITING: u32 = 1;

pub const READY: u32 = 2;

// "An input number is never compared with an output number; slot numbers are a third kind": three types.
#[derive(Clone, Copy, Debug, Default, PartialEq, Eq, PartialOrd, Ord)]
pub struct Input(pub u32);

#[derive(Clone, Copy, Debug, Default, PartialEq, Eq, PartialOrd, Ord)]
pub struct Output(pub u32);

#[derive(Clone, Copy, Debug, Default, PartialEq, Eq, PartialOrd, Ord)]
pub struct Slot(pub u32);

// The last slot that there is: `last_slot`.
pub const LAST_SLOT: Slot = Slot(4_294_967_295);

// The place of a port in a list that has one for each.
impl From<Input> for usize {
    ghost from_gives = { λ i k. k ≡ i.0 };

    fn from(i: Input) -> usize {
        i.0 as usize
    }
}

impl From<Output> for usize {
    ghost from_gives = { λ o k. k ≡ o.0 };

    fn from(o: Output) -> usize {
        o.0 as usize
    }
}

// A record of the cell table. The default one is free, all zeros.
#[derive(Clone, Copy, Debug, Default, PartialEq, Eq)]
pub struct Cell {
    pub place: u32,
    pub input: Input,
    pub output: Output,
    pub entered: Slot,
    pub tag: u32,
}

impl Cell {
    #[tactic(auto, unfolding(crate::specs::Cells::is_free))]
    pub fn is_free(self) -> bool
        ensures { result ≡ is_free self }
    {
        self.place == FREE
    }

    #[tactic(auto, unfolding(crate::specs::Cells::is_waiting))]
    pub fn is_waiting(self) -> bool
        ensures { result ≡ is_waiting self }
    {
        self.place == WAITING
    }

    #[tactic(auto, unfolding(crate::specs::Cells::is_ready))]
    pub fn is_ready(self) -> bool
        ensures { result ≡ is_ready self }
    {
        self.place == READY
    }

    // Whether the cell is in the unit of output o.
    #[tactic(auto, unfolding(crate::specs::Cells::is_ready_for, crate::specs::Cells::is_ready, crate::specs::Cells::same_output))]
    pub fn is_ready_for(self, o: Output) -> bool
        ensures { result ≡ is_ready_for o self }
    {
        self.is_ready() && self.output == o
    }

    // Whether the cell stands before another by slot and then input.
    #[tactic(auto, using(std::proofs::lemmas::Bool::Decides::nat_tests), unfolding(crate::specs::Cells::older, laws::specs::Order::lower))]
    pub fn is_older_than(self, other: Cell) -> bool
        ensures { result ≡ older self other }
    {
        if self.entered < other.entered {
            return true;
        }
        if other.entered < self.entered {
            return false;
        }
        self.input < other.input
    }
}

// The switch's numbers N, S and t.
#[derive(Clone, Copy, Debug, PartialEq, Eq)]
pub struct Switch {
    pub ports: u32,
    pub speedup: u32,
    pub next: Slot,
}

impl Switch {
    // The numbers at a fresh start: next slot 0.
    pub fn restarted(self) -> Switch
        ensures { result ≡ restarted self }
    {
        Switch {
            next: Slot(0),
            ..self
        }
    }

    // The numbers after an accepted slot: the next slot raised by 1, nothing else changed.
    pub fn raised(self) -> Switch
        requires { self.next.0 < 4294967295 }
        ensures { result ≡ raised self }
    {
        Switch {
            next: Slot(self.next.0 + 1),
            ..self
        }
    }
}

// Why a call is refused, in the order of the checks. Each has the paper's number, which `number_of` of specs/Answers.antt gives; 0 means done.
#[derive(Clone, Copy, Debug, PartialEq, Eq)]
pub enum Refusal {
    BadPorts = 1,
    BadSpeedup,
    BadRecords,
    Unfit,
    BadLists,
    NoSuchOutput,
    ClockSpent,
    NoRoom,
}

impl Refusal {
    // The paper's number.
    pub fn number(self) -> u32
        ensures { result ≡ number_of (Err self) }
    {
        self as u32
    }
}

// The paper's number of what a call answers.
pub fn number_of(answer: Result<(), Refusal>) -> u32
    ensures { result ≡ number_of answer }
{
    match answer {
        Ok(()) => 0,
        Err(refusal) => refusal.number(),
    }
}
