// Which number a call gives, worked out before anything is written. The rows of the table of numbers stand in groups, each with a function of its
// own, in the order of the table: sizes, table, lists, arrivals, clock, room. A group may rely on those above it, which were passed.
#![tactic(auto)]

ghost use Rattle.std.specs.Prelude.{◌≡◌, [], ◌∷◌, ◌*◌, ◌≤◌, length, ltb, IfOk};
ghost use Rattle.laws.specs.Count.{any};
ghost use Rattle.rules.specs.Cells.{most_ports, most_speedup};
ghost use Rattle.rules.specs.Answers.{arrival_width, outside, arriving, first_word, lengths_fit, row, first_of, fresh_answer, slot_answer};
ghost use Rattle.rules.specs.Answers.{size_checks, table_checks, list_checks, arrival_checks, clock_checks, room_checks};
ghost use Rattle.checks.specs.Checks.{size_unfit, lists_of};

use rules::{
    ARRIVAL_WORDS, EXHALED_WORDS, LAST_SLOT, MOST_PORTS, MOST_RECORDS, MOST_SPEEDUP, Refusal,
    Switch,
};

// The lists that a slot is called with, lent for a look: in contracts `Lists` of the rules.
#[derive(Clone, Copy, Debug)]
pub struct SlotLists<'a> {
    pub arrivals: &'a [u32],
    pub matches: &'a [u32],
    pub exhaled: &'a [u32],
}

impl SlotLists<'_> {
    // Whether they have the lengths that go with the numbers.
    #[tactic(auto, unfolding(rules::specs::Answers::lengths_fit))]
    fn fit(self, w: Switch) -> bool
        requires { (w.ports ≤ most_ports) × (w.speedup ≤ most_speedup) }
        ensures { result ≡ lengths_fit w (lists_of self.entry) }
    {
        let n = w.ports as usize;
        let s = w.speedup as usize;
        self.arrivals.len() == n * ARRIVAL_WORDS
            && self.matches.len() == s * n
            && self.exhaled.len() == n * EXHALED_WORDS
    }
}

// The answer of a fresh start: its sizes are all that is checked.
#[tactic(auto, unfolding(rules::specs::Answers::fresh_answer))]
pub fn check_start(w: Switch, table: &[u32]) -> Result<(), Refusal>
    ensures { result ≡ fresh_answer w table.now }
{
    check_sizes(w, table)
}

// The answer of a slot.
#[tactic(auto, unfolding(rules::specs::Answers::slot_answer, rules::specs::Answers::first_of))]
pub fn check_slot(w: Switch, table: &[u32], given: SlotLists<'_>) -> Result<(), Refusal>
    ensures { result ≡ slot_answer w table.now (lists_of given.entry) }
{
    check_sizes(w, table)?;
    check_table(w, table)?;
    check_lists(w, given)?;
    check_arrivals(w, given.arrivals)?;
    check_clock(w)?;
    check_room(w, table, given.arrivals)
}

// Rows 1 to 3.
#[tactic(auto, unfolding(rules::specs::Answers::first_of, rules::specs::Answers::outside, crate::specs::Checks::size_unfit))]
fn check_sizes(w: Switch, table: &[u32]) -> Result<(), Refusal>
    ensures answer { result ≡ first_of (size_checks w table.now) }
    ensures small { IfOk result (λ _. (w.ports ≤ most_ports) × (w.speedup ≤ most_speedup)) }
{
    refuse_if(is_outside(w.ports, MOST_PORTS), Refusal::BadPorts)?;
    refuse_if(is_outside(w.speedup, MOST_SPEEDUP), Refusal::BadSpeedup)?;
    refuse_if(is_size_unfit(table), Refusal::BadRecords)
}

// Row 4.
fn check_table(w: Switch, table: &[u32]) -> Result<(), Refusal>
    ensures { result ≡ first_of (table_checks w table.now) }
{
    refuse_if(!fit_check::is_fit(table, w.ports, w.next), Refusal::Unfit)
}

// Row 5.
#[tactic(auto, unfolding(rules::specs::Answers::first_of, rules::specs::Answers::lengths_fit))]
fn check_lists(w: Switch, given: SlotLists<'_>) -> Result<(), Refusal>
    requires { (w.ports ≤ most_ports) × (w.speedup ≤ most_speedup) }
    ensures answer { result ≡ first_of (list_checks w (lists_of given.entry)) }
    ensures long { IfOk result (λ _. w.ports * arrival_width ≤ length given.entry.arrivals.now) }
{
    refuse_if(!given.fit(w), Refusal::BadLists)
}

// Row 6.
fn check_arrivals(w: Switch, arrivals: &[u32]) -> Result<(), Refusal>
    requires { w.ports * arrival_width ≤ length arrivals.now }
    ensures { result ≡ first_of (arrival_checks w arrivals.now) }
{
    refuse_if(has_unknown(arrivals, w.ports), Refusal::NoSuchOutput)
}

// Row 7.
fn check_clock(w: Switch) -> Result<(), Refusal>
    ensures { result ≡ first_of (clock_checks w) }
{
    refuse_if(w.next == LAST_SLOT, Refusal::ClockSpent)
}

// Row 8.
fn check_room(w: Switch, table: &[u32], arrivals: &[u32]) -> Result<(), Refusal>
    requires { w.ports * arrival_width ≤ length arrivals.now }
    ensures { result ≡ first_of (room_checks w table.now arrivals.now) }
{
    let needed = table::live(table) + count_arriving(arrivals, w.ports);
    refuse_if(table::record_count(table) < needed, Refusal::NoRoom)
}

// A row by itself: its refusal where it holds, and otherwise done.
#[tactic(auto, unfolding(rules::specs::Answers::first_of))]
fn refuse_if(holds: bool, refusal: Refusal) -> Result<(), Refusal>
    ensures { result ≡ first_of (row holds refusal ∷ []) }
{
    if holds { Err(refusal) } else { Ok(()) }
}

#[tactic(auto, unfolding(rules::specs::Answers::outside))]
fn is_outside(x: u32, most: u32) -> bool
    ensures { result ≡ outside x most }
{
    !(1..=most).contains(&x)
}

// No whole records, none, or too many.
#[tactic(auto, unfolding(crate::specs::Checks::size_unfit, rules::specs::Answers::outside))]
fn is_size_unfit(table: &[u32]) -> bool
    ensures { result ≡ size_unfit table.now }
{
    !table::is_whole(table) || !(1..=MOST_RECORDS).contains(&table::record_count(table))
}

// Some first word of an arrival is above N.
fn has_unknown(arrivals: &[u32], ports: u32) -> bool
    requires { ports * arrival_width ≤ length arrivals.now }
    ensures { result ≡ any (λ i. ltb ports (first_word arrivals.now i)) ports }
{
    (0..ports as usize).any(|i| ports < arrivals[i * ARRIVAL_WORDS])
}

// How many cells arrive.
#[tactic(auto, unfolding(rules::specs::Answers::arriving))]
fn count_arriving(arrivals: &[u32], ports: u32) -> usize
    requires { ports * arrival_width ≤ length arrivals.now }
    ensures { result ≡ arriving ports arrivals.now }
{
    let mut found = 0;
    for i in 0..ports as usize {
        if arrivals[i * ARRIVAL_WORDS] != 0 {
            found += 1;
        }
    }
    found
}
