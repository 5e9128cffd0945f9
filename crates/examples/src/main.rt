// The examples from the bench that document 01 does not mark (P), through the public calls: a line for each call, with what came back.
#![tactic(auto)]

use rules::{EXHALED_WORDS, Refusal, Slot, Switch};
use std::io;
use switch::Crossbar;

// The words of tables: of the most records that one may have, of one more and of a few.
const MOST: usize = rules::MOST_RECORDS * rules::RECORD_WORDS;

const ONE_MORE: usize = MOST + rules::RECORD_WORDS;

const ONE: usize = rules::RECORD_WORDS;

const TWO: usize = 2 * rules::RECORD_WORDS;

const THREE: usize = 3 * rules::RECORD_WORDS;

fn crossbar(ports: u32, speedup: u32, next: u32) -> Crossbar {
    let numbers = Switch {
        ports,
        speedup,
        next: Slot(next),
    };
    Crossbar { numbers }
}

// The line of a call: what was called, the number given, and the next slot.
fn say(
    rt: &impl Print,
    text: &str,
    answer: Result<(), Refusal>,
    crossbar: Crossbar,
) -> io::Result<()> {
    println!(rt;
        "{text}: {}, next slot {}",
        rules::number_of(answer),
        crossbar.numbers.next.0
    )
}

// A line for each output that emits, by rising output.
fn say_emitted(rt: &impl Print, exhaled: &[u32]) -> io::Result<()> {
    for (output, entry) in exhaled.chunks_exact(EXHALED_WORDS).enumerate() {
        if let [1, input, entered, tag] = *entry {
            println!(rt; "    output {output} emits input {input}, slot {entered}, tag {tag}")?;
        }
    }
    Ok(())
}

// A slot of a switch with N 2 and S 3, said with its emitted cells.
fn run(
    rt: &impl Print,
    crossbar: &mut Crossbar,
    text: &str,
    table: &mut [u32],
    arrivals: [u32; 4],
) -> io::Result<()> {
    let mut matches = [0u32; 6];
    let mut exhaled = [0u32; 2 * EXHALED_WORDS];
    let answer = crossbar.slot(table, &arrivals, &mut matches, &mut exhaled);
    say(rt, text, answer, *crossbar)?;
    say_emitted(rt, &exhaled)
}

// A fresh start, said; answers the switch to go on with.
fn start(
    rt: &impl Print,
    ports: u32,
    speedup: u32,
    text: &str,
    table: &mut [u32],
) -> io::Result<Crossbar> {
    let mut fresh = crossbar(ports, speedup, 9);
    let answer = fresh.fresh_start(table);
    say(rt, text, answer, fresh)?;
    Ok(fresh)
}

// A slot of such a switch at slot `next`.
fn run_from(
    rt: &impl Print,
    next: u32,
    text: &str,
    table: &mut [u32],
    arrivals: [u32; 4],
) -> io::Result<()> {
    run(rt, &mut crossbar(2, 3, next), text, table, arrivals)
}

fn sizes(rt: &impl Print) -> io::Result<()> {
    let mut most = [7u32; MOST];
    start(
        rt,
        16,
        8,
        "fresh start, N 16, S 8, table of 1,024",
        &mut most,
    )?;
    let mut more = [7u32; ONE_MORE];
    start(
        rt,
        16,
        8,
        "fresh start, N 16, S 8, table of 1,025",
        &mut more,
    )?;
    let mut ragged = [7u32; TWO + 2];
    start(rt, 16, 8, "fresh start, table of 12 words", &mut ragged)?;
    let mut none = [0u32; 0];
    start(rt, 16, 8, "fresh start, table of 0", &mut none)?;
    Ok(())
}

fn held_tables(rt: &impl Print) -> io::Result<()> {
    let quiet = [0; 4];
    let mut tagged = [0u32; ONE];
    tagged[ONE - 1] = 5;
    run_from(rt, 5, "a free record with tag 5", &mut tagged, quiet)?;
    let mut alike = [1, 0, 1, 4, 7, 1, 1, 1, 4, 7];
    run_from(
        rt,
        5,
        "equal slot, output and tag with different inputs",
        &mut alike,
        quiet,
    )?;
    let mut roomy = [1, 0, 0, 4, 7, 0, 0, 0, 0, 0];
    run_from(rt, 5, "arrival word 2, with room", &mut roomy, [2, 9, 0, 0])?;
    let mut full = [1, 0, 0, 4, 7, 1, 1, 0, 4, 8];
    run_from(rt, 5, "a full table, no arrivals", &mut full, quiet)?;
    run_from(
        rt,
        rules::LAST_SLOT.0,
        "the same with t spent",
        &mut full,
        quiet,
    )?;
    Ok(())
}

fn last_slots(rt: &impl Print) -> io::Result<()> {
    let mut table = [0u32; THREE];
    let mut crossbar = crossbar(2, 3, rules::LAST_SLOT.0 - 1);
    run(
        rt,
        &mut crossbar,
        "slot 4,294,967,294, two arrivals",
        &mut table,
        [1, 4294967295, 1, 0],
    )?;
    run(rt, &mut crossbar, "slot 4,294,967,295", &mut table, [0; 4])
}

fn small_tables(rt: &impl Print) -> io::Result<()> {
    let mut one = [7u32; ONE];
    let mut crossbar = start(rt, 2, 3, "fresh start, N 2, S 3, table of 1", &mut one)?;
    run(rt, &mut crossbar, "one arrival", &mut one, [1, 5, 0, 6])?;
    run(rt, &mut crossbar, "one more", &mut one, [0, 0, 2, 4])?;
    let mut two = [7u32; TWO];
    let mut crossbar = start(rt, 2, 3, "fresh start, N 2, S 3, table of 2", &mut two)?;
    run(
        rt,
        &mut crossbar,
        "two cells for output 0",
        &mut two,
        [1, 7, 1, 8],
    )?;
    run(rt, &mut crossbar, "two arrivals", &mut two, [1, 7, 1, 8])?;
    run(rt, &mut crossbar, "one arrival", &mut two, [0, 0, 2, 9])
}

// The same arrivals, so many times; answers what the last slot did.
fn repeat(
    crossbar: &mut Crossbar,
    turns: u32,
    table: &mut [u32],
    arrivals: &[u32],
    matches: &mut [u32],
    exhaled: &mut [u32],
) -> Result<(), Refusal> {
    let mut answer = Ok(());
    for _ in 0..turns {
        answer = crossbar.slot(table, arrivals, matches, exhaled);
    }
    answer
}

// 16 ports, speedup 8, 1,024 records: arrivals at every input for one output until there is no room.
fn full_size(rt: &impl Print) -> io::Result<()> {
    let mut table = [7u32; MOST];
    let mut matches = [0u32; 8 * rules::PORT_COUNT];
    let mut exhaled = [0u32; rules::PORT_COUNT * EXHALED_WORDS];
    let many = [16u32; rules::PORT_COUNT * rules::ARRIVAL_WORDS];
    let none = [0u32; rules::PORT_COUNT * rules::ARRIVAL_WORDS];
    let mut crossbar = crossbar(16, 8, 9);
    let _ = crossbar.fresh_start(&mut table);
    let answer = repeat(
        &mut crossbar,
        68,
        &mut table,
        &many,
        &mut matches,
        &mut exhaled,
    );
    say(
        rt,
        "N 16, S 8, table of 1,024, 16 arrivals for output 15 in each of 68 slots, the last",
        answer,
        crossbar,
    )?;
    let answer = crossbar.slot(&mut table, &many, &mut matches, &mut exhaled);
    say(rt, "16 more", answer, crossbar)?;
    let answer = crossbar.slot(&mut table, &none, &mut matches, &mut exhaled);
    say(rt, "no arrivals", answer, crossbar)
}

fn main(rt: HostRuntime) -> io::Result<()> {
    sizes(&rt)?;
    held_tables(&rt)?;
    last_slots(&rt)?;
    small_tables(&rt)?;
    full_size(&rt)
}
