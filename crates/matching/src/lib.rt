// A transfer phase: rounds of picking by the queues' heads, and the match words; and S phases by one reading.
#![tactic(auto)]

ghost use Rattle.std.specs.Prelude.{◌≡◌, ◌*◌, ◌<◌, length, IfSome};
ghost use Rattle.std.specs.Option.{option_map};
ghost use Rattle.ports.specs.Ports.{has, Added};
ghost use Rattle.rules.specs.Cells.{most_ports, cells_of};
ghost use Rattle.rules.specs.Phases.{phases};
ghost use Rattle.rules.specs.Phases.{matches as matches_of};
ghost use Rattle.words.specs.Words.{with_records};
ghost use Rattle.matching.specs.Ready.{LinedUp, Orderly, Ready, Takeable};
ghost use Rattle.matching.specs.Picking.{first_candidate, Takes, Picked};
ghost use Rattle.matching.specs.Rounds.{first_for, first_among, is_servable, Lows, Kept};
ghost use Rattle.matching.specs.Transfer.{Writable, Written, Transferred};

use ports::{PortSet, Tied};
use queues::{Pair, PairQueues};
use rules::{Cell, Input, Output, PORT_COUNT, READY};
use table::Reading;

// The taken inputs and the taken outputs are two sets of ports. By default none is taken.
#[derive(Clone, Copy, Debug, Default)]
struct Taken {
    inputs: PortSet,
    outputs: PortSet,
}

impl Taken {
    // The ports of a pair are taken too.
    fn with(self, pair: Pair) -> Taken
        ensures inputs { Added self.inputs.mask pair.input.0 result.inputs.mask }
        ensures outputs { Added self.outputs.mask pair.output.0 result.outputs.mask }
    {
        Taken {
            inputs: self.inputs.with(pair.input.0),
            outputs: self.outputs.with(pair.output.0),
        }
    }
}

// The record that a round finds, and the outputs that it looked at, for the next round.
#[derive(Clone, Copy, Debug)]
struct Candidate {
    record: usize,
    lows: PortSet,
}

// A table and its queues, lent for a look at the cells that can be picked.
#[derive(Clone, Copy, Debug)]
struct LinedTable<'a> {
    table: &'a [u32],
    queues: &'a PairQueues,
    ghost lined_up: { LinedUp (cells_of table.now) queues.now },
}

impl LinedTable<'_> {
    // Of the waiting cells for an output, at inputs that are not taken, the oldest: a look at the heads.
    fn first_for(self, inputs: PortSet, output: Output) -> Option<usize>
        requires { output.0 < most_ports }
        ensures { result ≡ first_for (has inputs.mask) output.0 (cells_of self.entry.table.now) }
    {
        let mut found = None;
        for i in self.queues.senders(output).except(inputs).iter() {
            let input = Input(i);
            let head = self.queues.head(Pair { input, output });
            found = table::older_finding(self.table, found, head);
        }
        found
    }

    // Whether there is such a cell.
    fn is_servable(self, inputs: PortSet, o: Output) -> bool
        requires { o.0 < most_ports }
        ensures { result ≡ is_servable (has inputs.mask) o.0 (cells_of self.entry.table.now) }
    {
        !self.queues.senders(o).except(inputs).is_empty()
    }

    // Of the outputs that are not taken and can be served, those with the lowest reading.
    fn lowest_readings(self, r: Reading, taken: Taken) -> PortSet
        ensures { Lows r.counts taken (cells_of self.entry.table.now) result.mask }
    {
        let mut lowest = Tied::none();
        for port in self.queues.wanted().except(taken.outputs).iter() {
            let o = Output(port);
            if self.is_servable(taken.inputs, o) {
                lowest = lowest.lowered(port, r.counts[usize::from(o)]);
            }
        }
        lowest.ports
    }

    // Of the waiting cells for some outputs, at inputs that are not taken, the oldest.
    fn first_among(self, inputs: PortSet, outputs: PortSet) -> Option<usize>
        ensures { result ≡ first_among (has inputs.mask) (has outputs.mask) (cells_of self.entry.table.now) }
    {
        let mut found = None;
        for o in outputs.iter() {
            found = table::older_finding(self.table, found, self.first_for(inputs, Output(o)));
        }
        found
    }

    // Of the waiting cells that conflict with none picked, the one that stands before the others: for an output with the lowest reading, the oldest.
    // The readings stay through a phase, and what can be served only gets less: the outputs that had the lowest reading have it as long as one of
    // them can be served. Only where none can are others looked for.
    fn first_candidate(self, r: Reading, taken: Taken, lows: PortSet) -> Option<Candidate>
        requires { Kept r.counts taken (cells_of self.table.now) lows.mask }
        ensures first { option_map (λ c. c.record) result ≡ first_candidate r.counts (has taken.inputs.mask) (has taken.outputs.mask) (cells_of self.entry.table.now) }
        ensures kept_next { IfSome result (λ c. Kept r.counts taken (cells_of self.entry.table.now) c.lows.mask) }
    {
        let kept = lows.except(taken.outputs);
        if let Some(record) = self.first_among(taken.inputs, kept) {
            return Some(Candidate { record, lows: kept });
        }
        let next = self.lowest_readings(r, taken);
        let record = self.first_among(taken.inputs, next)?;
        Some(Candidate { record, lows: next })
    }
}

// The match of a phase as its rounds build it: the ports that it takes, and for each taken output the input that is served.
#[derive(Clone, Copy, Debug)]
struct Match {
    taken: Taken,
    served: [u32; PORT_COUNT],
}

impl Match {
    // The match words: 1 + the input served at each taken output, lowest first; 0 at the others.
    fn write_words(&self, words: &mut [u32])
        requires { Writable self.now.taken.outputs.mask self.now.served (length words.old) }
        ensures words_len_unchanged { length words.new ≡ length words.old }
        ensures written { Written (has self.now.taken.outputs.mask) self.now.served words.new }
    {
        words.fill(0);
        for o in self.taken.outputs.iter() {
            let at = usize::from(Output(o));
            words[at] = self.served[at] + 1;
        }
    }
}

// A table lent for the phases of a slot, with its queues. They are lent too: put in here they would be copied.
#[derive(Debug, Drop)]
struct Phases<'a> {
    table: &'a mut [u32],
    queues: &'a mut PairQueues,
}

impl Phases<'_> {
    // Lent on for a look at the heads.
    fn lined_table(&self) -> LinedTable<'_>
        requires { LinedUp (cells_of self.now.table.now) self.now.queues.now }
        ensures { result.table.now ≡ self.now.table.now }
    {
        LinedTable {
            table: self.table,
            queues: self.queues,
        }
    }

    // The cell of record k becomes ready and takes its ports, and its input is kept at its output; the head of its pair is found anew.
    fn take(&mut self, picked: &mut Match, k: usize)
        requires { Takeable self.old.table.now self.old.queues.now k }
        ensures same_table { self.new.table.ghost_name ≡ self.old.table.ghost_name }
        ensures takes { Takes self.old.table.now picked.old.taken picked.old.served k self.new.table.now self.new.queues.now picked.new.taken picked.new.served }
    {
        let table = &mut *self.table;
        let Cell { input, output, .. } = table::cell_at(table, k);
        let pair = Pair { input, output };
        table::set_place(table, k, READY);
        self.queues.renew(table, pair);
        picked.served[usize::from(output)] = input.0;
        picked.taken = picked.taken.with(pair);
    }

    // Rounds of picking: the first candidate is taken, again and again, until there is none.
    fn pick(&mut self, r: Reading, ports: u32) -> Match
        requires { Ready ports self.old.table.now self.old.queues.now }
        ensures same_table { self.new.table.ghost_name ≡ self.old.table.ghost_name }
        ensures picked { Picked ports r.counts self.old.table.now self.new.table.now self.new.queues.now result.taken result.served }
    {
        let mut picked = Match {
            taken: Taken::default(),
            served: [0; PORT_COUNT],
        };
        let mut lows = PortSet::default();
        'rounds: for _ in 0..ports {
            let Some(candidate) = self.lined_table().first_candidate(r, picked.taken, lows) else {
                break 'rounds;
            };
            lows = candidate.lows;
            self.take(&mut picked, candidate.record);
        }
        picked
    }

    // One transfer phase, with its match words; answers how many cells moved.
    fn transfer(&mut self, words: &mut [u32], r: Reading, ports: u32) -> u32
        requires ready { Ready ports self.old.table.now self.old.queues.now }
        requires words_len { length words.old ≡ ports }
        ensures same_table { self.new.table.ghost_name ≡ self.old.table.ghost_name }
        ensures transferred { Transferred ports r.counts self.old.table.now self.new.table.now self.new.queues.now words.new result }
    {
        let picked = self.pick(r, ports);
        picked.write_words(words);
        picked.taken.outputs.len()
    }
}

// The S transfer phases of a slot by one reading, with all match words. The waiting cells are lined up once, for all of them. Where a phase moves
// nothing, those after it move nothing either.
pub fn transfers(table: &mut [u32], matches: &mut [u32], r: Reading, ports: u32, speedup: u32)
    requires orderly { Orderly ports table.old }
    requires matches_len { length matches.old ≡ speedup * ports }
    ensures table_after { table.new ≡ with_records table.old (phases ports r.counts (cells_of table.old) speedup) }
    ensures matches_after { matches.new ≡ matches_of ports r.counts (cells_of table.old) speedup }
{
    let mut queues = PairQueues::empty();
    queues.line_up(table);
    let mut phases = Phases {
        table,
        queues: &mut queues,
    };
    let mut at = 0;
    for _ in 0..speedup {
        let end = at + ports as usize;
        let moved = phases.transfer(&mut matches[at..end], r, ports);
        if moved == 0 {
            matches[end..].fill(0);
            return;
        }
        at = end;
    }
}
