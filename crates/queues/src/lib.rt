// The waiting cells by pair of input and output. Of a pair only its head, the oldest cell, can be picked: a round of picking looks at heads and not
// at the table, and where a head is picked only its own pair is looked into anew.
#![tactic(auto)]

ghost use Rattle.std.specs.Prelude.{◌≡◌, ◌<◌};
ghost use Rattle.laws.specs.Least.{Below};
ghost use Rattle.laws.specs.First.{first_found};
ghost use Rattle.rules.specs.Cells.{most_ports, most_records, records, cells_of};
ghost use Rattle.table.specs.Table.{older_at};
ghost use Rattle.queues.specs.Layout.{pair, name_of, named, head_word, senders, wanted, no_queues};
ghost use Rattle.queues.specs.Layout.{pair as pair_number};
ghost use Rattle.queues.specs.Queues.{Ports, head_of, waiting_at, linked, head_set, joined, lined_up, Lineable, Joinable, Stale};

use ports::PortSet;
use rules::{Cell, Input, MOST_RECORDS, Output, PORT_COUNT};

// How many pairs of input and output there are.
const PAIRS: usize = PORT_COUNT * PORT_COUNT;

// An input and an output that there are: the cells from the one to the other are one queue.
#[derive(Clone, Copy, Debug, PartialEq, Eq)]
pub struct Pair {
    pub input: Input,
    pub output: Output,
    ghost ports: { Ports input output },
}

impl Pair {
    // Where the words of a pair stand.
    fn number(self) -> usize
        ensures { result ≡ pair self.input.0 self.output.0 }
    {
        usize::from(self.input) * PORT_COUNT + usize::from(self.output)
    }
}

// For each pair its head, and the top of its chain, its highest record; for each record the next lower one of its chain; for each output the inputs
// that have a cell for it; and the outputs with such an input, and maybe others. A record is named by its number + 1, and 0 names none. The methods
// say what they do with any words, so these are open.
#[derive(Debug, Drop)]
pub struct PairQueues {
    pub heads: [u16; PAIRS],
    pub tops: [u16; PAIRS],
    pub links: [u16; MOST_RECORDS],
    pub senders: [PortSet; PORT_COUNT],
    pub wanted: PortSet,
}

// The word that names what was found.
fn name_of(found: Option<usize>) -> u16
    requires { Below most_records found }
    ensures { result ≡ name_of found }
{
    match found {
        Some(k) => (k + 1) as u16,
        None => 0,
    }
}

// The record that a word names.
fn named(word: u16) -> Option<usize>
    ensures { result ≡ named word }
{
    let k = word.checked_sub(1)?;
    Some(usize::from(k))
}

impl PairQueues {
    // No record has joined yet.
    pub fn empty() -> PairQueues
        ensures { result ≡ no_queues }
    {
        PairQueues {
            heads: [0; PAIRS],
            tops: [0; PAIRS],
            links: [0; MOST_RECORDS],
            senders: [PortSet::default(); PORT_COUNT],
            wanted: PortSet::default(),
        }
    }

    // Empty queues become those of a table, where they stand: handed back they would be copied.
    #[tactic(auto, using(crate::specs::Lining::lining))]
    pub fn line_up(&mut self, table: &[u32])
        requires lineable { Lineable table.now }
        requires empty { self.old ≡ no_queues }
        ensures { self.new ≡ lined_up (cells_of table.now) }
    {
        for k in sift::records_with(table, sift::WAITING) {
            self.join(table, k);
        }
    }

    // The head of a pair.
    pub fn head(&self, pair: Pair) -> Option<usize>
        ensures { result ≡ named (head_word self.now pair.input.0 pair.output.0) }
    {
        named(self.heads[pair.number()])
    }

    // The inputs that have a cell for an output.
    pub fn senders(&self, o: Output) -> PortSet
        requires { o.0 < most_ports }
        ensures { result.mask ≡ senders self.now o.0 }
    {
        self.senders[usize::from(o)]
    }

    // Every output that a cell waits for, and maybe others.
    pub fn wanted(&self) -> PortSet
        ensures { result.mask ≡ wanted self.now }
    {
        self.wanted
    }

    // Another head, or none, for a pair. The set of inputs has this one added, or taken out where there is no head.
    #[tactic(auto, unfolding(crate::specs::Queues::head_set))]
    fn set_head(&mut self, pair: Pair, found: Option<usize>)
        requires { Below most_records found }
        ensures { self.new ≡ head_set self.old pair.input.0 pair.output.0 found }
    {
        self.heads[pair.number()] = name_of(found);
        let inputs = &mut self.senders[usize::from(pair.output)];
        if found.is_some() {
            *inputs = inputs.with(pair.input.0);
            self.wanted = self.wanted.with(pair.output.0);
        } else {
            *inputs = inputs.except(PortSet::of(pair.input.0));
        }
    }

    // Record k becomes the top of the chain of a pair.
    #[tactic(auto, unfolding(crate::specs::Queues::linked))]
    fn link(&mut self, pair: Pair, k: usize)
        requires { k < most_records }
        ensures { self.new ≡ linked self.old (pair_number pair.input.0 pair.output.0) k }
    {
        let p = pair.number();
        self.links[k] = self.tops[p];
        self.tops[p] = name_of(Some(k));
    }

    // The oldest waiting cell of a pair, looked for along its chain, which ends: each link leads to a lower record.
    #[tactic(auto, using(crate::specs::Chains::down_inside))]
    fn look(&self, table: &[u32], pair: Pair) -> Option<usize>
        requires { Stale table.now self.now pair.input pair.output }
        ensures { result ≡ head_of (cells_of table.now) pair.input.0 pair.output.0 }
    {
        let mut found = None;
        let mut word = self.tops[pair.number()];
        while let Some(k) = named(word) {
            found = older_of(table, found, k);
            word = self.links[k];
        }
        found
    }

    // The head of a pair is found anew; the others stand.
    pub fn renew(&mut self, table: &[u32], pair: Pair)
        requires { Stale table.now self.old pair.input pair.output }
        ensures { self.new ≡ head_set self.old pair.input.0 pair.output.0 (head_of (cells_of table.now) pair.input.0 pair.output.0) }
    {
        let found = self.look(table, pair);
        self.set_head(pair, found);
    }

    // Record k joins the queues of the records below it, where it waits.
    #[tactic(auto, using(crate::specs::Lining::joining))]
    fn join(&mut self, table: &[u32], k: usize)
        requires { Joinable table.now k self.old }
        ensures { self.new ≡ joined (cells_of table.now) k self.old }
    {
        let c = table::cell_at(table, k);
        if !c.is_waiting() {
            return;
        }
        let Cell { input, output, .. } = c;
        let pair = Pair { input, output };
        self.link(pair, k);
        let older = table::older_finding(table, self.head(pair), Some(k));
        self.set_head(pair, older);
    }
}

// Of what was found and record k, where that waits, the older.
#[tactic(auto, unfolding(crate::specs::Queues::waiting_at))]
fn older_of(table: &[u32], found: Option<usize>, k: usize) -> Option<usize>
    requires k_bound { k < records table.now }
    requires below { Below (records table.now) found }
    ensures { result ≡ first_found (older_at (cells_of table.now)) found (waiting_at (cells_of table.now) k) }
{
    if !table::cell_at(table, k).is_waiting() {
        return found;
    }
    table::older_finding(table, found, Some(k))
}
