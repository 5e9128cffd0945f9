// The switch: a fresh start and a slot. Its numbers go in whole and come back whole; the table and the lists are lent.
#![tactic(auto)]

ghost use Rattle.std.specs.Prelude.{◌≡◌};
ghost use Rattle.rules.specs.Cells.{cells_of};
ghost use Rattle.rules.specs.Answers.{lists, live};
ghost use Rattle.rules.specs.Calls.{raised, fresh_start, slot, slot_runs};
ghost use Rattle.ideal.specs.Calls.{Accepted};
ghost use Rattle.switch.specs.Calls.{SlotRan};

use checks::SlotLists;
use rules::{Refusal, Switch};

// The switch as its owner holds it.
#[derive(Clone, Copy, Debug, PartialEq, Eq)]
pub struct Crossbar {
    pub numbers: Switch,
}

impl Crossbar {
    // Starts afresh with the numbers' N and S: next slot 0, every record free. Refused with 1, 2 or 3, and then nothing changes.
    #[tactic(auto, unfolding(rules::specs::Calls::fresh_start, rules::specs::Answers::is_done))]
    pub fn fresh_start(&mut self, table: &mut [u32]) -> Result<(), Refusal>
        ensures { record { answer = result; numbers = self.new.numbers; table = table.new }
            ≡ fresh_start self.old.numbers table.old }
    {
        checks::check_start(self.numbers, table)?;
        table.fill(0);
        self.numbers = self.numbers.restarted();
        Ok(())
    }

    // Runs one slot: inhale, transfer phases, exhale. Refused with a number from 1 to 8, and then nothing changes.
    #[tactic(auto, using(crate::proofs::Outcomes::is_accepted), unfolding(rules::specs::Calls::slot, rules::specs::Calls::slot_runs, rules::specs::Answers::is_done))]
    pub fn slot(
        &mut self,
        table: &mut [u32],
        arrivals: &[u32],
        matches: &mut [u32],
        exhaled: &mut [u32],
    ) -> Result<(), Refusal>
        ensures { record {
          answer = result;
          numbers = self.new.numbers;
          table = table.new;
          matches = matches.new;
          exhaled = exhaled.new;
        }
            ≡ slot self.old.numbers table.old (lists arrivals.now matches.old exhaled.old) }
    {
        let given = SlotLists {
            arrivals,
            matches,
            exhaled,
        };
        checks::check_slot(self.numbers, table, given)?;
        self.numbers = run(self.numbers, table, arrivals, matches, exhaled);
        Ok(())
    }
}

// How many cells a table holds, waiting and ready.
pub fn held(table: &[u32]) -> usize
    ensures { result ≡ live (cells_of table.now) }
{
    table::live(table)
}

// An accepted slot; gives the numbers for the next one.
fn run(
    w: Switch,
    table: &mut [u32],
    arrivals: &[u32],
    matches: &mut [u32],
    exhaled: &mut [u32],
) -> Switch
    requires { Accepted w table.old (lists arrivals.now matches.old exhaled.old) }
    ensures lists { SlotRan w table.old arrivals.now table.new matches.new exhaled.new }
    ensures numbers { result ≡ raised w }
{
    buffers::inhale(table, arrivals, w.ports, w.next);
    let r = table::read(table);
    matching::transfers(table, matches, r, w.ports, w.speedup);
    buffers::exhale(table, exhaled, w.ports);
    w.raised()
}
