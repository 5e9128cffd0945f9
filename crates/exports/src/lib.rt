// What another language calls: a fresh start and a slot on lent words. The switch's numbers N, S and t are three words of their own list.
// Each contract is one equation with `specs/Exports.antt`, which settles the number given back and every word of every list.
#![tactic(auto)]

ghost use Rattle.std.specs.Prelude.{◌≡◌, ◌≢◌, length, IfNone, IfSome};
ghost use Rattle.rules.specs.Answers.{lists};
ghost use Rattle.exports.specs.Exports.{number_width, switch_of, numbers_of, start_of_words, slot_of_words};

use rules::{Slot, Switch};
use switch::Crossbar;

// What is given back for a list of numbers of another length; the switch gives no such number.
const NO_NUMBERS: u32 = 255;

// The switch with the numbers of three words, if they are three.
fn read_numbers(numbers: &[u32]) -> Option<Crossbar>
    ensures missing { IfNone result (length numbers.now ≢ number_width) }
    ensures found { IfSome result (λ c. (length numbers.now ≡ number_width) × (c.numbers ≡ switch_of numbers.now)) }
{
    let [ports, speedup, next] = *numbers else {
        return None;
    };
    let numbers = Switch {
        ports,
        speedup,
        next: Slot(next),
    };
    Some(Crossbar { numbers })
}

fn write_numbers(numbers: &mut [u32], w: Switch)
    requires { length numbers.old ≡ number_width }
    ensures { numbers.new ≡ numbers_of w }
{
    numbers.copy_from_slice(&[w.ports, w.speedup, w.next.0]);
}

// A fresh start: 0, or 1, 2 or 3, and 255 for a list of numbers that has not three words. Not done, it changes nothing.
#[tactic(auto, using(crate::specs::Exports::started_numbered, crate::specs::Exports::started_unnumbered))]
#[unsafe(no_mangle)]
pub extern "C" fn treikwater_fresh_start(numbers: &mut [u32], table: &mut [u32]) -> u32
    ensures { record { number = result; numbers = numbers.new; table = table.new }
        ≡ start_of_words numbers.old table.old }
{
    let Some(mut crossbar) = read_numbers(numbers) else {
        return NO_NUMBERS;
    };
    let answer = crossbar.fresh_start(table);
    write_numbers(numbers, crossbar.numbers);
    rules::number_of(answer)
}

// One slot: 0, or a number from 1 to 8, and 255 as above. Not done, it changes nothing.
#[tactic(auto, using(crate::specs::Exports::slot_numbered, crate::specs::Exports::slot_unnumbered_lem))]
#[unsafe(no_mangle)]
pub extern "C" fn treikwater_slot(
    numbers: &mut [u32],
    table: &mut [u32],
    arrivals: &[u32],
    matches: &mut [u32],
    exhaled: &mut [u32],
) -> u32
    ensures { record {
      number = result;
      numbers = numbers.new;
      table = table.new;
      matches = matches.new;
      exhaled = exhaled.new;
    }
        ≡ slot_of_words numbers.old table.old (lists arrivals.now matches.old exhaled.old) }
{
    let Some(mut crossbar) = read_numbers(numbers) else {
        return NO_NUMBERS;
    };
    let answer = crossbar.slot(table, arrivals, matches, exhaled);
    write_numbers(numbers, crossbar.numbers);
    rules::number_of(answer)
}
