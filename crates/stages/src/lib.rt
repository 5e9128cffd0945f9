// The stages of an accepted slot as calls of their own, in the order of `switch`: what the benchmark times one by one. They are not for a caller of
// the switch, since each asks for what the stages before it have seen to, and nothing checks that of a caller in another language.
#![tactic(auto)]

ghost use Rattle.std.specs.Prelude.{◌≡◌, ◌*◌, ◌<◌, ◌≤◌, length, get_or};
ghost use Rattle.rules.specs.Answers.{arrival_width, exhaled_width, live};
ghost use Rattle.rules.specs.Cells.{most_ports, most_records, slot_of, records, cells_of, fit};
ghost use Rattle.rules.specs.Phases.{inhale, readings, phases, exhale, exhaled};
ghost use Rattle.rules.specs.Phases.{matches as matches_of};
ghost use Rattle.words.specs.Words.{changed};
ghost use Rattle.matching.specs.Ready.{Orderly};

use rules::Slot;

#[unsafe(no_mangle)]
pub extern "C" fn treikwater_stage_fit(table: &[u32], ports: u32, next: u32) -> bool
    ensures { result ≡ fit ports (slot_of next) (cells_of table.now) }
{
    fit_check::is_fit(table, ports, Slot(next))
}

#[unsafe(no_mangle)]
pub extern "C" fn treikwater_stage_live(table: &[u32]) -> usize
    ensures { result ≡ live (cells_of table.now) }
{
    table::live(table)
}

#[unsafe(no_mangle)]
pub extern "C" fn treikwater_stage_inhale(
    table: &mut [u32],
    arrivals: &[u32],
    ports: u32,
    next: u32,
)
    requires { ports * arrival_width ≤ length arrivals.now }
    ensures { table.new ≡ changed (inhale ports (slot_of next) arrivals.now) table.old }
{
    buffers::inhale(table, arrivals, ports, Slot(next));
}

// The reading of one output; all are read.
#[unsafe(no_mangle)]
pub extern "C" fn treikwater_stage_reading(table: &[u32], output: u32) -> u32
    requires table_bound { records table.now ≤ most_records }
    requires output_lt_most_ports { output < most_ports }
    ensures { result ≡ get_or (readings (cells_of table.now)) output 0 }
{
    let r = table::read(table);
    r.counts[output as usize]
}

// The reading and the phases.
#[unsafe(no_mangle)]
pub extern "C" fn treikwater_stage_phases(
    table: &mut [u32],
    matches: &mut [u32],
    ports: u32,
    speedup: u32,
)
    requires orderly { Orderly ports table.old }
    requires matches_len { length matches.old ≡ speedup * ports }
    ensures table_after { table.new ≡ changed (λ cs. phases ports (readings cs) cs speedup) table.old }
    ensures matches_after { matches.new ≡ matches_of ports (readings (cells_of table.old)) (cells_of table.old) speedup }
{
    let r = table::read(table);
    matching::transfers(table, matches, r, ports, speedup);
}

#[unsafe(no_mangle)]
pub extern "C" fn treikwater_stage_exhale(table: &mut [u32], list: &mut [u32], ports: u32)
    requires { length list.old ≡ ports * exhaled_width }
    ensures table_after { table.new ≡ changed (exhale ports) table.old }
    ensures list_after { list.new ≡ exhaled ports (cells_of table.old) }
{
    buffers::exhale(table, list, ports);
}
