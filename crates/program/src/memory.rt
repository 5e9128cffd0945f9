// What a caller lends to the program.

ghost use Rattle.std.specs.Prelude.{◌≡◌, length};
ghost use Rattle.program.specs.Lent.{lent_table_words, arrival_words};

// The words of the switch's table, and those that a slot line is read into.
#[derive(Debug, Drop)]
pub struct Memory<'a> {
    pub table: &'a mut [u32],
    pub arrivals: &'a mut [u32],
    ghost table_long: { length table.now ≡ lent_table_words },
    ghost line_long: { length arrivals.now ≡ arrival_words },
}
