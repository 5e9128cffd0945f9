// Numbers of a stretch that are listed: of its records, or of its blocks. A list has room for all of them, and one that is listed fits a byte.

ghost use Rattle.std.specs.Prelude.{◌≡◌, ℕ, ◌<◌, ◌≤◌, length, take};
ghost use Rattle.sift.specs.Lists.{most_numbers, Lists};

// `count` numbers in rising order. What stands behind them is left open.
#[derive(Clone, Copy, Debug)]
pub struct Numbers<const N: usize> {
    pub list: [u8; N],
    pub count: usize,
    ghost few: { count ≤ N },
}

impl<const N: usize> Numbers<N> {
    // No number of the list is read yet, so any will do. Zeros would be filled together with the count, and for a stretch that is long enough for a call.
    pub fn none() -> Numbers<N>
        ensures { result.count ≡ 0 }
    {
        Numbers {
            list: [u8::MAX; N],
            count: 0,
        }
    }

    pub fn as_slice(&self) -> &[u8]
        ensures { (result.now ≡ take self.now.count self.now.list) × (length result.now ≡ self.now.count) }
    {
        &self.list[..self.count]
    }

    // Forgets what is listed.
    pub fn clear(&mut self)
        ensures { self.new.count ≡ 0 }
    {
        self.count = 0;
    }

    // Lists those numbers from one to another that stay, behind those below. Each is written behind the last one that stays, and stays or is written
    // over by the next.
    pub fn list_from<F: Fn(usize) -> bool>(&mut self, from: usize, to: usize, stays: F)
        requires between { (from ≤ to) × (to ≤ N) × (to ≤ most_numbers) }
        requires room { self.old.count ≤ from }
        requires callable { (x : ℕ) → from ≤ x → x < to → F.pre stays x }
        ensures { Lists (F.post stays) from to self.old.list self.old.count self.new.list self.new.count }
    {
        let mut count = self.count;
        for x in from..to {
            self.list[count] = x as u8;
            count += usize::from(stays(x));
        }
        self.count = count;
    }
}
