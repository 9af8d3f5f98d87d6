// Texts and numbers laid into a line, one after another, as far as there are places.
ghost use Rattle.std.specs.Prelude.{[], ◌∷◌};
ghost use Rattle.told.specs.Laying.{LaidOn};
ghost use Rattle.told.specs.StateLines.{amount_text, load_text, threshold_text, only_if};
ghost use Rattle.weight.specs.Places.{digits_of};

use weight::{Load, Micrograms, Threshold, is_under, size_of};

#[derive(Drop)]
pub struct Sheet<'a> {
    pub line: &'a mut [u8],
    // The next place.
    pub at: usize,
}

impl Sheet<'_> {
    fn put_byte(&mut self, byte: u8)
        ensures { LaidOn self.old (byte ∷ []) self.new }
    {
        if self.at < self.line.len() {
            self.line[self.at] = byte;
            self.at += 1;
        }
    }

    pub fn put(&mut self, text: &[u8])
        ensures { LaidOn self.old text.now self.new }
    {
        for byte in text {
            self.put_byte(*byte);
        }
    }

    pub fn put_if(&mut self, holds: bool, word: &[u8])
        ensures { LaidOn self.old (only_if holds word.now) self.new }
    {
        if holds {
            self.put(word);
        }
    }

    // The digits before the last one first.
    pub fn put_number(&mut self, n: u64)
        ensures { LaidOn self.old (digits_of n) self.new }
    {
        let last = b'0' + (n % 10) as u8;
        if n < 10 {
            self.put_byte(last);
        } else {
            self.put_number(n / 10);
            self.put_byte(last);
        }
    }

    pub fn put_amount(&mut self, amount: Micrograms)
        ensures { LaidOn self.old (amount_text amount) self.new }
    {
        self.put_if(is_under(amount, 0), b"-");
        self.put_number(size_of(amount));
    }

    pub fn put_load(&mut self, load: Load)
        ensures { LaidOn self.old (load_text load) self.new }
    {
        self.put_amount(Micrograms::from(load));
    }

    pub fn put_threshold(&mut self, threshold: Threshold)
        ensures { LaidOn self.old (threshold_text threshold) self.new }
    {
        if threshold.0 < 1 {
            self.put(b"-");
        } else {
            self.put_number(threshold.0 as u64);
        }
    }
}
