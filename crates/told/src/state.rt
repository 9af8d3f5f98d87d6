// The line that `state` prints: what the module holds and no answer shows. One method a word of it.
ghost use Rattle.std.specs.Prelude.{◌≡◌, ◌++◌};
ghost use Rattle.told.specs.Laying.{LaidOn, laid_over, laid_count};
ghost use Rattle.told.specs.StateLines.{zero_word, tare_word, sample_word, waits_for, waits_word, change_text, repeats_word};
ghost use Rattle.told.specs.StateLines.{shows_word, line_word, unit_word, state_line};
ghost use Rattle.weight.specs.Places.{digits_of};

use crate::words::Sheet;
use line::Line;
use model::{Display, Mode, Pending, Sending, State, Waiting, Weighing};
use text::unit_text;
use weight::{Load, Tare, Threshold, WeightUnit};

impl Sheet<'_> {
    fn put_zero(&mut self, zero: Load)
        ensures { LaidOn self.old (zero_word zero) self.new }
    {
        self.put(b" zero ");
        self.put_load(zero);
    }

    fn put_tare(&mut self, tare: Tare)
        ensures { LaidOn self.old (tare_word tare) self.new }
    {
        self.put(b" tare ");
        self.put_number(tare.0 as u64);
    }

    // `s` or `u` and the load, as in the script.
    fn put_sample(&mut self, weighing: Weighing)
        ensures { LaidOn self.old (sample_word weighing) self.new }
    {
        if !weighing.sampled {
            self.put(b" sample none");
        } else if weighing.stable {
            self.put(b" sample s ");
            self.put_load(weighing.load);
        } else {
            self.put(b" sample u ");
            self.put_load(weighing.load);
        }
    }

    fn put_waiting(&mut self, waiting: Waiting, threshold: Threshold)
        ensures { LaidOn self.old (waits_word waiting threshold) self.new }
    {
        self.put(b" waits ");
        match waiting.pending {
            None => self.put(b"none"),
            Some(pending) => self.put_pending(pending, waiting.unstable, threshold),
        }
    }

    fn put_pending(&mut self, pending: Pending, unstable: u32, threshold: Threshold)
        ensures { LaidOn self.old (waits_for (Some pending) unstable threshold) self.new }
    {
        match pending {
            Pending::Weigh => self.put_waiting_for(b"S ", unstable),
            Pending::Zero => self.put_waiting_for(b"Z ", unstable),
            Pending::Tare => self.put_waiting_for(b"T ", unstable),
            Pending::Change => self.put_waiting_change(unstable, threshold),
        }
    }

    fn put_waiting_for(&mut self, command: &[u8], unstable: u32)
        ensures { LaidOn self.old (command.now ++ digits_of unstable) self.new }
    {
        self.put(command);
        self.put_number(unstable as u64);
    }

    fn put_waiting_change(&mut self, unstable: u32, threshold: Threshold)
        ensures { LaidOn self.old (waits_for (Some Pending.Change) unstable threshold) self.new }
    {
        self.put_waiting_for(b"SR ", unstable);
        self.put(b" ");
        self.put_threshold(threshold);
    }

    fn put_sending(&mut self, sending: Sending)
        ensures { LaidOn self.old (repeats_word sending) self.new }
    {
        self.put(b" repeats ");
        match sending.mode {
            Mode::Off => self.put(b"no"),
            Mode::EachSample => self.put(b"SIR"),
            Mode::OnChange => self.put_change(sending),
        }
    }

    fn put_change(&mut self, sending: Sending)
        ensures { LaidOn self.old (change_text sending) self.new }
    {
        self.put(b"SR ");
        self.put_amount(sending.last);
        self.put(b" ");
        self.put_threshold(sending.threshold);
        self.put_if(sending.owed, b" owed");
        self.put_if(sending.outside, b" out");
    }

    fn put_display(&mut self, display: Display)
        ensures { LaidOn self.old (shows_word display) self.new }
    {
        if display.shown {
            self.put(b" shows \"");
            self.put(display.text.as_bytes());
            self.put(b"\"");
        } else {
            self.put(b" shows weight");
        }
    }

    // A CR that is kept apart is not counted.
    fn put_line(&mut self, received: Line)
        ensures { LaidOn self.old (line_word received) self.new }
    {
        self.put(b" line ");
        self.put_number(received.len as u64);
        self.put_if(received.over, b" over");
        self.put_if(received.faulty, b" faulty");
        self.put_if(received.returned, b" cr");
    }

    fn put_unit(&mut self, unit: WeightUnit)
        ensures { LaidOn self.old (unit_word unit) self.new }
    {
        self.put(b" unit ");
        self.put(unit_text(unit));
    }
}

// The line of a state, as far as there are places: the longest has 206 bytes. Answers how many it has.
pub fn put_state(state: State, line: &mut [u8]) -> usize
    ensures value { result ≡ laid_count (state_line state) line.old }
    ensures line_after { line.new ≡ laid_over (state_line state) line.old }
{
    let mut sheet = Sheet { line, at: 0 };
    sheet.put(b"state");
    sheet.put_zero(state.weighing.zero);
    sheet.put_tare(state.weighing.tare);
    sheet.put_sample(state.weighing);
    sheet.put_waiting(state.waiting, state.sending.threshold);
    sheet.put_sending(state.sending);
    sheet.put_display(state.display);
    sheet.put_line(state.line);
    sheet.put_unit(state.weighing.unit);
    sheet.put(b"\r\n");
    sheet.at
}
