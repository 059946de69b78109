// Sinks take a text a piece at a time. So a sheet is said once, and the sink that it is given to counts it or lays it on
// a buffer.
ghost use Rattle.std.specs.Prelude.{◌≡◌, ◌≤◌, ◌-◌, List, ℕ, length, take, drop};
ghost use Rattle.writers.specs.Laid.{Wrote};
ghost use Rattle.writers.specs.Laws.{SinkLaws};
ghost use Rattle.writers.specs.Text.{field_text};

use crate::{Field, field_length, write_bytes, write_field};

// Not std's `fmt::Write`: its calls may answer an error, and a sheet that fits is written without fail.
pub trait Sink {
    // The sink before, a text, and the sink that took it.
    ghost takes: { Self → List ℕ → Self → Type 0 };

    fn put(&mut self, text: &[u8])
        ensures { takes self.old text.now self.new };

    fn put_field(&mut self, field: Field)
        ensures { takes self.old (field_text field) self.new };

    // Pieces make a text: what each `impl` must prove.
    ghost laws: { SinkLaws takes };
}

// Counts the bytes of a text; a count past the largest number stays there.
#[derive(Clone, Copy, Default)]
pub struct Counter {
    pub count: usize,
}

impl Sink for Counter {
    ghost use Rattle.writers.specs.Counting.{counted, counted_laws};

    ghost takes = { counted };

    ghost laws = { counted_laws };

    fn put(&mut self, text: &[u8]) {
        self.count = self.count.saturating_add(text.len());
    }

    fn put_field(&mut self, field: Field) {
        self.count = self.count.saturating_add(field_length(field));
    }
}

// Lays a text on a buffer, each piece after the one before; a piece that what is left of the buffer is too short for is
// left out.
#[derive(Drop)]
pub struct Cursor<'a> {
    buffer: &'a mut [u8],
    place: usize,
    ghost within: { place ≤ length buffer.now },
}

impl<'a> Cursor<'a> {
    // At the start of the buffer.
    pub fn new(buffer: &'a mut [u8]) -> Cursor<'a>
        ensures same_buffer { result.buffer.ghost_name ≡ buffer.entry.ghost_name }
        ensures bytes { result.buffer.now ≡ buffer.old }
        ensures place { result.place ≡ 0 }
    {
        Cursor { buffer, place: 0 }
    }
}

impl Sink for Cursor<'_> {
    ghost use Rattle.writers.specs.Laying.{laid_on, laid_on_laws, written, rest};

    ghost takes = { laid_on };

    ghost laws = { laid_on_laws };

    fn put(&mut self, text: &[u8])
        ensures taken { laid_on self.old text.now self.new }
        ensures before { take self.old.place self.new.buffer.now ≡ written self.old }
        ensures wrote { Wrote text.now (rest self.old) (self.new.place - self.old.place) (drop self.old.place self.new.buffer.now) }
    {
        self.place += write_bytes(&mut self.buffer[self.place..], text);
    }

    // Each field is written into its own part of the sheet, which starts where the text so far ends.
    fn put_field(&mut self, field: Field)
        ensures taken { laid_on self.old (field_text field) self.new }
        ensures before { take self.old.place self.new.buffer.now ≡ written self.old }
        ensures wrote { Wrote (field_text field) (rest self.old) (self.new.place - self.old.place) (drop self.old.place self.new.buffer.now) }
    {
        self.place += write_field(&mut self.buffer[self.place..], field);
    }
}
