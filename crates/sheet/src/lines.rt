// A line: its name, its fields after a space each, and a line feed.
ghost use Rattle.std.specs.Prelude.{ℕ, List};
ghost use Rattle.sheet.specs.Lines.{line_text, in_turn, Spells};

use std::convert::AsSlice;
use writers::{Field, Sink};

// Gives a line to a sink.
pub(crate) fn write_line<S: Sink>(sink: &mut S, name: &[u8], fields: &[Field])
    ensures { S.takes sink.old (line_text name.now fields.now) sink.new }
{
    sink.put(name);
    for field in fields {
        sink.put(b" ");
        sink.put_field(*field);
    }
    sink.put(b"\n");
}

// Gives the lines of 0, 1 and on, up to the last below `count`, to a sink; what has no fields has no line.
pub(crate) fn write_lines<S: Sink, L: AsSlice<Field> + Drop, F: Fn(usize) -> Option<L>>(
    sink: &mut S,
    name: &[u8],
    count: usize,
    fields_of: F,
)
    requires { F.IsAlwaysCallable fields_of }
    ensures { (text : ℕ → List ℕ) → Spells name.now L.items count (F.post fields_of) text
        → S.takes sink.old (in_turn text count) sink.new }
{
    // A `for`, since each step writes to the sink.
    for i in 0..count {
        if let Some(fields) = fields_of(i) {
            write_line(sink, name, fields.as_slice());
        }
    }
}
