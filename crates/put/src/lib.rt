// Bytes and parts of a text at a place of a lent output, for who writes a text piece by piece: as many of them as the output still has room for. Each call
// answers the place that it reached, and tests the room once. A writer that has measured its text loses nothing.
#![tactic(auto)]

ghost use Rattle.std.specs.Prelude.{cond, [], ◌∷◌};
ghost use Rattle.text.specs.Answers.{span_of};
ghost use Rattle.text.specs.Spans.{shown};
ghost use Rattle.put.specs.Put.{Puts};
ghost use Rattle.put.specs.Inside.Room.{Room};

use text::Span;

// Bytes that have room.
fn lay(out: &mut [u8], at: usize, from: &[u8]) -> usize
    requires { Room out.old at from.now }
    ensures { Puts out.old at from.now out.new result }
{
    // Byte by byte, and not as one copy: most of what is put are a few bytes, for which the compiler's loop is faster (a writer took 1.4 times as long).
    for k in 0..from.len() {
        out[at + k] = from[k];
    }
    at + from.len()
}

// As many of them as have room.
fn copy_some(out: &mut [u8], at: usize, from: &[u8]) -> usize
    ensures { Puts out.old at from.now out.new result }
{
    if out.len() < at {
        return at;
    }
    let room = out.len() - at;
    if room < from.len() {
        return lay(out, at, &from[..room]);
    }
    lay(out, at, from)
}

// Bytes as they are. Where all have room, and they always have where the text was measured, one test tells so: the rest stands apart, so that this is small enough
// for the compiler to put in place.
pub fn copy(out: &mut [u8], at: usize, from: &[u8]) -> usize
    ensures { Puts out.old at from.now out.new result }
{
    if at <= out.len() {
        if from.len() <= out.len() - at {
            return lay(out, at, from);
        }
    }
    copy_some(out, at, from)
}

// The same, or nothing.
pub fn copy_where(out: &mut [u8], at: usize, from: &[u8], there: bool) -> usize
    ensures { Puts out.old at (cond there from.now []) out.new result }
{
    if there {
        return copy(out, at, from);
    }
    at
}

// One byte.
pub fn byte(out: &mut [u8], at: usize, b: u8) -> usize
    ensures { Puts out.old at (b ∷ []) out.new result }
{
    if at < out.len() {
        out[at] = b;
        return at + 1;
    }
    at
}

// Of a span that need not lie within the text the bytes past its end are none.
fn shown_some(out: &mut [u8], at: usize, text: &[u8], s: Span) -> usize
    ensures { Puts out.old at (shown text.now (span_of s)) out.new result }
{
    let start = s.start;
    let end = s.end;
    if end < start {
        return at;
    }
    if end <= text.len() {
        return copy(out, at, &text[start..end]);
    }
    if text.len() < start {
        return at;
    }
    copy(out, at, &text[start..])
}

// The bytes that a span of the text shows. The span lies within the text and all of it has room where the text was measured; what else may be stands apart, as in
// `copy`.
pub fn shown(out: &mut [u8], at: usize, text: &[u8], s: Span) -> usize
    ensures { Puts out.old at (shown text.now (span_of s)) out.new result }
{
    let start = s.start;
    let end = s.end;
    if end < start {
        return shown_some(out, at, text, s);
    }
    if text.len() < end {
        return shown_some(out, at, text, s);
    }
    if out.len() < at {
        return shown_some(out, at, text, s);
    }
    if out.len() - at < end - start {
        return shown_some(out, at, text, s);
    }
    lay(out, at, &text[start..end])
}
