// The byte window of a clip: which part of its resource the clip's range names (RFC 8216, 4.3.2.2). Every text, table and number is answered.
// The text and the clip table stay two parameters, as the calls in C and the rules have them.
#![tactic(auto)]

ghost use Rattle.std.specs.Prelude.{◌≡◌};
ghost use Rattle.std.proofs.Math.Option.{some};
ghost use Rattle.tables.specs.Refusal.{given};
ghost use Rattle.window.specs.Window as rule;
ghost use Rattle.window.specs.After as after;
ghost use Rattle.window.specs.Inside.Chain as inside;
ghost use Rattle.window.specs.Answers.{answer_of, front_of};

use tables::{Refusal, layout, record};
use text::Span;

// The largest end of a window. Past it a sum of 64 bits has no room, and `checked_add` gives none.
pub const LARGEST_END: u64 = u64::MAX;

// The first byte, and the place after the last.
#[derive(Clone, Copy)]
pub struct Range {
    pub start: u64,
    pub end: u64,
}

// A refusal, at place 0; else a range, or none, whose start and end are 0.
pub type Window = Result<Option<Range>, Refusal>;

// Rule 9 of one clip: its flags are below their limit, and its URI lies within the text.
pub fn clip_keeps(text: &[u8], words: &[u64], clip: usize) -> bool
    ensures { result ≡ rule.clip_keeps text.now words.now clip }
{
    let flags = record::clip_word(words, clip, layout::FLAGS);
    let start = record::clip_word(words, clip, layout::URI_START);
    let end = record::clip_word(words, clip, layout::URI_END);
    (flags < layout::FLAG_LIMIT) & scan::span_fits(text, start, end)
}

// Rule 9 of the window. The count comes first: past the table's end every word is 0, so that a count that does not fit would be walked to its end.
fn keeps_rule(text: &[u8], words: &[u64], clips: usize) -> bool
    ensures { result ≡ rule.keeps_rule text.now words.now clips }
{
    if !record::clips_fit(words, clips) {
        return false;
    }
    for k in 0..clips {
        if !clip_keeps(text, words, k) {
            return false;
        }
    }
    true
}

// What every call that gives windows weighs first: 1, 9.
pub fn over_clips(text: &[u8], words: &[u64], clips: usize) -> Result<(), Refusal>
    ensures { front_of result ≡ rule.over_clips text.now words.now clips (given tt) }
{
    if layout::TEXT_LIMIT < text.len() {
        return Err(Refusal::TextTooLong);
    }
    if !keeps_rule(text, words, clips) {
        return Err(Refusal::BrokenTable);
    }
    Ok(())
}

// Whether two clips have the same URI, byte for byte, wherever in the text it stands.
fn same_resource(text: &[u8], words: &[u64], a: usize, b: usize) -> bool
    ensures { result ≡ rule.same_resource text.now words.now a b }
{
    let from = record::clip_word(words, a, layout::URI_START);
    let to = record::clip_word(words, a, layout::URI_END);
    if !scan::span_fits(text, from, to) {
        return false;
    }
    let start = record::clip_word(words, b, layout::URI_START);
    let end = record::clip_word(words, b, layout::URI_END);
    if !scan::span_fits(text, start, end) {
        return false;
    }
    let first = start as usize;
    let last = end as usize;
    let uri = Span {
        start: from as usize,
        end: to as usize,
    };
    scan::spells(text, uri, &text[first..last])
}

// Whether there is a clip before this one, of the same resource.
fn follows(text: &[u8], words: &[u64], clip: usize) -> bool
    ensures { result ≡ after.follows text.now words.now clip }
{
    if clip == 0 {
        return false;
    }
    same_resource(text, words, clip - 1, clip)
}

// So many bytes from a start. The largest end is the largest number of 64 bits.
fn range_from(start: u64, length: u64) -> Window
    ensures { answer_of result ≡ rule.range_from (some start) length }
{
    let end = start.checked_add(length).ok_or(Refusal::WindowTooFar)?;
    Ok(Some(Range { start, end }))
}

// So many bytes behind a window: what refused the one before refuses this one too.
fn behind(before: Window, length: u64) -> Window
    ensures { answer_of result ≡ after.behind (answer_of before) length }
{
    let range = before?.ok_or(Refusal::NoRangeBefore)?;
    range_from(range.end, length)
}

// A clip's window, by the window of the clip before it, if there is one.
// It stands in its callers: called, it lays the window of every clip down in memory, and all windows take 1.4 to 3 times as long.
#[inline(always)]
pub fn window_after(text: &[u8], words: &[u64], clip: usize, before: Window) -> Window
    ensures { answer_of result ≡ after.window_after text.now words.now clip (answer_of before) }
{
    let flags = record::clip_word(words, clip, layout::FLAGS);
    if !record::has_flag(flags, layout::HAS_RANGE) {
        return Ok(None);
    }
    let length = record::clip_word(words, clip, layout::RANGE_LENGTH);
    if record::has_flag(flags, layout::HAS_RANGE_OFFSET) {
        return range_from(record::clip_word(words, clip, layout::RANGE_OFFSET), length);
    }
    if !follows(text, words, clip) {
        return Err(Refusal::NoRangeBefore);
    }
    behind(before, length)
}

// Whether a clip has a range without an offset, which goes on from the one before.
fn goes_on(words: &[u64], clip: usize) -> bool
    ensures { result ≡ inside.goes_on words.now clip }
{
    let flags = record::clip_word(words, clip, layout::FLAGS);
    record::has_flag(flags, layout::HAS_RANGE) & !record::has_flag(flags, layout::HAS_RANGE_OFFSET)
}

// The nearest clip, back from this one, whose window does not ask for the one before it. No sum is made on the way back: whether the chain begins at all
// is weighed before how far it reaches.
fn chain_start(words: &[u64], clip: usize) -> usize
    ensures { result ≡ inside.chain_start words.now clip }
{
    for k in (1..=clip).rev() {
        if !goes_on(words, k) {
            return k;
        }
    }
    0
}

// The window of any clip: from where its chain begins, clip by clip.
fn window_of(text: &[u8], words: &[u64], clip: usize) -> Window
    ensures { answer_of result ≡ rule.window_of text.now words.now clip }
{
    let mut before: Window = Ok(None);
    for k in chain_start(words, clip)..clip {
        before = window_after(text, words, k, before);
    }
    window_after(text, words, clip, before)
}

// 1, 9, 14; then none, or 16, 15.
pub fn window(text: &[u8], words: &[u64], clips: usize, clip: usize) -> Window
    ensures { answer_of result ≡ rule.window text.now words.now clips clip }
{
    over_clips(text, words, clips)?;
    if clips <= clip {
        return Err(Refusal::NoSuchClip);
    }
    window_of(text, words, clip)
}
