// Prefixes, and runs of bytes that pass a test: the three questions that a rule asks of the text, answered byte by byte.
// Each function takes any text and any place, past the end too. Its contract is one equation with a rule of `text`.
#![tactic(auto)]

ghost use Rattle.std.specs.Prelude.{◌≡◌, ◌+◌, ◌≤◌, ◌<◌, ℕ, Bool, length, get_or};
ghost use Rattle.text.specs.Nom.{is_ascii, is_digit, is_one_of, is_none_of, tagged, after_tag, run_end, span_or, is_space};
ghost use Rattle.text.specs.Util as util;
ghost use Rattle.text.specs.Spans.{span_fits};
ghost use Rattle.text.specs.Answers.{span_of, part_of};

use text::Span;

pub fn is_digit(b: u8) -> bool
    ensures { result ≡ is_digit b }
{
    b'0' <= b && b <= b'9'
}

// Whether `b` is one of `set`.
pub fn is_one_of(set: &[u8], b: u8) -> bool
    ensures { result ≡ is_one_of set.now b }
{
    set.contains(&b)
}

// The byte so many places after `at`; 0 where the text is shorter.
pub fn byte_at(text: &[u8], at: usize, place: usize) -> u8
    ensures { result ≡ get_or text.now (at + place) 0 }
{
    if text.len() <= place {
        return 0;
    }
    if text.len() - place <= at {
        return 0;
    }
    text[at + place]
}

// Whether the bytes from `at` on are those of `tag`. All of them are looked at, with no way out before the last, so that the compiler
// takes many at once.
fn same_bytes(text: &[u8], at: usize, tag: &[u8]) -> bool
    requires { at + length tag.now ≤ length text.now }
    ensures { result ≡ tagged tag.now text.now at }
{
    let mut same = true;
    for k in 0..tag.len() {
        same = same & (text[at + k] == tag[k]);
    }
    same
}

// Whether the text goes on with `tag` at `at`. A tag without bytes is at any place, even past the text's end.
pub fn starts_with(text: &[u8], at: usize, tag: &[u8]) -> bool
    ensures { result ≡ tagged tag.now text.now at }
{
    if text.len() < tag.len() {
        return false;
    }
    if text.len() - tag.len() < at {
        return tag.len() == 0;
    }
    same_bytes(text, at, tag)
}

// The place after `tag` where the text goes on with it, else the same place.
pub fn after_tag(text: &[u8], at: usize, tag: &[u8]) -> usize
    ensures { result ≡ after_tag tag.now text.now at }
{
    if starts_with(text, at, tag) {
        at + tag.len()
    } else {
        at
    }
}

// Whether the part is this word.
pub fn spells(text: &[u8], part: Span, word: &[u8]) -> bool
    ensures { result ≡ util.spells text.now (span_of part) word.now }
{
    let start = part.start;
    if starts_with(text, start, word) {
        start + word.len() == part.end
    } else {
        false
    }
}

// The part between two places; an empty one is absent.
pub fn part(start: usize, end: usize) -> Option<Span>
    ensures { part_of result ≡ span_or start end }
{
    (start < end).then_some(Span { start, end })
}

// The end of the run at `at` of bytes that pass a test.
fn run_end<F: Fn(u8) -> bool>(text: &[u8], at: usize, passes: F) -> usize
    requires { F.IsAlwaysCallable passes }
    ensures { (p : ℕ → Bool) → ((b : ℕ) (r : Bool) → b < 256 → F.post passes b r → r ≡ p b) → result ≡ run_end p text.now at }
{
    for i in at..text.len() {
        if !passes(text[i]) {
            return i;
        }
    }
    at.max(text.len())
}

// The end of the run of digits at `at`.
pub fn digits_end(text: &[u8], at: usize) -> usize
    ensures { result ≡ run_end is_digit text.now at }
{
    run_end(text, at, is_digit)
}

// The end of the run of ASCII bytes at `at`.
pub fn ascii_end(text: &[u8], at: usize) -> usize
    ensures { result ≡ run_end is_ascii text.now at }
{
    run_end(text, at, |b| b.is_ascii())
}

// The first place from `at` on whose byte is one of `set`, or where the text ends.
pub fn until(text: &[u8], at: usize, set: &[u8]) -> usize
    ensures { result ≡ run_end (is_none_of set.now) text.now at }
{
    run_end(text, at, |b| !is_one_of(set, b))
}

// The first place from `at` on whose byte is none of `set`, or where the text ends.
pub fn while_in(text: &[u8], at: usize, set: &[u8]) -> usize
    ensures { result ≡ run_end (is_one_of set.now) text.now at }
{
    run_end(text, at, |b| is_one_of(set, b))
}

// Past spaces and tabs.
pub fn space0(text: &[u8], at: usize) -> usize
    ensures { result ≡ run_end is_space text.now at }
{
    while_in(text, at, b" \t")
}

// Whether a span that a table's words tell lies within the text: start <= end <= text length.
pub fn span_fits(text: &[u8], start: u64, end: u64) -> bool
    ensures { result ≡ span_fits text.now start end }
{
    (start <= end) & (end <= text.len() as u64)
}
