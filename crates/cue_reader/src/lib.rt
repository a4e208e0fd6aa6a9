// Reads a cue file (02, [3]): the whole file is judged, then a clip's start and its URI's span are given. Places are compared by differences, so that no number
// of a file makes a sum overflow.
#![tactic(auto)]

ghost use Rattle.std.specs.Prelude.{◌≡◌, cond, ℕ, suc, ◌+◌, ◌-◌, ◌*◌, ◌≤◌, leb, eqb, length};
ghost use Rattle.tables.specs.Table.{every};
ghost use Rattle.tables.specs.Refusal.{given};
ghost use Rattle.cue_file.specs.Format.{version1, value_at, clip_width, trailer_width};
ghost use Rattle.cue_file.specs.Read as rule;
ghost use Rattle.cue_reader.specs.Answers.{found_of, clips_of};

use cue_file::{
    CLIP_WIDTH, COUNT, Found, LARGEST_START, NANOSECONDS, RECORDS, SECONDS, TRAILER_WIDTH, URIS,
    VERSION_1,
};
use tables::Refusal;
use tables::layout::SECOND;
use text::Span;

pub mod all; // all clips in one pass

// The number in two bytes of the file, high byte first. One function for each width, not one for both: `from_be_bytes` is one for each type.
fn two_at(file: &[u8], at: usize) -> u64
    requires { at + 2 ≤ length file.now }
    ensures { (result ≡ value_at 2 file.now at) × (result ≤ 65535) }
{
    u64::from(u16::from_be_bytes([file[at], file[at + 1]]))
}

// The number in four.
fn four_at(file: &[u8], at: usize) -> u64
    requires { at + 4 ≤ length file.now }
    ensures { (result ≡ value_at 4 file.now at) × (result ≤ 4294967295) }
{
    let bytes = [file[at], file[at + 1], file[at + 2], file[at + 3]];
    u64::from(u32::from_be_bytes(bytes))
}

// A clip's record stands at its number times the width of one. Its second field:
fn nanoseconds(file: &[u8], clip: usize) -> u64
    requires { suc clip * clip_width version1 ≤ length file.now }
    ensures { (result ≡ (rule.clip_in version1 file.now clip).nanoseconds) × (result ≤ 4294967295) }
{
    four_at(file, clip * CLIP_WIDTH + SECONDS)
}

// Its last field.
fn uri_length(file: &[u8], clip: usize) -> usize
    requires { suc clip * clip_width version1 ≤ length file.now }
    ensures { (result ≡ (rule.clip_in version1 file.now clip).uri_length) × (result ≤ 65535) }
{
    let length = two_at(file, clip * CLIP_WIDTH + SECONDS + NANOSECONDS);
    length as usize
}

// The clip's start in ns. Seconds and ns of four bytes each make no sum above 2^64.
fn start(file: &[u8], clip: usize) -> u64
    requires { suc clip * clip_width version1 ≤ length file.now }
    ensures { result ≡ rule.start_in version1 file.now clip }
{
    let seconds = four_at(file, clip * CLIP_WIDTH);
    seconds * SECOND + nanoseconds(file, clip)
}

// The URI lengths of the first clips together.
fn lengths(file: &[u8], clips: usize) -> usize
    requires { (clips ≤ 65535) × (clips * clip_width version1 ≤ length file.now) }
    ensures { (result ≡ rule.lengths_in version1 file.now clips) × (result ≤ clips * 65535) }
{
    let mut sum = 0usize;
    for k in 0..clips {
        sum += uri_length(file, k);
    }
    sum
}

// 21: the records begin at 0, the URIs behind them, and the trailer behind these.
fn fits_exactly(file: &[u8], clips: usize) -> bool
    requires { (trailer_width version1 ≤ length file.now) × (clips ≡ rule.count_in version1 file.now) × (clips ≤ 65535) }
    ensures { result ≡ rule.fits_exactly version1 file.now }
{
    let trailer = file.len() - TRAILER_WIDTH;
    if four_at(file, trailer) != 0 {
        return false;
    }
    let uris = clips * CLIP_WIDTH;
    if four_at(file, trailer + RECORDS) != uris as u64 {
        return false;
    }
    if trailer < uris {
        return false;
    }
    lengths(file, clips) == trailer - uris
}

// The first start is 0, and no later one falls below the one before it.
fn follows(clip: usize, before: u64, after: u64) -> bool
    ensures { result ≡ cond (eqb clip 0) (eqb after 0) (leb before after) }
{
    if clip == 0 {
        return after == 0;
    }
    before <= after
}

// 22 of one clip: its start follows the one before and is not too late, and its nanoseconds make no second.
fn start_keeps(file: &[u8], clip: usize, before: u64, after: u64) -> bool
    requires { (suc clip * clip_width version1 ≤ length file.now) × (after ≡ rule.start_in version1 file.now clip) × ((clip ≡ 0 → ⊥) → before ≡ rule.start_in version1 file.now (clip - 1)) }
    ensures { result ≡ rule.start_keeps version1 file.now clip }
{
    if !follows(clip, before, after) {
        return false;
    }
    if LARGEST_START < after {
        return false;
    }
    nanoseconds(file, clip) < SECOND
}

// 22 of the first clips. Each start is taken once, and kept for the clip behind it.
fn starts_keep(file: &[u8], clips: usize) -> bool
    requires { clips * clip_width version1 ≤ length file.now }
    ensures { result ≡ every (rule.start_keeps version1 file.now) clips }
{
    let mut before = 0u64;
    for k in 0..clips {
        let after = start(file, k);
        if !start_keeps(file, k, before, after) {
            return false;
        }
        before = after;
    }
    true
}

// 19, 20, 21, 22: the whole file, whatever is asked of it. A count that is given is one that two bytes hold.
fn judged(file: &[u8]) -> Result<usize, Refusal>
    ensures result_value { clips_of result ≡ rule.judged version1 file.now (given (rule.count_in version1 file.now)) }
    ensures by_index { (n : ℕ) → clips_of result ≡ given n → n ≤ 65535 }
{
    if file.len() < TRAILER_WIDTH {
        return Err(Refusal::FileTooShort);
    }
    let count_at = file.len() - TRAILER_WIDTH + RECORDS + URIS;
    if two_at(file, count_at + COUNT) != VERSION_1 {
        return Err(Refusal::OtherVersion);
    }
    let clips = two_at(file, count_at) as usize;
    if !fits_exactly(file, clips) {
        return Err(Refusal::NotExact);
    }
    if !starts_keep(file, clips) {
        return Err(Refusal::BadStart);
    }
    Ok(clips)
}

// A clip's start in ns and the span of its URI in the file: 19, 20, 21, 22, 14.
pub fn read(file: &[u8], clip: usize) -> Result<Found, Refusal>
    ensures { found_of result ≡ rule.cue_read version1 file.now clip }
{
    let clips = judged(file)?;
    if clips <= clip {
        return Err(Refusal::NoSuchClip);
    }
    let from = clips * CLIP_WIDTH + lengths(file, clip);
    let to = from + uri_length(file, clip);
    let uri = Span {
        start: from,
        end: to,
    };
    Ok(Found {
        start: start(file, clip),
        uri,
        clips,
    })
}
