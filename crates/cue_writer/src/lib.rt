// Writes a cue file (02, [3]) from a text and its clip table: a record a clip, the URI bytes, the trailer. All refusals are known before the first byte is put.
#![tactic(auto)]

ghost use Rattle.std.specs.Prelude.{◌≡◌};
ghost use Rattle.text.specs.Spans.{span_in};
ghost use Rattle.tables.specs.Table.{every};
ghost use Rattle.cue_file.specs.Format.{version1};
ghost use Rattle.cue_file.specs.Write as rule;

use starts::Starts;
use tables::{Refusal, layout, record};

mod measure; // what is weighed before the first byte is put
mod rows; // the bytes of the file

// At rate 1 a tick is a second; turn 0's moments are the starts themselves.
const RATE: u64 = 1;

const TURN: u64 = 0;

// 9: every URI's span lies within the text. The clock judges the lengths.
fn uris_in(text: &[u8], words: &[u64], clips: usize) -> bool
    ensures { result ≡ every (λ k. span_in text.now (rule.uri_of words.now k)) clips }
{
    for k in 0..clips {
        let end = record::clip_word(words, k, layout::URI_END);
        if end < record::clip_word(words, k, layout::URI_START) {
            return false;
        }
        if (text.len() as u64) < end {
            return false;
        }
    }
    true
}

// 1; 9; 11; 33; 10; else how many bytes were written. Where it is refused, no byte changes.
pub fn write(text: &[u8], words: &[u64], clips: usize, out: &mut [u8]) -> Result<usize, Refusal>
    ensures { rule.WrittenAs text.now words.now version1 clips out.old out.new result }
{
    if layout::TEXT_LIMIT < text.len() {
        return Err(Refusal::TextTooLong);
    }
    if !record::clips_fit(words, clips) {
        return Err(Refusal::BrokenTable);
    }
    if !uris_in(text, words, clips) {
        return Err(Refusal::BrokenTable);
    }
    let starts = Starts::new(words, clips, RATE, TURN)?;
    if !measure::fields_hold(words, clips) {
        return Err(Refusal::TooWide);
    }
    let length = measure::size(words, clips);
    if out.len() < length {
        return Err(Refusal::OutputShort);
    }
    Ok(rows::lay(out, text, words, starts))
}
