// The verdict (parser.rs, `contains_master_tag`): master playlist or media playlist, by the first tag that tells.
// Also what every call on a text asks first: its size, its UTF-8, its first seven bytes.
#![tactic(auto)]

ghost use Rattle.std.specs.Prelude.{◌≡◌};
ghost use Rattle.verdict.specs.Calls as rule;
ghost use Rattle.verdict.specs.Answers.{admission, master_answer, verdict_seen};

use tables::{Refusal, Refused, layout};

pub mod lines; // line by line, until one tells
mod quiet; // lines that say nothing

// Refusals 1, 2 and 3, in that order.
pub fn admit(text: &[u8]) -> Result<(), Refused>
    ensures { admission result ≡ rule.admitted text.now }
{
    if layout::TEXT_LIMIT < text.len() {
        return Err(Refused::from(Refusal::TextTooLong));
    }
    let end = utf8::utf8_end(text);
    if end != text.len() {
        return Err(Refused {
            refusal: Refusal::NotUtf8,
            place: end,
        });
    }
    if !scan::starts_with(text, 0, b"#EXTM3U") {
        return Err(Refused::from(Refusal::NoHeader));
    }
    Ok(())
}

// The verdict on a text that begins with `#EXTM3U`.
pub fn verdict_of(text: &[u8]) -> lines::Verdict
    ensures { verdict_seen result ≡ rule.verdict_of text.now }
{
    lines::verdict_from(text, 7)
}

// Whether a text is a master playlist.
pub fn is_master_playlist(text: &[u8]) -> Result<bool, Refused>
    ensures { master_answer result ≡ rule.is_master_playlist text.now }
{
    admit(text)?;
    match verdict_of(text) {
        lines::Verdict::Master(_) => Ok(true),
        lines::Verdict::Media => Ok(false),
    }
}
