// What most lines of a list are, taken at once: URIs that do not begin with `#`, and EXTINFs that read. The alternatives, tried in their order, come to
// the same (`media_playlist_tag`). All else is `Other`, and none of these is: there they are to be tried.
ghost use Rattle.std.specs.Prelude.{◌≡◌};
ghost use Rattle.steps.specs.Inside.Common as rule;
ghost use Rattle.steps.specs.Inside.Answers.{kind_of, common_of, common_end_of};

use leaves::util;
use lengths::duration;
use lengths::duration::Extinf;
use text::Span;

// A line with its value, and the place after it. No Option of the first two: `Other` is a kind of line, which goes on to the alternatives.
#[derive(Clone, Copy)]
pub enum Line {
    Uri(Span, usize),
    Extinf(Extinf, usize),
    Other,
}

// The same without the values, and with its own `Other`: whether an EXTINF has too many digits, and the place after the line.
#[derive(Clone, Copy)]
pub enum LineEnd {
    Uri(usize),
    Extinf(bool, usize),
    Other,
}

#[derive(Clone, Copy)]
enum Kind {
    Uri,
    Extinf,
    Other,
}

// How long `#EXTINF:` is.
const EXTINF: usize = 8;

// By how a line begins: one that does not begin with `#` is a URI.
fn kind_at(text: &[u8], at: usize) -> Kind
    ensures { kind_of result ≡ rule.kind_at text.now at }
{
    if text.len() <= at {
        return Kind::Other;
    }
    if text[at] != b'#' {
        return Kind::Uri;
    }
    if scan::starts_with(text, at, b"#EXTINF:") {
        return Kind::Extinf;
    }
    Kind::Other
}

pub fn common_line(text: &[u8], at: usize) -> Line
    ensures { common_of result ≡ rule.common_at text.now at }
{
    match kind_at(text, at) {
        Kind::Uri => match util::consume_line(text, at) {
            Ok((line, after)) => Line::Uri(line, after),
            Err(_) => Line::Other,
        },
        Kind::Extinf => match duration::duration_title_tag(text, at + EXTINF) {
            Ok((e, after)) => Line::Extinf(e, after),
            Err(_) => Line::Other,
        },
        Kind::Other => Line::Other,
    }
}

pub fn common_end(text: &[u8], at: usize) -> LineEnd
    ensures { common_end_of result ≡ rule.end_in (rule.common_at text.now at) }
{
    match kind_at(text, at) {
        Kind::Uri => match util::consume_line(text, at) {
            Ok((_, after)) => LineEnd::Uri(after),
            Err(_) => LineEnd::Other,
        },
        Kind::Extinf => match duration::extinf_end(text, at + EXTINF) {
            Some((too_many, after)) => LineEnd::Extinf(too_many, after),
            None => LineEnd::Other,
        },
        Kind::Other => LineEnd::Other,
    }
}
