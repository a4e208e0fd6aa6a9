// A pair: a name, `=`, and a value with or without quote marks.
ghost use Rattle.std.specs.Prelude.{◌≡◌};
ghost use Rattle.text.specs.Nom.{alt};
ghost use Rattle.attributes.specs.Pairs as rule;
ghost use Rattle.attributes.specs.Answers.{value_res, pair_res};

use text::{IResult, Span, Why};

#[derive(Clone, Copy)]
pub enum QuotedOrUnquoted {
    Unquoted(Span),
    Quoted(Span),
}

// At least one byte between quote marks, across lines too.
pub fn quoted(text: &[u8], at: usize) -> IResult<QuotedOrUnquoted>
    ensures { value_res result ≡ rule.quoted text.now at }
{
    if scan::starts_with(text, at, b"\"") {
        let start = at + 1;
        let end = blocks::until(text, start, b"\"");
        if end <= start {
            return Err(Why::MissingByte);
        }
        if scan::starts_with(text, end, b"\"") {
            return Ok((QuotedOrUnquoted::Quoted(Span { start, end }), end + 1));
        }
    }
    Err(Why::OtherText)
}

// At least one byte, up to a comma, CR, LF or the text's end.
pub fn unquoted(text: &[u8], at: usize) -> IResult<QuotedOrUnquoted>
    ensures { value_res result ≡ rule.unquoted text.now at }
{
    let end = blocks::until(text, at, b",\r\n");
    if at < end {
        Ok((QuotedOrUnquoted::Unquoted(Span { start: at, end }), end))
    } else {
        Err(Why::MissingByte)
    }
}

// What is not quoted is read again without: so `""` is a value of two bytes.
pub fn read_value(text: &[u8], at: usize) -> IResult<QuotedOrUnquoted>
    ensures { value_res result ≡ alt rule.quoted rule.unquoted text.now at }
{
    quoted(text, at).or_else(|_| unquoted(text, at))
}

#[derive(Clone, Copy)]
pub struct Pair {
    pub name: Span,
    pub value: QuotedOrUnquoted,
}

// The name runs to the next `=`, on whatever line that stands.
pub fn key_value_pair(text: &[u8], at: usize) -> IResult<Pair>
    ensures { pair_res result ≡ rule.key_value_pair text.now at }
{
    if text.len() <= at {
        return Err(Why::MissingByte);
    }
    if scan::is_one_of(b"\r\n", text[at]) {
        return Err(Why::MissingByte);
    }
    let name_end = blocks::until(text, at, b"=");
    if text.len() <= name_end {
        return Err(Why::OtherText);
    }
    let name = Span {
        start: at,
        end: name_end,
    };
    let (value, after) = read_value(text, name_end + 1)?;
    Ok((Pair { name, value }, scan::after_tag(text, after, b",")))
}
