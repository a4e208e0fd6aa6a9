// parser.rs, `extmap`: the list of a MAP, whose URI must be there.
ghost use Rattle.std.specs.Prelude.{◌≡◌};
ghost use Rattle.text.specs.Nom.{ok, bind};
ghost use Rattle.text.specs.Answers.{span_of};
ghost use Rattle.attributes.specs.ExtMap as rule;
ghost use Rattle.attributes.specs.Held.{attr_at};
ghost use Rattle.attributes.specs.Answers.{attr_of, opt_range_of, map_res};

use crate::held;
use crate::held::ATTR_WORDS;
use crate::pair::QuotedOrUnquoted;
use leaves::util;
use leaves::util::ByteRange;
use text::{IResult, Span, Why};

// struct Map { uri: String, byte_range: Option<ByteRange>, other_attributes }, the last as the list's part of the text.
#[derive(Clone, Copy)]
pub struct Map {
    pub uri: Span,
    pub byte_range: Option<ByteRange>,
    pub list: Span,
}

fn map_of(list: Span, uri: Span, byte_range: Option<ByteRange>) -> IResult<Map>
    ensures { map_res result ≡ ok (rule.ext_map (span_of uri) (opt_range_of byte_range) (span_of list)) list.end }
{
    let end = list.end;
    let map = Map {
        uri,
        byte_range,
        list,
    };
    Ok((map, end))
}

// What is left to read of a MAP is its byte range. The value's bytes end at a quote mark, which no byte range takes: so it is read where it stands.
fn with_range(text: &[u8], list: Span, uri: Span, range: Option<QuotedOrUnquoted>) -> IResult<Map>
    ensures { map_res result ≡ bind (rule.range_of (attr_of range) text.now list.end) (λ b n. ok (rule.ext_map (span_of uri) b (span_of list)) n) }
{
    let Some(value) = range else {
        return map_of(list, uri, None);
    };
    let QuotedOrUnquoted::Quoted(s) = value else {
        return Err(Why::RangeNotQuoted);
    };
    match util::byte_range_val(text, s.start) {
        Ok((range, _)) => map_of(list, uri, Some(range)),
        Err(_) => Err(Why::RangeBad),
    }
}

// The names that a MAP has a use for, by their numbers.
const URI: usize = 0;

const BYTERANGE: usize = 1;

pub const MAP_WORDS: usize = 2 * ATTR_WORDS;

// The MAP whose list stands from `at` to `end`, by what is held of it under both names. What follows the list's last pair is left for the next step.
pub fn map_held(text: &[u8], at: usize, end: usize, held: &[u64]) -> IResult<Map>
    ensures { map_res result ≡ rule.mapped text.now at (attr_at held.now 0) (attr_at held.now 1) end }
{
    let uri = held::attr_at(held, URI);
    let range = held::attr_at(held, BYTERANGE);
    let Some(value) = uri else {
        return Err(Why::NoUri);
    };
    let QuotedOrUnquoted::Quoted(uri) = value else {
        return Err(Why::UriNotQuoted);
    };
    with_range(text, Span { start: at, end }, uri, range)
}
