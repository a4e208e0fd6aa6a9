// A clip's tags by value: what the tags since the last URI said.
use attributes::ext_map::Map;
use leaves::util::ByteRange;
use text::Span;

#[derive(Clone, Copy)]
pub struct Segment {
    pub length: u64,
    pub title: Option<Span>,
    pub byte_range: Option<ByteRange>,
    pub discontinuity: bool,
    pub map: Option<Map>,
}
