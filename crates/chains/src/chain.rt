// Along a chain, pair by pair.
ghost use Rattle.std.specs.Prelude.{◌≡◌};
ghost use Rattle.chains.specs.Inside.Kept as rule;
ghost use Rattle.std.proofs.Math.Option.{none};
ghost use Rattle.attributes.specs.Answers.{pair_of, attr_of};
ghost use Rattle.chains.specs.Inside.Answers.{chain_seen, memory_seen};

use crate::kept::{Chain, Memory};
use attributes::list;
use attributes::pair::Pair;
use text::Span;

// From the place `from` of a chain that ends at `end` to its first place that is not before `to`, or to its last. The end is asked for first: the pair that
// is not there might be looked for up to the text's end.
pub(crate) fn advance(text: &[u8], from: usize, end: usize, to: usize) -> usize
    ensures { rule.Leads text.now from result }
{
    let mut place = from;
    while place < to {
        if place == end {
            return place;
        }
        let Ok((_, after)) = list::next_pair(text, place) else {
            return place;
        };
        place = after;
    }
    place
}

// No chain.
pub(crate) fn nothing() -> Chain
    ensures { (chain_seen result).value ≡ none }
{
    let name = Span { start: 0, end: 0 };
    Chain {
        name,
        value: None,
        next: 0,
        end: 0,
    }
}

// The chain at its pair that goes over the place `to`, with the place behind it; none where the list ends before.
pub(crate) fn forward(text: &[u8], c: Chain, to: usize) -> Chain
    ensures { rule.Forward text.now (chain_seen c) (chain_seen result) }
{
    if !is_kept(c) {
        return c;
    }
    let end = c.end;
    let mut name = c.name;
    let mut value = c.value;
    let mut next = c.next;
    while next < to {
        if next == end {
            return nothing();
        }
        let Ok((p, after)) = list::next_pair(text, next) else {
            return nothing();
        };
        name = p.name;
        value = Some(p.value);
        next = after;
    }
    Chain {
        name,
        value,
        next,
        end,
    }
}

// Both chains.
pub(crate) fn forward_all(text: &[u8], m: Memory, to: usize) -> Memory
    ensures { rule.ForwardAll text.now (memory_seen m) (memory_seen result) }
{
    Memory {
        first: forward(text, m.first, to),
        second: forward(text, m.second, to),
        fails: m.fails,
    }
}

pub(crate) fn is_kept(c: Chain) -> bool
    ensures { result ≡ rule.present (attr_of c.value) }
{
    c.value.is_some()
}

// The chain of a list that begins with this pair.
pub(crate) fn begun(p: Pair, next: usize, end: usize) -> Chain
    ensures { chain_seen result ≡ rule.begun (pair_of p) next end }
{
    Chain {
        name: p.name,
        value: Some(p.value),
        next,
        end,
    }
}
