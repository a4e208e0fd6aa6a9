// A list, read beside what is kept of those before it.
ghost use Rattle.std.specs.Prelude.{◌≡◌, true, List, [], ◌∷◌, ℕ, ◌+◌, ◌*◌, ◌/◌, ◌≤◌, length, replicate};
ghost use Rattle.text.specs.Nom.{ok, run_end, is_space};
ghost use Rattle.text.specs.Answers.{span_of};
ghost use Rattle.tables.specs.Table.{listed};
ghost use Rattle.attributes.specs.Pairs.{words, next_pair};
ghost use Rattle.attributes.specs.Held.{attr_words, attr_at, LastOfEach};
ghost use Rattle.attributes.specs.Answers.{value_of, pair_of};
ghost use Rattle.chains.specs.Inside.Kept as rule;
ghost use Rattle.chains.specs.Inside.Answers.{chain_seen, failing_seen, memory_seen, WalksAs, BesideAs, JoinsAs, RenewsAs, JoinedAs, BegunWith, BegunAs, RememberedAs, ListAs};

use crate::kept::{Chain, Failing, Memory, PLACE_WORDS};
use crate::{chain, failing, kept};
use attributes::held::ATTR_WORDS;
use attributes::pair::{Pair, QuotedOrUnquoted};
use attributes::{held, list};
use text::Span;

fn value_start(value: QuotedOrUnquoted) -> usize
    ensures { result ≡ rule.start_of (rule.span_in (value_of value)) }
{
    match value {
        QuotedOrUnquoted::Unquoted(s) => s.start,
        QuotedOrUnquoted::Quoted(s) => s.start,
    }
}

// What `kept` has under the name of this number takes the place of what is held, if it stands behind the place `from`.
fn hold_one(kept: &[u64], from: usize, number: usize, held: &mut [u64])
    ensures { held.new ≡ rule.overlaid (rule.later from (attr_at kept.now number) ∷ []) number held.old }
{
    let Some(value) = held::attr_at(kept, number) else {
        return;
    };
    if from < value_start(value) {
        held::put(held, number, value);
    }
}

// The same under each name.
fn hold_later(kept: &[u64], from: usize, held: &mut [u64])
    ensures { held.new ≡ rule.overlaid (listed (λ n. rule.later from (attr_at kept.now n)) 0 (length held.old / attr_words)) 0 held.old }
{
    for n in 0..held.len() / ATTR_WORDS {
        hold_one(kept, from, n, held);
    }
}

// Where a walk came to its end, and what it found to fail.
#[derive(Clone, Copy)]
struct Walked {
    end: usize,
    fails: Failing,
}

// The list from `at` on, until it ends or comes to a place of the other chain: from there on it is that one.
fn walk(
    text: &[u8],
    at: usize,
    names: &[u8],
    sizes: &[usize],
    held: &mut [u64],
    f: Failing,
    other: Chain,
    kept: &[u64],
) -> Walked
    ensures { WalksAs text.now (words names.now sizes.now) at (failing_seen f) (chain_seen other) kept.now held.old held.new result }
{
    let follows = chain::is_kept(other);
    let other_end = other.end;
    let mut from = at;
    let mut place = other.next;
    let mut fails = f;
    loop {
        place = chain::advance(text, place, other_end, from);
        if follows & (place == from) {
            hold_later(kept, from, held);
            return Walked {
                end: other_end,
                fails,
            };
        }
        let tried = failing::pair_at(text, blocks::while_in(text, from, b" \t"), fails);
        fails = tried.fails;
        let Ok((p, after)) = tried.pair else {
            return Walked { end: from, fails };
        };
        list::insert(text, p, names, sizes, held);
        from = after;
    }
}

// Whether the list whose first name begins here joins the chain: within the name of the chain's pair, a name has the same `=`.
fn joins(text: &[u8], name: usize, c: Chain) -> bool
    ensures { result ≡ rule.joins text.now name (chain_seen c) }
{
    let other = c.name;
    if chain::is_kept(c) {
        if failing::begins_name(text, name) {
            return (other.start <= name) & (name <= other.end);
        }
    }
    false
}

// The list whose first name begins here, where it joins the chain.
fn joined(
    text: &[u8],
    name: usize,
    names: &[u8],
    sizes: &[usize],
    held: &mut [u64],
    c: Chain,
    kept: &[u64],
) -> usize
    ensures { JoinsAs text.now (words names.now sizes.now) name (chain_seen c) kept.now held.old held.new result }
{
    let Some(value) = c.value else {
        return name;
    };
    let other = c.name;
    let own = Span {
        start: name,
        end: other.end,
    };
    list::insert(text, Pair { name: own, value }, names, sizes, held);
    hold_later(kept, c.next, held);
    c.end
}

// Saves what is kept, with this chain and what is held of its list in the place of the second one or of the first.
fn renew(memory: &mut [u64], m: Memory, c: Chain, held: &[u64])
    requires { rule.place_words + 2 * length held.now ≤ length memory.old }
    ensures { RenewsAs (memory_seen m) (chain_seen c) held.now memory.old memory.new }
{
    if chain::is_kept(m.first) {
        kept::save(memory, Memory { second: c, ..m });
        kept::lay(memory, PLACE_WORDS + held.len(), held);
        return;
    }
    kept::save(memory, Memory { first: c, ..m });
    kept::lay(memory, PLACE_WORDS, held);
}

// The list behind its first pair, beside the chain that is kept.
fn walk_beside(
    text: &[u8],
    at: usize,
    names: &[u8],
    sizes: &[usize],
    held: &mut [u64],
    memory: &[u64],
    m: Memory,
) -> Walked
    requires { rule.place_words + 2 * length held.old ≤ length memory.now }
    ensures { BesideAs text.now (words names.now sizes.now) at (memory_seen m) memory.now held.old held.new result }
{
    let middle = PLACE_WORDS + held.len();
    let last = middle + held.len();
    if chain::is_kept(m.first) {
        return walk(
            text,
            at,
            names,
            sizes,
            held,
            m.fails,
            m.first,
            &memory[PLACE_WORDS..middle],
        );
    }
    walk(
        text,
        at,
        names,
        sizes,
        held,
        m.fails,
        m.second,
        &memory[middle..last],
    )
}

// A list that begins with this pair and joins no chain: its own is kept.
fn begun_with(
    text: &[u8],
    p: Pair,
    after: usize,
    names: &[u8],
    sizes: &[usize],
    held: &mut [u64],
    memory: &mut [u64],
    m: Memory,
) -> usize
    requires { rule.place_words + 2 * length held.old ≤ length memory.old }
    ensures { BegunWith text.now (words names.now sizes.now) (pair_of p) after (memory_seen m) memory.old held.old held.new result memory.new }
{
    list::insert(text, p, names, sizes, held);
    let walked = walk_beside(text, after, names, sizes, held, memory, m);
    let end = walked.end;
    let own = chain::begun(p, after, end);
    let m = Memory {
        fails: walked.fails,
        ..m
    };
    renew(memory, m, own, held);
    end
}

// A list that joins no chain.
fn begun(
    text: &[u8],
    at: usize,
    names: &[u8],
    sizes: &[usize],
    held: &mut [u64],
    memory: &mut [u64],
    m: Memory,
) -> usize
    requires { rule.place_words + 2 * length held.old ≤ length memory.old }
    ensures { BegunAs text.now (words names.now sizes.now) at (memory_seen m) memory.old held.old held.new result memory.new }
{
    let tried = failing::pair_at(text, blocks::while_in(text, at, b" \t"), m.fails);
    let m = Memory {
        fails: tried.fails,
        ..m
    };
    let Ok((p, after)) = tried.pair else {
        kept::save(memory, m);
        return at;
    };
    begun_with(text, p, after, names, sizes, held, memory, m)
}

// The list whose first name begins here, where it joins the first chain; what is kept is saved.
fn join_first(
    text: &[u8],
    name: usize,
    names: &[u8],
    sizes: &[usize],
    held: &mut [u64],
    memory: &mut [u64],
    m: Memory,
) -> usize
    requires { rule.place_words + 2 * length held.old ≤ length memory.old }
    ensures { JoinedAs text.now (words names.now sizes.now) name (memory_seen m) (chain_seen m.first) memory.old held.old held.new result memory.new }
{
    let middle = PLACE_WORDS + held.len();
    let c = m.first;
    kept::save(memory, m);
    joined(
        text,
        name,
        names,
        sizes,
        held,
        c,
        &memory[PLACE_WORDS..middle],
    )
}

// The same with the second chain.
fn join_second(
    text: &[u8],
    name: usize,
    names: &[u8],
    sizes: &[usize],
    held: &mut [u64],
    memory: &mut [u64],
    m: Memory,
) -> usize
    requires { rule.place_words + 2 * length held.old ≤ length memory.old }
    ensures { JoinedAs text.now (words names.now sizes.now) name (memory_seen m) (chain_seen m.second) memory.old held.old held.new result memory.new }
{
    let middle = PLACE_WORDS + held.len();
    let last = middle + held.len();
    let c = m.second;
    kept::save(memory, m);
    joined(text, name, names, sizes, held, c, &memory[middle..last])
}

// The list here, by what is kept: both chains are brought up to where it begins first.
fn remembered(
    text: &[u8],
    at: usize,
    names: &[u8],
    sizes: &[usize],
    held: &mut [u64],
    memory: &mut [u64],
) -> usize
    requires { rule.place_words + 2 * length held.old ≤ length memory.old }
    ensures { RememberedAs text.now (words names.now sizes.now) at memory.old held.old held.new result memory.new }
{
    let m = chain::forward_all(text, kept::load(memory), at);
    let name = blocks::while_in(text, at, b" \t");
    if joins(text, name, m.first) {
        return join_first(text, name, names, sizes, held, memory, m);
    }
    if joins(text, name, m.second) {
        return join_second(text, name, names, sizes, held, memory, m);
    }
    begun(text, at, names, sizes, held, memory, m)
}

// Where the list ends, and what it has under each name: all that `attributes::list::last_of_each` says, and in linear time for all lists of a text, where the
// memory holds what the lists before left in it, or zeros. A memory that is too short is not used.
pub fn last_of_each(
    text: &[u8],
    at: usize,
    names: &[u8],
    sizes: &[usize],
    held: &mut [u64],
    memory: &mut [u64],
) -> usize
    ensures { ListAs text.now at names.now sizes.now held.old held.new result memory.old memory.new }
{
    if memory.len() < PLACE_WORDS {
        return list::last_of_each(text, at, names, sizes, held);
    }
    if (memory.len() - PLACE_WORDS) / 2 < held.len() {
        return list::last_of_each(text, at, names, sizes, held);
    }
    held::clear(held);
    remembered(text, at, names, sizes, held, memory)
}
