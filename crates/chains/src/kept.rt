// What is kept of the lists that were read: two chains, and names that make no pair. As words that the caller lends, all zeros at first.
ghost use Rattle.std.specs.Prelude.{◌≡◌, [], ◌∷◌, ◌+◌, ◌≤◌, length};
ghost use Rattle.std.proofs.lemmas.List.Edits.{sets};
ghost use Rattle.attributes.specs.Held.{words_of};
ghost use Rattle.attributes.specs.Answers.{attr_of};
ghost use Rattle.chains.specs.Inside.Kept as rule;
ghost use Rattle.chains.specs.Inside.Answers.{memory_seen};

use attributes::held;
use attributes::pair::QuotedOrUnquoted;
use text::Span;

// One pair of a list, the place behind it, and where the list ends. Without a value it is no chain.
#[derive(Clone, Copy)]
pub struct Chain {
    pub name: Span,
    pub value: Option<QuotedOrUnquoted>,
    pub next: usize,
    pub end: usize,
}

// Names that make no pair: from the place before `start` on, up to `end`; none where `start` is 0. Those in `dead` have no value behind their `=`, and behind
// those in `none` there is no `=`.
#[derive(Clone, Copy)]
pub struct Failing {
    pub dead: Span,
    pub none: Span,
}

#[derive(Clone, Copy)]
pub struct Memory {
    pub first: Chain,
    pub second: Chain,
    pub fails: Failing,
}

// The words of a memory; behind them stands what is held of each chain's list. `specs/Kept.antt` has this number for the rules.
pub const PLACE_WORDS: usize = 18;

#[derive(Clone, Copy)]
struct ValueWords {
    kind: u64,
    start: u64,
    end: u64,
}

// As `held` lays them.
fn value_words(value: Option<QuotedOrUnquoted>) -> ValueWords
    ensures { result.kind ∷ result.start ∷ result.end ∷ [] ≡ words_of (attr_of value) }
{
    match value {
        None => ValueWords {
            kind: 0,
            start: 0,
            end: 0,
        },
        Some(QuotedOrUnquoted::Unquoted(s)) => ValueWords {
            kind: held::UNQUOTED,
            start: s.start as u64,
            end: s.end as u64,
        },
        Some(QuotedOrUnquoted::Quoted(s)) => ValueWords {
            kind: held::QUOTED,
            start: s.start as u64,
            end: s.end as u64,
        },
    }
}

fn memory_words(m: Memory) -> [u64; PLACE_WORDS]
    ensures { result ≡ rule.memory_words (memory_seen m) }
{
    let Memory {
        first,
        second,
        fails,
    } = m;
    let value = value_words(first.value);
    let value_2 = value_words(second.value);
    [
        value.kind,
        value.start,
        value.end,
        value_2.kind,
        value_2.start,
        value_2.end,
        first.name.start as u64,
        first.name.end as u64,
        first.next as u64,
        first.end as u64,
        second.name.start as u64,
        second.name.end as u64,
        second.next as u64,
        second.end as u64,
        fails.dead.start as u64,
        fails.dead.end as u64,
        fails.none.start as u64,
        fails.none.end as u64,
    ]
}

// Lays words into the lent ones from `at` on.
pub(crate) fn lay(memory: &mut [u64], at: usize, words: &[u64])
    requires { at + length words.now ≤ length memory.old }
    ensures { memory.new ≡ sets memory.old at words.now }
{
    memory[at..at + words.len()].copy_from_slice(words);
}

pub(crate) fn save(memory: &mut [u64], m: Memory)
    requires { rule.place_words ≤ length memory.old }
    ensures { memory.new ≡ sets memory.old 0 (rule.memory_words (memory_seen m)) }
{
    let words = memory_words(m);
    lay(memory, 0, &words);
}

pub(crate) fn load(memory: &[u64]) -> Memory
    requires { rule.place_words ≤ length memory.now }
    ensures { memory_seen result ≡ rule.memory_of memory.now }
{
    let value = held::attr_at(memory, 0);
    let value_2 = held::attr_at(memory, 1);
    let name = Span {
        start: memory[6] as usize,
        end: memory[7] as usize,
    };
    let name_2 = Span {
        start: memory[10] as usize,
        end: memory[11] as usize,
    };
    let first = Chain {
        name,
        value,
        next: memory[8] as usize,
        end: memory[9] as usize,
    };
    let second = Chain {
        name: name_2,
        value: value_2,
        next: memory[12] as usize,
        end: memory[13] as usize,
    };
    let dead = Span {
        start: memory[14] as usize,
        end: memory[15] as usize,
    };
    let none = Span {
        start: memory[16] as usize,
        end: memory[17] as usize,
    };
    let fails = Failing { dead, none };
    Memory {
        first,
        second,
        fails,
    }
}
