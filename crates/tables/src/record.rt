// Records in a lent table. Each public function answers for every count, record and place, and no sum or product overflows.
ghost use Rattle.std.specs.Prelude.{◌≡◌, ◌<◌, length};
ghost use Rattle.tables.specs.Table as rule;

use crate::layout::{CLIP_WORDS, START_WORDS, TAG_WORDS, WINDOW_WORDS};

// The count is compared with what the table holds: count x width may be above 2^64 - 1.
fn fits<const WIDTH: usize>(words: &[u64], count: usize) -> bool
    requires { 0 < WIDTH }
    ensures { result ≡ rule.fits WIDTH words.now count }
{
    count <= words.len() / WIDTH
}

pub fn clips_fit(words: &[u64], clips: usize) -> bool
    ensures { result ≡ rule.clips_fit words.now clips }
{
    fits::<CLIP_WORDS>(words, clips)
}

pub fn tags_fit(words: &[u64], tags: usize) -> bool
    ensures { result ≡ rule.tags_fit words.now tags }
{
    fits::<TAG_WORDS>(words, tags)
}

pub fn starts_fit(words: &[u64], clips: usize) -> bool
    ensures { result ≡ rule.starts_fit words.now clips }
{
    fits::<START_WORDS>(words, clips)
}

pub fn windows_fit(words: &[u64], clips: usize) -> bool
    ensures { result ≡ rule.windows_fit words.now clips }
{
    fits::<WINDOW_WORDS>(words, clips)
}

// The word at a place of any record, 0 where the table has none. The index is computed only where it is in the table.
fn edge_word<const WIDTH: usize>(words: &[u64], index: usize, place: usize) -> u64
    requires { 0 < WIDTH }
    ensures { result ≡ rule.word_at WIDTH words.now index place }
{
    if words.len() <= place {
        return 0;
    }
    if (words.len() - place - 1) / WIDTH < index {
        return 0;
    }
    words[index * WIDTH + place]
}

// The same. A record that the table holds whole is known by one test, which is the same for each of its words.
fn word<const WIDTH: usize>(words: &[u64], index: usize, place: usize) -> u64
    requires { 0 < WIDTH }
    ensures { result ≡ rule.word_at WIDTH words.now index place }
{
    if place < WIDTH {
        if index < words.len() / WIDTH {
            return words[index * WIDTH + place];
        }
    }
    edge_word::<WIDTH>(words, index, place)
}

pub fn clip_word(words: &[u64], clip: usize, place: usize) -> u64
    ensures { result ≡ rule.clip_word words.now clip place }
{
    word::<CLIP_WORDS>(words, clip, place)
}

// The words of any clip, 0 where the table has none.
fn edge_clip(words: &[u64], clip: usize) -> [u64; CLIP_WORDS]
    ensures { result ≡ rule.clip_record words.now clip }
{
    let mut values = [0; CLIP_WORDS];
    for place in 0..CLIP_WORDS {
        values[place] = clip_word(words, clip, place);
    }
    values
}

// The same. No word of a clip that the table holds whole needs a test.
pub fn clip_words(words: &[u64], clip: usize) -> [u64; CLIP_WORDS]
    ensures { result ≡ rule.clip_record words.now clip }
{
    if words.len() / CLIP_WORDS <= clip {
        return edge_clip(words, clip);
    }
    let start = clip * CLIP_WORDS;
    let mut values = [0; CLIP_WORDS];
    values.copy_from_slice(&words[start..start + CLIP_WORDS]);
    values
}

pub fn tag_word(words: &[u64], tag: usize, place: usize) -> u64
    ensures { result ≡ rule.tag_word words.now tag place }
{
    word::<TAG_WORDS>(words, tag, place)
}

// Lays a record's words into the table, which stays as it is where the record does not fit. The first word's index is computed only where it is in the table.
fn store<const WIDTH: usize>(words: &mut [u64], index: usize, values: &[u64; WIDTH])
    requires { 0 < WIDTH }
    ensures { words.new ≡ rule.stored WIDTH words.old index values.now }
{
    if words.len() / WIDTH <= index {
        return;
    }
    let start = index * WIDTH;
    // Word by word: as one copy of a slice, a table of starts was laid in twice the time.
    for place in 0..WIDTH {
        words[start + place] = values[place];
    }
}

pub fn store_clip(words: &mut [u64], clip: usize, values: &[u64; CLIP_WORDS])
    ensures { words.new ≡ rule.clip_stored words.old clip values.now }
{
    store(words, clip, values);
}

pub fn store_tag(words: &mut [u64], tag: usize, values: &[u64; TAG_WORDS])
    ensures { words.new ≡ rule.tag_stored words.old tag values.now }
{
    store(words, tag, values);
}

pub fn store_start(words: &mut [u64], clip: usize, values: &[u64; START_WORDS])
    ensures { words.new ≡ rule.start_stored words.old clip values.now }
{
    store(words, clip, values);
}

pub fn store_window(words: &mut [u64], clip: usize, values: &[u64; WINDOW_WORDS])
    ensures { words.new ≡ rule.window_stored words.old clip values.now }
{
    store(words, clip, values);
}

// Whether a word of flags holds a flag, one of the layout's.
pub fn has_flag(flags: u64, flag: u64) -> bool
    ensures { result ≡ rule.has_flag flags flag }
{
    if flag == 0 {
        return false;
    }
    flags / flag % 2 == 1
}
