// The members of a sheet: their keys as sorted places, and how many members there are.
ghost use Rattle.std.specs.Prelude.{◌≡◌, map, ◌+◌, ◌-◌, ◌*◌, ◌≤◌, ◌<◌, length, take};
ghost use Rattle.text.specs.Places.{text_at};
ghost use Rattle.forms.specs.Members.{members_at, counted, distinct, apart, Gathered};

use sheet::{Cursor, Read, next_entry, next_member};
use text::places::{sort_by_texts, text_at};

// A member has at most so many keys, since each takes 12 bytes or more.
const MOST_KEYS: usize = 8192;

// Writes the places of a member's keys into the first words, and answers how many they are and where its entries end. The cursor is
// handed on by value: no iterator is plainer.
fn gather(sheet: &[u8], start: Cursor, words: &mut [u32]) -> Read<usize>
    requires { (length sheet.now ≤ 65536) × (8192 ≤ length words.old) }
    ensures { Gathered sheet.now start.at words.new result.value result.next.at }
{
    let mut count: usize = 0;
    let mut cursor = start;
    while let Some(entry) = next_entry(sheet, cursor) {
        words[count] = entry.value.left.word();
        count += 1;
        cursor = entry.next;
    }
    Read {
        value: count,
        next: cursor,
    }
}

// Whether no word names the same key as the next.
fn all_apart(sheet: &[u8], words: &[u32]) -> bool
    ensures { result ≡ apart (map (text_at sheet.now) words.now) }
{
    words
        .windows(2)
        .all(|pair| text_at(sheet, pair[0]) != text_at(sheet, pair[1]))
}

// Whether the first words name each key once. They get sorted; the words after them are the buffer. A set would need a heap.
#[tactic(auto, using(crate::proofs::KeyLaws::apart_places))]
fn all_distinct(sheet: &[u8], words: &mut [u32], count: usize) -> bool
    requires { 2 * count ≤ length words.old }
    ensures { result ≡ distinct (map (text_at sheet.now) (take count words.old)) }
{
    let (keys, room) = words.split_at_mut(count);
    sort_by_texts(sheet, keys, room);
    all_apart(sheet, keys)
}

// How many members stand from a cursor to the sheet's end, if nothing else does and none repeats a key. The keys of each are gathered in
// lent words.
fn count_members(sheet: &[u8], start: Cursor, words: &mut [u32]) -> Option<usize>
    requires { (length sheet.now ≤ 65536) × (16384 ≤ length words.old) }
    ensures { result ≡ counted 0 (members_at sheet.now start.at) }
{
    // Along a cursor by value, as in `gather`.
    let mut n = 0;
    let mut cursor = start;
    while cursor.at < sheet.len() {
        let member = next_member(sheet, cursor)?;
        let keys = gather(sheet, member.next, words);
        if !all_distinct(sheet, words, keys.value) {
            return None;
        }
        n += 1;
        cursor = keys.next;
    }
    Some(n)
}

// The same in words of its own.
pub(crate) fn members(sheet: &[u8], start: Cursor) -> Option<usize>
    requires { length sheet.now ≤ 65536 }
    ensures { result ≡ counted 0 (members_at sheet.now start.at) }
{
    // The words that a member's keys and their sorting take: the work area may not be touched before its size is decided.
    let mut words = [0u32; 2 * MOST_KEYS];
    count_members(sheet, start, &mut words)
}
