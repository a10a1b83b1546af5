//! Sequences of texts, whose shares take memory. Expected are lists written down by hand.
ghost use Rattle.aug_monoid.specs.Fresh.{IsFresh};

use crate::counts::{Count, CountFrom};
use aug_monoid::{NoMemory, Share, Steps, Text};
use fork_join::Cut;
use meeting::Meeting;
use pac_seq::{Seq, SeqOver};
use std::alloc::Global;
use std::marker::{Brand, Sync};
use std::process::Abort;
use std::sync::ledger::{Blank, Ledger};
use std::thread::Threads;

type Words = Seq<Count<Text>, 1>;

fn word<R: Abort>(rt: &R, alloc: Global, text: &str) -> Text {
    Text::from_str(alloc, text).expect(rt, "memory")
}

fn list_of<R: Abort>(rt: &R, alloc: Global, texts: &[&str]) -> Vec<Text> {
    let mut list = Vec::new(alloc);
    for text in texts {
        list.push(word(rt, alloc, text)).expect(rt, "memory");
    }
    list
}

/// Four words, which stand in more than one block.
fn metals<R: Abort>(rt: &R, alloc: Global) -> Words {
    let list = list_of(rt, alloc, &["iron", "tin", "gold", "lead"]);
    SeqOver::from_items(alloc, &list).expect(rt, "memory")
}

/// Asserts that a sequence was made, has these words and counts them.
fn assert_words<R: Abort>(rt: &R, alloc: Global, made: Result<Words, NoMemory>, wanted: &[&str]) {
    let seq = made.expect(rt, "memory");
    let list = seq.to_vec(alloc).expect(rt, "memory");
    assert!(rt; list.as_slice() == list_of(rt, alloc, wanted).as_slice());
    assert_eq!(rt;
        (seq.size(), seq.sum(alloc)),
        (wanted.len() as u64, wanted.len() as u64)
    );
}

#[test]
fn words_put_together_and_cut(rt: HostRuntime) {
    let alloc = rt.alloc();
    let four = metals(&rt, alloc);
    let more = list_of(&rt, alloc, &["zinc"]);
    assert_words(
        &rt,
        alloc,
        four.push(alloc, &more),
        &["iron", "tin", "gold", "lead", "zinc"],
    );
    assert_words(&rt, alloc, four.take(alloc, 2), &["iron", "tin"]);
    assert_words(&rt, alloc, four.skip(alloc, 3), &["lead"]);
    assert_words(&rt, alloc, four.slice(alloc, 1, 3), &["tin", "gold"]);
    let twice = four.append(alloc, &four);
    let wanted = ["iron", "tin", "gold", "lead", "iron", "tin", "gold", "lead"];
    assert_words(&rt, alloc, twice, &wanted);
    assert_words(&rt, alloc, Ok(SeqOver::new()), &[]);
}

#[test]
fn a_word_comes_or_goes(rt: HostRuntime) {
    let alloc = rt.alloc();
    let four = metals(&rt, alloc);
    let zinc = word(&rt, alloc, "zinc");
    assert_words(
        &rt,
        alloc,
        four.insert(alloc, 1, zinc),
        &["iron", "zinc", "tin", "gold", "lead"],
    );
    assert_words(&rt, alloc, four.remove(alloc, 2), &["iron", "tin", "lead"]);
    let zinc = word(&rt, alloc, "zinc");
    assert_words(
        &rt,
        alloc,
        four.push_front(alloc, zinc),
        &["zinc", "iron", "tin", "gold", "lead"],
    );
    let zinc = word(&rt, alloc, "zinc");
    assert_words(
        &rt,
        alloc,
        four.push_back(alloc, zinc),
        &["iron", "tin", "gold", "lead", "zinc"],
    );
}

/// Words with another at the place 2: in a copy, and in place with one more behind them.
fn changed<R: Abort>(rt: &R, alloc: Global) -> (Result<Words, NoMemory>, Result<Words, NoMemory>) {
    let four = metals(rt, alloc);
    let mut share = four.share(alloc).expect(rt, "memory");
    assert!(rt; 2 < four.size() && 2 < share.size());
    share
        .set_mut(alloc, 2, word(rt, alloc, "zinc"))
        .expect(rt, "memory");
    share
        .push_mut(alloc, word(rt, alloc, "salt"))
        .expect(rt, "memory");
    (four.set(alloc, 2, word(rt, alloc, "coal")), Ok(share))
}

#[test]
fn a_word_is_set(rt: HostRuntime) {
    let alloc = rt.alloc();
    let (copy, share) = changed(&rt, alloc);
    assert_words(&rt, alloc, copy, &["iron", "tin", "coal", "lead"]);
    assert_words(&rt, alloc, share, &["iron", "tin", "zinc", "lead", "salt"]);
}

/// Asserts that a word was split from the others, and which.
fn assert_apart<R: Abort>(
    rt: &R,
    alloc: Global,
    parts: Result<Option<(Text, Words)>, NoMemory>,
    wanted: &str,
    rest: &[&str],
) {
    let (found, others) = parts.expect(rt, "memory").expect(rt, "a word");
    assert_eq!(rt; found.as_str(), wanted);
    assert_words(rt, alloc, Ok(others), rest);
}

#[test]
fn words_are_split_off(rt: HostRuntime) {
    let alloc = rt.alloc();
    let four = metals(&rt, alloc);
    assert_apart(
        &rt,
        alloc,
        four.split_first(alloc),
        "iron",
        &["tin", "gold", "lead"],
    );
    assert_apart(
        &rt,
        alloc,
        four.split_last(alloc),
        "lead",
        &["iron", "tin", "gold"],
    );
    let none: Words = SeqOver::new();
    assert!(rt; none.split_first(alloc).expect(&rt, "memory").is_none());
    assert!(rt; none.split_last(alloc).expect(&rt, "memory").is_none());
}

/// How many letters the word at a place has.
fn letters(seq: &Words, place: u64) -> Option<u64> {
    let found = seq.get(place)?;
    Some(found.as_str().len() as u64)
}

#[test]
fn words_are_lent(rt: HostRuntime) {
    let alloc = rt.alloc();
    let four = metals(&rt, alloc);
    assert_eq!(rt; (letters(&four, 0), letters(&four, 1)), (Some(4), Some(3)));
    assert_eq!(rt; (letters(&four, 3), letters(&four, 4)), (Some(4), None));
    assert!(rt; four.iter().next().expect(&rt, "a word").as_str() == "iron");
    assert!(rt; four.cursor(2).next().expect(&rt, "a word").as_str() == "gold");
    assert!(rt;
        four.range_iter(1, 3)
            .next_back()
            .expect(&rt, "a word")
            .as_str()
            == "gold"
    );
    assert!(rt; four.height() <= 2);
}

fn found_counted<C: Ledger>(alloc: Global, seq: &Words, blank: Blank) -> (u64, Option<u64>)
    requires { IsFresh C.name C.parts blank }
{
    let mut steps = Steps::<C>::start(blank);
    let count = seq.reduce(alloc, 1, 2, &mut steps);
    (
        count,
        seq.first_where(alloc, &CountFrom { least: 3 }, &mut steps),
    )
}

#[test]
fn words_are_counted(rt: HostRuntime) {
    let four = metals(&rt, rt.alloc());
    assert_eq!(rt;
        found_counted::<Brand>(rt.alloc(), &four, Blank::new(1)),
        (2, Some(2))
    );
}

fn turned<R: Threads + Sync>(rt: &R, alloc: Global, seq: &Words) -> Result<Words, NoMemory> {
    seq.reverse(rt, alloc, &Meeting::new(), Cut::new(2, 1))
}

#[test]
fn words_are_turned_round(rt: HostRuntime) {
    let alloc = rt.alloc();
    let four = metals(&rt, alloc);
    let wanted = ["lead", "gold", "tin", "iron"];
    assert_words(&rt, alloc, four.reverse_alone(alloc), &wanted);
    assert_words(&rt, alloc, turned(&rt, alloc, &four), &wanted);
}
