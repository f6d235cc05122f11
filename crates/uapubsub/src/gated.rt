//! Runs past a gate that orders threads and ticks and counts its calls.
use crate::order::{Item, Order, Until};
use crate::runs::run;
use std::alloc::Global;
use std::sync::Wait;
use std::test::Fail;
use std::thread::Threads;

/// The publisher's number at a gate.
const PUBLISHER: u32 = 8;

/// Five writes of thread 0, five of thread 1, and two ticks.
const TEN_WRITES: &str =
    "write 0 demo a=1/write 0 demo a=2/write 0 demo a=3/write 0 demo a=4/write 0 demo a=5/write 1 demo b=1/write 1 demo b=2/write 1 demo b=3/write 1 demo b=4/write 1 demo b=5/tick 100/tick 100/";

/// Five writes of thread 0, and five ticks.
const FIVE_WRITES: &str =
    "write 0 demo a=1/write 0 demo a=2/write 0 demo a=3/write 0 demo a=4/write 0 demo a=5/tick 100/tick 100/tick 100/tick 100/tick 100/";

/// The same, and three watches of thread 1.
const WATCHED: &str =
    "write 0 demo a=1/write 0 demo a=2/write 0 demo a=3/write 0 demo a=4/write 0 demo a=5/tick 100/tick 100/tick 100/tick 100/tick 100/watch 1 r1 3/watch 1 r1 3/watch 1 r1 3/";

/// Twenty ticks, and two threads that look a thousand times each and then once.
const LOOKED_AT: &str =
    "watch 1 r1 1000/watch 1 r1 1/watch 2 r1 1000/watch 2 r1 1/tick 100/tick 100/tick 100/tick 100/tick 100/tick 100/tick 100/tick 100/tick 100/tick 100/tick 100/tick 100/tick 100/tick 100/tick 100/tick 100/tick 100/tick 100/tick 100/tick 100/";

/// Two data sets, a writer of each, and a reader of each.
const TWO_SETS: &str =
    r#"[publisher]/id = "u8:5"/[[dataset]]/name = "one"/field = [{name = "a", kind = "UInt32"}]/[[dataset]]/name = "two"/field = [{name = "b", kind = "UInt32"}]/[[group]]/name = "g1"/id = 1/interval = 100/writer = [{name = "w1", id = 1, dataset = "one"}, {name = "w2", id = 2, dataset = "two"}]/[[readgroup]]/name = "rg1"/publisher = "u8:5"/group = 1/reader = [{name = "r1", writer = 1, dataset = "one"}, {name = "r2", writer = 2, dataset = "two"}]/"#;

/// Three writes of each data set by a thread of its own, three ticks, and three watches of the readers by turns.
const TWO_WATCHED: &str =
    "write 0 one a=1/write 0 one a=2/write 0 one a=3/write 1 two b=1/write 1 two b=2/write 1 two b=3/tick 100/tick 100/tick 100/watch 2 r2 2/watch 2 r1 2/watch 2 r2 2/";

fn item(thread: u32, k: u32) -> Item {
    Item { thread, k }
}

/// Runs the program with these words and this script past a gate, over links that lose nothing, and demands that no hold was
/// missed. The answer is the report.
fn report_of<R: Threads + Wait + Sync>(
    rt: &R,
    alloc: Global,
    words: &str,
    script: &str,
    order: &Order,
) -> Result<Vec<u8>, Fail> {
    let ran = run(rt, alloc, words, script, "none", order)?;
    if ran.status != 0 {
        return Err("another status than 0".into());
    }
    if order.missed() != 0 {
        return Err("a hold was missed".into());
    }
    Ok(Vec::from_slice(alloc, ran.out.bytes())?)
}

/// Whether there was one call before and one after each of a thread's first items.
fn are_once(order: &Order, thread: u32, items: u32) -> bool {
    for k in 0..items {
        if order.calls(item(thread, k)) != (1, 1) {
            return false;
        }
    }
    true
}

/// The line of a report that begins so, without this beginning.
fn line_of<'t>(report: &'t str, front: &str) -> Option<&'t str> {
    for line in report.split('\n') {
        if let Some(rest) = line.strip_prefix(front) {
            return Some(rest);
        }
    }
    None
}

/// Whether a report has a line with this text.
fn has_line(report: &str, line: &str) -> bool {
    for told in report.split('\n') {
        if told == line {
            return true;
        }
    }
    false
}

/// How many counts of looks there are, if they never fall and none is past this one.
fn looks_in(counts: &str, most: u64) -> Option<u32> {
    let (mut looks, mut last) = (0u32, 0u64);
    for word in counts.split(' ') {
        let count = word.parse::<u64>().ok()?;
        if count < last || count > most {
            return None;
        }
        last = count;
        looks = looks.saturating_add(1);
    }
    Some(looks)
}

/// How often a thread stands in a history.
fn times_of(history: &str, thread: &str) -> u32 {
    let mut times = 0u32;
    for word in history.split(' ') {
        if word == thread {
            times = times.saturating_add(1);
        }
    }
    times
}

/// The version that the log's entry of this place has.
fn version_at(log: &str, place: &str) -> Option<u64> {
    for entry in log.split(' ') {
        if let Some(version) = entry.strip_prefix(place) {
            return version.parse::<u64>().ok();
        }
    }
    None
}

/// The holds of the ten writes: no body on one thread passes them. By the second tick there are four writes.
fn ten_holds(alloc: Global) -> Result<Vec<(Item, Until)>, Fail> {
    let mut holds = Vec::new(alloc);
    holds.push((item(0, 0), Until::Answered(item(1, 0))))?;
    holds.push((item(0, 1), Until::Came(item(1, 1))))?;
    holds.push((item(1, 1), Until::Came(item(0, 1))))?;
    holds.push((item(0, 2), Until::Answered(item(PUBLISHER, 0))))?;
    holds.push((item(PUBLISHER, 1), Until::Answered(item(0, 2))))?;
    Ok(holds)
}

#[test]
fn threads_write_while_the_publisher_ticks(rt: HostRuntime) -> Result<(), Fail> {
    let order = Order::new(rt.alloc(), ten_holds(rt.alloc())?)?;
    let report = report_of(&rt, rt.alloc(), "run s", TEN_WRITES, &order)?;
    let text = str::from_utf8(&report).ok().ok_or("no text")?;
    assert!(&rt; are_once(&order, 0, 5) && are_once(&order, 1, 5));
    assert!(&rt; are_once(&order, PUBLISHER, 2));
    assert_eq!(&rt; order.all_calls(), (12, 12));
    let history = line_of(text, "history demo 10: ").ok_or("no history")?;
    assert_eq!(&rt; (times_of(history, "0"), times_of(history, "1")), (5, 5));
    let log = line_of(text, "writer w1 operational 3: ").ok_or("no log")?;
    assert_eq!(&rt; version_at(log, "2="), Some(10));
    assert!(&rt; version_at(log, "1=").is_some_and(|version| version >= 4));
    assert_eq!(&rt;
        line_of(text, "reader r1 "),
        Some("operational number 2 version 10: a=5 b=5 c=0 d=0")
    );
    Ok(())
}

/// Each tick is held until the write of its number is answered, and each write until the tick before it is done.
fn holds_in_step(alloc: Global) -> Result<Vec<(Item, Until)>, Fail> {
    let mut holds = Vec::new(alloc);
    for k in 0..5u32 {
        holds.push((item(PUBLISHER, k), Until::Answered(item(0, k))))?;
        holds.push((item(0, k + 1), Until::Answered(item(PUBLISHER, k))))?;
    }
    Ok(holds)
}

#[test]
fn each_tick_samples_what_is_written_by_then(rt: HostRuntime) -> Result<(), Fail> {
    let order = Order::new(rt.alloc(), holds_in_step(rt.alloc())?)?;
    let report = report_of(&rt, rt.alloc(), "run s", FIVE_WRITES, &order)?;
    let text = str::from_utf8(&report).ok().ok_or("no text")?;
    assert!(&rt; are_once(&order, 0, 5) && are_once(&order, PUBLISHER, 5));
    assert_eq!(&rt;
        line_of(text, "writer w1 "),
        Some("operational 6: 0=1 1=2 2=3 3=4 4=5 5=5")
    );
    Ok(())
}

/// The same, and the first watch is made between the first tick and the second, the next between the fourth and the last, and the
/// third after that.
fn holds_with_watches(alloc: Global) -> Result<Vec<(Item, Until)>, Fail> {
    let mut holds = holds_in_step(alloc)?;
    for (watch, tick, next) in [(0u32, 0u32, 1u32), (1, 3, 4), (2, 4, 5)] {
        holds.push((item(1, watch), Until::Answered(item(PUBLISHER, tick))))?;
        holds.push((item(PUBLISHER, next), Until::Answered(item(1, watch))))?;
    }
    Ok(holds)
}

/// A tick is sampled, sent and received before the gate is called after it, and each look counts what was received by then.
#[test]
fn each_look_counts_the_ticks_before_it(rt: HostRuntime) -> Result<(), Fail> {
    let order = Order::new(rt.alloc(), holds_with_watches(rt.alloc())?)?;
    let report = report_of(&rt, rt.alloc(), "run s", WATCHED, &order)?;
    let text = str::from_utf8(&report).ok().ok_or("no text")?;
    assert!(&rt;
        are_once(&order, 0, 5) && are_once(&order, 1, 3) && are_once(&order, PUBLISHER, 5)
    );
    assert!(&rt; has_line(text, "watch 1 r1: 1 1 1"));
    assert!(&rt; has_line(text, "watch 1 r1: 4 4 4"));
    assert!(&rt; has_line(text, "watch 1 r1: 5 5 5"));
    Ok(())
}

/// Each tick is held until both threads' write of its number and the watch after the tick before are answered, and each write and
/// watch until the tick before it is done.
fn holds_of_two(alloc: Global) -> Result<Vec<(Item, Until)>, Fail> {
    let mut holds = Vec::new(alloc);
    for k in 0..3u32 {
        for thread in 0..2u32 {
            holds.push((item(PUBLISHER, k), Until::Answered(item(thread, k))))?;
            holds.push((item(thread, k + 1), Until::Answered(item(PUBLISHER, k))))?;
        }
        holds.push((item(2, k), Until::Answered(item(PUBLISHER, k))))?;
        holds.push((item(PUBLISHER, k + 1), Until::Answered(item(2, k))))?;
    }
    Ok(holds)
}

/// A tick samples each data set, and a look at each reader counts what was received by then.
#[test]
fn each_data_set_and_reader_is_looked_at_anew(rt: HostRuntime) -> Result<(), Fail> {
    let order = Order::new(rt.alloc(), holds_of_two(rt.alloc())?)?;
    let files = format!(in rt.alloc(); "{TWO_WATCHED} | {TWO_SETS}")?;
    let report = report_of(&rt, rt.alloc(), "run s --config c", &files, &order)?;
    let text = str::from_utf8(&report).ok().ok_or("no text")?;
    assert!(&rt; are_once(&order, 2, 3) && are_once(&order, PUBLISHER, 3));
    assert_eq!(&rt;
        (line_of(text, "writer w1 "), line_of(text, "writer w2 ")),
        (
            Some("operational 4: 0=1 1=2 2=3 3=3"),
            Some("operational 4: 0=1 1=2 2=3 3=3")
        )
    );
    assert!(&rt; has_line(text, "watch 2 r2: 1 1") && has_line(text, "watch 2 r2: 3 3"));
    assert!(&rt; has_line(text, "watch 2 r1: 2 2"));
    Ok(())
}

/// Two threads and the publisher wait for one another, and each thread's last look is after the last tick.
fn holds_of_looks(alloc: Global) -> Result<Vec<(Item, Until)>, Fail> {
    let mut holds = Vec::new(alloc);
    holds.push((item(1, 0), Until::Came(item(2, 0))))?;
    holds.push((item(2, 0), Until::Came(item(1, 0))))?;
    holds.push((item(PUBLISHER, 0), Until::Came(item(1, 0))))?;
    holds.push((item(PUBLISHER, 0), Until::Came(item(2, 0))))?;
    holds.push((item(1, 1), Until::Answered(item(PUBLISHER, 19))))?;
    holds.push((item(2, 1), Until::Answered(item(PUBLISHER, 19))))?;
    Ok(holds)
}

#[test]
fn two_threads_look_while_ticks_come(rt: HostRuntime) -> Result<(), Fail> {
    let order = Order::new(rt.alloc(), holds_of_looks(rt.alloc())?)?;
    let report = report_of(&rt, rt.alloc(), "run s", LOOKED_AT, &order)?;
    let text = str::from_utf8(&report).ok().ok_or("no text")?;
    assert_eq!(&rt; order.all_calls(), (24, 24));
    let first = line_of(text, "watch 1 r1: ").ok_or("no watch")?;
    let second = line_of(text, "watch 2 r1: ").ok_or("no watch")?;
    assert_eq!(&rt;
        (looks_in(first, 20), looks_in(second, 20)),
        (Some(1000), Some(1000))
    );
    assert!(&rt; has_line(text, "watch 1 r1: 20") && has_line(text, "watch 2 r1: 20"));
    Ok(())
}

/// The first writes of two threads come to the gate before either is made: no body on one thread passes these.
fn meeting(alloc: Global) -> Result<Vec<(Item, Until)>, Fail> {
    let mut holds = Vec::new(alloc);
    holds.push((item(0, 0), Until::Came(item(1, 0))))?;
    holds.push((item(1, 0), Until::Came(item(0, 0))))?;
    Ok(holds)
}

/// The least load has 32 writes of four threads and 4 ticks.
#[test]
fn threads_of_load_write_at_once(rt: HostRuntime) -> Result<(), Fail> {
    let order = Order::new(rt.alloc(), meeting(rt.alloc())?)?;
    report_of(&rt, rt.alloc(), "load 1", "no file", &order)?;
    for thread in 0..4u32 {
        assert!(&rt; are_once(&order, thread, 8));
    }
    assert!(&rt; are_once(&order, PUBLISHER, 4));
    assert_eq!(&rt; order.all_calls(), (36, 36));
    Ok(())
}

/// Of the built-in configuration one lane has a turn at the tick, and the closing one.
#[test]
fn lanes_are_given_the_gate(rt: HostRuntime) -> Result<(), Fail> {
    let order = Order::new(rt.alloc(), Vec::new(rt.alloc()))?;
    report_of(
        &rt,
        rt.alloc(),
        "lanes s",
        "write 0 demo a=7/tick 100/",
        &order,
    )?;
    assert!(&rt; are_once(&order, 0, 2));
    assert_eq!(&rt; order.all_calls(), (2, 2));
    Ok(())
}
