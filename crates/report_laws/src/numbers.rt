//! What its type says of a closed session, by functions that walk through one.
ghost use Rattle.std.specs.Prelude.{All, IfSome};
ghost use Rattle.report_laws.specs.Numbers.{IsNumber, HistoryHasNumbers, GroupHasNumbers, LogHasNumbers, WriterHasNumbers, ReadGroupHasNumbers, HeldHasNumbers, ReaderHasNumbers, WatchHasNumbers, LinkHasNumbers, HasNumbers};

use ps_report::{
    Break, Closed, GroupEnd, HeldEnd, History, LinkEnd, ReadGroupEnd, ReaderEnd, WatchEnd,
    WriterEnd,
};

/// Each number of a closed session has 64 bits at most, and causes are counted at 20 places.
pub fn closed_sessions_have_numbers(closed: &Closed)
    ensures { HasNumbers closed.now }
{
    see_histories(closed.histories.as_slice());
    see_groups(closed.groups.as_slice());
    see_writers(closed.writers.as_slice());
    see_read_groups(closed.read_groups.as_slice());
    see_readers(closed.readers.as_slice());
    see_watches(closed.watches.as_slice());
    see_link(&closed.link)
}

fn see_histories(histories: &[History])
    ensures { All HistoryHasNumbers histories.now }
{
    for history in histories {
        see_threads(history.threads.as_slice());
    }
}

fn see_groups(groups: &[GroupEnd])
    ensures { All GroupHasNumbers groups.now }
{
    for end in groups {
        see_number(end.sent);
    }
}

fn see_writers(writers: &[WriterEnd])
    ensures { All WriterHasNumbers writers.now }
{
    for end in writers {
        logs_have_numbers(end.log.as_slice());
    }
}

/// Place and version of each data frame of a log have 64 bits at most.
pub fn logs_have_numbers(log: &[(u64, u64)])
    ensures { LogHasNumbers log.now }
{
    for entry in log {
        see_number(entry.0);
        see_number(entry.1);
    }
}

fn see_read_groups(groups: &[ReadGroupEnd])
    ensures { All ReadGroupHasNumbers groups.now }
{
    for end in groups {
        see_read_group(end);
    }
}

fn see_read_group(end: &ReadGroupEnd)
    ensures { ReadGroupHasNumbers end.now }
{
    see_number(end.taken);
    see_counts(&end.causes);
}

fn see_readers(readers: &[ReaderEnd])
    ensures { All ReaderHasNumbers readers.now }
{
    for end in readers {
        see_reader(end);
    }
}

fn see_reader(end: &ReaderEnd)
    ensures { ReaderHasNumbers end.now }
{
    see_number(end.breaks);
    if let Some(held) = &end.held {
        see_held(held);
    }
    see_breaks(end.recent.as_slice());
}

fn see_held(held: &HeldEnd)
    ensures { HeldHasNumbers held.now }
{
    see_option(held.number.map(u64::from));
    see_option(held.version);
}

fn see_breaks(breaks: &[Break])
    ensures { All (λ at. IsNumber at.expected × IsNumber at.got) breaks.now }
{
    for at in breaks {
        see_short(at.expected);
        see_short(at.got);
    }
}

fn see_watches(watches: &[WatchEnd])
    ensures { All WatchHasNumbers watches.now }
{
    for end in watches {
        see_watch(end);
    }
}

fn see_watch(end: &WatchEnd)
    ensures { WatchHasNumbers end.now }
{
    see_number(u64::from(end.thread));
    see_counts(end.counts.as_slice());
}

fn see_threads(threads: &[u8])
    ensures { All IsNumber threads.now }
{}

fn see_counts(counts: &[u64])
    ensures { All IsNumber counts.now }
{}

fn see_link(link: &LinkEnd)
    ensures { LinkHasNumbers link.now }
{
    see_number(link.sent);
    see_number(link.failed);
    see_number(link.received);
    see_number(link.broken);
    see_number(link.long);
    see_number(link.limit);
}

fn see_option(number: Option<u64>)
    ensures { IfSome number IsNumber }
{
    if let Some(number) = number {
        see_number(number);
    }
}

fn see_number(number: u64)
    ensures { IsNumber number }
{}

fn see_short(number: u16)
    ensures { IsNumber number }
{}
