//! A datagram that comes to all read groups.
ghost use Rattle.std.specs.Prelude.{◌≡◌, ◌≢◌, ◌≤◌, IfErr};
ghost use Rattle.device.specs.Sides.{IsSubscriber};
ghost use Rattle.uapubsub_c.specs.Answers.{Calls, OfSubscriber};
ghost use Rattle.uapubsub_c.specs.Handles.{IsReady, IsSound};
ghost use Rattle.uapubsub_c.specs.Taking.{Takes, answer_words, taken_words, takings_words, took_at, took_number, words_at};

use crate::handle::Handle;
use crate::kept::Kept;
use crate::refusals::refusal_number;
use crate::status::{Status, number_of};
use crate::subscribing::TakenWords;
use device::{MOST_BYTES, Subscriber, Takings};
use reader_group::{Refusal, Taken};
use std::alloc::Global;

/// What a read group answered to a datagram, as C sees it.
#[repr(C)]
#[derive(Clone, Copy)]
pub struct AnswerWords {
    /// 0 where it took it, else why it refused it, or that there is no such read group.
    pub status: u32,
    /// What became of the messages; zeros where it didn't take it.
    pub taken: TakenWords,
}

/// What the read groups answered to a datagram, as C sees it.
#[repr(C)]
#[derive(Clone, Copy)]
pub struct TakingsWords {
    /// How many took it.
    pub took: u32,
    /// What each of them answered, by their indexes.
    pub groups: [AnswerWords; 4],
}

/// A datagram comes to all read groups at `now`, in milliseconds, which must not fall: to each as `uapubsub_subscriber_datagram` has it
/// with a copy of its own. The bytes stay. It is an error where they are more than 65,536.
#[unsafe(no_mangle)]
pub extern "C" fn uapubsub_subscriber_take(
    alloc: Global,
    handle: &mut Handle,
    now: u64,
    bytes: &[u8],
    takings: &mut TakingsWords,
) -> u32
    requires { IsReady handle.old }
    ensures takes { Calls (OfSubscriber (Takes now bytes.now takings.new))
        handle.old result handle.new }
    ensures untold { result ≢ 0 → takings.new ≡ takings.old }
{
    let Some(mut kept) = handle.take(alloc) else {
        return Status::Closed.number();
    };
    let answer = take_of(&mut kept, now, bytes, takings);
    handle.put(kept);
    number_of(answer)
}

fn take_of(
    kept: &mut Kept,
    now: u64,
    bytes: &[u8],
    takings: &mut TakingsWords,
) -> Result<(), Status>
    requires { IsSound kept.old }
    ensures sound { IsSound kept.new }
    ensures takes { OfSubscriber (Takes now bytes.now takings.new) kept.old result kept.new }
    ensures untold { IfErr result (λ _. takings.new ≡ takings.old) }
{
    match kept {
        Kept::Subscriber(subscriber) => take(subscriber, now, bytes, takings),
        Kept::Publisher(_) => Err(Status::OtherSide),
    }
}

fn take(
    subscriber: &mut Subscriber,
    now: u64,
    bytes: &[u8],
    takings: &mut TakingsWords,
) -> Result<(), Status>
    requires { IsSubscriber subscriber.old }
    ensures subscriber { IsSubscriber subscriber.new }
    ensures takes { Takes now bytes.now takings.new subscriber.old result subscriber.new }
    ensures untold { IfErr result (λ _. takings.new ≡ takings.old) }
{
    if bytes.len() > MOST_BYTES {
        return Err(Status::Room);
    }
    let answers = subscriber.take(now, bytes);
    *takings = words_of(&answers);
    Ok(())
}

fn words_of(takings: &Takings) -> TakingsWords
    ensures { result ≡ takings_words takings.now.answers }
{
    let groups = [
        words_at(takings, 0),
        words_at(takings, 1),
        words_at(takings, 2),
        words_at(takings, 3),
    ];
    TakingsWords {
        took: took_at(takings, 0) + took_at(takings, 1) + took_at(takings, 2) + took_at(takings, 3),
        groups,
    }
}

/// What the read group with this index answered.
fn words_at(takings: &Takings, group: u8) -> AnswerWords
    ensures { result ≡ words_at takings.now.answers group }
{
    answer_words(takings.answer(group))
}

fn answer_words(answer: Option<Result<Taken, Refusal>>) -> AnswerWords
    ensures { result ≡ answer_words answer }
{
    match answer {
        None => AnswerWords {
            status: Status::Index.number(),
            taken: NO_TAKEN,
        },
        Some(Ok(taken)) => AnswerWords {
            status: 0,
            taken: taken_words(taken),
        },
        Some(Err(refusal)) => AnswerWords {
            status: refusal_number(&refusal),
            taken: NO_TAKEN,
        },
    }
}

/// What is told where nothing was taken.
const NO_TAKEN: TakenWords = TakenWords {
    parts: 0,
    matched: 0,
    bad: 0,
};

fn taken_words(taken: Taken) -> TakenWords
    ensures { result ≡ taken_words taken }
{
    TakenWords {
        parts: taken.parts,
        matched: taken.matched,
        bad: taken.bad,
    }
}

/// 1 where the read group with this index took the datagram.
fn took_at(takings: &Takings, group: u8) -> u32
    ensures is { result ≡ took_at takings.now.answers group }
    ensures most { result ≤ 1 }
{
    match takings.answer(group) {
        None => 0,
        Some(Ok(_)) => 1,
        Some(Err(_)) => 0,
    }
}
