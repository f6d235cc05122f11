//! The publisher's calls, but those that set fields.
ghost use Rattle.std.specs.Prelude.{◌≡◌, ◌≢◌, IfErr, IfOk};
ghost use Rattle.device.specs.Sides.{IsPublisher};
ghost use Rattle.uapubsub_c.specs.Answers.{Asks, Calls, IsSeen, OfPublisher, Stays};
ghost use Rattle.uapubsub_c.specs.Handles.{IsReady, IsSound};
ghost use Rattle.uapubsub_c.specs.Keys.{IsSameStanding, Renews, Resumes, ResumesWith, TellsStanding};
ghost use Rattle.uapubsub_c.specs.Numbers.{number_of};
ghost use Rattle.uapubsub_c.specs.Nexts.{ComesNext};
ghost use Rattle.uapubsub_c.specs.Opening.{OpensAPublisher};

use crate::handle::Handle;
use crate::indexes::one_index;
use crate::kept::Kept;
use crate::keys::{KeySetWords, ring_of_words};
use crate::laying::lay;
use crate::status::{Status, number_of};
use device::{Next, Publisher};
use ps_config::ConfigEnd;
use std::alloc::Global;

/// Opens the handle with a publisher of the configuration that the text is. It takes all memory that the publisher ever needs.
#[unsafe(no_mangle)]
pub extern "C" fn uapubsub_publisher_open(alloc: Global, handle: &mut Handle, text: &[u8]) -> u32
    requires { IsReady handle.old }
    ensures ready { IsReady handle.new }
    ensures opens { IsSeen (OpensAPublisher text.now handle.old handle.new) result }
{
    number_of(open(alloc, handle, text))
}

fn open(alloc: Global, handle: &mut Handle, text: &[u8]) -> Result<(), Status>
    requires { IsReady handle.old }
    ensures ready { IsReady handle.new }
    ensures opens { OpensAPublisher text.now handle.old handle.new result }
{
    if handle.is_open != 0 {
        return Err(Status::Opened);
    }
    match Publisher::open(alloc, text) {
        Ok(publisher) => handle.keep(alloc, Kept::Publisher(publisher)),
        Err(ConfigEnd::Refused { .. }) => Err(Status::Refused),
        Err(ConfigEnd::Memory) => Err(Status::Memory),
    }
}

/// The next datagram that is due at `now`, in milliseconds, which must not fall: it is laid at the front of the buffer, and `count`
/// is how many bytes it has. Where the buffer is shorter than that the datagram waits for the next call.
#[unsafe(no_mangle)]
pub extern "C" fn uapubsub_publisher_next(
    alloc: Global,
    handle: &mut Handle,
    now: u64,
    buffer: &mut [u8],
    count: &mut usize,
) -> u32
    requires { IsReady handle.old }
    ensures comes { Calls (OfPublisher (ComesNext now buffer.old buffer.new count.new))
        handle.old result handle.new }
    ensures rest { result ≢ 0 → buffer.new ≡ buffer.old }
    ensures untold { result ≢ 0 → result ≢ 10 → count.new ≡ 0 }
{
    *count = 0;
    let Some(mut kept) = handle.take(alloc) else {
        return Status::Closed.number();
    };
    let answer = next_of(&mut kept, now, buffer, count);
    handle.put(kept);
    number_of(answer)
}

fn next_of(kept: &mut Kept, now: u64, buffer: &mut [u8], count: &mut usize) -> Result<(), Status>
    requires { IsSound kept.old }
    ensures sound { IsSound kept.new }
    ensures comes { OfPublisher (ComesNext now buffer.old buffer.new count.new)
        kept.old result kept.new }
    ensures rest { IfErr result (λ _. buffer.new ≡ buffer.old) }
    ensures untold { IfErr result (λ status. status ≢ Status.Room → count.new ≡ count.old) }
{
    match kept {
        Kept::Publisher(publisher) => next(publisher, now, buffer, count),
        Kept::Subscriber(_) => Err(Status::OtherSide),
    }
}

fn next(
    publisher: &mut Publisher,
    now: u64,
    buffer: &mut [u8],
    count: &mut usize,
) -> Result<(), Status>
    requires { IsPublisher publisher.old }
    ensures publisher { IsPublisher publisher.new }
    ensures comes { ComesNext now buffer.old buffer.new count.new
        publisher.old result publisher.new }
    ensures rest { IfErr result (λ _. buffer.new ≡ buffer.old) }
    ensures untold { IfErr result (λ status. status ≢ Status.Room → count.new ≡ count.old) }
{
    match publisher.come_to(now) {
        Next::Nothing => Err(Status::Nothing),
        Next::Spent => Err(Status::Spent),
        Next::Datagram => {
            if !publisher.may_hand_over() {
                return Err(Status::Unstored);
            }
            let datagram = publisher.datagram();
            if datagram.len() > buffer.len() {
                *count = datagram.len();
                return Err(Status::Room);
            }
            *count = lay(datagram, buffer);
            publisher.hand_over();
            Ok(())
        }
    }
}

/// The token in use of the key group with this index, and the last number used under it: what a device stores so that it goes on
/// behind it.
#[unsafe(no_mangle)]
pub extern "C" fn uapubsub_publisher_standing(
    alloc: Global,
    handle: &mut Handle,
    keygroup: u32,
    token: &mut u32,
    used: &mut u32,
) -> u32
    requires { IsReady handle.old }
    ensures { Asks (OfPublisher (Stays (TellsStanding keygroup))) handle.old result
        (token.old, used.old) (token.new, used.new) handle.new }
{
    let answer = handle.ask_publisher(alloc, |publisher| standing_of(publisher, keygroup));
    tell_standing(answer, token, used)
}

/// Tells C token and number, and the number of the answer.
fn tell_standing(answer: Result<(u32, u32), Status>, token: &mut u32, used: &mut u32) -> u32
    ensures number { result ≡ number_of answer }
    ensures told { IfOk answer (λ standing. (token.new, used.new) ≡ standing) }
    ensures untold { IfErr answer
        (λ status. IsSameStanding (token.new, used.new) (token.old, used.old)) }
{
    match answer {
        Ok(standing) => {
            (*token, *used) = standing;
            0
        }
        Err(status) => status.number(),
    }
}

fn standing_of(publisher: &Publisher, keygroup: u32) -> Result<(u32, u32), Status>
    requires { IsPublisher publisher.now }
    ensures { TellsStanding keygroup publisher.now result }
{
    let Some(keygroup) = one_index(keygroup) else {
        return Err(Status::Index);
    };
    match publisher.standing(keygroup) {
        Some(standing) => Ok(standing),
        None => Err(Status::Index),
    }
}

/// The key group with this index goes on behind `used` numbers of the configuration's last key set whose moment has come at `now`, in
/// milliseconds. Where its token is later than the one in use, the groups that are secured with these keys send key frames next; under
/// the same token they go on as they were. Nothing changes where a number would come twice: the token is lower than the one in use, or
/// is that one with a greater number used.
#[unsafe(no_mangle)]
pub extern "C" fn uapubsub_publisher_resume(
    alloc: Global,
    handle: &mut Handle,
    keygroup: u32,
    now: u64,
    used: u32,
) -> u32
    requires { IsReady handle.old }
    ensures { Calls (OfPublisher (Resumes keygroup now used)) handle.old result handle.new }
{
    number_of(handle.publisher(alloc, |publisher| resume(publisher, keygroup, now, used)))
}

fn resume(publisher: &mut Publisher, keygroup: u32, now: u64, used: u32) -> Result<(), Status>
    requires { IsPublisher publisher.old }
    ensures publisher { IsPublisher publisher.new }
    ensures resumes { Resumes keygroup now used publisher.old result publisher.new }
{
    let Some(keygroup) = one_index(keygroup) else {
        return Err(Status::Index);
    };
    let Some(_) = publisher.has_long_keys(keygroup) else {
        return Err(Status::Index);
    };
    if publisher.resume(keygroup, now, used) {
        Ok(())
    } else {
        Err(Status::NumbersAgain)
    }
}

/// The same with these key sets, in the order of their tokens and moments, at most 16: as `uapubsub_publisher_renew` gave them before a
/// restart. Token and number are those that `uapubsub_publisher_standing` told last. Key frames follow where the token in use changes.
/// Nothing changes either where the key sets make no ring, or that of the moment is of an earlier token.
#[unsafe(no_mangle)]
pub extern "C" fn uapubsub_publisher_resume_with(
    alloc: Global,
    handle: &mut Handle,
    keygroup: u32,
    now: u64,
    token: u32,
    used: u32,
    sets: &[KeySetWords],
) -> u32
    requires { IsReady handle.old }
    ensures { Calls (OfPublisher (ResumesWith keygroup now token used sets.now))
        handle.old result handle.new }
{
    number_of(handle.publisher(alloc, |publisher| {
        resume_with(publisher, keygroup, now, token, used, sets)
    }))
}

fn resume_with(
    publisher: &mut Publisher,
    keygroup: u32,
    now: u64,
    token: u32,
    used: u32,
    sets: &[KeySetWords],
) -> Result<(), Status>
    requires { IsPublisher publisher.old }
    ensures publisher { IsPublisher publisher.new }
    ensures resumes { ResumesWith keygroup now token used sets.now
        publisher.old result publisher.new }
{
    let Some(keygroup) = one_index(keygroup) else {
        return Err(Status::Index);
    };
    let Some(long) = publisher.has_long_keys(keygroup) else {
        return Err(Status::Index);
    };
    let ring = match ring_of_words(long, sets) {
        Ok(ring) => ring,
        Err(status) => return Err(status),
    };
    if ring.at(now).token < token {
        return Err(Status::EarlierToken);
    }
    if publisher.resume_with(keygroup, now, token, used, ring) {
        Ok(())
    } else {
        Err(Status::NumbersAgain)
    }
}

/// The key group with this index goes on with other key sets, in the order of their tokens and moments, at most 16. The keys in use
/// stay until one with a higher token comes to its moment: key frames follow then.
#[unsafe(no_mangle)]
pub extern "C" fn uapubsub_publisher_renew(
    alloc: Global,
    handle: &mut Handle,
    keygroup: u32,
    sets: &[KeySetWords],
) -> u32
    requires { IsReady handle.old }
    ensures { Calls (OfPublisher (Renews keygroup sets.now)) handle.old result handle.new }
{
    number_of(handle.publisher(alloc, |publisher| renew(publisher, keygroup, sets)))
}

fn renew(publisher: &mut Publisher, keygroup: u32, sets: &[KeySetWords]) -> Result<(), Status>
    requires { IsPublisher publisher.old }
    ensures publisher { IsPublisher publisher.new }
    ensures renews { Renews keygroup sets.now publisher.old result publisher.new }
{
    let Some(keygroup) = one_index(keygroup) else {
        return Err(Status::Index);
    };
    let Some(long) = publisher.has_long_keys(keygroup) else {
        return Err(Status::Index);
    };
    let ring = match ring_of_words(long, sets) {
        Ok(ring) => ring,
        Err(status) => return Err(status),
    };
    if publisher.renew(keygroup, ring) {
        Ok(())
    } else {
        Err(Status::Index)
    }
}
