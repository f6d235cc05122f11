//! What is answered of a configuration.
ghost use Rattle.std.specs.Prelude.{◌≡◌, IfOk, IfSome, All, Some, Ok};
ghost use Rattle.std.specs.Option.{option_copied};
ghost use Rattle.key_service.specs.Laws.{IsReply};
ghost use Rattle.key_service.specs.Pulled.{IsPullable};
ghost use Rattle.key_service.specs.Reading.{reply_in};
ghost use Rattle.ps_config.specs.Sound.{IsKeyGroup, IsSound};
ghost use Rattle.cmd_keys.specs.Answers.{asked_by, group_named, IsAnswer, IsServiceAnswer};
ghost use Rattle.cmd_keys.specs.Trials.{AreTried, IsExchange, IsReplyOf};

use crate::exchange::{reply_back, reply_of, request_back, request_of};
use crate::opening::trials_of;
use crate::refusal::Refusal;
use crate::trial::{Exchange, Refused};
use crate::words::Asked;
use arrayvec::ArrayVec;
use dataset_meta::Name32;
use key_service::{KeyFault, Keys, Request, Service};
use ps_config::{Config, KeyGroupPart, ring_of};

/// Asks the service of the security group, in the bytes of a request; reads its answer, in those of a reply; and tries each key
/// where START is 0.
pub(crate) fn exchange(config: &Config, asked: &Asked) -> Result<Exchange, Refused>
    requires { IsSound config.now }
    ensures { IsExchange config.now asked.now result }
{
    let Some(group) = &asked.group else {
        return Err(Refused {
            request: None,
            refusal: Refusal::NotFound,
        });
    };
    exchange_with(config, group, asked)
}

/// The service is given the request's bytes, and answers what it reads there.
fn exchange_with(config: &Config, group: &Name32, asked: &Asked) -> Result<Exchange, Refused>
    requires sound { IsSound config.now }
    requires group { asked.now.group ≡ Some group.now }
    ensures { IsExchange config.now asked.now result }
{
    let request = request_of(group, asked.start, asked.count);
    let read = request_back(request.as_slice());
    let keys = match answer_of(config, &read, asked.moment) {
        Ok(keys) => keys,
        Err(refusal) => {
            return Err(Refused {
                request: Some(request),
                refusal,
            });
        }
    };
    Ok(exchange_of(request, asked.start, &keys))
}

/// The puller is given the reply's bytes, and tries what it reads there.
fn exchange_of(request: ArrayVec<u8, 44>, start: u32, keys: &Keys) -> Exchange
    requires reply { IsReply keys.now }
    requires pullable { start ≡ 0 → IsPullable keys.now }
    ensures request { result.request.items ≡ request.items }
    ensures reply { IsReplyOf keys.now result.reply.items }
    ensures read { Ok result.read ≡ reply_in result.reply.items }
    ensures tried { AreTried start keys.now result.read result.trials }
{
    let reply = reply_of(keys);
    let read = reply_back(reply.as_slice());
    let trials = if start == 0 {
        Some(trials_of(keys, &read))
    } else {
        None
    };
    Exchange {
        request,
        reply,
        read,
        trials,
    }
}

/// What the service of the security group answers to the request at the moment.
fn answer_of(config: &Config, request: &Request, moment: u64) -> Result<Keys, Refusal>
    requires { IsSound config.now }
    ensures answer { IsAnswer config.now (asked_by request.now moment) result }
    ensures reply { IfOk result IsReply }
    ensures pullable { request.now.start ≡ 0 → IfOk result IsPullable }
{
    let Some(group) = group_named(config.keygroup.as_slice(), &request.group) else {
        return Err(Refusal::NotFound);
    };
    answer_by(group, request, moment)
}

fn group_named<'a>(groups: &'a [KeyGroupPart], name: &Name32) -> Option<&'a KeyGroupPart>
    requires { All IsKeyGroup groups.now }
    ensures found { option_copied result ≡ group_named groups.now name.now }
    ensures sound { IfSome result (λ group. IsKeyGroup group.now) }
{
    groups.iter().find(|group| group.name == *name)
}

fn answer_by(group: &KeyGroupPart, request: &Request, moment: u64) -> Result<Keys, Refusal>
    requires sound { IsKeyGroup group.now }
    requires named { group.now.name ≡ request.now.group }
    ensures answer { IsServiceAnswer group.now (asked_by request.now moment) result }
    ensures reply { IfOk result IsReply }
    ensures pullable { request.now.start ≡ 0 → IfOk result IsPullable }
{
    let service = match Service::new(group.name, ring_of(group)) {
        Ok(service) => service,
        Err(fault) => return Err(Refusal::Unserved(fault)),
    };
    match service.get(moment, &request.group, request.start, request.count) {
        Ok(keys) => Ok(keys),
        Err(KeyFault::NotFound) => unreachable!(),
    }
}
