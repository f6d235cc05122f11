//! The calls by their names, and the service that the lines speak of.
use crate::answers::{get, pull, reply};
use crate::rings::ring_of;
use crate::wire::{pull_for, pull_reply, read_reply_row, read_request_row, request};
use case_lines::{Answer, Answers, CaseLine, LineFault, refused, said};
use dataset_meta::Name32;
use key_service::Service;
use std::alloc::Global;

/// What is kept from line to line.
#[derive(Drop)]
pub struct Bench {
    alloc: Global,
    service: Option<Service>,
}

impl<R> Answers<R> for Bench {
    fn answer(&mut self, _rt: &R, line: &mut CaseLine<'_>) -> Answer {
        match line.word() {
            "serve" => self.serve(line),
            "request" => request(self.alloc, line),
            "read_request" => read_request_row(self.alloc, line),
            "read_reply" => read_reply_row(self.alloc, line),
            "pull_reply" => pull_reply(self.alloc, line),
            "pull_for" => pull_for(self.alloc, line),
            call => self.call(call, line),
        }
    }
}

impl Bench {
    pub fn new(alloc: Global) -> Bench {
        Bench {
            alloc,
            service: None,
        }
    }

    /// `serve NAME LONG SET ..`: the service of the group and this ring from now on, or why it can't be served
    fn serve(&mut self, line: &mut CaseLine) -> Answer {
        let name = name_of(line)?;
        let ring = ring_of(line)?;
        match Service::new(name, ring) {
            Ok(service) => {
                self.service = Some(service);
                said(self.alloc, "served")
            }
            Err(fault) => refused(self.alloc, &fault),
        }
    }

    fn call(&self, call: &str, line: &mut CaseLine) -> Answer {
        let Some(service) = &self.service else {
            return Err(LineFault::Condition);
        };
        match call {
            "get" => get(self.alloc, service, line),
            "reply" => reply(self.alloc, service, line),
            "pull" => pull(self.alloc, service, line),
            _ => Err(LineFault::Call),
        }
    }
}

/// The next word, a name.
pub fn name_of(line: &mut CaseLine) -> Result<Name32, LineFault> {
    match Name32::new(line.word().as_bytes()) {
        Some(name) => Ok(name),
        None => Err(LineFault::Condition),
    }
}
