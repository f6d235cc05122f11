//! A gate that is always open.
use std::sync::Wait;
use ua_base::Gate;

/// A gate that holds nobody.
#[derive(Clone, Copy)]
pub struct OpenGate;

impl Gate for OpenGate {
    fn before<R: Wait>(&self, _rt: &R, _thread: u32, _k: u32) {}

    fn after<R: Wait>(&self, _rt: &R, _thread: u32, _k: u32) {}
}
