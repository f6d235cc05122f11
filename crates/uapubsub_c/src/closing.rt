//! The end of a handle.
ghost use Rattle.std.specs.Prelude.{◌≡◌};
ghost use Rattle.uapubsub_c.specs.Handles.{IsReady};

use crate::handle::Handle;
use std::alloc::Global;

/// Closes the handle, and gives back all its memory. A closed one stays closed.
#[unsafe(no_mangle)]
pub extern "C" fn uapubsub_close(alloc: Global, handle: &mut Handle) -> u32
    requires { IsReady handle.old }
    ensures ready { IsReady handle.new }
    ensures closed { handle.new.is_open ≡ 0 }
    ensures ok { result ≡ 0 }
{
    drop(handle.take(alloc));
    0
}
