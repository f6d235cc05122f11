//! Rings that are pulled of a key service.
ghost use Rattle.ps_config.specs.Sound.{IsKeyGroup};
ghost use Rattle.std.specs.Prelude.{All};

use case_lines::{CaseLine, LineFault};
use group_keys::Ring;
use key_service::{Keys, Service, pulled_at, read_reply, write_reply};
use ps_config::{KeyGroupPart, ring_of};
use ua_binary::Pen;

/// `SERVED COUNT NOW`: the ring of a puller whose clock stands at the moment, of what a key service of the ring of this key group
/// answers it then to start 0.
pub fn pulled_ring(parts: &[KeyGroupPart], line: &mut CaseLine) -> Result<Ring, LineFault>
    requires { All IsKeyGroup parts.now }
{
    let (served, count, now) = (line.u8(), line.u32(), line.u64());
    let Some(part) = parts.get(usize::from(served)) else {
        return Err(LineFault::Condition);
    };
    let Ok(service) = Service::new(part.name, ring_of(part)) else {
        return Err(LineFault::Condition);
    };
    match service.get(now, &part.name, 0, count) {
        Ok(keys) => read_back(&keys, now),
        Err(_) => Err(LineFault::Condition),
    }
}

/// The ring of a puller, once the answer was written and read back.
fn read_back(keys: &Keys, now: u64) -> Result<Ring, LineFault> {
    let mut room = [0; 2048];
    let mut pen = Pen {
        bytes: &mut room,
        at: 0,
    };
    if write_reply(&mut pen, keys).is_err() {
        return Err(LineFault::Condition);
    }
    let end = pen.at.min(2048);
    let Ok(back) = read_reply(&room[..end]) else {
        return Err(LineFault::Condition);
    };
    match pulled_at(&back, now) {
        Some(ring) => Ok(ring),
        None => Err(LineFault::Condition),
    }
}
