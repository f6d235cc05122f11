//! What stored bytes say.
ghost use Rattle.std.specs.Prelude.{◌≡◌};
ghost use Rattle.uapubsub_c.specs.Answers.{IsTold};
ghost use Rattle.uapubsub_c.specs.States.{TellsMessage, TellsToken, TellsUsed};

use crate::status::{Status, tell};
use stored_state::{Damaged, StoredState};

/// How many key groups a state has, how many groups, and how many writers of each.
const MOST_KEYGROUPS: usize = 4;

const MOST_GROUPS: usize = 4;

const MOST_WRITERS: usize = 16;

/// Where the last numbers of key groups stand in a state, and where the message numbers of writers do.
const USED_AT: usize = 4;

const MESSAGES_AT: usize = 8;

/// The token of the key group with this index in bytes that `uapubsub_publisher_save` laid.
#[unsafe(no_mangle)]
pub extern "C" fn uapubsub_state_token(bytes: &[u8], keygroup: u32, token: &mut u32) -> u32
    ensures { IsTold (TellsToken keygroup bytes.now) result token.old token.new }
{
    tell(token_of(bytes, keygroup), token)
}

fn token_of(bytes: &[u8], keygroup: u32) -> Result<u32, Status>
    ensures { TellsToken keygroup bytes.now result }
{
    let state = match StoredState::read(bytes) {
        Ok(state) => state,
        Err(Damaged) => return Err(Status::Damaged),
    };
    let index = keygroup as usize;
    if index >= MOST_KEYGROUPS {
        return Err(Status::Index);
    }
    Ok(state.words[index])
}

/// The number under that token that a restart goes on after.
#[unsafe(no_mangle)]
pub extern "C" fn uapubsub_state_used(bytes: &[u8], keygroup: u32, used: &mut u32) -> u32
    ensures { IsTold (TellsUsed keygroup bytes.now) result used.old used.new }
{
    tell(used_of(bytes, keygroup), used)
}

fn used_of(bytes: &[u8], keygroup: u32) -> Result<u32, Status>
    ensures { TellsUsed keygroup bytes.now result }
{
    let state = match StoredState::read(bytes) {
        Ok(state) => state,
        Err(Damaged) => return Err(Status::Damaged),
    };
    let index = keygroup as usize;
    if index >= MOST_KEYGROUPS {
        return Err(Status::Index);
    }
    Ok(state.words[USED_AT + index])
}

/// The message number at which the writer with this index in the group with this index begins after a restart.
#[unsafe(no_mangle)]
pub extern "C" fn uapubsub_state_message(
    bytes: &[u8],
    group: u32,
    writer: u32,
    number: &mut u16,
) -> u32
    ensures { IsTold (TellsMessage group writer bytes.now) result number.old number.new }
{
    tell(message_of(bytes, group, writer), number)
}

fn message_of(bytes: &[u8], group: u32, writer: u32) -> Result<u16, Status>
    ensures { TellsMessage group writer bytes.now result }
{
    let state = match StoredState::read(bytes) {
        Ok(state) => state,
        Err(Damaged) => return Err(Status::Damaged),
    };
    let (group, writer) = (group as usize, writer as usize);
    if group >= MOST_GROUPS || writer >= MOST_WRITERS {
        return Err(Status::Index);
    }
    Ok((state.words[MESSAGES_AT + MOST_WRITERS * group + writer] % 65_536) as u16)
}
