//! Lines, each appended to what was written before.
ghost use Rattle.std.specs.Prelude.{◌≡◌, ◌++◌, OnOk};
ghost use Rattle.key_service.specs.Spelling.{policy_of};
ghost use Rattle.cmd_keys.specs.Texts.{key_line, policy_line};

use key_service::Keys;
use ps_report::{put, put_feed, put_named};
use ua_base::NoMemory;

#[tactic(auto, unfolding(crate::specs::Texts::policy_line))]
pub fn put_policy(out: &mut Vec<u8>, keys: &Keys) -> Result<(), NoMemory>
    ensures { OnOk result (out.new.items ≡ out.old.items ++ policy_line keys.now) }
{
    put(out, b"policy ")?;
    put(out, policy_of(keys.long).as_bytes())?;
    put_named(out, b" first ", u64::from(keys.first))?;
    put_named(out, b" next ", keys.next)?;
    put_named(out, b" lifetime ", keys.lifetime)?;
    put_feed(out)
}

fn policy_of(long: bool) -> &'static str
    ensures { result.now ≡ policy_of long }
{
    if long {
        "PubSub-Aes256-CTR"
    } else {
        "PubSub-Aes128-CTR"
    }
}

#[tactic(auto, unfolding(crate::specs::Texts::key_line))]
pub fn put_key(out: &mut Vec<u8>, token: u32, opens: bool) -> Result<(), NoMemory>
    ensures { OnOk result (out.new.items ≡ out.old.items ++ key_line opens token) }
{
    put_named(out, b"key ", u64::from(token))?;
    let rest = if opens { " opens\n" } else { "\n" };
    put(out, rest.as_bytes())
}
