//! How large a session a script asks for.
ghost use Rattle.std.specs.Prelude.{◌≡◌, ◌≤◌, ◌<◌, ◌+◌, length, map};
ghost use Rattle.std.specs.List.{range_with_len};
ghost use Rattle.ps_config.specs.Sound.{IsSound};
ghost use Rattle.cell_bank.specs.Hands.{AreSmall};
ghost use Rattle.ps_script.specs.Sound.{IsScript};
ghost use Rattle.ps_script.specs.Sessions.{ticks_in, writes_in};
ghost use Rattle.session_model.specs.Counts.{most_ticks};
ghost use Rattle.pubsub_engine.specs.Holding.{AreAppends, full_of};
ghost use Rattle.script_player.specs.Sizes.{AppendsBy, HasNext, IsNext, appended_sets, appends_to, quotas_by};

use arrayvec::ArrayVec;
use dataset_meta::Meta;
use ps_config::Config;
use ps_script::{Act, Script};
use pubsub_engine::{Append, Size};

/// What a session has to have room for so that it can run the script: its ticks, the writes of each of eight threads, and the
/// appended fields. Also a data frame of each writer at each tick and at the closing one.
pub fn size_of(config: &Config, script: &Script) -> Size
    requires config { IsSound config.now }
    requires script { IsScript config.now script.now }
    ensures ticks { result.ticks ≡ ticks_in script.now.lines }
    ensures few { result.ticks ≤ most_ticks }
    ensures logged { result.logged ≡ result.ticks + 1 }
    ensures writes { result.writes.items ≡ quotas_by (length config.now.dataset) script.now.lines }
    ensures small { AreSmall result.writes.items }
    ensures appends { AreAppends config.now config.now.dataset result.appends.items }
    ensures sets { map (λ append. append.set) result.appends.items
        ≡ appended_sets script.now.lines }
    ensures full { full_of config.now.dataset result.appends.items ≡ script.now.metas }
{
    let ticks = script.ticks() as u32;
    Size {
        ticks: u64::from(ticks),
        logged: ticks + 1,
        writes: writes_of(script, config.dataset.as_slice().len()),
        appends: appends_of(config, script),
    }
}

/// For each data set the number of writes of each thread.
fn writes_of(script: &Script, sets: usize) -> ArrayVec<[u64; 8], 8>
    requires { sets ≤ 8 }
    ensures { result.items ≡ quotas_by sets script.now.lines }
{
    let mut writes = ArrayVec::new();
    for set in 0..sets {
        writes.push(writes_to(script, set as u8));
    }
    writes
}

/// How often each thread writes a data set.
fn writes_to(script: &Script, set: u8) -> [u64; 8]
    ensures { result ≡ map (λ thread. writes_in thread set script.now.lines) (range_with_len 0 8) }
{
    let mut writes = [0; 8];
    for thread in 0..8 {
        writes[thread] = script.writes(thread as u8, set) as u64;
    }
    writes
}

/// The appended fields, in the order of the lines.
fn appends_of(config: &Config, script: &Script) -> ArrayVec<Append, 16>
    requires { IsScript config.now script.now }
    ensures { AppendsBy config.now script.now script.now.lines result.items }
{
    let mut appends = ArrayVec::new();
    for line in script.lines.as_slice() {
        let Act::Append { set } = line.act else {
            continue;
        };
        let append = next_append(
            config.dataset.as_slice(),
            script.metas.as_slice(),
            set,
            appends.as_slice(),
        );
        appends.push(append);
    }
    appends
}

/// The append that comes next for a data set: of all its fields the first that it hasn't yet.
fn next_append(configured: &[Meta], full: &[Meta], set: u8, appends: &[Append]) -> Append
    requires { HasNext configured.now full.now set appends.now }
    ensures { IsNext configured.now full.now set appends.now result }
{
    let at = usize::from(set);
    let next = configured[at].fields().len() + appends_to(set, appends);
    let _minor = full[at].minor();
    Append {
        set,
        field: full[at].fields()[next],
    }
}

/// How many of the appends are of a data set.
fn appends_to(set: u8, appends: &[Append]) -> usize
    ensures { result ≡ appends_to set appends.now }
{
    appends.iter().filter(|append| append.set == set).count()
}
