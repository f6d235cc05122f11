//! Work for a session, made and not read.
ghost use Rattle.std.specs.Prelude.{◌≡◌, ◌≤◌, ◌<◌, ◌*◌, [], ◌∷◌, map, IfOk};
ghost use Rattle.std.specs.List.{range_with_len};
ghost use Rattle.ps_config.specs.BuiltIn.{built_in_config, demo};
ghost use Rattle.ps_script.specs.Generated.{generated_write, generated_act, generated_line, generated};
ghost use Rattle.ps_script.specs.Sound.{IsScript};

use crate::acts::add_line;
use crate::laws::{a_patch_is_the_words_of_what_it_stands_for, generated_work_is_sound};
use crate::script::{Act, Line, Script};
use dataset_meta::{Meta, copies};
use ps_config::{Parts, built_in};
use row_words::Patch;
use std::alloc::Global;
use ua_base::NoMemory;
use ua_values::Value;

/// Work for the built-in configuration. Threads 0 to 3 write by turns, `8n` times each: thread 0 the
/// field `a`, thread 1 `b`, thread 2 `c`, thread 3 `d`. After each 8 writes 100 milliseconds pass,
/// and a tick follows.
pub fn generate(alloc: Global, n: u32) -> Result<Script, NoMemory>
    requires least { 1 ≤ n }
    requires most { n ≤ 1024 }
    ensures work { IfOk result (λ script. script ≡ generated n) }
    ensures sound { IfOk result (IsScript built_in_config) }
{
    generated_work_is_sound();
    work(alloc, n)
}

#[tactic(auto, unfolding(crate::specs::Generated::generated, ps_config::specs::BuiltIn::built_in_config))]
fn work(alloc: Global, n: u32) -> Result<Script, NoMemory>
    requires { n ≤ 1024 }
    ensures { IfOk result (λ script. script ≡ generated n) }
{
    let config = built_in(alloc)?;
    let metas = copies(alloc, config.dataset.as_slice())?;
    let lines = generated_lines(alloc, &metas, 36 * n)?;
    Ok(Script {
        lines: Parts::new(lines),
        metas: Parts::new(metas),
    })
}

#[tactic(auto, using(crate::proofs::Demo::acts_more))]
fn generated_lines(alloc: Global, metas: &[Meta], count: u32) -> Result<Vec<Line>, NoMemory>
    requires demo { metas.now ≡ demo ∷ [] }
    requires few { count ≤ 36864 }
    ensures { IfOk result (λ lines. lines.items ≡ map generated_line (range_with_len 0 count)) }
{
    let mut lines = Vec::with_capacity(alloc, count as usize)?;
    for index in 0..count {
        let act = generated_act(&metas[0], index);
        add_line(&mut lines, index + 1, Some(act))?;
    }
    Ok(lines)
}

#[tactic(auto, unfolding(crate::specs::Generated::generated_act))]
fn generated_act(meta: &Meta, line: u32) -> Act
    requires demo { meta.now ≡ demo }
    requires few { line < 36864 }
    ensures { result ≡ generated_act line }
{
    if line % 9 == 8 {
        Act::Tick(100)
    } else {
        generated_write(meta, 8 * (line / 9) + line % 9)
    }
}

#[tactic(auto, using(crate::proofs::Demo::demo_fits, crate::proofs::Demo::four), unfolding(crate::specs::Generated::generated_write, ps_config::specs::BuiltIn::demo))]
fn generated_write(meta: &Meta, write: u32) -> Act
    requires demo { meta.now ≡ demo }
    requires few { write < 36864 }
    ensures { result ≡ generated_write write }
{
    let thread = (write % 4) as u8;
    let value = Value::UInt32(100_000 * (write % 4) + (write / 4 + 1));
    let mut patch = Patch::empty();
    prove!(usize::from(thread) < meta.fields().len());
    patch.put(meta, thread, &value, 0);
    a_patch_is_the_words_of_what_it_stands_for();
    Act::Write {
        thread,
        set: 0,
        patch,
    }
}
