//! Pieces of text, each appended to what was written before.
ghost use Rattle.std.specs.Prelude.{◌≡◌, ◌++◌, OnOk};
ghost use Rattle.std.specs.Fmt.{decimal};
ghost use Rattle.ps_report.specs.Lines.{feed, component_text, count_text, number_or_dash, numbers_text};

use dataset_meta::Name32;
use itoa::Buffer;
use pubsub_states::State;
use ua_base::NoMemory;

/// The bytes.
pub fn put(out: &mut Vec<u8>, text: &[u8]) -> Result<(), NoMemory>
    ensures { OnOk result (out.new.items ≡ out.old.items ++ text.now) }
{
    out.extend_from_slice(text)?;
    Ok(())
}

/// The end of a line.
pub fn put_feed(out: &mut Vec<u8>) -> Result<(), NoMemory>
    ensures { OnOk result (out.new.items ≡ out.old.items ++ feed) }
{
    put(out, b"\n")
}

/// A number in decimal.
pub fn put_number(out: &mut Vec<u8>, number: u64) -> Result<(), NoMemory>
    ensures { OnOk result (out.new.items ≡ out.old.items ++ decimal number) }
{
    let mut buffer = Buffer::new();
    put(out, buffer.format(number).as_bytes())
}

/// A word, and a number after it.
pub fn put_named(out: &mut Vec<u8>, word: &[u8], number: u64) -> Result<(), NoMemory>
    ensures { OnOk result (out.new.items ≡ out.old.items ++ (word.now ++ decimal number)) }
{
    put(out, word)?;
    put_number(out, number)
}

/// A space, the count and a colon.
#[tactic(auto, unfolding(crate::specs::Lines::count_text))]
pub fn put_count(out: &mut Vec<u8>, count: u64) -> Result<(), NoMemory>
    ensures { OnOk result (out.new.items ≡ out.old.items ++ count_text count) }
{
    put_named(out, b" ", count)?;
    put(out, b":")
}

/// The number, or a dash where there is none.
#[tactic(auto, unfolding(crate::specs::Lines::number_or_dash))]
pub fn put_number_or_dash(out: &mut Vec<u8>, number: Option<u64>) -> Result<(), NoMemory>
    ensures { OnOk result (out.new.items ≡ out.old.items ++ number_or_dash number) }
{
    match number {
        Some(number) => put_number(out, number),
        None => put(out, b"-"),
    }
}

/// A component's word, its name and its state.
#[tactic(auto, unfolding(crate::specs::Lines::component_text))]
pub fn put_component(
    out: &mut Vec<u8>,
    word: &[u8],
    name: &Name32,
    state: State,
) -> Result<(), NoMemory>
    ensures { OnOk result (out.new.items ≡ out.old.items ++ component_text word.now
        name.now state) }
{
    put(out, word)?;
    put(out, b" ")?;
    put(out, name.as_bytes())?;
    put(out, b" ")?;
    put(out, state.word().as_bytes())
}

/// The numbers, each with a space before it.
pub fn put_numbers(out: &mut Vec<u8>, numbers: &[u64]) -> Result<(), NoMemory>
    ensures { OnOk result (out.new.items ≡ out.old.items ++ numbers_text numbers.now) }
{
    for number in numbers {
        put_named(out, b" ", *number)?;
    }
    Ok(())
}

/// The threads, each with a space before it.
pub fn put_threads(out: &mut Vec<u8>, threads: &[u8]) -> Result<(), NoMemory>
    ensures { OnOk result (out.new.items ≡ out.old.items ++ numbers_text threads.now) }
{
    for thread in threads {
        put_named(out, b" ", u64::from(*thread))?;
    }
    Ok(())
}
