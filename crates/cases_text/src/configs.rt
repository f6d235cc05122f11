//! Configurations.
use case_lines::{Answer, CaseLine, Digits, LineFault, Told, said};
use ps_config::{Config, ConfigEnd, Fault, KeyGroupPart, built_in, read_config};
use std::alloc::Global;

/// `TEXT`: `ok`, or, where it is asked for, all that the accepted text says, keys in digits behind it; or the number, the name and
/// the table of what refuses the text
pub fn read(alloc: Global, line: &mut CaseLine, tells_all: bool) -> Answer {
    match read_config(alloc, &line.text(alloc)) {
        Ok(config) if tells_all => shown(alloc, &config),
        Ok(_) => said(alloc, "ok"),
        Err(end) => refused(alloc, &end),
    }
}

/// All that the built-in configuration says.
pub fn built_in_values(alloc: Global) -> Answer {
    shown(alloc, &built_in(alloc)?)
}

fn shown(alloc: Global, config: &Config) -> Answer {
    let mut told = Told::new(alloc);
    told.name(config);
    for group in config.keygroup.as_slice() {
        tell_keys(&mut told, group);
    }
    let mut text = told.text()?;
    // names and texts stand in arrays that zeros fill: zeros in a row are shown once
    for _ in 0..9 {
        text = text.replace(alloc, ", 0, 0", ", 0")?;
    }
    Ok(Some(text))
}

fn tell_keys(told: &mut Told, group: &KeyGroupPart) {
    for key in group.key.as_slice() {
        told.named(" ", Some(Digits(key.signing.as_slice())));
        told.named(" ", Some(Digits(key.encrypting.as_bytes())));
        told.named(" ", Some(Digits(key.nonce.as_slice())));
    }
}

fn refused(alloc: Global, end: &ConfigEnd) -> Answer {
    let ConfigEnd::Refused { code, path } = end else {
        return Err(LineFault::Memory);
    };
    let Some(fault) = Fault::numbered(*code) else {
        return Err(LineFault::Condition);
    };
    let mut told = Told::new(alloc);
    told.fill("C# ", &[*code as u64]);
    told.show(&fault);
    told.named(" ", Some(path.as_str()));
    told.answer()
}
