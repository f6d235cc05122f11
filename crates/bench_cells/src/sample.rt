//! A meta and a patch of it.
ghost use Rattle.std.specs.Prelude.{◌≡◌, IfSome, false};
ghost use Rattle.row_words.specs.Patches.{IsPatchOf};

use dataset_meta::{Field, Meta, Name32};
use row_words::Patch;
use std::alloc::Global;
use ua_values::{Kind, Value, fits};

/// Four fields of the kind UInt32, whose cell has 34 words, and where it is wide three texts more, 103 words in all, whose cell
/// has 151.
pub fn meta(alloc: Global, is_wide: bool) -> Option<Meta>
    ensures { IfSome result (λ meta. meta.quality ≡ false) }
{
    let mut fields = Vec::new(alloc);
    for name in [b"a", b"b", b"c", b"d"] {
        fields.push(field(name, Kind::UInt32, 0)?).ok()?;
    }
    if is_wide {
        for name in [b"e", b"f", b"g"] {
            fields.push(field(name, Kind::String, 256)?).ok()?;
        }
    }
    Meta::new(Name32::new(b"demo")?, fields, 1, 0, false).ok()
}

fn field(name: &[u8], kind: Kind, cap: u16) -> Option<Field> {
    let name = Name32::new(name)?;
    Some(Field { name, kind, cap })
}

/// The first field is 7.
pub fn patch(meta: &Meta) -> Option<Patch>
    requires { meta.now.quality ≡ false }
    ensures { IfSome result (λ patch. IsPatchOf meta.now patch) }
{
    let value = Value::UInt32(7);
    let field = meta.fields().first()?;
    if !fits(&value, field.kind, field.cap) {
        return None;
    }
    let mut patch = Patch::empty();
    patch.put(meta, 0, &value, 0);
    Some(patch)
}
