//! Values and bytes as text.
use std::fmt;
use ua_values::Value;

/// Bytes as pairs of hexadecimal digits with spaces between them, or `-` where there are none.
#[derive(Clone, Copy)]
pub struct Hex<'a>(pub &'a [u8]);

impl fmt::Display for Hex<'_> {
    fn fmt<W: fmt::Write>(&self, f: &mut fmt::Formatter<W>) -> fmt::Result {
        write_pairs(f, self.0)
    }
}

/// Bytes as pairs of hexadecimal digits without spaces, or `-` where there are none.
#[derive(Clone, Copy)]
pub struct Digits<'a>(pub &'a [u8]);

impl fmt::Display for Digits<'_> {
    fn fmt<W: fmt::Write>(&self, f: &mut fmt::Formatter<W>) -> fmt::Result {
        if self.0.is_empty() {
            return f.write_str("-");
        }
        write_digits(f, self.0)
    }
}

/// A value: its kind, and then its number, or its bytes.
#[derive(Clone, Copy)]
pub struct Shown<'a>(pub &'a Value);

impl fmt::Display for Shown<'_> {
    fn fmt<W: fmt::Write>(&self, f: &mut fmt::Formatter<W>) -> fmt::Result {
        write!(f, "{:?} ", self.0.kind())?;
        match self.0 {
            Value::String(text) => write_pairs(f, text.as_bytes()),
            Value::ByteString(blob) => write_pairs(f, blob.as_bytes()),
            Value::Guid(bytes) => write_pairs(f, bytes),
            Value::Float(bits) => write!(f, "0x{bits:08x}"),
            Value::Double(bits) => write!(f, "0x{bits:016x}"),
            Value::StatusCode(code) => write!(f, "0x{code:08x}"),
            Value::Boolean(truth) => write!(f, "{truth}"),
            Value::UInt64(number) => write!(f, "{number}"),
            other => write!(f, "{}", whole_number(other)),
        }
    }
}

/// The number of a kind whose numbers are all below 2^63.
fn whole_number(value: &Value) -> i64 {
    match value {
        Value::SByte(n) => i64::from(*n),
        Value::Byte(n) => i64::from(*n),
        Value::Int16(n) => i64::from(*n),
        Value::UInt16(n) => i64::from(*n),
        Value::Int32(n) => i64::from(*n),
        Value::UInt32(n) => i64::from(*n),
        Value::Int64(n) | Value::DateTime(n) => *n,
        _ => 0,
    }
}

/// Bytes as pairs of hexadecimal digits with spaces between them, or `-` where there are none.
fn write_pairs<W: fmt::Write>(f: &mut fmt::Formatter<W>, bytes: &[u8]) -> fmt::Result {
    let [first, rest @ ..] = bytes else {
        return f.write_str("-");
    };
    write!(f, "{first:02x}")?;
    for byte in rest {
        write!(f, " {byte:02x}")?;
    }
    Ok(())
}

/// Bytes as pairs of hexadecimal digits without spaces.
fn write_digits<W: fmt::Write>(f: &mut fmt::Formatter<W>, bytes: &[u8]) -> fmt::Result {
    for byte in bytes {
        write!(f, "{byte:02x}")?;
    }
    Ok(())
}
