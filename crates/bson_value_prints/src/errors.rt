// Errors that are made of a fault and its path, where there is memory.
use bson_lines::Lines;
use bson_values::{Cause, Stop, de, ser};
use std::alloc::{AllocError, Global};

/// An error of reading.
fn read_error(alloc: Global) -> de::Error {
    let fault = de::Fault::Cause(Cause::NotUtf8);
    let stop = Stop::here(alloc, fault)
        .under_index(2)
        .under_key("b")
        .under_key("a");
    de::Error::from_stop(alloc, stop)
}

/// An error of writing.
fn write_error(alloc: Global) -> Result<ser::Error, AllocError> {
    let fault = ser::Fault::InvalidCString(String::from_str(alloc, "b\0")?);
    Ok(ser::Error::from_stop(alloc, Stop::here(alloc, fault)))
}

/// An error of reading without a path.
fn bare_read_error() -> de::Error {
    de::Error::from_fault(de::Fault::EndOfStream)
}

/// An error of writing without a path.
fn bare_write_error() -> ser::Error {
    ser::Error::from_fault(ser::Fault::UnsignedIntegerExceededRange(u64::MAX))
}

/// An error of reading, and one of writing, each with a path and without one.
pub fn add_errors(lines: &mut Lines, alloc: Global) {
    lines.text("read", &read_error(alloc));
    lines.text("read", &bare_read_error());
    lines.text("written", &bare_write_error());
    match write_error(alloc) {
        Ok(error) => lines.text("written", &error),
        Err(error) => lines.text("no error", &error),
    }
}
