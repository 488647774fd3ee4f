// The next place of a file that counts behind damage.
ghost use Rattle.std.specs.Prelude.{◌≡◌, ◌≢◌, ◌≤◌, ◌+◌, drop, length, IfOk, IfSome, OnOk};
ghost use Rattle.bson_io.specs.Ends.{Rose, Takes};
ghost use Rattle.bson_salvaging.specs.Salvage as salvage;
ghost use Rattle.bson_salvaging.specs.Searches.{Searches};
ghost use Rattle.bson_salvaging.specs.Window.{Grows, Settles};

use crate::looking::{Look, look_deep};
use crate::window::Window;
use bson_base::MAX_NESTING_LEVEL;
use bson_io::Source;
use bson_kinds::ElementType;
use bson_rawdoc::extent::extent;
use bson_source::TakeFault;

/// The most bytes of a document that is looked for: 16 MiB, and 16384 more.
const MOST_BYTES: usize = 16793600;

/// The looks for each byte that is passed.
const LOOKS: u64 = 64;

/// The length of a document, if it is one that counts, and how many looks are left.
#[derive(Clone, Copy, Debug, PartialEq, Eq)]
pub(crate) struct Seen {
    pub(crate) length: Option<usize>,
    pub(crate) left: u64,
}

/// Why no stretch was found.
#[derive(Clone, Copy, Debug, PartialEq, Eq)]
pub(crate) enum Stop {
    /// A call on the source failed.
    SourceFault,
    /// There are more bytes than a `u64` counts.
    TooLong,
    /// There was no memory for the bytes.
    NoMemory,
}

impl From<TakeFault> for Stop {
    ghost use Rattle.bson_salvaging.specs.Stops.{stop_of};

    ghost from_gives = { λ t s. s ≡ stop_of t };

    fn from(fault: TakeFault) -> Stop {
        match fault {
            TakeFault::Failed => Stop::SourceFault,
            TakeFault::NoMemory => Stop::NoMemory,
        }
    }
}

/// How many bytes were passed, and how many looks are left.
#[derive(Clone, Copy, Debug, PartialEq, Eq)]
pub(crate) struct Found {
    pub(crate) count: u64,
    pub(crate) left: u64,
}

/// The looks that are left, and those for so many bytes.
pub(crate) fn gained(bytes: usize, looks: u64) -> u64
    ensures { result ≡ salvage.gained bytes looks }
{
    looks.saturating_add((bytes as u64).saturating_mul(LOOKS))
}

// The document behind the first `at` bytes of a window, if it is one that counts.
fn see<S: Source>(
    window: &mut Window,
    at: usize,
    looks: u64,
    source: &mut S,
) -> Result<Seen, TakeFault>
    requires { at ≤ length window.old.bytes }
    ensures grows { OnOk result (Grows window.old window.new (S.left source.old) (S.left source.new)) }
    ensures settles { IfOk result (Settles (λ b. salvage.seen looks (drop at b)) window.new) }
    ensures there { IfOk result (λ s. IfSome s.length (λ n. at + n ≤ length window.new.bytes)) }
    ensures taken { Takes (S.left source.old) (S.left source.new) }
    ensures failed { result ≡ Err TakeFault.Failed → Rose (S.faults source.old) (S.faults source.new) }
    ensures kept { result ≢ Err TakeFault.Failed → S.faults source.new ≡ S.faults source.old }
    ensures later { S.faults source.old ≤ S.faults source.new }
{
    let none = Seen {
        length: None,
        left: looks,
    };
    window.fill(at.saturating_add(4), source)?;
    let Ok(length) = extent(ElementType::EmbeddedDocument, window.behind(at)) else {
        return Ok(none);
    };
    if length > MOST_BYTES {
        return Ok(none);
    }
    window.fill(at.saturating_add(length), source)?;
    let rest = window.behind(at);
    if rest.len() < length {
        return Ok(none);
    }
    let look = look_deep(MAX_NESTING_LEVEL, looks, &rest[..length]);
    if !look.fine {
        return Ok(Seen {
            length: None,
            left: look.left,
        });
    }
    Ok(Seen {
        length: Some(length),
        left: look.left,
    })
}

/// Whether the file ends behind the first `at` bytes of a window, or another document that counts begins there.
pub(crate) fn goes_on<S: Source>(
    window: &mut Window,
    at: usize,
    looks: u64,
    source: &mut S,
) -> Result<Look, TakeFault>
    requires { at ≤ length window.old.bytes }
    ensures grows { OnOk result (Grows window.old window.new (S.left source.old) (S.left source.new)) }
    ensures settles { IfOk result (Settles (λ b. salvage.goes_on looks (drop at b)) window.new) }
    ensures taken { Takes (S.left source.old) (S.left source.new) }
    ensures failed { result ≡ Err TakeFault.Failed → Rose (S.faults source.old) (S.faults source.new) }
    ensures kept { result ≢ Err TakeFault.Failed → S.faults source.new ≡ S.faults source.old }
    ensures later { S.faults source.old ≤ S.faults source.new }
{
    window.fill(at.saturating_add(1), source)?;
    if window.bytes().len() <= at {
        return Ok(Look {
            fine: true,
            left: looks,
        });
    }
    let seen = see(window, at, looks, source)?;
    Ok(Look {
        fine: seen.length.is_some(),
        left: seen.left,
    })
}

// Whether the place of a window counts.
fn counts<S: Source>(window: &mut Window, looks: u64, source: &mut S) -> Result<Look, TakeFault>
    ensures grows { OnOk result (Grows window.old window.new (S.left source.old) (S.left source.new)) }
    ensures settles { IfOk result (Settles (salvage.counts looks) window.new) }
    ensures taken { Takes (S.left source.old) (S.left source.new) }
    ensures failed { result ≡ Err TakeFault.Failed → Rose (S.faults source.old) (S.faults source.new) }
    ensures kept { result ≢ Err TakeFault.Failed → S.faults source.new ≡ S.faults source.old }
    ensures later { S.faults source.old ≤ S.faults source.new }
{
    let seen = see(window, 0, looks, source)?;
    match seen.length {
        Some(length) => goes_on(window, length, seen.left, source),
        None => Ok(Look {
            fine: false,
            left: seen.left,
        }),
    }
}

/// Passes the bytes before the first place that counts; all, where none does. How many they were.
pub(crate) fn search<S: Source>(
    window: &mut Window,
    looks: u64,
    source: &mut S,
) -> Result<Found, Stop>
    ensures found { IfOk result (Searches looks window.old window.new (S.left source.old) (S.left source.new)) }
    ensures taken { Takes (S.left source.old) (S.left source.new) }
    ensures failed { result ≡ Err Stop.SourceFault → Rose (S.faults source.old) (S.faults source.new) }
    ensures kept { result ≢ Err Stop.SourceFault → S.faults source.new ≡ S.faults source.old }
    ensures later { S.faults source.old ≤ S.faults source.new }
{
    let mut count = 0u64;
    let mut left = looks;
    loop {
        window.fill(1, source)?;
        if window.bytes().len() == 0 {
            return Ok(Found { count, left });
        }
        let look = counts(window, left, source)?;
        if look.fine {
            return Ok(Found {
                count,
                left: look.left,
            });
        }
        let Some(next) = count.checked_add(1) else {
            return Err(Stop::TooLong);
        };
        window.pass(1);
        count = next;
        left = gained(1, look.left);
    }
}
