// The next stretch of a file.
ghost use Rattle.std.specs.Prelude.{◌≡◌, ◌≢◌, ◌≤◌, ◌<◌, false, length, IfOk, IfSome, OnOk};
ghost use Rattle.bson_io.specs.Ends.{Rose, Takes};
ghost use Rattle.bson_rawdoc.specs.Cut.{piece_length};
ghost use Rattle.bson_salvaging.specs.Salvage as salvage;
ghost use Rattle.bson_salvaging.specs.Searches.{IsStep, Leaves};
ghost use Rattle.bson_salvaging.specs.Window.{Grows, Settles};

use crate::finding::{Stop, gained, goes_on, search};
use crate::looking::walk;
use crate::window::Window;
use bson_io::Source;
use bson_kinds::ElementType;
use bson_rawdoc::extent::extent;
use bson_source::TakeFault;

/// Whether a stretch is a document that is kept, how many bytes it has, and how many looks are left.
#[derive(Clone, Copy, Debug, PartialEq, Eq)]
pub(crate) struct Step {
    pub(crate) keeps: bool,
    pub(crate) count: u64,
    pub(crate) left: u64,
}

// The length of the document in front, if one is there.
fn piece<S: Source>(window: &mut Window, source: &mut S) -> Result<Option<usize>, TakeFault>
    ensures grows { OnOk result (Grows window.old window.new (S.left source.old) (S.left source.new)) }
    ensures settles { IfOk result (Settles piece_length window.new) }
    ensures there { IfOk result (λ n. IfSome n (λ n. n ≤ length window.new.bytes)) }
    ensures taken { Takes (S.left source.old) (S.left source.new) }
    ensures failed { result ≡ Err TakeFault.Failed → Rose (S.faults source.old) (S.faults source.new) }
    ensures kept { result ≢ Err TakeFault.Failed → S.faults source.new ≡ S.faults source.old }
    ensures later { S.faults source.old ≤ S.faults source.new }
{
    window.fill(4, source)?;
    let Ok(length) = extent(ElementType::EmbeddedDocument, window.bytes()) else {
        return Ok(None);
    };
    window.fill(length, source)?;
    if window.bytes().len() < length {
        return Ok(None);
    }
    Ok(Some(length))
}

// Passes bytes up to a place that counts, at least one.
fn damage<S: Source>(window: &mut Window, looks: u64, source: &mut S) -> Result<Step, Stop>
    requires { 0 < length window.old.bytes }
    ensures leaves { IfOk result (Leaves (salvage.damage looks) window.old window.new (S.left source.old) (S.left source.new)) }
    ensures taken { Takes (S.left source.old) (S.left source.new) }
    ensures failed { result ≡ Err Stop.SourceFault → Rose (S.faults source.old) (S.faults source.new) }
    ensures kept { result ≢ Err Stop.SourceFault → S.faults source.new ≡ S.faults source.old }
    ensures later { S.faults source.old ≤ S.faults source.new }
{
    window.pass(1);
    let found = search(window, gained(1, looks), source)?;
    let Some(count) = found.count.checked_add(1) else {
        return Err(Stop::TooLong);
    };
    Ok(Step {
        keeps: false,
        count,
        left: found.left,
    })
}

// Passes all bytes.
fn leave_all<S: Source>(window: &mut Window, source: &mut S) -> Result<Step, Stop>
    requires { 0 < length window.old.bytes }
    ensures leaves { IfOk result (Leaves salvage.leave_all window.old window.new (S.left source.old) (S.left source.new)) }
    ensures taken { Takes (S.left source.old) (S.left source.new) }
    ensures failed { result ≡ Err Stop.SourceFault → Rose (S.faults source.old) (S.faults source.new) }
    ensures kept { result ≢ Err Stop.SourceFault → S.faults source.new ≡ S.faults source.old }
    ensures later { S.faults source.old ≤ S.faults source.new }
{
    let mut count = 0u64;
    loop {
        let held = window.bytes().len();
        let Some(next) = count.checked_add(held as u64) else {
            return Err(Stop::TooLong);
        };
        window.pass(held);
        count = next;
        window.fill(1, source)?;
        if window.bytes().len() == 0 {
            return Ok(Step {
                keeps: false,
                count,
                left: 0,
            });
        }
    }
}

/// The next stretch. One that is left out is passed; a document that is kept is not.
pub(crate) fn next_stretch<S: Source>(
    window: &mut Window,
    looks: u64,
    source: &mut S,
) -> Result<Step, Stop>
    requires { 0 < length window.old.bytes }
    ensures step { IfOk result (IsStep looks window.old window.new (S.left source.old) (S.left source.new)) }
    ensures taken { Takes (S.left source.old) (S.left source.new) }
    ensures failed { result ≡ Err Stop.SourceFault → Rose (S.faults source.old) (S.faults source.new) }
    ensures kept { result ≢ Err Stop.SourceFault → S.faults source.new ≡ S.faults source.old }
    ensures later { S.faults source.old ≤ S.faults source.new }
{
    let Some(length) = piece(window, source)? else {
        return damage(window, looks, source);
    };
    let walked = walk(&window.bytes()[..length]);
    if walked.fine {
        return Ok(Step {
            keeps: true,
            count: length as u64,
            left: gained(length, looks),
        });
    }
    if looks < walked.count {
        return leave_all(window, source);
    }
    let look = goes_on(window, length, looks - walked.count, source)?;
    if !look.fine {
        return damage(window, look.left, source);
    }
    window.pass(length);
    Ok(Step {
        keeps: false,
        count: length as u64,
        left: gained(length, look.left),
    })
}
