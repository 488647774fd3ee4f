// The edit of a document.
ghost use Rattle.std.specs.Prelude.{◌≡◌, if◌then◌else◌, option_map};
ghost use Rattle.bson_kinds.specs.Outcome.{result_map};
ghost use Rattle.bson_rawdoc.specs.DocumentView.{document_bytes};
ghost use Rattle.bson_rawdoc.specs.Walk.{walk_elements};
ghost use Rattle.bson_editing.specs.Answers.{Appends, IsTaken, outcome_bytes};
ghost use Rattle.bson_editing.specs.AroundView.{around_of};
ghost use Rattle.bson_editing.specs.Edited as edits;
ghost use Rattle.bson_editing.specs.Literal.{tree_of};
ghost use Rattle.bson_editing.specs.PlanView.{edit_of, name_of, steps_of};

use crate::around::Around;
use crate::bytes::put_front;
use crate::changes::Changes;
use crate::fault::{EditFault, taken};
use crate::literal::Literal;
use crate::plan::{Edit, Step};
use bson_io::MOST;
use bson_kinds::ElementType;
use bson_pass_parts::{close, element_len, put_element, put_run};
use bson_rawdoc::reading::inside;
use bson_rawdoc::{RawDocument, RawElement, next_element};
use bson_values::Stop;
use std::alloc::{AllocError, Global};

/// The most levels of documents and arrays in a value of a document.
const MOST_LEVELS: usize = 199;

/// Appends a document in which the elements that steps are for are edited, and all others are as they are. What was missing is behind the elements of its document, in the order
/// of the steps.
///
/// # Errors
///
/// The first refusal in the order of the document, with its path; `NoMemory` where memory ran out. Part of the document is in the buffer then.
pub fn edit_document<C: Changes>(
    alloc: Global,
    changes: &C,
    steps: &[Step],
    bytes: &[u8],
    out: &mut Vec<u8>,
) -> Result<(), Stop<EditFault<C::Refusal>>>
    ensures edited { Appends C.tells out.old.items out.new.items result (edits.edited (C.changing changes.now) (steps_of steps.now) bytes.now) }
{
    match RawDocument::from_bytes(bytes) {
        Ok(document) => {
            let around = Around {
                document,
                array: false,
                levels: MOST_LEVELS,
            };
            edit_elements(alloc, changes, steps, &around, out)
        }
        Err(fault) => Err(Stop::here(alloc, EditFault::Bytes(fault))),
    }
}

// The document or array with its elements edited.
#[cycle(edit)]
fn edit_elements<C: Changes>(
    alloc: Global,
    changes: &C,
    steps: &[Step],
    around: &Around<'_>,
    out: &mut Vec<u8>,
) -> Result<(), Stop<EditFault<C::Refusal>>>
    ensures { Appends C.tells out.old.items out.new.items result
        (edits.edited_in (C.changing changes.now) (steps_of steps.now) around.now.array around.now.levels (document_bytes around.now.document)) }
{
    let start = out.len();
    out.extend_from_slice(&[0, 0, 0, 0])?;
    edit_each(
        alloc,
        changes,
        steps,
        around,
        inside(around.document.as_bytes()),
        out,
    )?;
    put_missing(alloc, changes, steps, around, out)?;
    if out.len() - start >= MOST {
        return Err(Stop::here(alloc, EditFault::TooLong));
    }
    match close(out, start) {
        Some(()) => Ok(()),
        None => Err(Stop::NoMemory),
    }
}

// The elements of a document or an array, each edited. Those that no step is for are copied in runs.
#[cycle(edit)]
fn edit_each<C: Changes>(
    alloc: Global,
    changes: &C,
    steps: &[Step],
    around: &Around<'_>,
    elements: &[u8],
    out: &mut Vec<u8>,
) -> Result<(), Stop<EditFault<C::Refusal>>>
    ensures { Appends C.tells out.old.items out.new.items result (result_map edits.joined
        (edits.each_edited (edits.edited_by (C.changing changes.now) (steps_of steps.now) (around_of around.now)) 0 (walk_elements elements.now))) }
{
    let mut index = 0;
    let mut from = 0;
    let mut at = 0;
    while let Some(step) = next_element(&elements[at..]) {
        let element = match step {
            Ok((element, _)) => element,
            Err(fault) => return Err(Stop::here(alloc, EditFault::Bytes(fault))),
        };
        let pending = &elements[from..at];
        let taken = edit_next(alloc, changes, steps, around, index, pending, &element, out)?;
        at += element_len(&elements[at..], &element);
        from = run_start(taken, from, at);
        index += 1;
    }
    put_run(out, elements, from, at).ok_or(AllocError)?;
    Ok(())
}

// Where the run of pending elements begins behind an element.
fn run_start(taken: bool, from: usize, at: usize) -> usize
    ensures { result ≡ (if taken then at else from) }
{
    if taken { at } else { from }
}

// One element, by the first step that is for it, behind the bytes that are pending before it. Whether a step is for it.
#[cycle(edit)]
fn edit_next<C: Changes>(
    alloc: Global,
    changes: &C,
    steps: &[Step],
    around: &Around<'_>,
    index: u64,
    pending: &[u8],
    element: &RawElement<'_>,
    out: &mut Vec<u8>,
) -> Result<bool, Stop<EditFault<C::Refusal>>>
    ensures { IsTaken C.tells pending.now element.now out.old.items out.new.items result
        (edits.edited_by (C.changing changes.now) (steps_of steps.now) (around_of around.now) index element.now) }
{
    for step in steps {
        if step.is_for(around.array, element.key()) {
            out.extend_from_slice(pending)?;
            return match edit_by(alloc, changes, step, around, element, out) {
                Ok(()) => Ok(true),
                Err(stop) => Err(around.at_element(stop, index, element.key())),
            };
        }
    }
    Ok(false)
}

// One element, by a step.
#[cycle(edit)]
fn edit_by<C: Changes>(
    alloc: Global,
    changes: &C,
    step: &Step,
    around: &Around<'_>,
    element: &RawElement<'_>,
    out: &mut Vec<u8>,
) -> Result<(), Stop<EditFault<C::Refusal>>>
    ensures { Appends C.tells out.old.items out.new.items result (result_map outcome_bytes
        (edits.renamed (λ key. edits.edited_as (C.changing changes.now) (edit_of step.now.edit) around.now.levels key (edits.value_of element.now))
        (name_of step.now.to) element.now.key (around_of around.now).elements)) }
{
    let kind = element.element_type();
    let value = element.slice();
    match &step.to {
        None => edit_as(
            alloc,
            changes,
            &step.edit,
            around.levels,
            element.key(),
            kind,
            value,
            out,
        ),
        Some(to) => {
            if around.has_key(to.as_str()) {
                return Err(taken(alloc, to.as_str()));
            }
            edit_as(
                alloc,
                changes,
                &step.edit,
                around.levels,
                to.as_str(),
                kind,
                value,
                out,
            )
        }
    }
}

// One value, as that of an element that gets this key.
#[cycle(edit)]
fn edit_as<C: Changes>(
    alloc: Global,
    changes: &C,
    edit: &Edit,
    levels: usize,
    key: &str,
    kind: ElementType,
    bytes: &[u8],
    out: &mut Vec<u8>,
) -> Result<(), Stop<EditFault<C::Refusal>>>
    ensures { Appends C.tells out.old.items out.new.items result (result_map outcome_bytes
        (edits.edited_as (C.changing changes.now) (edit_of edit.now) levels key.now (record { kind = kind; bytes = bytes.now }))) }
{
    match edit {
        Edit::Keep => {
            put_element(out, kind, key, bytes).ok_or(AllocError)?;
            Ok(())
        }
        Edit::DropIt => Ok(()),
        Edit::Change(number) => {
            match changes.change(alloc, *number, levels, kind, bytes)? {
                Ok(made) => {
                    put_element(out, made.kind, key, &made.bytes).ok_or(AllocError)?;
                    Ok(())
                }
                Err(refusal) => Err(Stop::here(alloc, EditFault::Unchanged(refusal))),
            }
        }
        Edit::InsideIt(steps) => edit_nested(alloc, changes, steps, levels, key, kind, bytes, out),
    }
}

// One value whose elements are edited, if it has any.
#[cycle(edit)]
fn edit_nested<C: Changes>(
    alloc: Global,
    changes: &C,
    steps: &[Step],
    levels: usize,
    key: &str,
    kind: ElementType,
    bytes: &[u8],
    out: &mut Vec<u8>,
) -> Result<(), Stop<EditFault<C::Refusal>>>
    ensures { Appends C.tells out.old.items out.new.items result (result_map outcome_bytes
        (edits.with_nested (edits.edited_in (C.changing changes.now) (steps_of steps.now)) levels key.now (record { kind = kind; bytes = bytes.now }) (edits.nested kind))) }
{
    let Some(array) = nested(kind) else {
        put_element(out, kind, key, bytes).ok_or(AllocError)?;
        return Ok(());
    };
    let document = match RawDocument::from_bytes(bytes) {
        Ok(document) => document,
        Err(fault) => return Err(Stop::here(alloc, EditFault::Bytes(fault))),
    };
    put_front(out, kind, key.as_bytes())?;
    let around = Around {
        document,
        array,
        levels: levels.saturating_sub(1),
    };
    edit_elements(alloc, changes, steps, &around, out)
}

// Whether a value of the kind has elements, and is an array.
fn nested(kind: ElementType) -> Option<bool>
    ensures { result ≡ edits.nested kind }
{
    match kind {
        ElementType::EmbeddedDocument => Some(false),
        ElementType::Array => Some(true),
        _ => None,
    }
}

// The elements that steps put where they are missing.
#[cycle(edit)]
fn put_missing<C: Changes>(
    alloc: Global,
    changes: &C,
    steps: &[Step],
    around: &Around<'_>,
    out: &mut Vec<u8>,
) -> Result<(), Stop<EditFault<C::Refusal>>>
    ensures { Appends C.tells out.old.items out.new.items result (result_map edits.joined
        (edits.missing_by (C.changing changes.now) (steps_of steps.now) (around_of around.now))) }
{
    for step in steps {
        put_absent(alloc, changes, step, around, out)?;
    }
    Ok(())
}

// The element that a step puts where it is missing, if it does.
#[cycle(edit)]
fn put_absent<C: Changes>(
    alloc: Global,
    changes: &C,
    step: &Step,
    around: &Around<'_>,
    out: &mut Vec<u8>,
) -> Result<(), Stop<EditFault<C::Refusal>>>
    ensures { Appends C.tells out.old.items out.new.items result (result_map outcome_bytes
        (edits.put_absent (edits.edited_as (C.changing changes.now) (edit_of step.now.edit) around.now.levels) around.now.levels
        (edits.absent (around_of around.now) (name_of step.now.name) (option_map tree_of step.now.missing)))) }
{
    let (Some(name), Some(missing)) = (&step.name, &step.missing) else {
        return Ok(());
    };
    let name = name.as_str();
    if around.array || around.has_key(name) {
        return Ok(());
    }
    match put_value(
        alloc,
        changes,
        &step.edit,
        around.levels,
        name,
        missing,
        out,
    ) {
        Ok(()) => Ok(()),
        Err(stop) => Err(stop.under_key(name)),
    }
}

// A value that was missing, under its name.
#[cycle(edit)]
fn put_value<C: Changes>(
    alloc: Global,
    changes: &C,
    edit: &Edit,
    levels: usize,
    name: &str,
    missing: &Literal,
    out: &mut Vec<u8>,
) -> Result<(), Stop<EditFault<C::Refusal>>>
    ensures { Appends C.tells out.old.items out.new.items result (result_map outcome_bytes
        (edits.put_value (edits.edited_as (C.changing changes.now) (edit_of edit.now) levels) levels name.now (tree_of missing.now))) }
{
    if levels < missing.levels() {
        return Err(Stop::here(alloc, EditFault::TooDeep));
    }
    if MOST < missing.size() {
        return Err(Stop::here(alloc, EditFault::TooLong));
    }
    let bytes = missing.bytes(alloc)?;
    edit_as(
        alloc,
        changes,
        edit,
        levels,
        name,
        missing.element_type(),
        &bytes,
        out,
    )
}
