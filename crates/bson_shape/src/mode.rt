// What the parser reads at the moment.
use crate::Shape;
use crate::group::Group;

/// Whose name is read.
#[derive(Drop)]
pub(crate) enum Owner {
    /// A form that begins at this place.
    FormAt(usize),
    /// The next item of this group.
    ItemOf(Group),
    /// A reference that begins at this place.
    ReferenceAt(usize),
}

/// A sign that begins a form and needs a certain byte behind it.
#[derive(Clone, Copy)]
pub(crate) enum Sign {
    /// `%`, before two forms.
    Percent,
    /// `&`, before definitions.
    Ampersand,
    /// `@`, before the name of a reference.
    At,
}

/// What is read at the moment.
#[derive(Drop)]
pub(crate) enum Mode {
    /// A form is expected.
    FormDue,
    /// Behind a sign with which the form at this place begins.
    BehindSign(Sign, usize),
    /// An item is expected, or the closing bracket where the group has no item.
    ItemDue(Group),
    /// Inside a bare name.
    Bare(Owner, String),
    /// Inside a quoted name.
    Quoted(Owner, String),
    /// Inside a quoted name, behind a backslash.
    Escape(Owner, String),
    /// Behind a quoted name.
    Named(Owner, String),
    /// Behind the last byte of an item that has one of its own.
    ItemDone(Group),
    /// Behind the last byte of a form that has one of its own.
    Done(Shape),
}
