/// A form of extended JSON.
///
/// Source: MongoDB's extended JSON, version 2.
#[derive(Clone, Copy, Debug, PartialEq, Eq)]
pub enum JsonForm {
    /// Each value keeps its kind and all of its bits: an Int32 is `{"$numberInt":"1"}`.
    Canonical,
    /// Numbers and dates as people and other programs read them: an Int32 is `1`.
    Relaxed,
}
