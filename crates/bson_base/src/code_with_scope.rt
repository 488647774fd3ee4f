use crate::document::Document;

/// JavaScript code with a document of the names that it may use.
///
/// Source: bsonspec.org, version 1.1, `code_w_s`.
#[cycle(bson)]
#[derive(Debug, Drop)]
pub struct JavaScriptCodeWithScope {
    /// The code.
    pub code: String,
    /// The names with their values.
    pub scope: Document,
}
