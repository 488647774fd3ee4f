// A value that an edit puts where one is missing.
ghost use Rattle.std.specs.Prelude.{◌≡◌, ◌≤◌, length, IfOk};
ghost use Rattle.bson_base.specs.Sound.{max_bytes};
ghost use Rattle.bson_base.specs.Tree.{kind, enc, depth, closed_text};
ghost use Rattle.bson_editing.specs.Literal.{tree_of};

use bson_io::MOST;
use bson_kinds::ElementType;
use std::alloc::{AllocError, Global};

/// A value that an edit puts where one is missing.
#[derive(Debug, Drop)]
pub enum Literal {
    /// Null.
    Null,
    /// A boolean.
    Boolean(bool),
    /// An Int32.
    Int32(i32),
    /// An Int64.
    Int64(i64),
    /// A text.
    Text(String),
    /// An array without elements.
    EmptyArray,
    /// A document without elements.
    EmptyDocument,
}

impl Literal {
    /// The kind of the value.
    pub fn element_type(&self) -> ElementType
        ensures kind { result ≡ kind (tree_of self.now) }
    {
        match self {
            Literal::Null => ElementType::Null,
            Literal::Boolean(_) => ElementType::Boolean,
            Literal::Int32(_) => ElementType::Int32,
            Literal::Int64(_) => ElementType::Int64,
            Literal::Text(_) => ElementType::String,
            Literal::EmptyArray => ElementType::Array,
            Literal::EmptyDocument => ElementType::EmbeddedDocument,
        }
    }

    /// How many levels of documents and arrays it has.
    pub(crate) fn levels(&self) -> usize
        ensures { result ≡ depth (tree_of self.now) }
    {
        match self {
            Literal::EmptyArray | Literal::EmptyDocument => 1,
            Literal::Null
            | Literal::Boolean(_)
            | Literal::Int32(_)
            | Literal::Int64(_)
            | Literal::Text(_) => 0,
        }
    }

    /// How many bytes it takes.
    pub(crate) fn size(&self) -> usize
        ensures { result ≡ length (enc (tree_of self.now)) }
    {
        match self {
            Literal::Null => 0,
            Literal::Boolean(_) => 1,
            Literal::Int32(_) => 4,
            Literal::Int64(_) => 8,
            Literal::Text(text) => text.as_str().len() + 5,
            Literal::EmptyArray => 5,
            Literal::EmptyDocument => 5,
        }
    }

    /// Its bytes, which are not too many.
    #[tactic(auto, unfolding(bson_base::specs::Tree::le32, bson_base::specs::Tree::le64))]
    pub(crate) fn bytes(&self, alloc: Global) -> Result<Vec<u8>, AllocError>
        requires { length (enc (tree_of self.now)) ≤ max_bytes }
        ensures { IfOk result (λ v. v.items ≡ enc (tree_of self.now)) }
    {
        match self {
            Literal::Null => Ok(Vec::new(alloc)),
            Literal::Boolean(truth) => [u8::from(*truth)].to_vec(alloc),
            Literal::Int32(number) => number.to_le_bytes().to_vec(alloc),
            Literal::Int64(number) => number.to_le_bytes().to_vec(alloc),
            Literal::Text(text) => text_bytes(alloc, text.as_str()),
            Literal::EmptyArray | Literal::EmptyDocument => [5, 0, 0, 0, 0].to_vec(alloc),
        }
    }
}

// A text: its length and one in four bytes, its bytes, a zero.
#[tactic(auto, unfolding(bson_base::specs::Tree::le32))]
fn text_bytes(alloc: Global, text: &str) -> Result<Vec<u8>, AllocError>
    requires { length (closed_text text.now) ≤ max_bytes }
    ensures { IfOk result (λ v. v.items ≡ closed_text text.now) }
{
    let length = text.len() as u32 + 1;
    let mut bytes = length.to_le_bytes().to_vec(alloc)?;
    bytes.extend_from_slice(text.as_bytes())?;
    bytes.push(0)?;
    Ok(bytes)
}
