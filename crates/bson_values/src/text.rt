ghost use Rattle.std.specs.Prelude.{◌≡◌};
ghost use Rattle.bson_values.specs.TextView.{text_view};

/// A text, borrowed or owned.
#[derive(Debug, Drop)]
pub enum Text<'a> {
    /// Borrowed, by the input or by a shape.
    Borrowed(&'a str),
    /// Owned.
    Owned(String),
}

impl Text<'_> {
    /// The text, whoever owns it.
    pub fn as_str(&self) -> &str
        ensures text { result.now ≡ text_view self.now }
    {
        match self {
            Text::Borrowed(text) => text,
            Text::Owned(text) => text.as_str(),
        }
    }
}
