ghost use Rattle.std.specs.Prelude.{◌≡◌, None};
ghost use Rattle.bson_de_tree.specs.Options.{is_readable};

use std::marker::Model;

/// Options of the reader of values in memory.
#[derive(Clone, Copy, Debug)]
pub struct DeserializerOptions {
    /// Whether of a value with two forms the readable one is read; `None` means that it is.
    pub human_readable: Option<bool>,
}

impl Default for DeserializerOptions {
    ghost use Rattle.std.specs.Prelude.{◌≡◌, None};

    ghost is_default = { λ o. o.human_readable ≡ None };

    /// Options that give none.
    fn default() -> DeserializerOptions {
        DeserializerOptions {
            human_readable: None,
        }
    }
}

impl DeserializerOptions {
    /// A builder of options that gives none so far.
    pub fn builder() -> DeserializerOptionsBuilder
        ensures none { result ≡ None }
    {
        DeserializerOptionsBuilder {
            options: DeserializerOptions {
                human_readable: None,
            },
        }
    }

    /// Whether the reader is human.
    pub(crate) fn is_readable(self) -> bool
        ensures { result ≡ is_readable self.human_readable }
    {
        match self.human_readable {
            Some(readable) => readable,
            None => true,
        }
    }
}

/// Options that are given one after another. Contracts see it as the option `human_readable` so far.
#[derive(Clone, Copy, Debug)]
pub struct DeserializerOptionsBuilder {
    options: DeserializerOptions,
}

impl Model for DeserializerOptionsBuilder {
    ghost use Rattle.std.specs.Prelude.{Bool, Option};

    ghost Value = { Option Bool };

    ghost view = { λ b. b.options.human_readable };

    ghost inverse = { λ o. record { options = record { human_readable = o } } };
}

impl DeserializerOptionsBuilder {
    /// The same with `human_readable` given as this.
    pub fn human_readable(self, value: Option<bool>) -> DeserializerOptionsBuilder
        ensures given { result ≡ value }
    {
        DeserializerOptionsBuilder {
            options: DeserializerOptions {
                human_readable: value,
            },
        }
    }

    /// The options that were given.
    pub fn build(self) -> DeserializerOptions
        ensures options { result.human_readable ≡ self }
    {
        self.options
    }
}
