ghost use Rattle.std.specs.Prelude.{◌≡◌, None};

use std::marker::Model;

/// Options of the writer of values.
#[derive(Clone, Copy, Debug)]
pub struct SerializerOptions {
    /// Whether a value with two forms is written in its readable form; `None` means that it is.
    pub human_readable: Option<bool>,
}

impl Default for SerializerOptions {
    ghost use Rattle.std.specs.Prelude.{◌≡◌, None};

    ghost is_default = { λ o. o.human_readable ≡ None };

    /// Options that give none.
    fn default() -> SerializerOptions {
        SerializerOptions {
            human_readable: None,
        }
    }
}

impl SerializerOptions {
    /// A builder of options that gives none so far.
    pub fn builder() -> SerializerOptionsBuilder
        ensures none { result ≡ None }
    {
        SerializerOptionsBuilder {
            options: SerializerOptions {
                human_readable: None,
            },
        }
    }
}

/// Options that are given one after another. Contracts see it as the option `human_readable` so far.
#[derive(Clone, Copy, Debug)]
pub struct SerializerOptionsBuilder {
    options: SerializerOptions,
}

impl Model for SerializerOptionsBuilder {
    ghost use Rattle.std.specs.Prelude.{Bool, Option};

    ghost Value = { Option Bool };

    ghost view = { λ b. b.options.human_readable };

    ghost inverse = { λ o. record { options = record { human_readable = o } } };
}

impl SerializerOptionsBuilder {
    /// The same with `human_readable` given as this.
    pub fn human_readable(self, value: Option<bool>) -> SerializerOptionsBuilder
        ensures given { result ≡ value }
    {
        SerializerOptionsBuilder {
            options: SerializerOptions {
                human_readable: value,
            },
        }
    }

    /// The options that were given.
    pub fn build(self) -> SerializerOptions
        ensures options { result.human_readable ≡ self }
    {
        self.options
    }
}
