//! The comments and the other options of the block that is written next.
ghost use Rattle.std.specs.Prelude.{◌≡◌, ◌++◌, [], OnOk, string_bytes};
ghost use Rattle.pcapng.specs.Blocks.{DESCRIPTION, NAME, options_spelling};
ghost use Rattle.sentence_parts.specs.Parts.{parts_text};
ghost use Rattle.line_capture.specs.Sentences.{AreFew, IsSentence, comment, said};

use pcapng::Options;
use sentence_parts::{Part, push_parts};
use std::alloc::{AllocError, Global};

/// The options of the block that is written next, and where their texts are made.
#[derive(Drop)]
pub struct Notes {
    pub alloc: Global,
    pub options: Options,
    pub text: String,
}

impl Notes {
    /// No option. It takes no memory.
    pub fn new(alloc: Global) -> Notes
        ensures { result.options ≡ [] }
    {
        Notes {
            alloc,
            options: Options::new(alloc),
            text: String::new(alloc),
        }
    }

    // Makes a text of parts.
    fn say(&mut self, parts: &[Part<'_>]) -> Result<(), AllocError>
        ensures text { OnOk result (string_bytes self.new.text ≡ parts_text parts.now) }
        ensures options { self.new.options ≡ self.old.options }
    {
        self.text.clear();
        push_parts(&mut self.text, self.alloc, parts)
    }

    /// A comment.
    pub fn comment(&mut self, parts: &[Part<'_>]) -> Result<(), AllocError>
        requires { IsSentence parts.now }
        ensures options { OnOk result (self.new.options
            ≡ self.old.options ++ options_spelling (comment parts.now)) }
        ensures few { AreFew 1 (comment parts.now) }
    {
        self.say(parts)?;
        self.options.comment(self.text.as_str())
    }

    /// The name of an interface.
    pub fn name(&mut self, parts: &[Part<'_>]) -> Result<(), AllocError>
        requires { IsSentence parts.now }
        ensures options { OnOk result (self.new.options
            ≡ self.old.options ++ options_spelling (said NAME parts.now)) }
        ensures few { AreFew 1 (said NAME parts.now) }
    {
        self.say(parts)?;
        self.options.name(self.text.as_str())
    }

    /// What an interface is.
    pub fn description(&mut self, parts: &[Part<'_>]) -> Result<(), AllocError>
        requires { IsSentence parts.now }
        ensures options { OnOk result (self.new.options
            ≡ self.old.options ++ options_spelling (said DESCRIPTION parts.now)) }
        ensures few { AreFew 1 (said DESCRIPTION parts.now) }
    {
        self.say(parts)?;
        self.options.description(self.text.as_str())
    }
}
