//! A text that grows by refusable steps.

ghost use Rattle.std.specs.Fmt.{decimal};
ghost use Rattle.std.specs.Prelude.{◌≡◌, ◌==◌, ◌+◌, ◌<◌, ◌≤◌, [], ◌++◌, length, slice_get, IfOk, OnOk, OnErr, IfErr, encode_utf8};

use crate::OutOfMemory;
use itoa::Buffer;
use std::alloc::Global;
use std::marker::Model;

/// A text that grows at its end. Contracts see its bytes in UTF-8 as its `items`, and as `spare` how
/// many more bytes it takes without asking for memory.
#[derive(Drop)]
pub struct Text {
    text: String,
}

impl Model for Text {
    ghost use Rattle.std.specs.Prelude.{ℕ, ◌-◌};
    ghost use Rattle.std.specs.String.{string_bytes, string_len, string_capacity};
    ghost use Rattle.ds_base.specs.Items.{Items};

    ghost Value = { Items ℕ };

    ghost view = { λ text. record { items = string_bytes text.text; spare = string_capacity text.text - string_len text.text } };
}

impl Text {
    /// The empty text, whose growth comes from `alloc`. It takes no memory.
    pub fn new(alloc: Global) -> Self
        ensures { result.items ≡ [] }
    {
        Text {
            text: String::new(alloc),
        }
    }

    /// The empty text with room for `bytes`, whose growth comes from `alloc`.
    pub fn with_room(alloc: Global, bytes: u64) -> Result<Self, OutOfMemory>
        ensures empty { IfOk result (λ text. text.items ≡ []) }
        ensures room { IfOk result (λ text. bytes ≤ text.spare) }
    {
        match String::with_capacity(alloc, bytes as usize) {
            Ok(text) => Ok(Text { text }),
            Err(_) => Err(OutOfMemory),
        }
    }

    /// Where its growth comes from.
    pub fn allocator(&self) -> Global {
        *self.text.allocator()
    }

    /// How many bytes there are.
    pub fn len(&self) -> u64
        ensures { result ≡ length self.now.items }
    {
        self.text.len() as u64
    }

    /// Whether there is no byte.
    pub fn is_empty(&self) -> bool
        ensures { result ≡ (length self.now.items == 0) }
    {
        self.text.is_empty()
    }

    /// The byte at `i`, counted from 0.
    pub fn get(&self, i: u64) -> &u8
        requires { i < length self.now.items }
        ensures { slice_get self.now.items i ≡ Some result.now }
    {
        &self.text.as_bytes()[i as usize]
    }

    /// The whole text.
    pub fn as_str(&self) -> &str
        ensures { result.now ≡ self.now.items }
    {
        self.text.as_str()
    }

    /// Puts a character at the end. It is refused for want of memory alone; then the text is as it
    /// was and the character comes back.
    pub fn push(&mut self, ch: char) -> Result<(), char>
        ensures pushed { OnOk result (self.new.items ≡ self.old.items ++ encode_utf8 ch) }
        ensures refused { IfErr result (λ back. (back ≡ ch) × (self.new.items ≡ self.old.items)) }
        ensures full { OnErr result (self.old.spare < length (encode_utf8 ch)) }
    {
        match self.text.push(ch) {
            Ok(()) => Ok(()),
            Err(_) => Err(ch),
        }
    }

    /// Puts a piece at the end. It is refused for want of memory alone; then the text is as it was.
    pub fn push_str(&mut self, piece: &str) -> Result<(), OutOfMemory>
        ensures pushed { OnOk result (self.new.items ≡ self.old.items ++ piece.now) }
        ensures refused { OnErr result (self.new.items ≡ self.old.items) }
        ensures full { OnErr result (self.old.spare < length piece.now) }
    {
        match self.text.push_str(piece) {
            Ok(()) => Ok(()),
            Err(_) => Err(OutOfMemory),
        }
    }

    /// Puts a number in decimal at the end. It is refused for want of memory alone; then the text is
    /// as it was.
    pub fn push_decimal(&mut self, n: u128) -> Result<(), OutOfMemory>
        ensures pushed { OnOk result (self.new.items ≡ self.old.items ++ decimal n) }
        ensures refused { OnErr result (self.new.items ≡ self.old.items) }
        ensures full { OnErr result (self.old.spare < length (decimal n)) }
    {
        let mut digits = Buffer::new();
        match u64::try_from(n) {
            Ok(small) => self.push_str(digits.format(small)),
            Err(_) => self.push_str(digits.format(n)),
        }
    }
}
