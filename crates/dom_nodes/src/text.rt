//! Strings of valid UTF-8. Up to 30 bytes are stored in the value itself, without an allocation.

ghost use Rattle.std.specs.Prelude.{◌≡◌, ◌≤◌, ◌++◌, IfOk, IfSome, MatchOption, OnErr, OnOk, List};
ghost use Rattle.std.specs.Prelude.{ℕ, length};
ghost use Rattle.dom_nodes.specs.Blocks.{LiesAt};
ghost use Rattle.dom_nodes.specs.Forms.{form_bytes};

mod part;
mod rare;
mod short;

use crate::fault::OutOfMemory;
pub use part::TextBlock;
use part::TextPart;
pub use rare::RareText;
use short::ShortText;
use std::alloc::Global;
use std::marker::Model;

/// A string. In a contract a `Text` is the list of its bytes.
pub struct Text {
    form: Form,
    alloc: Global,
}

/// Destructures by hand, so that code that drops a text needs no case for each storage form.
impl Drop for Text {
    #[inline(always)]
    fn drop(self) {
        let Text { form, alloc: _ } = self;
        drop(form);
    }
}

/// How the bytes of a text are stored: in the value, in memory of its own, or in a shared block.
#[derive(Drop)]
enum Form {
    Short(ShortText),
    Long(String),
    Part(TextPart),
}

impl Model for Text {
    ghost use Rattle.std.specs.Prelude.{List, ℕ};
    ghost use Rattle.dom_nodes.specs.Forms.{form_bytes};

    ghost Value = { List ℕ };

    ghost view = { λ text. form_bytes text.form };
}

impl Text {
    /// Returns a copy of `text`. Only more than 30 bytes need an allocation; it fails with
    /// `OutOfMemory` when that is refused.
    pub fn new(alloc: Global, text: &str) -> Result<Text, OutOfMemory>
        ensures { IfOk result (λ made. made ≡ text.now) }
    {
        let form = match ShortText::new(text) {
            Some(short) => Form::Short(short),
            None => Form::Long(String::from_str(alloc, text)?),
        };
        Ok(Text { form, alloc })
    }

    /// Returns the text that lies in the block from index `start` on. The block is shared and
    /// nothing is copied or allocated. It fails with `OutOfMemory` only when the reference count of
    /// the block is full.
    pub fn within(
        alloc: Global,
        block: &TextBlock,
        start: usize,
        text: &str,
    ) -> Result<Text, OutOfMemory>
        requires { LiesAt text.now start block.now }
        ensures { IfOk result (λ made. made ≡ text.now) }
    {
        let form = Form::Part(TextPart::new(block, start, text)?);
        Ok(Text { form, alloc })
    }

    /// Returns the text.
    #[inline(always)]
    pub fn as_str(&self) -> &str
        ensures { result.now ≡ self.now }
    {
        match &self.form {
            Form::Short(short) => short.as_str(),
            Form::Long(letters) => letters.as_str(),
            Form::Part(part) => part.as_str(),
        }
    }

    /// Appends `more`. When memory is refused, it fails with `OutOfMemory` and the text is
    /// unchanged. The capacity of a long text doubles, so a text that grows by small pieces takes
    /// linear time.
    pub fn push_str(&mut self, more: &str) -> Result<(), OutOfMemory>
        ensures ok { OnOk result (self.new ≡ self.old ++ more.now) }
        ensures err { OnErr result (self.new ≡ self.old) }
    {
        match &mut self.form {
            Form::Long(letters) => {
                letters.push_str(more)?;
            }
            Form::Short(short) => {
                let form = lengthened(self.alloc, short, more)?;
                self.form = form;
            }
            Form::Part(part) => {
                let form = joined(self.alloc, part.as_str(), more)?;
                self.form = form;
            }
        }
        Ok(())
    }

    /// Returns a copy if the text is stored in the value itself (at most 30 bytes), and `None`
    /// otherwise.
    #[inline(always)]
    pub(crate) fn short_copy(&self) -> Option<Text>
        ensures { IfSome result (λ made. made ≡ self.now) }
    {
        match &self.form {
            Form::Short(short) => Some(Text {
                form: Form::Short(short.copied()),
                alloc: self.alloc,
            }),
            Form::Long(_) => None,
            Form::Part(_) => None,
        }
    }

    /// Returns a copy. A text in a shared block stays in that block; any other text gets memory of
    /// its own.
    pub(crate) fn shared_copy(&self) -> Result<Text, OutOfMemory>
        ensures { IfOk result (λ made. made ≡ self.now) }
    {
        let Form::Part(part) = &self.form else {
            return self.try_clone();
        };
        Ok(Text {
            form: Form::Part(part.shared()?),
            alloc: self.alloc,
        })
    }

    /// Returns a copy in memory of its own, or `OutOfMemory`.
    pub fn try_clone(&self) -> Result<Text, OutOfMemory>
        ensures { IfOk result (λ made. made ≡ self.now) }
    {
        let form = match &self.form {
            Form::Short(short) => Form::Short(short.copied()),
            Form::Long(letters) => Form::Long(String::from_str(self.alloc, letters.as_str())?),
            Form::Part(part) => Form::Long(String::from_str(self.alloc, part.as_str())?),
        };
        Ok(Text {
            form,
            alloc: self.alloc,
        })
    }

    /// Returns the allocator of the text.
    pub(crate) fn allocator(&self) -> Global {
        self.alloc
    }
}

/// Returns the text `short` with `more` appended.
fn lengthened(alloc: Global, short: &ShortText, more: &str) -> Result<Form, OutOfMemory>
    ensures { IfOk result (λ form. form_bytes form ≡ short.now ++ more.now) }
{
    if let Some(longer) = short.lengthened(more) {
        return Ok(Form::Short(longer));
    }
    joined(alloc, short.as_str(), more)
}

/// Returns `text` with `more` appended, in memory of its own.
fn joined(alloc: Global, text: &str, more: &str) -> Result<Form, OutOfMemory>
    ensures { IfOk result (λ form. form_bytes form ≡ text.now ++ more.now) }
{
    let mut letters = String::from_str(alloc, text)?;
    letters.push_str(more)?;
    Ok(Form::Long(letters))
}

impl From<String> for Text {
    ghost use Rattle.std.specs.Prelude.{string_bytes};

    ghost from_gives = { λ letters made. made ≡ string_bytes letters };

    fn from(letters: String) -> Text {
        let alloc = *letters.allocator();
        let form = match ShortText::new(letters.as_str()) {
            Some(short) => Form::Short(short),
            None => Form::Long(letters),
        };
        Text { form, alloc }
    }
}
