//! Laws. These functions do nothing; each contract says what follows from the definitions.

ghost use Rattle.std.specs.Prelude.{◌≡◌, IsUtf8, List, None, ℕ};
ghost use Rattle.encodings.specs.Labels.{for_bom};
ghost use Rattle.encodings.specs.declared.encoding.Encoding.TheVariants.{Utf8};
ghost use Rattle.text_decoding.specs.Pages.{page_text};

/// The text of a page in UTF-8 without a byte order mark is the page itself. So what a call states
/// of a page's text, it states of the bytes of such a page.
pub fn utf8_pages_are_their_texts()
    ensures { (bytes : List ℕ) → IsUtf8 bytes → for_bom bytes ≡ None
        → page_text Utf8 bytes ≡ bytes }
{}
