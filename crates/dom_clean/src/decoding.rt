//! Cleans bytes in any encoding.

ghost use Rattle.std.specs.Prelude.{◌≡◌, IfOk, string_bytes};
ghost use Rattle.decoded_text.specs.Characters.{errors_in};
ghost use Rattle.dom_clean.specs.Sources.{IsCleanOf, IsCleanPageOf};
ghost use Rattle.text_decoding.specs.Decoding.{characters};
ghost use Rattle.text_decoding.specs.Pages.{IsPageEncoding, behind_mark, page_text};

use crate::cleaning::{clean, clean_page};
use crate::policy::Policy;
use page_reading::{Charset, Confidence, Encoding, PageFault, decode_page};
use std::alloc::Global;

/// What a policy leaves of bytes, in UTF-8, and the encoding that the bytes were in.
#[derive(Drop)]
pub struct CleanedBytes {
    /// The text of what was left.
    pub text: String,
    /// The encoding that the bytes were in.
    pub encoding: Encoding,
    /// What says so.
    pub confidence: Confidence,
    /// How many times U+FFFD stands in the decoded text for bytes that could not be decoded.
    pub replaced: usize,
}

/// Returns the text of what the policy leaves of a fragment in whatever encoding, as `clean` does:
/// all that `clean` promises of a fragment is promised of the decoded text (clause `text`). So bytes
/// in UTF-8 that were cleaned by the same policy are returned as they are.
///
/// The encoding is found as `decode_page` finds it: from a byte order mark, or else from the
/// transport, or else from what the fragment declares, or else from the fallback. The byte order
/// mark isn't part of the fragment. Fails only if memory is refused or the node ids run out.
pub fn clean_bytes(
    alloc: Global,
    bytes: &[u8],
    charset: Charset,
    policy: &Policy,
) -> Result<CleanedBytes, PageFault>
    ensures text { IfOk result (λ cleaned. IsCleanOf policy.now
        (page_text cleaned.encoding bytes.now) (string_bytes cleaned.text)) }
    ensures encoding { IfOk result (λ cleaned.
        IsPageEncoding charset bytes.now cleaned.encoding cleaned.confidence) }
    ensures replaced { IfOk result (λ cleaned.
        cleaned.replaced ≡ errors_in (characters cleaned.encoding (behind_mark bytes.now))) }
{
    let page = decode_page(alloc, bytes, charset)?;
    let text = clean(alloc, page.text.as_str(), policy)?;
    Ok(CleanedBytes {
        text,
        encoding: page.encoding,
        confidence: page.confidence,
        replaced: page.text.replaced(),
    })
}

/// Returns a page with what the policy leaves of the body of a page in whatever encoding, as
/// `clean_page` does: all that `clean_page` promises of a page is promised of the decoded text. The
/// encoding is found as `clean_bytes` finds it, and the page that is returned is in UTF-8. Fails only
/// if memory is refused or the node ids run out.
pub fn clean_page_bytes(
    alloc: Global,
    bytes: &[u8],
    charset: Charset,
    policy: &Policy,
) -> Result<CleanedBytes, PageFault>
    ensures text { IfOk result (λ cleaned. IsCleanPageOf policy.now
        (page_text cleaned.encoding bytes.now) (string_bytes cleaned.text)) }
    ensures encoding { IfOk result (λ cleaned.
        IsPageEncoding charset bytes.now cleaned.encoding cleaned.confidence) }
    ensures replaced { IfOk result (λ cleaned.
        cleaned.replaced ≡ errors_in (characters cleaned.encoding (behind_mark bytes.now))) }
{
    let page = decode_page(alloc, bytes, charset)?;
    let text = clean_page(alloc, page.text.as_str(), policy)?;
    Ok(CleanedBytes {
        text,
        encoding: page.encoding,
        confidence: page.confidence,
        replaced: page.text.replaced(),
    })
}
