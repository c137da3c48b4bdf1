//! The quirks mode of a doctype (13.2.6.4.1).

ghost use Rattle.std.specs.Prelude.{◌≡◌, bytes_eq, codes, false, map};
ghost use Rattle.std.specs.List.{list_any};
ghost use Rattle.std.specs.Option.{option_map_or};
ghost use Rattle.standard_trees.specs.Building.{begins, is_half_quirky, is_quirky};
ghost use Rattle.standard_trees.specs.Building.{is_text, passes};
ghost use Rattle.standard_trees.specs.QuirksTexts.{either_quirks_public_begins};
ghost use Rattle.standard_trees.specs.QuirksTexts.{limited_quirks_public_begins};
ghost use Rattle.standard_trees.specs.QuirksTexts.{quirks_public_begins, quirks_public_is};
ghost use Rattle.standard_trees.specs.QuirksTexts.{quirks_system_is};
ghost use Rattle.page_trees.specs.Quirks.{bytes_in, quirks_mode_of, token_of};

use crate::adjusting::is_same_folded;
use dom_trees::quirks::QuirksMode;
use page_tokens::token::Doctype;

/// System identifiers of quirks mode.
static QUIRKY_SYSTEMS: [&str; 1] = ["http://www.ibm.com/data/dtd/v11/ibmxhtml1-transitional.dtd"];

/// Public identifiers of quirks mode.
static QUIRKY_NAMES: [&str; 3] = [
    "-//W3O//DTD W3 HTML Strict 3.0//EN//",
    "-/W3C/DTD HTML 4.0 Transitional/EN",
    "HTML",
];

/// Beginnings of public identifiers: limited quirks mode with a system identifier, quirks mode
/// without.
static HTML_4: [&str; 2] = [
    "-//W3C//DTD HTML 4.01 Frameset//",
    "-//W3C//DTD HTML 4.01 Transitional//",
];

/// Beginnings of public identifiers of limited quirks mode.
static XHTML: [&str; 2] = [
    "-//W3C//DTD XHTML 1.0 Frameset//",
    "-//W3C//DTD XHTML 1.0 Transitional//",
];

/// Beginnings of public identifiers of quirks mode.
static QUIRKY: [&str; 55] = [
    "+//Silmaril//dtd html Pro v0r11 19970101//",
    "-//AS//DTD HTML 3.0 asWedit + extensions//",
    "-//AdvaSoft Ltd//DTD HTML 3.0 asWedit + extensions//",
    "-//IETF//DTD HTML 2.0 Level 1//",
    "-//IETF//DTD HTML 2.0 Level 2//",
    "-//IETF//DTD HTML 2.0 Strict Level 1//",
    "-//IETF//DTD HTML 2.0 Strict Level 2//",
    "-//IETF//DTD HTML 2.0 Strict//",
    "-//IETF//DTD HTML 2.0//",
    "-//IETF//DTD HTML 2.1E//",
    "-//IETF//DTD HTML 3.0//",
    "-//IETF//DTD HTML 3.2 Final//",
    "-//IETF//DTD HTML 3.2//",
    "-//IETF//DTD HTML 3//",
    "-//IETF//DTD HTML Level 0//",
    "-//IETF//DTD HTML Level 1//",
    "-//IETF//DTD HTML Level 2//",
    "-//IETF//DTD HTML Level 3//",
    "-//IETF//DTD HTML Strict Level 0//",
    "-//IETF//DTD HTML Strict Level 1//",
    "-//IETF//DTD HTML Strict Level 2//",
    "-//IETF//DTD HTML Strict Level 3//",
    "-//IETF//DTD HTML Strict//",
    "-//IETF//DTD HTML//",
    "-//Metrius//DTD Metrius Presentational//",
    "-//Microsoft//DTD Internet Explorer 2.0 HTML Strict//",
    "-//Microsoft//DTD Internet Explorer 2.0 HTML//",
    "-//Microsoft//DTD Internet Explorer 2.0 Tables//",
    "-//Microsoft//DTD Internet Explorer 3.0 HTML Strict//",
    "-//Microsoft//DTD Internet Explorer 3.0 HTML//",
    "-//Microsoft//DTD Internet Explorer 3.0 Tables//",
    "-//Netscape Comm. Corp.//DTD HTML//",
    "-//Netscape Comm. Corp.//DTD Strict HTML//",
    "-//O'Reilly and Associates//DTD HTML 2.0//",
    "-//O'Reilly and Associates//DTD HTML Extended 1.0//",
    "-//O'Reilly and Associates//DTD HTML Extended Relaxed 1.0//",
    "-//SQ//DTD HTML 2.0 HoTMetaL + extensions//",
    "-//SoftQuad Software//DTD HoTMetaL PRO 6.0::19990601::extensions to HTML 4.0//",
    "-//SoftQuad//DTD HoTMetaL PRO 4.0::19971010::extensions to HTML 4.0//",
    "-//Spyglass//DTD HTML 2.0 Extended//",
    "-//Sun Microsystems Corp.//DTD HotJava HTML//",
    "-//Sun Microsystems Corp.//DTD HotJava Strict HTML//",
    "-//W3C//DTD HTML 3 1995-03-24//",
    "-//W3C//DTD HTML 3.2 Draft//",
    "-//W3C//DTD HTML 3.2 Final//",
    "-//W3C//DTD HTML 3.2//",
    "-//W3C//DTD HTML 3.2S Draft//",
    "-//W3C//DTD HTML 4.0 Frameset//",
    "-//W3C//DTD HTML 4.0 Transitional//",
    "-//W3C//DTD HTML Experimental 19960712//",
    "-//W3C//DTD HTML Experimental 970421//",
    "-//W3C//DTD W3 HTML//",
    "-//W3O//DTD W3 HTML 3.0//",
    "-//WebTechs//DTD Mozilla HTML 2.0//",
    "-//WebTechs//DTD Mozilla HTML//",
];

/// Returns whether the text starts with the other one, in upper or lower case.
fn begins(text: &str, front: &str) -> bool
    ensures { result ≡ begins text.now front.now }
{
    match text.as_bytes().get(..front.len()) {
        Some(bytes) => bytes.eq_ignore_ascii_case(front.as_bytes()),
        None => false,
    }
}

fn begins_any(text: &str, fronts: &[&str]) -> bool
    ensures { result ≡ list_any (begins text.now) (map (λ front. front.now) fronts.now) }
{
    for front in fronts {
        if begins(text, front) {
            return true;
        }
    }
    false
}

fn is_any(text: &str, others: &[&str]) -> bool
    ensures { result ≡ list_any (is_text text.now) (map (λ other. other.now) others.now) }
{
    for other in others {
        if is_same_folded(text, other) {
            return true;
        }
    }
    false
}

/// Returns whether an identifier starts with one of these. A missing one starts with none.
fn starts_with_any(id: &Option<String>, fronts: &[&str]) -> bool
    ensures { result ≡ passes begins (bytes_in id.now) (map (λ front. front.now) fronts.now) }
{
    match id {
        Some(id) => begins_any(id.as_str(), fronts),
        None => false,
    }
}

/// Returns whether an identifier is one of these. A missing one is none of them.
fn is_one_of(id: &Option<String>, others: &[&str]) -> bool
    ensures { result ≡ passes is_text (bytes_in id.now) (map (λ other. other.now) others.now) }
{
    match id {
        Some(id) => is_any(id.as_str(), others),
        None => false,
    }
}

/// Returns whether this public identifier is one of quirks mode.
#[tactic(auto, unfolding(standard_trees::specs::QuirksTexts::quirks_public_is))]
fn is_quirky_public(id: &Option<String>) -> bool
    ensures { result ≡ passes is_text (bytes_in id.now) quirks_public_is }
{
    is_one_of(id, &QUIRKY_NAMES)
}

/// Returns whether this system identifier is one of quirks mode.
#[tactic(auto, unfolding(standard_trees::specs::QuirksTexts::quirks_system_is))]
fn is_quirky_system(id: &Option<String>) -> bool
    ensures { result ≡ passes is_text (bytes_in id.now) quirks_system_is }
{
    is_one_of(id, &QUIRKY_SYSTEMS)
}

/// Returns whether this public identifier has a beginning of quirks mode.
#[tactic(auto, unfolding(standard_trees::specs::QuirksTexts::quirks_public_begins))]
fn has_quirky_front(id: &Option<String>) -> bool
    ensures { result ≡ passes begins (bytes_in id.now) quirks_public_begins }
{
    starts_with_any(id, &QUIRKY)
}

/// Returns whether this public identifier is one of HTML 4: limited quirks mode with a system
/// identifier, quirks mode without.
#[tactic(auto, unfolding(standard_trees::specs::QuirksTexts::either_quirks_public_begins))]
fn is_html_4(id: &Option<String>) -> bool
    ensures { result ≡ passes begins (bytes_in id.now) either_quirks_public_begins }
{
    starts_with_any(id, &HTML_4)
}

/// Returns whether this public identifier is one of limited quirks mode.
#[tactic(auto, unfolding(standard_trees::specs::QuirksTexts::limited_quirks_public_begins))]
fn is_xhtml(id: &Option<String>) -> bool
    ensures { result ≡ passes begins (bytes_in id.now) limited_quirks_public_begins }
{
    starts_with_any(id, &XHTML)
}

fn is_html(name: &Option<String>) -> bool
    ensures { result ≡ option_map_or (bytes_eq (codes "html")) (bytes_in name.now) false }
{
    match name {
        Some(name) => "html" == name.as_str(),
        None => false,
    }
}

/// Returns whether a document with this doctype is in quirks mode.
fn is_quirky(doctype: &Doctype) -> bool
    ensures { result ≡ is_quirky (token_of doctype.now) }
{
    if doctype.force_quirks {
        return true;
    }
    if !is_html(&doctype.name) {
        return true;
    }
    if is_quirky_public(&doctype.public_id) {
        return true;
    }
    if is_quirky_system(&doctype.system_id) {
        return true;
    }
    if has_quirky_front(&doctype.public_id) {
        return true;
    }
    doctype.system_id.is_none() && is_html_4(&doctype.public_id)
}

/// Returns whether a document with this doctype is in limited quirks mode, if it isn't in quirks
/// mode.
fn is_limited(doctype: &Doctype) -> bool
    ensures { result ≡ is_half_quirky (token_of doctype.now) }
{
    if is_xhtml(&doctype.public_id) {
        return true;
    }
    is_html_4(&doctype.public_id)
}

/// Returns the quirks mode of a document with this doctype.
pub fn mode_of(doctype: &Doctype) -> QuirksMode
    ensures { result ≡ quirks_mode_of doctype.now }
{
    if is_quirky(doctype) {
        QuirksMode::Quirks
    } else if is_limited(doctype) {
        QuirksMode::LimitedQuirks
    } else {
        QuirksMode::NoQuirks
    }
}
